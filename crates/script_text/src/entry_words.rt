// Reads a line of a trace: an entry with the bytes beside it.
ghost use Rattle.std.specs.Prelude.{◌≡◌, ◌∷◌, [], IfOk, map, option_map};
ghost use Rattle.script_text.specs.EntryGrammar.{kind_of, turn_said, poll_said, want_said, ready_said, poll_failed_said, opened_said};
ghost use Rattle.script_text.specs.EntryGrammar.{conn_said, end_and_number_of, got_said, read_said, took_said, write_said, fired_said};
ghost use Rattle.script_text.specs.EntryGrammar.{last_and_front, asked_by, asked_said, freed_said, close_write_said, close_said};
ghost use Rattle.script_text.specs.EntryGrammar.{alone as alone_of, event_by, event_said};

use crate::ByteList;
use crate::act_words::read_act;
use crate::value_words::{
    lower_bytes, read_ask, read_cause, read_conn, read_end, read_link, read_marks, read_read,
    read_why, read_write,
};
use crate::words::{is_word, number};
use ev_types::{Entry, NoMemory, ReadAnswer, Side, SideId, WriteAnswer};
use std::alloc::Global;

/// The kind of an entry, which the first word of its line tells.
///
/// Own.
#[derive(Clone, Copy)]
pub enum EntryKind {
    Turn,
    Poll,
    Want,
    Ready,
    PollFailed,
    Opened,
    Conn,
    Read,
    Write,
    Fired,
    Asked,
    Freed,
    CloseWrite,
    Close,
}

fn read_kind(word: &[u8]) -> Option<EntryKind>
    ensures { result ≡ kind_of word.now }
{
    if is_word(word, "turn") {
        Some(EntryKind::Turn)
    } else if is_word(word, "poll") {
        Some(EntryKind::Poll)
    } else if is_word(word, "want") {
        Some(EntryKind::Want)
    } else if is_word(word, "ready") {
        Some(EntryKind::Ready)
    } else if is_word(word, "pollfail") {
        Some(EntryKind::PollFailed)
    } else if is_word(word, "open") {
        Some(EntryKind::Opened)
    } else if is_word(word, "conn") {
        Some(EntryKind::Conn)
    } else if is_word(word, "read") {
        Some(EntryKind::Read)
    } else if is_word(word, "write") {
        Some(EntryKind::Write)
    } else if is_word(word, "fired") {
        Some(EntryKind::Fired)
    } else if is_word(word, "asked") {
        Some(EntryKind::Asked)
    } else if is_word(word, "freed") {
        Some(EntryKind::Freed)
    } else if is_word(word, "closewrite") {
        Some(EntryKind::CloseWrite)
    } else if is_word(word, "close") {
        Some(EntryKind::Close)
    } else {
        None
    }
}

/// What a line with these words says. Takes memory for the bytes and flags that stand in it as hex digits.
pub fn event_of(alloc: Global, words: &[&[u8]]) -> Result<Option<(Entry, ByteList)>, NoMemory>
    ensures { IfOk result (λ event. event ≡ event_said (map (λ w. w.now) words.now)) }
{
    let Some((first, more)) = words.split_first() else {
        return Ok(None);
    };
    match read_kind(first) {
        Some(kind) => event_of_kind(alloc, kind, more),
        None => Ok(None),
    }
}

/// What a line of this kind says with these further words.
fn event_of_kind(
    alloc: Global,
    kind: EntryKind,
    more: &[&[u8]],
) -> Result<Option<(Entry, ByteList)>, NoMemory>
    ensures { IfOk result (λ event. event ≡ event_by kind (map (λ w. w.now) more.now)) }
{
    match kind {
        EntryKind::Turn => Ok(alone(alloc, turn_entry(more))),
        EntryKind::Poll => Ok(alone(alloc, poll_entry(more))),
        EntryKind::Want => Ok(alone(alloc, want_entry(more))),
        EntryKind::Ready => Ok(alone(alloc, ready_entry(more))),
        EntryKind::PollFailed => Ok(alone(alloc, poll_failed_entry(more))),
        EntryKind::Opened => Ok(alone(alloc, opened_entry(more))),
        EntryKind::Conn => Ok(alone(alloc, conn_entry(more))),
        EntryKind::Read => read_event(alloc, more),
        EntryKind::Write => write_event(alloc, more),
        EntryKind::Fired => Ok(alone(alloc, fired_entry(alloc, more)?)),
        EntryKind::Asked => Ok(alone(alloc, asked_entry(more))),
        EntryKind::Freed => Ok(alone(alloc, freed_entry(more))),
        EntryKind::CloseWrite => Ok(alone(alloc, close_write_entry(more))),
        EntryKind::Close => Ok(alone(alloc, close_entry(more))),
    }
}

/// An entry with no bytes beside it. Takes no memory.
fn alone(alloc: Global, entry: Option<Entry>) -> Option<(Entry, ByteList)>
    ensures { result ≡ alone_of entry }
{
    let bytes = Vec::new(alloc);
    Some((entry?, ByteList { bytes }))
}

fn turn_entry(more: &[&[u8]]) -> Option<Entry>
    ensures { result ≡ turn_said (map (λ w. w.now) more.now) }
{
    let [ms] = more else {
        return None;
    };
    let ms = number(ms, u64::MAX)?;
    Some(Entry::Turn { ms })
}

fn poll_entry(more: &[&[u8]]) -> Option<Entry>
    ensures { result ≡ poll_said (map (λ w. w.now) more.now) }
{
    let [word] = more else {
        return None;
    };
    if is_word(word, "none") {
        return Some(Entry::Poll { timeout: None });
    }
    let timeout = Some(number(word, u64::MAX)?);
    Some(Entry::Poll { timeout })
}

fn want_entry(more: &[&[u8]]) -> Option<Entry>
    ensures { result ≡ want_said (map (λ w. w.now) more.now) }
{
    let [link, side, marks] = more else {
        return None;
    };
    let side = read_end(link, side)?;
    let (read, write) = read_marks(marks)?;
    Some(Entry::Want { side, read, write })
}

fn ready_entry(more: &[&[u8]]) -> Option<Entry>
    ensures { result ≡ ready_said (map (λ w. w.now) more.now) }
{
    let [link, side, marks] = more else {
        return None;
    };
    let side = read_end(link, side)?;
    let (read, write) = read_marks(marks)?;
    Some(Entry::Ready { side, read, write })
}

fn poll_failed_entry(more: &[&[u8]]) -> Option<Entry>
    ensures { result ≡ poll_failed_said (map (λ w. w.now) more.now) }
{
    more.is_empty().then_some(Entry::PollFailed)
}

fn opened_entry(more: &[&[u8]]) -> Option<Entry>
    ensures { result ≡ opened_said (map (λ w. w.now) more.now) }
{
    let (link, connected) = match more {
        [link] => (link, true),
        [link, word] if is_word(word, "wait") => (link, false),
        _ => return None,
    };
    let link = read_link(link)?;
    Some(Entry::Opened { link, connected })
}

fn conn_entry(more: &[&[u8]]) -> Option<Entry>
    ensures { result ≡ conn_said (map (λ w. w.now) more.now) }
{
    let [link, side, word] = more else {
        return None;
    };
    if !is_word(side, "out") {
        return None;
    }
    let link = read_link(link)?;
    let answer = read_conn(word)?;
    let side = SideId {
        link,
        side: Side::Out,
    };
    Some(Entry::Conn { side, answer })
}

fn read_event(alloc: Global, more: &[&[u8]]) -> Result<Option<(Entry, ByteList)>, NoMemory>
    ensures { IfOk result (λ event. event ≡ read_said (map (λ w. w.now) more.now)) }
{
    match more {
        [link, side, room, word] => Ok(alone(alloc, quiet_read(link, side, room, word))),
        [link, side, room, word, digits] if is_word(word, "got") => {
            got_event(alloc, link, side, room, digits)
        }
        _ => Ok(None),
    }
}

/// A read that got no bytes.
fn quiet_read(link: &[u8], side: &[u8], room: &[u8], word: &[u8]) -> Option<Entry>
    ensures { alone_of result ≡ read_said (link.now ∷ side.now ∷ room.now ∷ word.now ∷ []) }
{
    let (side, room) = end_and_number(link, side, room)?;
    let answer = read_read(word)?;
    Some(Entry::Read { side, room, answer })
}

fn got_event(
    alloc: Global,
    link: &[u8],
    side: &[u8],
    room: &[u8],
    digits: &[u8],
) -> Result<Option<(Entry, ByteList)>, NoMemory>
    ensures { IfOk result (λ event. event ≡ got_said link.now side.now room.now digits.now) }
{
    let Some((side, room)) = end_and_number(link, side, room) else {
        return Ok(None);
    };
    let Some(bytes) = lower_bytes(alloc, digits)? else {
        return Ok(None);
    };
    let answer = ReadAnswer::Got(bytes.len());
    let entry = Entry::Read { side, room, answer };
    Ok(Some((entry, ByteList { bytes })))
}

fn end_and_number(link: &[u8], side: &[u8], word: &[u8]) -> Option<(SideId, u64)>
    ensures { result ≡ end_and_number_of link.now side.now word.now }
{
    let side = read_end(link, side)?;
    Some((side, number(word, u64::MAX)?))
}

fn write_event(alloc: Global, more: &[&[u8]]) -> Result<Option<(Entry, ByteList)>, NoMemory>
    ensures { IfOk result (λ event. event ≡ write_said (map (λ w. w.now) more.now)) }
{
    match more {
        [link, side, offered, word] => Ok(alone(alloc, quiet_write(link, side, offered, word))),
        [link, side, offered, word, digits] if is_word(word, "took") => {
            took_event(alloc, link, side, offered, digits)
        }
        _ => Ok(None),
    }
}

/// A write that took no bytes.
fn quiet_write(link: &[u8], side: &[u8], offered: &[u8], word: &[u8]) -> Option<Entry>
    ensures { alone_of result ≡ write_said (link.now ∷ side.now ∷ offered.now ∷ word.now ∷ []) }
{
    let (side, offered) = end_and_number(link, side, offered)?;
    let answer = read_write(word)?;
    Some(Entry::Write {
        side,
        offered,
        answer,
    })
}

fn took_event(
    alloc: Global,
    link: &[u8],
    side: &[u8],
    offered: &[u8],
    digits: &[u8],
) -> Result<Option<(Entry, ByteList)>, NoMemory>
    ensures { IfOk result (λ event. event ≡ took_said link.now side.now offered.now digits.now) }
{
    let Some((side, offered)) = end_and_number(link, side, offered) else {
        return Ok(None);
    };
    let Some(bytes) = lower_bytes(alloc, digits)? else {
        return Ok(None);
    };
    let answer = WriteAnswer::Took(bytes.len());
    let entry = Entry::Write {
        side,
        offered,
        answer,
    };
    Ok(Some((entry, ByteList { bytes })))
}

fn fired_entry(alloc: Global, more: &[&[u8]]) -> Result<Option<Entry>, NoMemory>
    ensures { IfOk result (λ entry. entry ≡ fired_said (map (λ w. w.now) more.now)) }
{
    let [link, side, word] = more else {
        return Ok(None);
    };
    let Some(side) = read_end(link, side) else {
        return Ok(None);
    };
    let Some(why) = read_why(alloc, word)? else {
        return Ok(None);
    };
    Ok(Some(Entry::Fired { side, why }))
}

fn asked_entry(more: &[&[u8]]) -> Option<Entry>
    ensures { result ≡ asked_said (map (λ w. w.now) more.now) }
{
    match more {
        [link, side, more @ ..] => asked_of_end(read_end(link, side)?, more),
        _ => None,
    }
}

/// What the hook of this side asked, by the words behind its name.
fn asked_of_end(side: SideId, more: &[&[u8]]) -> Option<Entry>
    ensures { result ≡ asked_by side (map (λ w. w.now) more.now) }
{
    let (answer, words) = last_word(more)?;
    let act = read_act(words)?;
    let answer = read_ask(answer)?;
    Some(Entry::Asked { side, act, answer })
}

/// The last word, and those before it.
fn last_word<'a, 'w>(words: &'w [&'a [u8]]) -> Option<(&'a [u8], &'w [&'a [u8]])>
    ensures { option_map (λ p. (p.0.now, map (λ w. w.now) p.1.now)) result
        ≡ last_and_front (map (λ w. w.now) words.now) }
{
    let (last, front) = words.split_last()?;
    Some((*last, front))
}

fn freed_entry(more: &[&[u8]]) -> Option<Entry>
    ensures { result ≡ freed_said (map (λ w. w.now) more.now) }
{
    let [link, side, word, moved, given] = more else {
        return None;
    };
    let side = read_end(link, side)?;
    let cause = read_cause(word)?;
    let moved = number(moved, u64::MAX)?;
    let given = number(given, u64::MAX)?;
    Some(Entry::Freed {
        side,
        cause,
        moved,
        given,
    })
}

fn close_write_entry(more: &[&[u8]]) -> Option<Entry>
    ensures { result ≡ close_write_said (map (λ w. w.now) more.now) }
{
    let [link, side] = more else {
        return None;
    };
    let side = read_end(link, side)?;
    Some(Entry::CloseWrite { side })
}

fn close_entry(more: &[&[u8]]) -> Option<Entry>
    ensures { result ≡ close_said (map (λ w. w.now) more.now) }
{
    let [link, side] = more else {
        return None;
    };
    let side = read_end(link, side)?;
    Some(Entry::Close { side })
}
