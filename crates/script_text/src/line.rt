// What one line says, whatever stands before it. Whether it may stand there is left to the reader of a script.
ghost use Rattle.std.specs.Prelude.{◌≡◌, ◌∷◌, [], IfOk, map};
ghost use Rattle.script_text.specs.Grammar.{keyword_of, made_of, more_of, is_comment, said, said_by};

use crate::plan::on_line;
use crate::set_words::set_line;
use crate::setting::Setting;
use crate::value_words::{read_end, read_link};
use crate::words::{hex_bytes, is_word, number};
use crate::{ByteList, TurnLine};
use ev_types::{NoMemory, PlanLine, SideId};
use std::alloc::Global;

/// The last moment of a script, in milliseconds.
const MAX_MS: u64 = 1 << 40;

/// The most bytes that one line lets an end take, where it gives a number.
const MAX_TAKE: u64 = 1 << 40;

/// The kind of a line, which its first word tells.
///
/// Own.
#[derive(Clone, Copy)]
pub enum Keyword {
    Set,
    At,
    Open,
    Conn,
    Pending,
    Eof,
    ReadFail,
    Take,
    WriteFail,
    Spur,
    PollFail,
    On,
}

/// What a line says.
///
/// Own.
#[derive(Drop)]
pub enum Line {
    /// The run is started with this.
    Set(Setting),
    /// For the hook of this side something is planned.
    Plan(SideId, PlanLine),
    /// A turn begins at this moment.
    At(u64),
    /// A line of the turn that began last.
    Within(TurnLine),
    /// A line that says nothing: it is empty or a comment.
    Skipped,
}

fn read_keyword(word: &[u8]) -> Option<Keyword>
    ensures { result ≡ keyword_of word.now }
{
    if is_word(word, "set") {
        Some(Keyword::Set)
    } else if is_word(word, "at") {
        Some(Keyword::At)
    } else if is_word(word, "open") {
        Some(Keyword::Open)
    } else if is_word(word, "conn") {
        Some(Keyword::Conn)
    } else if is_word(word, "r") {
        Some(Keyword::Pending)
    } else if is_word(word, "eof") {
        Some(Keyword::Eof)
    } else if is_word(word, "rfail") {
        Some(Keyword::ReadFail)
    } else if is_word(word, "w") {
        Some(Keyword::Take)
    } else if is_word(word, "wfail") {
        Some(Keyword::WriteFail)
    } else if is_word(word, "spur") {
        Some(Keyword::Spur)
    } else if is_word(word, "pollfail") {
        Some(Keyword::PollFail)
    } else if is_word(word, "on") {
        Some(Keyword::On)
    } else {
        None
    }
}

fn read_made(word: &[u8]) -> Option<bool>
    ensures { result ≡ made_of word.now }
{
    if is_word(word, "ok") {
        Some(true)
    } else if is_word(word, "fail") {
        Some(false)
    } else {
        None
    }
}

fn read_more(word: &[u8]) -> Option<Option<u64>>
    ensures { result ≡ more_of word.now }
{
    if is_word(word, "all") {
        Some(None)
    } else {
        Some(Some(number(word, MAX_TAKE)?))
    }
}

fn is_comment_word(word: &[u8]) -> bool
    ensures { result ≡ is_comment word.now }
{
    matches!(word, [b'#', ..])
}

/// What a line with these words says. Takes memory for the bytes of an `r` line alone.
pub fn line_of(alloc: Global, words: &[&[u8]]) -> Result<Option<Line>, NoMemory>
    ensures { IfOk result (λ line. line ≡ said (map (λ w. w.now) words.now)) }
{
    let Some((first, more)) = words.split_first() else {
        return Ok(Some(Line::Skipped));
    };
    if is_comment_word(first) {
        return Ok(Some(Line::Skipped));
    }
    match read_keyword(first) {
        Some(keyword) => line_by(alloc, keyword, more),
        None => Ok(None),
    }
}

/// What a line of this kind says with these further words.
fn line_by(alloc: Global, keyword: Keyword, more: &[&[u8]]) -> Result<Option<Line>, NoMemory>
    ensures { IfOk result (λ line. line ≡ said_by keyword (map (λ w. w.now) more.now)) }
{
    match keyword {
        Keyword::Set => Ok(set_line(more)),
        Keyword::At => Ok(at_line(more)),
        Keyword::Open => Ok(open_line(more)),
        Keyword::Conn => Ok(conn_line(more)),
        Keyword::Pending => pending_line(alloc, more),
        Keyword::Eof => Ok(eof_line(more)),
        Keyword::ReadFail => Ok(read_fail_line(more)),
        Keyword::Take => Ok(take_line(more)),
        Keyword::WriteFail => Ok(write_fail_line(more)),
        Keyword::Spur => Ok(spur_line(more)),
        Keyword::PollFail => Ok(poll_fail_line(more)),
        Keyword::On => Ok(on_line(more)),
    }
}

fn at_line(more: &[&[u8]]) -> Option<Line>
    ensures { result ≡ said_by Keyword.At (map (λ w. w.now) more.now) }
{
    match more {
        [ms] => number(ms, MAX_MS).map(Line::At),
        _ => None,
    }
}

fn open_line(more: &[&[u8]]) -> Option<Line>
    ensures { result ≡ said_by Keyword.Open (map (λ w. w.now) more.now) }
{
    match more {
        [] => Some(Line::Within(TurnLine::NewLink { wait: false })),
        [word] if is_word(word, "wait") => Some(Line::Within(TurnLine::NewLink { wait: true })),
        _ => None,
    }
}

fn conn_line(more: &[&[u8]]) -> Option<Line>
    ensures { result ≡ said_by Keyword.Conn (map (λ w. w.now) more.now) }
{
    let [link, word] = more else {
        return None;
    };
    let made = read_made(word)?;
    Some(Line::Within(TurnLine::Conn(read_link(link)?, made)))
}

fn pending_line(alloc: Global, more: &[&[u8]]) -> Result<Option<Line>, NoMemory>
    ensures { IfOk result (λ line. line ≡ said_by Keyword.Pending (map (λ w. w.now) more.now)) }
{
    let [link, side, digits] = more else {
        return Ok(None);
    };
    let Some(end) = read_end(link, side) else {
        return Ok(None);
    };
    let Some(bytes) = hex_bytes(alloc, digits)? else {
        return Ok(None);
    };
    Ok(Some(Line::Within(TurnLine::Pending(end, ByteList { bytes }))))
}

fn eof_line(more: &[&[u8]]) -> Option<Line>
    ensures { result ≡ said_by Keyword.Eof (map (λ w. w.now) more.now) }
{
    let [link, side] = more else {
        return None;
    };
    Some(Line::Within(TurnLine::Eof(read_end(link, side)?)))
}

fn read_fail_line(more: &[&[u8]]) -> Option<Line>
    ensures { result ≡ said_by Keyword.ReadFail (map (λ w. w.now) more.now) }
{
    let [link, side] = more else {
        return None;
    };
    Some(Line::Within(TurnLine::ReadFail(read_end(link, side)?)))
}

fn take_line(more: &[&[u8]]) -> Option<Line>
    ensures { result ≡ said_by Keyword.Take (map (λ w. w.now) more.now) }
{
    let [link, side, count] = more else {
        return None;
    };
    let count = read_more(count)?;
    Some(Line::Within(TurnLine::Take(read_end(link, side)?, count)))
}

fn write_fail_line(more: &[&[u8]]) -> Option<Line>
    ensures { result ≡ said_by Keyword.WriteFail (map (λ w. w.now) more.now) }
{
    let [link, side] = more else {
        return None;
    };
    Some(Line::Within(TurnLine::WriteFail(read_end(link, side)?)))
}

fn spur_line(more: &[&[u8]]) -> Option<Line>
    ensures { result ≡ said_by Keyword.Spur (map (λ w. w.now) more.now) }
{
    let [link, side] = more else {
        return None;
    };
    Some(Line::Within(TurnLine::Spur(read_end(link, side)?)))
}

fn poll_fail_line(more: &[&[u8]]) -> Option<Line>
    ensures { result ≡ said_by Keyword.PollFail (map (λ w. w.now) more.now) }
{
    more.is_empty().then_some(Line::Within(TurnLine::PollFail))
}
