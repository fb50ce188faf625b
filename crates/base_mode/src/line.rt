// What one line says, whatever stands before it. Whether it may stand there is left to the reader of a script.
ghost use Rattle.std.specs.Prelude.{◌≡◌, ◌∷◌, ◌<◌, ◌^◌, [], map};
ghost use Rattle.base_mode.specs.Grammar.{keyword_of, event_of, delay_of, ranged, persists, act_of, said, said_by};
ghost use Rattle.script_text.specs.Grammar.{is_comment};

use crate::command::{Command, Delay, Reaction};
use script_text::{MAX_NUMBER, is_word, number};

/// The greatest name of an event.
const MAX_EVENT: u32 = 255;

/// The greatest number of priorities.
const MAX_PRIORITIES: u32 = 256;

/// The greatest priority that a line can name.
const MAX_PRIORITY: u32 = 1_000;

/// The greatest signal.
const MAX_SIGNAL: u32 = 64;

/// The most times that a signal comes by one line.
const MAX_COUNT: u32 = 1_000;

/// The greatest moment and the longest delay, in milliseconds.
const MAX_MS: u64 = 1 << 40;

/// The kind of a line, which its first word tells.
///
/// Own.
#[derive(Clone, Copy)]
pub enum Keyword {
    Base,
    New,
    Priority,
    Add,
    Delete,
    Activate,
    Signal,
    On,
    Turn,
    Common,
}

/// What a line says.
///
/// Own.
#[derive(Drop)]
pub enum Line {
    /// A line that says nothing: it is empty or a comment.
    Skipped,
    /// A base of so many priorities.
    Base(u32),
    Put(Command),
}

fn is_comment_word(word: &[u8]) -> bool
    ensures { result ≡ is_comment word.now }
{
    matches!(word, [b'#', ..])
}

fn read_keyword(word: &[u8]) -> Option<Keyword>
    ensures { result ≡ keyword_of word.now }
{
    if is_word(word, "base") {
        Some(Keyword::Base)
    } else if is_word(word, "new") {
        Some(Keyword::New)
    } else if is_word(word, "prio") {
        Some(Keyword::Priority)
    } else if is_word(word, "add") {
        Some(Keyword::Add)
    } else if is_word(word, "del") {
        Some(Keyword::Delete)
    } else if is_word(word, "active") {
        Some(Keyword::Activate)
    } else if is_word(word, "signal") {
        Some(Keyword::Signal)
    } else if is_word(word, "on") {
        Some(Keyword::On)
    } else if is_word(word, "turn") {
        Some(Keyword::Turn)
    } else if is_word(word, "common") {
        Some(Keyword::Common)
    } else {
        None
    }
}

/// The number that a word spells, within its bounds.
fn read_ranged(word: &[u8], least: u32, most: u32) -> Option<u32>
    ensures { result ≡ ranged least most word.now }
{
    let n = number(word, u64::from(most))? as u32;
    if n < least { None } else { Some(n) }
}

fn read_delay(word: &[u8]) -> Option<Delay>
    ensures { result ≡ delay_of word.now }
{
    Some(Delay::new(number(word, MAX_MS)?))
}

/// A delay that is registered: at least 1 ms.
fn read_common(word: &[u8]) -> Option<u64>
    ensures { result ≡ ranged 1 (2 ^ 40) word.now }
{
    let ms = number(word, MAX_MS)?;
    if ms < 1 { None } else { Some(ms) }
}

fn read_persist(word: &[u8]) -> Option<bool>
    ensures { result ≡ persists word.now }
{
    if is_word(word, "persist") {
        Some(true)
    } else if is_word(word, "once") {
        Some(false)
    } else {
        None
    }
}

fn read_event(word: &[u8]) -> Option<u32>
    ensures { result ≡ event_of word.now }
{
    read_ranged(word, 0, MAX_EVENT)
}

fn read_act(words: &[&[u8]]) -> Option<Reaction>
    ensures { result ≡ act_of (map (λ w. w.now) words.now) }
{
    match words {
        [what] => plain_act(what),
        [what, event] => event_act(what, event),
        [what, event, ms] => add_act(what, event, ms),
        _ => None,
    }
}

fn plain_act(what: &[u8]) -> Option<Reaction>
    ensures { result ≡ act_of (what.now ∷ []) }
{
    if is_word(what, "break") {
        Some(Reaction::Break)
    } else if is_word(what, "exit") {
        Some(Reaction::Exit)
    } else {
        None
    }
}

fn event_act(what: &[u8], event: &[u8]) -> Option<Reaction>
    ensures { result ≡ act_of (what.now ∷ event.now ∷ []) }
{
    let event = read_event(event)?;
    if is_word(what, "del") {
        Some(Reaction::Delete(event))
    } else if is_word(what, "active") {
        Some(Reaction::Activate(event))
    } else {
        None
    }
}

fn add_act(what: &[u8], event: &[u8], ms: &[u8]) -> Option<Reaction>
    ensures { result ≡ act_of (what.now ∷ event.now ∷ ms.now ∷ []) }
{
    if !is_word(what, "add") {
        return None;
    }
    let event = read_event(event)?;
    Some(Reaction::Add(event, read_delay(ms)?))
}

/// What a line with these words says. Takes no memory.
pub fn line_of(words: &[&[u8]]) -> Option<Line>
    ensures { result ≡ said (map (λ w. w.now) words.now) }
{
    let Some((first, more)) = words.split_first() else {
        return Some(Line::Skipped);
    };
    if is_comment_word(first) {
        return Some(Line::Skipped);
    }
    match read_keyword(first) {
        Some(keyword) => line_by(keyword, more),
        None => None,
    }
}

/// What a line of this kind says with these further words.
fn line_by(keyword: Keyword, more: &[&[u8]]) -> Option<Line>
    ensures { result ≡ said_by keyword (map (λ w. w.now) more.now) }
{
    match keyword {
        Keyword::Base => base_line(more),
        Keyword::New => new_line(more),
        Keyword::Priority => priority_line(more),
        Keyword::Add => add_line(more),
        Keyword::Delete => delete_line(more),
        Keyword::Activate => activate_line(more),
        Keyword::Signal => signal_line(more),
        Keyword::On => on_line(more),
        Keyword::Turn => turn_line(more),
        Keyword::Common => common_line(more),
    }
}

fn base_line(more: &[&[u8]]) -> Option<Line>
    ensures { result ≡ said_by Keyword.Base (map (λ w. w.now) more.now) }
{
    let [priorities] = more else {
        return None;
    };
    Some(Line::Base(read_ranged(priorities, 1, MAX_PRIORITIES)?))
}

fn new_line(more: &[&[u8]]) -> Option<Line>
    ensures { result ≡ said_by Keyword.New (map (λ w. w.now) more.now) }
{
    match more {
        [event, life] => made_line(event, life),
        [event, life, word, signal] => signal_event_line(event, life, word, signal),
        _ => None,
    }
}

fn made_line(event: &[u8], life: &[u8]) -> Option<Line>
    ensures { result ≡ said_by Keyword.New (event.now ∷ life.now ∷ []) }
{
    let event = read_event(event)?;
    let persist = read_persist(life)?;
    Some(Line::Put(Command::New(event, persist, None)))
}

fn signal_event_line(event: &[u8], life: &[u8], word: &[u8], signal: &[u8]) -> Option<Line>
    ensures { result ≡ said_by Keyword.New (event.now ∷ life.now ∷ word.now ∷ signal.now ∷ []) }
{
    if !is_word(word, "signal") {
        return None;
    }
    let event = read_event(event)?;
    let persist = read_persist(life)?;
    let signal = read_ranged(signal, 0, MAX_SIGNAL)?;
    Some(Line::Put(Command::New(event, persist, Some(signal))))
}

fn priority_line(more: &[&[u8]]) -> Option<Line>
    ensures { result ≡ said_by Keyword.Priority (map (λ w. w.now) more.now) }
{
    let [event, priority] = more else {
        return None;
    };
    let event = read_event(event)?;
    let priority = read_ranged(priority, 0, MAX_PRIORITY)?;
    Some(Line::Put(Command::Priority(event, priority)))
}

fn add_line(more: &[&[u8]]) -> Option<Line>
    ensures { result ≡ said_by Keyword.Add (map (λ w. w.now) more.now) }
{
    match more {
        [event] => Some(Line::Put(Command::Add(read_event(event)?, None))),
        [event, ms] => delayed_line(event, ms),
        _ => None,
    }
}

fn delayed_line(event: &[u8], ms: &[u8]) -> Option<Line>
    ensures { result ≡ said_by Keyword.Add (event.now ∷ ms.now ∷ []) }
{
    let event = read_event(event)?;
    let delay = read_delay(ms)?;
    Some(Line::Put(Command::Add(event, Some(delay))))
}

fn delete_line(more: &[&[u8]]) -> Option<Line>
    ensures { result ≡ said_by Keyword.Delete (map (λ w. w.now) more.now) }
{
    let [event] = more else {
        return None;
    };
    Some(Line::Put(Command::Delete(read_event(event)?)))
}

fn activate_line(more: &[&[u8]]) -> Option<Line>
    ensures { result ≡ said_by Keyword.Activate (map (λ w. w.now) more.now) }
{
    let [event] = more else {
        return None;
    };
    Some(Line::Put(Command::Activate(read_event(event)?)))
}

fn signal_line(more: &[&[u8]]) -> Option<Line>
    ensures { result ≡ said_by Keyword.Signal (map (λ w. w.now) more.now) }
{
    let [signal, count] = more else {
        return None;
    };
    let signal = read_ranged(signal, 0, MAX_SIGNAL)?;
    let count = read_ranged(count, 1, MAX_COUNT)?;
    Some(Line::Put(Command::Signal(signal, count)))
}

fn on_line(more: &[&[u8]]) -> Option<Line>
    ensures { result ≡ said_by Keyword.On (map (λ w. w.now) more.now) }
{
    let [event, nth, words @ ..] = more else {
        return None;
    };
    let event = read_event(event)?;
    let nth = number(nth, MAX_NUMBER)?;
    Some(Line::Put(Command::On(event, nth, read_act(words)?)))
}

fn turn_line(more: &[&[u8]]) -> Option<Line>
    ensures { result ≡ said_by Keyword.Turn (map (λ w. w.now) more.now) }
{
    let [ms] = more else {
        return None;
    };
    Some(Line::Put(Command::Turn(number(ms, MAX_MS)?)))
}

fn common_line(more: &[&[u8]]) -> Option<Line>
    ensures { result ≡ said_by Keyword.Common (map (λ w. w.now) more.now) }
{
    let [ms] = more else {
        return None;
    };
    Some(Line::Put(Command::Common(read_common(ms)?)))
}
