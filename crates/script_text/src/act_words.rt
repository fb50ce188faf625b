// Reads the words of an ask, of a trace or of a script.
ghost use Rattle.std.specs.Prelude.{◌≡◌, ◌^◌, ◌≤◌, map, IfSome};
ghost use Rattle.script_text.specs.ValueGrammar.{only_dir, only_number};
ghost use Rattle.script_text.specs.Limits.{limit_of, limit_said};
ghost use Rattle.script_text.specs.ActGrammar.{bare as bare_ask, marks_ask, timeouts_ask, rate_ask, verb_of, ask_by, act_of, is_written};
ghost use Rattle.script_text.specs.ActGrammar.{is_nop, planned_ask};

use crate::value_words::{read_dir, read_end};
use crate::words::{MAX_NUMBER, is_word, number};
use ev_types::{Act, Dir, LimitCfg, SideId};

/// The greatest number that a group can have.
const MAX_GROUP: u64 = u32::MAX as u64;

/// Which ask of an end the words of an ask begin with.
///
/// Own.
#[derive(Clone, Copy)]
pub enum Verb {
    Free,
    Enable,
    Disable,
    Marks,
    Timeouts,
    Rate,
    Join,
    Leave,
    Trigger,
    Timer,
    Cancel,
    Incref,
    Decref,
}

fn read_verb(word: &[u8]) -> Option<Verb>
    ensures { result ≡ verb_of word.now }
{
    if is_word(word, "free") {
        Some(Verb::Free)
    } else if is_word(word, "enable") {
        Some(Verb::Enable)
    } else if is_word(word, "disable") {
        Some(Verb::Disable)
    } else if is_word(word, "marks") {
        Some(Verb::Marks)
    } else if is_word(word, "timeouts") {
        Some(Verb::Timeouts)
    } else if is_word(word, "rate") {
        Some(Verb::Rate)
    } else if is_word(word, "join") {
        Some(Verb::Join)
    } else if is_word(word, "leave") {
        Some(Verb::Leave)
    } else if is_word(word, "trigger") {
        Some(Verb::Trigger)
    } else if is_word(word, "timer") {
        Some(Verb::Timer)
    } else if is_word(word, "cancel") {
        Some(Verb::Cancel)
    } else if is_word(word, "incref") {
        Some(Verb::Incref)
    } else if is_word(word, "decref") {
        Some(Verb::Decref)
    } else {
        None
    }
}

/// What these words ask.
pub fn read_act(words: &[&[u8]]) -> Option<Act>
    ensures { result ≡ act_of (map (λ w. w.now) words.now) }
{
    match words {
        [word] if is_word(word, "stop") => Some(Act::Stop),
        [word, link, side, more @ ..] => {
            let verb = read_verb(word)?;
            let end = read_end(link, side)?;
            ask_of_end(verb, end, more)
        }
        _ => None,
    }
}

/// What these words of a script plan: an ask, or nothing.
pub fn read_planned(words: &[&[u8]]) -> Option<Option<Act>>
    ensures { result ≡ planned_ask (map (λ w. w.now) words.now) }
{
    if asks_nothing(words) {
        return Some(None);
    }
    let act = read_act(words)?;
    is_written(act).then_some(Some(act))
}

fn asks_nothing(words: &[&[u8]]) -> bool
    ensures { result ≡ is_nop (map (λ w. w.now) words.now) }
{
    match words {
        [word] => is_word(word, "nop"),
        _ => false,
    }
}

/// Are the numbers of an ask within those that a script may have?
fn is_written(act: Act) -> bool
    ensures { result ≡ is_written act }
{
    match act {
        Act::Marks(_, _, low, high) => low <= MAX_NUMBER && high <= MAX_NUMBER,
        Act::Timeouts(_, read, write) => read <= MAX_NUMBER && write <= MAX_NUMBER,
        Act::Timer(_, ms) => ms <= MAX_NUMBER,
        _ => true,
    }
}

/// What these further words ask of an end.
fn ask_of_end(verb: Verb, end: SideId, more: &[&[u8]]) -> Option<Act>
    ensures { result ≡ ask_by verb end (map (λ w. w.now) more.now) }
{
    match verb {
        Verb::Free => bare(Act::Free(end), more),
        Verb::Enable => Some(Act::Enable(end, one_dir(more)?)),
        Verb::Disable => Some(Act::Disable(end, one_dir(more)?)),
        Verb::Marks => marks(end, more),
        Verb::Timeouts => timeouts(end, more),
        Verb::Rate => rate(end, more),
        Verb::Join => Some(Act::Join(end, one_number(more, MAX_GROUP)? as u32)),
        Verb::Leave => bare(Act::Leave(end), more),
        Verb::Trigger => Some(Act::Trigger(end, one_dir(more)?)),
        Verb::Timer => Some(Act::Timer(end, one_number(more, u64::MAX)?)),
        Verb::Cancel => bare(Act::Cancel(end), more),
        Verb::Incref => bare(Act::Incref(end), more),
        Verb::Decref => bare(Act::Decref(end), more),
    }
}

fn bare(act: Act, more: &[&[u8]]) -> Option<Act>
    ensures { result ≡ bare_ask act (map (λ w. w.now) more.now) }
{
    more.is_empty().then_some(act)
}

fn one_dir(more: &[&[u8]]) -> Option<Dir>
    ensures { result ≡ only_dir (map (λ w. w.now) more.now) }
{
    match more {
        [word] => read_dir(word),
        _ => None,
    }
}

fn one_number(more: &[&[u8]], max: u64) -> Option<u64>
    ensures value { result ≡ only_number max (map (λ w. w.now) more.now) }
    ensures within { IfSome result (λ n. n ≤ max) }
{
    match more {
        [word] => number(word, max),
        _ => None,
    }
}

fn marks(end: SideId, more: &[&[u8]]) -> Option<Act>
    ensures { result ≡ marks_ask end (map (λ w. w.now) more.now) }
{
    let [dir, low, high] = more else {
        return None;
    };
    let dir = read_dir(dir)?;
    let low = number(low, u64::MAX)?;
    Some(Act::Marks(end, dir, low, number(high, u64::MAX)?))
}

fn timeouts(end: SideId, more: &[&[u8]]) -> Option<Act>
    ensures { result ≡ timeouts_ask end (map (λ w. w.now) more.now) }
{
    let [read, write] = more else {
        return None;
    };
    let read = number(read, u64::MAX)?;
    Some(Act::Timeouts(end, read, number(write, u64::MAX)?))
}

fn rate(end: SideId, more: &[&[u8]]) -> Option<Act>
    ensures { result ≡ rate_ask end (map (λ w. w.now) more.now) }
{
    match more {
        [word] => is_word(word, "none").then_some(Act::Rate(end, None)),
        _ => Some(Act::Rate(end, Some(limit(more)?))),
    }
}

/// The limit of read rate, read burst, write rate, write burst and tick.
pub fn limit(words: &[&[u8]]) -> Option<LimitCfg>
    ensures { result ≡ limit_said (map (λ w. w.now) words.now) }
{
    let [read_rate, read_burst, write_rate, write_burst, tick] = words else {
        return None;
    };
    let read_rate = number(read_rate, u64::MAX)?;
    let read_burst = number(read_burst, u64::MAX)?;
    let write_rate = number(write_rate, u64::MAX)?;
    let write_burst = number(write_burst, u64::MAX)?;
    let tick = number(tick, u64::MAX)?;
    limit_by(read_rate, read_burst, write_rate, write_burst, tick)
}

fn limit_by(
    read_rate: u64,
    read_burst: u64,
    write_rate: u64,
    write_burst: u64,
    tick: u64,
) -> Option<LimitCfg>
    ensures { result ≡ limit_of read_rate read_burst write_rate write_burst tick }
{
    LimitCfg::new(read_rate, read_burst, write_rate, write_burst, tick).ok()
}
