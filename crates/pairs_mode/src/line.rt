// What one line of a script asks. Running it is left to others.
ghost use Rattle.std.specs.Prelude.{◌≡◌, ◌≤◌, IfOk, IfSome, map, option_map};
ghost use Rattle.script_text.specs.Numbers.{bytes_of};
ghost use Rattle.pairs_mode.specs.Grammar.{half_of, mode_of, count_of, mark_of, one_ask, ask_by, said, IsAskWithin, IsWithin};
ghost use Rattle.script_text.specs.ValueGrammar.{dir_of};

use crate::half::Half;
use ev_types::{Dir, Mode, NoMemory};
use script_text::{ByteList, hex_bytes, is_word, number};
use std::alloc::Global;

/// The most bytes that a line drains.
const MAX_COUNT: u64 = 1 << 24;

/// The greatest mark that a line sets.
const MAX_MARK: u64 = 1 << 24;

/// What a line asks of a half.
///
/// Own.
#[derive(Drop)]
pub(crate) enum PairAsk {
    Write(ByteList),
    /// How many bytes leave its input.
    Drain(usize),
    Enable(Dir),
    Disable(Dir),
    /// Its read high mark.
    High(u64),
    Flush(Mode),
    Free,
}

/// A line: the half, and what is asked of it.
///
/// Own.
#[derive(Drop)]
pub(crate) struct Line {
    pub(crate) half: Half,
    pub(crate) ask: PairAsk,
}

fn read_half(word: &[u8]) -> Option<Half>
    ensures { result ≡ half_of word.now }
{
    if is_word(word, "a") {
        Some(Half::A)
    } else if is_word(word, "b") {
        Some(Half::B)
    } else {
        None
    }
}

fn read_dir(word: &[u8]) -> Option<Dir>
    ensures { result ≡ dir_of word.now }
{
    if is_word(word, "read") {
        Some(Dir::Read)
    } else if is_word(word, "write") {
        Some(Dir::Write)
    } else {
        None
    }
}

fn read_mode(word: &[u8]) -> Option<Mode>
    ensures { result ≡ mode_of word.now }
{
    if is_word(word, "normal") {
        Some(Mode::Normal)
    } else if is_word(word, "flush") {
        Some(Mode::Flush)
    } else if is_word(word, "finished") {
        Some(Mode::Finished)
    } else {
        None
    }
}

fn read_count(word: &[u8]) -> Option<usize>
    ensures { result ≡ count_of word.now }
{
    Some(number(word, MAX_COUNT)? as usize)
}

fn read_mark(word: &[u8]) -> Option<u64>
    ensures value { result ≡ mark_of word.now }
    ensures within { IfSome result (λ mark. mark ≤ MAX_MARK) }
{
    number(word, MAX_MARK)
}

/// What a line with these words asks. Takes memory for the bytes that it names.
pub(crate) fn line_of(alloc: Global, words: &[&[u8]]) -> Result<Option<Line>, NoMemory>
    ensures value { IfOk result (λ line. line ≡ said (map (λ w. w.now) words.now)) }
    ensures within { IfOk result (λ line. IfSome line IsWithin) }
{
    let [first, half, more @ ..] = words else {
        return Ok(None);
    };
    let Some(half) = read_half(half) else {
        return Ok(None);
    };
    match ask_of(alloc, first, more)? {
        Some(ask) => Ok(Some(Line { half, ask })),
        None => Ok(None),
    }
}

/// What a line asks by its first word and those behind the half.
fn ask_of(alloc: Global, first: &[u8], more: &[&[u8]]) -> Result<Option<PairAsk>, NoMemory>
    ensures value { IfOk result (λ ask. ask ≡ ask_by first.now (map (λ w. w.now) more.now)) }
    ensures within { IfOk result (λ ask. IfSome ask IsAskWithin) }
{
    match more {
        [] => Ok(is_word(first, "free").then_some(PairAsk::Free)),
        [word] => one_word_ask(alloc, first, word),
        _ => Ok(None),
    }
}

fn one_word_ask(alloc: Global, first: &[u8], word: &[u8]) -> Result<Option<PairAsk>, NoMemory>
    ensures value { IfOk result (λ ask. ask ≡ one_ask first.now word.now) }
    ensures within { IfOk result (λ ask. IfSome ask IsAskWithin) }
{
    if is_word(first, "write") {
        read_write(alloc, word)
    } else if is_word(first, "drain") {
        Ok(read_count(word).map(PairAsk::Drain))
    } else if is_word(first, "enable") {
        Ok(read_dir(word).map(PairAsk::Enable))
    } else if is_word(first, "disable") {
        Ok(read_dir(word).map(PairAsk::Disable))
    } else if is_word(first, "high") {
        Ok(read_mark(word).map(PairAsk::High))
    } else if is_word(first, "flush") {
        Ok(read_mode(word).map(PairAsk::Flush))
    } else {
        Ok(None)
    }
}

fn read_write(alloc: Global, word: &[u8]) -> Result<Option<PairAsk>, NoMemory>
    ensures value { IfOk result (λ ask. ask ≡ option_map (λ bytes. PairAsk.Write bytes) (bytes_of word.now)) }
    ensures within { IfOk result (λ ask. IfSome ask IsAskWithin) }
{
    Ok(hex_bytes(alloc, word)?.map(|bytes| PairAsk::Write(ByteList { bytes })))
}
