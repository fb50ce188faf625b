// What one line of a script asks, whatever stands before it. Running it is left to others.
ghost use Rattle.std.specs.Prelude.{◌≡◌, ◌<◌, ◌∷◌, [], IfOk, IfSome, map};
ghost use Rattle.script_text.specs.Numbers.{bytes_of};
ghost use Rattle.buffers_mode.specs.Grammar.{buffer_of, count_of, callback_of, from_of, place_of, style_of, switch_of, plain_op, one_op};
ghost use Rattle.buffers_mode.specs.Grammar.{two_op, op_by, ask_by, said, AskNames, NamesBuffers};

use crate::keyword::{Keyword, read_keyword};
use ev_types::NoMemory;
use evbuf::Place;
use evbuf_scan::Eol;
use script_text::{ByteList, MAX_NUMBER, hex_bytes, is_word, number};
use std::alloc::Global;

/// The greatest number of a buffer.
const MAX_BUFFER: u64 = 15;

/// The most bytes that a line names by their number.
const MAX_COUNT: u64 = 1 << 24;

/// The greatest ticket, and the greatest number of a callback.
const MAX_CALLBACK: u64 = u32::MAX as u64;

/// What a line asks of one buffer alone.
///
/// Own.
#[derive(Drop)]
pub(crate) enum Op {
    Add(ByteList),
    Prepend(ByteList),
    /// The bytes of a reference, and its ticket.
    AddReference(ByteList, u64),
    Drain(usize),
    Remove(usize),
    Pullup(usize),
    PullupAll,
    /// What is looked for, and from which place on.
    Search(ByteList, usize),
    SearchEol(Eol, usize),
    Readln(Eol),
    Peek(usize),
    Len,
    Freeze(Place),
    Unfreeze(Place),
    AddCb,
    RemoveCb(u32),
    SetCbEnabled(u32, bool),
}

/// What a line asks.
///
/// Own.
#[derive(Drop)]
pub(crate) enum BufferAsk {
    Own(Op),
    /// The buffer whose bytes are moved to the end of this one.
    AddBuffer(usize),
    /// The buffer to whose end the first bytes of this one are moved, and how many.
    RemoveBuffer(usize, usize),
    /// Whether the reports of the buffer wait until they are asked for.
    Defer(bool),
    Reports,
}

/// A line: a buffer's number, and what is asked of it.
///
/// Own.
#[derive(Drop)]
pub(crate) struct Line {
    pub(crate) buffer: usize,
    pub(crate) ask: BufferAsk,
}

fn read_buffer(word: &[u8]) -> Option<usize>
    ensures value { result ≡ buffer_of word.now }
    ensures within { IfSome result (λ buffer. buffer < 16) }
{
    Some(number(word, MAX_BUFFER)? as usize)
}

fn read_count(word: &[u8]) -> Option<usize>
    ensures { result ≡ count_of word.now }
{
    Some(number(word, MAX_COUNT)? as usize)
}

fn read_callback(word: &[u8]) -> Option<u32>
    ensures { result ≡ callback_of word.now }
{
    Some(number(word, MAX_CALLBACK)? as u32)
}

fn read_from(word: &[u8]) -> Option<usize>
    ensures { result ≡ from_of word.now }
{
    Some(number(word, MAX_NUMBER)? as usize)
}

fn read_place(word: &[u8]) -> Option<Place>
    ensures { result ≡ place_of word.now }
{
    if is_word(word, "front") {
        Some(Place::Front)
    } else if is_word(word, "end") {
        Some(Place::End)
    } else {
        None
    }
}

fn read_style(word: &[u8]) -> Option<Eol>
    ensures { result ≡ style_of word.now }
{
    if is_word(word, "any") {
        Some(Eol::Any)
    } else if is_word(word, "crlf") {
        Some(Eol::Crlf)
    } else if is_word(word, "strict") {
        Some(Eol::CrlfStrict)
    } else if is_word(word, "lf") {
        Some(Eol::Lf)
    } else if is_word(word, "nul") {
        Some(Eol::Nul)
    } else {
        None
    }
}

fn read_switch(word: &[u8]) -> Option<bool>
    ensures { result ≡ switch_of word.now }
{
    if is_word(word, "on") {
        Some(true)
    } else if is_word(word, "off") {
        Some(false)
    } else {
        None
    }
}

/// What a line with these words asks. Takes memory for the bytes that it names.
pub(crate) fn line_of(alloc: Global, words: &[&[u8]]) -> Result<Option<Line>, NoMemory>
    ensures value { IfOk result (λ line. line ≡ said (map (λ w. w.now) words.now)) }
    ensures within { IfOk result (λ line. IfSome line NamesBuffers) }
{
    let [first, buffer, more @ ..] = words else {
        return Ok(None);
    };
    let Some(keyword) = read_keyword(first) else {
        return Ok(None);
    };
    let Some(buffer) = read_buffer(buffer) else {
        return Ok(None);
    };
    match ask_of(alloc, keyword, more)? {
        Some(ask) => Ok(Some(Line { buffer, ask })),
        None => Ok(None),
    }
}

/// What a line of a kind asks by the words behind its buffer.
fn ask_of(alloc: Global, keyword: Keyword, words: &[&[u8]]) -> Result<Option<BufferAsk>, NoMemory>
    ensures value { IfOk result (λ ask. ask ≡ ask_by keyword (map (λ w. w.now) words.now)) }
    ensures within { IfOk result (λ ask. IfSome ask AskNames) }
{
    match (keyword, words) {
        (Keyword::AddBuffer, [from]) => Ok(read_buffer(from).map(BufferAsk::AddBuffer)),
        (Keyword::RemoveBuffer, [to, count]) => Ok(remove_buffer_ask(to, count)),
        (Keyword::Defer, [switch]) => Ok(read_switch(switch).map(BufferAsk::Defer)),
        (Keyword::Reports, []) => Ok(Some(BufferAsk::Reports)),
        _ => Ok(op_of(alloc, keyword, words)?.map(BufferAsk::Own)),
    }
}

fn remove_buffer_ask(to: &[u8], count: &[u8]) -> Option<BufferAsk>
    ensures value { result ≡ ask_by Keyword.RemoveBuffer (to.now ∷ count.now ∷ []) }
    ensures within { IfSome result AskNames }
{
    Some(BufferAsk::RemoveBuffer(read_buffer(to)?, read_count(count)?))
}

/// The same of what is asked of one buffer alone.
fn op_of(alloc: Global, keyword: Keyword, words: &[&[u8]]) -> Result<Option<Op>, NoMemory>
    ensures { IfOk result (λ op. op ≡ op_by keyword (map (λ w. w.now) words.now)) }
{
    match words {
        [] => Ok(plain_op(keyword)),
        [word] => one_word_op(alloc, keyword, word),
        [first, second] => two_word_op(alloc, keyword, first, second),
        _ => Ok(None),
    }
}

fn plain_op(keyword: Keyword) -> Option<Op>
    ensures { result ≡ plain_op keyword }
{
    match keyword {
        Keyword::PullupAll => Some(Op::PullupAll),
        Keyword::AddCb => Some(Op::AddCb),
        Keyword::Len => Some(Op::Len),
        _ => None,
    }
}

fn one_word_op(alloc: Global, keyword: Keyword, word: &[u8]) -> Result<Option<Op>, NoMemory>
    ensures { IfOk result (λ op. op ≡ one_op keyword word.now) }
{
    match keyword {
        Keyword::Add => Ok(read_bytes(alloc, word)?.map(Op::Add)),
        Keyword::Prepend => Ok(read_bytes(alloc, word)?.map(Op::Prepend)),
        Keyword::Drain => Ok(read_count(word).map(Op::Drain)),
        Keyword::Remove => Ok(read_count(word).map(Op::Remove)),
        Keyword::Pullup => Ok(read_count(word).map(Op::Pullup)),
        Keyword::Peek => Ok(read_count(word).map(Op::Peek)),
        Keyword::Readln => Ok(read_style(word).map(Op::Readln)),
        Keyword::Freeze => Ok(read_place(word).map(Op::Freeze)),
        Keyword::Unfreeze => Ok(read_place(word).map(Op::Unfreeze)),
        Keyword::RemoveCb => Ok(read_callback(word).map(Op::RemoveCb)),
        Keyword::EnableCb => Ok(read_callback(word).map(|cb| Op::SetCbEnabled(cb, true))),
        Keyword::DisableCb => Ok(read_callback(word).map(|cb| Op::SetCbEnabled(cb, false))),
        _ => Ok(None),
    }
}

fn two_word_op(
    alloc: Global,
    keyword: Keyword,
    first: &[u8],
    second: &[u8],
) -> Result<Option<Op>, NoMemory>
    ensures { IfOk result (λ op. op ≡ two_op keyword first.now second.now) }
{
    match keyword {
        Keyword::AddReference => reference_op(alloc, first, second),
        Keyword::Search => search_op(alloc, first, second),
        Keyword::SearchEol => Ok(search_eol_op(first, second)),
        _ => Ok(None),
    }
}

/// The bytes that a word of hex digits spells.
fn read_bytes(alloc: Global, word: &[u8]) -> Result<Option<ByteList>, NoMemory>
    ensures { IfOk result (λ list. list ≡ bytes_of word.now) }
{
    Ok(hex_bytes(alloc, word)?.map(|bytes| ByteList { bytes }))
}

fn reference_op(alloc: Global, digits: &[u8], ticket: &[u8]) -> Result<Option<Op>, NoMemory>
    ensures { IfOk result (λ op. op ≡ two_op Keyword.AddReference digits.now ticket.now) }
{
    let Some(list) = read_bytes(alloc, digits)? else {
        return Ok(None);
    };
    Ok(read_callback(ticket).map(|ticket| Op::AddReference(list, u64::from(ticket))))
}

fn search_op(alloc: Global, digits: &[u8], from: &[u8]) -> Result<Option<Op>, NoMemory>
    ensures { IfOk result (λ op. op ≡ two_op Keyword.Search digits.now from.now) }
{
    let Some(list) = read_bytes(alloc, digits)? else {
        return Ok(None);
    };
    Ok(read_from(from).map(|place| Op::Search(list, place)))
}

fn search_eol_op(style: &[u8], from: &[u8]) -> Option<Op>
    ensures { result ≡ two_op Keyword.SearchEol style.now from.now }
{
    Some(Op::SearchEol(read_style(style)?, read_from(from)?))
}
