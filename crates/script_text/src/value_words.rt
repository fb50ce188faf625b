// Reads single words, whatever line they stand in.
ghost use Rattle.std.specs.Prelude.{◌≡◌, IfOk, option_map};
ghost use Rattle.script_text.specs.FilterNames.{filter_kind_of};
ghost use Rattle.script_text.specs.Ends.{side_of, link_of, end_of};
ghost use Rattle.script_text.specs.ValueGrammar.{dir_of, lower_bytes_of, is_no_capital, rest_behind, marks_of, conn_of, read_of, write_of};
ghost use Rattle.script_text.specs.ValueGrammar.{event_of, why_of, filter_of, cause_of, ask_of};
ghost use Rattle.std.specs.List.{list_all};

use crate::words::{is_word, number};
use ev_types::{
    AskAnswer, Cause, ConnAnswer, Dir, FilterKind, Flags, NoMemory, ReadAnswer, Side, SideId, Why,
    WriteAnswer,
};
use hex::FromHexError;
use std::alloc::Global;

/// The greatest number that a link can have.
const MAX_LINK: u64 = u32::MAX as u64;

pub fn read_side(word: &[u8]) -> Option<Side>
    ensures { result ≡ side_of word.now }
{
    if is_word(word, "in") {
        Some(Side::In)
    } else if is_word(word, "out") {
        Some(Side::Out)
    } else {
        None
    }
}

pub fn read_link(word: &[u8]) -> Option<u32>
    ensures { result ≡ link_of word.now }
{
    Some(number(word, MAX_LINK)? as u32)
}

/// The end that these words name.
pub fn read_end(link: &[u8], side: &[u8]) -> Option<SideId>
    ensures { result ≡ end_of link.now side.now }
{
    let side = read_side(side)?;
    let link = read_link(link)?;
    Some(SideId { link, side })
}

pub fn read_dir(word: &[u8]) -> Option<Dir>
    ensures { result ≡ dir_of word.now }
{
    if is_word(word, "read") {
        Some(Dir::Read)
    } else if is_word(word, "write") {
        Some(Dir::Write)
    } else {
        None
    }
}

/// The filter that a word names: `none`, `to-crlf`, `to-lf`, `hex-out` or `hex-in`. `None` for every other word, capital
/// letters among them. Takes no memory, and a constant time.
///
/// Own.
pub fn filter_named(word: &[u8]) -> Option<FilterKind>
    ensures { result ≡ filter_kind_of word.now }
{
    if is_word(word, "none") {
        Some(FilterKind::None)
    } else if is_word(word, "to-crlf") {
        Some(FilterKind::ToCrlf)
    } else if is_word(word, "to-lf") {
        Some(FilterKind::ToLf)
    } else if is_word(word, "hex-out") {
        Some(FilterKind::HexOut)
    } else if is_word(word, "hex-in") {
        Some(FilterKind::HexIn)
    } else {
        None
    }
}

/// The directions that a word marks: reading and writing.
pub fn read_marks(word: &[u8]) -> Option<(bool, bool)>
    ensures { result ≡ marks_of word.now }
{
    if is_word(word, "r") {
        Some((true, false))
    } else if is_word(word, "w") {
        Some((false, true))
    } else if is_word(word, "rw") {
        Some((true, true))
    } else {
        None
    }
}

pub fn read_conn(word: &[u8]) -> Option<ConnAnswer>
    ensures { result ≡ conn_of word.now }
{
    if is_word(word, "ok") {
        Some(ConnAnswer::Connected)
    } else if is_word(word, "wait") {
        Some(ConnAnswer::Pending)
    } else if is_word(word, "fail") {
        Some(ConnAnswer::Failed)
    } else {
        None
    }
}

/// What a read gave that got no bytes.
pub fn read_read(word: &[u8]) -> Option<ReadAnswer>
    ensures { result ≡ read_of word.now }
{
    if is_word(word, "end") {
        Some(ReadAnswer::Ended)
    } else if is_word(word, "notyet") {
        Some(ReadAnswer::NotYet)
    } else if is_word(word, "fail") {
        Some(ReadAnswer::Failed)
    } else {
        None
    }
}

/// What a write did that took no bytes.
pub fn read_write(word: &[u8]) -> Option<WriteAnswer>
    ensures { result ≡ write_of word.now }
{
    if is_word(word, "notyet") {
        Some(WriteAnswer::NotYet)
    } else if is_word(word, "fail") {
        Some(WriteAnswer::Failed)
    } else {
        None
    }
}

/// The bytes that a word of lower-case hex digits spells, at least one. Takes memory for them.
pub fn lower_bytes(alloc: Global, word: &[u8]) -> Result<Option<Vec<u8>>, NoMemory>
    ensures { IfOk result (λ bytes. option_map (λ v. v.items) bytes ≡ lower_bytes_of word.now) }
{
    if word.len() < 2 || !has_no_capital(word) {
        return Ok(None);
    }
    match hex::decode(alloc, word) {
        Ok(bytes) => Ok(Some(bytes)),
        Err(FromHexError::OutOfMemory) => Err(NoMemory),
        Err(_) => Ok(None),
    }
}

fn has_no_capital(word: &[u8]) -> bool
    ensures { result ≡ list_all is_no_capital word.now }
{
    word.iter().all(|b| !(b'A'..=b'F').contains(b))
}

fn behind<'a>(word: &'a [u8], front: &str) -> Option<&'a [u8]>
    ensures { option_map (λ rest. rest.now) result ≡ rest_behind front.now word.now }
{
    word.strip_prefix(front.as_bytes())
}

/// A reason. Takes memory for the byte of an event's flags.
pub fn read_why(alloc: Global, word: &[u8]) -> Result<Option<Why>, NoMemory>
    ensures { IfOk result (λ why. why ≡ why_of word.now) }
{
    if is_word(word, "connected") {
        Ok(Some(Why::Connected))
    } else if is_word(word, "read") {
        Ok(Some(Why::Read))
    } else if is_word(word, "write") {
        Ok(Some(Why::Write))
    } else if is_word(word, "timer") {
        Ok(Some(Why::Timer))
    } else {
        read_event(alloc, word)
    }
}

fn read_event(alloc: Global, word: &[u8]) -> Result<Option<Why>, NoMemory>
    ensures { IfOk result (λ why. why ≡ event_of word.now) }
{
    let Some(digits) = behind(word, "event:") else {
        return Ok(None);
    };
    let Some(bytes) = lower_bytes(alloc, digits)? else {
        return Ok(None);
    };
    match bytes.as_slice() {
        [flags] => Ok(Some(Why::Event(Flags(*flags)))),
        _ => Ok(None),
    }
}

pub fn read_cause(word: &[u8]) -> Option<Cause>
    ensures { result ≡ cause_of word.now }
{
    if is_word(word, "hook") {
        Some(Cause::Hook)
    } else if is_word(word, "done") {
        Some(Cause::Done)
    } else if is_word(word, "peergone") {
        Some(Cause::PeerGone)
    } else if is_word(word, "failed") {
        Some(Cause::Failed)
    } else if is_word(word, "timeout") {
        Some(Cause::Timeout)
    } else {
        read_filter(word)
    }
}

fn read_filter(word: &[u8]) -> Option<Cause>
    ensures { result ≡ filter_of word.now }
{
    let digits = behind(word, "filter:")?;
    Some(Cause::Filter(number(digits, u64::MAX)?))
}

pub fn read_ask(word: &[u8]) -> Option<AskAnswer>
    ensures { result ≡ ask_of word.now }
{
    if is_word(word, "ok") {
        Some(AskAnswer::Ok)
    } else if is_word(word, "notlive") {
        Some(AskAnswer::NotLive)
    } else if is_word(word, "nogroup") {
        Some(AskAnswer::NoGroup)
    } else if is_word(word, "badvalue") {
        Some(AskAnswer::BadValue)
    } else if is_word(word, "toomanyrefs") {
        Some(AskAnswer::TooManyRefs)
    } else if is_word(word, "memory") {
        Some(AskAnswer::Memory)
    } else {
        None
    }
}
