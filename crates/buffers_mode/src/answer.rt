// What a line is answered, and how that is spelled.
ghost use Rattle.std.specs.Prelude.{◌≡◌, ◌∷◌, [], IfOk, codes, string_bytes};
ghost use Rattle.std.specs.Fmt.{decimal};
ghost use Rattle.script_text.specs.Lines.{line_of};
ghost use Rattle.buffers_mode.specs.Answers.{answer_words, refusal_word, bytes_word, report_words, released_words};

use evbuf::Report;
use script_text::ByteList;
use std::alloc::{AllocError, Global};

/// Why a line changed nothing.
///
/// Own.
#[derive(Clone, Copy, Debug, PartialEq, Eq)]
pub(crate) enum Refusal {
    FrozenFront,
    FrozenEnd,
    SameBuffer,
    NoSuchCallback,
}

/// What a line is answered.
///
/// Own.
#[derive(Drop)]
pub(crate) enum Answer {
    Done,
    Bytes(ByteList),
    Count(usize),
    /// The place of a line end, and its length.
    LineEnd(usize, usize),
    Nothing,
    Refused(Refusal),
}

fn refusal_text(refusal: Refusal) -> &'static str
    ensures { result.now ≡ refusal_word refusal }
{
    match refusal {
        Refusal::FrozenFront => "FrozenFront",
        Refusal::FrozenEnd => "FrozenEnd",
        Refusal::SameBuffer => "SameBuffer",
        Refusal::NoSuchCallback => "NoSuchCallback",
    }
}

/// The line of an answer, with its LF.
pub(crate) fn answer_text(alloc: Global, answer: &Answer) -> Result<String, AllocError>
    ensures { IfOk result (λ t. string_bytes t ≡ line_of (answer_words answer.now)) }
{
    match answer {
        Answer::Done => String::from_str(alloc, "ok\n"),
        Answer::Bytes(list) => bytes_text(alloc, &list.bytes),
        Answer::Count(n) => count_text(alloc, *n),
        Answer::LineEnd(place, length) => line_end_text(alloc, *place, *length),
        Answer::Nothing => String::from_str(alloc, "none\n"),
        Answer::Refused(refusal) => refused_text(alloc, *refusal),
    }
}

fn bytes_text(alloc: Global, bytes: &[u8]) -> Result<String, AllocError>
    ensures { IfOk result (λ t. string_bytes t
        ≡ line_of (codes "bytes" ∷ bytes_word bytes.now ∷ [])) }
{
    if bytes.is_empty() {
        return String::from_str(alloc, "bytes -\n");
    }
    let digits = hex::encode(alloc, bytes)?;
    format!(in alloc; "bytes {digits}\n")
}

fn count_text(alloc: Global, n: usize) -> Result<String, AllocError>
    ensures { IfOk result (λ t. string_bytes t ≡ line_of (codes "n" ∷ decimal n ∷ [])) }
{
    format!(in alloc; "n {n}\n")
}

fn line_end_text(alloc: Global, place: usize, length: usize) -> Result<String, AllocError>
    ensures { IfOk result (λ t. string_bytes t
        ≡ line_of (codes "n" ∷ decimal place ∷ decimal length ∷ [])) }
{
    format!(in alloc; "n {place} {length}\n")
}

fn refused_text(alloc: Global, refusal: Refusal) -> Result<String, AllocError>
    ensures { IfOk result (λ t. string_bytes t
        ≡ line_of (codes "refused" ∷ refusal_word refusal ∷ [])) }
{
    let name = refusal_text(refusal);
    format!(in alloc; "refused {name}\n")
}

/// The line of a report of the buffer with this number, with its LF.
pub(crate) fn report_text(
    alloc: Global,
    buffer: usize,
    report: Report,
) -> Result<String, AllocError>
    ensures { IfOk result (λ t. string_bytes t ≡ line_of (report_words buffer report)) }
{
    let (cb, old) = (report.cb, report.old);
    let (added, deleted) = (report.added, report.deleted);
    format!(in alloc; "cb {buffer} {cb} {old} {added} {deleted}\n")
}

/// The line of a ticket that was handed out, with its LF.
pub(crate) fn released_text(alloc: Global, ticket: u64) -> Result<String, AllocError>
    ensures { IfOk result (λ t. string_bytes t ≡ line_of (released_words ticket)) }
{
    format!(in alloc; "released {ticket}\n")
}
