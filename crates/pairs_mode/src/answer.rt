// What a line is answered, and how that is spelled.
ghost use Rattle.std.specs.Prelude.{◌≡◌, IfOk, string_bytes};
ghost use Rattle.pairs_mode.specs.Answers.{answer_text, end_text, lengths_text};
ghost use Rattle.pairs_mode.specs.Pair.{shown};

use crate::half::Half;
use bev_core::Bev;
use std::alloc::{AllocError, Global};

/// Why a line changed nothing.
///
/// Own.
#[derive(Clone, Copy, Debug, PartialEq, Eq)]
pub(crate) enum Refusal {
    NotLive,
    NoPartner,
}

/// What a line is answered, by why it is refused, if it is.
pub(crate) fn answer_text(refusal: Option<Refusal>) -> &'static str
    ensures { result.now ≡ answer_text refusal }
{
    match refusal {
        None => "ok",
        Some(Refusal::NotLive) => "refused NotLive",
        Some(Refusal::NoPartner) => "refused NoPartner",
    }
}

/// The half at which end of file was raised, if it was.
pub(crate) fn end_text(end: Option<Half>) -> &'static str
    ensures { result.now ≡ end_text end }
{
    match end {
        None => "",
        Some(Half::A) => " eof a",
        Some(Half::B) => " eof b",
    }
}

/// The lengths of a half's input and output.
pub(crate) fn lengths_text(alloc: Global, half: &Bev) -> Result<String, AllocError>
    ensures { IfOk result (λ t. string_bytes t ≡ lengths_text (shown half.now)) }
{
    let state = half.state();
    let (input, output) = (state.input, state.output);
    if !state.live {
        return String::from_str(alloc, " -");
    }
    format!(in alloc; " {input} {output}")
}
