// The step of a filter over all bytes of a buffer. Where they lie in several chunks they are copied into one piece first.
ghost use Rattle.std.specs.Prelude.{◌≡◌, true, [], length};
ghost use Rattle.ev_types.specs.declared.filter.Mode.TheVariants as mode_of;
ghost use Rattle.filter_model.specs.FilterStep.{stepped};
ghost use Rattle.stream_filters.specs.StepAnswers.{Answers, is_last, is_spent, says_spent};
ghost use Rattle.stream_filters.specs.StreamSteps.{MakesStep, is_beyond};
ghost use Rattle.bev_core.specs.Steps.{held};

use bev_core::{Bev, Dir};
use std::vec::Vec;
use stream_filters::{AnyFilter, FilterFault, Mode, Step, StreamFilter};

/// The step of any filter over all bytes of the buffer of a direction. Takes memory for a copy of them where they lie in several chunks.
pub(crate) fn step_of<F: StreamFilter>(
    from: &Bev,
    dir: Dir,
    filter: &mut F,
    made: &mut Vec<u8>,
    limit: usize,
    mode: Mode,
) -> Result<Step, FilterFault>
    requires open { (F.reached filter.old).finished ≡ true → ((held from.now dir).bytes ≡ []) × (mode ≡ mode_of.Finished) }
    ensures steps { MakesStep F.filter F.reached F.known mode limit (held from.now dir).bytes result filter.old filter.new
        made.old.items made.new.items }
{
    if let Some(bytes) = from.piece(dir) {
        return filter.step(bytes, made, limit, mode);
    }
    if is_beyond(filter, from.len(dir)) {
        return Err(FilterFault::Spent);
    }
    let Ok(bytes) = from.gathered(dir, from.len(dir)) else {
        return Err(FilterFault::Memory);
    };
    filter.step(&bytes, made, limit, mode)
}

/// The same of one of the five filters.
pub(crate) fn make_of(
    from: &Bev,
    dir: Dir,
    filter: &mut AnyFilter,
    made: &mut Vec<u8>,
    limit: usize,
    mode: Mode,
) -> Result<Step, FilterFault>
    requires open { filter.old.finished ≡ true → ((held from.now dir).bytes ≡ []) × (mode ≡ mode_of.Finished) }
    ensures answers { Answers result (stepped filter.old (is_last mode) limit (length made.old.items) (held from.now dir).bytes)
        filter.old filter.new made.old.items made.new.items }
    ensures spent { says_spent result ≡ is_spent filter.old (length (held from.now dir).bytes) }
{
    if let Some(bytes) = from.piece(dir) {
        return filter.step(bytes, made, limit, mode);
    }
    if is_beyond(filter, from.len(dir)) {
        return Err(FilterFault::Spent);
    }
    let Ok(bytes) = from.gathered(dir, from.len(dir)) else {
        return Err(FilterFault::Memory);
    };
    filter.step(&bytes, made, limit, mode)
}

// A filter goes on, and the bytes that it used and so many more are more than a u64 counts.
fn is_beyond<F: StreamFilter>(filter: &F, offered: usize) -> bool
    ensures { result ≡ is_beyond (F.reached filter.now) offered }
{
    !filter.is_finished() && filter.stopped().is_none() && offered as u64 > u64::MAX - filter.used()
}
