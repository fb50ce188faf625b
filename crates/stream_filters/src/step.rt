// One step of a running filter of any kind: its run, part by part, and its end.
ghost use Rattle.std.specs.Prelude.{◌≡◌, ◌≤◌, ◌<◌, ◌+◌, ◌^◌, ◌++◌, ◌==◌, [], ⊤, true, false, if◌then◌else◌, nat_lt, ℕ, max, None, length};
ghost use Rattle.std.specs.Prelude.{take, drop, min, OnOk, OnErr, vec_len, vec_capacity, ◌-◌, ◌⊎◌};
ghost use Rattle.ev_types.specs.declared.filter.FilterKind.TheVariants as kind_of;
ghost use Rattle.ev_types.specs.declared.filter.Mode.TheVariants as mode_of;
ghost use Rattle.filter_model.specs.FilterRun.{is_end_bad as end_is_bad, holds_byte as byte_is_held, end_adds};
ghost use Rattle.filter_model.specs.FilterStep.{stepped, ending, stop_place as place_of_stop, is_finished, after_bytes};
ghost use Rattle.filter_model.specs.FilterStep.{most_made as most_of};
ghost use Rattle.stream_filters.specs.Knowledge.{running_of, IsDigitLast};
ghost use Rattle.stream_filters.specs.Parts.{HasRoom, RanOver};
ghost use Rattle.stream_filters.specs.StepAnswers.{most_by_step, Answers, AnswersInPlace, is_last, is_spent, says_spent, WasMade};

use crate::fault::FilterFault;
use crate::knowledge::Knowledge;
use crate::parts::part;
use crate::put::put;
use crate::stream_filter::Step;
use ev_types::{FilterKind, Mode};

/// How many bytes a step makes at most of so many, or 2^64 - 1 where that is more.
fn most_made(kind: FilterKind, count: usize) -> usize
    ensures { result ≡ min (most_of kind count) (2 ^ 64 - 1) }
{
    match kind {
        FilterKind::None => count,
        FilterKind::ToCrlf | FilterKind::HexOut => count.saturating_mul(2),
        FilterKind::ToLf => count.saturating_add(1),
        FilterKind::HexIn => count / 2 + 1,
    }
}

/// How many bytes a step of a filter of this kind makes at most that is offered `count` bytes, where the target holds `held`:
/// none at the limit, and else at most one byte above it; or 2^64 - 1 where that is more. Takes no memory; the cost is constant.
///
/// Own.
pub fn most_step(kind: FilterKind, count: usize, held: usize, limit: usize) -> usize
    ensures { result ≡ min (most_by_step kind count held limit) (2 ^ 64 - 1) }
{
    if limit <= held {
        return 0;
    }
    (limit - held).saturating_add(1).min(most_made(kind, count))
}

/// Whether the stream ends behind the source.
fn ends_stream(mode: Mode) -> bool
    ensures { result ≡ is_last mode }
{
    match mode {
        Mode::Normal | Mode::Flush => false,
        Mode::Finished => true,
    }
}

/// Whether the input may not end after so many bytes.
fn is_end_bad(kind: FilterKind, used: u64) -> bool
    ensures { result ≡ end_is_bad kind used }
{
    kind == FilterKind::HexIn && used % 2 == 1
}

/// Whether a byte is held back.
fn holds_byte(kind: FilterKind, known: &Knowledge) -> bool
    ensures { result ≡ byte_is_held kind known.now.used known.now.last }
{
    match kind {
        FilterKind::None | FilterKind::ToCrlf | FilterKind::HexOut => false,
        FilterKind::ToLf => known.last == Some(b'\r'),
        FilterKind::HexIn => known.used % 2 == 1,
    }
}

/// What the end adds, where the filter is finished.
fn end_bytes(kind: FilterKind, known: &Knowledge) -> &'static [u8]
    ensures { result.now ≡ (if known.now.finished then end_adds kind known.now.last else []) }
{
    if known.finished && kind == FilterKind::ToLf && known.last == Some(b'\r') {
        b"\r"
    } else {
        b""
    }
}

/// Where a filter stops that has run as far as it may: with room in its target, at the next byte where one is left, or
/// at a bad end.
fn stop_place(kind: FilterKind, known: &Knowledge, all: bool, over: bool, room: bool) -> Option<u64>
    ensures { result ≡ place_of_stop (running_of kind known.now) all over room }
{
    let stops = room && (!all || (over && is_end_bad(kind, known.used)));
    stops.then_some(known.used)
}

/// Whether it is finished then.
fn is_over(kind: FilterKind, known: &Knowledge, all: bool, over: bool, room: bool) -> bool
    ensures { result ≡ is_finished (running_of kind known.now) all over room }
{
    all && over && !is_end_bad(kind, known.used) && (!holds_byte(kind, known) || room)
}

/// The run over the source, of which the filter takes note. It uses all bytes, or stops at the limit or before a bad byte.
fn run(
    kind: FilterKind,
    known: &mut Knowledge,
    src: &[u8],
    dst: &mut Vec<u8>,
    limit: usize,
) -> usize
    requires counted { known.old.used + length src.now < 2 ^ 64 }
    requires digit { IsDigitLast kind known.old.last }
    requires room { HasRoom kind limit known.old.used known.old.last src.now dst.old.items (vec_capacity dst.old) }
    ensures ran { RanOver kind limit known.old src.now dst.old.items known.new dst.new.items result }
    ensures digit { IsDigitLast kind known.new.last }
    ensures capacity { vec_capacity dst.old ≤ vec_capacity dst.new }
{
    let mut at = 0;
    while at < src.len() && dst.len() < limit {
        let rest = src.split_at(at).1;
        let used = part(kind, known, rest, dst, limit);
        if used == 0 {
            return at;
        }
        known.use_bytes(rest.split_at(used).0);
        at += used;
    }
    at
}

/// What a step of a filter does that has not stopped and isn't finished, in room that was made before. It answers how many
/// bytes it used.
fn run_on(
    kind: FilterKind,
    known: &mut Knowledge,
    src: &[u8],
    dst: &mut Vec<u8>,
    limit: usize,
    over: bool,
) -> usize
    requires open { known.old.finished ≡ false }
    requires unstopped { known.old.stopped ≡ None }
    requires counted { known.old.used + length src.now < 2 ^ 64 }
    requires digit { IsDigitLast kind known.old.last }
    requires room { length dst.old.items + most_by_step kind (length src.now) (length dst.old.items) limit ≤ vec_capacity dst.old }
    ensures used { result ≡ (stepped (running_of kind known.old) over limit (length dst.old.items) src.now).used }
    ensures made { WasMade (stepped (running_of kind known.old) over limit (length dst.old.items) src.now)
        (running_of kind known.new) dst.old.items dst.new.items }
    ensures digit { IsDigitLast kind known.new.last }
    ensures capacity { vec_capacity dst.old ≤ vec_capacity dst.new }
{
    let used = run(kind, known, src, dst, limit);
    let all = used == src.len();
    let room = dst.len() < limit;
    known.stopped = stop_place(kind, known, all, over, room);
    known.finished = is_over(kind, known, all, over, room);
    put(dst, end_bytes(kind, known));
    used
}

/// A step of a filter that has not stopped and isn't finished.
fn go_on(
    kind: FilterKind,
    known: &mut Knowledge,
    src: &[u8],
    dst: &mut Vec<u8>,
    limit: usize,
    mode: Mode,
) -> Result<Step, FilterFault>
    requires open { known.old.finished ≡ false }
    requires unstopped { known.old.stopped ≡ None }
    requires counted { known.old.used + length src.now < 2 ^ 64 }
    requires digit { IsDigitLast kind known.old.last }
    ensures answers { Answers result (stepped (running_of kind known.old) (is_last mode) limit (length dst.old.items) src.now)
        (running_of kind known.old) (running_of kind known.new) dst.old.items dst.new.items }
    ensures counted { says_spent result ≡ false }
    ensures digit { IsDigitLast kind known.new.last }
{
    dst.reserve(most_step(kind, src.len(), dst.len(), limit))?;
    let used = run_on(kind, known, src, dst, limit, ends_stream(mode));
    match known.stopped {
        Some(place) => Err(FilterFault::BadByte { used, place }),
        None => Ok(Step {
            used,
            finished: known.finished,
        }),
    }
}

/// A step in room that was made before: what `step_by` does, but it asks for counts that fit and is not refused.
pub(crate) fn make(
    kind: FilterKind,
    known: &mut Knowledge,
    src: &[u8],
    dst: &mut Vec<u8>,
    limit: usize,
    over: bool,
) -> usize
    requires counted { known.old.used + length src.now < 2 ^ 64 }
    requires digit { IsDigitLast kind known.old.last }
    requires room { length dst.old.items + most_by_step kind (length src.now) (length dst.old.items) limit ≤ vec_capacity dst.old }
    ensures used { result ≡ (stepped (running_of kind known.old) over limit (length dst.old.items) src.now).used }
    ensures made { WasMade (stepped (running_of kind known.old) over limit (length dst.old.items) src.now)
        (running_of kind known.new) dst.old.items dst.new.items }
    ensures digit { IsDigitLast kind known.new.last }
    ensures capacity { vec_capacity dst.old ≤ vec_capacity dst.new }
{
    if known.finished || known.stopped.is_some() {
        return 0;
    }
    run_on(kind, known, src, dst, limit, over)
}

/// One step of a filter of this kind.
pub(crate) fn step_by(
    kind: FilterKind,
    known: &mut Knowledge,
    src: &[u8],
    dst: &mut Vec<u8>,
    limit: usize,
    mode: Mode,
) -> Result<Step, FilterFault>
    requires digit { IsDigitLast kind known.old.last }
    ensures answers { Answers result (stepped (running_of kind known.old) (is_last mode) limit (length dst.old.items) src.now)
        (running_of kind known.old) (running_of kind known.new) dst.old.items dst.new.items }
    ensures spent { says_spent result ≡ is_spent (running_of kind known.old) (length src.now) }
    ensures digit { IsDigitLast kind known.new.last }
{
    if let Some(place) = known.stopped {
        return Err(FilterFault::BadByte { used: 0, place });
    }
    if known.finished {
        return Ok(Step {
            used: 0,
            finished: true,
        });
    }
    if src.len() as u64 > u64::MAX - known.used {
        return Err(FilterFault::Spent);
    }
    go_on(kind, known, src, dst, limit, mode)
}

/// What a step of a filter does that gives every byte as it is, where the target holds `held` bytes. It answers how many bytes
/// it used.
pub(crate) fn hand_on(
    known: &mut Knowledge,
    src: &[u8],
    held: usize,
    limit: usize,
    over: bool,
) -> usize
    requires counted { known.old.used + length src.now < 2 ^ 64 }
    ensures used { result ≡ (stepped (running_of kind_of.None known.old) over limit held src.now).used }
    ensures after { running_of kind_of.None known.new ≡ (stepped (running_of kind_of.None known.old) over limit held src.now).after }
    ensures made { (stepped (running_of kind_of.None known.old) over limit held src.now).made ≡ take result src.now }
    ensures many { (result ≡ 0) ⊎ (result ≡ min (length src.now) (limit - held)) }
{
    if known.finished || known.stopped.is_some() {
        return 0;
    }
    let used = src.len().min(limit.saturating_sub(held));
    known.use_bytes(src.split_at(used).0);
    known.finished = used == src.len() && over;
    used
}

/// One step of a filter that gives every byte as it is, where the target holds `held` bytes.
pub(crate) fn step_in_place(
    known: &mut Knowledge,
    src: &[u8],
    held: usize,
    limit: usize,
    mode: Mode,
) -> Result<Step, FilterFault>
    ensures answers { AnswersInPlace result (stepped (running_of kind_of.None known.old) (is_last mode) limit held src.now)
        (running_of kind_of.None known.old) (running_of kind_of.None known.new) src.now }
    ensures spent { says_spent result ≡ is_spent (running_of kind_of.None known.old) (length src.now) }
{
    if let Some(place) = known.stopped {
        return Err(FilterFault::BadByte { used: 0, place });
    }
    if known.finished {
        return Ok(Step {
            used: 0,
            finished: true,
        });
    }
    if src.len() as u64 > u64::MAX - known.used {
        return Err(FilterFault::Spent);
    }
    let used = src.len().min(limit.saturating_sub(held));
    known.use_bytes(src.split_at(used).0);
    known.finished = used == src.len() && ends_stream(mode);
    Ok(Step {
        used,
        finished: known.finished,
    })
}
