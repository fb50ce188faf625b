// A filter's step from one bufferevent to another in room that was made before, which is never refused. Bytes that a filter hands on as
// they are move with their buffer where that can be; what another filter makes is made beside the buffers and pushed.
ghost use Rattle.std.specs.Prelude.{◌≡◌, ◌+◌, ◌≤◌, ◌<◌, ◌^◌, false, length, OnOk, IfOk, IsOk, vec_capacity};
ghost use Rattle.ev_types.specs.declared.filter.FilterKind.TheVariants as kind_of;
ghost use Rattle.stream_filters.specs.StepAnswers.{most_by_step};
ghost use Rattle.bev_core.specs.Steps.{held, with_held};
ghost use Rattle.bev_filter.specs.Passing.{Crossed, stepping};
ghost use Rattle.bev_filter.specs.StepRoom.{hands_on, HasStepRoom, HasRoomFor, IsCounted, MovesInto};

use bev_core::{Bev, Dir};
use ev_types::{FilterKind, NoMemory};
use std::vec::Vec;
use stream_filters::{AnyFilter, most_step};

/// Makes room for a step of a filter of this kind that is offered `count` bytes: in the buffer of the direction to which they go, and
/// beside it where the filter makes bytes; what stands in `beside` is dropped then. Whether the bufferevent is live is not looked at.
/// Answers how many bytes the step makes at most.
///
/// Refused for want of memory, and where what it makes could not be counted in a u64 behind the `made` bytes that were made before.
/// Takes no memory where there is room for that most, or all bytes go as they are into an empty buffer; linear in what the buffer
/// holds.
///
/// Own.
pub fn reserve_step(
    kind: FilterKind,
    count: usize,
    to: &mut Bev,
    dir: Dir,
    beside: &mut Vec<u8>,
    limit: usize,
    made: u64,
) -> Result<usize, NoMemory>
    ensures stays { to.new ≡ with_held to.old dir (record (held to.old dir) { spare = (held to.new dir).spare }) }
    ensures spare { (held to.old dir).spare ≤ (held to.new dir).spare }
    ensures beside { vec_capacity beside.old ≤ vec_capacity beside.new }
    ensures room { OnOk result (HasStepRoom kind count (length (held to.new dir).bytes) limit (held to.new dir).spare
        (vec_capacity beside.new) made) }
    ensures there { HasStepRoom kind count (length (held to.old dir).bytes) limit (held to.old dir).spare (vec_capacity beside.old) made
        → IsOk result }
    ensures most { IfOk result (λ most. most ≡ most_by_step kind count (length (held to.new dir).bytes) limit) }
{
    let held = to.len(dir);
    let most = most_step(kind, count, held, limit);
    if most as u64 > u64::MAX - made {
        return Err(NoMemory);
    }
    let hands_on = hands_on(kind);
    if hands_on && held == 0 && count <= limit {
        return Ok(most);
    }
    to.make_room(dir, most)?;
    if !hands_on {
        beside.clear();
        beside.reserve(most)?;
    }
    Ok(most)
}

/// The step of a filter from the buffer of a direction of one bufferevent to that of another, as far as the limit allows and as
/// `process_input` makes it, in room that `reserve_step` made for as many bytes as there are or for more. `at_end` says that the stream
/// ends behind the source. A filter that is finished or has stopped does nothing. Whether the two are live is not looked at. Answers
/// how many bytes were made by then, of which `made` were made before.
///
/// Asked that each buffer of both lies in one piece, and that the bytes that the filter used and those of the source are no more than a
/// u64 counts. Takes no memory, and is never
/// refused; constant where all bytes go as they are into an empty buffer, and else linear in the source.
///
/// Own.
pub fn step_reserved(
    from: &mut Bev,
    to: &mut Bev,
    dir: Dir,
    filter: &mut AnyFilter,
    limit: usize,
    at_end: bool,
    beside: &mut Vec<u8>,
    made: u64,
) -> u64
    requires one_piece { from.old.chunked ≡ false }
    requires to_one_piece { to.old.chunked ≡ false }
    requires counted { IsCounted dir (record { from = from.old; to = to.old; filter = filter.old }) }
    requires room { HasRoomFor dir (record { from = from.old; to = to.old; filter = filter.old }) limit (vec_capacity beside.old) made }
    ensures crossed { Crossed dir (stepping dir (record { from = from.old; to = to.old; filter = filter.old }) limit at_end)
        (record { from = from.old; to = to.old; filter = filter.old }) (record { from = from.new; to = to.new; filter = filter.new }) }
    ensures made { result ≡ made + length (stepping dir (record { from = from.old; to = to.old; filter = filter.old }) limit at_end).made }
    ensures beside { vec_capacity beside.old ≤ vec_capacity beside.new }
{
    match filter.kind() {
        FilterKind::None => made + hand_step(from, to, dir, filter, limit, at_end) as u64,
        _ => made + make_step(from, to, dir, filter, limit, at_end, beside) as u64,
    }
}

/// Whether a filter gives every byte as it is.
fn hands_on(kind: FilterKind) -> bool
    ensures { result ≡ hands_on kind }
{
    kind == FilterKind::None
}

/// The step of a filter that hands its bytes on. It answers how many.
fn hand_step(
    from: &mut Bev,
    to: &mut Bev,
    dir: Dir,
    filter: &mut AnyFilter,
    limit: usize,
    at_end: bool,
) -> usize
    requires one_piece { from.old.chunked ≡ false }
    requires to_one_piece { to.old.chunked ≡ false }
    requires kind { filter.old.kind ≡ kind_of.None }
    requires counted { IsCounted dir (record { from = from.old; to = to.old; filter = filter.old }) }
    requires room { MovesInto (length (held from.old dir).bytes) (held to.old dir) limit }
    ensures crossed { Crossed dir (stepping dir (record { from = from.old; to = to.old; filter = filter.old }) limit at_end)
        (record { from = from.old; to = to.old; filter = filter.old }) (record { from = from.new; to = to.new; filter = filter.new }) }
    ensures made { result ≡ length (stepping dir (record { from = from.old; to = to.old; filter = filter.old }) limit at_end).made }
{
    let used = filter.hand_on(all_of(from, dir), to.len(dir), limit, at_end);
    from.pass_in_room(dir, to, used);
    used
}

/// The step of any filter. It answers how many bytes it made.
fn make_step(
    from: &mut Bev,
    to: &mut Bev,
    dir: Dir,
    filter: &mut AnyFilter,
    limit: usize,
    at_end: bool,
    beside: &mut Vec<u8>,
) -> usize
    requires one_piece { from.old.chunked ≡ false }
    requires counted { IsCounted dir (record { from = from.old; to = to.old; filter = filter.old }) }
    requires room { most_by_step filter.old.kind (length (held from.old dir).bytes) (length (held to.old dir).bytes) limit ≤
        (held to.old dir).spare }
    requires beside { most_by_step filter.old.kind (length (held from.old dir).bytes)
        (length (held to.old dir).bytes) limit ≤ vec_capacity beside.old }
    ensures crossed { Crossed dir (stepping dir (record { from = from.old; to = to.old; filter = filter.old }) limit at_end)
        (record { from = from.old; to = to.old; filter = filter.old }) (record { from = from.new; to = to.new; filter = filter.new }) }
    ensures made { result ≡ length (stepping dir (record { from = from.old; to = to.old; filter = filter.old }) limit at_end).made }
    ensures beside { vec_capacity beside.old ≤ vec_capacity beside.new }
{
    beside.clear();
    let room = limit.saturating_sub(to.len(dir));
    let used = filter.make(all_of(from, dir), beside, room, at_end);
    to.feed_reserved(dir, beside);
    from.drain(dir, used);
    beside.len()
}

/// All bytes of the buffer of a direction.
fn all_of(bev: &Bev, dir: Dir) -> &[u8]
    requires { bev.now.chunked ≡ false }
    ensures { result.now ≡ (held bev.now dir).bytes }
{
    bev.front(dir, bev.len(dir))
}
