// The step of a filter from one bufferevent to another.
ghost use Rattle.std.specs.Prelude.{◌≡◌, ◌≢◌, true, [], length};
ghost use Rattle.ev_types.specs.declared.filter.FilterKind.TheVariants as kind_of;
ghost use Rattle.ev_types.specs.declared.filter.Mode.TheVariants as mode_of;
ghost use Rattle.token_bucket.specs.declared.limit.Dir.TheVariants as dir_of;
ghost use Rattle.stream_filters.specs.StepAnswers.{is_spent};
ghost use Rattle.bev_core.specs.Steps.{held};
ghost use Rattle.bev_filter.specs.Passing.{Passes, says_spent};

use crate::fault::PassFault;
use crate::source::make_of;
use bev_core::{Bev, Dir};
use std::vec::Vec;
use stream_filters::{AnyFilter, FilterFault, FilterKind, Mode, Step, StreamFilter};

/// Passes the input of `under` through the filter to the end of the input of `over`, until all is used or that holds at least
/// `limit` bytes, as a step of the filter does; it ends at most one byte above the limit. What the filter may hold back is left
/// to the next call, which has the mode Finished where no input will come.
///
/// Asked that both are live, and as a step of a finished filter for no input and the mode Finished. Spent exactly where the
/// filter goes on and the bytes used and those of the input are more than a u64 counts; then refused for want of memory; then as
/// Filter where the next byte is bad, or the end is, and there is room: the bytes before it have passed.
///
/// Takes memory for what passes, but not where a filter that gives every byte as it is passes all into an empty input, which is
/// an exchange. The cost is linear in the input.
///
/// Libevent: event2/bufferevent.h, `bufferevent_filter_new`; "Bufferevents: advanced topics", filters.
/// Differs: the limit is the caller's, and no mark is looked at.
pub fn process_input(
    under: &mut Bev,
    over: &mut Bev,
    filter: &mut AnyFilter,
    limit: usize,
    mode: Mode,
) -> Result<Step, PassFault>
    requires live { under.old.live ≡ true }
    requires over_live { over.old.live ≡ true }
    requires open { filter.old.finished ≡ true → (under.old.input.bytes ≡ []) × (mode ≡ mode_of.Finished) }
    ensures passes { Passes dir_of.Read limit mode result (record { from = under.old; to = over.old; filter = filter.old })
        (record { from = under.new; to = over.new; filter = filter.new }) }
    ensures spent { says_spent result ≡ is_spent filter.old (length under.old.input.bytes) }
{
    pass(under, over, Dir::Read, filter, limit, mode)
}

/// Passes the output of `over` through the filter to the end of the output of `under`, as `process_input` does the input the
/// other way.
///
/// Libevent: event2/bufferevent.h, `bufferevent_filter_new`; "Bufferevents: advanced topics", filters.
/// Differs: the limit is the caller's, and no mark is looked at.
pub fn process_output(
    under: &mut Bev,
    over: &mut Bev,
    filter: &mut AnyFilter,
    limit: usize,
    mode: Mode,
) -> Result<Step, PassFault>
    requires live { under.old.live ≡ true }
    requires over_live { over.old.live ≡ true }
    requires open { filter.old.finished ≡ true → (over.old.output.bytes ≡ []) × (mode ≡ mode_of.Finished) }
    ensures passes { Passes dir_of.Write limit mode result (record { from = over.old; to = under.old; filter = filter.old })
        (record { from = over.new; to = under.new; filter = filter.new }) }
    ensures spent { says_spent result ≡ is_spent filter.old (length over.old.output.bytes) }
{
    pass(over, under, Dir::Write, filter, limit, mode)
}

/// Passes the bytes of a direction.
fn pass(
    from: &mut Bev,
    to: &mut Bev,
    dir: Dir,
    filter: &mut AnyFilter,
    limit: usize,
    mode: Mode,
) -> Result<Step, PassFault>
    requires open { filter.old.finished ≡ true → ((held from.old dir).bytes ≡ []) × (mode ≡ mode_of.Finished) }
    ensures passes { Passes dir limit mode result (record { from = from.old; to = to.old; filter = filter.old })
        (record { from = from.new; to = to.new; filter = filter.new }) }
    ensures spent { says_spent result ≡ is_spent filter.old (length (held from.old dir).bytes) }
{
    match filter.kind() {
        FilterKind::None => pass_as_is(from, to, dir, filter, limit, mode),
        _ => pass_made(from, to, dir, filter, limit, mode),
    }
}

/// Passes them as they are: they are moved, and go through no other memory but where they lie in several chunks.
fn pass_as_is(
    from: &mut Bev,
    to: &mut Bev,
    dir: Dir,
    filter: &mut AnyFilter,
    limit: usize,
    mode: Mode,
) -> Result<Step, PassFault>
    requires kind { filter.old.kind ≡ kind_of.None }
    requires open { filter.old.finished ≡ true → ((held from.old dir).bytes ≡ []) × (mode ≡ mode_of.Finished) }
    ensures passes { Passes dir limit mode result (record { from = from.old; to = to.old; filter = filter.old })
        (record { from = from.new; to = to.new; filter = filter.new }) }
    ensures spent { says_spent result ≡ is_spent filter.old (length (held from.old dir).bytes) }
{
    let Some(bytes) = from.piece(dir) else {
        return pass_made(from, to, dir, filter, limit, mode);
    };
    let mut next = filter.copied();
    let answer = next.step_in_place(bytes, to.len(dir), limit, mode);
    match answer {
        Ok(step) => {
            from.pass(dir, to, step.used)?;
            *filter = next;
            Ok(step)
        }
        Err(FilterFault::BadByte { used, place }) => {
            from.pass(dir, to, used)?;
            *filter = next;
            Err(PassFault::Filter(place))
        }
        Err(FilterFault::Memory) => Err(PassFault::Memory),
        Err(FilterFault::Spent) => Err(PassFault::Spent),
    }
}

/// Passes what the filter makes of them, which is made beside the buffers first, by a copy of the filter: so that want of
/// memory changes nothing.
fn pass_made(
    from: &mut Bev,
    to: &mut Bev,
    dir: Dir,
    filter: &mut AnyFilter,
    limit: usize,
    mode: Mode,
) -> Result<Step, PassFault>
    requires open { filter.old.finished ≡ true → ((held from.old dir).bytes ≡ []) × (mode ≡ mode_of.Finished) }
    ensures passes { Passes dir limit mode result (record { from = from.old; to = to.old; filter = filter.old })
        (record { from = from.new; to = to.new; filter = filter.new }) }
    ensures spent { says_spent result ≡ is_spent filter.old (length (held from.old dir).bytes) }
{
    let mut next = filter.copied();
    let mut made = Vec::new(from.allocator());
    let room = limit.saturating_sub(to.len(dir));
    let answer = make_of(from, dir, &mut next, &mut made, room, mode);
    match answer {
        Ok(step) => {
            to.feed(dir, &made)?;
            from.drain(dir, step.used);
            *filter = next;
            Ok(step)
        }
        Err(fault) => match fault {
            FilterFault::BadByte { used, place } => {
                to.feed(dir, &made)?;
                from.drain(dir, used);
                *filter = next;
                Err(PassFault::Filter(place))
            }
            FilterFault::Memory => Err(PassFault::Memory),
            FilterFault::Spent => Err(PassFault::Spent),
        },
    }
}
