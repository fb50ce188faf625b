// The step of a filter of anybody's, from one bufferevent to another.
ghost use Rattle.std.specs.Prelude.{◌≡◌, true, [], OnOk, IfErr, OnErr};
ghost use Rattle.ev_types.specs.declared.filter.Mode.TheVariants as mode_of;
ghost use Rattle.token_bucket.specs.declared.limit.Dir.TheVariants as dir_of;
ghost use Rattle.bev_core.specs.Steps.{held};
ghost use Rattle.bev_filter.specs.PassingBy.{PassesBy, Trades};
ghost use Rattle.bev_filter.specs.declared.fault.PassFault.TheVariants.{Memory};

use crate::fault::PassFault;
use crate::source::step_of;
use bev_core::{Bev, Dir};
use std::vec::Vec;
use stream_filters::{FilterFault, Mode, Step, StreamFilter};

/// Passes the input of `under` through any filter to the end of the input of `over`, until all is used or that holds at least
/// `limit` bytes, as a step of the filter does. What the filter holds back is left to the next call, which has the mode Finished
/// where no input will come.
///
/// Asked that both are live, and as a step of a finished filter for no input and the mode Finished. Spent exactly where the
/// filter goes on and the bytes used and those of the input are more than a u64 counts; then refused for want of memory; then as
/// Filter where the next byte is bad, or the end is, and there is room: the bytes before it have passed.
///
/// Takes memory for what the filter makes, twice, since that is made beside the buffers first. The cost is that of the filter's
/// step.
///
/// Libevent: event2/bufferevent.h, `bufferevent_filter_new`; "Bufferevents: advanced topics", filters.
/// Differs: the limit is the caller's, and no mark is looked at.
pub fn process_input_by<F: StreamFilter>(
    under: &mut Bev,
    over: &mut Bev,
    filter: &mut F,
    limit: usize,
    mode: Mode,
) -> Result<Step, PassFault>
    requires live { under.old.live ≡ true }
    requires over_live { over.old.live ≡ true }
    requires open { (F.reached filter.old).finished ≡ true → (under.old.input.bytes ≡ []) × (mode ≡ mode_of.Finished) }
    ensures passes { PassesBy F.filter F.reached F.known dir_of.Read limit mode result
        (record { from = under.old; to = over.old; by = filter.old }) (record { from = under.new; to = over.new; by = filter.new }) }
{
    pass_by(under, over, Dir::Read, filter, limit, mode)
}

/// Passes the output of `over` through any filter to the end of the output of `under`, as `process_input_by` does the input the
/// other way.
///
/// Libevent: event2/bufferevent.h, `bufferevent_filter_new`; "Bufferevents: advanced topics", filters.
/// Differs: the limit is the caller's, and no mark is looked at.
pub fn process_output_by<F: StreamFilter>(
    under: &mut Bev,
    over: &mut Bev,
    filter: &mut F,
    limit: usize,
    mode: Mode,
) -> Result<Step, PassFault>
    requires live { under.old.live ≡ true }
    requires over_live { over.old.live ≡ true }
    requires open { (F.reached filter.old).finished ≡ true → (over.old.output.bytes ≡ []) × (mode ≡ mode_of.Finished) }
    ensures passes { PassesBy F.filter F.reached F.known dir_of.Write limit mode result
        (record { from = over.old; to = under.old; by = filter.old }) (record { from = over.new; to = under.new; by = filter.new }) }
{
    pass_by(over, under, Dir::Write, filter, limit, mode)
}

/// Passes what the filter makes of the bytes of a direction, which is made beside the buffers first, by a copy of the filter: so
/// that want of memory changes nothing.
fn pass_by<F: StreamFilter>(
    from: &mut Bev,
    to: &mut Bev,
    dir: Dir,
    filter: &mut F,
    limit: usize,
    mode: Mode,
) -> Result<Step, PassFault>
    requires open { (F.reached filter.old).finished ≡ true → ((held from.old dir).bytes ≡ []) × (mode ≡ mode_of.Finished) }
    ensures passes { PassesBy F.filter F.reached F.known dir limit mode result (record { from = from.old; to = to.old; by = filter.old })
        (record { from = from.new; to = to.new; by = filter.new }) }
{
    let mut next = filter.copied();
    let mut made = Vec::new(from.allocator());
    let room = limit.saturating_sub(to.len(dir));
    match step_of(from, dir, &mut next, &mut made, room, mode) {
        Ok(step) => {
            trade(from, to, dir, &made, step.used)?;
            *filter = next;
            Ok(step)
        }
        Err(FilterFault::BadByte { used, place }) => {
            trade(from, to, dir, &made, used)?;
            *filter = next;
            Err(PassFault::Filter(place))
        }
        Err(FilterFault::Memory) => Err(PassFault::Memory),
        Err(FilterFault::Spent) => Err(PassFault::Spent),
    }
}

/// Puts what was made behind the target, and takes what was used off the source.
fn trade(from: &mut Bev, to: &mut Bev, dir: Dir, made: &[u8], used: usize) -> Result<(), PassFault>
    ensures trades { OnOk result (Trades dir used made.now from.old to.old from.new to.new) }
    ensures from { OnErr result (from.new ≡ from.old) }
    ensures to { OnErr result (to.new ≡ to.old) }
    ensures memory { IfErr result (λ fault. fault ≡ Memory) }
{
    to.feed(dir, made)?;
    from.drain(dir, used);
    Ok(())
}
