// The relay's own state, of which a hook that runs may ask.
ghost use Rattle.std.specs.Prelude.{◌≡◌, ◌<◌, ◌≤◌, ◌+◌, nat_le, [], true, false};
ghost use Rattle.relay_model.specs.Plain.{is_live};
ghost use Rattle.relay_model.specs.Reasons.{raise};
ghost use Rattle.relay_state.specs.State.{with_plain};
ghost use Rattle.relay_state.specs.Closing.{freed};
ghost use Rattle.relay_state.specs.Serving.{raise_read, raise_write};
ghost use Rattle.relay_core.specs.Fires.{SameFire};

use crate::rate_groups::RateGroups;
use crate::rates::leave;
use ev_types::{Entry, Settings, SideId, Why};
use number_set::NumberSet;
use rate_group::Groups;
use relay_pool::LinkPool;
use relay_sides::{Dir, SpareLimits};
use relay_waits::Waits;
use resting_links::RestingLinks;
use std::marker::Model;

/// The relay's own state, as a hook that runs is lent it. The hook asks by the calls that answer an `AskFault`: each is refused or done at
/// once, and recorded, up to 256 in a fire; the other calls are questions, which change nothing. It may free any side, its own too, and
/// goes on asking then. Only a fire of the relay lends it.
///
/// Own; a callback of libevent makes such calls on a bufferevent.
#[derive(Drop)]
pub struct Ctl {
    pub(crate) settings: Settings,
    pub(crate) given: RateGroups,
    /// Whether nothing but timers depends on the time: no side has a timeout or a limit, and there are no groups.
    pub(crate) untimed: bool,
    /// The links at which time may change something, and for each side of another one the moment at which its limit gives it more, if that
    /// gives it nothing now.
    pub(crate) resting: RestingLinks,
    /// The links of which a side may be in a group.
    pub(crate) grouped: NumberSet,
    pub(crate) time: u64,
    pub(crate) turns: u64,
    pub(crate) sides: LinkPool,
    /// The groups, of which sides are members by their numbers.
    pub(crate) groups: Groups,
    pub(crate) spare_limits: SpareLimits,
    pub(crate) waits: Waits,
    /// The side whose hook runs, or ran last.
    pub(crate) me: SideId,
    /// How many asks it made; 256 while none runs.
    pub(crate) asks: u32,
    pub(crate) stopped: bool,
    pub(crate) log: Vec<Entry>,
}

impl Model for Ctl {
    ghost use Rattle.relay_core.specs.RelayValue.{RelayValue};
    ghost use Rattle.std.specs.Coded.{codes};
    ghost use Rattle.number_set.specs.Code.{number_set_code};

    ghost Value = { RelayValue };

    ghost coded = { Prim.hlevel (codes, number_set_code) };

    ghost use Rattle.relay_core.specs.RelayView.{relay_of, IsSound};

    ghost view = { relay_of };

    ghost invariant = { IsSound };
}

/// Whether two numbers come to no more than a third.
fn add_up_to_at_most(first: u64, second: u64, most: u64) -> bool
    ensures { result ≡ nat_le (first + second) most }
{
    first <= most && second <= most - first
}

impl Ctl {
    /// Whether the side was opened and not freed. Constant; takes no memory.
    ///
    /// Own.
    pub fn live(&self, side: SideId) -> bool
        ensures live { result ≡ is_live self.now.state.plain side }
        ensures opened { result ≡ true → side.link < self.now.state.plain.opened }
    {
        side.link < self.sides.opened() && self.sides.is_live(side)
    }

    /// A reason becomes due for a side, where it is live and has a hook.
    pub(crate) fn raise(&mut self, side: SideId, why: Why)
        ensures state { self.new.state ≡ with_plain (raise self.old.state.settings side why self.old.state.plain) self.old.state }
        ensures fire { SameFire self.old self.new }
        ensures watched { self.new.watched ≡ self.old.watched }
    {
        if self.waits.has_hook(side) && self.live(side) {
            self.waits.raise(side, why);
        }
    }

    /// The read reason becomes due where the input is at least as long as the read low mark.
    pub(crate) fn raise_read(&mut self, side: SideId)
        ensures state { self.new.state ≡ raise_read side self.old.state }
        ensures fire { SameFire self.old self.new }
    {
        if !self.waits.has_hook(side) || !self.live(side) {
            return;
        }
        if self.sides.low_mark(side, Dir::Read) <= self.sides.input_len(side) as u64 {
            self.waits.raise(side, Why::Read);
        }
    }

    /// The write reason becomes due where the output is at most as long as the write low mark.
    pub(crate) fn raise_write(&mut self, side: SideId)
        ensures state { self.new.state ≡ raise_write side self.old.state }
        ensures fire { SameFire self.old self.new }
    {
        if !self.waits.has_hook(side) || !self.live(side) {
            return;
        }
        let lengths = self.sides.lengths(side);
        let low = self.sides.low_mark(side, Dir::Write);
        if add_up_to_at_most(lengths.output, lengths.raw_output, low) {
            self.waits.raise(side, Why::Write);
        }
    }

    /// The side is freed, with its timer, its reasons, its membership and its bytes.
    pub(crate) fn free_side(&mut self, side: SideId)
        requires { side.link < self.old.state.plain.opened }
        ensures state { self.new.state ≡ freed side self.old.state }
        ensures fire { SameFire self.old self.new }
    {
        self.sides.free(side);
        self.waits.forget(side);
        self.resting.watch(side.link as usize);
        leave(&mut self.groups, side);
    }

    /// A fire of a side's hook begins, in room that was made before.
    pub(crate) fn begin_fire(&mut self, side: SideId)
        requires { 512 ≤ self.old.fire_room }
        ensures state { self.new.state ≡ self.old.state }
        ensures me { self.new.me ≡ side }
        ensures asks { self.new.asks ≡ 0 }
        ensures stopped { self.new.stopped ≡ false }
        ensures log { self.new.log ≡ [] }
    {
        self.log.clear();
        self.me = side;
        self.asks = 0;
        self.stopped = false;
    }
}
