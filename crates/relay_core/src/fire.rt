// Hooks: what is due becomes a batch, of which one reason after the other is fired at the hook of its side.
ghost use Rattle.std.specs.Prelude.{◌≡◌, ◌≤◌, [], ◌∷◌, true, length, OnOk, IsOk, MatchOption};
ghost use Rattle.relay_model.specs.Plain.{is_live};
ghost use Rattle.relay_model.specs.Hooked.{asked_in};
ghost use Rattle.relay_state.specs.Asking.{dispatching, left_to_fire};
ghost use Rattle.relay_core.specs.Fires.{FiresSide, events_of, told_more, HasAskedByPlan};

use crate::ask::MOST_ASKS;
use crate::hook::Hook;
use crate::relay::Relay;
use ev_types::{Entry, NoMemory, SideId, Why};

/// The most entries of one fire's asks: an ask that frees has two.
const MOST_ENTRIES: usize = 2 * MOST_ASKS as usize;

impl Relay {
    /// Makes all that is due the batch. It is asked that the batch is used up. No more sides have something due than have a hook. Linear
    /// in the entries that are due; takes no memory.
    ///
    /// Own.
    pub fn begin_batch(&mut self)
        requires { self.old.state.batch ≡ [] }
        ensures state { self.new.state ≡ dispatching self.old.state }
        ensures few { length self.old.state.plain.due ≤ length self.old.state.settings.hooks }
    {
        self.ctl.waits.begin();
    }

    /// Takes the next reason of the batch: the side, and why its hook is to be called. None where the batch is used up. Constant; takes no
    /// memory.
    ///
    /// Own.
    pub fn next_due(&mut self) -> Option<(SideId, Why)>
        ensures { MatchOption result ((self.old.state.batch ≡ []) × (self.new.state ≡ self.old.state))
            (λ r. (self.old.state.batch ≡ r ∷ self.new.state.batch) × (self.new.state ≡ left_to_fire self.new.state.batch self.old.state)) }
    {
        self.ctl.waits.next()
    }

    /// Makes room for the entries of one fire, and memory for the limits that it may set. Takes memory for the first one, and for limits
    /// that were set since, and none where there is room already; constant.
    ///
    /// Own.
    pub fn reserve_fire(&mut self) -> Result<(), NoMemory>
        ensures state { self.new.state ≡ self.old.state }
        ensures room { OnOk result (512 ≤ self.new.fire_room) }
        ensures there { 512 ≤ self.old.fire_room → IsOk result }
    {
        self.ctl.log.clear();
        self.ctl.asks = MOST_ASKS;
        self.ctl.log.reserve(MOST_ENTRIES)?;
        self.ctl.spare_limits.reserve(MOST_ASKS as usize)
    }

    /// Calls the hook of a live side once, for one reason, in room that was made before, and lends it the relay's state. What it asked is
    /// kept as entries until the next fire. Takes what memory the hook takes; costs what the hook costs.
    ///
    /// Own; libevent calls the callbacks of a bufferevent so.
    pub fn fire(&mut self, side: SideId, why: Why, hook: &mut Box<dyn Hook>) -> Result<(), NoMemory>
        requires live { is_live self.old.state.plain side ≡ true }
        requires room { 512 ≤ self.old.fire_room }
        ensures step { FiresSide side self.old self.new }
        ensures heard { OnOk result (heard hook.new ≡ told_more (heard hook.old) (why ∷ [])) }
        ensures asked { OnOk result (asked hook.new ≡ told_more (asked hook.old) (asked_in side self.new.log)) }
        ensures planned { planned hook.new ≡ planned hook.old }
        ensures by_plan { HasAskedByPlan (planned hook.old) (heard hook.old) (asked hook.old) →
            OnOk result (HasAskedByPlan (planned hook.new) (heard hook.new) (asked hook.new)) }
    {
        self.ctl.begin_fire(side);
        hook.fire(&mut self.ctl, why)
    }

    /// The entries of what the last fire asked, in order. Constant; takes no memory.
    ///
    /// Own.
    pub fn fired(&self) -> &[Entry]
        ensures { events_of result.now ≡ self.now.log }
    {
        &self.ctl.log
    }

    /// Whether the hook of the last fire stopped the run. Constant; takes no memory.
    ///
    /// Own.
    pub fn has_stopped(&self) -> bool
        ensures { result ≡ self.now.stopped }
    {
        self.ctl.stopped
    }
}
