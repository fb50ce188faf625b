// The batch that runs, call by call.
ghost use Rattle.std.specs.Prelude.{◌≡◌, ◌<◌, ◌++◌, [], length, true, false, IfNone};
ghost use Rattle.std.specs.Bool.{then_some};
ghost use Rattle.std.specs.Option.{option_to_list};
ghost use Rattle.bev_world.specs.Batches.{IsIdle, batch_begun};
ghost use Rattle.bev_world.specs.WorldValue.{is_live};

use super::World;
use ev_types::{BevId, Why};

impl World {
    /// Makes the pending reasons the batch, unless one was cut off: then its rest is the batch.
    pub(crate) fn begin_batch(&mut self)
        requires { IsIdle self.old }
        ensures { self.new ≡ batch_begun self.old }
    {
        if self.cut {
            self.cut = false;
            return;
        }
        self.due.begin();
    }

    /// Takes the next call of the batch, or None where the batch is used up.
    pub(crate) fn next_call(&mut self) -> Option<(u64, Why)>
        ensures next { self.old.batch ≡ option_to_list result ++ self.new.batch }
        ensures used_up { IfNone result (self.old.batch ≡ []) }
        ensures others { self.new ≡ record self.old { batch = self.new.batch } }
    {
        self.due.take_turn()
    }

    /// The identifier of an owner whose bufferevent is live.
    pub(crate) fn live_id(&self, owner: u64) -> Option<BevId>
        ensures { result ≡ then_some (is_live self.now owner) (record { 0 = owner }) }
    {
        match self.slots.get(owner as usize) {
            Some(slot) if slot.bev.is_live() => Some(BevId(owner as u32)),
            _ => None,
        }
    }

    /// The batch was cut off by want of memory.
    pub(crate) fn cut_batch(&mut self)
        ensures { self.new ≡ record self.old { cut = true } }
    {
        self.cut = true;
    }
}
