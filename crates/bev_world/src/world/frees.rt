// The free of a bufferevent, and of those under it.
ghost use Rattle.std.specs.Prelude.{◌≡◌, ◌<◌, ◌+◌, true, None, OnOk, OnErr, IfSome, if◌then◌else◌, length};
ghost use Rattle.byte_queue.specs.MemoryAnswers.{fault_of};
ghost use Rattle.bev_world.specs.Frees.{Frees, freed_one, live_under};
ghost use Rattle.bev_world.specs.Refusals.{live_refusal};
ghost use Rattle.bev_world.specs.Went.{Went};
ghost use Rattle.bev_world.specs.WorldValue.{is_live};

use super::World;
use crate::fault::WorldFault;
use crate::slot::Kind;
use ev_types::BevId;

impl World {
    /// Frees a bufferevent: its bytes and the reasons for which its callback is due are dropped at once, those in the batch that
    /// runs too. The free of a filter frees the one under it, and so on. The identifier and the plain values stay. Takes no memory;
    /// the cost is in the reasons that are due.
    ///
    /// Libevent: event2/bufferevent.h, `bufferevent_free`; "Bufferevents: concepts and basics".
    /// Differs: no other half is told.
    pub fn free(&mut self, id: BevId) -> Result<(), WorldFault>
        ensures answer { fault_of result ≡ live_refusal self.old id.0 }
        ensures ok { OnOk result (Frees id.0 self.old self.new) }
        ensures spare { self.new.spare ≡ self.old.spare }
        ensures err { OnErr result (self.new ≡ self.old) }
        ensures went { Went self.old self.new }
    {
        let mut next = Some(self.find(id)?);
        while let Some(at) = next {
            next = self.free_one(at);
        }
        Ok(())
    }

    // Frees a live bufferevent alone, and answers which live one lies under it.
    fn free_one(&mut self, at: usize) -> Option<usize>
        requires there { at < length self.old.slots }
        requires live { is_live self.old at ≡ true }
        ensures after { self.new ≡ freed_one self.old at }
        ensures next { result ≡ live_under self.new at }
        ensures lower { IfSome result (λ under. under < at) }
    {
        let slot = &mut self.slots[at];
        slot.bev.free().unwrap();
        slot.room = 0;
        self.due.forget(at as u64);
        self.live_under(at)
    }

    // The bufferevent under a filter, where it is live.
    fn live_under(&self, at: usize) -> Option<usize>
        requires { at < length self.now.slots }
        ensures under { result ≡ live_under self.now at }
        ensures lower { IfSome result (λ under. under < at) }
    {
        match self.slots[at].kind {
            Kind::Filter(under) if self.is_live(BevId(under)) => Some(under as usize),
            _ => None,
        }
    }
}
