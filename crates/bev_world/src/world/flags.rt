// What is enabled, the marks, the timeouts and the references.
ghost use Rattle.std.specs.Prelude.{◌≡◌, ◌≤◌, ◌<◌, ◌+◌, ◌-◌, true, false, OnOk, OnErr};
ghost use Rattle.byte_queue.specs.MemoryAnswers.{AnswersOr, fault_of};
ghost use Rattle.bev_core.specs.Steps.{with_enabled, with_marks, with_timeouts, touched};
ghost use Rattle.bev_world.specs.Refusals.{live_refusal, incref_refusal, decref_refusal};
ghost use Rattle.bev_world.specs.declared.fault.WorldFault.TheVariants.{Memory};
ghost use Rattle.bev_world.specs.Went.{Went};
ghost use Rattle.bev_world.specs.WorldValue.{slot_at, bev_at, is_live, with_bev, with_input_room};

use super::World;
use crate::fault::WorldFault;
use bev_core::Dir;
use ev_types::BevId;

impl World {
    /// Enables a direction. Takes no memory; constant cost.
    ///
    /// Libevent: event2/bufferevent.h, `bufferevent_enable`; "Bufferevents: concepts and basics".
    /// Differs: enabling a half moves nothing.
    pub fn enable(&mut self, id: BevId, dir: Dir) -> Result<(), WorldFault>
        ensures answer { fault_of result ≡ live_refusal self.old id.0 }
        ensures ok { OnOk result (self.new ≡ with_bev self.old id.0 (with_enabled (bev_at self.old id.0) dir true)) }
        ensures err { OnErr result (self.new ≡ self.old) }
        ensures went { Went self.old self.new }
    {
        let at = self.find(id)?;
        self.slots[at].bev.enable(dir)?;
        Ok(())
    }

    /// Disables a direction. Takes no memory; constant cost.
    ///
    /// Libevent: event2/bufferevent.h, `bufferevent_disable`; "Bufferevents: concepts and basics".
    pub fn disable(&mut self, id: BevId, dir: Dir) -> Result<(), WorldFault>
        ensures answer { fault_of result ≡ live_refusal self.old id.0 }
        ensures ok { OnOk result (self.new ≡ with_bev self.old id.0 (with_enabled (bev_at self.old id.0) dir false)) }
        ensures err { OnErr result (self.new ≡ self.old) }
        ensures went { Went self.old self.new }
    {
        let at = self.find(id)?;
        self.slots[at].bev.disable(dir)?;
        Ok(())
    }

    /// Sets both marks of a direction, in bytes. A high mark of 0 is none, and no mark is too high. Takes no memory; constant cost.
    ///
    /// Libevent: event2/bufferevent.h, `bufferevent_setwatermark`; "Bufferevents: concepts and basics".
    pub fn set_watermark(
        &mut self,
        id: BevId,
        dir: Dir,
        low: u64,
        high: u64,
    ) -> Result<(), WorldFault>
        ensures answer { fault_of result ≡ live_refusal self.old id.0 }
        ensures ok { OnOk result (self.new ≡ with_bev self.old id.0 (with_marks (bev_at self.old id.0) dir low high)) }
        ensures err { OnErr result (self.new ≡ self.old) }
        ensures went { Went self.old self.new }
    {
        let at = self.find(id)?;
        self.slots[at].bev.set_watermark(dir, low, high)?;
        Ok(())
    }

    /// Sets both timeouts, in milliseconds, and makes a moment the last activity of both directions. 0 is no timeout, and
    /// none is too long. Takes no memory; constant cost.
    ///
    /// Libevent: event2/bufferevent.h, `bufferevent_set_timeouts`; "Bufferevents: concepts and basics".
    pub fn set_timeouts(
        &mut self,
        id: BevId,
        read_ms: u64,
        write_ms: u64,
        now: u64,
    ) -> Result<(), WorldFault>
        ensures answer { fault_of result ≡ live_refusal self.old id.0 }
        ensures ok { OnOk result (self.new ≡ with_bev self.old id.0 (with_timeouts (bev_at self.old id.0) read_ms write_ms now)) }
        ensures err { OnErr result (self.new ≡ self.old) }
        ensures went { Went self.old self.new }
    {
        let at = self.find(id)?;
        self.slots[at].bev.set_timeouts(read_ms, write_ms, now)?;
        Ok(())
    }

    /// Makes a moment the last activity of a direction. Takes no memory; constant cost.
    ///
    /// Own.
    pub fn touch(&mut self, id: BevId, dir: Dir, now: u64) -> Result<(), WorldFault>
        ensures answer { fault_of result ≡ live_refusal self.old id.0 }
        ensures ok { OnOk result (self.new ≡ with_bev self.old id.0 (touched (bev_at self.old id.0) dir now)) }
        ensures err { OnErr result (self.new ≡ self.old) }
        ensures went { Went self.old self.new }
    {
        let at = self.find(id)?;
        self.slots[at].bev.touch(dir, now)?;
        Ok(())
    }

    /// One reference more. TooManyRefs comes where there are 2^32 - 1. Takes no memory; constant cost.
    ///
    /// Libevent: event2/bufferevent.h, `bufferevent_incref`; "Bufferevents: advanced topics".
    pub fn incref(&mut self, id: BevId) -> Result<(), WorldFault>
        ensures answer { fault_of result ≡ incref_refusal self.old id.0 }
        ensures ok { OnOk result (self.new
            ≡ with_bev self.old id.0 (record (bev_at self.old id.0) { refs = (bev_at self.old id.0).refs + 1 })) }
        ensures err { OnErr result (self.new ≡ self.old) }
        ensures went { Went self.old self.new }
    {
        let at = self.find(id)?;
        self.slots[at].bev.incref()?;
        Ok(())
    }

    /// One reference less, also of a freed one. NotLive comes for a freed one that has none, and where none of this identifier was
    /// made. Takes no memory; constant cost.
    ///
    /// Libevent: event2/bufferevent.h, `bufferevent_decref`; "Bufferevents: advanced topics".
    /// Differs: the last reference frees nothing.
    pub fn decref(&mut self, id: BevId) -> Result<(), WorldFault>
        requires { is_live self.old id.0 ≡ true → 0 < (bev_at self.old id.0).refs }
        ensures answer { fault_of result ≡ decref_refusal self.old id.0 }
        ensures ok { OnOk result (self.new
            ≡ with_bev self.old id.0 (record (bev_at self.old id.0) { refs = (bev_at self.old id.0).refs - 1 })) }
        ensures err { OnErr result (self.new ≡ self.old) }
        ensures went { Went self.old self.new }
    {
        let at = id.0 as usize;
        if at >= self.slots.len() {
            return Err(WorldFault::NotLive);
        }
        self.slots[at].bev.decref()?;
        Ok(())
    }

    /// Makes room for at least n more bytes in the input, which a `feed` of so many is sure to find. Takes memory only where
    /// there is less; linear in the length and n then.
    ///
    /// Own.
    pub fn reserve_input(&mut self, id: BevId, n: usize) -> Result<(), WorldFault>
        ensures answer { AnswersOr Memory result (live_refusal self.old id.0) }
        ensures there { n ≤ (bev_at self.old id.0).input.spare → fault_of result ≡ live_refusal self.old id.0 }
        ensures stays { OnOk result (self.new
            ≡ with_input_room self.old id.0 (slot_at self.new id.0).room (bev_at self.new id.0).input.spare) }
        ensures room { OnOk result (n ≤ (slot_at self.new id.0).room) }
        ensures kept { OnOk result ((slot_at self.old id.0).room ≤ (slot_at self.new id.0).room) }
        ensures err { OnErr result (self.new ≡ self.old) }
        ensures went { Went self.old self.new }
    {
        let at = self.find(id)?;
        let slot = &mut self.slots[at];
        slot.bev.reserve_input(n)?;
        slot.room = slot.room.max(n);
        Ok(())
    }
}
