// What a hook that runs may know. No question is an ask: none is recorded, changes anything or takes memory.
ghost use Rattle.std.specs.Prelude.{◌≡◌, ◌↔◌, true, false, IfOk, OnErr, Err};
ghost use Rattle.relay_model.specs.Plain.{is_live};
ghost use Rattle.relay_core.specs.Questions.{lengths_told, counts_told, IsPeeked};

use crate::ctl::Ctl;
use crate::fault::AskFault;
use ev_types::SideId;
use relay_sides::{Counts, Lengths};

impl Ctl {
    /// The side whose hook runs. Constant; takes no memory.
    ///
    /// Own.
    pub fn me(&self) -> SideId
        ensures { result ≡ self.now.me }
    {
        self.me
    }

    /// The time of this turn, in milliseconds. Constant; takes no memory.
    ///
    /// Libevent: event2/event.h, `event_base_gettimeofday_cached`; "Working with an event loop".
    pub fn now(&self) -> u64
        ensures { result ≡ self.now.state.plain.time }
    {
        self.time
    }

    /// Copies the first bytes of a side's input to the front of a slice, as many as both have, and answers how many. NotLive exactly where
    /// the side was never opened or is freed; then nothing is copied. Linear in what is copied; takes no memory.
    ///
    /// Libevent: event2/buffer.h, `evbuffer_copyout`; Evbuffers.
    pub fn peek(&self, side: SideId, into: &mut [u8]) -> Result<usize, AskFault>
        ensures copied { IfOk result (λ count. IsPeeked self.now.state side into.old into.new count) }
        ensures live { IfOk result (λ count. is_live self.now.state.plain side ≡ true) }
        ensures refused { OnErr result ((is_live self.now.state.plain side ≡ false) × (result ≡ Err AskFault.NotLive) ×
            (into.new ≡ into.old)) }
    {
        if !self.live(side) {
            return Err(AskFault::NotLive);
        }
        let input = self.sides.input(side);
        let count = input.len().min(into.len());
        let (from, _) = input.split_at(count);
        let (to, _) = into.split_at_mut(count);
        to.copy_from_slice(from);
        Ok(count)
    }

    /// How many bytes are in the four buffers of a side. NotLive exactly where it was never opened or is freed. Constant; takes no memory.
    ///
    /// Own.
    pub fn lengths(&self, side: SideId) -> Result<Lengths, AskFault>
        ensures { result ≡ lengths_told self.now.state side }
    {
        if !self.live(side) {
            return Err(AskFault::NotLive);
        }
        Ok(self.sides.lengths(side))
    }

    /// What was read from a side's end, moved to its peer and given to its end so far, in bytes. NotLive exactly where it was never
    /// opened, or is freed and has no reference. Constant; takes no memory.
    ///
    /// Own.
    pub fn counts(&self, side: SideId) -> Result<Counts, AskFault>
        ensures { result ≡ counts_told self.now.state side }
    {
        if !self.live(side) && self.references(side) == 0 {
            return Err(AskFault::NotLive);
        }
        Ok(self.sides.counts(side))
    }
}
