// What happens to a bufferevent, for which its callback becomes due.
ghost use Rattle.std.specs.Prelude.{◌≡◌, false, OnOk, OnErr, IfOk};
ghost use Rattle.byte_queue.specs.MemoryAnswers.{fault_of};
ghost use Rattle.ev_types.specs.declared.why.Why.TheVariants as why_of;
ghost use Rattle.bev_core.specs.BevValue.{reaches_low};
ghost use Rattle.bev_core.specs.Steps.{with_enabled, ended_at, failed_at};
ghost use Rattle.bev_socket.specs.Results.{event_flags};
ghost use Rattle.bev_world.specs.Refusals.{live_refusal};
ghost use Rattle.bev_world.specs.Went.{Went};
ghost use Rattle.bev_world.specs.WorldValue.{bev_at, with_bev, raised, raised_if, reason_of};

use super::World;
use crate::fault::WorldFault;
use bev_core::{Dir, EOF, ERROR, TIMEOUT};
use bev_socket::{ended, failed, timed_out};
use ev_types::{BevId, Flags, Why};

impl World {
    /// Makes the reason of a direction due where its length calls for it: reading where the input is at least as long as the read
    /// low mark, writing where the output is at most as long as the write low mark. Takes no memory; constant cost.
    ///
    /// Libevent: event2/bufferevent.h, `bufferevent_trigger`; "Bufferevents: advanced topics".
    pub fn trigger(&mut self, id: BevId, dir: Dir) -> Result<(), WorldFault>
        ensures answer { fault_of result ≡ live_refusal self.old id.0 }
        ensures ok { OnOk result (self.new ≡ raised_if (reaches_low (bev_at self.old id.0) dir) self.old id.0 (reason_of dir)) }
        ensures err { OnErr result (self.new ≡ self.old) }
        ensures went { Went self.old self.new }
    {
        let at = self.find(id)?;
        let due = self.slots[at].bev.reaches_low(dir);
        self.raise_if(due, at, reason_of(dir));
        Ok(())
    }

    /// End of file was met in a direction: the direction is disabled, the mark `ended` is set, and the event becomes due. Answers
    /// its flags. Takes no memory; constant cost.
    ///
    /// Libevent: event2/bufferevent.h, `BEV_EVENT_EOF`; "Bufferevents: concepts and basics".
    pub fn ended(&mut self, id: BevId, dir: Dir) -> Result<Flags, WorldFault>
        ensures answer { fault_of result ≡ live_refusal self.old id.0 }
        ensures flags { IfOk result (λ flags. flags ≡ event_flags dir EOF) }
        ensures ok { OnOk result (self.new
            ≡ raised (with_bev self.old id.0 (ended_at (bev_at self.old id.0) dir)) id.0 (why_of.Event (event_flags dir EOF))) }
        ensures err { OnErr result (self.new ≡ self.old) }
        ensures went { Went self.old self.new }
    {
        let at = self.find(id)?;
        let flags = ended(&mut self.slots[at].bev, dir);
        self.raise(at, Why::Event(flags));
        Ok(flags)
    }

    /// An error was met in a direction: as `ended`, with the mark `failed`.
    ///
    /// Libevent: event2/bufferevent.h, `BEV_EVENT_ERROR`; "Bufferevents: concepts and basics".
    pub fn failed(&mut self, id: BevId, dir: Dir) -> Result<Flags, WorldFault>
        ensures answer { fault_of result ≡ live_refusal self.old id.0 }
        ensures flags { IfOk result (λ flags. flags ≡ event_flags dir ERROR) }
        ensures ok { OnOk result (self.new
            ≡ raised (with_bev self.old id.0 (failed_at (bev_at self.old id.0) dir)) id.0 (why_of.Event (event_flags dir ERROR))) }
        ensures err { OnErr result (self.new ≡ self.old) }
        ensures went { Went self.old self.new }
    {
        let at = self.find(id)?;
        let flags = failed(&mut self.slots[at].bev, dir);
        self.raise(at, Why::Event(flags));
        Ok(flags)
    }

    /// A timeout of a direction expired: as `ended`, and no mark is set.
    ///
    /// Libevent: event2/bufferevent.h, `BEV_EVENT_TIMEOUT`; "Bufferevents: concepts and basics".
    pub fn timed_out(&mut self, id: BevId, dir: Dir) -> Result<Flags, WorldFault>
        ensures answer { fault_of result ≡ live_refusal self.old id.0 }
        ensures flags { IfOk result (λ flags. flags ≡ event_flags dir TIMEOUT) }
        ensures ok { OnOk result (self.new
            ≡ raised (with_bev self.old id.0 (with_enabled (bev_at self.old id.0) dir false)) id.0
            (why_of.Event (event_flags dir TIMEOUT))) }
        ensures err { OnErr result (self.new ≡ self.old) }
        ensures went { Went self.old self.new }
    {
        let at = self.find(id)?;
        let flags = timed_out(&mut self.slots[at].bev, dir);
        self.raise(at, Why::Event(flags));
        Ok(flags)
    }
}

/// The reason of a direction.
pub(crate) fn reason_of(dir: Dir) -> Why
    ensures { result ≡ reason_of dir }
{
    match dir {
        Dir::Read => Why::Read,
        Dir::Write => Why::Write,
    }
}
