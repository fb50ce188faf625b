// The bytes that a socket brings and takes.
ghost use Rattle.std.specs.Prelude.{◌≡◌, ◌≤◌, ◌<◌, ◌-◌, ◌&&◌, true, false, nat_lt, length, OnOk, OnErr, IfOk};
ghost use Rattle.byte_queue.specs.MemoryAnswers.{AnswersOr, fault_of};
ghost use Rattle.bev_core.specs.BevValue.{reaches_low};
ghost use Rattle.token_bucket.specs.declared.limit.Dir.TheVariants as dir_of;
ghost use Rattle.bev_world.specs.declared.fault.WorldFault.TheVariants.{Memory};
ghost use Rattle.bev_world.specs.Moved.{fed, fed_slot, took_of};
ghost use Rattle.bev_world.specs.Refusals.{socket_refusal, feed_refusal, length_fault, is_socket};
ghost use Rattle.bev_world.specs.Went.{Went};
ghost use Rattle.bev_world.specs.WorldValue.{slot_at, bev_at, is_live};

use super::World;
use crate::fault::WorldFault;
use crate::slot::{Kind, Slot};
use bev_socket::{took_read, took_write};
use ev_types::{BevId, Why};

impl World {
    /// A socket brought bytes: they go to the end of the input, the moment is the last activity of reading, and the reason of
    /// reading becomes due where bytes came and the input is at least as long as its read low mark. NotLive comes first, then
    /// NotSocket, then Spent where the length would not fit a usize. Takes memory, but not where `reserve_input` made room for so
    /// many; linear in the length.
    ///
    /// Libevent: event2/bufferevent.h, `bufferevent_data_cb`; "Bufferevents: concepts and basics".
    pub fn feed(&mut self, id: BevId, bytes: &[u8], now: u64) -> Result<(), WorldFault>
        ensures answer { AnswersOr Memory result (feed_refusal self.old id.0 (length bytes.now)) }
        ensures enough { length bytes.now ≤ (slot_at self.old id.0).room → fault_of result ≡ feed_refusal self.old id.0 (length bytes.now) }
        ensures ok { OnOk result (self.new ≡ fed self.old id.0 bytes.now now (bev_at self.new id.0).input.spare) }
        ensures err { OnErr result (self.new ≡ self.old) }
        ensures went { Went self.old self.new }
    {
        let at = self.find_socket(id)?;
        let due = bring(&mut self.slots[at], bytes, now)?;
        self.raise_if(due, at, Why::Read);
        Ok(())
    }

    /// A socket took the first n bytes of the output: they leave it, the moment is the last activity of writing, and the reason of
    /// writing becomes due where bytes were taken and the output is at most as long as its write low mark. Takes no
    /// memory; linear in n, over many calls.
    ///
    /// Libevent: event2/bufferevent.h, `bufferevent_data_cb`; "Bufferevents: concepts and basics".
    pub fn took(&mut self, id: BevId, n: usize, now: u64) -> Result<(), WorldFault>
        requires { is_live self.old id.0 ≡ true → is_socket (slot_at self.old id.0).kind ≡ true
            → n ≤ length (bev_at self.old id.0).output.bytes }
        ensures answer { fault_of result ≡ socket_refusal self.old id.0 }
        ensures ok { OnOk result (self.new ≡ took_of self.old id.0 n now (bev_at self.new id.0).output.spare) }
        ensures err { OnErr result (self.new ≡ self.old) }
        ensures went { Went self.old self.new }
    {
        let at = self.find_socket(id)?;
        let due = took_write(&mut self.slots[at].bev, n, now);
        self.raise_if(due, at, Why::Write);
        Ok(())
    }

    // The place of a live socket.
    fn find_socket(&self, id: BevId) -> Result<usize, WorldFault>
        ensures answer { fault_of result ≡ socket_refusal self.now id.0 }
        ensures found { IfOk result (λ n. (n ≡ id.0) × (n < length self.now.slots)) }
    {
        let at = self.find(id)?;
        match self.slots[at].kind {
            Kind::Socket => Ok(at),
            Kind::Half(_) | Kind::Filter(_) => Err(WorldFault::NotSocket),
        }
    }
}

// Brings bytes into an input, and answers whether the reason of reading is due. The room that it is sure to have is used up.
fn bring(slot: &mut Slot, bytes: &[u8], now: u64) -> Result<bool, WorldFault>
    requires live { slot.old.bev.live ≡ true }
    requires room { slot.old.room ≤ slot.old.bev.input.spare }
    ensures answer { AnswersOr Memory result (length_fault (length slot.old.bev.input.bytes) (length bytes.now)) }
    ensures enough { length bytes.now ≤ slot.old.room
        → fault_of result ≡ length_fault (length slot.old.bev.input.bytes) (length bytes.now) }
    ensures ok { OnOk result (slot.new ≡ fed_slot slot.old bytes.now now slot.new.bev.input.spare) }
    ensures due { IfOk result (λ due. due ≡ (nat_lt 0 (length bytes.now) && reaches_low slot.new.bev dir_of.Read)) }
    ensures room { OnOk result (slot.new.room ≤ slot.new.bev.input.spare) }
    ensures err { OnErr result (slot.new ≡ slot.old) }
{
    if bytes.len() > slot.room {
        let len = slot.bev.state().input as usize;
        if bytes.len() > usize::MAX - len {
            return Err(WorldFault::Spent);
        }
        slot.bev.reserve_input(bytes.len())?;
    }
    let due = took_read(&mut slot.bev, bytes, now);
    slot.room = slot.room.saturating_sub(bytes.len());
    // The length fits, since it is one.
    let _state = slot.bev.state();
    Ok(due)
}
