// A world of bufferevents, each known by a number.
//
// What a world keeps:
// 1. A freed bufferevent stays freed, and keeps its number and its plain values, unless it is made new by its number.
// 2. The other half of a half is another bufferevent, and what is under a filter was made before it.
// 3. There is room for a pending entry of every bufferevent, so that no reason is lost.
// 4. There is room for `spare` bufferevents more and for an entry of each, so that making them takes no memory.
// 5. The buffers of all its bufferevents may lie in several chunks, or none may.
ghost use Rattle.std.specs.Prelude.{◌≡◌, ◌≤◌, ◌<◌, ◌+◌, ◌-◌, ◌^◌, ◌++◌, ◌∷◌, ◌==◌, [], length, drop, take, min, true, false, Some, None};
ghost use Rattle.std.specs.Prelude.{OnOk, OnErr, IfOk, IfSome, if◌then◌else◌, nat_lt};
ghost use Rattle.std.specs.Bool.{then_some};
ghost use Rattle.byte_queue.specs.MemoryAnswers.{AnswersOr, fault_of};
ghost use Rattle.bev_core.specs.BevValue.{state_of};
ghost use Rattle.bev_socket.specs.Rooms.{read_room, write_room};
ghost use Rattle.bev_world.specs.Refusals.{live_refusal};
ghost use Rattle.bev_world.specs.Went.{Went};
ghost use Rattle.bev_world.specs.WorldValue.{slot_at, bev_at, is_live, raised, raised_if, room_at};

mod by_number;
mod events;
mod filters;
mod flags;
mod frees;
mod halves;
mod inputs;
mod made;
mod sockets;
mod turns;

use crate::fault::WorldFault;
use crate::slot::Slot;
use bev_core::{BevState, Dir};
use bev_socket::{room_read, room_write};
use deferred_cb::Due;
use ev_types::{BevId, Why};
use std::alloc::Global;
use std::marker::Model;

/// Bufferevents by identifier, with the reasons for which their callbacks are due.
///
/// A bufferevent that was freed keeps its identifier and its plain values for as long as the world is there; its bytes and their
/// room go at once.
///
/// Libevent: event2/bufferevent.h, `bufferevent`; "Bufferevents: concepts and basics".
/// Differs: a bufferevent is named by a number, which only `renew_at` uses again, so that a callback may free any of them.
#[derive(Drop)]
pub struct World {
    alloc: Global,
    slots: Vec<Slot>,
    due: Due,
    cut: bool,
    /// How many bufferevents more there is room for, at least.
    spare: usize,
    chunked: bool,
}

impl Model for World {
    ghost use Rattle.bev_world.specs.WorldValue.{WorldValue};

    ghost Value = { WorldValue };

    ghost use Rattle.bev_world.specs.WorldView.{world_of, IsWorld};

    ghost view = { world_of };

    ghost invariant = { IsWorld };
}

impl World {
    /// A world without a bufferevent. A buffer of its bufferevents may lie in several chunks, as evbuffers do. Takes no memory; constant
    /// cost.
    ///
    /// Own.
    pub fn new(alloc: Global) -> World
        ensures { result ≡ record { slots = []; pending = []; batch = []; cut = false; spare = 0; chunked = true } }
    {
        World::empty(alloc, true)
    }

    /// A world without a bufferevent. Each buffer of its bufferevents lies in one piece, so that its bytes can be shown as they are, and
    /// steps be made in room that was made before. Takes no memory; constant cost.
    ///
    /// Own.
    pub fn in_one_piece(alloc: Global) -> World
        ensures { result ≡ record { slots = []; pending = []; batch = []; cut = false; spare = 0; chunked = false } }
    {
        World::empty(alloc, false)
    }

    // A world without a bufferevent, whose buffers may lie in several chunks, or not.
    fn empty(alloc: Global, chunked: bool) -> World
        ensures { result ≡ record { slots = []; pending = []; batch = []; cut = false; spare = 0; chunked = chunked } }
    {
        World {
            alloc,
            slots: Vec::new(alloc),
            due: Due::new(alloc),
            cut: false,
            spare: 0,
            chunked,
        }
    }

    /// The plain values of a bufferevent, of a freed one too, or None where none of this identifier was made. Takes no memory;
    /// constant cost.
    ///
    /// Own.
    pub fn state(&self, id: BevId) -> Option<BevState>
        ensures { result ≡ then_some (nat_lt id.0 (length self.now.slots)) (state_of (bev_at self.now id.0)) }
    {
        match self.slots.get(id.0 as usize) {
            Some(slot) => Some(slot.bev.state()),
            None => None,
        }
    }

    /// Whether a bufferevent of this identifier was made and not freed. Takes no memory; constant cost.
    ///
    /// Own.
    pub fn is_live(&self, id: BevId) -> bool
        ensures { result ≡ is_live self.now id.0 }
    {
        match self.slots.get(id.0 as usize) {
            Some(slot) => slot.bev.is_live(),
            None => false,
        }
    }

    /// How many bytes a bufferevent may read, or write, as `room_read` and `room_write` of bev_socket say, and 0 where none of this
    /// identifier was made. Takes no memory; constant cost.
    ///
    /// Libevent: event2/bufferevent.h, `bufferevent_get_max_to_read`; "Bufferevents: advanced topics".
    pub fn room(&self, id: BevId, dir: Dir, allowance: Option<u64>, share: Option<u64>) -> u64
        ensures { result ≡ room_at self.now id.0 dir allowance share }
    {
        let Some(slot) = self.slots.get(id.0 as usize) else {
            return 0;
        };
        match dir {
            Dir::Read => room_read(&slot.bev, allowance, share),
            Dir::Write => room_write(&slot.bev, allowance, share),
        }
    }

    /// Copies the first bytes of the input of a bufferevent, as many as are there and fit, and answers how many. Of a freed one,
    /// and where none of this identifier was made, there are none. Takes no memory; linear in what it copies.
    ///
    /// Own.
    pub fn peek(&self, id: BevId, into: &mut [u8]) -> usize
        ensures count { result ≡ min (length into.old) (length (bev_at self.now id.0).input.bytes) }
        ensures copied { into.new ≡ take result (bev_at self.now id.0).input.bytes ++ drop result into.old }
    {
        match self.slots.get(id.0 as usize) {
            Some(slot) => slot.bev.peek(into),
            None => 0,
        }
    }

    /// Copies the first bytes of the output of a bufferevent, as `peek` those of the input.
    ///
    /// Own.
    pub fn peek_output(&self, id: BevId, into: &mut [u8]) -> usize
        ensures count { result ≡ min (length into.old) (length (bev_at self.now id.0).output.bytes) }
        ensures copied { into.new ≡ take result (bev_at self.now id.0).output.bytes ++ drop result into.old }
    {
        match self.slots.get(id.0 as usize) {
            Some(slot) => slot.bev.peek_output(into),
            None => 0,
        }
    }

    // The place of a live bufferevent.
    fn find(&self, id: BevId) -> Result<usize, WorldFault>
        ensures answer { fault_of result ≡ live_refusal self.now id.0 }
        ensures found { IfOk result (λ n. (n ≡ id.0) × (n < length self.now.slots)) }
    {
        match self.slots.get(id.0 as usize) {
            Some(slot) if slot.bev.is_live() => Ok(id.0 as usize),
            _ => Err(WorldFault::NotLive),
        }
    }

    // A reason becomes due.
    fn raise(&mut self, at: usize, why: Why)
        requires { at < length self.old.slots }
        ensures { self.new ≡ raised self.old at why }
    {
        self.due.schedule(at as u64, why);
    }

    fn raise_if(&mut self, due: bool, at: usize, why: Why)
        requires { at < length self.old.slots }
        ensures { self.new ≡ raised_if due self.old at why }
    {
        if due {
            self.raise(at, why);
        }
    }
}
