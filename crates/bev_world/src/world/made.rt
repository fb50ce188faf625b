// How bufferevents are made, each under the next number.
ghost use Rattle.std.specs.Prelude.{◌≡◌, ◌≤◌, ◌<◌, ◌+◌, ◌^◌, ◌∷◌, [], length, None, OnOk, OnErr, IfOk, IsOk};
ghost use Rattle.bev_world.specs.WorldView.{IsNew};
ghost use Rattle.byte_queue.specs.MemoryAnswers.{AnswersOr, fault_of};
ghost use Rattle.ev_types.specs.declared.filter.FilterKind.TheVariants as filter_of;
ghost use Rattle.bev_world.specs.declared.slot.Kind.TheVariants as kind_of;
ghost use Rattle.bev_world.specs.declared.fault.WorldFault.TheVariants.{Memory};
ghost use Rattle.bev_world.specs.Refusals.{ids_refusal, filter_refusal};
ghost use Rattle.bev_world.specs.ByNumber.{renewed};
ghost use Rattle.bev_world.specs.Went.{Went};
ghost use Rattle.bev_world.specs.WorldValue.{made_slot, pair_slots, with_new, with_room, with_taken};

use super::World;
use crate::fault::WorldFault;
use crate::slot::{Kind, Slot};
use bev_core::Bev;
use ev_types::{BevId, FilterKind, NoMemory};
use stream_filters::AnyFilter;

impl World {
    /// Makes room for so many bufferevents more and for what is due at them, so that the calls that make them can't want memory.
    /// Refused for want of memory; then nothing has changed. The cost is in the number of bufferevents where it takes memory, and
    /// else constant.
    ///
    /// Own.
    pub fn reserve(&mut self, more: usize) -> Result<(), NoMemory>
        ensures sure { more ≤ self.old.spare → IsOk result }
        ensures ok { OnOk result (self.new ≡ with_room more self.old) }
        ensures err { OnErr result (self.new ≡ self.old) }
        ensures went { Went self.old self.new }
    {
        if more <= self.spare {
            return Ok(());
        }
        let all = self.slots.len().checked_add(more).ok_or(NoMemory)?;
        self.due.reserve(all)?;
        self.slots.reserve(more)?;
        self.spare = more;
        Ok(())
    }

    /// Makes a bufferevent of a socket, live and without bytes: writing is enabled and reading is not. IdsSpent comes where
    /// 2^32 - 1 identifiers are used. Takes memory where the world has no room, which `reserve` makes, and none else; constant
    /// cost, but where that room grows.
    ///
    /// Libevent: event2/bufferevent.h, `bufferevent_socket_new`; "Bufferevents: concepts and basics".
    pub fn new_socket(&mut self) -> Result<BevId, WorldFault>
        ensures answer { AnswersOr Memory result (ids_refusal self.old 1) }
        ensures sure { 1 ≤ self.old.spare → fault_of result ≡ ids_refusal self.old 1 }
        ensures id { IfOk result (λ id. id.0 ≡ length self.old.slots) }
        ensures ok { OnOk result (self.new
            ≡ with_new (made_slot self.old.chunked kind_of.Socket filter_of.None filter_of.None ∷ []) self.old) }
        ensures err { OnErr result (self.new ≡ self.old) }
        ensures went { Went self.old self.new }
    {
        let number = self.next_number(1)?;
        let (no, none) = (FilterKind::None, FilterKind::None);
        let slot = Slot::new(self.alloc, self.chunked, Kind::Socket, no, none);
        self.add(slot)?;
        Ok(BevId(number))
    }

    /// Makes both halves of a pair, each as `new_socket` does. IdsSpent comes where fewer than two identifiers are left. Takes
    /// memory, as `new_socket`.
    ///
    /// Libevent: event2/bufferevent.h, `bufferevent_pair_new`; "Bufferevents: advanced topics".
    pub fn new_pair(&mut self) -> Result<(BevId, BevId), WorldFault>
        ensures answer { AnswersOr Memory result (ids_refusal self.old 2) }
        ensures sure { 2 ≤ self.old.spare → fault_of result ≡ ids_refusal self.old 2 }
        ensures id { IfOk result (λ ids. (ids.0.0 ≡ length self.old.slots) × (ids.1.0 ≡ length self.old.slots + 1)) }
        ensures ok { OnOk result (self.new ≡ with_new (pair_slots self.old.chunked (length self.old.slots)) self.old) }
        ensures err { OnErr result (self.new ≡ self.old) }
        ensures went { Went self.old self.new }
    {
        let first = self.next_number(2)?;
        let second = first + 1;
        let (no, none) = (FilterKind::None, FilterKind::None);
        let one = Slot::new(self.alloc, self.chunked, Kind::Half(second), no, none);
        let other = Slot::new(self.alloc, self.chunked, Kind::Half(first), no, none);
        self.add_two(one, other)?;
        Ok((BevId(first), BevId(second)))
    }

    /// Makes a filter over a live bufferevent that has none yet, as `new_socket` does, with the filters of what is read and of what
    /// is written. Its free frees the one under it too. NotLive comes first, then IdsSpent as of `new_socket`, then Taken. Takes
    /// memory, as `new_socket`.
    ///
    /// Libevent: event2/bufferevent.h, `bufferevent_filter_new`; "Bufferevents: advanced topics", filters.
    /// Differs: `BEV_OPT_CLOSE_ON_FREE` is always set.
    pub fn new_filter(
        &mut self,
        under: BevId,
        input: FilterKind,
        output: FilterKind,
    ) -> Result<BevId, WorldFault>
        ensures answer { AnswersOr Memory result (filter_refusal self.old under.0) }
        ensures sure { 1 ≤ self.old.spare → fault_of result ≡ filter_refusal self.old under.0 }
        ensures id { IfOk result (λ id. id.0 ≡ length self.old.slots) }
        ensures ok { OnOk result (self.new
            ≡ with_taken (with_new (made_slot self.old.chunked (kind_of.Filter under.0) input output ∷ []) self.old) under.0) }
        ensures err { OnErr result (self.new ≡ self.old) }
        ensures went { Went self.old self.new }
    {
        let at = self.find(under)?;
        let number = self.next_number(1)?;
        if self.slots[at].taken {
            return Err(WorldFault::Taken);
        }
        let slot = Slot::new(
            self.alloc,
            self.chunked,
            Kind::Filter(under.0),
            input,
            output,
        );
        self.add(slot)?;
        self.slots[at].taken = true;
        Ok(BevId(number))
    }

    // Puts one slot behind the others, with room for what is due at it.
    fn add(&mut self, slot: Slot) -> Result<(), WorldFault>
        requires few { length self.old.slots + 1 < 2 ^ 32 }
        requires fits { IsNew self.old.chunked (length self.old.slots + 1) (length self.old.slots) slot }
        ensures answer { AnswersOr Memory result None }
        ensures sure { 1 ≤ self.old.spare → fault_of result ≡ None }
        ensures ok { OnOk result (self.new ≡ with_new (slot ∷ []) self.old) }
        ensures err { OnErr result (self.new ≡ self.old) }
        ensures went { Went self.old self.new }
    {
        self.reserve(1)?;
        self.slots.push(slot).unwrap();
        self.spare -= 1;
        Ok(())
    }

    // Puts two slots behind the others, as `add`.
    fn add_two(&mut self, slot: Slot, other: Slot) -> Result<(), WorldFault>
        requires few { length self.old.slots + 2 < 2 ^ 32 }
        requires fits { IsNew self.old.chunked (length self.old.slots + 2) (length self.old.slots) slot }
        requires other_fits { IsNew self.old.chunked (length self.old.slots + 2) (length self.old.slots + 1) other }
        ensures answer { AnswersOr Memory result None }
        ensures sure { 2 ≤ self.old.spare → fault_of result ≡ None }
        ensures ok { OnOk result (self.new ≡ with_new (slot ∷ other ∷ []) self.old) }
        ensures err { OnErr result (self.new ≡ self.old) }
        ensures went { Went self.old self.new }
    {
        self.reserve(2)?;
        self.slots.push(slot).unwrap();
        self.slots.push(other).unwrap();
        self.spare -= 2;
        Ok(())
    }

    // The next number, where so many are left.
    fn next_number(&self, more: u32) -> Result<u32, WorldFault>
        ensures answer { fault_of result ≡ ids_refusal self.now more }
        ensures number { IfOk result (λ n. n ≡ length self.now.slots) }
    {
        let number = self.slots.len() as u32;
        if u32::MAX - number < more {
            return Err(WorldFault::IdsSpent);
        }
        Ok(number)
    }

    /// Makes the bufferevent of a number new, with filters of these kinds: what it was is dropped, freed or not. What carries its bytes
    /// stays, and so does whether a filter is over it, and what is due for it. Takes no memory; constant cost.
    ///
    /// Own.
    pub fn renew_at(&mut self, at: usize, input: FilterKind, output: FilterKind)
        requires { at < length self.old.slots }
        ensures { self.new ≡ renewed self.old at input output }
    {
        let bev = Bev::made(self.alloc, self.chunked);
        let slot = &mut self.slots[at];
        slot.bev = bev;
        slot.room = 0;
        slot.read_filter = AnyFilter::new(input);
        slot.write_filter = AnyFilter::new(output);
    }
}
