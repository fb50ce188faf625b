// Calls for one who keeps track himself of what is live, and says by himself what is due. They ask for a known number, look at no
// liveness, and make nothing due. Those that copy or move bytes have room that was made before, so that none is refused then.
ghost use Rattle.std.specs.Prelude.{◌≡◌, ◌≢◌, ◌≤◌, ◌<◌, ◌+◌, ◌-◌, ◌^◌, [], true, false, Some, length, take, slice_index_or, slice_set, OnOk};
ghost use Rattle.std.specs.Prelude.{OnErr, IfOk, IfSome, IsOk, vec_capacity, vec_len};
ghost use Rattle.stream_filters.specs.StepAnswers.{most_by_step};
ghost use Rattle.bev_core.specs.Steps.{held, with_enabled, with_marks, with_timeouts, touched, less, ended_at, failed_at};
ghost use Rattle.bev_filter.specs.Passing.{Crossed, stepping};
ghost use Rattle.bev_filter.specs.StepRoom.{HasStepRoom, HasRoomFor, IsCounted};
ghost use Rattle.bev_world.specs.ByNumber.{filter_of, with_spare_in, fed_with_spare, roomless, dropped, target_of, crossed_at, SlotsWent};
ghost use Rattle.bev_world.specs.ByNumber.{output_swapped, input_swapped, swapped_across};
ghost use Rattle.bev_world.specs.FilterSlots.{slots_crossing};
ghost use Rattle.bev_world.specs.Filters.{crossing, under_of};
ghost use Rattle.bev_world.specs.WorldValue.{no_slot, slot_at, bev_at, with_bev};

use super::World;
use crate::slot::{Kind, Slot};
use bev_core::{Bev, Dir, SpareRoom};
use bev_filter::{reserve_step, step_reserved};
use ev_types::NoMemory;
use stream_filters::AnyFilter;

impl World {
    /// How many bufferevents were made; their numbers are those below. Takes no memory; constant cost.
    ///
    /// Own.
    pub fn count(&self) -> usize
        ensures count { result ≡ length self.now.slots }
        ensures few { result < 2 ^ 32 }
    {
        self.slots.len()
    }

    /// The bufferevent of a number, a freed one too. Takes no memory; constant cost.
    ///
    /// Own.
    pub fn bev(&self, at: usize) -> &Bev
        requires { at < length self.now.slots }
        ensures { result.now ≡ bev_at self.now at }
    {
        &self.slots[at].bev
    }

    /// All bytes of the buffer of a direction, a freed one's too, of which there are none. Asked that each buffer of the world lies in one
    /// piece. Takes no memory; constant cost.
    ///
    /// Own.
    pub fn bytes_at(&self, at: usize, dir: Dir) -> &[u8]
        requires there { at < length self.now.slots }
        requires one_piece { self.now.chunked ≡ false }
        ensures { result.now ≡ (held (bev_at self.now at) dir).bytes }
    {
        let bev = &self.slots[at].bev;
        bev.front(dir, bev.len(dir))
    }

    /// The filter of a direction. One that is no filter bufferevent has filters that give every byte as it is. Takes no memory; constant
    /// cost.
    ///
    /// Own.
    pub fn filter(&self, at: usize, dir: Dir) -> &AnyFilter
        requires { at < length self.now.slots }
        ensures { result.now ≡ filter_of (slot_at self.now at) dir }
    {
        let slot = &self.slots[at];
        match dir {
            Dir::Read => &slot.read_filter,
            Dir::Write => &slot.write_filter,
        }
    }

    /// The number of the one under a filter, or None where it is no filter. Takes no memory; constant cost.
    ///
    /// Own.
    pub fn under(&self, at: usize) -> Option<usize>
        requires { at < length self.now.slots }
        ensures under { result ≡ under_of (slot_at self.now at).kind }
        ensures below { IfSome result (λ under. under < at) }
    {
        match self.slots[at].kind {
            Kind::Filter(under) => Some(under as usize),
            Kind::Socket | Kind::Half(_) => None,
        }
    }

    /// Disables a direction in which end of file was met, and sets the mark `ended`. Takes no memory; constant cost.
    ///
    /// Own.
    pub fn end_at(&mut self, at: usize, dir: Dir)
        requires { at < length self.old.slots }
        ensures { self.new ≡ with_bev self.old at (ended_at (bev_at self.old at) dir) }
    {
        self.slots[at].bev.end(dir);
    }

    /// Disables a direction in which an error was met, and sets the mark `failed`. Takes no memory; constant cost.
    ///
    /// Own.
    pub fn fail_at(&mut self, at: usize, dir: Dir)
        requires { at < length self.old.slots }
        ensures { self.new ≡ with_bev self.old at (failed_at (bev_at self.old at) dir) }
    {
        self.slots[at].bev.fail(dir);
    }

    /// Disables a direction in which a timeout expired. Takes no memory; constant cost.
    ///
    /// Own.
    pub fn expire_at(&mut self, at: usize, dir: Dir)
        requires { at < length self.old.slots }
        ensures { self.new ≡ with_bev self.old at (with_enabled (bev_at self.old at) dir false) }
    {
        self.slots[at].bev.expire(dir);
    }

    /// Makes a moment, in milliseconds, the last activity of a direction. Takes no memory; constant cost.
    ///
    /// Own.
    pub fn touch_at(&mut self, at: usize, dir: Dir, now: u64)
        requires { at < length self.old.slots }
        ensures { self.new ≡ with_bev self.old at (touched (bev_at self.old at) dir now) }
    {
        self.slots[at].bev.moved_at(dir, now);
    }

    /// Enables a direction. Takes no memory; constant cost.
    ///
    /// Libevent: event2/bufferevent.h, `bufferevent_enable`; "Bufferevents: concepts and basics".
    pub fn enable_at(&mut self, at: usize, dir: Dir)
        requires { at < length self.old.slots }
        ensures { self.new ≡ with_bev self.old at (with_enabled (bev_at self.old at) dir true) }
    {
        self.slots[at].bev.set_enabled(dir, true);
    }

    /// Disables a direction. Takes no memory; constant cost.
    ///
    /// Libevent: event2/bufferevent.h, `bufferevent_disable`; "Bufferevents: concepts and basics".
    pub fn disable_at(&mut self, at: usize, dir: Dir)
        requires { at < length self.old.slots }
        ensures { self.new ≡ with_bev self.old at (with_enabled (bev_at self.old at) dir false) }
    {
        self.slots[at].bev.set_enabled(dir, false);
    }

    /// Sets both marks of a direction, in bytes. A high mark of 0 is none. Takes no memory; constant cost.
    ///
    /// Libevent: event2/bufferevent.h, `bufferevent_setwatermark`; "Bufferevents: concepts and basics".
    pub fn set_watermark_at(&mut self, at: usize, dir: Dir, low: u64, high: u64)
        requires { at < length self.old.slots }
        ensures { self.new ≡ with_bev self.old at (with_marks (bev_at self.old at) dir low high) }
    {
        self.slots[at].bev.set_marks(dir, low, high);
    }

    /// Sets both timeouts, in milliseconds, and makes a moment the last activity of both directions. 0 is no timeout. Takes no memory;
    /// constant cost.
    ///
    /// Libevent: event2/bufferevent.h, `bufferevent_set_timeouts`; "Bufferevents: concepts and basics".
    pub fn set_timeouts_at(&mut self, at: usize, read_ms: u64, write_ms: u64, now: u64)
        requires { at < length self.old.slots }
        ensures { self.new ≡ with_bev self.old at (with_timeouts (bev_at self.old at) read_ms write_ms now) }
    {
        self.slots[at].bev.start_timeouts(read_ms, write_ms, now);
    }

    /// One reference more. It is asked that there are fewer than 2^32 - 1, which `references` of the bufferevent tells. Takes no memory;
    /// constant cost.
    ///
    /// Libevent: event2/bufferevent.h, `bufferevent_incref`; "Bufferevents: advanced topics".
    pub fn incref_at(&mut self, at: usize)
        requires there { at < length self.old.slots }
        requires few { (bev_at self.old at).refs < 2 ^ 32 - 1 }
        ensures { self.new ≡ with_bev self.old at (record (bev_at self.old at) { refs = (bev_at self.old at).refs + 1 }) }
    {
        self.slots[at].bev.add_reference();
    }

    /// One reference less, also of a freed one. It is asked that there is one. Takes no memory; constant cost.
    ///
    /// Libevent: event2/bufferevent.h, `bufferevent_decref`; "Bufferevents: advanced topics".
    /// Differs: the last reference frees nothing.
    pub fn decref_at(&mut self, at: usize)
        requires there { at < length self.old.slots }
        requires some { 0 < (bev_at self.old at).refs }
        ensures { self.new ≡ with_bev self.old at (record (bev_at self.old at) { refs = (bev_at self.old at).refs - 1 }) }
    {
        self.slots[at].bev.drop_reference();
    }

    /// Puts the first n bytes of a block, which were read, at the end of the input, in room that it makes or takes or by an exchange of
    /// blocks, as `feed_with_spare` of bev_core, and makes the moment the last activity of reading. No `feed` is sure of room there any
    /// more. The block stays as long. Asked that each buffer of the world lies in one piece. Takes memory where the input has less room,
    /// and is never refused; linear in n, and in the length of the input where room is made.
    ///
    /// Own.
    pub fn feed_at(
        &mut self,
        at: usize,
        block: &mut Vec<u8>,
        n: usize,
        now: u64,
        spare: &mut SpareRoom,
    )
        requires there { at < length self.old.slots }
        requires one_piece { self.old.chunked ≡ false }
        requires within { n ≤ vec_len block.old }
        requires room { length (bev_at self.old at).input.bytes + n ≤ spare.old }
        ensures fed { self.new ≡ fed_with_spare self.old at (take n block.old.items) now (bev_at self.new at).input.spare }
        ensures block { vec_len block.new ≡ vec_len block.old }
    {
        let slot = &mut self.slots[at];
        slot.bev.feed_with_spare(block, n, spare);
        slot.bev.moved_at(Dir::Read, now);
        slot.room = 0;
    }

    /// Takes off the first n bytes of the output, or all where there are fewer. Takes no memory; linear in n, over many
    /// calls.
    ///
    /// Own.
    pub fn drain_at(&mut self, at: usize, n: usize)
        requires { at < length self.old.slots }
        ensures bytes { self.new ≡ with_bev self.old at
            (record (bev_at self.old at) { output = less (bev_at self.old at).output n (bev_at self.new at).output.spare }) }
        ensures spare { (bev_at self.old at).output.spare ≤ (bev_at self.new at).output.spare }
    {
        self.slots[at].bev.drain(Dir::Write, n);
    }

    /// Frees the room of each of its buffers without a byte. Takes no memory; constant cost.
    ///
    /// Own.
    pub fn give_up_at(&mut self, at: usize)
        requires { at < length self.old.slots }
        ensures { self.new ≡ roomless self.old at }
    {
        let slot = &mut self.slots[at];
        slot.bev.give_up();
        slot.room = 0;
    }

    /// Frees it alone, as `free` does, also where it was freed before: not the one under a filter, and what is due for it stays due until
    /// a batch passes over it. Takes no memory; constant cost.
    ///
    /// Own.
    pub fn drop_at(&mut self, at: usize)
        requires { at < length self.old.slots }
        ensures { self.new ≡ dropped self.old at }
    {
        let slot = &mut self.slots[at];
        slot.bev.discard();
        slot.room = 0;
    }

    /// Moves the whole input of one to the empty output of another, by exchange. Takes no memory; constant cost.
    ///
    /// Own.
    pub fn move_at(&mut self, from: usize, to: usize)
        requires there { from < length self.old.slots }
        requires to_there { to < length self.old.slots }
        requires apart { from ≢ to }
        requires empty { (bev_at self.old to).output.bytes ≡ [] }
        ensures { self.new ≡ swapped_across self.old from to }
    {
        swap_slots(&mut self.slots, from, to);
    }

    /// Makes room for a step of a filter bufferevent that is offered `count` bytes, as `reserve_step` of bev_filter does: for reading in
    /// its own input, for writing in the output of the one under it. Answers how many bytes the step makes at most.
    ///
    /// Own.
    pub fn reserve_step_at(
        &mut self,
        at: usize,
        under: usize,
        dir: Dir,
        count: usize,
        beside: &mut Vec<u8>,
        limit: usize,
        made: u64,
    ) -> Result<usize, NoMemory>
        requires there { at < length self.old.slots }
        requires below { under_of (slot_at self.old at).kind ≡ Some under }
        ensures stays { self.new ≡ with_bev self.old (target_of dir at under)
            (with_spare_in (bev_at self.old (target_of dir at under)) dir (held (crossing self.new dir at under).to dir).spare) }
        ensures crossing { crossing self.new dir at under
            ≡ record (crossing self.old dir at under) {
              to = with_spare_in (crossing self.old dir at under).to dir
                  (held (crossing self.new dir at under).to dir).spare;
            } }
        ensures spare { (held (crossing self.old dir at under).to dir).spare ≤ (held (crossing self.new dir at under).to dir).spare }
        ensures beside { vec_capacity beside.old ≤ vec_capacity beside.new }
        ensures room { OnOk result (HasStepRoom (crossing self.new dir at under).filter.kind count
            (length (held (crossing self.new dir at under).to dir).bytes) limit (held (crossing self.new dir at under).to dir).spare
            (vec_capacity beside.new) made) }
        ensures sure { HasStepRoom (crossing self.old dir at under).filter.kind count
            (length (held (crossing self.old dir at under).to dir).bytes) limit (held (crossing self.old dir at under).to dir).spare
            (vec_capacity beside.old) made → IsOk result }
        ensures most { IfOk result (λ most. most
            ≡ most_by_step (crossing self.new dir at under).filter.kind count
            (length (held (crossing self.new dir at under).to dir).bytes) limit) }
    {
        self.reserve_target(at, under, dir, count, beside, limit, made)
    }

    // The same, said of the one whose buffer gets the room.
    fn reserve_target(
        &mut self,
        at: usize,
        under: usize,
        dir: Dir,
        count: usize,
        beside: &mut Vec<u8>,
        limit: usize,
        made: u64,
    ) -> Result<usize, NoMemory>
        requires there { at < length self.old.slots }
        requires below { under_of (slot_at self.old at).kind ≡ Some under }
        ensures below { under < at }
        ensures stays { self.new ≡ with_bev self.old (target_of dir at under)
            (with_spare_in (bev_at self.old (target_of dir at under)) dir (held (bev_at self.new (target_of dir at under)) dir).spare) }
        ensures spare { (held (bev_at self.old (target_of dir at under)) dir).spare ≤
            (held (bev_at self.new (target_of dir at under)) dir).spare }
        ensures beside { vec_capacity beside.old ≤ vec_capacity beside.new }
        ensures room { OnOk result (HasStepRoom (filter_of (slot_at self.old at) dir).kind count
            (length (held (bev_at self.new (target_of dir at under)) dir).bytes) limit
            (held (bev_at self.new (target_of dir at under)) dir).spare (vec_capacity beside.new) made) }
        ensures sure { HasStepRoom (filter_of (slot_at self.old at) dir).kind count
            (length (held (bev_at self.old (target_of dir at under)) dir).bytes) limit
            (held (bev_at self.old (target_of dir at under)) dir).spare (vec_capacity beside.old) made → IsOk result }
        ensures most { IfOk result (λ most. most
            ≡ most_by_step (filter_of (slot_at self.old at) dir).kind count
            (length (held (bev_at self.new (target_of dir at under)) dir).bytes) limit) }
    {
        let kind = self.filter(at, dir).kind();
        let to = match dir {
            Dir::Read => at,
            Dir::Write => under,
        };
        reserve_step(
            kind,
            count,
            &mut self.slots[to].bev,
            dir,
            beside,
            limit,
            made,
        )
    }

    /// The step of a filter bufferevent, as `step_reserved` of bev_filter makes it, in room that was made before: what is read goes from
    /// the input of the one under it to its own input, what is written from its own output to the output of the one under it. No input to
    /// which bytes came or from which they went is sure to have room any more. Answers how many bytes were made by then, of which `made`
    /// were made before. Asked that each buffer of the world lies in one piece. Takes no memory, and is never refused.
    ///
    /// Own.
    pub fn step_at(
        &mut self,
        at: usize,
        under: usize,
        dir: Dir,
        limit: usize,
        at_end: bool,
        beside: &mut Vec<u8>,
        made: u64,
    ) -> u64
        requires there { at < length self.old.slots }
        requires below { under_of (slot_at self.old at).kind ≡ Some under }
        requires one_piece { self.old.chunked ≡ false }
        requires counted { IsCounted dir (crossing self.old dir at under) }
        requires room { HasRoomFor dir (crossing self.old dir at under) limit (vec_capacity beside.old) made }
        ensures crossed { Crossed dir (stepping dir (crossing self.old dir at under) limit at_end) (crossing self.old dir at under)
            (crossing self.new dir at under) }
        ensures world { self.new ≡ crossed_at self.old dir at under (crossing self.new dir at under) }
        ensures made { result ≡ made + length (stepping dir (crossing self.old dir at under) limit at_end).made }
        ensures beside { vec_capacity beside.old ≤ vec_capacity beside.new }
    {
        step_slots(&mut self.slots, at, under, dir, limit, at_end, beside, made)
    }
}

// The input of one slot of a list and the output of another are exchanged.
fn swap_slots(slots: &mut [Slot], from: usize, to: usize)
    requires there { from < length slots.old }
    requires to_there { to < length slots.old }
    requires apart { from ≢ to }
    requires alike { (slice_index_or slots.old from no_slot).bev.chunked ≡ (slice_index_or slots.old to no_slot).bev.chunked }
    ensures { slots.new ≡ slice_set (slice_set slots.old to
        (output_swapped (slice_index_or slots.old from no_slot) (slice_index_or slots.old to no_slot))) from
        (input_swapped (slice_index_or slots.old from no_slot) (slice_index_or slots.old to no_slot)) }
{
    if from < to {
        let (front, back) = slots.split_at_mut(to);
        swap_between(&mut front[from], &mut back[0]);
    } else {
        let (front, back) = slots.split_at_mut(from);
        swap_between(&mut back[0], &mut front[to]);
    }
}

// The input of the one and the output of the other are exchanged.
fn swap_between(from: &mut Slot, to: &mut Slot)
    requires { from.old.bev.chunked ≡ to.old.bev.chunked }
    ensures input { from.new ≡ input_swapped from.old to.old }
    ensures output { to.new ≡ output_swapped from.old to.old }
{
    from.bev.swap_across(Dir::Read, &mut to.bev);
    from.room = 0;
}

// A step between two slots of a list.
fn step_slots(
    slots: &mut [Slot],
    at: usize,
    under: usize,
    dir: Dir,
    limit: usize,
    at_end: bool,
    beside: &mut Vec<u8>,
    made: u64,
) -> u64
    requires there { at < length slots.old }
    requires below { under < at }
    requires one_piece { (slice_index_or slots.old at no_slot).bev.chunked ≡ false }
    requires lower_one_piece { (slice_index_or slots.old under no_slot).bev.chunked ≡ false }
    requires counted { IsCounted dir (slots_crossing dir (slice_index_or slots.old under no_slot) (slice_index_or slots.old at no_slot)) }
    requires room { HasRoomFor dir (slots_crossing dir (slice_index_or slots.old under no_slot) (slice_index_or slots.old at no_slot))
        limit (vec_capacity beside.old) made }
    ensures went { SlotsWent dir limit at_end (slice_index_or slots.old under no_slot) (slice_index_or slots.old at no_slot)
        (slice_index_or slots.new under no_slot) (slice_index_or slots.new at no_slot) }
    ensures slots { slots.new ≡ slice_set (slice_set slots.old under (slice_index_or slots.new under no_slot)) at
        (slice_index_or slots.new at no_slot) }
    ensures made { result ≡ made + length
        (stepping dir (slots_crossing dir (slice_index_or slots.old under no_slot) (slice_index_or slots.old at no_slot)) limit
        at_end).made }
    ensures beside { vec_capacity beside.old ≤ vec_capacity beside.new }
{
    let (front, back) = slots.split_at_mut(at);
    step_between(
        &mut front[under],
        &mut back[0],
        dir,
        limit,
        at_end,
        beside,
        made,
    )
}

// A step between the slot under a filter and its own.
fn step_between(
    lower: &mut Slot,
    upper: &mut Slot,
    dir: Dir,
    limit: usize,
    at_end: bool,
    beside: &mut Vec<u8>,
    made: u64,
) -> u64
    requires one_piece { upper.old.bev.chunked ≡ false }
    requires lower_one_piece { lower.old.bev.chunked ≡ false }
    requires counted { IsCounted dir (slots_crossing dir lower.old upper.old) }
    requires room { HasRoomFor dir (slots_crossing dir lower.old upper.old) limit (vec_capacity beside.old) made }
    ensures went { SlotsWent dir limit at_end lower.old upper.old lower.new upper.new }
    ensures made { result ≡ made + length (stepping dir (slots_crossing dir lower.old upper.old) limit at_end).made }
    ensures beside { vec_capacity beside.old ≤ vec_capacity beside.new }
{
    match dir {
        Dir::Read => {
            lower.room = 0;
            upper.room = 0;
            step_reserved(
                &mut lower.bev,
                &mut upper.bev,
                dir,
                &mut upper.read_filter,
                limit,
                at_end,
                beside,
                made,
            )
        }
        Dir::Write => step_reserved(
            &mut upper.bev,
            &mut lower.bev,
            dir,
            &mut upper.write_filter,
            limit,
            at_end,
            beside,
            made,
        ),
    }
}
