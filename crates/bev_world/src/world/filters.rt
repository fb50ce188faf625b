// Bytes that go through the filters of a filter bufferevent.
ghost use Rattle.std.specs.Prelude.{◌≡◌, ◌<◌, ◌&&◌, nat_lt, true, Some, length, slice_index_or, slice_set, IfOk};
ghost use Rattle.byte_queue.specs.MemoryAnswers.{fault_of};
ghost use Rattle.token_bucket.specs.declared.limit.Dir.TheVariants as dir_of;
ghost use Rattle.bev_core.specs.BevValue.{reaches_low};
ghost use Rattle.bev_world.specs.Filters.{IsOpen, PassedAt, AnswersPass, pass_refusal, under_of, crossing};
ghost use Rattle.bev_world.specs.FilterSlots.{slots_crossing, StepMadeOr, spent_refusal, below_refusal};
ghost use Rattle.bev_world.specs.LentFilters.{AsksForEnd, LentPassedAt, PassedOrKept, lent_refusal};
ghost use Rattle.bev_world.specs.Went.{Went};
ghost use Rattle.bev_world.specs.WorldValue.{no_slot, slot_at, is_live};

use super::World;
use super::events::reason_of;
use crate::fault::WorldFault;
use crate::passage::{LentFilter, OwnFilter, Passage};
use crate::slot::{Kind, Slot};
use bev_core::Dir;
use bev_filter::PassFault;
use ev_types::{BevId, Mode};
use stream_filters::{Step, StreamFilter};

impl World {
    /// Runs the read or the write filter of a filter bufferevent once: what is read goes from the input of the one under it to its
    /// own input, what is written from its own output to the output of the one under it, until all is used or the target holds at
    /// least `limit` bytes, as `process_input` and `process_output` of bev_filter say. No other call by identifier runs them. The reason of
    /// reading becomes due where bytes came to the input and it is at least as long as its read low mark, the reason of writing
    /// where bytes left the output and it is at most as long as its write low mark.
    ///
    /// It is asked, of a finished filter, for no bytes and for the mode Finished. NotLive comes first, then NoFilter, then NotLive
    /// where the one under it was freed, then Spent where the filter goes on and the bytes used and those of the source are more than
    /// a u64 counts, then want of memory, then Filter where the next byte is bad, or the end is, and there is room: the bytes before
    /// it have passed. Takes memory; linear in what passes.
    ///
    /// Libevent: event2/bufferevent.h, `bufferevent_filter_new`; "Bufferevents: advanced topics", filters.
    /// Differs: the user says when bytes pass.
    pub fn pass(
        &mut self,
        id: BevId,
        dir: Dir,
        limit: usize,
        mode: Mode,
    ) -> Result<Step, WorldFault>
        requires open { is_live self.old id.0 ≡ true → IsOpen (under_of (slot_at self.old id.0).kind) self.old dir id.0 mode }
        ensures answer { AnswersPass result (pass_refusal self.old dir id.0) }
        ensures passed { PassedAt (under_of (slot_at self.old id.0).kind) dir limit mode id.0 result self.old self.new }
        ensures spare { self.new.spare ≡ self.old.spare }
        ensures went { Went self.old self.new }
    {
        let at = self.find(id)?;
        let under = self.find_under(at)?;
        self.pass_at(at, under, dir, &mut OwnFilter, limit, mode)
    }

    /// Runs a filter of the caller's once, in place of the read or the write filter of a filter bufferevent, as `pass` runs that: the
    /// same bytes go the same way up to the same limit, the same reasons become due, and the bufferevent's own filters stay as they are.
    ///
    /// The filter is lent for the call and stands outside of the world, as the boxes of a `Roster` do, so that its type is the caller's
    /// and its definition is known in what is proved of the call. A filter that keeps something of the stream is lent to each step of
    /// one direction of one bufferevent, over which a filter of kind None both ways can be made.
    ///
    /// It is asked, of a finished filter, for no bytes and for the mode Finished. Refused as `pass` is, where NotLive, NoFilter, Spent and
    /// want of memory leave the filter as it was too; Filter comes where the filter finds the next byte bad, or the end, and there is room:
    /// the bytes before it have passed. Takes memory for what the filter makes, twice; the cost is that of the filter's step, and
    /// linear in what passes.
    ///
    /// Libevent: event2/bufferevent.h, `bufferevent_filter_new`; "Bufferevents: advanced topics", filters.
    /// Differs: the filter stays the caller's, who says when bytes pass.
    pub fn pass_by<F: StreamFilter>(
        &mut self,
        id: BevId,
        dir: Dir,
        filter: &mut F,
        limit: usize,
        mode: Mode,
    ) -> Result<Step, WorldFault>
        requires open { (F.reached filter.old).finished ≡ true → is_live self.old id.0 ≡ true →
            AsksForEnd (under_of (slot_at self.old id.0).kind) self.old dir id.0 mode }
        ensures answer { AnswersPass result (lent_refusal (F.reached filter.old) self.old dir id.0) }
        ensures passed { LentPassedAt F.filter F.reached F.known (under_of (slot_at self.old id.0).kind) dir limit mode id.0 result
            filter.old filter.new self.old self.new }
        ensures spare { self.new.spare ≡ self.old.spare }
        ensures went { Went self.old self.new }
    {
        let at = self.find(id)?;
        let under = self.find_under(at)?;
        let mut lent = LentFilter(filter.copied());
        let answer = self.pass_at(at, under, dir, &mut lent, limit, mode);
        let LentFilter(next) = lent;
        *filter = next;
        answer
    }

    // The place of the bufferevent under a filter, where that is live.
    fn find_under(&self, at: usize) -> Result<usize, WorldFault>
        requires { at < length self.now.slots }
        ensures answer { fault_of result ≡ below_refusal (under_of (slot_at self.now at).kind) self.now }
        ensures found { IfOk result (λ under. (under_of (slot_at self.now at).kind ≡ Some under) × (under < at)
            × (is_live self.now under ≡ true)) }
    {
        match self.slots[at].kind {
            Kind::Filter(under) => self.find(BevId(under)),
            Kind::Socket | Kind::Half(_) => Err(WorldFault::NoFilter),
        }
    }

    // A step of a passage between a filter and the bufferevent under it.
    fn pass_at<P: Passage>(
        &mut self,
        at: usize,
        under: usize,
        dir: Dir,
        passage: &mut P,
        limit: usize,
        mode: Mode,
    ) -> Result<Step, WorldFault>
        requires there { at < length self.old.slots }
        requires below { under < at }
        requires live { is_live self.old at ≡ true }
        requires under_live { is_live self.old under ≡ true }
        requires open { P.may_step passage.old dir mode (crossing self.old dir at under) }
        ensures answer { AnswersPass result (spent_refusal (P.spent passage.old dir (crossing self.old dir at under))) }
        ensures passed { PassedOrKept (P.passes dir limit mode passage.old passage.new (crossing self.old dir at under))
            (passage.new ≡ passage.old) dir at under result self.old self.new }
        ensures spare { self.new.spare ≡ self.old.spare }
        ensures went { Went self.old self.new }
    {
        let (answer, due) = pass_slots(&mut self.slots, at, under, dir, passage, limit, mode);
        self.raise_if(due, at, reason_of(dir));
        answer
    }
}

// A step between two slots of a list. Answers too whether the reason of the direction is due.
fn pass_slots<P: Passage>(
    slots: &mut [Slot],
    at: usize,
    under: usize,
    dir: Dir,
    passage: &mut P,
    limit: usize,
    mode: Mode,
) -> (Result<Step, WorldFault>, bool)
    requires there { at < length slots.old }
    requires below { under < at }
    requires live { (slice_index_or slots.old at no_slot).bev.live ≡ true }
    requires under_live { (slice_index_or slots.old under no_slot).bev.live ≡ true }
    requires open { let p = slots_crossing dir (slice_index_or slots.old under no_slot) (slice_index_or slots.old at no_slot) in
        P.may_step passage.old dir mode p }
    ensures answer { let p = slots_crossing dir (slice_index_or slots.old under no_slot) (slice_index_or slots.old at no_slot) in
        AnswersPass result.0 (spent_refusal (P.spent passage.old dir p)) }
    ensures passed { let p = slots_crossing dir (slice_index_or slots.old under no_slot) (slice_index_or slots.old at no_slot) in
        StepMadeOr (P.passes dir limit mode passage.old passage.new p) (passage.new ≡ passage.old) dir result.0
        (slice_index_or slots.old under no_slot) (slice_index_or slots.old at no_slot)
        (slice_index_or slots.new under no_slot) (slice_index_or slots.new at no_slot) result.1 }
    ensures slots { slots.new ≡ slice_set (slice_set slots.old under (slice_index_or slots.new under no_slot)) at
        (slice_index_or slots.new at no_slot) }
{
    let (front, back) = slots.split_at_mut(at);
    pass_between(&mut front[under], &mut back[0], dir, passage, limit, mode)
}

// A step between the slot under a filter and its own.
fn pass_between<P: Passage>(
    lower: &mut Slot,
    over: &mut Slot,
    dir: Dir,
    passage: &mut P,
    limit: usize,
    mode: Mode,
) -> (Result<Step, WorldFault>, bool)
    requires live { over.old.bev.live ≡ true }
    requires under_live { lower.old.bev.live ≡ true }
    requires open { P.may_step passage.old dir mode (slots_crossing dir lower.old over.old) }
    ensures answer { AnswersPass result.0 (spent_refusal (P.spent passage.old dir (slots_crossing dir lower.old over.old))) }
    ensures passed { StepMadeOr (P.passes dir limit mode passage.old passage.new (slots_crossing dir lower.old over.old))
        (passage.new ≡ passage.old) dir result.0 lower.old over.old lower.new over.new result.1 }
{
    match dir {
        Dir::Read => pass_read(lower, over, passage, limit, mode),
        Dir::Write => pass_written(lower, over, passage, limit, mode),
    }
}

// What is read goes up.
fn pass_read<P: Passage>(
    lower: &mut Slot,
    over: &mut Slot,
    passage: &mut P,
    limit: usize,
    mode: Mode,
) -> (Result<Step, WorldFault>, bool)
    requires live { over.old.bev.live ≡ true }
    requires under_live { lower.old.bev.live ≡ true }
    requires open { P.may_step passage.old dir_of.Read mode (slots_crossing dir_of.Read lower.old over.old) }
    ensures answer { AnswersPass result.0
        (spent_refusal (P.spent passage.old dir_of.Read (slots_crossing dir_of.Read lower.old over.old))) }
    ensures passed { StepMadeOr (P.passes dir_of.Read limit mode passage.old passage.new (slots_crossing dir_of.Read lower.old over.old))
        (passage.new ≡ passage.old) dir_of.Read result.0 lower.old over.old lower.new over.new result.1 }
{
    let had = over.bev.state().input;
    let own = &mut over.read_filter;
    match passage.process(&mut lower.bev, &mut over.bev, own, Dir::Read, limit, mode) {
        Ok(step) => (Ok(step), came(lower, over, had)),
        Err(PassFault::Filter(place)) => (Err(WorldFault::Filter(place)), came(lower, over, had)),
        Err(PassFault::Memory) => (Err(WorldFault::Memory), false),
        Err(PassFault::Spent) => (Err(WorldFault::Spent), false),
    }
}

// What is written goes down.
fn pass_written<P: Passage>(
    lower: &mut Slot,
    over: &mut Slot,
    passage: &mut P,
    limit: usize,
    mode: Mode,
) -> (Result<Step, WorldFault>, bool)
    requires live { over.old.bev.live ≡ true }
    requires under_live { lower.old.bev.live ≡ true }
    requires open { P.may_step passage.old dir_of.Write mode (slots_crossing dir_of.Write lower.old over.old) }
    ensures answer { AnswersPass result.0
        (spent_refusal (P.spent passage.old dir_of.Write (slots_crossing dir_of.Write lower.old over.old))) }
    ensures passed { StepMadeOr (P.passes dir_of.Write limit mode passage.old passage.new (slots_crossing dir_of.Write lower.old over.old))
        (passage.new ≡ passage.old) dir_of.Write result.0 lower.old over.old lower.new over.new result.1 }
{
    let had = over.bev.state().output;
    let own = &mut over.write_filter;
    match passage.process(&mut lower.bev, &mut over.bev, own, Dir::Write, limit, mode) {
        Ok(step) => (Ok(step), gone(over, had)),
        Err(PassFault::Filter(place)) => (Err(WorldFault::Filter(place)), gone(over, had)),
        Err(PassFault::Memory) => (Err(WorldFault::Memory), false),
        Err(PassFault::Spent) => (Err(WorldFault::Spent), false),
    }
}

// Bytes have gone up: neither input is sure to have room any more. Answers whether the reason of reading is due.
fn came(lower: &mut Slot, over: &mut Slot, had: u64) -> bool
    ensures lower { lower.new ≡ record lower.old { room = 0 } }
    ensures over { over.new ≡ record over.old { room = 0 } }
    ensures due { result ≡ (nat_lt had (length over.old.bev.input.bytes) && reaches_low over.old.bev dir_of.Read) }
{
    lower.room = 0;
    over.room = 0;
    over.bev.state().input > had && over.bev.reaches_low(Dir::Read)
}

// Bytes have gone down. Answers whether the reason of writing is due.
fn gone(over: &Slot, had: u64) -> bool
    ensures { result ≡ (nat_lt (length over.now.bev.output.bytes) had && reaches_low over.now.bev dir_of.Write) }
{
    over.bev.state().output < had && over.bev.reaches_low(Dir::Write)
}
