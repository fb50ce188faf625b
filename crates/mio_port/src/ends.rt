// The ends of all links, by their numbers, the numbers of those that are ready, and that of the one whose end of writing is
// pending. An end stays once it is made, and its count of faults with it.
ghost use Rattle.std.specs.Prelude.{◌≡◌, ◌≢◌, ◌<◌, ◌≤◌, ◌==◌, ◌+◌, ◌*◌, ℕ, [], None, Some, length, map, slice_index_or, vec_len};
ghost use Rattle.std.specs.Prelude.{false, true, if◌then◌else◌, IsOk, OnOk, option_map};
ghost use Rattle.ev_port.specs.Ends.{ReadWithin, is_failed_read, WriteWithin, is_failed_write, is_failed_conn};
ghost use Rattle.ev_types.specs.Sides.{number};
ghost use Rattle.mio_port.specs.EndAnswers.{connection_at, ReadBy, WrittenBy, CheckedBy};
ghost use Rattle.mio_port.specs.EndLeft.{CheckLeft, EndAndPeerLeft, LeftAt, PlaceLeft, ReadLeft, WriteLeft};
ghost use Rattle.mio_port.specs.PortCalls.{OthersStay};
ghost use Rattle.mio_port.specs.OneEnd.{noticed_end, ended_end, closed_end};
ghost use Rattle.mio_port.specs.EndPlaces.{CountsStay, CountsAt, PlacesStay, PlaceWent, all_handed_on, holds, is_at_number};
ghost use Rattle.mio_port.specs.EndPlaces.{AlikeBesideDelay, has_filled, is_ending, is_made, more_follows, undelayed_beside};
ghost use Rattle.mio_port.specs.EndPlaces.{is_bulky, is_prompt, is_write_ready, unmarked};
ghost use Rattle.mio_port.specs.ReadTurns.{other_end};

mod marking;

use crate::end::End;
use crate::place::{
    check_at, close_at, close_write_at, hand_on_at, notice_at, read_at, undelay_at, write_at,
};
use crate::ready::Ready;
use crate::turn::other_end;
use ev_port::Want;
use ev_types::{ConnAnswer, ReadAnswer, Side, SideId, WriteAnswer};
use mio::event::Event;
use number_set::NumberSet;
use std::alloc::{AllocError, Global};

/// A write of fewer bytes is never kept back: bulk is read and written in blocks of so many.
const BLOCK: usize = 16_384;

/// The ends of all links: each link's In end at twice its number, and its Out end behind it. Beside them stand the numbers of those that
/// are ready, so that a poll looks at one end at most.
///
/// An end of writing is pending from its call until it is handed to the system, of one end at most, or until that end is closed, since a
/// close ends writing by itself.
///
/// Own.
#[derive(Drop)]
pub(crate) struct Ends {
    ends: Vec<Option<End>>,
    ready: Ready,
    pending: Option<usize>,
    ghost prompts: { (n : ℕ) → ready.prompt.has n ≡ is_prompt (slice_index_or ends.items n None) },
    ghost bulks: { (n : ℕ) → ready.bulky.has n ≡ is_bulky (slice_index_or ends.items n None) },
    ghost writes: { (n : ℕ) → ready.writable.has n ≡ is_write_ready (slice_index_or ends.items n None) },
    ghost prompt_room: { vec_len ends ≤ ready.prompt.len },
    ghost bulky_room: { vec_len ends ≤ ready.bulky.len },
    ghost write_room: { vec_len ends ≤ ready.writable.len },
    ghost pendings: { (n : ℕ) → is_ending (slice_index_or ends.items n None) ≡ is_at_number pending n },
}

pub(crate) fn in_end(link: u32) -> SideId
    ensures { result ≡ record { link = link; side = Side.In } }
{
    SideId {
        link,
        side: Side::In,
    }
}

pub(crate) fn out_end(link: u32) -> SideId
    ensures { result ≡ record { link = link; side = Side.Out } }
{
    SideId {
        link,
        side: Side::Out,
    }
}

// The last read of the end with this number filled the room that it was given, so that more is likely to come.
fn has_filled(ends: &[Option<End>], number: usize) -> bool
    ensures { result ≡ has_filled (slice_index_or ends.now number None) }
{
    match ends.get(number) {
        Some(Some(end)) => end.has_filled(),
        _ => false,
    }
}

// Where the last read of the end with this number didn't fill its room, nothing is kept back of what is written to its peer.
fn undelay_peer(ends: &mut Vec<Option<End>>, number: usize)
    ensures peer { slice_index_or ends.new.items (other_end number) None
        ≡ undelayed_beside (slice_index_or ends.old.items number None) (slice_index_or ends.old.items (other_end number) None) }
    ensures others { (n : ℕ) → n ≢ other_end number → slice_index_or ends.new.items n None ≡ slice_index_or ends.old.items n None }
    ensures len { vec_len ends.new ≡ vec_len ends.old }
    ensures alike { AlikeBesideDelay ends.old.items ends.new.items }
{
    let Some(Some(end)) = ends.get(number) else {
        return;
    };
    if end.has_filled() {
        return;
    }
    if let Some(place) = ends.get_mut(other_end(number)) {
        undelay_at(place);
    }
}

// Nothing is pending any more of the end with this number.
fn settle(pending: &mut Option<usize>, number: usize)
    ensures { (n : ℕ) → is_at_number pending.new n ≡ (if n == number then false else is_at_number pending.old n) }
{
    if *pending == Some(number) {
        *pending = None;
    }
}

impl Ends {
    pub(crate) fn new(alloc: Global) -> Ends
        ensures { result.ends.items ≡ [] }
    {
        Ends {
            ends: Vec::new(alloc),
            ready: Ready {
                prompt: NumberSet::new(alloc),
                bulky: NumberSet::new(alloc),
                writable: NumberSet::new(alloc),
            },
            pending: None,
        }
    }

    /// One of the two ends of this link was made already.
    pub(crate) fn holds(&self, link: u32) -> bool
        ensures { result ≡ holds self.now.ends.items link }
    {
        self.is_made(in_end(link)) || self.is_made(out_end(link))
    }

    fn is_made(&self, side: SideId) -> bool
        ensures { result ≡ is_made self.now.ends.items side }
    {
        matches!(self.ends.get(side.number()), Some(Some(_)))
    }

    /// Room for the two ends of this link. Ends before them that weren't made stay absent. Where memory is wanting
    /// nothing changes.
    pub(crate) fn make_room(&mut self, link: u32) -> Result<(), AllocError>
        ensures places { PlacesStay self.old.ends.items self.new.ends.items }
        ensures room { OnOk result (2 * link + 1 < length self.new.ends.items) }
        ensures already { 2 * link + 1 < length self.old.ends.items → IsOk result }
    {
        let needed = out_end(link).number() + 1;
        let missing = needed.saturating_sub(self.ends.len());
        self.ready.prompt.lengthen(needed)?;
        self.ready.bulky.lengthen(needed)?;
        self.ready.writable.lengthen(needed)?;
        self.ends.reserve(missing)?;
        for _place in 0..missing {
            self.ends.push_reserved(None);
        }
        Ok(())
    }

    /// Puts the two ends of a link into their places.
    pub(crate) fn put(&mut self, link: u32, inside: End, outside: End)
        requires room { 2 * link + 1 < length self.old.ends.items }
        requires new { holds self.old.ends.items link ≡ false }
        requires no_fault_in { inside.faults ≡ 0 }
        requires no_fault_out { outside.faults ≡ 0 }
        requires not_ending_in { inside.ending ≡ false }
        requires not_ending_out { outside.ending ≡ false }
        ensures counts { CountsStay self.old.ends.items self.new.ends.items }
        ensures made { holds self.new.ends.items link ≡ true }
        ensures others { OthersStay self.old.ends.items self.new.ends.items link }
        ensures near { slice_index_or self.new.ends.items (2 * link) None ≡ Some inside }
        ensures far { slice_index_or self.new.ends.items (2 * link + 1) None ≡ Some outside }
    {
        let near = in_end(link).number();
        let far = out_end(link).number();
        self.ends[near] = Some(inside);
        self.ready.keep_up(&self.ends, near);
        self.ends[far] = Some(outside);
        self.ready.keep_up(&self.ends, far);
    }

    /// What the kernel reported of the end with this number. Of an end that isn't there it tells nothing.
    pub(crate) fn notice(&mut self, number: usize, event: &Event)
        ensures counts { CountsStay self.old.ends.items self.new.ends.items }
        ensures went { PlaceWent self.old.ends.items self.new.ends.items number (λ end. noticed_end end event.now) }
    {
        if let Some(place) = self.ends.get_mut(number) {
            notice_at(place, event);
            self.ready.keep_up(&self.ends, number);
        }
    }

    // One read of the end.
    fn read_own(&mut self, side: SideId, into: &mut [u8]) -> ReadAnswer
        requires { 0 < length into.old }
        ensures within { ReadWithin result (length into.new) }
        ensures cause { CountsAt self.old.ends.items self.new.ends.items side (is_failed_read result) }
        ensures by { ReadBy (connection_at self.old.ends.items side) result }
        ensures left { PlaceLeft self.old.ends.items self.new.ends.items (number side) (ReadLeft into.new result) }
    {
        let number = side.number();
        let Some(place) = self.ends.get_mut(number) else {
            return ReadAnswer::NotYet;
        };
        let answer = read_at(place, into);
        self.ready.keep_up(&self.ends, number);
        answer
    }

    /// Where it doesn't fill the room that it was given, nothing is kept back any more of what is written to the end's peer.
    pub(crate) fn read(&mut self, side: SideId, into: &mut [u8]) -> ReadAnswer
        requires { 0 < length into.old }
        ensures within { ReadWithin result (length into.new) }
        ensures cause { CountsAt self.old.ends.items self.new.ends.items side (is_failed_read result) }
        ensures by { ReadBy (connection_at self.old.ends.items side) result }
        ensures left { EndAndPeerLeft self.old.ends.items self.new.ends.items (number side) (LeftAt (ReadLeft into.new result)) }
    {
        let answer = self.read_own(side, into);
        undelay_peer(&mut self.ends, side.number());
        answer
    }

    // One write to the end.
    fn write_own(&mut self, side: SideId, from: &[u8], more_follows: bool) -> WriteAnswer
        requires { 0 < length from.now }
        ensures within { WriteWithin result (length from.now) }
        ensures cause { CountsAt self.old.ends.items self.new.ends.items side (is_failed_write result) }
        ensures by { WrittenBy (connection_at self.old.ends.items side) result }
        ensures left { PlaceLeft self.old.ends.items self.new.ends.items (number side)
            (WriteLeft more_follows from.now result) }
    {
        let number = side.number();
        let Some(place) = self.ends.get_mut(number) else {
            return WriteAnswer::NotYet;
        };
        let answer = write_at(place, from, more_follows);
        settle(&mut self.pending, number);
        self.ready.keep_up(&self.ends, number);
        answer
    }

    /// The system may keep the end of a whole block back where the last read of the end's peer filled its room, since more is likely to
    /// follow.
    pub(crate) fn write(&mut self, side: SideId, from: &[u8]) -> WriteAnswer
        requires { 0 < length from.now }
        ensures within { WriteWithin result (length from.now) }
        ensures cause { CountsAt self.old.ends.items self.new.ends.items side (is_failed_write result) }
        ensures by { WrittenBy (connection_at self.old.ends.items side) result }
        ensures left { PlaceLeft self.old.ends.items self.new.ends.items (number side)
            (WriteLeft (more_follows (slice_index_or self.old.ends.items (other_end (number side)) None) from.now) from.now result) }
    {
        let more_follows = from.len() >= BLOCK && has_filled(&self.ends, other_end(side.number()));
        self.write_own(side, from, more_follows)
    }

    pub(crate) fn check(&mut self, side: SideId) -> ConnAnswer
        ensures cause { CountsAt self.old.ends.items self.new.ends.items side (is_failed_conn result) }
        ensures by { CheckedBy (connection_at self.old.ends.items side) result }
        ensures left { PlaceLeft self.old.ends.items self.new.ends.items (number side) (CheckLeft result) }
    {
        let number = side.number();
        let Some(place) = self.ends.get_mut(number) else {
            return ConnAnswer::Pending;
        };
        let answer = check_at(place);
        self.ready.keep_up(&self.ends, number);
        answer
    }

    /// The writing of this end is to be ended, and an end of writing that was pending is handed to the system.
    pub(crate) fn close_write(&mut self, side: SideId)
        ensures counts { CountsStay self.old.ends.items self.new.ends.items }
        ensures went { PlaceWent (all_handed_on self.old.ends.items) self.new.ends.items (number side) ended_end }
    {
        self.hand_on();
        let number = side.number();
        let Some(place) = self.ends.get_mut(number) else {
            return;
        };
        if close_write_at(place) {
            self.pending = Some(number);
        }
        self.ready.keep_up(&self.ends, number);
    }

    /// Hands to the system the end of writing that is pending, if one is.
    pub(crate) fn hand_on(&mut self)
        ensures counts { CountsStay self.old.ends.items self.new.ends.items }
        ensures ends { self.new.ends.items ≡ all_handed_on self.old.ends.items }
        ensures none { self.new.pending ≡ None }
    {
        let Some(number) = self.pending.take() else {
            return;
        };
        if let Some(place) = self.ends.get_mut(number) {
            hand_on_at(place);
        }
    }

    // The end alone is closed.
    fn close_own(&mut self, side: SideId)
        ensures counts { CountsStay self.old.ends.items self.new.ends.items }
        ensures went { PlaceWent self.old.ends.items self.new.ends.items (number side) closed_end }
    {
        let number = side.number();
        let Some(place) = self.ends.get_mut(number) else {
            return;
        };
        close_at(place);
        settle(&mut self.pending, number);
        self.ready.keep_up(&self.ends, number);
    }

    /// Nothing is kept back any more of what is written to the end's peer.
    pub(crate) fn close(&mut self, side: SideId)
        ensures counts { CountsStay self.old.ends.items self.new.ends.items }
        ensures went { EndAndPeerLeft self.old.ends.items self.new.ends.items (number side) (λ old new. new ≡ option_map closed_end old) }
    {
        self.close_own(side);
        undelay_peer(&mut self.ends, side.number());
    }
}

/// Marks nothing.
pub(crate) fn unmark(wants: &mut [Want])
    ensures { wants.new ≡ map unmarked wants.old }
{
    for want in wants.iter_mut() {
        *want = unmarked(*want);
    }
}

fn unmarked(want: Want) -> Want
    ensures { result ≡ unmarked want }
{
    Want {
        can_read: false,
        can_write: false,
        ..want
    }
}
