// Passing a direction: rounds until one changes nothing. A round has its room before it begins, so that want of memory
// leaves whole rounds. Where nothing of a link is passed each buffer without a byte gives its room up, so that an idle link holds none.
ghost use Rattle.std.specs.Prelude.{◌≡◌, ◌≢◌, ◌≤◌, ◌<◌, ◌+◌, ◌==◌, ◌&&◌, ◌||◌, length, OnOk, IfOk, IsOk, MatchResult, IsTrue, ◌↔◌, is_some};
ghost use Rattle.std.specs.Prelude.{true, false, ◌/◌, nat_le, if◌then◌else◌};
ghost use Rattle.filter_model.specs.Filter.{or_else};
ghost use Rattle.ev_types.specs.Sides.{peer};
ghost use Rattle.relay_state.specs.Passage.{hold_part, read_part, move_part, write_part, write_step, written_by, has_moved_all, Passed};
ghost use Rattle.relay_state.specs.Passage.{SomeRounds};
ghost use Rattle.relay_state.specs.Closing.{in_side, out_side};
ghost use Rattle.relay_sides.specs.Links.{lane_at, flow_at, moved, passage_at, with_passage, IsTold, round_from, PassedFrom, PartlyPassed};
ghost use Rattle.relay_sides.specs.LinkPasses.{PassedLink, PartlyPassedLink, NoRoundChanges, NoRoundOfLinkChanges};
ghost use Rattle.relay_sides.specs.Pairs.{HasPairs};
ghost use Rattle.relay_sides.specs.Rooms.{HasInputRoom, HasOutputRoom, HasNoIdleRoom, most_input, most_offered, KeepsStartRoom};
ghost use Rattle.relay_sides.specs.Rooms.{KeepsEndRoom};
ghost use Rattle.relay_sides.specs.Progress.{progress_of, round_by, is_all_passed, is_settled, rules_of, is_settled_from};

use crate::side::{lower, upper};
use crate::sides::Sides;
use bev_core::Dir;
use ev_types::{NoMemory, Side, SideId};
use stream_filters::{AnyFilter, StreamFilter};

/// How far a filter came.
#[derive(Clone, Copy, PartialEq, Eq)]
pub(crate) struct FilterProgress {
    used: u64,
    finished: bool,
    stopped: bool,
}

/// What a round may change: how far the two filters came, how many bytes were moved, whether the direction is held, and whether
/// the sides at its two ends have a bad place.
#[derive(Clone, Copy, PartialEq, Eq)]
pub(crate) struct RoundProgress {
    reader: FilterProgress,
    writer: FilterProgress,
    moved: u64,
    held: bool,
    from_bad: bool,
    to_bad: bool,
}

/// What a round goes by: the mark at which reading stops and the one at which the direction is held, whether the side that it begins
/// at has ended, and which of its two sides live.
#[derive(Clone, Copy)]
pub(crate) struct RoundRules {
    mark: u64,
    hold: u64,
    ended: bool,
    from_live: bool,
    to_live: bool,
}

/// How far this filter came.
fn filter_progress(filter: &AnyFilter) -> FilterProgress
    ensures { result ≡ record { used = filter.now.used; finished = filter.now.finished; stopped = is_some filter.now.stopped } }
{
    FilterProgress {
        used: filter.used(),
        finished: filter.is_finished(),
        stopped: filter.stopped().is_some(),
    }
}

/// Whether nothing changed in between.
fn is_same(a: RoundProgress, b: RoundProgress) -> bool
    ensures { IsTrue result ↔ (a ≡ b) }
{
    a == b
}

/// Whether one of two is so.
fn is_either(a: bool, b: bool) -> bool
    ensures { result ≡ (a || b) }
{
    a || b
}

/// The first of two bad places in time.
fn first_place(before: Option<u64>, next: Option<u64>) -> Option<u64>
    ensures { result ≡ or_else before next }
{
    match before {
        Some(place) => Some(place),
        None => next,
    }
}

/// Whether a direction is held for whose end so many bytes wait: from the hold mark on, and until half of it is left.
fn is_held(waiting: u64, hold: u64, held: bool) -> bool
    ensures { result ≡ (if nat_le hold waiting then true else (if nat_le waiting (hold / 2) then false else held)) }
{
    waiting >= hold || (held && waiting > hold / 2)
}

impl Sides {
    /// How far the direction from the side has come.
    fn progress(&self, from: SideId) -> RoundProgress
        requires { from.link < self.now.links.opened }
        ensures progress { result ≡ progress_of (passage_at self.now.links from) }
        ensures told { IsTold (passage_at self.now.links from) }
        ensures pairs { HasPairs self.now.links }
    {
        let own = &self.sides[from.number()];
        let other = &self.sides[from.peer().number()];
        RoundProgress {
            reader: filter_progress(self.world.filter(upper(from), Dir::Read)),
            writer: filter_progress(self.world.filter(upper(from.peer()), Dir::Write)),
            moved: own.moved,
            held: own.held,
            from_bad: own.bad.is_some(),
            to_bad: other.bad.is_some(),
        }
    }

    /// Makes room for the read filter's step, and answers how many bytes it makes at most.
    fn reserve_input(&mut self, from: SideId, mark: u64) -> Result<usize, NoMemory>
        requires { from.link < self.old.links.opened }
        ensures links { self.new.links ≡ self.old.links }
        ensures room { OnOk result (HasInputRoom mark self.new.links self.new.rooms from) }
        ensures most { IfOk result (λ most. most ≡ most_input mark self.new.links from) }
    {
        self.readable = 0;
        let count = self.raw_input_len(from);
        let made = self.sides[from.number()].read_made;
        self.world.reserve_step_at(
            upper(from),
            lower(from),
            Dir::Read,
            count,
            &mut self.beside,
            mark as usize,
            made,
        )
    }

    /// Makes room for a step of the write filter at the end of the direction over so many bytes.
    fn reserve_output(&mut self, from: SideId, hold: u64, count: usize) -> Result<(), NoMemory>
        requires { from.link < self.old.links.opened }
        ensures links { self.new.links ≡ self.old.links }
        ensures room { OnOk result (HasOutputRoom hold count self.new.links self.new.rooms from) }
        ensures kept { KeepsStartRoom from self.old.rooms self.new.rooms }
    {
        self.readable = 0;
        let to = from.peer();
        let made = self.sides[from.number()].write_made;
        self.world.reserve_step_at(
            upper(to),
            lower(to),
            Dir::Write,
            count,
            &mut self.beside,
            hold as usize,
            made,
        )?;
        Ok(())
    }

    /// How many bytes the write filter may be offered, once the read filter made so many.
    fn offered(&self, from: SideId, mark: u64, most: usize) -> usize
        requires opened { from.link < self.now.links.opened }
        requires most { most ≡ most_input mark self.now.links from }
        requires room { HasInputRoom mark self.now.links self.now.rooms from }
        ensures { result ≡ most_offered mark self.now.links from }
    {
        // what waits is no more than what was made, so that the sum can be counted
        let _made = self.sides[from.number()].read_made;
        most + self.own_input_len(from) + self.own_output_len(from)
    }

    /// Makes room for what a round may make, and for no more than waits, however great the marks are. It is also refused where
    /// that could not be counted.
    fn reserve_round(&mut self, from: SideId, round: RoundRules) -> Result<(), NoMemory>
        requires { from.link < self.old.links.opened }
        ensures links { self.new.links ≡ self.old.links }
        ensures input { OnOk result (HasInputRoom round.mark self.new.links self.new.rooms from) }
        ensures raw_output { OnOk result
            (HasOutputRoom round.hold (most_offered round.mark self.new.links from) self.new.links self.new.rooms from) }
    {
        let most = self.reserve_input(from, round.mark)?;
        let offered = self.offered(from, round.mark, most);
        self.reserve_output(from, round.hold, offered)
    }

    /// The direction becomes held at the hold mark, and is no more held at half of it.
    fn hold_back(&mut self, from: SideId, hold: u64)
        requires { from.link < self.old.links.opened }
        ensures links { self.new.links ≡ with_passage from (hold_part hold (passage_at self.old.links from)) self.old.links }
        ensures rooms { self.new.rooms ≡ self.old.rooms }
        ensures pairs { HasPairs self.old.links }
    {
        let waiting = self.raw_output_len(from) as u64;
        self.readable = 0;
        let own = &mut self.sides[from.number()];
        own.held = is_held(waiting, hold, own.held);
    }

    /// The read filter makes a step, until the input reaches the read mark.
    pub(crate) fn run_read_filter(&mut self, from: SideId, mark: u64, ended: bool)
        requires opened { from.link < self.old.links.opened }
        requires room { HasInputRoom mark self.old.links self.old.rooms from }
        ensures links { self.new.links ≡ with_passage from (read_part mark ended (passage_at self.old.links from)) self.old.links }
        ensures rooms { KeepsEndRoom from self.old.rooms self.new.rooms }
    {
        self.readable = 0;
        let own = &mut self.sides[from.number()];
        // what was used and what is offered are no more than this, so that they can be counted
        let _most = own.read;
        own.read_made = self.world.step_at(
            upper(from),
            lower(from),
            Dir::Read,
            mark as usize,
            ended,
            &mut self.beside,
            own.read_made,
        );
        own.bad = first_place(own.bad, self.world.filter(upper(from), Dir::Read).stopped());
    }

    /// The input goes whole to an empty output, unless the direction is held.
    fn move_input(&mut self, from: SideId)
        requires { from.link < self.old.links.opened }
        ensures links { self.new.links ≡ with_passage from (move_part (passage_at self.old.links from)) self.old.links }
        ensures rooms { KeepsEndRoom from self.old.rooms self.new.rooms }
    {
        if !self.is_held(from) && self.own_output_len(from) == 0 {
            self.move_whole(from);
        }
    }

    /// Whether the direction is held.
    fn is_held(&self, from: SideId) -> bool
        requires { from.link < self.now.links.opened }
        ensures { result ≡ (flow_at self.now.links from).held }
    {
        self.sides[from.number()].held
    }

    /// The input goes whole to the output.
    fn move_whole(&mut self, from: SideId)
        requires opened { from.link < self.old.links.opened }
        requires empty { length (lane_at self.old.links from).buffers.output ≡ 0 }
        ensures links { self.new.links ≡ with_passage from (moved (passage_at self.old.links from)) self.old.links }
        ensures rooms { KeepsEndRoom from self.old.rooms self.new.rooms }
    {
        let count = self.own_input_len(from) as u64;
        self.readable = 0;
        self.world.move_at(upper(from), upper(from.peer()));
        let own = &mut self.sides[from.number()];
        // no more can be moved than was made
        let _most = own.read_made;
        own.moved += count;
    }

    /// Whether the read filter of the side is finished.
    fn is_read_done(&self, from: SideId) -> bool
        requires { from.link < self.now.links.opened }
        ensures { result ≡ (flow_at self.now.links from).read_done }
    {
        self.world.filter(upper(from), Dir::Read).is_finished()
    }

    /// Whether the write filter may finish: all that will ever come was moved.
    fn may_finish(&self, from: SideId, may_end: bool) -> bool
        requires { from.link < self.now.links.opened }
        ensures { result ≡ (may_end && has_moved_all (passage_at self.now.links from)) }
    {
        may_end && self.is_read_done(from) && self.own_input_len(from) == 0
    }

    /// The write filter makes a step, until the raw output reaches the hold mark, unless the direction is held.
    fn run_write_filter(&mut self, from: SideId, hold: u64, may_end: bool)
        requires opened { from.link < self.old.links.opened }
        requires room { HasOutputRoom hold (length (lane_at self.old.links from).buffers.output) self.old.links self.old.rooms from }
        ensures { self.new.links ≡ with_passage from (write_part hold may_end (passage_at self.old.links from)) self.old.links }
    {
        if !self.is_held(from) {
            let over = self.may_finish(from, may_end);
            self.write(from, hold, over);
        }
    }

    /// The write filter makes a step, over the end or not.
    fn write(&mut self, from: SideId, hold: u64, over: bool)
        requires opened { from.link < self.old.links.opened }
        requires room { HasOutputRoom hold (length (lane_at self.old.links from).buffers.output) self.old.links self.old.rooms from }
        ensures { self.new.links ≡ with_passage from
            (written_by (write_step hold over (lane_at self.old.links from)) (passage_at self.old.links from)) self.old.links }
    {
        self.readable = 0;
        let to = from.peer();
        let own = &mut self.sides[from.number()];
        // what was used and what is offered are no more than this, so that they can be counted
        let _most = own.moved;
        own.write_made = self.world.step_at(
            upper(to),
            lower(to),
            Dir::Write,
            hold as usize,
            over,
            &mut self.beside,
            own.write_made,
        );
        let stopped = self.world.filter(upper(to), Dir::Write).stopped();
        let other = &mut self.sides[to.number()];
        other.bad = first_place(other.bad, stopped);
    }

    /// One round, in room that was made before.
    fn make_round(&mut self, from: SideId, round: RoundRules)
        requires opened { from.link < self.old.links.opened }
        requires input { HasInputRoom round.mark self.old.links self.old.rooms from }
        requires raw_output { HasOutputRoom round.hold (most_offered round.mark self.old.links from) self.old.links self.old.rooms from }
        ensures { self.new.links ≡ with_passage from (round_by round (passage_at self.old.links from)) self.old.links }
    {
        if !round.to_live {
            return;
        }
        self.hold_back(from, round.hold);
        if round.from_live {
            self.run_read_filter(from, round.mark, round.ended);
            self.move_input(from);
            self.run_write_filter(from, round.hold, true);
        } else {
            self.run_write_filter(from, round.hold, false);
        }
    }

    /// Whether there is nothing that a round could do: the direction isn't held and does not become so, its side has not ended, its
    /// filters run, and all bytes have come to its end. So of an idle direction no round is made, and of one whose bytes went through at
    /// once no second one.
    fn is_settled(&self, from: SideId, round: RoundRules) -> bool
        requires { from.link < self.now.links.opened }
        ensures settled { result ≡ is_settled round (passage_at self.now.links from) }
        ensures told { result ≡ true → IsTold (passage_at self.now.links from) }
    {
        !round.ended
            && !self.is_held(from)
            && (self.raw_output_len(from) as u64) < round.hold
            && self.is_all_passed(from)
            && !self.is_read_done(from)
            && !self.has_stopped(from)
    }

    /// Whether no byte waits before the end of the direction.
    fn is_all_passed(&self, from: SideId) -> bool
        requires { from.link < self.now.links.opened }
        ensures { result ≡ is_all_passed (lane_at self.now.links from) }
    {
        self.raw_input_len(from) == 0
            && self.own_input_len(from) == 0
            && self.own_output_len(from) == 0
    }

    /// Whether a filter of the direction met a bad place.
    fn has_stopped(&self, from: SideId) -> bool
        requires { from.link < self.now.links.opened }
        ensures stopped { result ≡ (is_some (lane_at self.now.links from).reader.stopped || is_some (lane_at self.now.links from).writer.stopped) }
        ensures told { IsTold (passage_at self.now.links from) }
    {
        let reader = self.world.filter(upper(from), Dir::Read);
        let writer = self.world.filter(upper(from.peer()), Dir::Write);
        is_either(reader.stopped().is_some(), writer.stopped().is_some())
    }

    /// Rounds until one changes nothing, or there is nothing left that one could do. It answers whether one before did.
    fn make_rounds(&mut self, from: SideId, round: RoundRules) -> Result<bool, NoMemory>
        requires { from.link < self.old.links.opened }
        ensures frame { self.new.links ≡ with_passage from (passage_at self.new.links from) self.old.links }
        ensures passage { MatchResult result
            (λ _. Passed (round_by round) (passage_at self.old.links from) (passage_at self.new.links from))
            (λ _. SomeRounds (round_by round) (passage_at self.old.links from) (passage_at self.new.links from)) }
        ensures still { result ≡ Ok false → passage_at self.new.links from ≡ passage_at self.old.links from }
        ensures apart { result ≡ Ok true → progress_of (passage_at self.new.links from) ≢ progress_of (passage_at self.old.links from) }
        ensures settled { is_settled round (passage_at self.old.links from) ≡ true → result ≡ Ok false }
    {
        let mut changed = false;
        loop {
            if self.is_settled(from, round) {
                return Ok(changed);
            }
            self.reserve_round(from, round)?;
            let before = self.progress(from);
            self.make_round(from, round);
            if is_same(self.progress(from), before) {
                return Ok(changed);
            }
            changed = true;
        }
    }

    /// Gives up the room of each of the link's eight buffers that has no byte.
    fn give_up_rooms(&mut self, from: SideId)
        requires { from.link < self.old.links.opened }
        ensures links { self.new.links ≡ self.old.links }
        ensures rooms { HasNoIdleRoom self.new.links self.new.rooms from }
        ensures back { HasNoIdleRoom self.new.links self.new.rooms (peer from) }
    {
        self.readable = 0;
        let to = from.peer();
        self.world.give_up_at(lower(from));
        self.world.give_up_at(upper(from));
        self.world.give_up_at(upper(to));
        self.world.give_up_at(lower(to));
    }

    /// Room that a pass left behind the moved bytes goes where the next read needs it, so that two rooms go round in a direction.
    fn hand_room_back(&mut self, from: SideId)
        requires { from.link < self.old.links.opened }
        ensures { self.new.links ≡ self.old.links }
    {
        if self.raw_input_len(from) == 0 && self.own_output_len(from) == 0 {
            self.exchange_rooms(from);
        }
    }

    /// The raw input and the output, which have no byte, exchange their rooms.
    fn exchange_rooms(&mut self, from: SideId)
        requires opened { from.link < self.old.links.opened }
        requires raw_input { length (lane_at self.old.links from).buffers.raw_input ≡ 0 }
        requires output { length (lane_at self.old.links from).buffers.output ≡ 0 }
        ensures { self.new.links ≡ self.old.links }
    {
        self.readable = 0;
        self.world.move_at(lower(from), upper(from.peer()));
    }

    /// What a round of the direction goes by.
    fn round_rules(&self, from: SideId, hold: u64) -> RoundRules
        requires { from.link < self.now.links.opened }
        ensures rules { result ≡ rules_of hold self.now.links from }
        ensures by { round_by result ≡ round_from hold self.now.links from }
    {
        let to = from.peer();
        let flags = self.flags(from);
        RoundRules {
            mark: self.read_mark(from),
            hold: self.hold_mark(to, hold),
            ended: flags.ended,
            from_live: flags.live,
            to_live: self.is_live(to),
        }
    }

    /// Passes the direction that begins at the side: rounds until one changes nothing, with this hold mark where the side that it ends
    /// at has none. It answers whether anything changed; where nothing did, a round changes nothing either until another call does.
    /// Takes memory for what a round may make, and none where there is nothing that one could do; want of it comes between two rounds.
    fn pass(&mut self, from: SideId, hold: u64) -> Result<bool, NoMemory>
        requires { from.link < self.old.links.opened }
        ensures passed { MatchResult result
            (λ _. PassedFrom hold self.old.links from self.new.links)
            (λ _. PartlyPassed hold self.old.links from self.new.links) }
        ensures still { result ≡ Ok false → (self.new.links ≡ self.old.links) × NoRoundChanges hold self.old.links from }
        ensures apart { result ≡ Ok true → self.new.links ≢ self.old.links }
        ensures settled { is_settled_from hold self.old.links from ≡ true → result ≡ Ok false }
    {
        let round = self.round_rules(from, hold);
        let changed = self.make_rounds(from, round)?;
        if changed {
            self.hand_room_back(from);
        }
        Ok(changed)
    }

    /// Passes both directions of a link, that from In first: in each, rounds until one changes nothing, with this hold mark where the side
    /// that it ends at has none. It answers whether anything changed; where nothing did, a round changes nothing either until another call
    /// does, and no buffer of the link that has no byte holds memory. Takes memory for what a round may make, and none where there is
    /// nothing that one could do; want of it comes between two rounds. Linear in the bytes that wait in the link; constant where none
    /// does.
    ///
    /// Own.
    pub fn pass_link(&mut self, link: u32, hold: u64) -> Result<bool, NoMemory>
        requires { link < self.old.links.opened }
        ensures passed { MatchResult result
            (λ changed. PassedLink hold self.old.links link changed self.new.links)
            (λ _. PartlyPassedLink hold self.old.links link self.new.links) }
        ensures still { result ≡ Ok false → NoRoundOfLinkChanges hold self.old.links link }
        ensures rooms { result ≡ Ok false → HasNoIdleRoom self.new.links self.new.rooms (in_side link) }
        ensures back { result ≡ Ok false → HasNoIdleRoom self.new.links self.new.rooms (out_side link) }
        ensures settled { is_settled_from hold self.old.links (in_side link) ≡ true →
            is_settled_from hold self.old.links (out_side link) ≡ true → result ≡ Ok false }
    {
        let near = SideId {
            link,
            side: Side::In,
        };
        let first = self.pass(near, hold)?;
        let second = self.pass(near.peer(), hold)?;
        if is_either(first, second) {
            return Ok(true);
        }
        self.give_up_rooms(near);
        Ok(false)
    }
}
