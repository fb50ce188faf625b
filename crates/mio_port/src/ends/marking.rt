// What can be done of what is wanted, by the numbers of the ends that are ready, and what a poll marks of it.
ghost use Rattle.std.specs.Prelude.{◌≡◌, ◌&&◌, not, None, map, slice_index_or};
ghost use Rattle.std.specs.List.{list_any};
ghost use Rattle.ev_port.specs.Table.{RowsStay, named};
ghost use Rattle.mio_port.specs.EndPlaces.{came_short, can_read, can_write, marked, wants_ready};
ghost use Rattle.mio_port.specs.ReadTurns.{ListedInTurn, drains_now, gives_way, other_end};

use super::Ends;
use crate::end::End;
use crate::turn::{Turn, other_end, wants_at};
use ev_port::{Want, WantTable};

// The last write to the end with this number took less than it was given, or would have blocked.
fn came_short(ends: &[Option<End>], number: usize) -> bool
    ensures { result ≡ came_short (slice_index_or ends.now number None) }
{
    match ends.get(number) {
        Some(Some(end)) => end.came_short(),
        _ => false,
    }
}

impl Ends {
    fn can_read(&self, want: Want) -> bool
        ensures { result ≡ can_read self.now.ends.items want }
    {
        let number = want.side.number();
        want.read && (self.ready.prompt.contains(number) || self.ready.bulky.contains(number))
    }

    fn can_write(&self, want: Want) -> bool
        ensures { result ≡ can_write self.now.ends.items want }
    {
        want.write && self.ready.writable.contains(want.side.number())
    }

    /// Something that is wanted can be done.
    pub(crate) fn is_any_ready(&self, wants: &[Want]) -> bool
        ensures { result ≡ list_any (wants_ready self.now.ends.items) wants.now }
    {
        wants
            .iter()
            .any(|want| self.can_read(*want) || self.can_write(*want))
    }

    /// Marks what is wanted and can be done, and nothing else.
    pub(crate) fn mark(&self, wants: &mut [Want])
        ensures { wants.new ≡ map (marked self.now.ends.items) wants.old }
    {
        for want in wants.iter_mut() {
            *want = self.marked(*want);
        }
    }

    /// Something that a table wants can be done. Only the sets are looked at, and 4,096 numbers at a time are passed over
    /// where none is in the set.
    pub(crate) fn is_any_of_table_ready(&self, wants: &WantTable) -> bool
        ensures { result ≡ list_any (wants_ready self.now.ends.items) (named wants.now) }
    {
        wants.is_any_ready(&self.ready.prompt, &self.ready.writable)
            || wants.is_any_ready(&self.ready.bulky, &self.ready.writable)
    }

    /// Lists in a table what it wants and can be done, with the marks; of the bulky ends only that whose turn it is by now, and
    /// not while it gives way to a peer that can be written. Only the sets are looked at, and that peer.
    pub(crate) fn mark_table(&mut self, turn: Turn, wants: &mut WantTable) -> Turn
        ensures stays { self.new.ends ≡ self.old.ends }
        ensures rows { RowsStay wants.old wants.new }
        ensures listed { ListedInTurn self.old.ends.items turn result wants.old wants.new }
    {
        let mut next = turn.next(wants, &self.ready.bulky);
        next.peer_drains = self.drains_now(wants, turn, next.who);
        if self.is_read_first(next) {
            self.ready.mark_with(next.who, wants);
        } else {
            wants.mark_ready(&self.ready.prompt, &self.ready.writable);
        }
        next
    }

    // Whether the peer of the end with this number drains, whose turn it is by now. What was said of the peer at the poll before
    // counts where the turn stayed.
    fn drains_now(&self, wants: &WantTable, before: Turn, who: usize) -> bool
        ensures { result ≡ drains_now wants.now self.now.ends.items before who }
    {
        if !self.ready.bulky.contains(who) {
            return false;
        }
        let peer = other_end(who);
        let (_read, is_waited_for) = wants_at(wants, peer);
        is_waited_for && (came_short(&self.ends, peer) || (before.peer_drains && before.who == who))
    }

    // A bulky end that is ready is read in its turn, but not while it gives way to a peer that can be written. A peer that keeps
    // up is given what was read a turn before, at most one read's worth (16,384 bytes in the relay), and doesn't hold it up: the
    // one is read and the other written in one turn.
    fn is_read_first(&self, turn: Turn) -> bool
        ensures { result ≡ (self.now.ready.bulky.has turn.who
            && not (gives_way turn && self.now.ready.writable.has (other_end turn.who))) }
    {
        self.ready.bulky.contains(turn.who)
            && !(turn.gives_way() && self.ready.writable.contains(other_end(turn.who)))
    }

    fn marked(&self, want: Want) -> Want
        ensures { result ≡ marked self.now.ends.items want }
    {
        Want {
            can_read: self.can_read(want),
            can_write: self.can_write(want),
            ..want
        }
    }
}
