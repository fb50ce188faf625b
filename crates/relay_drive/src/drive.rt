// The drive: turns in a row, with an answer kept that every later turn gives.
ghost use Rattle.std.specs.Prelude.{◌≡◌, ◌-◌, ◌^◌, true, false, min, nat_lt, if◌then◌else◌, Some, None, Err, IfOk, IfSome, MatchResult};
ghost use Rattle.relay_state.specs.Counting.{link_count, open_below, buffered_below};
ghost use Rattle.relay_core.specs.GivenGroups.{AreGroups};
ghost use Rattle.relay_drive.specs.declared.fault.DriveFault.TheVariants.{Memory, Spent};
ghost use Rattle.relay_drive.specs.DriveValue.{new_drive, is_worn, kept_of};
ghost use Rattle.relay_drive.specs.Moves.{TurnTold, TouchesNothing};
ghost use Rattle.relay_drive.specs.Seats.{telling, seated_sides, AreFresh, AreSeated};

use crate::agenda::{Agenda, next_link};
use crate::fault::{DriveFault, TurnEnd};
use crate::naming::Naming;
use crate::run::Run;
use crate::seats::{Seats, slots_taken};
use crate::turn::next_turn;
use ev_port::{Port, Scribe, WantTable};
use relay_core::{Hook, LinkCount, RateGroups, Relay, Settings};
use relay_sides::MOST_AT_ONCE;
use std::alloc::Global;
use std::marker::Model;

/// A relay that is driven over a port, turn by turn.
///
/// Own; its turn follows libevent's "Working with an event loop".
#[derive(Drop)]
pub struct Drive {
    run: Run,
    agenda: Agenda,
    naming: Naming,
    inbox: Vec<u8>,
    kept: Option<Result<TurnEnd, DriveFault>>,
}

impl Model for Drive {
    ghost use Rattle.relay_drive.specs.DriveValue.{DriveValue};

    ghost Value = { DriveValue };

    ghost use Rattle.relay_drive.specs.DriveView.{drive_of, IsSound};

    ghost view = { drive_of };

    ghost invariant = { IsSound };
}

/// What is kept of a turn's answer, for every later turn.
fn kept_of(answer: Result<TurnEnd, DriveFault>) -> Option<Result<TurnEnd, DriveFault>>
    ensures { result ≡ kept_of answer }
{
    match answer {
        Ok(TurnEnd::Went) => None,
        Ok(TurnEnd::Stopped(_)) | Err(_) => Some(answer),
    }
}

impl Drive {
    /// A drive with no link, with these groups, for these hooks, none of which was called. It is refused only for want of memory. Takes
    /// memory for the longest read, for the groups and for what waits; linear in the groups and in the slots for hooks.
    pub fn new(
        alloc: Global,
        settings: Settings,
        given: RateGroups,
        seats: &Seats,
    ) -> Result<Drive, DriveFault>
        requires groups { AreGroups given }
        requires fresh { AreFresh seats.now.hooks.items seats.now.gone.items }
        ensures value { MatchResult result (λ drive. drive ≡ new_drive settings given (seated_sides seats.now.hooks.items))
            (λ fault. fault ≡ Memory) }
        ensures seated { IfOk result (λ drive. AreSeated drive.state seats.now.hooks.items seats.now.gone.items) }
    {
        let Ok(inbox) = vec![in alloc; 0u8; MOST_AT_ONCE] else {
            return Err(DriveFault::Memory);
        };
        let taken = slots_taken(alloc, &seats.hooks)?;
        Ok(Drive {
            run: Run {
                relay: Relay::new(alloc, settings, given, taken)?,
                entries: 0,
            },
            agenda: Agenda::new(alloc),
            naming: Naming {
                table: WantTable::new(alloc),
                seen: Vec::new(alloc),
            },
            inbox,
            kept: None,
        })
    }

    /// Makes one turn. It ends where a hook asked for that, and after such an end or a refusal every later turn is answered so, with no
    /// call of the port and no entry. A turn is refused as spent where a count, or the number of entries, has come to 2^62 as it begins.
    /// Linear in the links at which something is to be done, in those of sides with a timeout, in the groups, in what it moves, and in the
    /// members of all groups if one was suspended or goes on; and it looks at a word for each 4,096 links.
    pub fn turn<P: Port, S: Scribe>(
        &mut self,
        seats: &mut Seats,
        port: &mut P,
        scribe: &mut S,
    ) -> Result<TurnEnd, DriveFault>
        // The hooks are those of this drive.
        requires seated { self.old.kept ≡ None → AreSeated self.old.state seats.old.hooks.items seats.old.gone.items }

        // A kept answer is given again, and nothing is done.
        ensures kept { IfSome self.old.kept (λ answer. (result ≡ answer) × (self.new ≡ self.old) × TouchesNothing (port.old, scribe.old)
            (port.new, scribe.new) seats.old.hooks.items seats.old.gone.items seats.new.hooks.items seats.new.gone.items) }

        // A drive that came too far does nothing.
        ensures spent { self.old.kept ≡ None → is_worn self.old ≡ true →
            (result ≡ Err Spent) × (self.new.state ≡ self.old.state) × TouchesNothing (port.old, scribe.old)
            (port.new, scribe.new) seats.old.hooks.items seats.old.gone.items seats.new.hooks.items seats.new.gone.items }

        // Every other turn goes through its phases, or a hook ends it, or it is cut off as its answer says. So the port vouches for the
        // trace with its entries, is tied to it, and every link that waited was accepted, as it was before.
        ensures went { self.old.kept ≡ None → is_worn self.old ≡ false →
            TurnTold P.Port S.Scribe (telling (λ h. heard h) (λ h. asked h) (λ h. planned h)) result
            (self.old, port.old, scribe.old) (self.new, port.new, scribe.new)
            seats.old.hooks.items seats.old.gone.items seats.new.hooks.items seats.new.gone.items }

        ensures answer { self.new.kept ≡ kept_of result }
        ensures seated { self.new.kept ≡ None → AreSeated self.new.state seats.new.hooks.items seats.new.gone.items }
    {
        if let Some(answer) = self.kept {
            return answer;
        }
        let answer = next_turn(
            &mut self.run,
            &mut self.agenda,
            &mut self.naming,
            &mut self.inbox,
            seats,
            port,
            scribe,
        );
        self.kept = kept_of(answer);
        answer
    }

    /// How many links were opened. Constant cost.
    pub fn opened(&self) -> u32
        ensures { result ≡ self.now.state.plain.opened }
    {
        self.run.relay.opened()
    }

    /// Whether a link has a live side. Before an answer is kept it looks at few links, whatever their number; takes no memory.
    /// Else the cost is linear in the links.
    pub fn has_open_links(&self) -> bool
        ensures { result ≡ nat_lt 0 (open_below self.now.state self.now.state.plain.opened) }
    {
        if self.kept.is_some() {
            return self.run.relay.open_links() > 0;
        }
        let mut from = 0;
        while let Some(link) = next_link(&self.agenda.maybe_open, from, self.run.relay.opened()) {
            if self.run.relay.is_open(link) {
                return true;
            }
            from = link + 1;
        }
        false
    }

    /// How many links have a live side. Takes no memory; linear in the number of links.
    pub fn open_links(&self) -> u32
        ensures { result ≡ open_below self.now.state self.now.state.plain.opened }
    {
        self.run.relay.open_links()
    }

    /// What a link came to. None exactly from the number of opened links on. Constant cost.
    pub fn link(&self, link: u32) -> Option<LinkCount>
        ensures { result ≡ (if nat_lt link self.now.state.plain.opened then Some (link_count self.now.state link) else None) }
    {
        self.run.relay.link(link)
    }

    /// The number of bytes in all buffers of live sides, or 2^64 - 1 where that is more: those under way in the trace, read and
    /// not yet given (`buffered_is_underway` of relay_laws). Takes no memory; linear in the number of links.
    pub fn buffered(&self) -> u64
        ensures { result ≡ min (buffered_below self.now.state self.now.state.plain.opened) (2 ^ 64 - 1) }
    {
        self.run.relay.buffered()
    }
}
