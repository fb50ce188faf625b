// One turn: its phases in their order. What time brings is done as the relay begins the turn.
ghost use Rattle.std.specs.Prelude.{◌≡◌, ℕ, ◌<◌, ◌^◌, ◌||◌, true, false, nat_le, vec_len, Ok, Err, MatchResult, OnOk};
ghost use Rattle.relay_state.specs.Counting.{is_spent};
ghost use Rattle.relay_drive.specs.declared.fault.DriveFault.TheVariants.{Spent};
ghost use Rattle.relay_drive.specs.declared.fault.TurnEnd.TheVariants.{Went};
ghost use Rattle.relay_drive.specs.Steps.{Nothing};
ghost use Rattle.relay_drive.specs.Phases.{TicksOnce, ServedThen, CutStart, PassesAndCloses, CutFinish};
ghost use Rattle.relay_drive.specs.Known.{Point};
ghost use Rattle.relay_core.specs.Timeless.{AreLeftAlikeBeside, WatchesNoStill};
ghost use Rattle.relay_drive.specs.Links.{SameLink, IsTimelessLink, WantsAsSeen, at_time};
ghost use Rattle.relay_drive.specs.Agenda.{HoldsBeside, LinkCountsAreFew, CountsAreFew, IsKept, IsNamed, KeepsNames};
ghost use Rattle.ev_types.specs.Trace.{Trace};
ghost use Rattle.relay_drive.specs.DriveStands.{StandsBetween};
ghost use Rattle.relay_drive.specs.DriveView.{IsReady};
ghost use Rattle.relay_drive.specs.Seats.{telling, AreSeated};
ghost use Rattle.relay_drive.specs.Moves.{Moves, GetsTo, Does, EndsTold, OnlyForMemory};

use crate::agenda::{Agenda, next_link};
use crate::close::close;
use crate::dispatch::dispatch;
use crate::fault::{DriveFault, TurnEnd};
use crate::naming::Naming;
use crate::pass::pass;
use crate::poll::poll;
use crate::run::{Run, put};
use crate::seats::Seats;
use crate::serve::serve;
use ev_port::{Port, Scribe};
use ev_types::Entry;
use relay_core::{Hook, Relay};
use relay_sides::SPENT;

/// Reads the port's clock once.
fn read_clock<P: Port, S: Scribe>(
    run: &mut Run,
    port: &mut P,
    scribe: &mut S,
) -> Result<(), DriveFault>
    requires turns { run.old.relay.state.plain.turn < 2 ^ 62 }
    ensures went { MatchResult result
        (λ _. Moves P.Port S.Scribe Point.Between Point.Begun false TicksOnce
        (run.old, port.old, scribe.old) (run.new, port.new, scribe.new))
        (λ _. Moves P.Port S.Scribe Point.Between Point.Between false Nothing
        (run.old, port.old, scribe.old) (run.new, port.new, scribe.new)) }
    ensures opened { OnOk result (run.new.relay.state.plain.opened ≡ run.old.relay.state.plain.opened) }
    ensures still { OnOk result ((k : ℕ) → IsTimelessLink run.new.relay.state k →
        SameLink k (at_time run.new.relay.state.plain.time run.old.relay.state) run.new.relay.state) }
    ensures alike { OnOk result (AreLeftAlikeBeside run.new.relay.watched run.new.relay.state.plain.time run.old.relay.state) }
    ensures few { OnOk result (CountsAreFew run.old.relay.state → CountsAreFew run.new.relay.state) }
    ensures cause { OnlyForMemory result }
{
    scribe.reserve(1, 0)?;
    let ms = run.relay.begin(port.now());
    put(&mut run.entries, scribe, Entry::Turn { ms }, &[]);
    Ok(())
}

/// Reads the port's clock once. Every link is to be looked at then at which a side has a timeout, or what its limit leaves it may have
/// changed; and what the sides of links with members want, if a group was suspended or goes on since that was noted. No link is watched
/// further that has no timeout.
fn clock<P: Port, S: Scribe>(
    run: &mut Run,
    agenda: &mut Agenda,
    naming: &mut Naming,
    port: &mut P,
    scribe: &mut S,
) -> Result<(), DriveFault>
    requires turns { run.old.relay.state.plain.turn < 2 ^ 62 }
    requires stands { (t : Trace) × StandsBetween t run.old.relay.state }
    requires kept { IsKept agenda.old run.old.relay.state }
    requires named { IsNamed agenda.old naming.old run.old.relay.state }
    ensures went { MatchResult result
        (λ _. Moves P.Port S.Scribe Point.Between Point.Begun false TicksOnce
        (run.old, port.old, scribe.old) (run.new, port.new, scribe.new))
        (λ _. Moves P.Port S.Scribe Point.Between Point.Between false Nothing
        (run.old, port.old, scribe.old) (run.new, port.new, scribe.new)) }
    ensures cause { OnlyForMemory result }
    ensures kept { OnOk result (IsKept agenda.new run.new.relay.state) }
    ensures named { OnOk result (IsNamed agenda.new naming.new run.new.relay.state) }
    ensures seen { OnOk result (WantsAsSeen naming.new.seen.items run.new.relay.state) }
    ensures few { OnOk result (CountsAreFew run.old.relay.state → CountsAreFew run.new.relay.state) }
    ensures rests { OnOk result (WatchesNoStill run.new.relay) }
{
    let known = run.relay.lengthen_halts(&mut naming.seen)?;
    read_clock(run, port, scribe)?;
    let opened = run.relay.opened();
    agenda.touch_each(run.relay.watched(), opened);
    let same = run.relay.note_halts(&mut naming.seen);
    agenda.name_each_where(!(known & same), run.relay.grouped(), opened);
    run.relay.forget_timeless();
    Ok(())
}

/// Passes and closes, once dispatch is over.
fn finish<P: Port, S: Scribe>(
    run: &mut Run,
    agenda: &mut Agenda,
    port: &mut P,
    scribe: &mut S,
) -> Result<(), DriveFault>
    requires kept { IsKept agenda.old run.old.relay.state }
    ensures went { Does P.Port S.Scribe result (λ _. PassesAndCloses) CutFinish
        (run.old, port.old, scribe.old) (run.new, port.new, scribe.new) }
    ensures kept { OnOk result (IsKept agenda.new run.new.relay.state) }
    ensures names { OnOk result (KeepsNames agenda.old run.old.relay.state agenda.new run.new.relay.state) }
    ensures cause { OnlyForMemory result }
{
    pass(&mut run.relay, agenda)?;
    close(run, agenda, port, scribe)?;
    Ok(())
}

/// Reads the clock, polls, accepts and serves.
fn start<P: Port, S: Scribe>(
    run: &mut Run,
    agenda: &mut Agenda,
    naming: &mut Naming,
    inbox: &mut Vec<u8>,
    port: &mut P,
    scribe: &mut S,
) -> Result<(), DriveFault>
    requires inbox { vec_len inbox.old ≡ 16384 }
    requires turns { run.old.relay.state.plain.turn < 2 ^ 62 }
    requires kept { IsKept agenda.old run.old.relay.state }
    requires stands { (t : Trace) × StandsBetween t run.old.relay.state }
    requires named { IsNamed agenda.old naming.old run.old.relay.state }
    requires few { CountsAreFew run.old.relay.state }
    ensures went { GetsTo P.Port S.Scribe result Point.Between Point.Accepted (λ _. ServedThen Nothing) CutStart
        (run.old, port.old, scribe.old) (run.new, port.new, scribe.new) }
    ensures kept { OnOk result (IsKept agenda.new run.new.relay.state) }
    ensures named { OnOk result (IsNamed agenda.new naming.new run.new.relay.state) }
    ensures inbox { vec_len inbox.new ≡ 16384 }
{
    clock(run, agenda, naming, port, scribe)?;
    poll(run, agenda, naming, port, scribe)?;
    serve(run, agenda, naming.table.list(), inbox, port, scribe)?;
    Ok(())
}

/// Goes through all phases once, unless a hook ends the run.
fn turn<P: Port, S: Scribe>(
    run: &mut Run,
    agenda: &mut Agenda,
    naming: &mut Naming,
    inbox: &mut Vec<u8>,
    seats: &mut Seats,
    port: &mut P,
    scribe: &mut S,
) -> Result<TurnEnd, DriveFault>
    requires inbox { vec_len inbox.old ≡ 16384 }
    requires turns { run.old.relay.state.plain.turn < 2 ^ 62 }
    requires ready { IsReady agenda.old naming.old run.old.relay.state }
    requires few { CountsAreFew run.old.relay.state }
    requires seated { AreSeated run.old.relay.state seats.old.hooks.items seats.old.gone.items }
    ensures inbox { vec_len inbox.new ≡ 16384 }
    ensures went { EndsTold P.Port S.Scribe (telling (λ h. heard h) (λ h. asked h) (λ h. planned h)) result
        (run.old, port.old, scribe.old) (run.new, port.new, scribe.new)
        seats.old.hooks.items seats.old.gone.items seats.new.hooks.items seats.new.gone.items }
    ensures ready { result ≡ Ok Went → IsReady agenda.new naming.new run.new.relay.state }
    ensures seated { result ≡ Ok Went → AreSeated run.new.relay.state seats.new.hooks.items seats.new.gone.items }
{
    start(run, agenda, naming, inbox, port, scribe)?;
    match dispatch(run, agenda, seats, scribe)? {
        TurnEnd::Went => {
            finish(run, agenda, port, scribe)?;
            Ok(TurnEnd::Went)
        }
        TurnEnd::Stopped(link) => Ok(TurnEnd::Stopped(link)),
    }
}

/// Whether a count of the relay has come to 2^62. Only the links are looked at where something changed.
fn is_spent(relay: &Relay, agenda: &Agenda) -> bool
    requires { HoldsBeside agenda.now.to_name LinkCountsAreFew relay.now.state }
    ensures spent { result ≡ is_spent relay.now.state }
    ensures few { result ≡ false → CountsAreFew relay.now.state }
{
    if relay.turns() >= SPENT {
        return true;
    }
    let mut from = 0;
    while let Some(link) = next_link(&agenda.to_name, from, relay.opened()) {
        if relay.sides().has_spent_count(link) {
            return true;
        }
        from = link + 1;
    }
    false
}

/// Goes through all phases once, unless a count or the number of entries has come too far as the turn begins.
pub(crate) fn next_turn<P: Port, S: Scribe>(
    run: &mut Run,
    agenda: &mut Agenda,
    naming: &mut Naming,
    inbox: &mut Vec<u8>,
    seats: &mut Seats,
    port: &mut P,
    scribe: &mut S,
) -> Result<TurnEnd, DriveFault>
    requires inbox { vec_len inbox.old ≡ 16384 }
    requires ready { IsReady agenda.old naming.old run.old.relay.state }
    requires seated { AreSeated run.old.relay.state seats.old.hooks.items seats.old.gone.items }
    ensures spent { nat_le (2 ^ 62) run.old.entries || is_spent run.old.relay.state ≡ true →
        (result ≡ Err Spent) × (run.new ≡ run.old) × (port.new ≡ port.old) × (scribe.new ≡ scribe.old)
        × (seats.new.hooks.items ≡ seats.old.hooks.items) × (seats.new.gone.items ≡ seats.old.gone.items) }
    ensures went { nat_le (2 ^ 62) run.old.entries || is_spent run.old.relay.state ≡ false →
        EndsTold P.Port S.Scribe (telling (λ h. heard h) (λ h. asked h) (λ h. planned h)) result
        (run.old, port.old, scribe.old) (run.new, port.new, scribe.new)
        seats.old.hooks.items seats.old.gone.items seats.new.hooks.items seats.new.gone.items }
    ensures ready { result ≡ Ok Went → IsReady agenda.new naming.new run.new.relay.state }
    ensures seated { result ≡ Ok Went → AreSeated run.new.relay.state seats.new.hooks.items seats.new.gone.items }
    ensures inbox { vec_len inbox.new ≡ 16384 }
{
    if run.entries >= SPENT || is_spent(&run.relay, agenda) {
        return Err(DriveFault::Spent);
    }
    turn(run, agenda, naming, inbox, seats, port, scribe)
}
