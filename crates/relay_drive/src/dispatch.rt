// Dispatch: all that is due as it begins is fired, one reason after the other, at the hooks of live sides; or a hook ends the run.
ghost use Rattle.std.specs.Prelude.{◌≡◌, ◌≤◌, [], ◌∷◌, true, is_some, is_ok, length, None, Ok, OnOk, MatchResult};
ghost use Rattle.std.specs.List.{All};
ghost use Rattle.ev_types.specs.Growth.{Grew};
ghost use Rattle.ev_types.specs.Sides.{number};
ghost use Rattle.ev_types.specs.Trace.{Trace, bytes_beside};
ghost use Rattle.ev_port.specs.Counting.{counted};
ghost use Rattle.relay_model.specs.Plain.{is_live};
ghost use Rattle.relay_model.specs.Hooked.{asked_in};
ghost use Rattle.relay_model.specs.Stages.{Stage};
ghost use Rattle.relay_core.specs.Fires.{events_of, told_more, HasAskedByPlan};
ghost use Rattle.relay_steps.specs.Meaning.{StandsFor};
ghost use Rattle.relay_drive.specs.declared.fault.TurnEnd.TheVariants.{Went};
ghost use Rattle.relay_drive.specs.Agenda.{IsKept, KeepsNames};
ghost use Rattle.relay_drive.specs.Phases.{EndsDispatch, CutDispatch};
ghost use Rattle.relay_drive.specs.Seats.{hook_at, telling, SeatFired, AreSeated};
ghost use Rattle.relay_drive.specs.Fired.{HasFired, FiredAs, FiredBut};
ghost use Rattle.relay_drive.specs.Moves.{OnlyForMemory};

use crate::agenda::Agenda;
use crate::fault::{DriveFault, TurnEnd};
use crate::run::{Run, put};
use crate::seats::{Seats, put_back, take_hook};
use crate::touch::touch_asked;
use ev_port::Scribe;
use ev_types::{Entry, NoMemory, SideId, Why};
use relay_core::{Hook, Relay};

/// The most entries of a fire: that it was made, and two for each of 256 asks.
const MOST_ENTRIES: usize = 513;

/// Puts the entries of what a hook asked, in room that was made before.
fn put_all<S: Scribe>(entries: &mut u64, scribe: &mut S, log: &[Entry])
    requires room { length log.now ≤ S.spare_entries scribe.old }
    requires beside { All (λ e. bytes_beside e ≡ 0) log.now }
    ensures list { Grew (S.trace scribe.old) (S.trace scribe.new) (events_of log.now) }
    ensures counted { counted entries.new 0 ≡ counted entries.old (length log.now) }
{
    for entry in log {
        put(entries, scribe, *entry, &[]);
    }
}

/// Calls a hook and puts why, and what it asked, in room that was made before.
fn call_hook<S: Scribe>(
    run: &mut Run,
    hook: &mut Box<dyn Hook>,
    side: SideId,
    why: Why,
    scribe: &mut S,
) -> Result<(), NoMemory>
    requires live { is_live run.old.relay.state.plain side ≡ true }
    requires entries { 513 ≤ S.spare_entries scribe.old }
    requires room { 512 ≤ run.old.relay.fire_room }
    ensures fired { HasFired side why run.old run.new (S.trace scribe.old) (S.trace scribe.new) }
    ensures heard { OnOk result (heard hook.new ≡ told_more (heard hook.old) (why ∷ [])) }
    ensures asked { OnOk result (asked hook.new ≡ told_more (asked hook.old) (asked_in side run.new.relay.log)) }
    ensures planned { planned hook.new ≡ planned hook.old }
    ensures by_plan { HasAskedByPlan (planned hook.old) (heard hook.old) (asked hook.old) →
        OnOk result (HasAskedByPlan (planned hook.new) (heard hook.new) (asked hook.new)) }
{
    put(&mut run.entries, scribe, Entry::Fired { side, why }, &[]);
    let answer = run.relay.fire(side, why, hook);
    put_all(&mut run.entries, scribe, run.relay.fired());
    answer
}

/// Fires a reason that was taken out of the batch, at a live side whose hook is in its slot.
fn fire_next<S: Scribe>(
    run: &mut Run,
    seats: &mut Seats,
    side: SideId,
    why: Why,
    scribe: &mut S,
) -> Result<(), NoMemory>
    requires live { is_live run.old.relay.state.plain side ≡ true }
    requires entries { 513 ≤ S.spare_entries scribe.old }
    requires room { 512 ≤ run.old.relay.fire_room }
    requires level { length seats.old.gone.items ≡ length seats.old.hooks.items }
    requires taken { is_some (hook_at seats.old.hooks.items (number side)) ≡ true }
    ensures fired { HasFired side why run.old run.new (S.trace scribe.old) (S.trace scribe.new) }
    ensures seat { SeatFired (telling (λ h. heard h) (λ h. asked h) (λ h. planned h)) (is_ok result)
        (is_live run.new.relay.state.plain side) side why run.new.relay.log
        seats.old.hooks.items seats.old.gone.items seats.new.hooks.items seats.new.gone.items }
{
    let mut hook = take_hook(&mut seats.hooks, side);
    let answer = call_hook(run, &mut hook, side, why, scribe);
    let live = run.relay.ctl().live(side);
    put_back(seats, side, hook, live);
    answer
}

/// Makes room for a fire and its entries.
fn make_room<S: Scribe>(relay: &mut Relay, scribe: &mut S) -> Result<(), NoMemory>
    ensures state { relay.new.state ≡ relay.old.state }
    ensures list { Grew (S.trace scribe.old) (S.trace scribe.new) [] }
    ensures room { OnOk result (512 ≤ relay.new.fire_room) }
    ensures entries { OnOk result (513 ≤ S.spare_entries scribe.new) }
{
    scribe.reserve(MOST_ENTRIES, 0)?;
    relay.reserve_fire()
}

/// Fires all that is due as it begins. What becomes due meanwhile waits for the next turn. Where a hook stopped the run, nothing more is
/// fired, and it answers the link of that hook.
pub(crate) fn dispatch<S: Scribe>(
    run: &mut Run,
    agenda: &mut Agenda,
    seats: &mut Seats,
    scribe: &mut S,
) -> Result<TurnEnd, DriveFault>
    requires bare { run.old.relay.state.batch ≡ [] }
    requires stood { (t : Trace) × StandsFor t (Stage.Serving []) run.old.relay.state }
    requires kept { IsKept agenda.old run.old.relay.state }
    requires seated { AreSeated run.old.relay.state seats.old.hooks.items seats.old.gone.items }
    ensures went { MatchResult result
        (λ end. FiredAs (telling (λ h. heard h) (λ h. asked h) (λ h. planned h)) None (EndsDispatch end) run.old run.new
        (S.trace scribe.old) (S.trace scribe.new)
        seats.old.hooks.items seats.old.gone.items seats.new.hooks.items seats.new.gone.items)
        (λ _. FiredBut (telling (λ h. heard h) (λ h. asked h) (λ h. planned h)) CutDispatch run.old run.new (S.trace scribe.old)
        (S.trace scribe.new)
        seats.old.hooks.items seats.old.gone.items seats.new.hooks.items seats.new.gone.items) }
    ensures seated { OnOk result (AreSeated run.new.relay.state seats.new.hooks.items seats.new.gone.items) }
    ensures kept { result ≡ Ok Went → IsKept agenda.new run.new.relay.state }
    ensures names { result ≡ Ok Went → KeepsNames agenda.old run.old.relay.state agenda.new run.new.relay.state }
    ensures cause { OnlyForMemory result }
{
    run.relay.begin_batch();
    while let Some((side, why)) = run.relay.next_due() {
        make_room(&mut run.relay, scribe)?;
        fire_next(run, seats, side, why, scribe)?;
        if run.relay.has_stopped() {
            return Ok(TurnEnd::Stopped(side.link));
        }
        touch_asked(agenda, run.relay.fired(), run.relay.opened());
    }
    Ok(TurnEnd::Went)
}
