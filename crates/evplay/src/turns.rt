// The turns of a run over a port that answers by a script: one for each turn of the script, and closing turns behind them.
ghost use Rattle.std.specs.Prelude.{◌≡◌, ℕ, [], Ok, Some, IfOk, IfErr, IsSomeAnd, List};
ghost use Rattle.ev_types.specs.declared.plan_line.PlanLine.{PlanLine};
ghost use Rattle.ev_types.specs.declared.side.SideId.{SideId};
ghost use Rattle.relay_model.specs.Script.{closing_step};
ghost use Rattle.relay_drive.specs.declared.fault.DriveFault.TheVariants.{Memory};
ghost use Rattle.relay_drive.specs.Seats.{telling, AreFresh, AreSeated};
ghost use Rattle.relay_laws.specs.Report.{lines_below};
ghost use Rattle.program_end.specs.Planned.{HavePlans};
ghost use Rattle.script_port.specs.ScriptPlan.{first_plan};
ghost use Rattle.script_text.specs.Script.{ScriptValue};
ghost use Rattle.evplay.specs.HandedIn.{HandedIn, HasSeats};
ghost use Rattle.evplay.specs.Headline.{settings_on, IsRun};
ghost use Rattle.evplay.specs.Run.{answer_of, first_drive, refused_by, script_over, MayRun, TellsTurn};
ghost use Rattle.evplay.specs.CameTo.{CameTo, ToldTo};

use crate::closing::make_closing_turns;
use crate::run::RunEnd;
use command_words::Ending;
use ev_port::Scribe;
use relay_drive::{Drive, DriveFault, Seats, TurnEnd};
use script_port::ScriptPort;

/// Makes a turn for each of the script, and closing turns behind them where the run is to drain its links; or up to one whose poll fails or
/// which a hook ends.
pub(crate) fn make_turns<S: Scribe>(
    turns: usize,
    how: Ending,
    step: u64,
    seats: &mut Seats,
    drive: &mut Drive,
    port: &mut ScriptPort,
    scribe: &mut S,
) -> Result<RunEnd, DriveFault>
    requires may_run { MayRun turns drive.old.state.settings port.old }
    requires first { drive.old ≡ first_drive drive.old.state.settings }
    requires step { step ≡ closing_step drive.old.state.settings }
    requires fresh { AreFresh seats.old.hooks.items seats.old.gone.items }
    requires seated { AreSeated drive.old.state seats.old.hooks.items seats.old.gone.items }
    requires no_trace { S.trace scribe.old ≡ Some [] }

    // It is a run of every script with these settings and turns, and with what is planned for these hooks.
    ensures made { (script : ScriptValue) (handed : HandedIn) → drive.old.state.settings ≡ settings_on script handed →
        HasSeats seats.old.hooks.items (telling (λ h. heard (h.vtable, h.value)) (λ h. asked (h.vtable, h.value))
        (λ h. planned (h.vtable, h.value))) script.plans handed →
        IfOk result (λ end. IsSomeAnd (S.trace scribe.new) (λ t. IsRun (script_over script port.old) how handed (answer_of end) t
        (lines_below drive.new.state drive.new.state.plain.opened) × TellsTurn end t)) }
    ensures only_memory { IfErr result (λ fault. fault ≡ Memory) }
{
    let end = make_script_turns(turns, seats, drive, port, scribe)?;
    match (how, end) {
        (Ending::Drained, RunEnd::Went) => {
            make_closing_turns(turns, step, seats, drive, port, scribe)
        }
        _ => Ok(end),
    }
}

/// Makes a turn for each of the script, or up to one whose poll fails or which a hook ends.
fn make_script_turns<S: Scribe>(
    turns: usize,
    seats: &mut Seats,
    drive: &mut Drive,
    port: &mut ScriptPort,
    scribe: &mut S,
) -> Result<RunEnd, DriveFault>
    requires may_run { MayRun turns drive.old.state.settings port.old }
    requires first { drive.old ≡ first_drive drive.old.state.settings }
    requires fresh { AreFresh seats.old.hooks.items seats.old.gone.items }
    requires seated { AreSeated drive.old.state seats.old.hooks.items seats.old.gone.items }
    requires no_trace { S.trace scribe.old ≡ Some [] }

    // By each step that closing turns might have, it came there.
    ensures came { (step : ℕ) → IfOk result (λ end. IsSomeAnd (S.trace scribe.new) (λ t. CameTo drive.old.state.settings turns end
        (first_plan port.old.turns step) drive.new port.new t × TellsTurn end t)) }
    ensures seated { result ≡ Ok RunEnd.Went → AreSeated drive.new.state seats.new.hooks.items seats.new.gone.items }
    ensures told { (plan : SideId → List PlanLine) → HavePlans (telling (λ h. heard (h.vtable, h.value)) (λ h. asked (h.vtable, h.value))
        (λ h. planned (h.vtable, h.value))) plan seats.old.hooks.items →
        IfOk result (λ end. IsSomeAnd (S.trace scribe.new) (ToldTo (telling (λ h. heard (h.vtable, h.value)) (λ h. asked (
          h.vtable,
          h.value,
        ))
        (λ h. planned (h.vtable, h.value))) end plan seats.new.hooks.items seats.new.gone.items)) }
    ensures only_memory { IfErr result (λ fault. fault ≡ Memory) }
{
    for turn in 0..turns {
        match drive.turn(seats, port, scribe) {
            Ok(TurnEnd::Went) => {}
            Ok(TurnEnd::Stopped(link)) => return Ok(RunEnd::Stopped(link, turn as u32 + 1)),
            Err(fault) => return end_by(fault),
        }
    }
    Ok(RunEnd::Went)
}

/// A run ends with a failed poll, and every other refusal of a turn is one of the run.
pub(crate) fn end_by(fault: DriveFault) -> Result<RunEnd, DriveFault>
    ensures { result ≡ refused_by fault }
{
    match fault {
        DriveFault::PollFault => Ok(RunEnd::PollFailed),
        DriveFault::Memory | DriveFault::OpenFault | DriveFault::Spent => Err(fault),
    }
}
