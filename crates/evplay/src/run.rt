// Makes the turns of a script over a port that answers by it, and gives the text of what happened.
ghost use Rattle.std.specs.Prelude.{◌≡◌, ◌<◌, ◌⊎◌, [], Ok, Some, IfOk, IfErr, IsSomeAnd};
ghost use Rattle.std.specs.List.{All};
ghost use Rattle.ev_types.specs.ScriptTurn.{lines_of};
ghost use Rattle.ev_types.specs.Sides.{number};
ghost use Rattle.relay_model.specs.Called.{NamesOpened};
ghost use Rattle.relay_model.specs.Script.{closing_step};
ghost use Rattle.relay_model.specs.Settings.{HoldsSome};
ghost use Rattle.relay_core.specs.GivenGroups.{AreGroups, settings_given};
ghost use Rattle.relay_drive.specs.declared.fault.DriveFault.TheVariants.{Memory};
ghost use Rattle.relay_drive.specs.Seats.{telling, seated_sides, AreFresh, AreSeated};
ghost use Rattle.relay_laws.specs.Report.{lines_below};
ghost use Rattle.relay_laws.specs.Spelling.{BringsFit, TimeoutsFit};
ghost use Rattle.script_text.specs.GroupsAreSet.{GroupsAreSet};
ghost use Rattle.script_text.specs.Script.{ScriptValue};
ghost use Rattle.drain_laws.specs.CanDrain.{NoneBehind};
ghost use Rattle.program_end.specs.Planned.{IsFresh};
ghost use Rattle.evplay.specs.HandedIn.{HandedIn, handed_in, HasSeats};
ghost use Rattle.evplay.specs.Headline.{settings_of, settings_on, IsRun};
ghost use Rattle.evplay.specs.Play.{IsRunText, run_text};
ghost use Rattle.evplay.specs.Run.{answer_of, ended_as, first_drive, script_over, AreSmall, MayRun, TellsTurn};

use crate::closing::closing_step;
use crate::hooks::attach;
use crate::turns::make_turns;
use command_words::Ending;
use ev_types::{NoMemory, Settings, Status};
use program_end::link_lines;
use relay_drive::{Drive, DriveFault, Hook, RateGroups, Seats};
use script_port::ScriptPort;
use script_text::{Script, write_report};
use std::alloc::Global;
use std::mem;
use text_scribe::TextScribe;

/// How the turns of a run ended.
///
/// Own.
#[derive(Clone, Copy, Debug, PartialEq, Eq)]
pub enum RunEnd {
    /// All of them were made.
    Went,
    /// A poll failed.
    PollFailed,
    /// A hook of this link stopped the run in this turn, counted from 1; one above 2^32 - 1 is told as that number.
    Stopped(u32, u32),
}

impl RunEnd {
    /// How the program ends after such a run.
    pub fn status(self) -> Status
        ensures { result ≡ ended_as self }
    {
        match self {
            RunEnd::Went => Status::Ok,
            RunEnd::PollFailed => Status::PollFault,
            RunEnd::Stopped(link, turn) => Status::Stopped(link, turn),
        }
    }
}

/// The text of the trace and of the report of a run, one turn for each of the script and, where it drains its links, closing turns behind
/// them; or up to a failed poll or to a stop. A hook that was handed in for a side gets what the script plans for that side; it is let go
/// where that is nothing.
pub fn run(
    alloc: Global,
    script: Script,
    how: Ending,
    hooks: Vec<Box<dyn Hook>>,
) -> Result<(Vec<u8>, RunEnd), DriveFault>
    requires small { AreSmall script.turns }
    requires names { NamesOpened 0 (lines_of script.turns) }
    requires ordered { NoneBehind (lines_of script.turns) }
    requires brings { BringsFit script.turns }
    requires links { script.settings.links ≡ 256 }
    requires timeouts { TimeoutsFit (settings_of script) }
    requires holds { HoldsSome (settings_of script) }
    requires planned { All (λ x. number x.0 < 64) script.plans }
    requires groups { GroupsAreSet script.groups script.members }
    requires fresh { All (IsFresh (telling (λ h. heard h) (λ h. asked h) (λ h. planned h))) hooks.items }
    ensures text { IfOk result (λ ran. IsRunText script how
        (handed_in (telling (λ h. heard h) (λ h. asked h) (λ h. planned h)) hooks.items) ran.1 ran.0.items) }
    ensures only_memory { IfErr result (λ fault. fault ≡ Memory) }
{
    let mut script = script;
    let given = take_groups(alloc, &mut script);
    let turns = script.turns.len();
    let settings = script.settings;
    let mut seats = Seats::new(alloc, attach(alloc, &script.plans, hooks)?)?;
    let mut port = ScriptPort::new(alloc, script)?;
    run_over(alloc, turns, how, settings, given, &mut seats, &mut port)
}

/// Takes the groups of a script out of it. The port has no use for them.
pub(crate) fn take_groups(alloc: Global, script: &mut Script) -> RateGroups
    ensures groups { result.groups.items ≡ script.old.groups }
    ensures in_group { result.in_group ≡ script.old.members.in_group }
    ensures out_group { result.out_group ≡ script.old.members.out_group }
    ensures rest { script.new ≡ record script.old { groups = [] } }
{
    RateGroups {
        groups: mem::replace(&mut script.groups, Vec::new(alloc)),
        in_group: script.members.in_group,
        out_group: script.members.out_group,
    }
}

/// The text of a run over a port that has not begun, with hooks of which none was called.
fn run_over(
    alloc: Global,
    turns: usize,
    how: Ending,
    settings: Settings,
    given: RateGroups,
    seats: &mut Seats,
    port: &mut ScriptPort,
) -> Result<(Vec<u8>, RunEnd), DriveFault>
    requires groups { AreGroups given }
    requires may_run { MayRun turns (settings_given settings given (seated_sides seats.old.hooks.items)) port.old }
    requires fresh { AreFresh seats.old.hooks.items seats.old.gone.items }
    ensures text { (script : ScriptValue) (handed : HandedIn) →
        settings_given settings given (seated_sides seats.old.hooks.items) ≡ settings_on script handed →
        HasSeats seats.old.hooks.items (telling (λ h. heard (h.vtable, h.value)) (λ h. asked (h.vtable, h.value))
        (λ h. planned (h.vtable, h.value))) script.plans handed →
        IfOk result (λ ran. IsRunText (script_over script port.old) how handed ran.1 ran.0.items) }
    ensures only_memory { IfErr result (λ fault. fault ≡ Memory) }
{
    let step = closing_step(&settings, &given);
    let mut drive = Drive::new(alloc, settings, given, seats)?;
    let mut scribe = TextScribe::new(alloc);
    let ended = make_turns(turns, how, step, seats, &mut drive, port, &mut scribe);
    text_of(alloc, ended, scribe, &drive)
}

/// The text of a run that ended so, or why it was refused.
fn text_of(
    alloc: Global,
    ended: Result<RunEnd, DriveFault>,
    scribe: TextScribe,
    drive: &Drive,
) -> Result<(Vec<u8>, RunEnd), DriveFault>
    ensures text { IfOk result (λ ran. (ended ≡ Ok ran.1)
        × (ran.0.items ≡ run_text scribe.trace (lines_below drive.now.state drive.now.state.plain.opened))) }
    ensures refused { IfErr result (λ fault. (fault ≡ Memory) ⊎ (ended ≡ Err fault)) }
{
    let end = ended?;
    Ok((written(alloc, scribe, drive)?, end))
}

/// The text of a trace, and of the report of the drive that made it.
fn written(alloc: Global, scribe: TextScribe, drive: &Drive) -> Result<Vec<u8>, NoMemory>
    ensures { IfOk result (λ text. text.items ≡ run_text scribe.trace (lines_below drive.now.state drive.now.state.plain.opened)) }
{
    let links = link_lines(alloc, drive)?;
    let mut text = scribe.into_text();
    write_report(&links, &mut text)?;
    Ok(text)
}
