// The generated run: its script, its turns with closing turns behind them, and what is told of it.
ghost use Rattle.std.specs.Prelude.{◌≡◌, ◌≤◌, ◌⊎◌, [], Err, IfOk, IfErr};
ghost use Rattle.big_script.specs.BigScript.{big_script_of};
ghost use Rattle.relay_core.specs.GivenGroups.{AreGroups, settings_given};
ghost use Rattle.relay_drive.specs.declared.fault.DriveFault.TheVariants.{Memory};
ghost use Rattle.relay_drive.specs.Seats.{AreFresh};
ghost use Rattle.relay_laws.specs.Report.{lines_below};
ghost use Rattle.evplay.specs.Big.{summary_text, IsBigText, no_hooks};
ghost use Rattle.evplay.specs.Headline.{settings_on};
ghost use Rattle.evplay.specs.Run.{MayRun};

use crate::closing::closing_step;
use crate::run::{RunEnd, take_groups};
use crate::summary::summary;
use crate::turns::make_turns;
use big_script::big_script;
use command_words::Ending;
use ev_types::Settings;
use program_end::link_lines;
use relay_drive::{Drive, DriveFault, RateGroups, Seats};
use script_port::ScriptPort;
use std::alloc::Global;
use sum_scribe::SumScribe;

/// What is told of a run of the generated script of so many links.
pub(crate) fn big(alloc: Global, links: u32) -> Result<Vec<u8>, DriveFault>
    requires few { links ≤ 64 }
    ensures text { IfOk result (λ text. IsBigText links text.items) }
    ensures only_memory { IfErr result (λ fault. fault ≡ Memory) }
{
    let mut script = big_script(alloc, links)?;
    let given = take_groups(alloc, &mut script);
    let turns = script.turns.len();
    let settings = script.settings;
    let mut seats = Seats::new(alloc, Vec::new(alloc))?;
    let mut port = ScriptPort::new(alloc, script)?;
    big_over(alloc, links, turns, settings, given, &mut seats, &mut port)
}

/// What is told of the run over a port that has not begun.
fn big_over(
    alloc: Global,
    links: u32,
    turns: usize,
    settings: Settings,
    given: RateGroups,
    seats: &mut Seats,
    port: &mut ScriptPort,
) -> Result<Vec<u8>, DriveFault>
    requires groups { AreGroups given }
    requires no_hooks { seats.old.hooks.items ≡ [] }
    requires fresh { AreFresh seats.old.hooks.items seats.old.gone.items }
    requires script { port.old.turns ≡ (big_script_of links).turns }
    requires settings { settings_given settings given [] ≡ settings_on (big_script_of links) no_hooks }
    requires may_run { MayRun turns (settings_given settings given []) port.old }
    ensures text { IfOk result (λ text. IsBigText links text.items) }
    ensures only_memory { IfErr result (λ fault. fault ≡ Memory) }
{
    let step = closing_step(&settings, &given);
    let mut drive = Drive::new(alloc, settings, given, seats)?;
    let mut scribe = SumScribe::new();
    let ended = make_turns(
        turns,
        Ending::Drained,
        step,
        seats,
        &mut drive,
        port,
        &mut scribe,
    );
    told_of(alloc, links, ended, &scribe, &drive)
}

/// What is told of a run that ended so, or why it was refused.
fn told_of(
    alloc: Global,
    links: u32,
    ended: Result<RunEnd, DriveFault>,
    scribe: &SumScribe,
    drive: &Drive,
) -> Result<Vec<u8>, DriveFault>
    ensures text { IfOk result (λ text. IfErr ended (λ _. ⊥)
        × (text.items ≡ summary_text links scribe.now.trace (lines_below drive.now.state drive.now.state.plain.opened))) }
    ensures refused { IfErr result (λ fault. (fault ≡ Memory) ⊎ (ended ≡ Err fault)) }
{
    ended?;
    let lines = link_lines(alloc, drive)?;
    Ok(summary(alloc, links, scribe, &lines)?.into_bytes())
}
