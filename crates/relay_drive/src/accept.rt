// Accepting links.
ghost use Rattle.std.specs.Prelude.{◌≡◌, ◌⊎◌, ◌+◌, ◌<◌, ◌≤◌, false, true, if◌then◌else◌, MatchResult, OnOk};
ghost use Rattle.relay_drive.specs.declared.fault.DriveFault.TheVariants.{Memory, OpenFault};
ghost use Rattle.relay_drive.specs.Steps.{Nothing};
ghost use Rattle.relay_drive.specs.Phases.{OpensWhere, AcceptsLinks, AcceptsMore, is_open_fault};
ghost use Rattle.relay_drive.specs.Known.{Point, accepting_if};
ghost use Rattle.relay_drive.specs.Agenda.{IsKept, KeepsNames};
ghost use Rattle.relay_drive.specs.Moves.{Moves, GetsTo, OnlyForMemoryOrListener};

use crate::agenda::Agenda;
use crate::fault::DriveFault;
use crate::run::{Run, put};
use ev_port::{Accepted, Port, Scribe};
use ev_types::Entry;

/// The most links that one turn opens.
const MOST_OPENED: u32 = 64;

/// Accepts a link, if the port has one. It answers whether one was opened.
fn accept_one<P: Port, S: Scribe>(
    run: &mut Run,
    port: &mut P,
    scribe: &mut S,
) -> Result<bool, DriveFault>
    requires { run.old.relay.state.plain.opened < run.old.relay.state.settings.links }
    ensures went { MatchResult result
        (λ more. Moves P.Port S.Scribe Point.Accepting (accepting_if more) false (OpensWhere more)
        (run.old, port.old, scribe.old) (run.new, port.new, scribe.new))
        (λ fault. Moves P.Port S.Scribe Point.Accepting Point.Accepting (is_open_fault fault) Nothing
        (run.old, port.old, scribe.old) (run.new, port.new, scribe.new)) }
    ensures grown { MatchResult result
        (λ more. run.new.relay.state.plain.opened ≡ run.old.relay.state.plain.opened + (if more then 1 else 0))
        (λ _. run.new.relay.state.plain.opened ≡ run.old.relay.state.plain.opened) }
    ensures cause { OnlyForMemoryOrListener result }
{
    run.relay.reserve_link()?;
    scribe.reserve(1, 0)?;
    let link = run.relay.opened();
    match port.accept(link) {
        Accepted::Link { connected } => {
            put(
                &mut run.entries,
                scribe,
                Entry::Opened { link, connected },
                &[],
            );
            run.relay.open(connected);
            Ok(true)
        }
        Accepted::NotYet => Ok(false),
        Accepted::Failed => Err(DriveFault::OpenFault),
        Accepted::NoMemory => Err(DriveFault::Memory),
    }
}

/// Accepts a link, if the port has one, with a place for it made before. It answers whether one was opened.
fn accept_next<P: Port, S: Scribe>(
    run: &mut Run,
    agenda: &mut Agenda,
    port: &mut P,
    scribe: &mut S,
) -> Result<bool, DriveFault>
    requires allowed { run.old.relay.state.plain.opened < run.old.relay.state.settings.links }
    requires kept { IsKept agenda.old run.old.relay.state }
    ensures went { MatchResult result
        (λ more. Moves P.Port S.Scribe Point.Accepting (accepting_if more) false (OpensWhere more)
        (run.old, port.old, scribe.old) (run.new, port.new, scribe.new))
        (λ fault. Moves P.Port S.Scribe Point.Accepting Point.Accepting (is_open_fault fault) Nothing
        (run.old, port.old, scribe.old) (run.new, port.new, scribe.new)) }
    ensures grown { MatchResult result
        (λ more. run.new.relay.state.plain.opened ≡ run.old.relay.state.plain.opened + (if more then 1 else 0))
        (λ _. run.new.relay.state.plain.opened ≡ run.old.relay.state.plain.opened) }
    ensures cause { OnlyForMemoryOrListener result }
    ensures kept { OnOk result (IsKept agenda.new run.new.relay.state) }
    ensures names { OnOk result (KeepsNames agenda.old run.old.relay.state agenda.new run.new.relay.state) }
{
    agenda.cover(run.relay.opened())?;
    accept_one(run, port, scribe)
}

/// Accepts links until the port has none, 64 were opened or no more are allowed.
pub(crate) fn accept<P: Port, S: Scribe>(
    run: &mut Run,
    agenda: &mut Agenda,
    port: &mut P,
    scribe: &mut S,
) -> Result<(), DriveFault>
    requires { IsKept agenda.old run.old.relay.state }
    ensures went { GetsTo P.Port S.Scribe result Point.Begun Point.Accepted (λ _. AcceptsLinks) (λ _. AcceptsMore)
        (run.old, port.old, scribe.old) (run.new, port.new, scribe.new) }
    ensures grown { run.old.relay.state.plain.opened ≤ run.new.relay.state.plain.opened }
    ensures cause { OnlyForMemoryOrListener result }
    ensures kept { OnOk result (IsKept agenda.new run.new.relay.state) }
    ensures names { OnOk result (KeepsNames agenda.old run.old.relay.state agenda.new run.new.relay.state) }
{
    for _ in 0..MOST_OPENED {
        if !run.relay.can_open() {
            return Ok(());
        }
        if !accept_next(run, agenda, port, scribe)? {
            return Ok(());
        }
    }
    Ok(())
}
