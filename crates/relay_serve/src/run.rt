// A run over a port: it is started once, and turns are made until all links were opened and none is open, or a hook stops one.
ghost use Rattle.std.specs.Prelude.{◌≡◌, ◌≢◌, ◌||◌, not, nat_lt, true, false, Ok};
ghost use Rattle.ev_types.specs.declared.status.Status.TheVariants.{WriteFault};
ghost use Rattle.relay_drive.specs.Seats.{telling, seated_sides, AreFresh, AreSeated};
ghost use Rattle.relay_serve.specs.Seen.{seen, drained, WasStopped};
ghost use Rattle.relay_serve.specs.Served.{Did, AskedByPlans};
ghost use Rattle.relay_serve.specs.Underway.{TurnsGo, RanTo, PortRests, is_served_out, ended_as, groupless_drive};

use crate::report::report;
use ev_port::{Port, Scribe, Sink, Started};
use ev_types::{Route, Settings, Status};
use relay_drive::{Drive, DriveFault, Hook, RateGroups, Seats, TurnEnd};
use std::alloc::Global;
use std::sync::Wait;

/// How the turns of a run ended that was not refused.
///
/// Own.
#[derive(Clone, Copy, Debug, PartialEq, Eq)]
pub enum ServeEnd {
    /// As many links were opened as may be, and none is open.
    ServedOut,
    /// A hook of this link stopped the turn of this number, counted from 1 up to the end of a u32.
    Stopped(u32, u32),
}

/// Whether as many links were opened as may be, and none is open.
fn is_served_out(settings: &Settings, drive: &Drive) -> bool
    ensures { result ≡ is_served_out drive.now.state settings.now.links }
{
    drive.opened() == settings.links && !drive.has_open_links()
}

/// Says to the port that no more links will be asked for, once as many were opened as may be.
fn stop_accepting<P: Port>(settings: &Settings, drive: &Drive, told: &mut bool, port: &mut P)
    ensures told { told.new ≡ (told.old || not (nat_lt drive.now.state.plain.opened settings.now.links)) }
    ensures stops { nat_lt drive.now.state.plain.opened settings.now.links ≡ false → told.old ≡ false → P.stops port.old port.new }
    ensures rests { PortRests P.Port port.old port.new }

    // Not before that, and once.
    ensures later { nat_lt drive.now.state.plain.opened settings.now.links ≡ true → port.new ≡ port.old }
    ensures once { told.old ≡ true → port.new ≡ port.old }
{
    if drive.opened() >= settings.links && !*told {
        port.stop_accepting();
        *told = true;
    }
}

/// Makes turns until so many links were opened as the settings allow and none is open, or a hook stops one.
fn make_turns<R: Wait, P: Port, S: Scribe>(
    rt: &R,
    settings: &Settings,
    drive: &mut Drive,
    seats: &mut Seats,
    port: &mut P,
    scribe: &mut S,
) -> Result<ServeEnd, DriveFault>
    requires new_drive { drive.old ≡ groupless_drive settings.now (seated_sides seats.old.hooks.items) }
    requires seated { AreSeated drive.old.state seats.old.hooks.items seats.old.gone.items }
    requires fresh { AreFresh seats.old.hooks.items seats.old.gone.items }
    ensures went { TurnsGo P.Port S.Scribe result (drive.old, port.old, scribe.old) (drive.new, port.new, scribe.new) }
    ensures stopped { result ≡ Ok ServeEnd.ServedOut → WasStopped P.Port }
    ensures asked { AskedByPlans
        (telling (λ h. heard (h.vtable, h.value)) (λ h. asked (h.vtable, h.value)) (λ h. planned (h.vtable, h.value)))
        (ended_as result) seats.old.hooks.items (S.trace scribe.old) (S.trace scribe.new) }
{
    let mut turns = 0u32;
    let mut told = false;
    for _ in rt.forever() {
        stop_accepting(settings, drive, &mut told, port);
        if is_served_out(settings, drive) {
            return Ok(ServeEnd::ServedOut);
        }
        turns = turns.saturating_add(1);
        match drive.turn(seats, port, scribe) {
            Ok(TurnEnd::Went) => {}
            Ok(TurnEnd::Stopped(link)) => return Ok(ServeEnd::Stopped(link, turns)),
            Err(fault) => return Err(fault),
        }
    }
    unreachable!()
}

/// Starts the port, and makes the turns.
fn run<R: Wait, P: Port, S: Scribe>(
    rt: &R,
    route: &Route,
    drive: &mut Drive,
    seats: &mut Seats,
    port: &mut P,
    scribe: &mut S,
) -> Result<ServeEnd, DriveFault>
    requires new_drive { drive.old ≡ groupless_drive route.now.settings (seated_sides seats.old.hooks.items) }
    requires seated { AreSeated drive.old.state seats.old.hooks.items seats.old.gone.items }
    requires fresh { AreFresh seats.old.hooks.items seats.old.gone.items }
    ensures ran { RanTo route.now (seated_sides seats.old.hooks.items) (ended_as result) (seen P.Port S.Scribe (port.old, scribe.old))
        (seen P.Port S.Scribe (port.new, scribe.new)) drive.new.state }
    ensures stopped { result ≡ Ok ServeEnd.ServedOut → WasStopped P.Port }
    ensures asked { AskedByPlans
        (telling (λ h. heard (h.vtable, h.value)) (λ h. asked (h.vtable, h.value)) (λ h. planned (h.vtable, h.value)))
        (ended_as result) seats.old.hooks.items (S.trace scribe.old) (S.trace scribe.new) }
{
    match port.start(route.listen, route.to) {
        Started::Started => make_turns(rt, &route.settings, drive, seats, port, scribe),
        Started::Failed => Err(DriveFault::OpenFault),
        Started::NoMemory => Err(DriveFault::Memory),
    }
}

/// Relays with the hooks in these seats, of which none was called.
fn relay_seated<R: Wait, P: Port, S: Scribe, K: Sink>(
    rt: &R,
    alloc: Global,
    route: &Route,
    seats: &mut Seats,
    port: &mut P,
    scribe: &mut S,
    sink: &mut K,
) -> Status
    requires fresh { AreFresh seats.old.hooks.items seats.old.gone.items }
    ensures did { Did route.now (seated_sides seats.old.hooks.items) result (seen P.Port S.Scribe (port.old, scribe.old))
        (seen P.Port S.Scribe (port.new, scribe.new)) (drained K.Sink sink.old) (drained K.Sink sink.new) }
    ensures stopped { result ≡ Status.Ok → WasStopped P.Port }
    ensures asked { AskedByPlans
        (telling (λ h. heard (h.vtable, h.value)) (λ h. asked (h.vtable, h.value)) (λ h. planned (h.vtable, h.value)))
        result seats.old.hooks.items (S.trace scribe.old) (S.trace scribe.new) }
    ensures write_calm { result ≢ WriteFault → K.faults sink.new ≡ K.faults sink.old }
    ensures unwritten { result ≡ Status.Memory → sink.new ≡ sink.old }
{
    let groups = RateGroups::none(alloc);
    let Ok(mut drive) = Drive::new(alloc, route.settings, groups, seats) else {
        return Status::Memory;
    };
    let ended = run(rt, route, &mut drive, seats, port, scribe);
    report(alloc, ended, &drive, sink)
}

/// Relays over a port: starts it once, makes turns until so many links were opened as the settings allow and none is open, and writes
/// the report. Once all links were opened it says to the port that no more will be asked for. A hook in place i of the list is that of
/// the side with the number i: side In of link 0 has 0, side Out of it 1, and so on. One that stops the run, a failed start, a failed
/// poll or accept, and counts that came to 2^62 end the run, and the report is written all the same; want of memory ends it with nothing
/// written. It may never return. Between two turns constant cost until all links were opened; before the first, linear in the hooks.
///
/// Own.
pub fn relay<R: Wait, P: Port, S: Scribe, K: Sink>(
    rt: &R,
    alloc: Global,
    route: &Route,
    hooks: Vec<Option<Box<dyn Hook>>>,
    port: &mut P,
    scribe: &mut S,
    sink: &mut K,
) -> Status
    ensures did { Did route.now (seated_sides hooks.items) result (seen P.Port S.Scribe (port.old, scribe.old))
        (seen P.Port S.Scribe (port.new, scribe.new)) (drained K.Sink sink.old) (drained K.Sink sink.new) }

    // Where all was served the port was told that no more links will be asked for.
    ensures stopped { result ≡ Status.Ok → WasStopped P.Port }

    // Hooks that tell plans asked what those have, by the entries that the scribe was given; but where memory ran out, a last fire may
    // have been cut off in which its hook asked anything.
    ensures asked { AskedByPlans (telling (λ h. heard h) (λ h. asked h) (λ h. planned h)) result hooks.items (S.trace scribe.old)
        (S.trace scribe.new) }
    ensures write_calm { result ≢ WriteFault → K.faults sink.new ≡ K.faults sink.old }
    ensures unwritten { result ≡ Status.Memory → sink.new ≡ sink.old }
{
    let Ok(mut seats) = Seats::new(alloc, hooks) else {
        return Status::Memory;
    };
    relay_seated(rt, alloc, route, &mut seats, port, scribe, sink)
}
