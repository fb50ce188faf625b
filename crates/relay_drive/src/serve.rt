// Serving the marked sides, in their order.
ghost use Rattle.std.specs.Prelude.{◌≡◌, ◌<◌, vec_len, OnOk};
ghost use Rattle.relay_drive.specs.Steps.{Nothing, Each, CutAt};
ghost use Rattle.relay_drive.specs.Phases.{ReadsSide, WritesSide, ConnectsSide, ServesSide, CutServing, AllOpened};
ghost use Rattle.relay_model.specs.Rooms.{is_connecting};
ghost use Rattle.relay_drive.specs.Agenda.{IsKept, KeepsNames};
ghost use Rattle.relay_drive.specs.Moves.{Does, OnlyForMemory};

use crate::agenda::Agenda;
use crate::ask::{ask_connect, ask_read, ask_write};
use crate::fault::DriveFault;
use crate::run::Run;
use ev_port::{Port, Scribe, Want};
use ev_types::SideId;
use relay_core::Relay;

/// Reads a side once, where it is marked for that and has room.
fn read_side<P: Port, S: Scribe>(
    run: &mut Run,
    want: Want,
    inbox: &mut Vec<u8>,
    port: &mut P,
    scribe: &mut S,
) -> Result<(), DriveFault>
    requires opened { want.side.link < run.old.relay.state.plain.opened }
    requires inbox { vec_len inbox.old ≡ 16384 }
    ensures went { Does P.Port S.Scribe result (λ _. ReadsSide want.side want.can_read) Nothing
        (run.old, port.old, scribe.old) (run.new, port.new, scribe.new) }
    ensures kept { run.new.relay.state.plain.opened ≡ run.old.relay.state.plain.opened }
    ensures cause { OnlyForMemory result }
    ensures inbox { vec_len inbox.new ≡ 16384 }
{
    if !want.can_read {
        return Ok(());
    }
    let room = run.relay.read_room(want.side);
    if room == 0 {
        return Ok(());
    }
    ask_read(run, want.side, inbox, room, port, scribe)?;
    Ok(())
}

/// Gives a side what waits for it, where it is marked for that and has room.
fn write_side<P: Port, S: Scribe>(
    run: &mut Run,
    want: Want,
    port: &mut P,
    scribe: &mut S,
) -> Result<(), DriveFault>
    requires opened { want.side.link < run.old.relay.state.plain.opened }
    ensures went { Does P.Port S.Scribe result (λ _. WritesSide want.side want.can_write) Nothing
        (run.old, port.old, scribe.old) (run.new, port.new, scribe.new) }
    ensures kept { run.new.relay.state.plain.opened ≡ run.old.relay.state.plain.opened }
    ensures cause { OnlyForMemory result }
{
    if !want.can_write {
        return Ok(());
    }
    ask_write(run, want.side, port, scribe)
}

/// Asks for the state of a connecting side, where it is marked for writing.
fn connect_side<P: Port, S: Scribe>(
    run: &mut Run,
    want: Want,
    port: &mut P,
    scribe: &mut S,
) -> Result<(), DriveFault>
    requires opened { want.side.link < run.old.relay.state.plain.opened }
    ensures went { Does P.Port S.Scribe result (λ _. ConnectsSide want.side want.can_write) Nothing
        (run.old, port.old, scribe.old) (run.new, port.new, scribe.new) }
    ensures kept { run.new.relay.state.plain.opened ≡ run.old.relay.state.plain.opened }
    ensures cause { OnlyForMemory result }
{
    if !want.can_write {
        return Ok(());
    }
    ask_connect(run, want.side, port, scribe)?;
    Ok(())
}

/// Whether a live side is not known to be connected.
fn is_connecting(relay: &Relay, side: SideId) -> bool
    requires { side.link < relay.now.state.plain.opened }
    ensures { result ≡ is_connecting relay.now.state.plain side }
{
    let flags = relay.sides().flags(side);
    flags.live && flags.connecting
}

/// Serves one side, as it is marked.
fn serve_side<P: Port, S: Scribe>(
    run: &mut Run,
    want: Want,
    inbox: &mut Vec<u8>,
    port: &mut P,
    scribe: &mut S,
) -> Result<(), DriveFault>
    requires opened { want.side.link < run.old.relay.state.plain.opened }
    requires inbox { vec_len inbox.old ≡ 16384 }
    ensures went { Does P.Port S.Scribe result (λ _. ServesSide want) (CutServing want)
        (run.old, port.old, scribe.old) (run.new, port.new, scribe.new) }
    ensures kept { run.new.relay.state.plain.opened ≡ run.old.relay.state.plain.opened }
    ensures cause { OnlyForMemory result }
    ensures inbox { vec_len inbox.new ≡ 16384 }
{
    if is_connecting(&run.relay, want.side) {
        return connect_side(run, want, port, scribe);
    }
    read_side(run, want, inbox, port, scribe)?;
    write_side(run, want, port, scribe)
}

/// Serves one side, as it is marked. Something may have changed at its link.
fn serve_next<P: Port, S: Scribe>(
    run: &mut Run,
    agenda: &mut Agenda,
    want: Want,
    inbox: &mut Vec<u8>,
    port: &mut P,
    scribe: &mut S,
) -> Result<(), DriveFault>
    requires opened { want.side.link < run.old.relay.state.plain.opened }
    requires inbox { vec_len inbox.old ≡ 16384 }
    requires kept { IsKept agenda.old run.old.relay.state }
    ensures went { Does P.Port S.Scribe result (λ _. ServesSide want) (CutServing want)
        (run.old, port.old, scribe.old) (run.new, port.new, scribe.new) }
    ensures opened { run.new.relay.state.plain.opened ≡ run.old.relay.state.plain.opened }
    ensures cause { OnlyForMemory result }
    ensures kept { OnOk result (IsKept agenda.new run.new.relay.state) }
    ensures names { OnOk result (KeepsNames agenda.old run.old.relay.state agenda.new run.new.relay.state) }
    ensures inbox { vec_len inbox.new ≡ 16384 }
{
    serve_side(run, want, inbox, port, scribe)?;
    agenda.touch(want.side.link);
    Ok(())
}

/// Serves the marked sides, in their order.
pub(crate) fn serve<P: Port, S: Scribe>(
    run: &mut Run,
    agenda: &mut Agenda,
    wants: &[Want],
    inbox: &mut Vec<u8>,
    port: &mut P,
    scribe: &mut S,
) -> Result<(), DriveFault>
    requires opened { AllOpened wants.now run.old.relay.state.plain.opened }
    requires inbox { vec_len inbox.old ≡ 16384 }
    requires kept { IsKept agenda.old run.old.relay.state }
    ensures went { Does P.Port S.Scribe result (λ _. Each ServesSide wants.now) (CutAt ServesSide CutServing wants.now)
        (run.old, port.old, scribe.old) (run.new, port.new, scribe.new) }
    ensures opened { run.new.relay.state.plain.opened ≡ run.old.relay.state.plain.opened }
    ensures cause { OnlyForMemory result }
    ensures kept { OnOk result (IsKept agenda.new run.new.relay.state) }
    ensures names { OnOk result (KeepsNames agenda.old run.old.relay.state agenda.new run.new.relay.state) }
    ensures inbox { vec_len inbox.new ≡ 16384 }
{
    for want in wants {
        serve_next(run, agenda, *want, inbox, port, scribe)?;
    }
    Ok(())
}
