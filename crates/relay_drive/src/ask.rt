// One call of the port for one side, with room made before for all that it may bring.
ghost use Rattle.std.specs.Prelude.{◌≡◌, ◌<◌, ◌≤◌, true, false, length, vec_len};
ghost use Rattle.relay_state.specs.Rooms.{read_room};
ghost use Rattle.relay_drive.specs.declared.fault.DriveFault.TheVariants.{Memory};
ghost use Rattle.relay_drive.specs.Steps.{Nothing};
ghost use Rattle.relay_drive.specs.Calls.{Checks, ReadsSome, is_memory};
ghost use Rattle.relay_drive.specs.Phases.{WritesSide};
ghost use Rattle.ev_port.specs.Ends.{ReadWithin, got_bytes, WriteWithin, took_bytes};
ghost use Rattle.relay_drive.specs.Moves.{Does, OnlyForMemory};

use crate::fault::DriveFault;
use crate::run::{Run, put};
use ev_port::{Port, Scribe};
use ev_types::{ConnAnswer, Entry, ReadAnswer, SideId, WriteAnswer};

/// Reads so many bytes from the side's end, which is no more than may be read. They come into the front of a block, for which the relay
/// may give another that is as long.
pub(crate) fn ask_read<P: Port, S: Scribe>(
    run: &mut Run,
    side: SideId,
    inbox: &mut Vec<u8>,
    room: usize,
    port: &mut P,
    scribe: &mut S,
) -> Result<ReadAnswer, DriveFault>
    requires opened { side.link < run.old.relay.state.plain.opened }
    requires some { 0 < room }
    requires inbox { room ≤ vec_len inbox.old }
    requires within { room ≤ read_room run.old.relay.state side }
    ensures went { Does P.Port S.Scribe result (λ answer. ReadsSome side answer room) Nothing
        (run.old, port.old, scribe.old) (run.new, port.new, scribe.new) }
    ensures cause { OnlyForMemory result }
    ensures inbox { vec_len inbox.new ≡ vec_len inbox.old }
{
    run.relay.reserve_read(side, room)?;
    scribe.reserve(1, room)?;
    let (into, _) = inbox.as_mut_slice().split_at_mut(room);
    let answer = port.read(side, into);
    let entry = Entry::Read {
        side,
        room: room as u64,
        answer,
    };
    put(&mut run.entries, scribe, entry, bytes_got(answer, into));
    run.relay.read_answered(side, answer, inbox);
    Ok(answer)
}

/// The bytes that a read put in front of the slice.
fn bytes_got(answer: ReadAnswer, into: &[u8]) -> &[u8]
    requires { ReadWithin answer (length into.now) }
    ensures { result.now ≡ got_bytes answer into.now }
{
    let count = match answer {
        ReadAnswer::Got(count) => count,
        _ => 0,
    };
    let (bytes, _) = into.split_at(count);
    bytes
}

/// Gives the side's end what is offered to it now, if that is something.
pub(crate) fn ask_write<P: Port, S: Scribe>(
    run: &mut Run,
    side: SideId,
    port: &mut P,
    scribe: &mut S,
) -> Result<(), DriveFault>
    requires { side.link < run.old.relay.state.plain.opened }
    ensures went { Does P.Port S.Scribe result (λ _. WritesSide side true) Nothing
        (run.old, port.old, scribe.old) (run.new, port.new, scribe.new) }
    ensures cause { OnlyForMemory result }
{
    let offer = run.relay.offer(side);
    if offer.is_empty() {
        return Ok(());
    }
    let offered = offer.len();
    scribe.reserve(1, offered)?;
    let answer = port.write(side, offer);
    if is_memory(answer) {
        return Err(DriveFault::Memory);
    }
    let entry = Entry::Write {
        side,
        offered: offered as u64,
        answer,
    };
    put(&mut run.entries, scribe, entry, bytes_taken(answer, offer));
    run.relay.write_answered(side, answer);
    Ok(())
}

fn is_memory(answer: WriteAnswer) -> bool
    ensures { result ≡ is_memory answer }
{
    match answer {
        WriteAnswer::NoMemory => true,
        _ => false,
    }
}

/// The bytes that a write took from the front of what was offered.
fn bytes_taken(answer: WriteAnswer, offer: &[u8]) -> &[u8]
    requires { WriteWithin answer (length offer.now) }
    ensures { result.now ≡ took_bytes answer offer.now }
{
    let count = match answer {
        WriteAnswer::Took(count) => count,
        _ => 0,
    };
    let (bytes, _) = offer.split_at(count);
    bytes
}

/// Asks whether the side's end is connected.
pub(crate) fn ask_connect<P: Port, S: Scribe>(
    run: &mut Run,
    side: SideId,
    port: &mut P,
    scribe: &mut S,
) -> Result<ConnAnswer, DriveFault>
    requires opened { side.link < run.old.relay.state.plain.opened }
    ensures went { Does P.Port S.Scribe result (λ answer. Checks side answer) Nothing
        (run.old, port.old, scribe.old) (run.new, port.new, scribe.new) }
    ensures cause { OnlyForMemory result }
{
    scribe.reserve(1, 0)?;
    let answer = port.connect_state(side);
    put(&mut run.entries, scribe, Entry::Conn { side, answer }, &[]);
    run.relay.connect_answered(side, answer);
    Ok(answer)
}
