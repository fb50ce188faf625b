// What the program says on standard error of how it ended.
ghost use Rattle.std.specs.Prelude.{◌≡◌, ◌⊎◌, ◌++◌, ◌∷◌, [], OnOk, OnErr};
ghost use Rattle.std.specs.Fmt.{decimal};
ghost use Rattle.ev_types.specs.declared.status.Status.TheVariants.{BadScript, Stopped};
ghost use Rattle.ev_port.specs.FaultCounts.{Rose};
ghost use Rattle.ev_port.specs.StreamBytes.{TookOn};
ghost use Rattle.program_end.specs.EndStatus.{complaint, status_number};
ghost use Rattle.program_end.specs.Complains.{Complains, TookPart};

use crate::output::{WriteFailed, write_text};
use crate::status::process_status;
use ev_port::Sink;
use ev_types::Status;
use itoa::Buffer;

/// Writes the line of a status, which is nothing of a run that went well. Takes no memory; constant cost, but for what
/// the sink costs.
///
/// Own.
pub fn complain<E: Sink>(errors: &mut E, status: Status) -> Result<(), WriteFailed>
    ensures whole { OnOk result (TookOn (E.taken errors.old) (E.taken errors.new) (complaint status)) }
    ensures calm { OnOk result (E.faults errors.new ≡ E.faults errors.old) }
    ensures prefix { OnErr result (TookPart (E.taken errors.old) (E.taken errors.new) (complaint status)) }
    ensures fault { OnErr result (Rose (E.faults errors.old) (E.faults errors.new)) }
{
    match status {
        Status::Ok => Ok(()),
        Status::Usage => write_text(errors, b"usage\n"),
        Status::BadScript(line) => complain_of_line(errors, line),
        Status::ReadFault => write_text(errors, b"read fault\n"),
        Status::WriteFault => write_text(errors, b"write fault\n"),
        Status::PollFault => write_text(errors, b"poll fault\n"),
        Status::Stopped(link, turn) => complain_of_stop(errors, link, turn),
        Status::TooLong => write_text(errors, b"too long\n"),
        Status::Memory => write_text(errors, b"out of memory\n"),
        Status::OpenFault => write_text(errors, b"open fault\n"),
        Status::Spent => write_text(errors, b"count spent\n"),
    }
}

fn complain_of_line<E: Sink>(errors: &mut E, line: u32) -> Result<(), WriteFailed>
    ensures whole { OnOk result (TookOn (E.taken errors.old) (E.taken errors.new) (complaint (BadScript line))) }
    ensures calm { OnOk result (E.faults errors.new ≡ E.faults errors.old) }
    ensures prefix { OnErr result (TookPart (E.taken errors.old) (E.taken errors.new) (complaint (BadScript line))) }
    ensures fault { OnErr result (Rose (E.faults errors.old) (E.faults errors.new)) }
{
    write_number(errors, "bad script: line ", line)?;
    write_text(errors, b"\n")
}

fn complain_of_stop<E: Sink>(errors: &mut E, link: u32, turn: u32) -> Result<(), WriteFailed>
    ensures whole { OnOk result (TookOn (E.taken errors.old) (E.taken errors.new) (complaint (Stopped link turn))) }
    ensures calm { OnOk result (E.faults errors.new ≡ E.faults errors.old) }
    ensures prefix { OnErr result (TookPart (E.taken errors.old) (E.taken errors.new) (complaint (Stopped link turn))) }
    ensures fault { OnErr result (Rose (E.faults errors.old) (E.faults errors.new)) }
{
    write_number(errors, "stopped: link ", link)?;
    write_number(errors, " turn ", turn)?;
    write_text(errors, b"\n")
}

/// Writes a text and a number behind it.
fn write_number<E: Sink>(errors: &mut E, text: &str, number: u32) -> Result<(), WriteFailed>
    ensures whole { OnOk result (TookOn (E.taken errors.old) (E.taken errors.new) (text.now ++ decimal number)) }
    ensures calm { OnOk result (E.faults errors.new ≡ E.faults errors.old) }
    ensures prefix { OnErr result (TookPart (E.taken errors.old) (E.taken errors.new) (text.now ++ decimal number)) }
    ensures fault { OnErr result (Rose (E.faults errors.old) (E.faults errors.new)) }
{
    let mut buffer = Buffer::new();
    write_text(errors, text.as_bytes())?;
    write_text(errors, buffer.format(number).as_bytes())
}

/// Says how the program ended, and answers the status of its process. Where the line can't be written, the status still
/// tells. Takes no memory; costs what `complain` does.
///
/// Own.
pub fn finish<E: Sink>(errors: &mut E, status: Status) -> u8
    ensures number { result ≡ status_number status }
    ensures line { Complains status (E.taken errors.old) (E.taken errors.new) (E.faults errors.old) (E.faults errors.new) }
{
    let _ = complain(errors, status);
    process_status(status)
}
