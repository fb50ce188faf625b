// The report of a run.
ghost use Rattle.std.specs.Prelude.{◌≡◌, ◌≢◌, IfOk};
ghost use Rattle.ev_types.specs.declared.status.Status.TheVariants.{Memory, WriteFault};
ghost use Rattle.script_text.specs.ReportText.{report_text};
ghost use Rattle.relay_laws.specs.Report.{lines_below};
ghost use Rattle.relay_serve.specs.Seen.{drained};
ghost use Rattle.relay_serve.specs.Underway.{Reported, ended_as};

use crate::run::ServeEnd;
use ev_port::Sink;
use ev_types::{NoMemory, Status};
use program_end::{fault_status, link_lines, write_text};
use relay_drive::{Drive, DriveFault};
use script_text::write_report;
use std::alloc::Global;

/// The text of a drive's report.
fn text_of(alloc: Global, drive: &Drive) -> Result<Vec<u8>, NoMemory>
    ensures { IfOk result (λ text. text.items ≡ report_text (lines_below drive.now.state drive.now.state.plain.opened)) }
{
    let links = link_lines(alloc, drive)?;
    let mut text = Vec::new(alloc);
    write_report(&links, &mut text)?;
    Ok(text)
}

/// Writes the report of a run that is to end with this status.
fn write<K: Sink>(alloc: Global, ended: Status, drive: &Drive, sink: &mut K) -> Status
    requires lasted { ended ≢ Memory }
    requires unwritten_yet { ended ≢ WriteFault }
    ensures reported { Reported ended result (report_text (lines_below drive.now.state drive.now.state.plain.opened))
        (drained K.Sink sink.old) (drained K.Sink sink.new) }
    ensures unwritten { result ≡ Memory → sink.new ≡ sink.old }
    ensures write_calm { result ≢ WriteFault → K.faults sink.new ≡ K.faults sink.old }
{
    let Ok(text) = text_of(alloc, drive) else {
        return Status::Memory;
    };
    match write_text(sink, &text) {
        Ok(()) => ended,
        Err(_) => Status::WriteFault,
    }
}

/// Writes the report of a run, and answers how the program ends. Where memory ran out in the run nothing is written.
pub(crate) fn report<K: Sink>(
    alloc: Global,
    ended: Result<ServeEnd, DriveFault>,
    drive: &Drive,
    sink: &mut K,
) -> Status
    ensures reported { Reported (ended_as ended) result (report_text (lines_below drive.now.state drive.now.state.plain.opened))
        (drained K.Sink sink.old) (drained K.Sink sink.new) }
    ensures unwritten { result ≡ Memory → sink.new ≡ sink.old }
    ensures write_calm { result ≢ WriteFault → K.faults sink.new ≡ K.faults sink.old }
{
    match ended {
        Ok(ServeEnd::ServedOut) => write(alloc, Status::Ok, drive, sink),
        Ok(ServeEnd::Stopped(link, turn)) => {
            write(alloc, Status::Stopped(link, turn), drive, sink)
        }
        Err(DriveFault::Memory) => Status::Memory,
        Err(fault) => write(alloc, fault_status(fault), drive, sink),
    }
}
