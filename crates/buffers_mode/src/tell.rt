// Writes what a buffer has to tell after a line: its reports, and the tickets that it handed out.
ghost use Rattle.std.specs.Prelude.{◌≡◌, ◌++◌, OnOk};
ghost use Rattle.buffers_mode.specs.Steps.{shown, with_callbacks};
ghost use Rattle.buffers_mode.specs.Run.{report_lines, all_reported, released_lines, without_released};

use crate::answer::{released_text, report_text};
use evbuf::Evbuffer;
use std::alloc::{AllocError, Global};

/// Writes the reports that wait in the buffer with this number, that of the newest callback first.
pub(crate) fn tell_reports(
    alloc: Global,
    b: usize,
    buf: &mut Evbuffer,
    into: &mut Vec<u8>,
) -> Result<(), AllocError>
    ensures text { OnOk result (into.new.items
        ≡ into.old.items ++ report_lines b buf.old.callbacks) }
    ensures after { OnOk result (buf.new ≡ with_callbacks buf.old (all_reported buf.old.callbacks)) }
{
    while let Some(report) = buf.take_report() {
        let line = report_text(alloc, b, report)?;
        into.extend_from_slice(line.as_bytes())?;
    }
    Ok(())
}

/// Writes the tickets that wait in the buffer, in the order of their release.
pub(crate) fn tell_released(
    alloc: Global,
    buf: &mut Evbuffer,
    into: &mut Vec<u8>,
) -> Result<(), AllocError>
    ensures text { OnOk result (into.new.items
        ≡ into.old.items ++ released_lines buf.old.released) }
    ensures after { OnOk result (buf.new ≡ without_released buf.old) }
{
    while let Some(ticket) = buf.take_released() {
        let line = released_text(alloc, ticket)?;
        into.extend_from_slice(line.as_bytes())?;
    }
    Ok(())
}
