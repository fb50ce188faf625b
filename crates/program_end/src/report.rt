// The lines of a report.
ghost use Rattle.std.specs.Prelude.{◌≡◌, IfOk};
ghost use Rattle.relay_laws.specs.Report.{lines_below};

use ev_types::{LinkCount, NoMemory};
use relay_drive::Drive;
use std::alloc::Global;

/// What each opened link of a drive came to, in their order, as a report says it. It is refused for want of memory alone. Linear
/// in the number of links.
///
/// Own.
pub fn link_lines(alloc: Global, drive: &Drive) -> Result<Vec<LinkCount>, NoMemory>
    ensures { IfOk result (λ lines. lines.items ≡ lines_below drive.now.state drive.now.state.plain.opened) }
{
    let mut lines = Vec::new(alloc);
    for link in 0..drive.opened() {
        if let Some(count) = drive.link(link) {
            lines.push(count)?;
        }
    }
    Ok(lines)
}
