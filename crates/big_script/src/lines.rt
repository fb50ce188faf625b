// The lines of the two turns that have some.
ghost use Rattle.std.specs.Prelude.{◌≡◌, ◌++◌, ◌<◌, ◌^◌, false, replicate, IfOk, OnOk};
ghost use Rattle.ev_types.specs.declared.turn_line.TurnLine.TheVariants.{NewLink};
ghost use Rattle.big_script.specs.BigScript.{lines_from, lines_with};

use crate::generator::take_bytes;
use ev_types::{ByteList, NoMemory, Side, SideId, TurnLine};
use std::alloc::Global;

/// The lines that open so many links. Takes memory for them; linear.
pub fn opening_lines(alloc: Global, links: u32) -> Result<Vec<TurnLine>, NoMemory>
    ensures { IfOk result (λ lines. lines.items ≡ replicate links (NewLink false)) }
{
    let mut lines = Vec::new(alloc);
    for _link in 0..links {
        lines.push(TurnLine::NewLink { wait: false })?;
    }
    Ok(lines)
}

/// Puts the lines of a link behind the others. After a refusal some of them may be there. Takes memory for them; constant.
fn put_lines(lines: &mut Vec<TurnLine>, bytes: Vec<u8>, link: u32) -> Result<(), NoMemory>
    ensures { OnOk result (lines.new.items ≡ lines.old.items ++ lines_with bytes.items link) }
{
    let inside = SideId {
        link,
        side: Side::In,
    };
    let outside = inside.peer();
    lines.push(TurnLine::Pending(inside, ByteList { bytes }))?;
    lines.push(TurnLine::Eof(inside))?;
    lines.push(TurnLine::Eof(outside))?;
    lines.push(TurnLine::Take(inside, None))?;
    lines.push(TurnLine::Take(outside, None))?;
    Ok(())
}

/// The lines of so many links, with so many bytes for each, which the generator gives from the number of links on. Takes memory for
/// them; linear in all their bytes.
pub fn sending_lines(alloc: Global, each: usize, links: u32) -> Result<Vec<TurnLine>, NoMemory>
    ensures { IfOk result (λ lines. lines.items ≡ lines_from each links 0 links) }
{
    let mut lines = Vec::new(alloc);
    let mut x = u64::from(links);
    for link in 0..links {
        let (bytes, after) = take_bytes(alloc, each, x)?;
        put_lines(&mut lines, bytes, link)?;
        x = after;
    }
    Ok(lines)
}
