// Filters: line ends of a text in pieces, by a filter alone and between two bufferevents.

use bev_core::{Bev, Dir};
use bev_filter::process_input;
use std::alloc::Global;
use std::io::Print;
use stream_filters::{AnyFilter, FilterFault, FilterKind, Mode, StreamFilter, ToLf};

/// Offers a piece to a filter that is not finished; how many bytes it used.
fn offer(
    filter: &mut ToLf,
    piece: &[u8],
    mode: Mode,
    lines: &mut Vec<u8>,
) -> Result<usize, FilterFault> {
    if filter.is_finished() {
        return Ok(0);
    }
    Ok(filter.step(piece, lines, usize::MAX, mode)?.used)
}

/// What of a text passes into an input that takes 6 bytes: how many bytes it made, and of how many.
fn passed(alloc: Global, text: &[u8]) -> anyhow::Result<(u64, usize)> {
    let mut under = Bev::new(alloc)?;
    let answer = pass(alloc, &mut under, text);
    drop(under);
    answer
}

// The lower one is lent, so that it is let go at one place.
fn pass(alloc: Global, under: &mut Bev, text: &[u8]) -> anyhow::Result<(u64, usize)> {
    under.feed(Dir::Read, text)?;
    let mut over = Bev::new(alloc)?;
    let mut filter = AnyFilter::new(FilterKind::ToLf);
    let step = process_input(under, &mut over, &mut filter, 6, Mode::Finished)?;
    Ok((over.state().input, step.used))
}

/// Turns each CR LF into LF, also where a piece ends between the two.
pub fn line_ends(rt: &impl Print, alloc: Global) -> anyhow::Result<()> {
    let mut filter = ToLf::new();
    let mut lines = Vec::new(alloc);
    for (piece, mode) in [("one\r", Mode::Normal), ("\ntwo\r", Mode::Finished)] {
        let used = offer(&mut filter, piece.as_bytes(), mode, &mut lines)?;
        println!(rt; "{used} bytes used, {} made", lines.len())?;
    }
    let (made, used) = passed(alloc, b"one\r\ntwo\r")?;
    println!(rt; "{used} bytes used, {made} made")?;
    Ok(())
}
