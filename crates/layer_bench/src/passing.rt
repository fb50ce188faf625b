// Bytes through a filter, and bytes copied, in pieces of 16 KiB.

use std::alloc::Global;
use stream_filters::{AnyFilter, FilterFault, FilterKind, Mode, StreamFilter};

/// How many bytes a piece has.
const PIECE: usize = 16_384;

/// A line of 64 bytes that each filter takes: digits alone, but for its end where line ends are turned.
fn line_of(kind: FilterKind) -> &'static [u8] {
    match kind {
        FilterKind::None | FilterKind::HexOut | FilterKind::HexIn => {
            b"0123456789abcdef0123456789abcdef0123456789abcdef0123456789abcdef"
        }
        FilterKind::ToCrlf => b"0123456789abcdef0123456789abcdef0123456789abcdef0123456789abcde\n",
        FilterKind::ToLf => b"0123456789abcdef0123456789abcdef0123456789abcdef0123456789abcd\r\n",
    }
}

/// A piece of such lines.
fn piece_of(alloc: Global, kind: FilterKind) -> Result<Vec<u8>, FilterFault> {
    let mut piece = Vec::new(alloc);
    for _ in 0..PIECE / 64 {
        piece.extend_from_slice(line_of(kind))?;
    }
    Ok(piece)
}

/// So many pieces through a filter of this kind; how many bytes it made.
pub fn passed(alloc: Global, kind: FilterKind, pieces: u32) -> Result<u64, FilterFault> {
    let piece = piece_of(alloc, kind)?;
    let mut filter = AnyFilter::new(kind);
    let mut made = Vec::new(alloc);
    let mut done = 0u64;
    for _ in 0..pieces {
        if filter.is_finished() {
            break;
        }
        made.clear();
        filter.step(&piece, &mut made, usize::MAX, Mode::Normal)?;
        done = done.saturating_add(made.len() as u64);
    }
    Ok(done)
}

/// So many pieces copied; how many bytes they were.
pub fn copied(alloc: Global, pieces: u32) -> Result<u64, FilterFault> {
    let piece = piece_of(alloc, FilterKind::None)?;
    let mut made = Vec::new(alloc);
    let mut done = 0u64;
    for _ in 0..pieces {
        made.clear();
        made.extend_from_slice(&piece)?;
        done = done.saturating_add(made.len() as u64);
    }
    Ok(done)
}
