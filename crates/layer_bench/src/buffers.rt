// Rounds of calls of evbuffers. `bench/calls.sh` counts what a round costs, beside the same calls of libevent.

use evbuf::{BufFault, Evbuffer};
use std::alloc::Global;
use std::rc::RcSlice;

/// The bytes that a round puts into a buffer.
const PIECE: [u8; 64] = [7; 64];

/// How many bytes a round of references refers to.
const REFERRED: usize = 1_000;

/// What the rounds do with a piece.
#[derive(Clone, Copy, Debug, PartialEq, Eq)]
pub enum Use {
    /// It stays.
    Add,
    /// It is drained.
    Drain,
    /// All is moved to a second buffer, and drained there.
    Exchange,
    /// Half is moved to a second buffer, and both are drained.
    Move,
}

/// So many rounds; how many bytes are in the buffers after them.
pub fn rounds_of_pieces(alloc: Global, what: Use, rounds: u32) -> Result<u64, BufFault> {
    let mut one = Evbuffer::new(alloc);
    let mut two = Evbuffer::new(alloc);
    for _ in 0..rounds {
        one.add(&PIECE)?;
        used(what, &mut one, &mut two)?;
    }
    Ok((one.len() as u64).saturating_add(two.len() as u64))
}

/// What becomes of a piece.
fn used(what: Use, one: &mut Evbuffer, two: &mut Evbuffer) -> Result<(), BufFault> {
    match what {
        Use::Add => Ok(()),
        Use::Drain => one.drain(PIECE.len()),
        Use::Exchange => {
            two.add_buffer(one)?;
            two.drain(PIECE.len())
        }
        Use::Move => {
            one.remove_buffer(two, PIECE.len() / 2)?;
            one.drain(PIECE.len())?;
            two.drain(PIECE.len())
        }
    }
}

/// In each round a reference to the same bytes is added and drained, and its ticket is taken; how many tickets came.
pub fn rounds_of_references(alloc: Global, rounds: u32) -> Result<u64, BufFault> {
    let bytes = RcSlice::from_vec(vec![in alloc; 7u8; REFERRED]?)?;
    let mut buffer = Evbuffer::new(alloc);
    let mut tickets = 0u64;
    for _ in 0..rounds {
        buffer.add_reference(bytes.clone()?, 1)?;
        buffer.drain(REFERRED)?;
        if buffer.take_released().is_some() {
            tickets = tickets.saturating_add(1);
        }
    }
    Ok(tickets)
}
