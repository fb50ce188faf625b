// How far bytes go between the halves of a pair, and what a flush raises. The halves are lent, so that each is let go at one place.

use bev_core::{Bev, BevFault, Dir};
use bev_pair::{PairFault, flush_event, transfer};
use ev_types::{Flags, Mode};
use std::alloc::Global;
use std::test::Fail;

/// A call on two halves with its answer, or what is seen of them then.
#[derive(Clone, Copy)]
enum Act {
    /// What the first wrote goes to the second, so many bytes of it.
    Moves(Mode, Result<usize, PairFault>),
    /// The second reads up to so many bytes.
    ReadsUpTo(u64),
    Free,
    Input(&'static [u8]),
}

/// Whether a call answers as it says, or what is seen is as it says.
fn answers(from: &mut Bev, to: &mut Bev, act: Act) -> bool {
    match act {
        Act::Moves(mode, answer) => transfer(from, to, mode) == answer,
        Act::ReadsUpTo(high) => read_up_to(to, high) == Ok(()),
        Act::Free => to.free() == Ok(()),
        Act::Input(bytes) => to.piece(Dir::Read) == Some(bytes),
    }
}

fn read_up_to(bev: &mut Bev, high: u64) -> Result<(), BevFault> {
    bev.enable(Dir::Read)?;
    bev.set_watermark(Dir::Read, 0, high)
}

/// The place of the first act that does not answer as it says.
fn first_wrong(from: &mut Bev, to: &mut Bev, acts: &[Act]) -> Option<usize> {
    for (place, act) in acts.iter().enumerate() {
        if !answers(from, to, *act) {
            return Some(place);
        }
    }
    None
}

/// The same of new bufferevents, of which the first wrote these bytes.
fn plays(alloc: Global, output: &[u8], acts: &[Act]) -> Result<Option<usize>, BevFault> {
    let mut from = Bev::new(alloc)?;
    let answer = plays_beside(&mut from, alloc, output, acts);
    drop(from);
    answer
}

fn plays_beside(
    from: &mut Bev,
    alloc: Global,
    output: &[u8],
    acts: &[Act],
) -> Result<Option<usize>, BevFault> {
    from.write(output)?;
    let mut to = Bev::new(alloc)?;
    let answer = first_wrong(from, &mut to, acts);
    drop(to);
    Ok(answer)
}

const MOVES: &[Act] = &[
    Act::Moves(Mode::Normal, Ok(0)),
    Act::ReadsUpTo(5),
    Act::Moves(Mode::Normal, Ok(5)),
    Act::Moves(Mode::Normal, Ok(0)),
    Act::Moves(Mode::Flush, Ok(3)),
    Act::Input(b"01234567"),
    Act::Free,
    Act::Moves(Mode::Finished, Err(PairFault::NoPartner)),
];

#[test]
fn bytes_go_up_to_the_high_mark_and_a_flush_takes_all(rt: HostRuntime) -> Result<(), Fail> {
    assert_eq!(rt; plays(rt.alloc(), b"01234567", MOVES)?, None);
    Ok(())
}

#[test]
fn a_finished_flush_raises_end_of_file(rt: HostRuntime) {
    assert_eq!(rt; flush_event(Mode::Finished), Some(Flags(0x11)));
    assert_eq!(rt; flush_event(Mode::Flush), None);
}
