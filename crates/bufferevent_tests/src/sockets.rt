// How far a socket's reads and writes may go, and what their results make of a bufferevent, at the edges of rooms and marks. It is
// lent, so that it is let go at one place.

use bev_core::{Bev, BevFault, Dir};
use bev_socket::{ended, failed, room_read, room_write, timed_out, took_read, took_write};
use ev_types::Flags;
use std::alloc::Global;
use std::test::Fail;

/// A call on a bufferevent with its answer, or what is seen of it then.
#[derive(Clone, Copy)]
enum Act {
    /// These three succeed.
    Enable(Dir),
    Disable(Dir),
    Marks(Dir, u64, u64),
    /// How much may be read, within an allowance and a share.
    ReadRoom(Option<u64>, Option<u64>, u64),
    /// How much may be written, within an allowance.
    WriteRoom(Option<u64>, u64),
    /// Bytes are read at a moment, in room that was made; whether that calls for the callback.
    Read(&'static [u8], u64, bool),
    /// A byte is written at a moment; whether that calls for the callback.
    WriteOne(u64, bool),
    TimedOut(Dir, Flags),
    Ended(Dir, Flags),
    Failed(Dir, Flags),
    LastRead(u64),
    Output(&'static [u8]),
    Enabled(bool, bool),
    Marked(bool, bool),
}

/// Whether a call answers as it says, or what is seen is as it says.
fn answers(bev: &mut Bev, act: Act) -> bool {
    match act {
        Act::Enable(dir) => bev.enable(dir) == Ok(()),
        Act::Disable(dir) => bev.disable(dir) == Ok(()),
        Act::Marks(dir, low, high) => bev.set_watermark(dir, low, high) == Ok(()),
        Act::ReadRoom(allowance, share, room) => room_read(bev, allowance, share) == room,
        Act::WriteRoom(allowance, room) => room_write(bev, allowance, None) == room,
        Act::Read(bytes, now, due) => read(bev, bytes, now) == Ok(due),
        Act::WriteOne(now, due) => write_one(bev, now) == due,
        Act::TimedOut(dir, flags) => timed_out(bev, dir) == flags,
        Act::Ended(dir, flags) => ended(bev, dir) == flags,
        Act::Failed(dir, flags) => failed(bev, dir) == flags,
        Act::LastRead(now) => bev.state().last_read == now,
        Act::Output(bytes) => bev.piece(Dir::Write) == Some(bytes),
        Act::Enabled(read, write) => (bev.state().reading, bev.state().writing) == (read, write),
        Act::Marked(end, fault) => (bev.state().ended, bev.state().failed) == (end, fault),
    }
}

fn read(bev: &mut Bev, bytes: &[u8], now: u64) -> Result<bool, BevFault> {
    bev.reserve_input(bytes.len())?;
    Ok(took_read(bev, bytes, now))
}

fn write_one(bev: &mut Bev, now: u64) -> bool {
    bev.state().output > 0 && took_write(bev, 1, now)
}

/// The place of the first act that does not answer as it says.
fn first_wrong(bev: &mut Bev, acts: &[Act]) -> Option<usize> {
    for (place, act) in acts.iter().enumerate() {
        if !answers(bev, *act) {
            return Some(place);
        }
    }
    None
}

/// The same of a new bufferevent whose output has these bytes.
fn plays(alloc: Global, output: &[u8], acts: &[Act]) -> Result<Option<usize>, BevFault> {
    let mut bev = Bev::new(alloc)?;
    let answer = plays_after(&mut bev, output, acts);
    drop(bev);
    answer
}

fn plays_after(bev: &mut Bev, output: &[u8], acts: &[Act]) -> Result<Option<usize>, BevFault> {
    bev.write(output)?;
    Ok(first_wrong(bev, acts))
}

const ROOMS: &[Act] = &[
    Act::ReadRoom(None, None, 0),
    Act::Enable(Dir::Read),
    Act::ReadRoom(None, None, 16_384),
    Act::ReadRoom(Some(100), Some(7), 7),
    Act::Marks(Dir::Read, 0, 5),
    Act::ReadRoom(None, None, 5),
    Act::WriteRoom(None, 3),
    Act::WriteRoom(Some(2), 2),
    Act::Disable(Dir::Write),
    Act::WriteRoom(None, 0),
];

#[test]
fn rooms_end_at_marks_and_numbers(rt: HostRuntime) -> Result<(), Fail> {
    assert_eq!(rt; plays(rt.alloc(), b"abc", ROOMS)?, None);
    Ok(())
}

const CALLBACKS: &[Act] = &[
    Act::Marks(Dir::Read, 3, 0),
    Act::Marks(Dir::Write, 1, 0),
    Act::Read(b"ab", 5, false),
    Act::Read(b"c", 6, true),
    Act::LastRead(6),
    Act::WriteOne(7, false),
    Act::WriteOne(8, true),
    Act::Output(b"z"),
];

#[test]
fn a_callback_is_due_by_the_length_with_the_bytes(rt: HostRuntime) -> Result<(), Fail> {
    assert_eq!(rt; plays(rt.alloc(), b"xyz", CALLBACKS)?, None);
    Ok(())
}

const EVENTS: &[Act] = &[
    Act::Enable(Dir::Read),
    Act::TimedOut(Dir::Write, Flags(0x42)),
    Act::Ended(Dir::Read, Flags(0x11)),
    Act::Failed(Dir::Read, Flags(0x21)),
    Act::Enabled(false, false),
    Act::Marked(true, true),
];

#[test]
fn events_have_their_flags(rt: HostRuntime) -> Result<(), Fail> {
    assert_eq!(rt; plays(rt.alloc(), b"", EVENTS)?, None);
    Ok(())
}
