// Steps of a client, a target and the port between them, and the first of a list that comes to something else.
use crate::acts::{Act, Ways, first_other};
use crate::loopback::{MOST_POLLS, RealPort, World, is_marked, says};
use ev_port::{Port, WriteAnswer};
use ev_types::SideId;
use std::io;
use std::io::{Read, Write};
use std::net::{Shutdown, TcpStream};

/// What a client or a target does, or what the port comes to by and by.
pub(crate) enum Step {
    /// Calls of the port.
    Port(&'static [Act]),
    /// The port comes to mark an end so.
    Marks(SideId, Ways),
    /// The port reads this from an end, up to its end.
    Says(SideId, &'static [u8]),
    NearSends(&'static [u8]),
    NearEnds,
    /// A read gives these bytes, or the end for none.
    NearGets(&'static [u8]),
    FarSends(&'static [u8]),
    FarGets(&'static [u8]),
    FarGoes,
}

fn gets(stream: &mut TcpStream, owed: &[u8]) -> io::Result<bool> {
    let mut buffer = [0; 16];
    let count = stream.read(&mut buffer)?;
    let (got, _) = buffer.split_at(count);
    Ok(got == owed)
}

fn comes(world: &mut World<'_>, step: &Step) -> io::Result<bool> {
    match step {
        Step::Port(acts) => return Ok(first_other(&mut world.port, acts).is_none()),
        Step::Marks(end, ways) => return Ok(is_marked(&mut world.port, *end, *ways)),
        Step::Says(end, owed) => return Ok(says(&mut world.port, *end, owed)),
        Step::NearSends(bytes) => world.near.write_all(bytes)?,
        Step::NearEnds => world.near.shutdown(Shutdown::Write)?,
        Step::NearGets(owed) => return gets(&mut world.near, owed),
        Step::FarSends(bytes) => far(world)?.write_all(bytes)?,
        Step::FarGets(owed) => return gets(far(world)?, owed),
        Step::FarGoes => world.far = None,
    }
    Ok(true)
}

fn far<'a>(world: &'a mut World<'_>) -> io::Result<&'a mut TcpStream> {
    world
        .far
        .as_mut()
        .ok_or(io::Error::other("the far end is gone"))
}

/// The place of the first step that comes to something else.
pub(crate) fn first_other_step(world: &mut World<'_>, steps: &[Step]) -> io::Result<Option<usize>> {
    for (place, step) in steps.iter().enumerate() {
        if !comes(world, step)? {
            return Ok(Some(place));
        }
    }
    Ok(None)
}

/// Writes until the end takes no more: how many bytes it took.
pub(crate) fn fills(port: &mut RealPort<'_>, end: SideId) -> Option<usize> {
    let bytes = [7; 65536];
    let mut taken = 0usize;
    for _ in 0..MOST_POLLS {
        match port.write(end, &bytes) {
            WriteAnswer::Took(count) => taken = taken.saturating_add(count),
            WriteAnswer::NotYet => return Some(taken),
            WriteAnswer::Failed | WriteAnswer::NoMemory => return None,
        }
    }
    None
}

/// Reads so many bytes. No read gives none.
pub(crate) fn empties(stream: &mut TcpStream, count: usize) -> io::Result<bool> {
    let mut buffer = [0; 65536];
    let mut left = count;
    for _ in 0..u32::MAX {
        if left == 0 {
            return Ok(true);
        }
        let got = stream.read(&mut buffer)?;
        if got == 0 {
            return Ok(false);
        }
        left = left.saturating_sub(got);
    }
    Ok(false)
}
