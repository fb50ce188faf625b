// How far the ends of sides may be read and written, whatever limits and groups leave them.
ghost use Rattle.std.specs.Prelude.{◌≡◌, ◌<◌};
ghost use Rattle.ev_types.specs.Sides.{peer};
ghost use Rattle.relay_model.specs.Rooms.{is_readable};
ghost use Rattle.relay_sides.specs.Links.{side_at};
ghost use Rattle.relay_sides.specs.SideView.{flags_of};
ghost use Rattle.relay_pool.specs.Space.{read_space, write_space, space_of};

use crate::bay::bay;
use crate::pool::LinkPool;
use ev_types::SideId;
use relay_sides::{SideFlags, Sides};

/// How far the end of a side may be read and written, whatever its limit and its group leave it.
///
/// Own.
#[derive(Clone, Copy, Debug, PartialEq, Eq)]
pub struct Space {
    /// By how many bytes its input is short of the read mark; 0 where it may not be read.
    pub read: usize,
    /// How many bytes wait to be given to it; 0 where it may not be written.
    pub write: usize,
    /// Whether it waits to be told that it is connected.
    pub connecting: bool,
}

/// Whether a side of which this is so may be read.
fn is_readable(sides: &Sides, side: SideId, flags: SideFlags) -> bool
    requires opened { side.link < sides.now.links.opened }
    requires flags { flags ≡ flags_of (side_at sides.now.links side) }
    ensures { result ≡ is_readable (side_at sides.now.links side) (side_at sides.now.links (peer side)) }
{
    flags.live
        && !flags.connecting
        && flags.reads
        && !flags.ended
        && !flags.failed
        && sides.is_live(side.peer())
}

/// By how many bytes its input is short of the read mark, if it may be read.
fn read_space(sides: &Sides, side: SideId, flags: SideFlags) -> usize
    requires opened { side.link < sides.now.links.opened }
    requires flags { flags ≡ flags_of (side_at sides.now.links side) }
    ensures { result ≡ read_space sides.now.links side }
{
    if !is_readable(sides, side, flags) {
        return 0;
    }
    let mark = sides.read_mark(side) as usize;
    mark.saturating_sub(sides.input_len(side))
}

/// How many bytes wait to be given to its end, if it may be written.
fn write_space(sides: &Sides, side: SideId, flags: SideFlags) -> usize
    requires opened { side.link < sides.now.links.opened }
    requires flags { flags ≡ flags_of (side_at sides.now.links side) }
    ensures { result ≡ write_space sides.now.links side }
{
    let is_writable = flags.live
        && !flags.connecting
        && flags.writes
        && !flags.failed
        && !flags.write_ended;
    if !is_writable {
        return 0;
    }
    sides.waiting_for(side).len()
}

/// How far its end may be read and written.
fn space_in(sides: &Sides, side: SideId) -> Space
    requires { side.link < sides.now.links.opened }
    ensures { result ≡ space_of sides.now.links side }
{
    let flags = sides.flags(side);
    Space {
        read: read_space(sides, side, flags),
        write: write_space(sides, side, flags),
        connecting: flags.live && flags.connecting && !flags.failed,
    }
}

impl LinkPool {
    /// How far the end of a side may be read and written now, whatever its limit and its group leave it: not at all that of a freed side.
    /// Constant; takes no memory.
    ///
    /// Own.
    pub fn space(&self, side: SideId) -> Space
        requires { side.link < self.now.links.opened }
        ensures { result ≡ space_of self.now.links side }
    {
        match bay(&self.links, side) {
            Some(at) => space_in(&self.sides, at),
            None => Space {
                read: 0,
                write: 0,
                connecting: false,
            },
        }
    }
}
