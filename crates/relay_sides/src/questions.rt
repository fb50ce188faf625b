// What may be asked about a side without changing it: its low marks, how many bytes are in its buffers, and those of its input.
ghost use Rattle.std.specs.Prelude.{◌≡◌, ◌<◌};
ghost use Rattle.relay_sides.specs.Links.{side_at, lane_at};
ghost use Rattle.relay_sides.specs.Questions.{low_mark, lengths_of};

use crate::side::{lower, upper};
use crate::sides::Sides;
use bev_core::Dir;
use ev_types::SideId;

/// How many bytes are in the four buffers of a side.
///
/// Own; libevent has two, of which a filter has its own.
#[derive(Clone, Copy, Debug, PartialEq, Eq)]
pub struct Lengths {
    pub raw_input: u64,
    pub input: u64,
    pub output: u64,
    pub raw_output: u64,
}

impl Sides {
    /// The low mark of a direction of a side, in bytes. Constant; takes no memory.
    ///
    /// Libevent: event2/bufferevent.h, `bufferevent_getwatermark`; "Bufferevents: concepts and basics".
    pub fn low_mark(&self, side: SideId, dir: Dir) -> u64
        requires { side.link < self.now.links.opened }
        ensures { result ≡ low_mark (side_at self.now.links side) dir }
    {
        let bev = self.world.bev(lower(side)).state();
        match dir {
            Dir::Read => bev.read_low,
            Dir::Write => bev.write_low,
        }
    }

    /// How many bytes are in the buffers of a side. Constant; takes no memory.
    ///
    /// Own.
    pub fn lengths(&self, side: SideId) -> Lengths
        requires { side.link < self.now.links.opened }
        ensures { result ≡ lengths_of self.now.links side }
    {
        let from = side.peer();
        Lengths {
            raw_input: self.raw_input_len(side) as u64,
            input: self.own_input_len(side) as u64,
            output: self.own_output_len(from) as u64,
            raw_output: self.raw_output_len(from) as u64,
        }
    }

    /// The bytes that the read filter of a side made and that were not moved to its peer yet. Constant; takes no memory.
    ///
    /// Libevent: event2/bufferevent.h, `bufferevent_get_input`; "Bufferevents: concepts and basics".
    pub fn input(&self, side: SideId) -> &[u8]
        requires { side.link < self.now.links.opened }
        ensures { result.now ≡ (lane_at self.now.links side).buffers.input }
    {
        self.world.bytes_at(upper(side), Dir::Read)
    }
}
