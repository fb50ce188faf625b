// How many bytes may be read from a side's end and given to it now, and what a side wants.
ghost use Rattle.std.specs.Prelude.{◌≡◌, ◌<◌};
ghost use Rattle.token_bucket.specs.declared.limit.Dir.TheVariants.{Read, Write};
ghost use Rattle.relay_pool.specs.Space.{read_space, write_space, space_of};
ghost use Rattle.relay_core.specs.RelayValue.{links_in};
ghost use Rattle.relay_state.specs.Rooms.{read_room, write_room, offer as offer_of, wants};

use crate::relay::Relay;
use ev_types::SideId;
use relay_pool::Space;
use relay_sides::{Dir, MOST_AT_ONCE};

/// What a side wants.
///
/// Own.
#[derive(Clone, Copy, Debug, PartialEq, Eq)]
pub struct Wants {
    /// To be read.
    pub read: bool,
    /// To be written, or to be told that it is connected.
    pub write: bool,
}

impl Relay {
    /// How many bytes may be read from the end of a side with so much space.
    fn room_to_read(&self, side: SideId, space: usize) -> usize
        requires opened { side.link < self.now.state.plain.opened }
        requires space { space ≡ read_space (links_in self.now.state) side }
        ensures { result ≡ read_room self.now.state side }
    {
        if space == 0 {
            return 0;
        }
        self.ctl
            .within_rates(side, Dir::Read, space.min(MOST_AT_ONCE))
    }

    /// How many bytes may be given to the end of a side for which so many wait.
    fn room_to_write(&self, side: SideId, space: usize) -> usize
        requires opened { side.link < self.now.state.plain.opened }
        requires space { space ≡ write_space (links_in self.now.state) side }
        ensures { result ≡ write_room self.now.state side }
    {
        if space == 0 {
            return 0;
        }
        self.ctl
            .within_rates(side, Dir::Write, space.min(MOST_AT_ONCE))
    }

    /// Whether a side with this space wants to be written, or to be told that it is connected.
    fn is_to_write(&self, side: SideId, space: Space) -> bool
        requires opened { side.link < self.now.state.plain.opened }
        requires space { space ≡ space_of (links_in self.now.state) side }
        ensures { result ≡ wants self.now.state side Write }
    {
        self.room_to_write(side, space.write) > 0 || space.connecting
    }

    /// How many bytes may be read from the side's end now, at most 16,384 and what its limit and its group leave. Constant; takes no
    /// memory.
    pub fn read_room(&self, side: SideId) -> usize
        requires { side.link < self.now.state.plain.opened }
        ensures { result ≡ read_room self.now.state side }
    {
        self.room_to_read(side, self.ctl.sides.space(side).read)
    }

    /// How many bytes may be given to the side's end now, at most 16,384 and what its limit and its group leave. Constant; takes no
    /// memory.
    pub fn write_room(&self, side: SideId) -> usize
        requires { side.link < self.now.state.plain.opened }
        ensures { result ≡ write_room self.now.state side }
    {
        self.room_to_write(side, self.ctl.sides.space(side).write)
    }

    /// The bytes that are given to the side's end now: as many as there is room for. Constant; takes no memory.
    pub fn offer(&self, side: SideId) -> &[u8]
        requires { side.link < self.now.state.plain.opened }
        ensures { result.now ≡ offer_of self.now.state side }
    {
        let room = self.write_room(side);
        if room == 0 {
            return &[];
        }
        let (offer, _) = self.ctl.sides.waiting_for(side).split_at(room);
        offer
    }

    /// What the side wants. Constant; takes no memory.
    ///
    /// Own.
    pub fn wants_of(&self, side: SideId) -> Wants
        requires { side.link < self.now.state.plain.opened }
        ensures read { result.read ≡ wants self.now.state side Read }
        ensures write { result.write ≡ wants self.now.state side Write }
    {
        let space = self.ctl.sides.space(side);
        Wants {
            read: self.room_to_read(side, space.read) > 0,
            write: self.is_to_write(side, space),
        }
    }

    /// Whether the side wants to be read. Constant; takes no memory.
    pub fn wants_read(&self, side: SideId) -> bool
        requires { side.link < self.now.state.plain.opened }
        ensures { result ≡ wants self.now.state side Read }
    {
        self.read_room(side) > 0
    }

    /// Whether the side wants to be written, or to be told that it is connected. Constant; takes no memory.
    pub fn wants_write(&self, side: SideId) -> bool
        requires { side.link < self.now.state.plain.opened }
        ensures { result ≡ wants self.now.state side Write }
    {
        self.is_to_write(side, self.ctl.sides.space(side))
    }
}
