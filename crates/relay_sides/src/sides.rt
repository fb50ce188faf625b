// The sides of all links, two for each, with the directions between them.
ghost use Rattle.std.specs.Prelude.{◌≡◌, ◌≤◌, ◌<◌, ◌+◌, ◌-◌, ◌*◌, ◌^◌, ◌++◌, ◌∷◌, [], length, min, OnOk, true, vec_capacity, vec_len};
ghost use Rattle.relay_sides.specs.Links.{Links, no_links, side_at, lane_at, flow_at, read_mark, hold_mark};
ghost use Rattle.ev_types.specs.Sides.{peer};
ghost use Rattle.relay_sides.specs.SideView.{flags_of};
ghost use Rattle.relay_sides.specs.Pairs.{HasPairs};

use crate::flags::SideFlags;
use crate::side::{MOST_AT_ONCE, SideState, lower, mark_or, upper};
use bev_core::Dir;
use bev_world::{SpareRoom, World};
use ev_types::SideId;
use std::alloc::Global;
use std::marker::Model;

/// The sides of all links that were opened, and the directions between them. Calls on a side ask that its link was opened. None
/// looks at the clock, or decides whether it is called for.
///
/// A side is two bufferevents of a world: that of its end, and a filter over it. Their numbers are 2 n and 2 n + 1 for the side of
/// number n, where sides are numbered with In of each link before its Out.
///
/// Own; libevent's sample le-proxy keeps a bufferevent for each of the two ends.
#[derive(Drop)]
pub struct Sides {
    pub(crate) opened: u32,
    pub(crate) world: World,
    pub(crate) sides: Vec<SideState>,
    /// What a filter makes is made here first.
    pub(crate) beside: Vec<u8>,
    /// Where what is read goes if there is no other room for it.
    pub(crate) spare: SpareRoom,
    /// The number of the side for which there is room for a read, and for how many bytes.
    pub(crate) ready: usize,
    pub(crate) readable: usize,
}

impl Model for Sides {
    ghost use Rattle.relay_sides.specs.SidesValue.{SidesValue};

    ghost Value = { SidesValue };

    ghost use Rattle.relay_sides.specs.SidesView.{sides_of, AreSides};

    ghost view = { sides_of };

    ghost invariant = { AreSides };
}

impl Sides {
    /// No link. Takes no memory; constant.
    ///
    /// Own.
    pub fn new(alloc: Global) -> Sides
        ensures { result.links ≡ no_links }
    {
        Sides {
            opened: 0,
            world: World::in_one_piece(alloc),
            sides: Vec::new(alloc),
            beside: Vec::new(alloc),
            spare: SpareRoom::new(alloc),
            ready: 0,
            readable: 0,
        }
    }

    /// How many links were opened. There are two sides and two directions for each of them. Constant; takes no memory.
    ///
    /// Own.
    pub fn opened(&self) -> u32
        ensures count { result ≡ self.now.links.opened }
        ensures pairs { HasPairs self.now.links }
    {
        self.opened
    }

    /// What is so of the side. Constant; takes no memory.
    ///
    /// Own.
    pub fn flags(&self, side: SideId) -> SideFlags
        requires { side.link < self.now.links.opened }
        ensures { result ≡ flags_of (side_at self.now.links side) }
    {
        let bev = self.world.bev(lower(side));
        let own = &self.sides[side.number()];
        SideFlags {
            live: bev.is_live(),
            connecting: own.connecting,
            reads: bev.is_enabled(Dir::Read),
            writes: bev.is_enabled(Dir::Write),
            ended: bev.has_ended(),
            failed: bev.has_failed(),
            expired: own.expired,
            write_ended: own.write_ended,
            closed: own.closed,
        }
    }

    /// Whether the side was not freed. Constant; takes no memory.
    ///
    /// Own.
    pub fn is_live(&self, side: SideId) -> bool
        requires { side.link < self.now.links.opened }
        ensures { result ≡ (side_at self.now.links side).live }
    {
        self.world.bev(lower(side)).is_live()
    }

    /// The length of the side's input at which reading stops. Constant; takes no memory.
    ///
    /// Own; libevent has none where no mark is set.
    pub fn read_mark(&self, side: SideId) -> u64
        requires { side.link < self.now.links.opened }
        ensures { result ≡ read_mark self.now.links side }
    {
        let high = self.world.bev(lower(side)).high_mark(Dir::Read);
        mark_or(high, MOST_AT_ONCE as u64)
    }

    /// How many bytes that wait for the side's end hold the direction to it, where so many do in the run. Constant; takes no memory.
    ///
    /// Own; libevent's sample le-proxy holds by its write high mark.
    pub fn hold_mark(&self, side: SideId, hold: u64) -> u64
        requires { side.link < self.now.links.opened }
        ensures { result ≡ hold_mark hold self.now.links side }
    {
        let high = self.world.bev(lower(side)).high_mark(Dir::Write);
        mark_or(high, hold)
    }

    /// How many bytes of the direction from the side are in its raw input.
    pub(crate) fn raw_input_len(&self, from: SideId) -> usize
        requires { from.link < self.now.links.opened }
        ensures { result ≡ length (lane_at self.now.links from).buffers.raw_input }
    {
        self.world.bev(lower(from)).len(Dir::Read)
    }

    /// And in its input.
    pub(crate) fn own_input_len(&self, from: SideId) -> usize
        requires { from.link < self.now.links.opened }
        ensures { result ≡ length (lane_at self.now.links from).buffers.input }
    {
        self.world.bev(upper(from)).len(Dir::Read)
    }

    /// And in its output.
    pub(crate) fn own_output_len(&self, from: SideId) -> usize
        requires { from.link < self.now.links.opened }
        ensures { result ≡ length (lane_at self.now.links from).buffers.output }
    {
        self.world.bev(upper(from.peer())).len(Dir::Write)
    }

    /// And in its raw output.
    pub(crate) fn raw_output_len(&self, from: SideId) -> usize
        requires { from.link < self.now.links.opened }
        ensures { result ≡ length (lane_at self.now.links from).buffers.raw_output }
    {
        self.world.bev(lower(from.peer())).len(Dir::Write)
    }

    /// How many bytes were read from the side's end and not moved yet, or 2^64 - 1 where that is more. Constant; takes no memory.
    ///
    /// Libevent: event2/bufferevent.h, `bufferevent_get_input`; it is the input of two bufferevents together.
    pub fn input_len(&self, side: SideId) -> usize
        requires { side.link < self.now.links.opened }
        ensures { result ≡ min (length (lane_at self.now.links side).buffers.raw_input + length (lane_at self.now.links side).buffers.input) (2 ^ 64 - 1) }
    {
        self.raw_input_len(side)
            .saturating_add(self.own_input_len(side))
    }

    /// How many bytes were moved to the side and not given to its end yet, or 2^64 - 1 where that is more. Constant; takes no memory.
    ///
    /// Libevent: event2/bufferevent.h, `bufferevent_get_output`; it is the output of two bufferevents together.
    pub fn output_len(&self, side: SideId) -> usize
        requires { side.link < self.now.links.opened }
        ensures { result ≡ min (length (lane_at self.now.links (peer side)).buffers.output + length (lane_at self.now.links (peer side)).buffers.raw_output) (2 ^ 64 - 1) }
    {
        let from = side.peer();
        self.own_output_len(from)
            .saturating_add(self.raw_output_len(from))
    }

    /// The bytes that wait to be given to the side's end. Constant; takes no memory.
    ///
    /// Own.
    pub fn waiting_for(&self, side: SideId) -> &[u8]
        requires { side.link < self.now.links.opened }
        ensures { result.now ≡ (lane_at self.now.links (peer side)).buffers.raw_output }
    {
        self.world.bytes_at(lower(side), Dir::Write)
    }
}
