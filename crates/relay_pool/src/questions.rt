// What may be asked about a side without changing it. Of a link that is over its flags and its counts are known.
ghost use Rattle.std.specs.Prelude.{◌≡◌, ◌<◌, ◌+◌, ◌-◌, ◌^◌, length, min, true};
ghost use Rattle.ev_types.specs.Sides.{peer};
ghost use Rattle.relay_model.specs.Close.{fault};
ghost use Rattle.relay_model.specs.Moments.{timeout_of, last_activity};
ghost use Rattle.relay_sides.specs.Links.{side_at, lane_at, flow_at, read_mark, hold_mark, is_complete, has_spent_count};
ghost use Rattle.relay_sides.specs.Links.{any_count_is_spent};
ghost use Rattle.relay_sides.specs.Questions.{low_mark, lengths_of};
ghost use Rattle.relay_sides.specs.SideView.{flags_of};
ghost use Rattle.relay_pool.specs.PoolValue.{has_live_side};

use crate::bay::{at, bay, bay_of, left};
use crate::pool::LinkPool;
use bev_core::Dir;
use ev_types::{Cause, SideId};
use relay_sides::{Counts, Lengths, SideFlags};

impl LinkPool {
    /// What is so of the side. Constant; takes no memory.
    ///
    /// Own.
    pub fn flags(&self, side: SideId) -> SideFlags
        requires { side.link < self.now.links.opened }
        ensures { result ≡ flags_of (side_at self.now.links side) }
    {
        match bay(&self.links, side) {
            Some(at) => self.sides.flags(at),
            None => left(&self.links, side.link).flags(side.side),
        }
    }

    /// Whether the side was not freed. Constant; takes no memory.
    ///
    /// Own.
    pub fn is_live(&self, side: SideId) -> bool
        requires { side.link < self.now.links.opened }
        ensures { result ≡ (side_at self.now.links side).live }
    {
        match bay(&self.links, side) {
            Some(at) => self.sides.is_live(at),
            None => false,
        }
    }

    /// What was counted of a side, freed or not. Constant; takes no memory.
    ///
    /// Own.
    pub fn counts(&self, side: SideId) -> Counts
        requires { side.link < self.now.links.opened }
        ensures read { result.read ≡ (lane_at self.now.links side).read }
        ensures moved { result.moved ≡ (flow_at self.now.links side).moved }
        ensures given { result.given ≡ (flow_at self.now.links (peer side)).given }
    {
        match bay(&self.links, side) {
            Some(at) => self.sides.counts(at),
            None => left(&self.links, side.link).counts(side.side),
        }
    }

    /// Whether a count of the link has come to 2^62, in either direction: bytes read, used or made by a filter, moved or given. Freed sides
    /// count too. Constant; takes no memory.
    ///
    /// Own.
    pub fn has_spent_count(&self, link: u32) -> bool
        requires { link < self.now.links.opened }
        ensures { result ≡ has_spent_count self.now.links link }
    {
        match bay_of(&self.links, link) {
            Some(bay) => self.sides.has_spent_count(bay),
            None => left(&self.links, link).is_spent,
        }
    }

    /// Whether a count of any link has. Linear in the number of links; takes no memory.
    ///
    /// Own.
    pub fn any_count_is_spent(&self) -> bool
        ensures { result ≡ any_count_is_spent self.now.links }
    {
        for link in 0..self.opened() {
            if self.has_spent_count(link) {
                return true;
            }
        }
        false
    }

    /// How many references a side has. Constant; takes no memory.
    ///
    /// Libevent: event2/bufferevent.h, `bufferevent_incref`; "Bufferevents: advanced topics".
    pub fn references(&self, side: SideId) -> u32
        requires { side.link < self.now.links.opened }
        ensures { result ≡ (side_at self.now.links side).references }
    {
        match bay(&self.links, side) {
            Some(at) => self.sides.references(at),
            None => 0,
        }
    }

    /// The number of the side's group. None where it is in none, and for a freed side. Constant; takes no memory.
    ///
    /// Own.
    pub fn group(&self, side: SideId) -> Option<u32>
        requires { side.link < self.now.links.opened }
        ensures { result ≡ (side_at self.now.links side).group }
    {
        match bay(&self.links, side) {
            Some(at) => self.sides.group(at),
            None => None,
        }
    }

    /// The length of the side's input at which reading stops. Constant; takes no memory.
    ///
    /// Own; libevent has none where no mark is set.
    pub fn read_mark(&self, side: SideId) -> u64
        requires opened { side.link < self.now.links.opened }
        requires open { has_live_side self.now.links side ≡ true }
        ensures { result ≡ read_mark self.now.links side }
    {
        self.sides.read_mark(at(&self.links, side))
    }

    /// How many bytes that wait for the side's end hold the direction to it, where so many do in the run. Constant; takes no memory.
    ///
    /// Own; libevent's sample le-proxy holds by its write high mark.
    pub fn hold_mark(&self, side: SideId, hold: u64) -> u64
        requires opened { side.link < self.now.links.opened }
        requires open { has_live_side self.now.links side ≡ true }
        ensures { result ≡ hold_mark hold self.now.links side }
    {
        self.sides.hold_mark(at(&self.links, side), hold)
    }

    /// How many bytes were read from the side's end and not moved yet, or 2^64 - 1 where that is more. Constant; takes no memory.
    ///
    /// Libevent: event2/bufferevent.h, `bufferevent_get_input`; it is the input of two bufferevents together.
    pub fn input_len(&self, side: SideId) -> usize
        requires opened { side.link < self.now.links.opened }
        requires open { has_live_side self.now.links side ≡ true }
        ensures { result
            ≡ (let b = (lane_at self.now.links side).buffers in min (length b.raw_input + length b.input) (2 ^ 64 - 1)) }
    {
        self.sides.input_len(at(&self.links, side))
    }

    /// How many bytes were moved to the side and not given to its end yet, or 2^64 - 1 where that is more. Constant; takes no memory.
    ///
    /// Libevent: event2/bufferevent.h, `bufferevent_get_output`; it is the output of two bufferevents together.
    pub fn output_len(&self, side: SideId) -> usize
        requires opened { side.link < self.now.links.opened }
        requires open { has_live_side self.now.links side ≡ true }
        ensures { result
            ≡ (let b = (lane_at self.now.links (peer side)).buffers in min (length b.output + length b.raw_output) (2 ^ 64 - 1)) }
    {
        self.sides.output_len(at(&self.links, side))
    }

    /// The bytes that wait to be given to the side's end. Constant; takes no memory.
    ///
    /// Own.
    pub fn waiting_for(&self, side: SideId) -> &[u8]
        requires opened { side.link < self.now.links.opened }
        requires open { has_live_side self.now.links side ≡ true }
        ensures { result.now ≡ (lane_at self.now.links (peer side)).buffers.raw_output }
    {
        self.sides.waiting_for(at(&self.links, side))
    }

    /// The low mark of a direction of a side, in bytes. Constant; takes no memory.
    ///
    /// Libevent: event2/bufferevent.h, `bufferevent_getwatermark`; "Bufferevents: concepts and basics".
    pub fn low_mark(&self, side: SideId, dir: Dir) -> u64
        requires opened { side.link < self.now.links.opened }
        requires open { has_live_side self.now.links side ≡ true }
        ensures { result ≡ low_mark (side_at self.now.links side) dir }
    {
        self.sides.low_mark(at(&self.links, side), dir)
    }

    /// How many bytes are in the buffers of a side. Constant; takes no memory.
    ///
    /// Own.
    pub fn lengths(&self, side: SideId) -> Lengths
        requires opened { side.link < self.now.links.opened }
        requires open { has_live_side self.now.links side ≡ true }
        ensures { result ≡ lengths_of self.now.links side }
    {
        self.sides.lengths(at(&self.links, side))
    }

    /// The bytes that the read filter of a side made and that were not moved to its peer yet. Constant; takes no memory.
    ///
    /// Libevent: event2/bufferevent.h, `bufferevent_get_input`; "Bufferevents: concepts and basics".
    pub fn input(&self, side: SideId) -> &[u8]
        requires opened { side.link < self.now.links.opened }
        requires open { has_live_side self.now.links side ≡ true }
        ensures { result.now ≡ (lane_at self.now.links side).buffers.input }
    {
        self.sides.input(at(&self.links, side))
    }

    /// The timeout of a direction, in milliseconds; 0 is none. Constant; takes no memory.
    ///
    /// Libevent: event2/bufferevent.h, `bufferevent_set_timeouts`; "Bufferevents: concepts and basics".
    pub fn timeout(&self, side: SideId, dir: Dir) -> u64
        requires opened { side.link < self.now.links.opened }
        requires open { has_live_side self.now.links side ≡ true }
        ensures { result ≡ timeout_of (side_at self.now.links side) dir }
    {
        self.sides.timeout(at(&self.links, side), dir)
    }

    /// For how many milliseconds the direction was idle at a time; 0 where it was active later. Constant; takes no memory.
    ///
    /// Own.
    pub fn idle_time(&self, side: SideId, dir: Dir, time: u64) -> u64
        requires opened { side.link < self.now.links.opened }
        requires open { has_live_side self.now.links side ≡ true }
        ensures { result ≡ time - last_activity (side_at self.now.links side) dir }
    {
        self.sides.idle_time(at(&self.links, side), dir, time)
    }

    /// Whether all bytes of the direction from the side were given and no more will come. Constant; takes no memory.
    ///
    /// Own.
    pub fn is_complete(&self, side: SideId) -> bool
        requires opened { side.link < self.now.links.opened }
        requires open { has_live_side self.now.links side ≡ true }
        ensures { result ≡ is_complete self.now.links side }
    {
        self.sides.is_complete(at(&self.links, side))
    }

    /// Why the side is to be freed, where it is faulty: it failed, or else expired, or else a filter of it met a bad place. Constant;
    /// takes no memory.
    ///
    /// Own.
    pub fn fault(&self, side: SideId) -> Option<Cause>
        requires opened { side.link < self.now.links.opened }
        requires open { has_live_side self.now.links side ≡ true }
        ensures { result ≡ fault (side_at self.now.links side) }
    {
        self.sides.fault(at(&self.links, side))
    }
}
