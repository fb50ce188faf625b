// What is counted of the sides.
ghost use Rattle.std.specs.Prelude.{◌≡◌, ◌<◌};
ghost use Rattle.ev_types.specs.Sides.{peer};
ghost use Rattle.relay_sides.specs.Links.{lane_at, flow_at, has_spent_count_from, has_spent_count, any_count_is_spent};

use crate::side::upper;
use crate::sides::Sides;
use bev_core::Dir;
use ev_types::{Side, SideId};
use stream_filters::StreamFilter;

/// A count that has come so far lets a run end.
pub const SPENT: u64 = 1 << 62;

/// What was counted of a side, in bytes: what was read from its end, what was moved from its input to its peer's
/// output, and what its own end took.
///
/// Own.
#[derive(Clone, Copy, Debug, PartialEq, Eq)]
pub struct Counts {
    pub read: u64,
    pub moved: u64,
    pub given: u64,
}

impl Sides {
    /// What was counted of a side, freed or not. Constant; takes no memory.
    ///
    /// Own.
    pub fn counts(&self, side: SideId) -> Counts
        requires { side.link < self.now.links.opened }
        ensures read { result.read ≡ (lane_at self.now.links side).read }
        ensures moved { result.moved ≡ (flow_at self.now.links side).moved }
        ensures given { result.given ≡ (flow_at self.now.links (peer side)).given }
    {
        let own = &self.sides[side.number()];
        let from = &self.sides[side.peer().number()];
        Counts {
            read: own.read,
            moved: own.moved,
            given: from.given,
        }
    }

    /// Whether a count of the direction from the side has come to 2^62: bytes read, used or made by a filter, moved or given. Constant;
    /// takes no memory.
    ///
    /// Own.
    fn has_spent_count_from(&self, side: SideId) -> bool
        requires { side.link < self.now.links.opened }
        ensures { result ≡ has_spent_count_from self.now.links side }
    {
        let own = &self.sides[side.number()];
        let reader = self.world.filter(upper(side), Dir::Read);
        let writer = self.world.filter(upper(side.peer()), Dir::Write);
        reader.used() >= SPENT
            || own.moved >= SPENT
            || writer.used() >= SPENT
            || own.given >= SPENT
            || own.read >= SPENT
            || own.read_made >= SPENT
            || own.write_made >= SPENT
    }

    /// Whether a count of any direction has. Linear in the number of sides; takes no memory.
    ///
    /// Own.
    pub fn any_count_is_spent(&self) -> bool
        ensures { result ≡ any_count_is_spent self.now.links }
    {
        for link in 0..self.opened {
            if self.has_spent_count(link) {
                return true;
            }
        }
        false
    }

    /// Whether a count of the link has, in either direction. Freed sides count too. Constant; takes no memory.
    ///
    /// Own.
    pub fn has_spent_count(&self, link: u32) -> bool
        requires { link < self.now.links.opened }
        ensures { result ≡ has_spent_count self.now.links link }
    {
        let near = SideId {
            link,
            side: Side::In,
        };
        self.has_spent_count_from(near) || self.has_spent_count_from(near.peer())
    }
}
