// What changes of a link that is over.
ghost use Rattle.std.specs.Prelude.{◌≡◌, ◌<◌, length};
ghost use Rattle.ev_types.specs.Sides.{peer};
ghost use Rattle.relay_sides.specs.Links.{side_at, lane_at, flow_at};
ghost use Rattle.relay_sides.specs.SideView.{flags_of};
ghost use Rattle.relay_pool.specs.Over.{one_side, changed_by, with_change};
ghost use Rattle.relay_pool.specs.Stays.{IsRemnant, IsOutOfBay, IsLeftBy, stay_at};

use crate::change::{Change, SideChange};
use crate::stay::{Over, Stay};
use ev_types::{Side, SideId};
use relay_sides::{Counts, SideFlags};

impl Over {
    /// What is so of a side.
    pub(crate) fn flags(&self, side: Side) -> SideFlags
        requires { IsRemnant self.now }
        ensures { result ≡ flags_of (side_at self.now.memory.kept (one_side side)) }
    {
        match side {
            Side::In => self.near,
            Side::Out => self.far,
        }
    }

    /// What was counted of it.
    pub(crate) fn counts(&self, side: Side) -> Counts
        requires { IsRemnant self.now }
        ensures read { result.read ≡ (lane_at self.now.memory.kept (one_side side)).read }
        ensures moved { result.moved ≡ (flow_at self.now.memory.kept (one_side side)).moved }
        ensures given { result.given ≡ (flow_at self.now.memory.kept (peer (one_side side))).given }
    {
        match side {
            Side::In => self.near_counts,
            Side::Out => self.far_counts,
        }
    }

    /// A side is changed.
    fn change(&mut self, step: SideChange)
        ensures kept { self.new.memory.kept ≡ changed_by step self.old.memory.kept }
        ensures over { IsRemnant self.old → IsRemnant self.new }
    {
        self.near = step.made(Side::In, self.near);
        self.far = step.made(Side::Out, self.far);
        self.memory = self.memory.then(&step);
    }
}

/// A side of a link that is over is changed.
pub(crate) fn change_left(links: &mut Vec<Stay>, side: SideId, change: Change)
    requires opened { side.link < length links.old.items }
    requires left { IsOutOfBay (stay_at links.old.items side.link) }
    ensures { IsLeftBy (with_change change (one_side side.side)) side.link links.old.items links.new.items }
{
    let step = SideChange {
        side: side.side,
        change,
    };
    if let Stay::Over(over) = &mut links[side.link as usize] {
        over.change(step);
    }
}
