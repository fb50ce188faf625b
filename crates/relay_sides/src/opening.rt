// Opening links.
ghost use Rattle.std.specs.Prelude.{◌≡◌, ◌≤◌, ◌<◌, ◌+◌, ◌-◌, ◌^◌, ◌++◌, length, OnOk, IsOk};
ghost use Rattle.relay_sides.specs.Links.{with_link, with_new_link};
ghost use Rattle.relay_sides.specs.Opening.{side_slots, side_renewed, limits_of};

use crate::limits::SpareLimits;
use crate::side::{SideState, lower};
use crate::sides::Sides;
use bev_core::Dir;
use bev_world::World;
use ev_types::{FilterKind, LimitCfg, Marks, NoMemory, Side, SideId, Timeouts};

/// What a side gets as its link opens: its marks and timeouts, its two filters, its limit and its group, and whether its end is
/// connected.
///
/// Own.
#[derive(Clone, Copy, Debug, PartialEq, Eq)]
pub struct NewSide {
    pub marks: Marks,
    pub timeouts: Timeouts,
    /// What is read at the side goes through it.
    pub read: FilterKind,
    /// What is given to its end goes through it.
    pub write: FilterKind,
    pub limit: Option<LimitCfg>,
    pub group: Option<u32>,
    pub connected: bool,
}

/// How many links can be opened: each has four bufferevents, and their numbers are below 2^32 - 1.
const MOST_LINKS: u32 = (1 << 30) - 1;

impl Sides {
    /// Makes room for one link more. It is also refused where 2^30 - 1 links were opened. Takes memory where there is no such room;
    /// constant, but where the room grows.
    ///
    /// Own.
    pub fn reserve_link(&mut self) -> Result<(), NoMemory>
        ensures links { self.new.links ≡ self.old.links }
        ensures room { OnOk result (0 < self.new.spare_links) }
        ensures there { 0 < self.old.spare_links → IsOk result }
    {
        if self.opened >= MOST_LINKS {
            return Err(NoMemory);
        }
        self.sides.reserve(2)?;
        self.world.reserve(4)
    }

    /// Opens the next link in a turn and at its time, with its In and its Out side, in room and with memory for their limits that were
    /// made before. Takes no memory; constant.
    ///
    /// Own.
    pub fn open(
        &mut self,
        near: NewSide,
        far: NewSide,
        time: u64,
        turn: u64,
        spare: &mut SpareLimits,
    )
        requires room { 0 < self.old.spare_links }
        requires limits { limits_of near far ≤ spare.old }
        ensures links { self.new.links ≡ with_link time turn near far self.old.links }
        ensures spare { spare.old ≤ spare.new + limits_of near far }
    {
        let near_limit = spare.take_first(near.limit, time, turn);
        let far_limit = spare.take_first(far.limit, time, turn);
        let near_state = SideState::new(near.connected, near_limit, near.group);
        let far_state = SideState::new(far.connected, far_limit, far.group);
        add_bevs(&mut self.world, near, time);
        add_bevs(&mut self.world, far, time);
        self.sides.push(near_state).unwrap();
        self.sides.push(far_state).unwrap();
        self.opened += 1;
    }

    /// Opens a link of before anew, in a turn and at its time, with memory for the limits of its sides that was made before: it has two
    /// new sides, and what it had is dropped. Takes no memory; constant.
    ///
    /// Own.
    pub fn reopen(
        &mut self,
        link: u32,
        near: NewSide,
        far: NewSide,
        time: u64,
        turn: u64,
        spare: &mut SpareLimits,
    )
        requires opened { link < self.old.links.opened }
        requires limits { limits_of near far ≤ spare.old }
        ensures links { self.new.links ≡ with_new_link link time turn near far self.old.links }
        ensures spare { spare.old ≤ spare.new + limits_of near far }
    {
        let first = SideId {
            link,
            side: Side::In,
        };
        let near_limit = spare.take_first(near.limit, time, turn);
        let far_limit = spare.take_first(far.limit, time, turn);
        self.readable = 0;
        renew_bevs(&mut self.world, lower(first), near, time);
        renew_bevs(&mut self.world, lower(first.peer()), far, time);
        self.sides[first.number()] = SideState::new(near.connected, near_limit, near.group);
        self.sides[first.peer().number()] = SideState::new(far.connected, far_limit, far.group);
    }
}

/// Makes the two bufferevents of a side, in room that was made before: that of its end, and a filter over it.
fn add_bevs(world: &mut World, side: NewSide, time: u64)
    requires room { 2 ≤ world.old.spare }
    requires numbers { length world.old.slots + 2 < 2 ^ 32 }
    ensures slots { world.new.slots ≡ world.old.slots ++ side_slots world.old.chunked time side (length world.old.slots) }
    ensures chunked { world.new.chunked ≡ world.old.chunked }
    ensures spare { world.new.spare ≡ world.old.spare - 2 }
{
    let id = world.new_socket().unwrap();
    let Marks {
        read_low,
        read_high,
        write_low,
        write_high,
    } = side.marks;
    let Timeouts { read_ms, write_ms } = side.timeouts;
    world.enable(id, Dir::Read).unwrap();
    world
        .set_watermark(id, Dir::Read, read_low, read_high)
        .unwrap();
    world
        .set_watermark(id, Dir::Write, write_low, write_high)
        .unwrap();
    world.set_timeouts(id, read_ms, write_ms, time).unwrap();
    let _over = world.new_filter(id, side.read, side.write).unwrap();
}

/// Makes the two bufferevents of a side new, of which this is the number of the first.
fn renew_bevs(world: &mut World, at: usize, side: NewSide, time: u64)
    requires there { at + 1 < length world.old.slots }
    requires numbers { at + 1 < 2 ^ 64 }
    ensures slots { world.new.slots ≡ side_renewed world.old.chunked time side at world.old.slots }
    ensures chunked { world.new.chunked ≡ world.old.chunked }
    ensures spare { world.new.spare ≡ world.old.spare }
{
    let Marks {
        read_low,
        read_high,
        write_low,
        write_high,
    } = side.marks;
    let Timeouts { read_ms, write_ms } = side.timeouts;
    world.renew_at(at, FilterKind::None, FilterKind::None);
    world.enable_at(at, Dir::Read);
    world.set_watermark_at(at, Dir::Read, read_low, read_high);
    world.set_watermark_at(at, Dir::Write, write_low, write_high);
    world.set_timeouts_at(at, read_ms, write_ms, time);
    world.renew_at(at + 1, side.read, side.write);
}
