// Opening links, and giving up the bays of those that are over.
ghost use Rattle.std.specs.Prelude.{◌≡◌, ◌≤◌, ◌<◌, ◌+◌, max, true, false, not, ◌&&◌, [], ◌∷◌, ◌++◌, OnOk, IsOk, slice_set};
ghost use Rattle.ev_types.specs.Sides.{peer};
ghost use Rattle.relay_sides.specs.Links.{with_link, side_at, lane_at};
ghost use Rattle.relay_sides.specs.Opening.{limits_of};
ghost use Rattle.relay_pool.specs.Over.{link_alone};
ghost use Rattle.relay_pool.specs.PoolValue.{KeepsBays, is_done_side, is_done_link, is_kept, kept_links};
ghost use Rattle.relay_pool.specs.Stays.{IsRemnant, IsDoneSide};

use crate::bay::bay_of;
use crate::memory::Memory;
use crate::pool::LinkPool;
use crate::stay::{Over, Stay};
use ev_types::{NoMemory, Side, SideId};
use relay_sides::{NewSide, Sides, SpareLimits};

/// How many links can be opened: their numbers are below 2^32 - 1.
const MOST_LINKS: usize = u32::MAX as usize;

/// Whether nothing is to be done at a side any more: it is freed and shut, and has no reference.
fn is_idle(sides: &Sides, side: SideId) -> bool
    requires { side.link < sides.now.links.opened }
    ensures told { result ≡ is_done_side sides.now.links side }
    ensures done { result ≡ true → IsDoneSide sides.now.links side }
{
    let flags = sides.flags(side);
    !flags.live
        && flags.closed
        && sides.references(side) == 0
        && sides.group(side).is_none()
        && sides.waiting_for(side).is_empty()
}

/// What is left of a link that is over, of which this is the In side.
fn left_of(sides: &Sides, near: SideId) -> Over
    requires opened { near.link < sides.now.links.opened }
    requires first { near.side ≡ Side.In }
    requires near { IsDoneSide sides.now.links near }
    requires far { IsDoneSide sides.now.links (peer near) }
    ensures over { IsRemnant result }
    ensures memory { result.memory.kept ≡ link_alone sides.now.links near.link }
{
    let far = near.peer();
    Over {
        near: sides.flags(near),
        far: sides.flags(far),
        near_counts: sides.counts(near),
        far_counts: sides.counts(far),
        is_spent: sides.has_spent_count(near.link),
        memory: Memory::of(sides, &near),
    }
}

impl LinkPool {
    /// Makes room for one link more: a bay that was given back, or a new one. It is also refused where 2^32 - 1 links were
    /// opened, and where 2^30 - 1 bays are taken. Takes memory where there is no such room; constant, but where the room grows.
    ///
    /// Own.
    pub fn reserve_link(&mut self) -> Result<(), NoMemory>
        ensures links { self.new.links ≡ self.old.links }
        ensures bays { KeepsBays self.old self.new }
        ensures room { OnOk result (0 < self.new.spare_links) }
        ensures there { 0 < self.old.spare_links → IsOk result }
    {
        if self.links.len() >= MOST_LINKS {
            return Err(NoMemory);
        }
        self.links.reserve(1)?;
        if !self.free.is_empty() {
            return Ok(());
        }
        self.owners.reserve(1)?;
        self.free
            .reserve((self.owners.len() + 1).saturating_sub(self.free.len()))?;
        self.sides.reserve_link()
    }

    /// Opens the next link in a turn and at its time, with its In and its Out side, in room and with memory for their limits that were
    /// made before. It gets a bay that was given back, if there is one. Takes no memory; constant.
    ///
    /// Own.
    pub fn open(
        &mut self,
        near: NewSide,
        far: NewSide,
        time: u64,
        turn: u64,
        spare: &mut SpareLimits,
    )
        requires room { 0 < self.old.spare_links }
        requires limits { limits_of near far ≤ spare.old }
        ensures links { self.new.links ≡ with_link time turn near far self.old.links }
        ensures kept { self.new.kept ≡ self.old.kept ++ true ∷ [] }
        ensures bays { self.new.bays ≡ max self.old.bays (kept_links self.new) }
        ensures spare { spare.old ≤ spare.new + limits_of near far }
    {
        let link = self.links.len() as u32;
        if let Some(bay) = self.free.pop() {
            self.sides.reopen(bay, near, far, time, turn, spare);
            self.owners[bay as usize] = Some(link);
            self.links.push(Stay::Bay(bay)).unwrap();
            return;
        }
        let bay = self.sides.opened();
        self.sides.open(near, far, time, turn, spare);
        self.owners.push(Some(link)).unwrap();
        self.links.push(Stay::Bay(bay)).unwrap();
    }

    /// Gives the bay of a link back where the link is over: its sides are freed and shut and have no reference. Else nothing changes.
    /// Takes no memory; constant.
    ///
    /// Own.
    pub fn leave(&mut self, link: u32)
        requires { link < self.old.links.opened }
        ensures links { self.new.links ≡ self.old.links }
        ensures over { is_done_link self.old.links link ≡ true → is_kept self.new link ≡ false }
        ensures kept { self.new.kept
            ≡ slice_set self.old.kept link (is_kept self.old link && not (is_done_link self.old.links link)) }
        ensures bays { self.new.bays ≡ self.old.bays }
    {
        let Some(bay) = bay_of(&self.links, link) else {
            return;
        };
        let near = SideId {
            link: bay,
            side: Side::In,
        };
        if !is_idle(&self.sides, near) || !is_idle(&self.sides, near.peer()) {
            return;
        }
        let over = left_of(&self.sides, near);
        self.links[link as usize] = Stay::Over(over);
        self.owners[bay as usize] = None;
        // its room was made with the bay
        self.free.push_reserved(bay);
    }
}
