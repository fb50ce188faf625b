// The links that are watched as time goes on: those of sides with a timeout, and some at which something changed since they were looked
// at. A side with an empty bucket rests until the next tick of its limit.
ghost use Rattle.std.specs.Prelude.{◌≡◌, ℕ, ◌+◌, ◌^◌, ◌<◌, ◌≤◌, ◌==◌, ◌&&◌, not, if◌then◌else◌, true, false, MatchOption, IfSome};
ghost use Rattle.relay_core.specs.Timeless.{side_gains, AreOut, IsStillSide, AreTimeless, AreTimelessBeside};
ghost use Rattle.relay_core.specs.Timeless.{is_still_side, is_still_link, AreForgotten};

use crate::ctl::Ctl;
use crate::relay::Relay;
use ev_types::{Side, SideId};
use number_set::NumberSet;
use relay_sides::Dir;

impl Relay {
    /// The links that are watched. Time changes nothing at a side of every other link, but what its own limit and its group leave it; a
    /// link at which its limit may leave it more is watched as a turn begins. Constant; takes no memory.
    ///
    /// Own.
    pub fn watched(&self) -> &NumberSet
        ensures set { result.now ≡ self.now.watched }
        ensures beside { AreTimelessBeside result.now self.now.state }
    {
        self.ctl.resting.watched()
    }

    /// The first watched link from a number on.
    pub(crate) fn next_watched(&self, from: u32) -> Option<u32>
        ensures links { MatchOption result (AreTimeless self.now.state from self.now.state.plain.opened)
            (λ link. (from ≤ link) × (link < self.now.state.plain.opened) × (link + 1 < 2 ^ 32) × AreTimeless self.now.state from link) }
        ensures out { MatchOption result (AreOut self.now.watched from self.now.state.plain.opened)
            (λ link. AreOut self.now.watched from link) }
        ensures watched { IfSome result (λ link. self.now.watched.has link ≡ true) }
    {
        let link = self.ctl.resting.watched().next(from as usize)?;
        if link < self.ctl.sides.opened() as usize {
            Some(link as u32)
        } else {
            None
        }
    }

    /// The links are watched no more whose sides wait for no moment, or for the next tick of a limit alone. Takes no memory; linear in the
    /// links that are watched, and logarithmic in all links for each such tick; it looks at a word for each 4,096 links.
    ///
    /// Own.
    pub fn forget_timeless(&mut self)
        ensures rest { self.new ≡ record self.old { watched = self.new.watched } }
        ensures forgotten { AreForgotten self.old.state self.old.state.plain.opened self.old.watched self.new.watched }
    {
        let mut from = 0;
        while let Some(link) = self.next_watched(from) {
            self.forget_where_timeless(link);
            from = link + 1;
        }
    }

    /// A link is watched no more where its sides wait for no moment, or for the next tick of a limit alone.
    fn forget_where_timeless(&mut self, link: u32)
        requires { link < self.old.state.plain.opened }
        ensures rest { self.new ≡ record self.old { watched = self.new.watched } }
        ensures forgotten { (n : ℕ) → self.new.watched.has n
            ≡ (if n == link then self.old.watched.has n && not (is_still_link self.old.state n) else self.old.watched.has n) }
    {
        let near = SideId {
            link,
            side: Side::In,
        };
        self.ctl.forget_members(near);
        if self.ctl.is_timeless(near) && self.ctl.is_timeless(near.peer()) {
            let gain = self.ctl.gains_at(near);
            let far_gain = self.ctl.gains_at(near.peer());
            self.ctl.resting.rest(link as usize, gain, far_gain);
        }
    }
}

impl Ctl {
    ghost use Rattle.std.specs.Prelude.{is_some, option_to_list};
    ghost use Rattle.relay_state.specs.State.{gauge_at};
    ghost use Rattle.relay_model.specs.Plain.{side_at};
    ghost use Rattle.relay_model.specs.Moments.{is_timed};
    ghost use Rattle.std.specs.Prelude.{None};
    ghost use Rattle.ev_types.specs.Sides.{number};
    ghost use Rattle.rate_group.specs.Steps.{group_of, share_in};
    ghost use Rattle.token_bucket.specs.declared.limit.Dir.TheVariants as dir;

    /// Whether the side is live and has a timeout for the direction.
    pub(crate) fn is_timed(&self, side: SideId, dir: Dir) -> bool
        requires { side.link < self.now.state.plain.opened }
        ensures { result ≡ is_timed (side_at self.now.state.plain side) dir }
    {
        self.sides.is_live(side) && self.sides.timeout(side, dir) >= 1
    }

    /// Whether a live side has expired.
    pub(crate) fn is_expired(&self, side: SideId) -> bool
        requires { side.link < self.now.state.plain.opened }
        ensures { result ≡ ((side_at self.now.state.plain side).live && (side_at self.now.state.plain side).expired) }
    {
        let flags = self.sides.flags(side);
        flags.live && flags.expired
    }

    /// When a bucket of a live side that holds nothing gains again.
    pub(crate) fn gains_at(&self, side: SideId) -> Option<u64>
        requires { side.link < self.now.state.plain.opened }
        ensures { option_to_list result ≡ side_gains self.now.state.plain.time (side_at self.now.state.plain side)
            (gauge_at self.now.state side) }
    {
        if !self.sides.is_live(side) {
            return None;
        }
        self.sides.gains_at(side, self.time)
    }

    /// Whether the side has no timeout, if it is live, and has not expired.
    fn is_timeless(&self, side: SideId) -> bool
        requires { side.link < self.now.state.plain.opened }
        ensures still { result ≡ true → IsStillSide self.now.state side }
        ensures told { result ≡ is_still_side self.now.state side }
    {
        !self.is_timed(side, Dir::Read)
            && !self.is_timed(side, Dir::Write)
            && !self.is_expired(side)
    }

    /// Whether the side may be in a group.
    fn is_member(&self, side: SideId) -> bool
        ensures free { result ≡ false → group_of (number side) self.now.state.groups.members ≡ None }
        ensures told { result ≡ is_some (share_in (number side) dir.Read self.now.state.groups) }
    {
        self.groups.share(side.number() as u64, Dir::Read).is_some()
    }

    /// A link is not one of those with members where neither of its sides is in a group. The In side is given.
    fn forget_members(&mut self, near: SideId)
        ensures { self.new ≡ self.old }
    {
        if !self.is_member(near) && !self.is_member(near.peer()) {
            self.grouped.remove(near.link as usize);
        }
    }
}
