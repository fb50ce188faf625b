// What the relay counts.
ghost use Rattle.std.specs.Prelude.{◌≡◌, ◌-◌, ◌^◌, ◌<◌, ◌≤◌, min, IsTrue, Some, None, if◌then◌else◌, nat_lt};
ghost use Rattle.relay_state.specs.Counting.{link_state, link_count, is_open, open_below, buffered_at, buffered_below, is_spent};

use crate::relay::Relay;
use ev_types::{LinkCount, LinkState, Side, SideId};
use relay_sides::SPENT;

impl Relay {
    /// What a link came to. None exactly from the number of opened links on. Constant; takes no memory.
    pub fn link(&self, link: u32) -> Option<LinkCount>
        ensures { result ≡ (if nat_lt link self.now.state.plain.opened then Some (link_count self.now.state link) else None) }
    {
        if link >= self.ctl.sides.opened() {
            return None;
        }
        let near = SideId {
            link,
            side: Side::In,
        };
        let near_counts = self.ctl.sides.counts(near);
        let far_counts = self.ctl.sides.counts(near.peer());
        Some(LinkCount {
            state: self.link_state(link),
            in_read: near_counts.read,
            in_given: near_counts.given,
            out_read: far_counts.read,
            out_given: far_counts.given,
        })
    }

    fn link_state(&self, link: u32) -> LinkState
        requires { link < self.now.state.plain.opened }
        ensures { result ≡ link_state self.now.state link }
    {
        let near = SideId {
            link,
            side: Side::In,
        };
        let flags = self.ctl.sides.flags(near);
        let far_flags = self.ctl.sides.flags(near.peer());
        if flags.live || far_flags.live {
            LinkState::Live
        } else if flags.write_ended && far_flags.write_ended {
            LinkState::Done
        } else {
            LinkState::Gone
        }
    }

    /// How many links have a live side. Linear in the links; takes no memory.
    pub fn open_links(&self) -> u32
        ensures { result ≡ open_below self.now.state self.now.state.plain.opened }
    {
        let mut count = 0;
        for link in 0..self.ctl.sides.opened() {
            if self.is_open(link) {
                count += 1;
            }
        }
        count
    }

    /// Whether a side of the link is live. Constant; takes no memory.
    ///
    /// Own.
    pub fn is_open(&self, link: u32) -> bool
        requires { link < self.now.state.plain.opened }
        ensures { result ≡ is_open self.now.state link }
    {
        let near = SideId {
            link,
            side: Side::In,
        };
        self.ctl.sides.is_live(near) || self.ctl.sides.is_live(near.peer())
    }

    /// The number of bytes in all buffers of live sides, or 2^64 - 1 where that is more. Linear in the links; takes no
    /// memory.
    pub fn buffered(&self) -> u64
        ensures { result ≡ min (buffered_below self.now.state self.now.state.plain.opened) (2 ^ 64 - 1) }
    {
        let mut total: u64 = 0;
        for link in 0..self.ctl.sides.opened() {
            let near = SideId {
                link,
                side: Side::In,
            };
            total = total.saturating_add(self.buffered_at(near));
            total = total.saturating_add(self.buffered_at(near.peer()));
        }
        total
    }

    fn buffered_at(&self, side: SideId) -> u64
        requires { side.link < self.now.state.plain.opened }
        ensures { result ≡ min (buffered_at self.now.state side) (2 ^ 64 - 1) }
    {
        if !self.ctl.sides.is_live(side) {
            return 0;
        }
        let input = self.ctl.sides.input_len(side) as u64;
        input.saturating_add(self.ctl.sides.output_len(side) as u64)
    }

    /// How many turns were begun. Constant; takes no memory.
    ///
    /// Own.
    pub fn turns(&self) -> u64
        ensures { result ≡ self.now.state.plain.turn }
    {
        self.ctl.turns
    }

    /// Whether a count has come to 2^62: turns, or bytes read from an end, used or made by a filter, moved or given.
    /// Linear in the links; takes no memory.
    pub fn is_spent(&self) -> bool
        ensures { result ≡ is_spent self.now.state }
    {
        self.ctl.turns >= SPENT || self.ctl.sides.any_count_is_spent()
    }
}
