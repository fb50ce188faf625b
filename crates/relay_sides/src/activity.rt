// When the sides were active last, and their timeouts.
ghost use Rattle.std.specs.Prelude.{◌≡◌, ◌<◌, ◌-◌};
ghost use Rattle.relay_model.specs.Moments.{timeout_of, last_activity, active_at, expire};
ghost use Rattle.relay_sides.specs.Links.{side_at, change_side};

use crate::side::lower;
use crate::sides::Sides;
use bev_core::Dir;
use ev_types::SideId;

impl Sides {
    /// The timeout of a direction, in milliseconds; 0 is none. Constant; takes no memory.
    ///
    /// Libevent: event2/bufferevent.h, `bufferevent_set_timeouts`; "Bufferevents: concepts and basics".
    pub fn timeout(&self, side: SideId, dir: Dir) -> u64
        requires { side.link < self.now.links.opened }
        ensures { result ≡ timeout_of (side_at self.now.links side) dir }
    {
        self.world.bev(lower(side)).timeout(dir)
    }

    /// For how many milliseconds the direction was idle at a time; 0 where it was active later. Constant; takes no memory.
    ///
    /// Own.
    pub fn idle_time(&self, side: SideId, dir: Dir, time: u64) -> u64
        requires { side.link < self.now.links.opened }
        ensures { result ≡ time - last_activity (side_at self.now.links side) dir }
    {
        time.saturating_sub(self.world.bev(lower(side)).last_activity(dir))
    }

    /// The direction was active at a time. Constant; takes no memory.
    ///
    /// Own.
    pub fn be_active(&mut self, side: SideId, dir: Dir, time: u64)
        requires { side.link < self.old.links.opened }
        ensures { self.new.links ≡ change_side side (active_at time dir) self.old.links }
    {
        self.readable = 0;
        self.world.touch_at(lower(side), dir, time);
    }

    /// A timeout of the side has passed in a direction, which is disabled. Constant; takes no memory.
    ///
    /// Libevent: event2/bufferevent.h, `BEV_EVENT_TIMEOUT`; "Bufferevents: concepts and basics".
    pub fn expire(&mut self, side: SideId, dir: Dir)
        requires { side.link < self.old.links.opened }
        ensures { self.new.links ≡ change_side side (expire dir) self.old.links }
    {
        self.readable = 0;
        self.world.expire_at(lower(side), dir);
        let own = &mut self.sides[side.number()];
        own.expired = true;
    }
}
