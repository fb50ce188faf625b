// What may be asked of a side of a link that is not over: that its directions are enabled, its marks, its timeouts and its references; and
// when it was active last.
ghost use Rattle.std.specs.Prelude.{◌≡◌, ◌<◌, ◌+◌, ◌-◌, ◌^◌, true, false};
ghost use Rattle.relay_model.specs.Asks.{enabled, marked};
ghost use Rattle.relay_model.specs.Moments.{active_at, expire};
ghost use Rattle.relay_sides.specs.Links.{side_at, change_side};
ghost use Rattle.relay_pool.specs.PoolValue.{KeepsBays, has_live_side};

use crate::bay::at;
use crate::pool::LinkPool;
use bev_core::Dir;
use ev_types::SideId;

impl LinkPool {
    /// Enables a direction of a side. Constant; takes no memory.
    ///
    /// Libevent: event2/bufferevent.h, `bufferevent_enable`; "Bufferevents: concepts and basics".
    pub fn enable(&mut self, side: SideId, dir: Dir)
        requires opened { side.link < self.old.links.opened }
        requires open { has_live_side self.old.links side ≡ true }
        ensures links { self.new.links ≡ change_side side (enabled dir true) self.old.links }
        ensures bays { KeepsBays self.old self.new }
    {
        self.sides.enable(at(&self.links, side), dir);
    }

    /// Disables a direction of a side. Constant; takes no memory.
    ///
    /// Libevent: event2/bufferevent.h, `bufferevent_disable`; "Bufferevents: concepts and basics".
    pub fn disable(&mut self, side: SideId, dir: Dir)
        requires opened { side.link < self.old.links.opened }
        requires open { has_live_side self.old.links side ≡ true }
        ensures links { self.new.links ≡ change_side side (enabled dir false) self.old.links }
        ensures bays { KeepsBays self.old self.new }
    {
        self.sides.disable(at(&self.links, side), dir);
    }

    /// Sets both marks of a direction of a side, in bytes. A high mark of 0 stands for the usual one. Constant; takes no memory.
    ///
    /// Libevent: event2/bufferevent.h, `bufferevent_setwatermark`; "Bufferevents: concepts and basics".
    pub fn set_watermark(&mut self, side: SideId, dir: Dir, low: u64, high: u64)
        requires opened { side.link < self.old.links.opened }
        requires open { has_live_side self.old.links side ≡ true }
        ensures links { self.new.links ≡ change_side side (λ x. record x { marks = marked dir low high x.marks }) self.old.links }
        ensures bays { KeepsBays self.old self.new }
    {
        self.sides
            .set_watermark(at(&self.links, side), dir, low, high);
    }

    /// Sets both timeouts of a side, in milliseconds, and makes a time the last activity of both directions. 0 is no timeout. Constant;
    /// takes no memory.
    ///
    /// Libevent: event2/bufferevent.h, `bufferevent_set_timeouts`; "Bufferevents: concepts and basics".
    pub fn set_timeouts(&mut self, side: SideId, read_ms: u64, write_ms: u64, time: u64)
        requires opened { side.link < self.old.links.opened }
        requires open { has_live_side self.old.links side ≡ true }
        ensures links { self.new.links
            ≡ change_side side
            (λ x. record x { timeouts = record { read_ms = read_ms; write_ms = write_ms }; last_read = time; last_write = time })
            self.old.links }
        ensures bays { KeepsBays self.old self.new }
    {
        self.sides
            .set_timeouts(at(&self.links, side), read_ms, write_ms, time);
    }

    /// One reference more of a side. It is asked that there are fewer than 2^32 - 1. Constant; takes no memory.
    ///
    /// Libevent: event2/bufferevent.h, `bufferevent_incref`; "Bufferevents: advanced topics".
    pub fn incref(&mut self, side: SideId)
        requires opened { side.link < self.old.links.opened }
        requires open { has_live_side self.old.links side ≡ true }
        requires few { (side_at self.old.links side).references < 2 ^ 32 - 1 }
        ensures links { self.new.links ≡ change_side side (λ x. record x { references = x.references + 1 }) self.old.links }
        ensures bays { KeepsBays self.old self.new }
    {
        self.sides.incref(at(&self.links, side));
    }

    /// One reference less of a side, also of a freed one. It is asked that there is one. Constant; takes no memory.
    ///
    /// Libevent: event2/bufferevent.h, `bufferevent_decref`; "Bufferevents: advanced topics".
    /// Differs: the last reference frees nothing.
    pub fn decref(&mut self, side: SideId)
        requires opened { side.link < self.old.links.opened }
        requires some { 0 < (side_at self.old.links side).references }
        ensures links { self.new.links ≡ change_side side (λ x. record x { references = x.references - 1 }) self.old.links }
        ensures bays { KeepsBays self.old self.new }
    {
        self.sides.decref(at(&self.links, side));
    }

    /// The direction was active at a time. Constant; takes no memory.
    ///
    /// Own.
    pub fn be_active(&mut self, side: SideId, dir: Dir, time: u64)
        requires opened { side.link < self.old.links.opened }
        requires open { has_live_side self.old.links side ≡ true }
        ensures links { self.new.links ≡ change_side side (active_at time dir) self.old.links }
        ensures bays { KeepsBays self.old self.new }
    {
        self.sides.be_active(at(&self.links, side), dir, time);
    }

    /// A timeout of the side has passed in a direction, which is disabled. Constant; takes no memory.
    ///
    /// Libevent: event2/bufferevent.h, `BEV_EVENT_TIMEOUT`; "Bufferevents: concepts and basics".
    pub fn expire(&mut self, side: SideId, dir: Dir)
        requires opened { side.link < self.old.links.opened }
        requires open { has_live_side self.old.links side ≡ true }
        ensures links { self.new.links ≡ change_side side (expire dir) self.old.links }
        ensures bays { KeepsBays self.old self.new }
    {
        self.sides.expire(at(&self.links, side), dir);
    }
}
