// What may be asked of a side: that its directions are enabled, its marks, its timeouts and its references. Who asks, and when it is
// refused, is said above.
ghost use Rattle.std.specs.Prelude.{◌≡◌, ◌<◌, ◌+◌, ◌-◌, ◌^◌, true, false};
ghost use Rattle.relay_model.specs.Asks.{enabled, marked};
ghost use Rattle.relay_sides.specs.Links.{side_at, change_side};

use crate::side::lower;
use crate::sides::Sides;
use bev_core::Dir;
use ev_types::SideId;

impl Sides {
    /// Enables a direction of a side. Constant; takes no memory.
    ///
    /// Libevent: event2/bufferevent.h, `bufferevent_enable`; "Bufferevents: concepts and basics".
    pub fn enable(&mut self, side: SideId, dir: Dir)
        requires { side.link < self.old.links.opened }
        ensures { self.new.links ≡ change_side side (enabled dir true) self.old.links }
    {
        self.readable = 0;
        self.world.enable_at(lower(side), dir);
    }

    /// Disables a direction of a side. Constant; takes no memory.
    ///
    /// Libevent: event2/bufferevent.h, `bufferevent_disable`; "Bufferevents: concepts and basics".
    pub fn disable(&mut self, side: SideId, dir: Dir)
        requires { side.link < self.old.links.opened }
        ensures { self.new.links ≡ change_side side (enabled dir false) self.old.links }
    {
        self.readable = 0;
        self.world.disable_at(lower(side), dir);
    }

    /// Sets both marks of a direction of a side, in bytes. A high mark of 0 stands for the usual one. Constant; takes no memory.
    ///
    /// Libevent: event2/bufferevent.h, `bufferevent_setwatermark`; "Bufferevents: concepts and basics".
    pub fn set_watermark(&mut self, side: SideId, dir: Dir, low: u64, high: u64)
        requires { side.link < self.old.links.opened }
        ensures { self.new.links ≡ change_side side (λ x. record x { marks = marked dir low high x.marks }) self.old.links }
    {
        self.readable = 0;
        self.world.set_watermark_at(lower(side), dir, low, high);
    }

    /// Sets both timeouts of a side, in milliseconds, and makes a time the last activity of both directions. 0 is no timeout. Constant;
    /// takes no memory.
    ///
    /// Libevent: event2/bufferevent.h, `bufferevent_set_timeouts`; "Bufferevents: concepts and basics".
    pub fn set_timeouts(&mut self, side: SideId, read_ms: u64, write_ms: u64, time: u64)
        requires { side.link < self.old.links.opened }
        ensures { self.new.links
            ≡ change_side side (λ x. record x { timeouts = record { read_ms = read_ms; write_ms = write_ms }; last_read = time; last_write = time })
            self.old.links }
    {
        self.readable = 0;
        self.world
            .set_timeouts_at(lower(side), read_ms, write_ms, time);
    }

    /// How many references a side has. Constant; takes no memory.
    ///
    /// Libevent: event2/bufferevent.h, `bufferevent_incref`; "Bufferevents: advanced topics".
    pub fn references(&self, side: SideId) -> u32
        requires { side.link < self.now.links.opened }
        ensures { result ≡ (side_at self.now.links side).references }
    {
        self.world.bev(lower(side)).references()
    }

    /// One reference more of a side. It is asked that there are fewer than 2^32 - 1. Constant; takes no memory.
    ///
    /// Libevent: event2/bufferevent.h, `bufferevent_incref`; "Bufferevents: advanced topics".
    pub fn incref(&mut self, side: SideId)
        requires opened { side.link < self.old.links.opened }
        requires few { (side_at self.old.links side).references < 2 ^ 32 - 1 }
        ensures { self.new.links ≡ change_side side (λ x. record x { references = x.references + 1 }) self.old.links }
    {
        self.readable = 0;
        self.world.incref_at(lower(side));
    }

    /// One reference less of a side, also of a freed one. It is asked that there is one. Constant; takes no memory.
    ///
    /// Libevent: event2/bufferevent.h, `bufferevent_decref`; "Bufferevents: advanced topics".
    /// Differs: the last reference frees nothing.
    pub fn decref(&mut self, side: SideId)
        requires opened { side.link < self.old.links.opened }
        requires some { 0 < (side_at self.old.links side).references }
        ensures { self.new.links ≡ change_side side (λ x. record x { references = x.references - 1 }) self.old.links }
    {
        self.readable = 0;
        self.world.decref_at(lower(side));
    }
}
