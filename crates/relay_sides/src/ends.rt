// How a direction ends: writing is ended at its end, sides are freed, and their ends are closed.
ghost use Rattle.std.specs.Prelude.{◌≡◌, ◌<◌, true, false, None};
ghost use Rattle.relay_model.specs.Close.{fault};
ghost use Rattle.relay_sides.specs.Links.{side_at, flow_at, change_side, is_empty, is_complete, freed};

use crate::side::{lower, upper};
use crate::sides::Sides;
use bev_core::Dir;
use ev_types::{Cause, SideId};
use stream_filters::StreamFilter;

impl Sides {
    /// Whether all bytes of the direction from the side were given and no more will come. Constant; takes no memory.
    ///
    /// Own.
    pub fn is_complete(&self, from: SideId) -> bool
        requires { from.link < self.now.links.opened }
        ensures { result ≡ is_complete self.now.links from }
    {
        self.has_ended(from) && self.is_write_done(from) && self.is_empty(from)
    }

    fn has_ended(&self, side: SideId) -> bool
        requires { side.link < self.now.links.opened }
        ensures { result ≡ (side_at self.now.links side).ended }
    {
        self.world.bev(lower(side)).has_ended()
    }

    fn is_write_done(&self, from: SideId) -> bool
        requires { from.link < self.now.links.opened }
        ensures { result ≡ (flow_at self.now.links from).write_done }
    {
        self.world
            .filter(upper(from.peer()), Dir::Write)
            .is_finished()
    }

    fn is_empty(&self, from: SideId) -> bool
        requires { from.link < self.now.links.opened }
        ensures { result ≡ is_empty self.now.links from }
    {
        self.raw_input_len(from) == 0
            && self.own_input_len(from) == 0
            && self.own_output_len(from) == 0
            && self.raw_output_len(from) == 0
    }

    /// Why the side is to be freed, where it is faulty: it failed, or else expired, or else a filter of it met a bad place. Constant;
    /// takes no memory.
    ///
    /// Own.
    pub fn fault(&self, side: SideId) -> Option<Cause>
        requires { side.link < self.now.links.opened }
        ensures { result ≡ fault (side_at self.now.links side) }
    {
        let flags = self.flags(side);
        if flags.failed {
            Some(Cause::Failed)
        } else if flags.expired {
            Some(Cause::Timeout)
        } else {
            self.bad(side).map(Cause::Filter)
        }
    }

    /// The first bad place that a filter of the side met.
    fn bad(&self, side: SideId) -> Option<u64>
        requires { side.link < self.now.links.opened }
        ensures { result ≡ (side_at self.now.links side).bad }
    {
        self.sides[side.number()].bad
    }

    /// The side is freed: what was read from it and not moved, and what waits to be given to it, is dropped. Takes no memory; constant.
    ///
    /// Libevent: event2/bufferevent.h, `bufferevent_free`; "Bufferevents: concepts and basics".
    /// Differs: its bytes are dropped at once.
    pub fn free(&mut self, side: SideId)
        requires { side.link < self.old.links.opened }
        ensures { self.new.links ≡ freed side self.old.links }
    {
        self.readable = 0;
        self.world.drop_at(lower(side));
        self.world.drop_at(upper(side));
    }

    /// Writing was ended at the side's end. Constant; takes no memory.
    ///
    /// Own.
    pub fn end_writing(&mut self, side: SideId)
        requires { side.link < self.old.links.opened }
        ensures { self.new.links ≡ change_side side (λ x. record x { write_ended = true }) self.old.links }
    {
        self.readable = 0;
        let own = &mut self.sides[side.number()];
        own.write_ended = true;
    }

    /// The end of the side was closed. Constant; takes no memory.
    ///
    /// Own.
    pub fn shut(&mut self, side: SideId)
        requires { side.link < self.old.links.opened }
        ensures { self.new.links ≡ change_side side (λ x. record x { closed = true }) self.old.links }
    {
        self.readable = 0;
        let own = &mut self.sides[side.number()];
        own.closed = true;
    }
}
