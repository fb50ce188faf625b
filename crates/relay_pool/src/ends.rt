// How a direction ends: writing is ended at its end, sides are freed, and their ends are closed.
ghost use Rattle.std.specs.Prelude.{◌≡◌, ◌<◌, true};
ghost use Rattle.relay_sides.specs.Links.{change_side, freed};
ghost use Rattle.relay_pool.specs.PoolValue.{KeepsBays};

use crate::bay::bay;
use crate::change::Change;
use crate::left::change_left;
use crate::pool::LinkPool;
use ev_types::SideId;

impl LinkPool {
    /// The side is freed: what was read from it and not moved, and what waits to be given to it, is dropped. Takes no memory; constant.
    ///
    /// Libevent: event2/bufferevent.h, `bufferevent_free`; "Bufferevents: concepts and basics".
    /// Differs: its bytes are dropped at once.
    pub fn free(&mut self, side: SideId)
        requires { side.link < self.old.links.opened }
        ensures links { self.new.links ≡ freed side self.old.links }
        ensures bays { KeepsBays self.old self.new }
    {
        match bay(&self.links, side) {
            Some(at) => self.sides.free(at),
            None => change_left(&mut self.links, side, Change::Freed),
        }
    }

    /// Writing was ended at the side's end. Constant; takes no memory.
    ///
    /// Own.
    pub fn end_writing(&mut self, side: SideId)
        requires { side.link < self.old.links.opened }
        ensures links { self.new.links ≡ change_side side (λ x. record x { write_ended = true }) self.old.links }
        ensures bays { KeepsBays self.old self.new }
    {
        match bay(&self.links, side) {
            Some(at) => self.sides.end_writing(at),
            None => change_left(&mut self.links, side, Change::WriteEnded),
        }
    }

    /// The end of the side was closed. Constant; takes no memory.
    ///
    /// Own.
    pub fn shut(&mut self, side: SideId)
        requires { side.link < self.old.links.opened }
        ensures links { self.new.links ≡ change_side side (λ x. record x { closed = true }) self.old.links }
        ensures bays { KeepsBays self.old self.new }
    {
        match bay(&self.links, side) {
            Some(at) => self.sides.shut(at),
            None => change_left(&mut self.links, side, Change::Closed),
        }
    }
}
