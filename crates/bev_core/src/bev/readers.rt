// What is so of a bufferevent, a value a call, where `state` says all of it. A freed one answers too. None takes memory, and
// each costs the same whatever is in the buffers.
ghost use Rattle.std.specs.Prelude.{◌≡◌};
ghost use Rattle.bev_core.specs.BevValue.{is_enabled, high_mark, timeout, last_activity};

use super::Bev;
use token_bucket::Dir;

impl Bev {
    /// Whether it was not freed. Takes no memory; constant cost.
    ///
    /// Own.
    pub fn is_live(&self) -> bool
        ensures { result ≡ self.now.live }
    {
        self.live
    }

    /// Whether a direction is enabled. Takes no memory; constant cost.
    ///
    /// Libevent: event2/bufferevent.h, `bufferevent_get_enabled`; "Bufferevents: concepts and basics".
    pub fn is_enabled(&self, dir: Dir) -> bool
        ensures { result ≡ is_enabled self.now dir }
    {
        match dir {
            Dir::Read => self.reading,
            Dir::Write => self.writing,
        }
    }

    /// Whether end of file was met. Takes no memory; constant cost.
    ///
    /// Libevent: event2/bufferevent.h, `BEV_EVENT_EOF`; "Bufferevents: concepts and basics".
    pub fn has_ended(&self) -> bool
        ensures { result ≡ self.now.ended }
    {
        self.ended
    }

    /// Whether an error was met. Takes no memory; constant cost.
    ///
    /// Libevent: event2/bufferevent.h, `BEV_EVENT_ERROR`; "Bufferevents: concepts and basics".
    pub fn has_failed(&self) -> bool
        ensures { result ≡ self.now.failed }
    {
        self.failed
    }

    /// How many references hold its name. Takes no memory; constant cost.
    ///
    /// Libevent: event2/bufferevent.h, `bufferevent_incref`; "Bufferevents: advanced topics".
    pub fn references(&self) -> u32
        ensures { result ≡ self.now.refs }
    {
        self.refs
    }

    /// The high mark of a direction, in bytes; 0 is none. Takes no memory; constant cost.
    ///
    /// Libevent: event2/bufferevent.h, `bufferevent_getwatermark`; "Bufferevents: concepts and basics".
    pub fn high_mark(&self, dir: Dir) -> u64
        ensures { result ≡ high_mark self.now dir }
    {
        match dir {
            Dir::Read => self.read_high,
            Dir::Write => self.write_high,
        }
    }

    /// The timeout of a direction, in milliseconds; 0 is none. Takes no memory; constant cost.
    ///
    /// Libevent: event2/bufferevent.h, `bufferevent_set_timeouts`; "Bufferevents: concepts and basics".
    pub fn timeout(&self, dir: Dir) -> u64
        ensures { result ≡ timeout self.now dir }
    {
        match dir {
            Dir::Read => self.read_ms,
            Dir::Write => self.write_ms,
        }
    }

    /// The moment of the last activity of a direction, in milliseconds. Takes no memory; constant cost.
    ///
    /// Own.
    pub fn last_activity(&self, dir: Dir) -> u64
        ensures { result ≡ last_activity self.now dir }
    {
        match dir {
            Dir::Read => self.last_read,
            Dir::Write => self.last_write,
        }
    }
}
