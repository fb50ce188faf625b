// Steps of one who says by himself what is called for: they look at no liveness, and none is refused. None takes memory, and each costs the
// same whatever is in the buffers.
ghost use Rattle.std.specs.Prelude.{◌≡◌, ◌<◌, ◌+◌, ◌-◌, ◌^◌, false};
ghost use Rattle.bev_core.specs.Steps.{with_enabled, with_marks, with_timeouts, touched, ended_at, failed_at};

use super::Bev;
use token_bucket::Dir;

impl Bev {
    /// Enables a direction, or disables it, whether it is live or not. Takes no memory; constant cost.
    ///
    /// Libevent: event2/bufferevent.h, `bufferevent_enable`, `bufferevent_disable`; "Bufferevents: concepts and basics".
    pub fn set_enabled(&mut self, dir: Dir, on: bool)
        ensures { self.new ≡ with_enabled self.old dir on }
    {
        match dir {
            Dir::Read => self.reading = on,
            Dir::Write => self.writing = on,
        }
    }

    /// Sets both marks of a direction, in bytes, as `set_enabled`. A high mark of 0 is none.
    ///
    /// Libevent: event2/bufferevent.h, `bufferevent_setwatermark`; "Bufferevents: concepts and basics".
    pub fn set_marks(&mut self, dir: Dir, low: u64, high: u64)
        ensures { self.new ≡ with_marks self.old dir low high }
    {
        match dir {
            Dir::Read => {
                self.read_low = low;
                self.read_high = high;
            }
            Dir::Write => {
                self.write_low = low;
                self.write_high = high;
            }
        }
    }

    /// Sets both timeouts, in milliseconds, and makes a moment the last activity of both directions, as `set_enabled`. 0 is no timeout.
    ///
    /// Libevent: event2/bufferevent.h, `bufferevent_set_timeouts`; "Bufferevents: concepts and basics".
    pub fn start_timeouts(&mut self, read_ms: u64, write_ms: u64, now: u64)
        ensures { self.new ≡ with_timeouts self.old read_ms write_ms now }
    {
        self.read_ms = read_ms;
        self.write_ms = write_ms;
        self.last_read = now;
        self.last_write = now;
    }

    /// One reference more, as `set_enabled`. It is asked that there are fewer than 2^32 - 1.
    ///
    /// Libevent: event2/bufferevent.h, `bufferevent_incref`; "Bufferevents: advanced topics".
    pub fn add_reference(&mut self)
        requires { self.old.refs < 2 ^ 32 - 1 }
        ensures { self.new ≡ record self.old { refs = self.old.refs + 1 } }
    {
        self.refs += 1;
    }

    /// One reference less, as `set_enabled`. It is asked that there is one.
    ///
    /// Libevent: event2/bufferevent.h, `bufferevent_decref`; "Bufferevents: advanced topics".
    /// Differs: the last reference frees nothing.
    pub fn drop_reference(&mut self)
        requires { 0 < self.old.refs }
        ensures { self.new ≡ record self.old { refs = self.old.refs - 1 } }
    {
        self.refs -= 1;
    }

    /// Disables a direction in which a timeout expired, whether it is live or not. Takes no memory; constant cost.
    ///
    /// Own.
    pub fn expire(&mut self, dir: Dir)
        ensures { self.new ≡ with_enabled self.old dir false }
    {
        self.set_enabled(dir, false);
    }

    /// Disables a direction in which end of file was met, and sets the mark `ended`, as `expire`.
    ///
    /// Own.
    pub fn end(&mut self, dir: Dir)
        ensures { self.new ≡ ended_at self.old dir }
    {
        self.set_enabled(dir, false);
        self.ended = true;
    }

    /// Disables a direction in which an error was met, and sets the mark `failed`, as `expire`.
    ///
    /// Own.
    pub fn fail(&mut self, dir: Dir)
        ensures { self.new ≡ failed_at self.old dir }
    {
        self.set_enabled(dir, false);
        self.failed = true;
    }

    /// Makes the moment at which bytes were moved the last activity of a direction, as `expire`.
    ///
    /// Own.
    pub fn moved_at(&mut self, dir: Dir, now: u64)
        ensures { self.new ≡ touched self.old dir now }
    {
        match dir {
            Dir::Read => self.last_read = now,
            Dir::Write => self.last_write = now,
        }
    }
}
