// What time brings: the start of a turn, and for how long a poll may wait. A side that is idle for as long as one of its
// timeouts expires. Only the links are looked at that are watched.
ghost use Rattle.std.specs.Prelude.{◌≡◌, ◌^◌, ◌<◌, ◌||◌, min, max, fold, map, true};
ghost use Rattle.std.specs.List.{list_any, flat_map};
ghost use Rattle.ev_types.specs.declared.why.Why.TheVariants.{Event};
ghost use Rattle.relay_model.specs.Plain.{side_at, change_side, all_sides};
ghost use Rattle.relay_model.specs.Reasons.{raise, happened, timeout_flag};
ghost use Rattle.relay_model.specs.Moments.{is_timed, active_at, both_ways, earliest, is_pressing, timers_taken, has_run_out, expire};
ghost use Rattle.relay_model.specs.Turn.{turned_to};
ghost use Rattle.relay_state.specs.State.{with_plain};
ghost use Rattle.relay_state.specs.Closing.{in_side, out_side};
ghost use Rattle.relay_state.specs.Rooms.{wants};
ghost use Rattle.relay_state.specs.Time.{expiry, group_gains, moments, timed, side_timed, begun, poll_timeout};
ghost use Rattle.relay_core.specs.Rateless.{HasNoRates};
ghost use Rattle.relay_core.specs.Timeless.{HasAllOf, AreLeftAlikeBeside};
ghost use Rattle.relay_core.specs.Waits.{earlier, wait_until, is_expired, expiries, gains};

use crate::relay::Relay;
use ev_types::{Flags, Side, SideId, Why};
use relay_sides::Dir;

/// No turn's time is greater: 2^62 milliseconds.
pub(crate) const LAST_TIME: u64 = 1 << 62;

/// The lesser of two waits, of which None is for ever.
fn earlier(a: Option<u64>, b: Option<u64>) -> Option<u64>
    ensures { result ≡ earlier a b }
{
    match (a, b) {
        (Some(x), Some(y)) => Some(x.min(y)),
        (Some(x), None) => Some(x),
        (None, other) => other,
    }
}

/// The flags of a timeout of a direction.
fn timeout_flags(dir: Dir) -> Flags
    ensures { Event result ≡ happened dir timeout_flag }
{
    match dir {
        Dir::Read => Flags(0x41),
        Dir::Write => Flags(0x42),
    }
}

impl Relay {
    fn wants(&self, side: SideId, dir: Dir) -> bool
        requires { side.link < self.now.state.plain.opened }
        ensures { result ≡ wants self.now.state side dir }
    {
        match dir {
            Dir::Read => self.wants_read(side),
            Dir::Write => self.wants_write(side),
        }
    }

    /// Whether the direction was idle for as long as its timeout.
    fn has_run_out(&self, side: SideId, dir: Dir) -> bool
        requires opened { side.link < self.now.state.plain.opened }
        requires live { (side_at self.now.state.plain side).live ≡ true }
        ensures { result ≡ has_run_out (side_at self.now.state.plain side) dir self.now.state.plain.time }
    {
        self.ctl.sides.idle_time(side, dir, self.ctl.time) >= self.ctl.sides.timeout(side, dir)
    }

    /// The time is held against one direction of a side.
    fn look_at(&mut self, side: SideId, dir: Dir)
        requires { side.link < self.old.state.plain.opened }
        ensures state { self.new.state ≡ timed side self.old.state dir }
        ensures untimed { self.new.untimed ≡ self.old.untimed }
        ensures watched { HasAllOf self.old.watched self.new.watched }
    {
        if !self.ctl.is_timed(side, dir) {
            return;
        }
        if !self.wants(side, dir) {
            self.ctl.sides.be_active(side, dir, self.ctl.time);
        } else if self.has_run_out(side, dir) {
            self.ctl.resting.watch(side.link as usize);
            self.ctl.sides.expire(side, dir);
            self.ctl.raise(side, Why::Event(timeout_flags(dir)));
        }
    }

    /// The time is held against a side, its reading first.
    fn look_at_side(&mut self, side: SideId)
        requires { side.link < self.old.state.plain.opened }
        ensures state { self.new.state ≡ side_timed self.old.state side }
        ensures untimed { self.new.untimed ≡ self.old.untimed }
        ensures watched { HasAllOf self.old.watched self.new.watched }
        ensures opened { self.new.state.plain.opened ≡ self.old.state.plain.opened }
    {
        self.look_at(side, Dir::Read);
        self.look_at(side, Dir::Write);
    }

    /// The time is held against all sides, in number order. Only those of watched links are looked at.
    fn look_at_sides(&mut self)
        ensures state { self.new.state ≡ fold side_timed self.old.state (all_sides self.old.state.plain) }
        ensures still { self.old.untimed ≡ true → self.new.state ≡ self.old.state }
        ensures untimed { self.new.untimed ≡ self.old.untimed }
        ensures watched { HasAllOf self.old.watched self.new.watched }
    {
        if self.ctl.untimed {
            return;
        }
        let mut from = 0;
        while let Some(link) = self.next_watched(from) {
            let near = SideId {
                link,
                side: Side::In,
            };
            self.look_at_side(near);
            self.look_at_side(near.peer());
            from = link + 1;
        }
    }

    /// A reading of the clock becomes the time, of one turn more. The links are watched of which a side rested until then.
    fn turn_to(&mut self, reading: u64) -> u64
        requires { self.old.state.plain.turn < 2 ^ 62 }
        ensures time { result ≡ max self.old.state.plain.time (min reading (2 ^ 62)) }
        ensures state { self.new.state ≡ with_plain (turned_to result self.old.state.plain) self.old.state }
        ensures rateless { self.old.untimed ≡ true → HasNoRates self.old.state }
        ensures untimed { self.new.untimed ≡ self.old.untimed }
        ensures alike { AreLeftAlikeBeside self.new.watched result self.old.state }
    {
        let time = self.ctl.time.max(reading.min(LAST_TIME));
        self.ctl.resting.wake(time);
        self.ctl.turns += 1;
        self.ctl.time = time;
        time
    }

    /// The timers that have come are taken, and are due.
    fn take_timers(&mut self)
        ensures state { self.new.state ≡ with_plain (timers_taken self.old.state.settings self.old.state.plain) self.old.state }
        ensures untimed { self.new.untimed ≡ self.old.untimed }
        ensures watched { self.new.watched ≡ self.old.watched }
    {
        while let Some(side) = self.ctl.waits.take_due(self.ctl.time) {
            self.ctl.raise(side, Why::Timer);
        }
    }

    /// Whether no side has a timeout or a limit, and there are no groups. Then a turn begins with its time and the timers alone, and a poll
    /// waits for timers. Constant; takes no memory.
    ///
    /// Own.
    pub fn is_untimed(&self) -> bool
        ensures { result ≡ self.now.untimed }
    {
        self.ctl.untimed
    }

    /// A turn begins. A reading of the clock becomes the time, cut at 2^62 and unless the time is greater. Answers the time. The timers
    /// that have come are taken, and all groups are refilled. Where no side has a timeout or a limit and there are no groups, nothing else
    /// changes, and what an end may move doesn't grow with the time. Takes no memory; linear in the timers that are taken, in the watched
    /// links and in the number of groups.
    ///
    /// Own.
    pub fn begin(&mut self, reading: u64) -> u64
        requires turns { self.old.state.plain.turn < 2 ^ 62 }
        ensures time { result ≡ max self.old.state.plain.time (min reading (2 ^ 62)) }
        ensures state { self.new.state ≡ begun self.old.state result }
        ensures still { self.old.untimed ≡ true → self.new.state
            ≡ with_plain (timers_taken self.old.state.settings (turned_to result self.old.state.plain)) self.old.state }
        ensures rateless { self.old.untimed ≡ true → HasNoRates self.old.state }
        ensures untimed { self.new.untimed ≡ self.old.untimed }
        ensures alike { AreLeftAlikeBeside self.new.watched result self.old.state }
    {
        let time = self.turn_to(reading);
        self.ctl.groups.refill(time);
        self.take_timers();
        self.look_at_sides();
        time
    }

    /// Whether a live side has expired.
    fn any_is_expired(&self) -> bool
        ensures { result ≡ list_any (is_expired self.now.state) (all_sides self.now.state.plain) }
    {
        let mut from = 0;
        while let Some(link) = self.next_watched(from) {
            if self.link_is_expired(link) {
                return true;
            }
            from = link + 1;
        }
        false
    }

    fn link_is_expired(&self, link: u32) -> bool
        requires { link < self.now.state.plain.opened }
        ensures { result ≡ (is_expired self.now.state (in_side link) || is_expired self.now.state (out_side link)) }
    {
        let near = SideId {
            link,
            side: Side::In,
        };
        self.ctl.is_expired(near) || self.ctl.is_expired(near.peer())
    }

    /// For how many milliseconds more the direction may be idle, where it is wanted and has a timeout.
    fn wait_for(&self, side: SideId, dir: Dir) -> Option<u64>
        requires { side.link < self.now.state.plain.opened }
        ensures { result ≡ wait_until self.now.state.plain.time (expiry self.now.state side dir) }
    {
        if !self.ctl.is_timed(side, dir) || !self.wants(side, dir) {
            return None;
        }
        let idle = self.ctl.sides.idle_time(side, dir, self.ctl.time);
        Some(self.ctl.sides.timeout(side, dir).saturating_sub(idle))
    }

    fn wait_at(&self, side: SideId) -> Option<u64>
        requires { side.link < self.now.state.plain.opened }
        ensures { result ≡ wait_until self.now.state.plain.time (flat_map (expiry self.now.state side) both_ways) }
    {
        earlier(
            self.wait_for(side, Dir::Read),
            self.wait_for(side, Dir::Write),
        )
    }

    /// The least wait of all sides.
    fn least_wait(&self) -> Option<u64>
        ensures { result ≡ wait_until self.now.state.plain.time (expiries self.now.state (all_sides self.now.state.plain)) }
    {
        let mut least = None;
        let mut from = 0;
        while let Some(link) = self.next_watched(from) {
            let near = SideId {
                link,
                side: Side::In,
            };
            let wait = earlier(self.wait_at(near), self.wait_at(near.peer()));
            least = earlier(least, wait);
            from = link + 1;
        }
        least
    }

    /// The least wait of all timers.
    fn timer_wait(&self) -> Option<u64>
        ensures { result ≡ wait_until self.now.state.plain.time (map (λ x. x.deadline) self.now.state.plain.timers) }
    {
        let deadline = self.ctl.waits.next_deadline()?;
        Some(deadline.saturating_sub(self.ctl.time))
    }

    /// Whether a callback waits for this turn, or a live side has expired.
    fn is_pressing(&self) -> bool
        ensures { result ≡ is_pressing self.now.state.plain }
    {
        if !self.ctl.waits.is_quiet() {
            return true;
        }
        if self.ctl.untimed {
            return false;
        }
        self.any_is_expired()
    }

    /// When the first bucket of a live side that holds nothing gains again.
    fn first_gain(&self) -> Option<u64>
        ensures { result ≡ earliest (gains self.now.state (all_sides self.now.state.plain)) }
    {
        let mut first = self.ctl.resting.first();
        let mut from = 0;
        while let Some(link) = self.next_watched(from) {
            let near = SideId {
                link,
                side: Side::In,
            };
            let gain = earlier(self.ctl.gains_at(near), self.ctl.gains_at(near.peer()));
            first = earlier(first, gain);
            from = link + 1;
        }
        first
    }

    /// For how long such a bucket has to wait.
    fn gain_wait(&self) -> Option<u64>
        ensures { result ≡ wait_until self.now.state.plain.time (gains self.now.state (all_sides self.now.state.plain)) }
    {
        let moment = self.first_gain()?;
        Some(moment.saturating_sub(self.ctl.time))
    }

    /// For how long a suspended group with members has to wait for its next tick.
    fn group_wait(&self) -> Option<u64>
        ensures { result ≡ wait_until self.now.state.plain.time (group_gains self.now.state 0 self.now.state.groups.groups) }
    {
        let moment = self.ctl.groups.gains_at(self.ctl.time)?;
        Some(moment.saturating_sub(self.ctl.time))
    }

    /// The least wait of all timers, sides and groups.
    fn least_wait_of_all(&self) -> Option<u64>
        ensures { result ≡ wait_until self.now.state.plain.time (moments self.now.state) }
    {
        if self.ctl.untimed {
            return self.timer_wait();
        }
        let timed = earlier(self.timer_wait(), self.least_wait());
        let limited = earlier(timed, self.gain_wait());
        earlier(limited, self.group_wait())
    }

    /// For how many milliseconds a poll may wait; None is for ever. Takes no memory; constant where no side has a timeout or a limit and
    /// there are no groups, else linear in the links that are watched and in the number of groups.
    pub fn poll_timeout(&self) -> Option<u64>
        ensures { result ≡ poll_timeout self.now.state }
    {
        if self.is_pressing() {
            return Some(0);
        }
        self.least_wait_of_all()
    }
}
