// What a hook that runs asks of the relay. Each is refused or done at once, and recorded.
ghost use Rattle.std.specs.Prelude.{◌≡◌, ◌<◌, OnOk};
ghost use Rattle.ev_types.specs.declared.act.Act.TheVariants as act;
ghost use Rattle.relay_model.specs.Asks.{most_asks};
ghost use Rattle.relay_core.specs.Fires.{AsksOnce, FreeRecorded, answer_of};
ghost use Rattle.relay_core.specs.RelayValue.{IsLeftWhereDone};

use crate::ctl::Ctl;
use crate::fault::AskFault;
use crate::rates::leave;
use ev_types::{Act, AskAnswer, Cause, Entry, LimitCfg, SideId};
use relay_sides::Dir;

impl Ctl {
    /// Records an ask that frees a side, and the free, in room that was made before.
    fn record_free(&mut self, side: SideId, moved: u64, given: u64)
        requires few { self.old.asks < most_asks }
        ensures { FreeRecorded side moved given self.old self.new }
    {
        let asked = Entry::Asked {
            side: self.me,
            act: Act::Free(side),
            answer: AskAnswer::Ok,
        };
        let freed = Entry::Freed {
            side,
            cause: Cause::Hook,
            moved,
            given,
        };
        self.log.push(asked).unwrap();
        self.log.push(freed).unwrap();
        self.asks += 1;
    }

    /// Frees a side: its bytes are dropped, its timer and its reasons go, and its hook is never called again. Constant, but for the reasons
    /// that wait, if it has a hook; takes no memory.
    ///
    /// Refused as TooManyAsks, then NotLive.
    ///
    /// Libevent: event2/bufferevent.h, `bufferevent_free`; "Bufferevents: concepts and basics".
    /// Differs: its bytes are dropped at once.
    pub fn free(&mut self, side: SideId) -> Result<(), AskFault>
        ensures { AsksOnce self.old (act.Free side) (answer_of result) self.new }
    {
        self.may_ask(Act::Free(side))?;
        let counts = self.sides.counts(side);
        self.record_free(side, counts.moved, counts.given);
        self.free_side(side);
        Ok(())
    }

    /// Enables a direction of a side. Constant; takes no memory.
    ///
    /// Refused as TooManyAsks, then NotLive.
    ///
    /// Libevent: event2/bufferevent.h, `bufferevent_enable`; "Bufferevents: concepts and basics".
    pub fn enable(&mut self, side: SideId, dir: Dir) -> Result<(), AskFault>
        ensures { AsksOnce self.old (act.Enable side dir) (answer_of result) self.new }
    {
        self.may_ask(Act::Enable(side, dir))?;
        self.sides.enable(side, dir);
        self.record(Act::Enable(side, dir), AskAnswer::Ok);
        Ok(())
    }

    /// Disables a direction of a side. Constant; takes no memory.
    ///
    /// Refused as TooManyAsks, then NotLive.
    ///
    /// Libevent: event2/bufferevent.h, `bufferevent_disable`; "Bufferevents: concepts and basics".
    pub fn disable(&mut self, side: SideId, dir: Dir) -> Result<(), AskFault>
        ensures { AsksOnce self.old (act.Disable side dir) (answer_of result) self.new }
    {
        self.may_ask(Act::Disable(side, dir))?;
        self.sides.disable(side, dir);
        self.record(Act::Disable(side, dir), AskAnswer::Ok);
        Ok(())
    }

    /// Sets both marks of a direction of a side, in bytes. A high mark of 0 stands for the usual one. Constant; takes no memory.
    ///
    /// Refused as TooManyAsks, then NotLive, then BadValue where a mark is above 2^24.
    ///
    /// Libevent: event2/bufferevent.h, `bufferevent_setwatermark`; "Bufferevents: concepts and basics".
    pub fn set_watermark(
        &mut self,
        side: SideId,
        dir: Dir,
        low: u64,
        high: u64,
    ) -> Result<(), AskFault>
        ensures { AsksOnce self.old (act.Marks side dir low high) (answer_of result) self.new }
    {
        self.may_ask(Act::Marks(side, dir, low, high))?;
        self.sides.set_watermark(side, dir, low, high);
        self.record(Act::Marks(side, dir, low, high), AskAnswer::Ok);
        Ok(())
    }

    /// Sets both timeouts of a side, in milliseconds, 0 for none, and makes now the last activity of both directions. Constant; takes no
    /// memory.
    ///
    /// Refused as TooManyAsks, then NotLive, then BadValue where one is above 2^40.
    ///
    /// Libevent: event2/bufferevent.h, `bufferevent_set_timeouts`; "Bufferevents: concepts and basics".
    pub fn set_timeouts(
        &mut self,
        side: SideId,
        read_ms: u64,
        write_ms: u64,
    ) -> Result<(), AskFault>
        ensures { AsksOnce self.old (act.Timeouts side read_ms write_ms) (answer_of result) self.new }
    {
        self.may_ask(Act::Timeouts(side, read_ms, write_ms))?;
        self.untimed = self.untimed && read_ms == 0 && write_ms == 0;
        self.resting.watch(side.link as usize);
        self.sides.set_timeouts(side, read_ms, write_ms, self.time);
        self.record(Act::Timeouts(side, read_ms, write_ms), AskAnswer::Ok);
        Ok(())
    }

    /// Gives a side another limit, or none. A first limit starts with one tick's bytes; another one takes what the buckets hold with it,
    /// cut to its bursts. Constant; takes no memory, since that was made before the fire.
    ///
    /// Refused as TooManyAsks, then NotLive.
    ///
    /// Libevent: event2/bufferevent.h, `bufferevent_set_rate_limit`; "Bufferevents: advanced topics".
    pub fn set_rate(&mut self, side: SideId, cfg: Option<LimitCfg>) -> Result<(), AskFault>
        ensures { AsksOnce self.old (act.Rate side cfg) (answer_of result) self.new }
    {
        self.may_ask(Act::Rate(side, cfg))?;
        self.untimed = self.untimed && cfg.is_none();
        self.resting.watch(side.link as usize);
        let spare = &mut self.spare_limits;
        self.sides
            .set_limit(side, cfg, self.time, self.turns, spare);

        // Not by `record`: between the limit and the count of the ask there is a spare limit less than the invariant asks for.
        let asked = Entry::Asked {
            side: self.me,
            act: Act::Rate(side, cfg),
            answer: AskAnswer::Ok,
        };
        self.log.push(asked).unwrap();
        self.asks += 1;
        Ok(())
    }

    /// Puts a side into a group, out of the one that it was in. In the same group already, nothing changes. Constant, but where memory is
    /// taken.
    ///
    /// Refused as TooManyAsks, then NotLive, then NoGroup, then for want of memory.
    ///
    /// Libevent: event2/bufferevent.h, `bufferevent_add_to_rate_limit_group`; "Bufferevents: advanced topics".
    pub fn join_group(&mut self, side: SideId, group: u32) -> Result<(), AskFault>
        ensures { AsksOnce self.old (act.Join side group) (answer_of result) self.new }
    {
        self.may_ask(Act::Join(side, group))?;
        if self.groups.change(group, side.number() as u64).is_err() {
            self.record(Act::Join(side, group), AskAnswer::Memory);
            return Err(AskFault::Memory);
        }
        self.resting.watch(side.link as usize);
        self.grouped.insert(side.link as usize);
        self.sides.set_group(side, Some(group));
        self.record(Act::Join(side, group), AskAnswer::Ok);
        Ok(())
    }

    /// Takes a side out of its group, which keeps what it owes. Costs what the group's members that joined after it do; takes no memory.
    ///
    /// Refused as TooManyAsks, then NotLive, then BadValue where the side is in no group.
    ///
    /// Libevent: event2/bufferevent.h, `bufferevent_remove_from_rate_limit_group`; "Bufferevents: advanced topics".
    pub fn leave_group(&mut self, side: SideId) -> Result<(), AskFault>
        ensures { AsksOnce self.old (act.Leave side) (answer_of result) self.new }
    {
        self.may_ask(Act::Leave(side))?;
        self.resting.watch(side.link as usize);
        leave(&mut self.groups, side);
        self.sides.set_group(side, None);
        self.record(Act::Leave(side), AskAnswer::Ok);
        Ok(())
    }

    /// The read reason of a side becomes due where its input is at least as long as the read low mark, or its write reason where its output
    /// is at most as long as the write low mark; the side's hook is called in the next turn. Nothing is due of a side without a hook.
    /// Constant; takes no memory.
    ///
    /// Refused as TooManyAsks, then NotLive.
    ///
    /// Libevent: event2/bufferevent.h, `bufferevent_trigger`; "Bufferevents: concepts and basics".
    pub fn trigger(&mut self, side: SideId, dir: Dir) -> Result<(), AskFault>
        ensures { AsksOnce self.old (act.Trigger side dir) (answer_of result) self.new }
    {
        self.may_ask(Act::Trigger(side, dir))?;
        match dir {
            Dir::Read => self.raise_read(side),
            Dir::Write => self.raise_write(side),
        }
        self.record(Act::Trigger(side, dir), AskAnswer::Ok);
        Ok(())
    }

    /// Sets the one timer of a side, in the place of the one before, to so many milliseconds from now. It is taken in the first turn at
    /// that time or later. Logarithmic in the timers but for what is moved; takes memory.
    ///
    /// Refused as TooManyAsks, then NotLive, then BadValue where the delay is above 2^40, then for want of memory.
    ///
    /// Own; libevent has such a timer as an event of its own.
    pub fn add_timer(&mut self, side: SideId, delay: u64) -> Result<(), AskFault>
        ensures { AsksOnce self.old (act.Timer side delay) (answer_of result) self.new }
    {
        self.may_ask(Act::Timer(side, delay))?;
        if self.waits.set_timer(side, self.time + delay).is_err() {
            self.record(Act::Timer(side, delay), AskAnswer::Memory);
            return Err(AskFault::Memory);
        }
        self.record(Act::Timer(side, delay), AskAnswer::Ok);
        Ok(())
    }

    /// Takes the timer of a side away, where it has one. Costs what `add_timer` does; takes no memory.
    ///
    /// Refused as TooManyAsks, then NotLive.
    ///
    /// Own.
    pub fn cancel_timer(&mut self, side: SideId) -> Result<(), AskFault>
        ensures { AsksOnce self.old (act.Cancel side) (answer_of result) self.new }
    {
        self.may_ask(Act::Cancel(side))?;
        self.waits.cancel_timer(side);
        self.record(Act::Cancel(side), AskAnswer::Ok);
        Ok(())
    }

    /// One reference more of a side. Constant; takes no memory.
    ///
    /// Refused as TooManyAsks, then NotLive, then TooManyRefs at 2^32 - 1.
    ///
    /// Libevent: event2/bufferevent.h, `bufferevent_incref`; "Bufferevents: advanced topics".
    pub fn incref(&mut self, side: SideId) -> Result<(), AskFault>
        ensures { AsksOnce self.old (act.Incref side) (answer_of result) self.new }
    {
        self.may_ask(Act::Incref(side))?;
        self.sides.incref(side);
        self.record(Act::Incref(side), AskAnswer::Ok);
        Ok(())
    }

    /// One reference less of a side, also of a freed one that has one. Of a link that is over then only what its report needs is kept.
    /// Constant; takes no memory.
    ///
    /// Refused as TooManyAsks, then NotLive for a side that was never opened or is freed and has none, then BadValue for a live side that
    /// has none.
    ///
    /// Libevent: event2/bufferevent.h, `bufferevent_decref`; "Bufferevents: advanced topics".
    /// Differs: the last reference frees nothing.
    pub fn decref(&mut self, side: SideId) -> Result<(), AskFault>
        ensures asked { AsksOnce self.old (act.Decref side) (answer_of result) self.new }
        ensures left { OnOk result (IsLeftWhereDone self.new side.link) }
    {
        self.may_ask(Act::Decref(side))?;
        self.sides.decref(side);
        self.record(Act::Decref(side), AskAnswer::Ok);
        self.sides.leave(side.link);
        Ok(())
    }

    /// Asks the run to end after this fire. Constant; takes no memory.
    ///
    /// Refused as TooManyAsks alone.
    ///
    /// Libevent: event2/event.h, `event_base_loopbreak`; "Working with an event loop".
    pub fn stop(&mut self) -> Result<(), AskFault>
        ensures { AsksOnce self.old act.Stop (answer_of result) self.new }
    {
        self.may_ask(Act::Stop)?;
        self.stopped = true;
        self.record(Act::Stop, AskAnswer::Ok);
        Ok(())
    }
}
