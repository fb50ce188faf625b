// What the results of reads, writes and connect checks change.
ghost use Rattle.std.specs.Prelude.{◌≡◌, ◌+◌, ◌-◌, ◌^◌, ◌<◌, ◌≤◌, true, false, OnOk, IsOk, length, take, min, vec_len};
ghost use Rattle.token_bucket.specs.declared.limit.Dir.TheVariants.{Read, Write};
ghost use Rattle.ev_types.specs.Sides.{peer};
ghost use Rattle.relay_sides.specs.Links.{lane_at, change_side, with_got, after_got, after_took, read_mark};
ghost use Rattle.relay_sides.specs.Rooms.{HasInputRoom};
ghost use Rattle.relay_sides.specs.SidesValue.{spare_read};

use crate::side::{lower, upper};
use crate::sides::Sides;
use bev_core::Dir;
use ev_types::{NoMemory, SideId};

impl Sides {
    /// Makes room for a read of so many bytes from the side's end, and for what its read filter makes of them. It is also refused
    /// where they could not be counted. The room for the read is one for all sides, so that it is made once: how many bytes come is not
    /// known before. Takes memory, for no more than can come, and none where there is room for as many already; linear in the length
    /// where it does.
    ///
    /// Own.
    pub fn reserve_read(&mut self, side: SideId, room: usize) -> Result<(), NoMemory>
        requires { side.link < self.old.links.opened }
        ensures links { self.new.links ≡ self.old.links }
        ensures room { OnOk result (room ≤ spare_read self.new side) }
        ensures there { 0 < room → room ≤ spare_read self.old side → IsOk result }
    {
        let own = &self.sides[side.number()];
        let read = own.read;
        let made = own.read_made;
        if room as u64 > u64::MAX - read {
            return Err(NoMemory);
        }
        self.readable = 0;
        let mark = self.read_mark(side) as usize;
        let count = self.raw_input_len(side) + room;
        self.world.reserve_step_at(
            upper(side),
            lower(side),
            Dir::Read,
            count,
            &mut self.beside,
            mark,
            made,
        )?;
        self.spare.reserve(count)?;
        self.ready = side.number();
        self.readable = room;
        Ok(())
    }

    /// They stand behind the raw input, in room of just their length where that can be had, or in their block.
    fn bring(&mut self, side: SideId, block: &mut Vec<u8>, n: usize, time: u64)
        requires opened { side.link < self.old.links.opened }
        requires some { 0 < n }
        requires within { n ≤ vec_len block.old }
        requires room { n ≤ spare_read self.old side }
        ensures links { self.new.links ≡ with_got time side (take n block.old.items) self.old.links }
        ensures room { HasInputRoom (read_mark self.old.links side) self.new.links self.new.rooms side }
        ensures block { vec_len block.new ≡ vec_len block.old }
    {
        self.readable = 0;
        self.world
            .feed_at(lower(side), block, n, time, &mut self.spare);
        let own = &mut self.sides[side.number()];
        own.read += n as u64;
    }

    /// The first n bytes of a block were read from the side's end at a time, after room for them was made; then its read filter runs.
    /// Takes memory for them where the raw input has less room, and is never refused; linear in n. Where the raw input has no byte, and
    /// room for just what the block is long, they exchange their blocks and no byte is copied; the block stays as long.
    ///
    /// Libevent: event2/bufferevent.h, `bufferevent_data_cb`; "Bufferevents: concepts and basics".
    pub fn got(&mut self, side: SideId, block: &mut Vec<u8>, n: usize, time: u64)
        requires opened { side.link < self.old.links.opened }
        requires some { 0 < n }
        requires within { n ≤ vec_len block.old }
        requires room { n ≤ spare_read self.old side }
        ensures links { self.new.links ≡ after_got time side (take n block.old.items) self.old.links }
        ensures block { vec_len block.new ≡ vec_len block.old }
    {
        let mark = self.read_mark(side);
        self.bring(side, block, n, time);
        self.run_read_filter(side, mark, false);
    }

    /// A read was answered with the end. Constant; takes no memory.
    ///
    /// Libevent: event2/bufferevent.h, `BEV_EVENT_EOF`; "Bufferevents: concepts and basics".
    pub fn ended(&mut self, side: SideId)
        requires { side.link < self.old.links.opened }
        ensures { self.new.links ≡ change_side side (λ x. record x { ended = true; reads = false }) self.old.links }
    {
        self.readable = 0;
        self.world.end_at(lower(side), Dir::Read);
    }

    /// A read failed. Constant; takes no memory.
    ///
    /// Libevent: event2/bufferevent.h, `BEV_EVENT_ERROR`; "Bufferevents: concepts and basics".
    pub fn read_failed(&mut self, side: SideId)
        requires { side.link < self.old.links.opened }
        ensures { self.new.links ≡ change_side side (λ x. record x { failed = true; reads = false }) self.old.links }
    {
        self.readable = 0;
        self.world.fail_at(lower(side), Dir::Read);
    }

    /// A write failed, or a connect check, as `read_failed`.
    ///
    /// Libevent: event2/bufferevent.h, `BEV_EVENT_ERROR`; "Bufferevents: concepts and basics".
    pub fn write_failed(&mut self, side: SideId)
        requires { side.link < self.old.links.opened }
        ensures { self.new.links ≡ change_side side (λ x. record x { failed = true; writes = false }) self.old.links }
    {
        self.readable = 0;
        self.world.fail_at(lower(side), Dir::Write);
    }

    /// The side's end is connected. Constant; takes no memory.
    ///
    /// Libevent: event2/bufferevent.h, `BEV_EVENT_CONNECTED`; "Bufferevents: concepts and basics".
    pub fn connected(&mut self, side: SideId)
        requires { side.link < self.old.links.opened }
        ensures { self.new.links ≡ change_side side (λ x. record x { connecting = false }) self.old.links }
    {
        self.readable = 0;
        let own = &mut self.sides[side.number()];
        own.connecting = false;
    }

    /// At a time the side's end took the first bytes that wait for it. Takes no memory; linear in their number, over many calls.
    ///
    /// Libevent: event2/bufferevent.h, `bufferevent_data_cb`; "Bufferevents: concepts and basics".
    pub fn took(&mut self, side: SideId, count: usize, time: u64)
        requires opened { side.link < self.old.links.opened }
        requires within { count ≤ length (lane_at self.old.links (peer side)).buffers.raw_output }
        ensures { self.new.links ≡ after_took time side count self.old.links }
    {
        self.readable = 0;
        self.world.drain_at(lower(side), count);
        self.world.touch_at(lower(side), Dir::Write, time);
        let from = &mut self.sides[side.peer().number()];
        // no more can be given than was made
        let _most = from.write_made;
        from.given += count as u64;
    }
}
