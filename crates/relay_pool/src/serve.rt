// What the results of reads, writes and connect checks change.
ghost use Rattle.std.specs.Prelude.{◌≡◌, ◌<◌, ◌≤◌, true, false, OnOk, IsOk, length, take, vec_len};
ghost use Rattle.ev_types.specs.Sides.{peer};
ghost use Rattle.relay_sides.specs.Links.{lane_at, change_side, after_got, after_took};
ghost use Rattle.relay_pool.specs.PoolValue.{KeepsBays, read_spare};

use crate::bay::{at, bay};
use crate::change::Change;
use crate::left::change_left;
use crate::pool::LinkPool;
use ev_types::{NoMemory, SideId};

impl LinkPool {
    /// Makes room for a read of so many bytes from the side's end, and for what its read filter makes of them. It is also refused
    /// where they could not be counted, and for a link that is over. Takes memory, for no more than can come, and none where there is room
    /// for as many already; linear in the length where it does.
    ///
    /// Own.
    pub fn reserve_read(&mut self, side: SideId, room: usize) -> Result<(), NoMemory>
        requires { side.link < self.old.links.opened }
        ensures links { self.new.links ≡ self.old.links }
        ensures bays { KeepsBays self.old self.new }
        ensures room { OnOk result (room ≤ read_spare self.new side) }
        ensures there { 0 < room → room ≤ read_spare self.old side → IsOk result }
    {
        match bay(&self.links, side) {
            Some(at) => self.sides.reserve_read(at, room),
            None => Err(NoMemory),
        }
    }

    /// The first n bytes of a block were read from the side's end at a time, after room for them was made; then its read filter runs.
    /// Takes memory for them where the raw input has less room, and is never refused; linear in n. Where the raw input has no byte, and
    /// room for just what the block is long, they exchange their blocks and no byte is copied; the block stays as long.
    ///
    /// Libevent: event2/bufferevent.h, `bufferevent_data_cb`; "Bufferevents: concepts and basics".
    pub fn got(&mut self, side: SideId, block: &mut Vec<u8>, n: usize, time: u64)
        requires opened { side.link < self.old.links.opened }
        requires some { 0 < n }
        requires within { n ≤ vec_len block.old }
        requires room { n ≤ read_spare self.old side }
        ensures links { self.new.links ≡ after_got time side (take n block.old.items) self.old.links }
        ensures bays { KeepsBays self.old self.new }
        ensures block { vec_len block.new ≡ vec_len block.old }
    {
        self.sides.got(at(&self.links, side), block, n, time);
    }

    /// A read was answered with the end. Constant; takes no memory.
    ///
    /// Libevent: event2/bufferevent.h, `BEV_EVENT_EOF`; "Bufferevents: concepts and basics".
    pub fn ended(&mut self, side: SideId)
        requires { side.link < self.old.links.opened }
        ensures links { self.new.links ≡ change_side side (λ x. record x { ended = true; reads = false }) self.old.links }
        ensures bays { KeepsBays self.old self.new }
    {
        match bay(&self.links, side) {
            Some(at) => self.sides.ended(at),
            None => change_left(&mut self.links, side, Change::Ended),
        }
    }

    /// A read failed. Constant; takes no memory.
    ///
    /// Libevent: event2/bufferevent.h, `BEV_EVENT_ERROR`; "Bufferevents: concepts and basics".
    pub fn read_failed(&mut self, side: SideId)
        requires { side.link < self.old.links.opened }
        ensures links { self.new.links ≡ change_side side (λ x. record x { failed = true; reads = false }) self.old.links }
        ensures bays { KeepsBays self.old self.new }
    {
        match bay(&self.links, side) {
            Some(at) => self.sides.read_failed(at),
            None => change_left(&mut self.links, side, Change::ReadFailed),
        }
    }

    /// A write failed, or a connect check, as `read_failed`.
    ///
    /// Libevent: event2/bufferevent.h, `BEV_EVENT_ERROR`; "Bufferevents: concepts and basics".
    pub fn write_failed(&mut self, side: SideId)
        requires { side.link < self.old.links.opened }
        ensures links { self.new.links ≡ change_side side (λ x. record x { failed = true; writes = false }) self.old.links }
        ensures bays { KeepsBays self.old self.new }
    {
        match bay(&self.links, side) {
            Some(at) => self.sides.write_failed(at),
            None => change_left(&mut self.links, side, Change::WriteFailed),
        }
    }

    /// The side's end is connected. Constant; takes no memory.
    ///
    /// Libevent: event2/bufferevent.h, `BEV_EVENT_CONNECTED`; "Bufferevents: concepts and basics".
    pub fn connected(&mut self, side: SideId)
        requires { side.link < self.old.links.opened }
        ensures links { self.new.links ≡ change_side side (λ x. record x { connecting = false }) self.old.links }
        ensures bays { KeepsBays self.old self.new }
    {
        match bay(&self.links, side) {
            Some(at) => self.sides.connected(at),
            None => change_left(&mut self.links, side, Change::Connected),
        }
    }

    /// At a time the side's end took the first bytes that wait for it. Takes no memory; linear in their number, over many calls.
    ///
    /// Libevent: event2/bufferevent.h, `bufferevent_data_cb`; "Bufferevents: concepts and basics".
    pub fn took(&mut self, side: SideId, count: usize, time: u64)
        requires opened { side.link < self.old.links.opened }
        requires within { count ≤ length (lane_at self.old.links (peer side)).buffers.raw_output }
        ensures links { self.new.links ≡ after_took time side count self.old.links }
        ensures bays { KeepsBays self.old self.new }
    {
        match bay(&self.links, side) {
            Some(at) => self.sides.took(at, count, time),
            None => change_left(&mut self.links, side, Change::TookNone(time)),
        }
    }
}
