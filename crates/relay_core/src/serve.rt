// What the answers to reads, writes and connect checks change.
ghost use Rattle.std.specs.Prelude.{◌≡◌, ◌<◌, ◌≤◌, OnOk, IsOk, take, vec_len};
ghost use Rattle.relay_state.specs.Rooms.{read_room, write_room};
ghost use Rattle.relay_state.specs.Serving.{after_read, after_write, after_conn};
ghost use Rattle.relay_core.specs.Answered.{BringsWithin, arrived_count, TakesAtMost};
ghost use Rattle.relay_core.specs.RelayValue.{spare_read};

use crate::relay::Relay;
use ev_types::{ConnAnswer, Flags, NoMemory, ReadAnswer, SideId, Why, WriteAnswer};
use relay_sides::Dir;

/// Reading, with end of file.
const READ_ENDED: Flags = Flags(0x11);

/// Reading, with an error.
const READ_ERROR: Flags = Flags(0x21);

/// Writing, with an error.
const WRITE_ERROR: Flags = Flags(0x22);

impl Relay {
    /// Makes room for a read of so many bytes from the side's end. It is also refused where they could not be counted.
    /// Takes memory, for no more than can come, and none where there is room for as many already; linear in the length where it does.
    pub fn reserve_read(&mut self, side: SideId, room: usize) -> Result<(), NoMemory>
        requires { side.link < self.old.state.plain.opened }
        ensures state { self.new.state ≡ self.old.state }
        ensures room { OnOk result (room ≤ spare_read self.new side) }
        ensures there { 0 < room → room ≤ spare_read self.old side → IsOk result }
    {
        self.ctl.sides.reserve_read(side, room)
    }

    /// A read of the side's end was answered. What it brought stands in front of a block: bytes for which room was made before, and no
    /// more than may be read now. Linear in their number, and in the members of groups where its group is suspended by it; takes memory
    /// for the bytes alone. Where the side has no byte that waits for its read filter, and room for just what the block is long, they
    /// exchange their blocks and no byte is copied; the block stays as long.
    ///
    /// Own; libevent makes this change in the `readcb` of a socket bufferevent.
    pub fn read_answered(&mut self, side: SideId, answer: ReadAnswer, block: &mut Vec<u8>)
        requires opened { side.link < self.old.state.plain.opened }
        requires some { BringsWithin (vec_len block.old) answer }
        requires room { arrived_count answer ≤ spare_read self.old side }
        requires within { arrived_count answer ≤ read_room self.old.state side }
        ensures state { self.new.state ≡ after_read self.old.state side answer (take (arrived_count answer) block.old.items) }
        ensures block { vec_len block.new ≡ vec_len block.old }
    {
        match answer {
            ReadAnswer::Got(count) => {
                self.ctl.spend(side, Dir::Read, count);
                self.ctl.sides.got(side, block, count, self.ctl.time);
                self.ctl.raise_read(side);
            }
            ReadAnswer::Ended => {
                self.ctl.sides.ended(side);
                self.ctl.raise(side, Why::Event(READ_ENDED));
            }
            ReadAnswer::NotYet => {}
            ReadAnswer::Failed => {
                self.ctl.sides.read_failed(side);
                self.ctl.raise(side, Why::Event(READ_ERROR));
            }
        }
    }

    /// A write to the side's end was answered: it took some of the bytes that are given to it now, or failed. Takes no memory; linear in
    /// what was taken, over many calls, and in the members of groups where its group is suspended by it.
    ///
    /// Own; libevent makes this change in the `writecb` of a socket bufferevent.
    pub fn write_answered(&mut self, side: SideId, answer: WriteAnswer)
        requires opened { side.link < self.old.state.plain.opened }
        requires within { TakesAtMost (write_room self.old.state side) answer }
        ensures { self.new.state ≡ after_write self.old.state side answer }
    {
        match answer {
            WriteAnswer::Took(count) => {
                self.ctl.spend(side, Dir::Write, count);
                self.ctl.sides.took(side, count, self.ctl.time);
                self.ctl.raise_write(side);
            }
            WriteAnswer::Failed => {
                self.ctl.sides.write_failed(side);
                self.ctl.raise(side, Why::Event(WRITE_ERROR));
            }
            WriteAnswer::NotYet | WriteAnswer::NoMemory => {}
        }
    }

    /// A connect check was answered. Takes no memory; constant.
    ///
    /// Own; libevent makes this change in the `writecb` of a socket bufferevent.
    pub fn connect_answered(&mut self, side: SideId, answer: ConnAnswer)
        requires { side.link < self.old.state.plain.opened }
        ensures { self.new.state ≡ after_conn self.old.state side answer }
    {
        match answer {
            ConnAnswer::Connected => {
                self.ctl.sides.connected(side);
                self.ctl.raise(side, Why::Connected);
            }
            ConnAnswer::Pending => {}
            ConnAnswer::Failed => {
                self.ctl.sides.write_failed(side);
                self.ctl.raise(side, Why::Event(WRITE_ERROR));
            }
        }
    }
}
