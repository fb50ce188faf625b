// Bytes that go from the input of one bufferevent to the output of another.
ghost use Rattle.std.specs.Prelude.{◌≡◌, ◌≤◌, ◌<◌, ◌+◌, ◌^◌, true, None, length, OnOk, OnErr, IfOk};
ghost use Rattle.byte_queue.specs.MemoryAnswers.{AnswersOr, fault_of};
ghost use Rattle.bev_core.specs.BevValue.{new_chunked};
ghost use Rattle.bev_world.specs.declared.fault.WorldFault.TheVariants.{Memory};
ghost use Rattle.bev_world.specs.Passed.{emptied, with_whole_input, moved_input, move_refusal};
ghost use Rattle.bev_world.specs.Halves.{appended};
ghost use Rattle.bev_world.specs.Refusals.{length_fault};
ghost use Rattle.bev_world.specs.Went.{Went};
ghost use Rattle.bev_world.specs.WorldValue.{bev_at};

use super::World;
use crate::fault::WorldFault;
use bev_core::{Bev, Dir};
use ev_types::BevId;

impl World {
    /// Moves the whole input of one bufferevent to the end of the output of another, or of its own one. No half passes it on. The room of
    /// the input goes with its bytes, so that it is sure of none then, until `reserve_input` makes room again. NotLive comes first, then
    /// Spent where a length would not fit a usize.
    ///
    /// Where buffers may lie in several chunks it takes no memory, and the cost is in the chunks that move. In a world in one piece it
    /// takes memory where the output has bytes and no room for the others; into an empty output the bytes go by exchange, which is
    /// constant, and else the cost is in the bytes.
    ///
    /// Libevent: event2/bufferevent.h, `bufferevent_write_buffer`; "Bufferevents: concepts and basics".
    pub fn move_input(&mut self, from: BevId, to: BevId) -> Result<(), WorldFault>
        ensures answer { AnswersOr Memory result (move_refusal self.old from.0 to.0) }
        ensures there { self.old.chunked ≡ true → fault_of result ≡ move_refusal self.old from.0 to.0 }
        ensures ok { OnOk result (self.new
            ≡ moved_input self.old from.0 to.0 (bev_at self.new to.0).output.spare (bev_at self.new from.0).input.spare) }
        ensures err { OnErr result (self.new ≡ self.old) }
        ensures went { Went self.old self.new }
    {
        let source = self.find(from)?;
        let target = self.find(to)?;
        let n = self.count_between(source, target)?;
        self.move_front(source, target, n)
    }

    // The first n bytes of an input, which are all, go to the end of an output, which may be that of the same bufferevent. A bufferevent
    // that stands beside carries them.
    fn move_front(&mut self, from: usize, to: usize, n: usize) -> Result<(), WorldFault>
        requires there { from < length self.old.slots }
        requires to_there { to < length self.old.slots }
        requires all { n ≡ length (bev_at self.old from).input.bytes }
        requires fits { length (bev_at self.old to).output.bytes + n < 2 ^ 64 }
        ensures answer { AnswersOr Memory result None }
        ensures sure { self.old.chunked ≡ true → fault_of result ≡ None }
        ensures ok { OnOk result (self.new
            ≡ moved_input self.old from to (bev_at self.new to).output.spare (bev_at self.new from).input.spare) }
        ensures err { OnErr result (self.new ≡ self.old) }
        ensures went { Went self.old self.new }
    {
        let room = self.slots[from].room;
        let mut carrier = self.take_input(from);
        if let Err(fault) = self.append_all(to, &mut carrier, n) {
            self.put_back(from, carrier, room);
            return Err(fault);
        }
        Ok(())
    }

    // Takes a whole input out of its slot. It is the output of a new bufferevent then, which stands beside.
    fn take_input(&mut self, at: usize) -> Bev
        requires { at < length self.old.slots }
        ensures taken { result ≡ record (new_chunked self.old.chunked) { output = (bev_at self.old at).input } }
        ensures after { self.new ≡ emptied self.old at 0 }
        ensures went { Went self.old self.new }
    {
        let mut carrier = Bev::made(self.alloc, self.chunked);
        let slot = &mut self.slots[at];
        carrier.swap_across(Dir::Write, &mut slot.bev);
        slot.room = 0;
        carrier
    }

    // Makes the output of a bufferevent that stands beside an input, which is sure of so much room.
    fn put_back(&mut self, at: usize, mut carrier: Bev, room: usize)
        requires there { at < length self.old.slots }
        requires alike { carrier.chunked ≡ self.old.chunked }
        requires room { room ≤ carrier.output.spare }
        ensures { self.new ≡ with_whole_input self.old at carrier.output room }
    {
        let slot = &mut self.slots[at];
        carrier.swap_across(Dir::Write, &mut slot.bev);
        slot.room = room;
    }

    // The whole output of a bufferevent that stands beside goes to the end of an output.
    fn append_all(&mut self, at: usize, carrier: &mut Bev, n: usize) -> Result<(), WorldFault>
        requires there { at < length self.old.slots }
        requires all { n ≡ length carrier.old.output.bytes }
        requires fits { length (bev_at self.old at).output.bytes + n < 2 ^ 64 }
        ensures answer { AnswersOr Memory result None }
        ensures sure { self.old.chunked ≡ true → carrier.old.chunked ≡ true → fault_of result ≡ None }
        ensures ok { OnOk result (self.new ≡ appended self.old at carrier.old.output.bytes (bev_at self.new at).output.spare) }
        ensures err { OnErr result (self.new ≡ self.old) }
        ensures kept { OnErr result (carrier.new ≡ carrier.old) }
        ensures went { Went self.old self.new }
    {
        let _moved = carrier.pass(Dir::Write, &mut self.slots[at].bev, n)?;
        Ok(())
    }

    // How many bytes there are to move, where the output takes so many more.
    fn count_between(&self, from: usize, to: usize) -> Result<usize, WorldFault>
        requires there { from < length self.now.slots }
        requires to_there { to < length self.now.slots }
        ensures answer { fault_of result
            ≡ length_fault (length (bev_at self.now to).output.bytes) (length (bev_at self.now from).input.bytes) }
        ensures count { IfOk result (λ n. n ≡ length (bev_at self.now from).input.bytes) }
        ensures fits { IfOk result (λ n. length (bev_at self.now to).output.bytes + n < 2 ^ 64) }
    {
        let len = self.slots[to].bev.state().output as usize;
        let n = self.slots[from].bev.state().input as usize;
        if n > usize::MAX - len {
            return Err(WorldFault::Spent);
        }
        Ok(n)
    }
}
