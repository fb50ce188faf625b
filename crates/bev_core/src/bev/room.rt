// Room that is made in a buffer before, and bytes that come into it.
ghost use Rattle.std.specs.Prelude.{◌≡◌, ◌≤◌, ◌+◌, length, max, take, false, vec_len, OnOk, OnErr, IsOk};
ghost use Rattle.byte_queue.specs.MemoryAnswers.{AnswersOr, fault_of};
ghost use Rattle.byte_queue.specs.QueuedBytes.{most_spare};
ghost use Rattle.bev_core.specs.Refusals.{live_refusal};
ghost use Rattle.bev_core.specs.Steps.{held, with_held, more, fed_reserved};
ghost use Rattle.bev_core.specs.declared.fault.BevFault.TheVariants.{Memory};

use super::Bev;
use crate::fault::BevFault;
use crate::spare_room::SpareRoom;
use ev_types::NoMemory;
use token_bucket::Dir;

impl Bev {
    /// Makes room for at least n more bytes in the input. Takes memory only where there is less; linear in the length and n
    /// then.
    ///
    /// Own.
    pub fn reserve_input(&mut self, n: usize) -> Result<(), BevFault>
        ensures answer { AnswersOr Memory result (live_refusal self.old) }
        ensures stays { self.new ≡ record self.old { input = record self.old.input { spare = self.new.input.spare } } }
        ensures room { OnOk result (n ≤ self.new.input.spare) }
        ensures kept { self.old.input.spare ≤ self.new.input.spare }
        ensures most { self.new.input.spare ≤ most_spare self.old.input.spare n (length self.old.input.bytes) }
        ensures there { n ≤ self.old.input.spare → fault_of result ≡ live_refusal self.old }
        ensures still { n ≤ self.old.input.spare → self.new ≡ self.old }
        ensures err { OnErr result (self.new ≡ self.old) }
    {
        self.check_live()?;
        self.input.reserve(n)?;
        Ok(())
    }

    /// Makes room for at least n more bytes in the buffer of a direction, the input for reading and the output for writing, whether
    /// it is live or not. Takes memory only where there is less; linear in the length and n then.
    ///
    /// Own.
    pub fn make_room(&mut self, dir: Dir, n: usize) -> Result<(), NoMemory>
        ensures stays { self.new ≡ with_held self.old dir (record (held self.old dir) { spare = (held self.new dir).spare }) }
        ensures room { OnOk result (n ≤ (held self.new dir).spare) }
        ensures kept { (held self.old dir).spare ≤ (held self.new dir).spare }
        ensures most { (held self.new dir).spare ≤ most_spare (held self.old dir).spare n (length (held self.old dir).bytes) }
        ensures there { n ≤ (held self.old dir).spare → IsOk result }
        ensures still { n ≤ (held self.old dir).spare → self.new ≡ self.old }
        ensures err { OnErr result (self.new ≡ self.old) }
    {
        match dir {
            Dir::Read => self.input.reserve(n),
            Dir::Write => self.output.reserve(n),
        }
    }

    /// Copies bytes to the end of the buffer of a direction, in room that was made before, whether it is live or not. Takes no memory;
    /// linear in the length.
    ///
    /// Own.
    pub fn feed_reserved(&mut self, dir: Dir, bytes: &[u8])
        requires { length bytes.now ≤ (held self.old dir).spare }
        ensures { self.new ≡ fed_reserved self.old dir bytes.now }
    {
        match dir {
            Dir::Read => self.input.feed_reserved(bytes),
            Dir::Write => self.output.feed_reserved(bytes),
        }
    }

    /// Puts the first n bytes of a block at the end of the input, whether it is live or not: in room that it makes, or where no memory is
    /// left for that in the spare room, which becomes the input then. Where the input has no byte, and room for just what the block is
    /// long, they exchange their blocks and no byte is copied; the block stays as long. Takes memory where the input has less room, and is
    /// never refused; linear in n, and in the length of the input where room is made.
    ///
    /// Own.
    pub fn feed_with_spare(&mut self, block: &mut Vec<u8>, n: usize, spare: &mut SpareRoom)
        requires one_piece { self.old.chunked ≡ false }
        requires within { n ≤ vec_len block.old }
        requires room { length self.old.input.bytes + n ≤ spare.old }
        ensures fed { self.new ≡ record self.old { input = more self.old.input (take n block.old.items) self.new.input.spare } }
        ensures most { self.new.input.spare ≤ max spare.old (most_spare self.old.input.spare 0 (length self.old.input.bytes)) }
        ensures kept { n ≤ self.old.input.spare → spare.new ≡ spare.old }
        ensures used { n ≤ self.old.input.spare → self.new.input.spare + n ≡ self.old.input.spare }
        ensures block { vec_len block.new ≡ vec_len block.old }
    {
        self.input.feed_or_swap(block, n, &mut spare.queue);
    }
}
