// Bytes that go from a buffer of one bufferevent to a buffer of another: they pass to that of the same direction, or cross to that of
// the other one.
ghost use Rattle.std.specs.Prelude.{◌≡◌, ◌≤◌, [], length, min, take, None, true, OnOk, OnErr, IfOk};
ghost use Rattle.byte_queue.specs.MemoryAnswers.{AnswersOr, fault_of};
ghost use Rattle.bev_core.specs.Moves.{GoesInto, BytesGo, opposite};
ghost use Rattle.bev_core.specs.Refusals.{length_refusal};
ghost use Rattle.bev_core.specs.Steps.{held, with_held, less, fed_reserved};
ghost use Rattle.bev_core.specs.declared.fault.BevFault.TheVariants.{Memory};

use super::Bev;
use crate::fault::BevFault;
use std::mem;
use token_bucket::Dir;

impl Bev {
    /// Moves the first n bytes of the buffer of a direction, or all where there are fewer, to the end of another's buffer of the same
    /// direction, and answers how many. Whether either is live, its flags and its marks are not looked at. All bytes go into an empty
    /// buffer by exchange. Takes memory only where others find less room. Spent comes where the length would not fit a usize. Linear in
    /// what it copies.
    ///
    /// Libevent: event2/buffer.h, `evbuffer_remove_buffer`; "Evbuffers".
    pub fn pass(&mut self, dir: Dir, to: &mut Bev, n: usize) -> Result<usize, BevFault>
        ensures answer { AnswersOr Memory result (length_refusal (held to.old dir) (min n (length (held self.old dir).bytes))) }
        ensures count { IfOk result (λ moved. moved ≡ min n (length (held self.old dir).bytes)) }
        ensures ok { OnOk result (BytesGo n dir dir self.old to.old self.new to.new) }
        ensures err { OnErr result (self.new ≡ self.old) }
        ensures to_err { OnErr result (to.new ≡ to.old) }
        ensures exchanged { length (held self.old dir).bytes ≤ n → (held to.old dir).bytes ≡ [] →
            self.old.chunked ≡ to.old.chunked → fault_of result ≡ None }
        ensures chunks { self.old.chunked ≡ true → to.old.chunked ≡ true → length (held self.old dir).bytes ≤ n →
            fault_of result ≡ length_refusal (held to.old dir) (length (held self.old dir).bytes) }
        ensures there { GoesInto n (held self.old dir) (held to.old dir) → self.old.chunked ≡ to.old.chunked → fault_of result ≡ None }
    {
        match dir {
            Dir::Read => self.input.move_front(n, &mut to.input),
            Dir::Write => self.output.move_front(n, &mut to.output),
        }
    }

    /// Moves the first n bytes of the input to the end of another's output, or those of the output to the end of its input, as `pass`.
    ///
    /// Own.
    pub fn cross(&mut self, dir: Dir, to: &mut Bev, n: usize) -> Result<usize, BevFault>
        ensures answer { AnswersOr Memory result (length_refusal (held to.old (opposite dir)) (min n (length (held self.old dir).bytes))) }
        ensures count { IfOk result (λ moved. moved ≡ min n (length (held self.old dir).bytes)) }
        ensures ok { OnOk result (BytesGo n dir (opposite dir) self.old to.old self.new to.new) }
        ensures err { OnErr result (self.new ≡ self.old) }
        ensures to_err { OnErr result (to.new ≡ to.old) }
        ensures exchanged { length (held self.old dir).bytes ≤ n → (held to.old (opposite dir)).bytes ≡ [] →
            self.old.chunked ≡ to.old.chunked → fault_of result ≡ None }
        ensures chunks { self.old.chunked ≡ true → to.old.chunked ≡ true → length (held self.old dir).bytes ≤ n →
            fault_of result ≡ length_refusal (held to.old (opposite dir)) (length (held self.old dir).bytes) }
        ensures there { GoesInto n (held self.old dir) (held to.old (opposite dir)) → self.old.chunked ≡ to.old.chunked →
            fault_of result ≡ None }
    {
        match dir {
            Dir::Read => self.input.move_front(n, &mut to.output),
            Dir::Write => self.output.move_front(n, &mut to.input),
        }
    }

    /// Moves the first n bytes as `pass`, but in room that was made before, or all into an empty buffer. Takes no memory, and is never
    /// refused. Linear in what it copies.
    ///
    /// Own.
    pub fn pass_in_room(&mut self, dir: Dir, to: &mut Bev, n: usize)
        requires alike { self.old.chunked ≡ to.old.chunked }
        requires room { GoesInto n (held self.old dir) (held to.old dir) }
        ensures { BytesGo n dir dir self.old to.old self.new to.new }
    {
        match dir {
            Dir::Read => self.input.move_in_room(n, &mut to.input),
            Dir::Write => self.output.move_in_room(n, &mut to.output),
        }
    }

    /// Moves the first n bytes of the output, or all where there are fewer, to the end of another's input, or those of the input to the end
    /// of its output, in room that was made before, of which what isn't filled stays. Takes no memory, and is never refused. Linear in n.
    ///
    /// Own.
    pub fn pour(&mut self, dir: Dir, to: &mut Bev, n: usize)
        requires alike { self.old.chunked ≡ to.old.chunked }
        requires room { n ≤ (held to.old (opposite dir)).spare }
        ensures left { self.new ≡ with_held self.old dir (less (held self.old dir) n (held self.new dir).spare) }
        ensures given { to.new ≡ fed_reserved to.old (opposite dir) (take n (held self.old dir).bytes) }
    {
        match dir {
            Dir::Read => self.input.pour(n, &mut to.output),
            Dir::Write => self.output.pour(n, &mut to.input),
        }
    }

    /// Exchanges the input with another's output, or the output with its input, bytes and room. Whether either is live, its flags and
    /// its marks are not looked at. Takes no memory; constant cost.
    ///
    /// Own.
    pub fn swap_across(&mut self, dir: Dir, to: &mut Bev)
        requires { self.old.chunked ≡ to.old.chunked }
        ensures own { self.new ≡ with_held self.old dir (held to.old (opposite dir)) }
        ensures other { to.new ≡ with_held to.old (opposite dir) (held self.old dir) }
    {
        match dir {
            Dir::Read => mem::swap(&mut self.input, &mut to.output),
            Dir::Write => mem::swap(&mut self.output, &mut to.input),
        }
    }
}
