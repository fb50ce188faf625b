// Bytes that go from one buffer to another.
ghost use Rattle.std.specs.Prelude.{◌≡◌, ◌≤◌, ◌<◌, ◌+◌, ◌-◌, ◌^◌, ◌++◌, [], length, drop, take, min, None, true, IsOk, OnOk, OnErr, IfOk};
ghost use Rattle.byte_queue.specs.MemoryAnswers.{AnswersOr, fault_of};
ghost use Rattle.bev_core.specs.BufferValue.{more, less};
ghost use Rattle.bev_core.specs.Moves.{GoesInto};
ghost use Rattle.bev_core.specs.Refusals.{length_refusal};
ghost use Rattle.bev_core.specs.declared.fault.BevFault.TheVariants.{Memory};

use super::{Kept, OwnBuffer};
use crate::chained::Chained;
use crate::fault::BevFault;
use byte_queue::ByteQueue;
use ev_types::NoMemory;

impl OwnBuffer {
    /// Moves the first n bytes, or all where there are fewer, to the end of another, and answers how many. All bytes go into
    /// an empty one of the same kind by exchange, and behind others chunk by chunk where both lie in chunks, which takes no memory.
    pub(crate) fn move_front(&mut self, n: usize, to: &mut OwnBuffer) -> Result<usize, BevFault>
        ensures answer { AnswersOr Memory result (length_refusal to.old.held (min n (length self.old.held.bytes))) }
        ensures count { IfOk result (λ moved. moved ≡ min n (length self.old.held.bytes)) }
        ensures ok { OnOk result (self.new ≡ less self.old n self.new.held.spare) }
        ensures to_ok { OnOk result (to.new ≡ more to.old (take n self.old.held.bytes) to.new.held.spare) }
        ensures err { OnErr result (self.new ≡ self.old) }
        ensures to_err { OnErr result (to.new ≡ to.old) }
        ensures exchanged { length self.old.held.bytes ≤ n → to.old.held.bytes ≡ [] → self.old.chunked ≡ to.old.chunked
            → fault_of result ≡ None }
        ensures there { GoesInto n self.old.held to.old.held → self.old.chunked ≡ to.old.chunked → fault_of result ≡ None }
        ensures chunks { self.old.chunked ≡ true → to.old.chunked ≡ true → length self.old.held.bytes ≤ n
            → fault_of result ≡ length_refusal to.old.held (length self.old.held.bytes) }
    {
        let moved = n.min(self.len());
        to.fits(moved)?;
        match (&mut self.kept, &mut to.kept) {
            (Kept::Piece(from), Kept::Piece(into)) => move_queue(from, moved, into)?,
            (Kept::Chunks(from), Kept::Chunks(into)) => move_chunks(from, moved, into)?,
            _ => self.move_copy(moved, to)?,
        }
        Ok(moved)
    }

    // Moves the first n bytes to the end of one of the other kind.
    fn move_copy(&mut self, n: usize, to: &mut OwnBuffer) -> Result<(), BevFault>
        requires { length to.old.held.bytes + n < 2 ^ 64 }
        ensures answer { AnswersOr Memory result None }
        ensures ok { OnOk result (self.new ≡ less self.old n self.new.held.spare) }
        ensures to_ok { OnOk result (to.new ≡ more to.old (take n self.old.held.bytes) to.new.held.spare) }
        ensures err { OnErr result (self.new ≡ self.old) }
        ensures to_err { OnErr result (to.new ≡ to.old) }
    {
        let copy = self.gathered(n)?;
        to.feed(&copy)?;
        self.drain(n);
        Ok(())
    }

    /// The same in room that was made before, where not all go into an empty one. Takes no memory.
    pub(crate) fn move_in_room(&mut self, n: usize, to: &mut OwnBuffer)
        requires alike { self.old.chunked ≡ to.old.chunked }
        requires room { GoesInto n self.old.held to.old.held }
        ensures left { self.new ≡ less self.old n self.new.held.spare }
        ensures given { to.new ≡ more to.old (take n self.old.held.bytes) to.new.held.spare }
    {
        match (&mut self.kept, &mut to.kept) {
            (Kept::Piece(from), Kept::Piece(into)) => {
                let moved = n.min(from.len());
                from.give(into, moved);
            }
            (Kept::Chunks(from), Kept::Chunks(into)) => {
                if from.len() <= n && into.len() == 0 {
                    from.move_all(into);
                } else {
                    from.pour(n, into);
                }
            }
            _ => {}
        }
    }

    /// Moves the first n bytes, or all where there are fewer, to the end of another, in room that was made before. Takes no memory.
    pub(crate) fn pour(&mut self, n: usize, to: &mut OwnBuffer)
        requires alike { self.old.chunked ≡ to.old.chunked }
        requires room { n ≤ to.old.held.spare }
        ensures left { self.new ≡ less self.old n self.new.held.spare }
        ensures given { to.new ≡ more to.old (take n self.old.held.bytes) (to.old.held.spare - length (take n self.old.held.bytes)) }
    {
        match (&mut self.kept, &mut to.kept) {
            (Kept::Piece(from), Kept::Piece(into)) => {
                let moved = n.min(from.len());
                into.push(from.as_slice().split_at(moved).0);
                from.drop_front(moved);
            }
            (Kept::Chunks(from), Kept::Chunks(into)) => from.pour(n, into),
            _ => {}
        }
    }
}

// Moves the first n bytes of a queue behind those of another: all into an empty one by exchange.
fn move_queue(from: &mut ByteQueue, n: usize, into: &mut ByteQueue) -> Result<(), NoMemory>
    requires { n ≤ length from.old.items }
    ensures ok { OnOk result (from.new.items ≡ drop n from.old.items) }
    ensures into_ok { OnOk result (into.new.items ≡ into.old.items ++ take n from.old.items) }
    ensures err { OnErr result (from.new ≡ from.old) }
    ensures into_err { OnErr result (into.new ≡ into.old) }
    ensures exchanged { length from.old.items ≡ n → into.old.items ≡ [] → IsOk result }
    ensures there { n ≤ into.old.spare → IsOk result }
{
    if n < from.len() || into.len() > 0 {
        into.reserve(n)?;
    }
    from.give(into, n);
    Ok(())
}

// Moves the first n bytes that lie in chunks behind others that do: all of them without taking memory.
fn move_chunks(from: &mut Chained, n: usize, into: &mut Chained) -> Result<(), NoMemory>
    requires there { n ≤ length from.old.bytes }
    requires fits { length into.old.bytes + n < 2 ^ 64 }
    ensures ok { OnOk result (from.new.bytes ≡ drop n from.old.bytes) }
    ensures into_ok { OnOk result (into.new.bytes ≡ into.old.bytes ++ take n from.old.bytes) }
    ensures err { OnErr result (from.new ≡ from.old) }
    ensures into_err { OnErr result (into.new ≡ into.old) }
    ensures all { length from.old.bytes ≡ n → IsOk result }
    ensures there { n ≤ into.old.spare → IsOk result }
{
    if n == from.len() {
        from.move_all(into);
        return Ok(());
    }
    into.reserve(n)?;
    from.pour(n, into);
    Ok(())
}
