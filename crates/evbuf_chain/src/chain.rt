// Bytes in order with the marks of the references that were added to them.
//
// What a chain keeps:
// 1. Its bytes lie in chunks, each in memory of its own or what is left of a shared slice, and behind all chunks in memory of its own.
// 2. Only the bytes of a shared slice have marks, which run down to its last byte. Bytes come in behind or in front, and leave at the
//    front alone.
// 3. A ticket is released when the last mark of its reference goes, or as it comes in where the reference has no bytes.
// 4. Where there are bytes, or room for some, behind all chunks, there is a node in which they become a chunk. So chunks go to another
//    chain without taking memory. The node of a ticket that was taken is kept there, if there is none, for the next reference.
ghost use Rattle.std.specs.Prelude.{◌≡◌, ◌≤◌, ◌<◌, ◌+◌, ◌-◌, ◌*◌, ◌^◌, ◌++◌, ◌∷◌, ◌==◌, ◌↔◌, [], length, drop, take, min, nat_lt};
ghost use Rattle.std.specs.Prelude.{OnOk, OnErr, IsOk};
ghost use Rattle.std.specs.Prelude.{IfOk, IfSome, IfNone, None, if◌then◌else◌};
ghost use Rattle.byte_queue.specs.MemoryAnswers.{AnswersOr, fault_of};
ghost use Rattle.evbuf_chain.specs.Mark.{unmarked, reference_marks, ended_tickets, uncut_marks, AreWhole};
ghost use Rattle.evbuf_chain.specs.Buffered.{length_refusal, joined, given_up};
ghost use Rattle.byte_queue.specs.QueuedBytes.{most_spare};
ghost use Rattle.evbuf_chain.specs.declared.fault.ChainFault.TheVariants.{Memory};
ghost use Rattle.std.specs.Rc.{rc_slice_items};

use crate::chunk::Chunk;
use crate::chunks::Chunks;
use crate::ends::{move_front, pull, put_before, put_behind, seal, take};
use crate::fault::ChainFault;
use crate::own::Own;
use crate::queue::Queue;
use crate::stack::make_node;
use crate::{moves, reading};
use smallvec::SmallVec;
use std::alloc::Global;
use std::marker::Model;
use std::rc::RcSlice;

/// Bytes in order. Contracts see the list of bytes, the mark that each has, a number spare, which says how many more
/// bytes fit without taking memory, and the tickets that wait to be taken.
///
/// Libevent: event2/buffer.h, `evbuffer`; "Evbuffers".
/// Differs: a reference tells of its end by a ticket number, and no function of the caller is called.
#[derive(Drop)]
pub struct Chain {
    own: Own,
    chunks: Chunks,
    // The tickets that wait to be taken.
    ended: Queue,
}

impl Model for Chain {
    ghost use Rattle.evbuf_chain.specs.Buffered.{Buffered};

    ghost Value = { Buffered };

    ghost use Rattle.evbuf_chain.specs.ChainView.{buffered, IsChain};

    ghost view = { buffered };

    ghost invariant = { IsChain };
}

impl Chain {
    ghost use Rattle.std.specs.Borrow.{sem};
    ghost use Rattle.std.specs.Prelude.{⊤};
    ghost use mathlib.Core.Option.{none};
    ghost use denote.Follow.{follows_so};
    ghost use Rattle.evbuf_chain.specs.contracts.chain.Chain.{the_row};
    ghost use Rattle.evbuf_chain.specs.Buffered.{AfterPullup, PullupAnswer, IsPulledUp};

    /// A chain with no byte. Takes no memory; constant cost.
    pub fn new(alloc: Global) -> Chain
        ensures bytes { result.bytes ≡ [] }
        ensures marks { result.marks ≡ [] }
        ensures spare { result.spare ≡ 0 }
        ensures released { result.released ≡ [] }
    {
        Chain {
            own: Own::new(alloc),
            chunks: Chunks::new(),
            ended: Queue::new(),
        }
    }

    /// The allocator that the chain was made with. Takes no memory; constant cost.
    ///
    /// Own.
    pub fn allocator(&self) -> Global {
        self.own.allocator()
    }

    /// How many bytes there are. Takes no memory; constant cost.
    pub fn len(&self) -> usize
        ensures len { result ≡ length self.now.bytes }
        ensures fits { length self.now.bytes + self.now.spare < 2 ^ 64 }
        ensures marked { length self.now.marks ≡ length self.now.bytes }
        ensures whole { AreWhole self.now.marks }
    {
        self.chunks.len() + self.own.len()
    }

    /// Frees the room of a chain without a byte, and does nothing where there is one. Takes no memory; constant cost.
    ///
    /// Own.
    pub fn give_up(&mut self)
        ensures { self.new ≡ given_up self.old }
    {
        if self.chunks.len() == 0 {
            self.own.give_up();
        }
    }

    /// Makes room for at least n more bytes at the end, and for no more than n and seven times the length where there was
    /// less. Takes memory then; constant cost where there is room, else linear in the bytes behind the last chunk.
    pub fn reserve(&mut self, n: usize) -> Result<(), ChainFault>
        ensures answer { AnswersOr Memory result None }
        ensures bytes { self.new.bytes ≡ self.old.bytes }
        ensures marks { self.new.marks ≡ self.old.marks }
        ensures released { self.new.released ≡ self.old.released }
        ensures room { OnOk result (n ≤ self.new.spare) }
        ensures kept { self.old.spare ≤ self.new.spare }
        ensures most { self.new.spare ≤ most_spare self.old.spare n (length self.old.bytes) }
        ensures err { OnErr result (self.new ≡ self.old) }

        // Where there is room it isn't refused, and changes nothing.
        ensures there { n ≤ self.old.spare → IsOk result }
        ensures still { n ≤ self.old.spare → self.new ≡ self.old }
    {
        if n <= self.own.spare() {
            return Ok(());
        }
        if n > usize::MAX - self.len() {
            return Err(ChainFault::Memory);
        }
        self.own.reserve(n)?;
        Ok(())
    }

    /// Copies bytes in at the end, in room that was made before. Takes no memory; linear in the bytes.
    pub fn push_reserved(&mut self, bytes: &[u8])
        requires { length bytes.now ≤ self.old.spare }
        ensures bytes { self.new.bytes ≡ self.old.bytes ++ bytes.now }
        ensures marks { self.new.marks ≡ self.old.marks ++ unmarked (length bytes.now) }
        ensures released { self.new.released ≡ self.old.released }
        ensures spare { self.new.spare + length bytes.now ≡ self.old.spare }
    {
        self.own.push(bytes);
    }

    /// Copies bytes in at the end. Where the length would not fit a usize it is refused as Spent, before want of memory.
    /// Takes memory where there is less room; linear in the bytes, over many calls.
    pub fn push_copy(&mut self, bytes: &[u8]) -> Result<(), ChainFault>
        ensures answer { AnswersOr Memory result (length_refusal (length self.old.bytes + length bytes.now)) }
        ensures bytes { OnOk result (self.new.bytes ≡ self.old.bytes ++ bytes.now) }
        ensures marks { OnOk result (self.new.marks ≡ self.old.marks ++ unmarked (length bytes.now)) }
        ensures released { self.new.released ≡ self.old.released }
        ensures most { self.new.spare ≤ most_spare self.old.spare 0 (length self.old.bytes) }
        ensures err { OnErr result (self.new ≡ self.old) }

        // What is left of the room, and where there is room enough it isn't refused.
        ensures spare { OnOk result (self.new.spare ≡ self.old.spare - length bytes.now) }
        ensures there { length bytes.now ≤ self.old.spare → IsOk result }
    {
        self.fits(bytes.len())?;
        self.own.append(bytes)?;
        Ok(())
    }

    /// Adds a reference to bytes at the end, with the ticket by which its end is told. One of no bytes is released at
    /// once. Refused as `push_copy`. What is spare afterwards is left open, and so is whether the bytes are shared: they are,
    /// and none is copied. Takes memory for a node where none is kept; constant cost.
    ///
    /// Libevent: event2/buffer.h, `evbuffer_add_reference`; "Evbuffers".
    /// Differs: a reference of no bytes does not wait for the next change.
    pub fn push_ref(&mut self, bytes: RcSlice<u8>, ticket: u64) -> Result<(), ChainFault>
        ensures answer { AnswersOr Memory result (length_refusal (length self.old.bytes + length (rc_slice_items bytes))) }
        ensures bytes { OnOk result (self.new.bytes ≡ self.old.bytes ++ rc_slice_items bytes) }
        ensures marks { OnOk result (self.new.marks ≡ self.old.marks ++ reference_marks ticket (length (rc_slice_items bytes))) }
        ensures released { OnOk result (self.new.released ≡ self.old.released ++ (if length (rc_slice_items bytes) == 0 then ticket ∷ [] else [])) }
        ensures err { OnErr result (self.new ≡ self.old) }
    {
        self.fits(bytes.len())?;
        let alloc = self.own.allocator();
        if bytes.len() == 0 {
            self.ended
                .push_back(make_node(alloc, Chunk::ended(ticket))?);
            return Ok(());
        }
        let node = self.own.node_of(Chunk::shared(bytes, ticket))?;
        seal(&mut self.own, &mut self.chunks);
        self.chunks.push_back(node);
        Ok(())
    }

    /// Copies bytes in at the front. Refused as `push_copy`. Takes memory where there is less room; linear in the bytes,
    /// over many calls.
    pub fn prepend(&mut self, bytes: &[u8]) -> Result<(), ChainFault>
        ensures answer { AnswersOr Memory result (length_refusal (length self.old.bytes + length bytes.now)) }
        ensures bytes { OnOk result (self.new.bytes ≡ bytes.now ++ self.old.bytes) }
        ensures marks { OnOk result (self.new.marks ≡ unmarked (length bytes.now) ++ self.old.marks) }
        ensures released { self.new.released ≡ self.old.released }
        ensures spare { self.new.spare ≡ self.old.spare }
        ensures err { OnErr result (self.new ≡ self.old) }
    {
        self.fits(bytes.len())?;
        if bytes.len() > usize::MAX - self.len() - self.own.spare() {
            return Err(ChainFault::Memory);
        }
        if bytes.is_empty() {
            return Ok(());
        }
        put_before(&mut self.chunks, &mut self.own, bytes)?;
        Ok(())
    }

    /// Takes off the first n bytes, or all where there are fewer. Takes no memory; linear in n, over many calls.
    pub fn drain(&mut self, n: usize)
        ensures bytes { self.new.bytes ≡ drop n self.old.bytes }
        ensures marks { self.new.marks ≡ drop n self.old.marks }
        ensures released { self.new.released ≡ self.old.released ++ ended_tickets (take n self.old.marks) }
        ensures spare { self.new.spare ≡ self.old.spare }
        ensures most { length self.new.bytes + self.new.spare ≤ self.old.spare + 4 * length self.old.bytes }
    {
        let _marked = self.chunks.len();
        let left = moves::drain(&mut self.chunks, &mut self.ended, n);
        self.own.drop_front(left.min(self.own.len()));
    }

    /// Copies the bytes from a place on, as many as are there and fit, and answers how many. Takes no memory; linear in
    /// what it copies and in the chunks.
    pub fn copy_out(&self, from: usize, into: &mut [u8]) -> usize
        ensures count { result ≡ min (length into.old) (length self.now.bytes - from) }
        ensures copied { into.new ≡ take result (drop from self.now.bytes) ++ drop result into.old }
    {
        let count = self.len().saturating_sub(from).min(into.len());
        let (window, _) = into.split_at_mut(count);
        self.chunks.copy_out(from, window);
        reading::copy_part(self.own.as_slice(), self.chunks.len(), from, window);
        count
    }

    /// The first n bytes, or all where there are fewer, as slices that joined are these bytes. Takes memory for more than
    /// eight; linear in the chunks.
    pub fn extents(&self, n: usize) -> Result<SmallVec<&[u8], 8>, ChainFault>
        ensures answer { AnswersOr Memory result None }
        ensures bytes { IfOk result (λ slices. joined slices.items ≡ take n self.now.bytes) }
    {
        let mut slices = SmallVec::new(self.own.allocator());
        self.chunks.extents(self.own.allocator(), n, &mut slices)?;
        let left = n.saturating_sub(self.chunks.len());
        if left > 0 {
            slices.push(reading::first(self.own.as_slice(), left))?;
        }
        Ok(slices)
    }

    /// Makes the first n bytes contiguous, in the chain's own memory, and shows them; none where n is above the length.
    /// Every referenced byte among them is copied, so that the references that end there are released. Takes memory; linear
    /// in n, and constant where the first chunk has so many in memory of its own.
    ///
    /// Libevent: event2/buffer.h, `evbuffer_pullup`; "Evbuffers", "Rearranging the internal layout of an evbuffer".
    /// Differs: referenced bytes are copied also where they are contiguous already.
    pub fn pullup(&mut self, n: usize) -> Result<Option<&[u8]>, ChainFault>
        ensures answer { AnswersOr Memory result None }
        ensures front { PullupAnswer self.old.bytes n result }
        ensures* after { sem 𝓛 (follows_so the_row the_row self.entry.ghost_name none (λ _ _. ⊤) (λ new. AfterPullup self.old n result new)) }
    {
        if n > self.len() {
            return Ok(None);
        }
        if n == 0 || self.chunks.len() == 0 {
            return Ok(Some(reading::first(self.own.as_slice(), n)));
        }
        pull(&mut self.chunks, &mut self.own, &mut self.ended, n)?;
        Ok(Some(self.chunks.first(n)))
    }

    /// The ticket that was released first and not taken yet, or none. Takes no memory; constant cost.
    pub fn take_released(&mut self) -> Option<u64>
        ensures bytes { self.new.bytes ≡ self.old.bytes }
        ensures marks { self.new.marks ≡ self.old.marks }
        ensures spare { self.new.spare ≡ self.old.spare }
        ensures none { IfNone result ((self.old.released ≡ []) × (self.new.released ≡ [])) }
        ensures some { IfSome result (λ ticket. self.old.released ≡ ticket ∷ self.new.released) }
    {
        let (ticket, node) = moves::take_ticket(&mut self.ended)?;
        self.own.keep(node);
        Some(ticket)
    }

    /// Moves the first n bytes, or all where there are fewer, to the end of another chain, and answers how many. Where a
    /// reference is cut, its front part is copied and the reference stays with the rest. Where the other chain's length
    /// would not fit a usize it is refused as Spent, before want of memory. Whole chunks move without being copied. Takes
    /// memory for what is copied, of the chunk that is cut, where there is less room; linear in the chunks that move and, over
    /// many calls, in that.
    ///
    /// Libevent: event2/buffer.h, `evbuffer_remove_buffer`; "Evbuffers".
    pub fn split_front(&mut self, n: usize, to: &mut Chain) -> Result<usize, ChainFault>
        ensures answer { AnswersOr Memory result (length_refusal (length to.old.bytes + min n (length self.old.bytes))) }
        ensures count { IfOk result (λ moved. moved ≡ min n (length self.old.bytes)) }
        ensures bytes { OnOk result (self.new.bytes ≡ drop n self.old.bytes) }
        ensures marks { OnOk result (self.new.marks ≡ drop n self.old.marks) }
        ensures to_bytes { OnOk result (to.new.bytes ≡ to.old.bytes ++ take n self.old.bytes) }
        ensures to_marks { OnOk result (to.new.marks ≡ to.old.marks ++ uncut_marks (take n self.old.marks)) }

        ensures released { self.new.released ≡ self.old.released }
        ensures to_released { to.new.released ≡ to.old.released }
        ensures to_most { to.new.spare ≤ most_spare to.old.spare 0 (length to.old.bytes) }
        ensures err { OnErr result (self.new ≡ self.old) }
        ensures to_err { OnErr result (to.new ≡ to.old) }
    {
        let n = n.min(self.len());
        to.fits(n)?;
        move_front(
            &mut self.chunks,
            &mut self.own,
            &mut self.ended,
            n,
            &mut to.chunks,
            &mut to.own,
        )?;
        Ok(n)
    }

    /// Moves all bytes of another chain, with their marks, to the end, chunk by chunk: none is copied. What is spare in either is
    /// left open. Takes no memory; linear in the chunks that are moved, and constant where this chain has none.
    ///
    /// Libevent: event2/buffer.h, `evbuffer_add_buffer`; "Evbuffers".
    pub fn append_all(&mut self, from: &mut Chain)
        requires { length self.old.bytes + length from.old.bytes < 2 ^ 64 }
        ensures bytes { self.new.bytes ≡ self.old.bytes ++ from.old.bytes }
        ensures marks { self.new.marks ≡ self.old.marks ++ from.old.marks }
        ensures from_bytes { from.new.bytes ≡ [] }
        ensures from_marks { from.new.marks ≡ [] }

        ensures released { self.new.released ≡ self.old.released }
        ensures from_released { from.new.released ≡ from.old.released }
        ensures spare { self.new.spare ≡ 0 }
    {
        put_behind(
            &mut self.chunks,
            &mut self.own,
            &mut from.chunks,
            &mut from.own,
        );
    }

    /// Copies the first n bytes behind those of another chain, in room that was made there before, and takes them off. Takes no memory;
    /// linear in n and the chunks that it takes off.
    ///
    /// Own.
    pub fn pour(&mut self, n: usize, to: &mut Chain)
        requires there { n ≤ length self.old.bytes }
        requires room { n ≤ to.old.spare }
        ensures bytes { self.new.bytes ≡ drop n self.old.bytes }
        ensures marks { self.new.marks ≡ drop n self.old.marks }
        ensures released { self.new.released ≡ self.old.released ++ ended_tickets (take n self.old.marks) }
        ensures spare { self.new.spare ≡ self.old.spare }
        ensures to_bytes { to.new.bytes ≡ to.old.bytes ++ take n self.old.bytes }
        ensures to_marks { to.new.marks ≡ to.old.marks ++ unmarked n }
        ensures to_released { to.new.released ≡ to.old.released }
        ensures to_spare { to.new.spare + n ≡ to.old.spare }
    {
        take(
            &mut self.chunks,
            &mut self.own,
            &mut self.ended,
            n,
            &mut to.own,
        );
    }

    /// All bytes in one piece, or None where they lie in several chunks. Takes no memory; constant cost.
    ///
    /// Own.
    pub fn piece(&self) -> Option<&[u8]>
        ensures piece { IfSome result (λ piece. piece.now ≡ self.now.bytes) }
        ensures none { IfNone result (0 < length self.now.bytes) }
    {
        if self.chunks.len() > 0 {
            return None;
        }
        Some(self.own.as_slice())
    }

    // Whether so many more bytes leave a length that fits a usize.
    fn fits(&self, n: usize) -> Result<(), ChainFault>
        ensures answer { fault_of result ≡ length_refusal (length self.now.bytes + n) }
        ensures room { OnOk result (length self.now.bytes + n < 2 ^ 64) }
    {
        if n > usize::MAX - self.len() {
            return Err(ChainFault::Spent);
        }
        Ok(())
    }
}
