// A buffer: a chain of bytes with frozen ends and size callbacks.
//
// What a buffer keeps:
// 1. Bytes come in only where the end that they come in at isn't frozen, and leave only where the front isn't.
// 2. Each change of the bytes is told to each callback that is enabled, once, in the same call.
// 3. A number of a callback is not used again.
ghost use Rattle.std.specs.Prelude.{◌≡◌, ◌≤◌, ◌+◌, ◌-◌, ◌*◌, ◌^◌, ◌<◌, ◌++◌, ◌∷◌, [], length, drop, take, min, true, false, OnOk};
ghost use Rattle.std.specs.Prelude.{OnErr, IsOk, IfOk, IfSome, IfNone, None, Some, option_map};
ghost use Rattle.byte_queue.specs.MemoryAnswers.{AnswersOr, fault_of};
ghost use Rattle.evbuf_chain.specs.Buffered.{joined, PullupAnswer};
ghost use Rattle.byte_queue.specs.QueuedBytes.{most_spare};
ghost use Rattle.evbuf_chain.specs.Mark.{AreWhole};
ghost use Rattle.evbuf.specs.Callbacks.{new_callback, without, with_enabled, report_of, newest_waiting, after_report};
ghost use Rattle.evbuf.specs.Steps.{new_buffer, after_add, after_prepend, after_reference, after_drain, after_giving, after_taking};
ghost use Rattle.evbuf.specs.Steps.{after_giving_all, after_taking_all, with_frozen, is_frozen, given_up};
ghost use Rattle.evbuf.specs.Refusals.{end_refusal, front_refusal, add_refusal, prepend_refusal, move_refusal, same_refusal};
ghost use Rattle.evbuf.specs.Refusals.{callback_refusal, number_refusal};
ghost use Rattle.evbuf.specs.declared.fault.BufFault.TheVariants.{Memory};
ghost use Rattle.std.specs.Rc.{rc_slice_items};

use crate::callback::Report;
use crate::fault::BufFault;
use crate::place::Place;
use crate::size_callbacks::SizeCallbacks;
use evbuf_chain::Chain;
use smallvec::SmallVec;
use std::alloc::Global;
use std::marker::Model;
use std::rc::RcSlice;

/// Bytes in order, with ends that can be frozen and callbacks that are told how the length changed.
///
/// Each call tests first whether an end is frozen, the target's end before the source's front, then whether a length
/// or a number fits, and then wants memory. A change of its bytes costs a step for each size callback, beside what the call costs.
///
/// Libevent: event2/buffer.h, `evbuffer`; "Evbuffers".
/// Differs: callbacks are numbers, whose reports are taken by the caller; frozen ends refuse also where there is
/// nothing to do.
#[derive(Drop)]
pub struct Evbuffer {
    chain: Chain,
    callbacks: SizeCallbacks,
    front_frozen: bool,
    end_frozen: bool,
}

impl Model for Evbuffer {
    ghost use Rattle.evbuf.specs.Evbuffered.{Evbuffered};

    ghost Value = { Evbuffered };

    ghost use Rattle.evbuf.specs.EvbufferView.{evbuffered};

    ghost view = { evbuffered };
}

impl Evbuffer {
    ghost use Rattle.std.specs.Borrow.{sem};
    ghost use Rattle.std.specs.Prelude.{⊤};
    ghost use mathlib.Core.Option.{none};
    ghost use denote.Follow.{follows_so};
    ghost use Rattle.evbuf.specs.contracts.evbuffer.Evbuffer.{the_row};
    ghost use Rattle.evbuf.specs.Pullup.{AfterPullup, AfterPullupAll};

    /// An empty buffer with no callback, frozen at no end. Takes no memory; constant cost.
    pub fn new(alloc: Global) -> Evbuffer
        ensures { result ≡ new_buffer }
    {
        Evbuffer {
            chain: Chain::new(alloc),
            callbacks: SizeCallbacks::new(),
            front_frozen: false,
            end_frozen: false,
        }
    }

    /// The allocator that the buffer was made with. Takes no memory; constant cost.
    ///
    /// Own.
    pub fn allocator(&self) -> Global {
        self.chain.allocator()
    }

    /// How many bytes there are. Takes no memory; constant cost.
    pub fn len(&self) -> usize
        ensures len { result ≡ length self.now.bytes }
        ensures fits { length self.now.bytes + self.now.spare < 2 ^ 64 }
        ensures marked { length self.now.marks ≡ length self.now.bytes }
        ensures whole { AreWhole self.now.marks }
    {
        self.chain.len()
    }

    /// Frees the room of a buffer without a byte, and does nothing where there is one. Takes no memory, and no frozen end
    /// refuses it. Constant cost.
    ///
    /// Own.
    pub fn give_up(&mut self)
        ensures { self.new ≡ given_up self.old }
    {
        self.chain.give_up();
    }

    /// Makes room for at least n more bytes at the end, and for no more than n and seven times the length where there was
    /// less. No frozen end refuses it. Takes memory then; constant cost where there is room, else linear in the length.
    ///
    /// Libevent: event2/buffer.h, `evbuffer_expand`; "Evbuffers".
    pub fn reserve(&mut self, n: usize) -> Result<(), BufFault>
        ensures answer { AnswersOr Memory result None }
        ensures stays { self.new ≡ record self.old { spare = self.new.spare } }
        ensures room { OnOk result (n ≤ self.new.spare) }
        ensures kept { self.old.spare ≤ self.new.spare }
        ensures most { self.new.spare ≤ most_spare self.old.spare n (length self.old.bytes) }
        ensures err { OnErr result (self.new ≡ self.old) }

        // Where there is room it isn't refused, and changes nothing.
        ensures there { n ≤ self.old.spare → IsOk result }
        ensures still { n ≤ self.old.spare → self.new ≡ self.old }
    {
        self.chain.reserve(n)?;
        Ok(())
    }

    /// Copies bytes in at the end, in room that was made before. Takes no memory, and lowers what is spare by the length.
    /// Linear in the bytes.
    pub fn push_reserved(&mut self, bytes: &[u8]) -> Result<(), BufFault>
        requires { length bytes.now ≤ self.old.spare }
        ensures answer { fault_of result ≡ end_refusal self.old }
        ensures ok { OnOk result (self.new ≡ after_add self.old bytes.now (self.old.spare - length bytes.now)) }
        ensures err { OnErr result (self.new ≡ self.old) }
    {
        self.end_open()?;
        let before = self.chain.len();
        self.chain.push_reserved(bytes);
        self.callbacks.change(before, bytes.len(), 0);
        Ok(())
    }

    /// Copies bytes in at the end. Takes memory where there is less room; linear in the bytes, over many calls.
    ///
    /// Libevent: event2/buffer.h, `evbuffer_add`; "Evbuffers".
    pub fn add(&mut self, bytes: &[u8]) -> Result<(), BufFault>
        ensures answer { AnswersOr Memory result (add_refusal self.old (length bytes.now)) }
        ensures ok { OnOk result (self.new ≡ after_add self.old bytes.now self.new.spare) }
        ensures most { self.new.spare ≤ most_spare self.old.spare 0 (length self.old.bytes) }
        ensures err { OnErr result (self.new ≡ self.old) }

        // What is left of the room, and where there is room enough memory isn't wanted.
        ensures spare { OnOk result (self.new.spare ≡ self.old.spare - length bytes.now) }
        ensures there { length bytes.now ≤ self.old.spare → fault_of result ≡ add_refusal self.old (length bytes.now) }
    {
        self.end_open()?;
        let before = self.chain.len();
        self.chain.push_copy(bytes)?;
        self.callbacks.change(before, bytes.len(), 0);
        Ok(())
    }

    /// Copies bytes in at the front. What is spare afterwards is left open. Takes memory where there is less room; linear
    /// in the bytes, over many calls.
    ///
    /// Libevent: event2/buffer.h, `evbuffer_prepend`; "Evbuffers".
    pub fn prepend(&mut self, bytes: &[u8]) -> Result<(), BufFault>
        ensures answer { AnswersOr Memory result (prepend_refusal self.old (length bytes.now)) }
        ensures ok { OnOk result (self.new ≡ after_prepend self.old bytes.now self.new.spare) }
        ensures err { OnErr result (self.new ≡ self.old) }
    {
        self.front_open()?;
        let before = self.chain.len();
        self.chain.prepend(bytes)?;
        self.callbacks.change(before, bytes.len(), 0);
        Ok(())
    }

    /// Adds a reference to bytes at the end. Its ticket is released once, when the last of its bytes has left the buffer
    /// that holds it or was copied by a pullup; at once where there is none. What is spare afterwards is left open. Takes
    /// memory for a node; constant cost, since no byte is copied.
    ///
    /// Libevent: event2/buffer.h, `evbuffer_add_reference`; "Evbuffers".
    /// Differs: a ticket stands in place of the cleanup function, and a reference of no bytes is released at once.
    pub fn add_reference(&mut self, bytes: RcSlice<u8>, ticket: u64) -> Result<(), BufFault>
        ensures answer { AnswersOr Memory result (add_refusal self.old (length (rc_slice_items bytes))) }
        ensures ok { OnOk result (self.new ≡ after_reference self.old (rc_slice_items bytes) ticket self.new.spare) }
        ensures err { OnErr result (self.new ≡ self.old) }
    {
        self.end_open()?;
        let before = self.chain.len();
        let came = bytes.len();
        self.chain.push_ref(bytes, ticket)?;
        self.callbacks.change(before, came, 0);
        Ok(())
    }

    /// Takes off the first n bytes, or all where there are fewer. Takes no memory; linear in n, over many calls.
    ///
    /// Libevent: event2/buffer.h, `evbuffer_drain`; "Evbuffers".
    pub fn drain(&mut self, n: usize) -> Result<(), BufFault>
        ensures answer { fault_of result ≡ front_refusal self.old }
        ensures ok { OnOk result (self.new ≡ after_drain self.old n self.new.spare) }
        ensures spare { self.new.spare ≡ self.old.spare }
        ensures most { OnOk result (length self.new.bytes + self.new.spare ≤ self.old.spare + 4 * length self.old.bytes) }
        ensures err { OnErr result (self.new ≡ self.old) }
    {
        self.front_open()?;
        let before = self.chain.len();
        self.chain.drain(n);
        self.callbacks.change(before, 0, n.min(before));
        Ok(())
    }

    /// Moves out the first bytes, as many as are there and fit, and answers how many. Takes no memory; linear in what it
    /// moves, over many calls.
    ///
    /// Libevent: event2/buffer.h, `evbuffer_remove`; "Evbuffers".
    pub fn remove(&mut self, into: &mut [u8]) -> Result<usize, BufFault>
        ensures answer { fault_of result ≡ front_refusal self.old }
        ensures count { IfOk result (λ n. n ≡ min (length into.old) (length self.old.bytes)) }
        ensures copied { IfOk result (λ n. into.new ≡ take n self.old.bytes ++ drop n into.old) }
        ensures ok { IfOk result (λ n. self.new ≡ after_drain self.old n self.new.spare) }
        ensures spare { self.new.spare ≡ self.old.spare }
        ensures err { OnErr result (self.new ≡ self.old) }
        ensures into_err { OnErr result (into.new ≡ into.old) }
    {
        self.front_open()?;
        let n = self.chain.copy_out(0, into);
        self.drain(n)?;
        Ok(n)
    }

    /// Copies the bytes from a place on, as many as are there and fit, and answers how many. Takes no memory; linear in
    /// what it copies and in the chunks.
    ///
    /// Libevent: event2/buffer.h, `evbuffer_copyout_from`; "Evbuffers".
    /// Differs: a frozen front does not refuse it.
    pub fn copy_out(&self, from: usize, into: &mut [u8]) -> usize
        ensures count { result ≡ min (length into.old) (length self.now.bytes - from) }
        ensures copied { into.new ≡ take result (drop from self.now.bytes) ++ drop result into.old }
    {
        self.chain.copy_out(from, into)
    }

    /// The first n bytes, or all where there are fewer, as slices that joined are these bytes. Linear in the chunks.
    ///
    /// Libevent: event2/buffer.h, `evbuffer_peek`; "Evbuffers".
    pub fn extents(&self, n: usize) -> Result<SmallVec<&[u8], 8>, BufFault>
        ensures answer { AnswersOr Memory result None }
        ensures bytes { IfOk result (λ slices. joined slices.items ≡ take n self.now.bytes) }
    {
        match self.chain.extents(n) {
            Ok(slices) => Ok(slices),
            Err(fault) => Err(BufFault::from(fault)),
        }
    }

    /// Moves all bytes of another buffer, with their marks, to the end, chunk by chunk: none is copied. Both tell their
    /// callbacks. What is spare afterwards is left open in both. Takes no memory; linear in the chunks that it moves.
    ///
    /// Libevent: event2/buffer.h, `evbuffer_add_buffer`; "Evbuffers".
    pub fn add_buffer(&mut self, from: &mut Evbuffer) -> Result<(), BufFault>
        ensures answer { fault_of result ≡ move_refusal self.old from.old (length from.old.bytes) }
        ensures ok { OnOk result (self.new ≡ after_taking_all self.old from.old self.new.spare) }
        ensures from_ok { OnOk result (from.new ≡ after_giving_all from.old from.new.spare) }
        ensures err { OnErr result (self.new ≡ self.old) }
        ensures from_err { OnErr result (from.new ≡ from.old) }
    {
        self.end_open()?;
        from.front_open()?;
        let before = self.chain.len();
        let moved = from.chain.len();
        if moved > usize::MAX - before {
            return Err(BufFault::Spent);
        }
        self.chain.append_all(&mut from.chain);
        self.callbacks.change(before, moved, 0);
        from.callbacks.change(moved, 0, moved);
        Ok(())
    }

    /// Moves the first n bytes, or all where there are fewer, to the end of another buffer, and answers how many. Where
    /// a reference is cut its front part is copied, and the reference stays with the rest. Whole chunks move without being
    /// copied. Both tell their callbacks. Takes memory for what is copied where there is less room; linear in the chunks that
    /// move and, over many calls, in that.
    ///
    /// Libevent: event2/buffer.h, `evbuffer_remove_buffer`; "Evbuffers".
    pub fn remove_buffer(&mut self, to: &mut Evbuffer, n: usize) -> Result<usize, BufFault>
        ensures answer { AnswersOr Memory result (move_refusal to.old self.old (min n (length self.old.bytes))) }
        ensures count { IfOk result (λ moved. moved ≡ min n (length self.old.bytes)) }
        ensures ok { OnOk result (self.new ≡ after_giving self.old n self.new.spare) }
        ensures to_ok { OnOk result (to.new ≡ after_taking to.old self.old n to.new.spare) }
        ensures to_most { to.new.spare ≤ most_spare to.old.spare 0 (length to.old.bytes) }
        ensures err { OnErr result (self.new ≡ self.old) }
        ensures to_err { OnErr result (to.new ≡ to.old) }
    {
        to.end_open()?;
        self.front_open()?;
        let before = self.chain.len();
        let to_before = to.chain.len();
        let moved = self.chain.split_front(n, &mut to.chain)?;
        self.callbacks.change(before, 0, moved);
        to.callbacks.change(to_before, moved, 0);
        Ok(moved)
    }

    /// Makes the first n bytes contiguous, in the buffer's own memory, and shows them; none where n is above the length.
    /// Every referenced byte among them is copied, so that the references that end there are released. No frozen end
    /// refuses it. Takes memory; linear in n, and constant where the first chunk has so many in memory of its own.
    ///
    /// Libevent: event2/buffer.h, `evbuffer_pullup`; "Evbuffers", "Rearranging the internal layout of an evbuffer".
    /// Differs: referenced bytes are copied also where they are contiguous already.
    pub fn pullup(&mut self, n: usize) -> Result<Option<&[u8]>, BufFault>
        ensures answer { AnswersOr Memory result None }
        ensures front { PullupAnswer self.old.bytes n result }
        ensures* after { sem 𝓛 (follows_so the_row the_row self.entry.ghost_name none (λ _ _. ⊤) (λ new. AfterPullup self.old n result new)) }
    {
        match self.chain.pullup(n) {
            Ok(front) => Ok(front),
            Err(fault) => Err(BufFault::from(fault)),
        }
    }

    /// Makes all bytes contiguous and shows them, as `pullup` does.
    pub fn pullup_all(&mut self) -> Result<&[u8], BufFault>
        ensures answer { AnswersOr Memory result None }
        ensures all { IfOk result (λ all. all.now ≡ self.old.bytes) }
        ensures* after { sem 𝓛 (follows_so the_row the_row self.entry.ghost_name none (λ _ _. ⊤) (λ new. AfterPullupAll self.old result new)) }
    {
        let n = self.len();
        let front = self.pullup(n)?;
        Ok(front.unwrap())
    }

    /// Whether an end is frozen. Takes no memory; constant cost.
    ///
    /// Own.
    pub fn is_frozen(&self, at: Place) -> bool
        ensures { result ≡ is_frozen self.now at }
    {
        match at {
            Place::Front => self.front_frozen,
            Place::End => self.end_frozen,
        }
    }

    /// Freezes an end: at the end no byte comes in, at the front none comes in or leaves. Takes no memory; constant cost.
    ///
    /// Libevent: event2/buffer.h, `evbuffer_freeze`; "Evbuffers".
    pub fn freeze(&mut self, at: Place)
        ensures { self.new ≡ with_frozen self.old at true }
    {
        self.set_frozen(at, true);
    }

    /// Ends the freezing of an end. Takes no memory; constant cost.
    ///
    /// Libevent: event2/buffer.h, `evbuffer_unfreeze`; "Evbuffers".
    pub fn unfreeze(&mut self, at: Place)
        ensures { self.new ≡ with_frozen self.old at false }
    {
        self.set_frozen(at, false);
    }

    /// Adds a size callback, enabled, and answers its number: from 0 on, and never used again in this buffer. Spent where
    /// the next number would not fit a u32. Takes memory; constant cost, over many calls.
    ///
    /// Libevent: event2/buffer.h, `evbuffer_add_cb`; "Evbuffers".
    pub fn add_cb(&mut self) -> Result<u32, BufFault>
        ensures answer { AnswersOr Memory result (number_refusal self.old) }
        ensures number { IfOk result (λ number. number ≡ self.old.next) }
        ensures ok { OnOk result (self.new ≡ record self.old { callbacks = self.old.callbacks ++ new_callback self.old.next ∷ []; next = self.old.next + 1 }) }
        ensures err { OnErr result (self.new ≡ self.old) }
    {
        let number = self.callbacks.next_number().ok_or(BufFault::Spent)?;
        self.callbacks.add(number, self.chain.allocator())?;
        Ok(number)
    }

    /// Takes a callback out, with what it has summed. Takes no memory; linear in the callbacks.
    ///
    /// Libevent: event2/buffer.h, `evbuffer_remove_cb_entry`; "Evbuffers".
    pub fn remove_cb(&mut self, cb: u32) -> Result<(), BufFault>
        ensures answer { fault_of result ≡ callback_refusal self.old cb }
        ensures ok { OnOk result (self.new ≡ record self.old { callbacks = without cb self.old.callbacks }) }
        ensures err { OnErr result (self.new ≡ self.old) }
    {
        self.has_cb(cb)?;
        self.callbacks.remove(cb);
        Ok(())
    }

    /// Enables or disables a callback. What it has summed stays, and is still reported. Takes no memory; linear in the
    /// callbacks.
    ///
    /// Libevent: event2/buffer.h, `evbuffer_cb_set_flags`; "Evbuffers".
    /// Differs: a disabled callback reports what it has summed before.
    pub fn set_cb_enabled(&mut self, cb: u32, on: bool) -> Result<(), BufFault>
        ensures answer { fault_of result ≡ callback_refusal self.old cb }
        ensures ok { OnOk result (self.new ≡ record self.old { callbacks = with_enabled cb on self.old.callbacks }) }
        ensures err { OnErr result (self.new ≡ self.old) }
    {
        self.has_cb(cb)?;
        self.callbacks.set_enabled(cb, on);
        Ok(())
    }

    /// The report of the newest callback of which a sum isn't 0, or none. Takes no memory; linear in the callbacks, all
    /// reports after one change together.
    ///
    /// Own.
    pub fn take_report(&mut self) -> Option<Report>
        ensures report { result ≡ option_map report_of (newest_waiting self.old.callbacks) }
        ensures after { self.new ≡ record self.old { callbacks = after_report self.old.callbacks } }
    {
        self.callbacks.take_report()
    }

    /// The ticket that was released first and not taken yet, or none. Takes no memory; constant cost.
    ///
    /// Own.
    pub fn take_released(&mut self) -> Option<u64>
        ensures stays { self.new ≡ record self.old { released = self.new.released } }
        ensures none { IfNone result ((self.old.released ≡ []) × (self.new.released ≡ [])) }
        ensures some { IfSome result (λ ticket. self.old.released ≡ ticket ∷ self.new.released) }
    {
        self.chain.take_released()
    }

    // Why it is not moved into itself.
    pub(crate) fn into_itself(&self) -> BufFault
        ensures { Some result ≡ same_refusal self.now }
    {
        if self.end_frozen {
            BufFault::FrozenEnd
        } else if self.front_frozen {
            BufFault::FrozenFront
        } else {
            BufFault::SameBuffer
        }
    }

    fn set_frozen(&mut self, at: Place, frozen: bool)
        ensures { self.new ≡ with_frozen self.old at frozen }
    {
        match at {
            Place::Front => self.front_frozen = frozen,
            Place::End => self.end_frozen = frozen,
        }
    }

    // Bytes may come in at the end.
    fn end_open(&self) -> Result<(), BufFault>
        ensures { fault_of result ≡ end_refusal self.now }
    {
        if self.end_frozen {
            return Err(BufFault::FrozenEnd);
        }
        Ok(())
    }

    // Bytes may come in or leave at the front.
    fn front_open(&self) -> Result<(), BufFault>
        ensures { fault_of result ≡ front_refusal self.now }
    {
        if self.front_frozen {
            return Err(BufFault::FrozenFront);
        }
        Ok(())
    }

    // There is a callback of the number.
    fn has_cb(&self, cb: u32) -> Result<(), BufFault>
        ensures { fault_of result ≡ callback_refusal self.now cb }
    {
        if !self.callbacks.has(cb) {
            return Err(BufFault::NoSuchCallback);
        }
        Ok(())
    }
}
