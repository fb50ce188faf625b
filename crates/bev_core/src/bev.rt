// A bufferevent: two buffers with flags, marks, timeouts and references. What moves bytes is left to the crates above.
//
// What a bufferevent keeps:
// 1. After a free it has no byte, and each call that asks whether it is live is refused, before all else. The others say so, and
//    what they are for: steps after a read or a write, and moves in room that was made.
// 2. A refused call has changed nothing.
// 3. Nobody else reaches its buffers, so the input is frozen at its end and the output at its front for all others.
ghost use Rattle.std.specs.Prelude.{◌≡◌, ◌≤◌, ◌<◌, ◌+◌, ◌-◌, ◌^◌, ◌++◌, ◌==◌, [], length, drop, take, min, true, false, None, OnOk, OnErr};
ghost use Rattle.std.specs.Prelude.{IfOk, IfSome, is_some, if◌then◌else◌};
ghost use Rattle.byte_queue.specs.MemoryAnswers.{AnswersOr, fault_of};
ghost use Rattle.bev_core.specs.BevValue.{new_bev, new_chunked, state_of, reaches_low};
ghost use Rattle.bev_core.specs.Refusals.{live_refusal, length_refusal, write_refusal, feed_refusal, incref_refusal, decref_refusal};
ghost use Rattle.bev_core.specs.Steps.{held, with_held, with_enabled, with_marks, with_timeouts, touched, freed, more, less, given_up};
ghost use Rattle.bev_core.specs.Steps.{ended_at, failed_at};
ghost use Rattle.bev_core.specs.declared.fault.BevFault.TheVariants.{Memory};

mod moves;
mod readers;
mod room;
mod steps;

use crate::fault::BevFault;
use crate::own_buffer::OwnBuffer;
use crate::state::BevState;
use ev_types::NoMemory;
use std::alloc::Global;
use std::marker::Model;
use token_bucket::Dir;

/// A bufferevent. Contracts see its plain values beside its input and its output, each as its bytes and how many more fit
/// without taking memory.
///
/// Libevent: event2/bufferevent.h, `bufferevent`; "Bufferevents: concepts and basics".
/// Differs: a free drops the bytes at once and keeps the values until the last reference goes; its buffers are reached by
/// calls alone.
#[derive(Drop)]
pub struct Bev {
    live: bool,
    reading: bool,
    writing: bool,
    ended: bool,
    failed: bool,
    refs: u32,
    read_low: u64,
    read_high: u64,
    write_low: u64,
    write_high: u64,
    read_ms: u64,
    write_ms: u64,
    last_read: u64,
    last_write: u64,
    input: OwnBuffer,
    output: OwnBuffer,
}

impl Model for Bev {
    ghost use Rattle.bev_core.specs.BevValue.{BevValue};

    ghost Value = { BevValue };

    ghost use Rattle.bev_core.specs.BevView.{bev_value, IsBev};

    ghost view = { bev_value };

    ghost invariant = { IsBev };
}

impl Bev {
    /// A live bufferevent, as `fresh` makes it. Takes no memory; constant cost.
    ///
    /// Libevent: event2/bufferevent.h, `bufferevent_socket_new`; "Bufferevents: concepts and basics".
    pub fn new(alloc: Global) -> Result<Bev, BevFault>
        ensures answer { fault_of result ≡ None }
        ensures bev { IfOk result (λ bev. bev ≡ new_bev) }
    {
        Ok(Bev::fresh(alloc))
    }

    /// A live bufferevent without bytes: writing is enabled and reading is not, and there are no marks, timeouts and
    /// references. Takes no memory; constant cost.
    ///
    /// Libevent: event2/bufferevent.h, `bufferevent_socket_new`; "Bufferevents: concepts and basics".
    pub fn fresh(alloc: Global) -> Bev
        ensures { result ≡ new_bev }
    {
        Bev::made(alloc, false)
    }

    /// A live bufferevent as `fresh` makes it, but that its buffers may lie in several chunks each where it is said, as evbuffers do: all
    /// bytes of such a buffer go behind those of another without taking memory. Takes no memory; constant cost.
    ///
    /// Libevent: event2/bufferevent.h, `bufferevent_socket_new`; "Bufferevents: concepts and basics".
    pub fn made(alloc: Global, chunked: bool) -> Bev
        ensures { result ≡ new_chunked chunked }
    {
        Bev {
            live: true,
            reading: false,
            writing: true,
            ended: false,
            failed: false,
            refs: 0,
            read_low: 0,
            read_high: 0,
            write_low: 0,
            write_high: 0,
            read_ms: 0,
            write_ms: 0,
            last_read: 0,
            last_write: 0,
            input: OwnBuffer::new(alloc, chunked),
            output: OwnBuffer::new(alloc, chunked),
        }
    }

    /// Its plain values. A freed one answers too. Takes no memory; constant cost.
    ///
    /// Own.
    pub fn state(&self) -> BevState
        ensures { result ≡ state_of self.now }
    {
        BevState {
            live: self.live,
            reading: self.reading,
            writing: self.writing,
            ended: self.ended,
            failed: self.failed,
            input: self.input.len() as u64,
            output: self.output.len() as u64,
            read_low: self.read_low,
            read_high: self.read_high,
            write_low: self.write_low,
            write_high: self.write_high,
            read_ms: self.read_ms,
            write_ms: self.write_ms,
            last_read: self.last_read,
            last_write: self.last_write,
            refs: self.refs,
        }
    }

    /// The allocator that it was made with. Takes no memory; constant cost.
    ///
    /// Own.
    pub fn allocator(&self) -> Global {
        self.input.allocator()
    }

    /// Whether a length calls for the callback of a direction: the input is at least as long as the read low mark, or the
    /// output at most as long as the write low mark. Takes no memory; constant cost.
    ///
    /// Libevent: event2/bufferevent.h, `bufferevent_trigger`; "Bufferevents: concepts and basics".
    pub fn reaches_low(&self, dir: Dir) -> bool
        ensures { result ≡ reaches_low self.now dir }
    {
        match dir {
            Dir::Read => self.input.len() as u64 >= self.read_low,
            Dir::Write => self.output.len() as u64 <= self.write_low,
        }
    }

    /// Enables a direction. Takes no memory; constant cost.
    ///
    /// Libevent: event2/bufferevent.h, `bufferevent_enable`; "Bufferevents: concepts and basics".
    pub fn enable(&mut self, dir: Dir) -> Result<(), BevFault>
        ensures answer { fault_of result ≡ live_refusal self.old }
        ensures ok { OnOk result (self.new ≡ with_enabled self.old dir true) }
        ensures err { OnErr result (self.new ≡ self.old) }
    {
        self.check_live()?;
        self.set_enabled(dir, true);
        Ok(())
    }

    /// Disables a direction. Takes no memory; constant cost.
    ///
    /// Libevent: event2/bufferevent.h, `bufferevent_disable`; "Bufferevents: concepts and basics".
    pub fn disable(&mut self, dir: Dir) -> Result<(), BevFault>
        ensures answer { fault_of result ≡ live_refusal self.old }
        ensures ok { OnOk result (self.new ≡ with_enabled self.old dir false) }
        ensures err { OnErr result (self.new ≡ self.old) }
    {
        self.check_live()?;
        self.set_enabled(dir, false);
        Ok(())
    }

    /// Sets both marks of a direction, in bytes. A high mark of 0 is none, and no mark is too high. Takes no memory; constant cost.
    ///
    /// Libevent: event2/bufferevent.h, `bufferevent_setwatermark`; "Bufferevents: concepts and basics".
    pub fn set_watermark(&mut self, dir: Dir, low: u64, high: u64) -> Result<(), BevFault>
        ensures answer { fault_of result ≡ live_refusal self.old }
        ensures ok { OnOk result (self.new ≡ with_marks self.old dir low high) }
        ensures err { OnErr result (self.new ≡ self.old) }
    {
        self.check_live()?;
        self.set_marks(dir, low, high);
        Ok(())
    }

    /// Sets both timeouts, in milliseconds, and makes a moment the last activity of both directions. 0 is no timeout, and none is
    /// too long. Takes no memory; constant cost.
    ///
    /// Libevent: event2/bufferevent.h, `bufferevent_set_timeouts`; "Bufferevents: concepts and basics".
    pub fn set_timeouts(&mut self, read_ms: u64, write_ms: u64, now: u64) -> Result<(), BevFault>
        ensures answer { fault_of result ≡ live_refusal self.old }
        ensures ok { OnOk result (self.new ≡ with_timeouts self.old read_ms write_ms now) }
        ensures err { OnErr result (self.new ≡ self.old) }
    {
        self.check_live()?;
        self.start_timeouts(read_ms, write_ms, now);
        Ok(())
    }

    /// Makes a moment the last activity of a direction. Takes no memory; constant cost.
    ///
    /// Own.
    pub fn touch(&mut self, dir: Dir, now: u64) -> Result<(), BevFault>
        ensures answer { fault_of result ≡ live_refusal self.old }
        ensures ok { OnOk result (self.new ≡ touched self.old dir now) }
        ensures err { OnErr result (self.new ≡ self.old) }
    {
        self.check_live()?;
        self.moved_at(dir, now);
        Ok(())
    }

    /// One reference more. TooManyRefs comes where there are 2^32 - 1. Takes no memory; constant cost.
    ///
    /// Libevent: event2/bufferevent.h, `bufferevent_incref`; "Bufferevents: advanced topics".
    pub fn incref(&mut self) -> Result<(), BevFault>
        ensures answer { fault_of result ≡ incref_refusal self.old }
        ensures ok { OnOk result (self.new ≡ record self.old { refs = self.old.refs + 1 }) }
        ensures err { OnErr result (self.new ≡ self.old) }
    {
        self.check_live()?;
        self.refs = self.refs.checked_add(1).ok_or(BevFault::TooManyRefs)?;
        Ok(())
    }

    /// One reference less, also of a freed one. NotLive comes for a freed one that has none. Takes no memory; constant cost.
    ///
    /// Libevent: event2/bufferevent.h, `bufferevent_decref`; "Bufferevents: advanced topics".
    /// Differs: the last reference frees nothing.
    pub fn decref(&mut self) -> Result<(), BevFault>
        requires { self.old.live ≡ true → 0 < self.old.refs }
        ensures answer { fault_of result ≡ decref_refusal self.old }
        ensures ok { OnOk result (self.new ≡ record self.old { refs = self.old.refs - 1 }) }
        ensures err { OnErr result (self.new ≡ self.old) }
    {
        self.refs = self.refs.checked_sub(1).ok_or(BevFault::NotLive)?;
        Ok(())
    }

    /// Frees it: its bytes are dropped at once, with their room, and its other values stay. Takes no memory; constant cost.
    ///
    /// Libevent: event2/bufferevent.h, `bufferevent_free`; "Bufferevents: concepts and basics".
    pub fn free(&mut self) -> Result<(), BevFault>
        ensures answer { fault_of result ≡ live_refusal self.old }
        ensures ok { OnOk result (self.new ≡ freed self.old) }
        ensures err { OnErr result (self.new ≡ self.old) }
    {
        self.check_live()?;
        self.discard();
        Ok(())
    }

    /// Does what `free` does, whether it is live or not. Takes no memory; constant cost.
    ///
    /// Own.
    pub fn discard(&mut self)
        ensures { self.new ≡ freed self.old }
    {
        self.live = false;
        self.input.empty();
        self.output.empty();
    }

    /// How many bytes the buffer of a direction holds: the input for reading, the output for writing. With the room that is spare they
    /// fit a usize. Takes no memory; constant cost.
    ///
    /// Libevent: event2/buffer.h, `evbuffer_get_length`; "Evbuffers".
    pub fn len(&self, dir: Dir) -> usize
        ensures len { result ≡ length (held self.now dir).bytes }
        ensures fits { length (held self.now dir).bytes + (held self.now dir).spare < 2 ^ 64 }
    {
        self.buffer(dir).len()
    }

    /// Copies the first bytes of the input, as many as are there and fit, and answers how many. Takes no memory; linear in
    /// what it copies.
    ///
    /// Own.
    pub fn peek(&self, into: &mut [u8]) -> usize
        ensures count { result ≡ min (length into.old) (length self.now.input.bytes) }
        ensures copied { into.new ≡ take result self.now.input.bytes ++ drop result into.old }
    {
        self.input.copy_out(into)
    }

    /// Copies the first bytes of the output, as `peek` those of the input.
    ///
    /// Own.
    pub fn peek_output(&self, into: &mut [u8]) -> usize
        ensures count { result ≡ min (length into.old) (length self.now.output.bytes) }
        ensures copied { into.new ≡ take result self.now.output.bytes ++ drop result into.old }
    {
        self.output.copy_out(into)
    }

    /// The first n bytes of the buffer of a direction, or all where there are fewer, in one piece. Takes no memory; constant cost.
    ///
    /// Own.
    pub fn front(&self, dir: Dir, n: usize) -> &[u8]
        requires { self.now.chunked ≡ false }
        ensures { result.now ≡ take n (held self.now dir).bytes }
    {
        self.buffer(dir).front(n)
    }

    /// All bytes of the buffer of a direction in one piece, or None where they lie in several chunks. Takes no memory; constant cost.
    ///
    /// Own.
    pub fn piece(&self, dir: Dir) -> Option<&[u8]>
        ensures piece { IfSome result (λ piece. piece.now ≡ (held self.now dir).bytes) }
        ensures there { self.now.chunked ≡ false → is_some result ≡ true }
    {
        self.buffer(dir).piece()
    }

    /// A copy of the first n bytes of the buffer of a direction, or of all where there are fewer. Takes memory for it; linear in n.
    ///
    /// Libevent: event2/buffer.h, `evbuffer_copyout`; "Evbuffers".
    pub fn gathered(&self, dir: Dir, n: usize) -> Result<Vec<u8>, NoMemory>
        ensures { IfOk result (λ copy. copy.items ≡ take n (held self.now dir).bytes) }
    {
        self.buffer(dir).gathered(n)
    }

    /// Copies bytes to the end of the output. Spent comes where the length would not fit a usize. Takes memory only where there is
    /// less room; linear in the length.
    ///
    /// Libevent: event2/bufferevent.h, `bufferevent_write`; "Bufferevents: concepts and basics".
    pub fn write(&mut self, bytes: &[u8]) -> Result<(), BevFault>
        ensures answer { AnswersOr Memory result (write_refusal self.old (length bytes.now)) }
        ensures there { length bytes.now ≤ self.old.output.spare → fault_of result ≡ live_refusal self.old }
        ensures ok { OnOk result (self.new ≡ record self.old { output = more self.old.output bytes.now self.new.output.spare }) }
        ensures used { OnOk result
            (length bytes.now ≤ self.old.output.spare → self.new.output.spare + length bytes.now ≡ self.old.output.spare) }
        ensures err { OnErr result (self.new ≡ self.old) }
    {
        self.feed(Dir::Write, bytes)
    }

    /// Copies bytes to the end of the buffer of a direction, as `write` to that of the output.
    ///
    /// Own.
    pub fn feed(&mut self, dir: Dir, bytes: &[u8]) -> Result<(), BevFault>
        ensures answer { AnswersOr Memory result (feed_refusal self.old dir (length bytes.now)) }
        ensures there { length bytes.now ≤ (held self.old dir).spare → fault_of result ≡ live_refusal self.old }
        ensures ok { OnOk result (self.new ≡ with_held self.old dir (more (held self.old dir) bytes.now (held self.new dir).spare)) }
        ensures used { OnOk result
            (length bytes.now ≤ (held self.old dir).spare → (held self.new dir).spare + length bytes.now ≡ (held self.old dir).spare) }
        ensures err { OnErr result (self.new ≡ self.old) }
    {
        self.check_live()?;
        match dir {
            Dir::Read => self.input.feed(bytes),
            Dir::Write => self.output.feed(bytes),
        }
    }

    /// Moves out the first bytes of the input, as many as are there and fit, and answers how many. Takes no memory; linear in
    /// what it moves.
    ///
    /// Libevent: event2/bufferevent.h, `bufferevent_read`; "Bufferevents: concepts and basics".
    pub fn take(&mut self, into: &mut [u8]) -> Result<usize, BevFault>
        ensures answer { fault_of result ≡ live_refusal self.old }
        ensures count { IfOk result (λ n. n ≡ min (length into.old) (length self.old.input.bytes)) }
        ensures copied { IfOk result (λ n. into.new ≡ take n self.old.input.bytes ++ drop n into.old) }
        ensures ok { IfOk result (λ n. self.new ≡ record self.old { input = less self.old.input n self.new.input.spare }) }
        ensures err { OnErr result (self.new ≡ self.old) }
        ensures into_err { OnErr result (into.new ≡ into.old) }
    {
        self.check_live()?;
        let n = self.input.copy_out(into);
        self.input.drain(n);
        Ok(n)
    }

    /// Takes off the first n bytes of the buffer of a direction, or all where there are fewer. Takes no memory; linear in what is taken off
    /// at worst.
    ///
    /// Libevent: event2/buffer.h, `evbuffer_drain`; "Evbuffers".
    pub fn drain(&mut self, dir: Dir, n: usize)
        ensures bytes { self.new ≡ with_held self.old dir (less (held self.old dir) n (held self.new dir).spare) }
        ensures spare { (held self.old dir).spare ≤ (held self.new dir).spare }
    {
        match dir {
            Dir::Read => self.input.drain(n),
            Dir::Write => self.output.drain(n),
        }
    }

    /// Frees the room of each buffer without a byte. Takes no memory; constant cost.
    ///
    /// Own.
    pub fn give_up(&mut self)
        ensures { self.new ≡ given_up self.old }
    {
        self.input.give_up();
        self.output.give_up();
    }

    // The buffer of a direction.
    fn buffer(&self, dir: Dir) -> &OwnBuffer
        ensures held { result.now.held ≡ held self.now dir }
        ensures chunked { result.now.chunked ≡ self.now.chunked }
    {
        match dir {
            Dir::Read => &self.input,
            Dir::Write => &self.output,
        }
    }

    // Refused where it was freed.
    fn check_live(&self) -> Result<(), BevFault>
        ensures { fault_of result ≡ live_refusal self.now }
    {
        if !self.live {
            return Err(BevFault::NotLive);
        }
        Ok(())
    }
}
