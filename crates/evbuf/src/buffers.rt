// Buffers by number, between which bytes are moved.
ghost use Rattle.std.specs.Prelude.{◌≡◌, ◌≢◌, ◌<◌, length, replicate, OnOk, OnErr, IfOk, None, min, slice_set, slice_index_or, IsTrue, ◌↔◌};
ghost use Rattle.byte_queue.specs.MemoryAnswers.{AnswersOr, fault_of};
ghost use Rattle.evbuf.specs.Steps.{new_buffer, after_giving, after_taking, after_giving_all, after_taking_all};
ghost use Rattle.evbuf.specs.Moves.{buffer_at, move_all_refusal, move_some_refusal, MovesAll, MovesSome};
ghost use Rattle.evbuf.specs.declared.fault.BufFault.TheVariants.{Memory};

use crate::evbuffer::Evbuffer;
use crate::fault::BufFault;
use std::alloc::Global;
use std::marker::Model;
use std::mem;

/// Buffers that are known by their numbers, from 0 on. Contracts see their list.
///
/// Own.
#[derive(Drop)]
pub struct Buffers {
    items: Vec<Evbuffer>,
}

impl Model for Buffers {
    ghost use Rattle.std.specs.Prelude.{List};
    ghost use Rattle.evbuf.specs.Evbuffered.{Evbuffered};

    ghost Value = { List Evbuffered };

    ghost view = { λ buffers. buffers.items.items };
}

impl Buffers {
    ghost use Rattle.std.specs.Borrow.{sem};
    ghost use Rattle.evbuf.specs.LendsBuffer.{LendsBuffer};

    /// So many new buffers. Linear in n.
    pub fn new(alloc: Global, n: usize) -> Result<Buffers, BufFault>
        ensures answer { AnswersOr Memory result None }
        ensures buffers { IfOk result (λ buffers. buffers ≡ replicate n new_buffer) }
    {
        let mut items = Vec::new(alloc);
        for _ in 0..n {
            items.push(Evbuffer::new(alloc))?;
        }
        Ok(Buffers { items })
    }

    /// How many buffers there are. Takes no memory; constant cost.
    pub fn len(&self) -> usize
        ensures { result ≡ length self.now }
    {
        self.items.len()
    }

    /// Whether there is no buffer. Takes no memory; constant cost.
    pub fn is_empty(&self) -> bool
        ensures { IsTrue result ↔ (length self.now ≡ 0) }
    {
        self.items.is_empty()
    }

    /// The buffer of a number. Takes no memory; constant cost.
    pub fn at(&mut self, i: usize) -> &mut Evbuffer
        requires { i < length self.old }
        ensures* writes_back { sem 𝓛 (LendsBuffer self.entry i result) }
        ensures buffer { result.now ≡ buffer_at self.old i }
    {
        &mut self.items[i]
    }

    /// Moves all bytes of one buffer to the end of another, as `Evbuffer::add_buffer`. A buffer is not moved into itself;
    /// whether its ends are frozen is tested before. Costs what `Evbuffer::add_buffer` does.
    pub fn move_all(&mut self, to: usize, from: usize) -> Result<(), BufFault>
        requires to_there { to < length self.old }
        requires from_there { from < length self.old }
        ensures answer { fault_of result ≡ move_all_refusal self.old to from }
        ensures ok { OnOk result (MovesAll self.old to from self.new) }
        ensures err { OnErr result (self.new ≡ self.old) }
    {
        if to == from {
            return Err(self.items[to].into_itself());
        }
        let alloc = *self.items.allocator();
        let mut source = mem::replace(&mut self.items[from], Evbuffer::new(alloc));
        let answer = self.items[to].add_buffer(&mut source);
        self.items[from] = source;
        answer
    }

    /// Moves the first n bytes of a buffer, or all where there are fewer, to the end of another, as
    /// `Evbuffer::remove_buffer`, and answers how many. A buffer is not moved into itself; whether its ends are frozen is
    /// tested before. Costs what `Evbuffer::remove_buffer` does.
    pub fn move_some(&mut self, from: usize, to: usize, n: usize) -> Result<usize, BufFault>
        requires from_there { from < length self.old }
        requires to_there { to < length self.old }
        ensures answer { AnswersOr Memory result (move_some_refusal self.old from to n) }
        ensures count { IfOk result (λ moved. moved ≡ min n (length (buffer_at self.old from).bytes)) }
        ensures ok { OnOk result (MovesSome self.old from to n self.new) }
        ensures err { OnErr result (self.new ≡ self.old) }
    {
        if to == from {
            return Err(self.items[to].into_itself());
        }
        let alloc = *self.items.allocator();
        let mut source = mem::replace(&mut self.items[from], Evbuffer::new(alloc));
        let answer = source.remove_buffer(&mut self.items[to], n);
        self.items[from] = source;
        answer
    }
}
