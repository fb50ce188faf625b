// One chunk of a chain: memory of its own, or what is left of a slice that is shared. Where it stands is left to others.
ghost use Rattle.std.specs.Prelude.{◌≡◌, ◌≤◌, ◌<◌, ◌++◌, ◌∷◌, [], length, drop, take, IfSome, IfNone, IsTrue, ◌↔◌, true};
ghost use Rattle.std.specs.Rc.{rc_slice_items};
ghost use Rattle.evbuf_chain.specs.Mark.{unmarked, reference_marks, ended_tickets, uncut_marks, AreWhole};

use byte_queue::ByteQueue;
use std::marker::Model;
use std::rc::RcSlice;

/// What is left of a shared slice, at least one byte, and the ticket by which its end is told.
#[derive(Drop)]
struct Reference {
    bytes: RcSlice<u8>,
    from: usize,
    ticket: u64,
    ghost some: { from < length (rc_slice_items bytes) },
}

/// What a node of a chain holds.
#[derive(Drop)]
enum Held {
    Own(ByteQueue),
    Shared(Reference),
    /// The ticket of a reference that has no byte left.
    Ended(u64),
}

/// A chunk of a chain, or the ticket of one that has ended.
///
/// Own.
#[derive(Drop)]
pub(crate) struct Chunk {
    held: Held,
}

impl Model for Chunk {
    ghost use Rattle.evbuf_chain.specs.ChunkValue.{ChunkValue};

    ghost Value = { ChunkValue };

    ghost use Rattle.evbuf_chain.specs.ChunkViews.{chunk_value};

    ghost view = { λ p. chunk_value p.held };
}

impl Chunk {
    /// Bytes in memory of their own.
    pub(crate) fn own(bytes: ByteQueue) -> Chunk
        ensures bytes { result.bytes ≡ bytes.items }
        ensures marks { result.marks ≡ unmarked (length bytes.items) }
    {
        Chunk {
            held: Held::Own(bytes),
        }
    }

    /// A reference to bytes of which there are some.
    pub(crate) fn shared(bytes: RcSlice<u8>, ticket: u64) -> Chunk
        requires { 0 < length (rc_slice_items bytes) }
        ensures bytes { result.bytes ≡ rc_slice_items bytes }
        ensures marks { result.marks ≡ reference_marks ticket (length (rc_slice_items bytes)) }
    {
        Chunk {
            held: Held::Shared(Reference {
                bytes,
                from: 0,
                ticket,
            }),
        }
    }

    /// The ticket of a reference that has ended.
    pub(crate) fn ended(ticket: u64) -> Chunk
        ensures { result.ended ≡ ticket ∷ [] }
    {
        Chunk {
            held: Held::Ended(ticket),
        }
    }

    pub(crate) fn len(&self) -> usize
        ensures len { result ≡ length self.now.bytes }
        ensures marked { length self.now.marks ≡ length self.now.bytes }
        ensures whole { AreWhole self.now.marks }
    {
        match &self.held {
            Held::Own(bytes) => bytes.len(),
            Held::Shared(reference) => reference.bytes.len() - reference.from,
            Held::Ended(_) => 0,
        }
    }

    pub(crate) fn as_slice(&self) -> &[u8]
        ensures { result.now ≡ self.now.bytes }
    {
        match &self.held {
            Held::Own(bytes) => bytes.as_slice(),
            Held::Shared(reference) => reference.bytes.as_slice().split_at(reference.from).1,
            Held::Ended(_) => &[],
        }
    }

    /// Whether it has n bytes, in memory of its own.
    pub(crate) fn leads_own(&self, n: usize) -> bool
        ensures within { result ≡ true → n ≤ length self.now.bytes }
        ensures marked { length self.now.marks ≡ length self.now.bytes }
        ensures own { result ≡ true → take n self.now.marks ≡ unmarked n }
    {
        match &self.held {
            Held::Own(bytes) => n <= bytes.len(),
            Held::Shared(_) => false,
            Held::Ended(_) => false,
        }
    }

    /// Takes off the first n bytes, but not all.
    pub(crate) fn drop_front(&mut self, n: usize)
        requires { n < length self.old.bytes }
        ensures bytes { self.new.bytes ≡ drop n self.old.bytes }
        ensures marks { self.new.marks ≡ drop n self.old.marks }
    {
        match &mut self.held {
            Held::Own(bytes) => bytes.drop_front(n),
            Held::Shared(reference) => reference.from += n,
            Held::Ended(_) => {}
        }
    }

    /// Whether it has more than n bytes. Then no reference ends among the first n.
    pub(crate) fn is_cut(&self, n: usize) -> bool
        ensures cut { IsTrue result ↔ (n < length self.now.bytes) }
        ensures marked { length self.now.marks ≡ length self.now.bytes }
        ensures no_end { n < length self.now.bytes → ended_tickets (take n self.now.marks) ≡ [] }
        ensures no_mark { n < length self.now.bytes → uncut_marks (take n self.now.marks) ≡ unmarked n }
    {
        match &self.held {
            Held::Own(bytes) => n < bytes.len(),
            Held::Shared(reference) => n < reference.bytes.len() - reference.from,
            Held::Ended(_) => false,
        }
    }

    /// The ticket of the reference that it is.
    pub(crate) fn last_ticket(&self) -> Option<u64>
        ensures none { IfNone result (ended_tickets self.now.marks ≡ []) }
        ensures some { IfSome result (λ ticket. ended_tickets self.now.marks ≡ ticket ∷ []) }
    {
        match &self.held {
            Held::Own(_) => None,
            Held::Shared(reference) => Some(reference.ticket),
            Held::Ended(_) => None,
        }
    }

    /// The ticket, where it is one.
    pub(crate) fn ticket(&self) -> Option<u64>
        ensures none { IfNone result (self.now.ended ≡ []) }
        ensures some { IfSome result (λ ticket. self.now.ended ≡ ticket ∷ []) }
    {
        match &self.held {
            Held::Ended(ticket) => Some(*ticket),
            _ => None,
        }
    }
}
