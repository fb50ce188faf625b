// The chunks of a chain before its last own bytes, seen as their bytes and the mark of each.
ghost use Rattle.std.specs.Prelude.{◌≡◌, ◌≤◌, ◌<◌, ◌+◌, ◌-◌, ◌^◌, ◌++◌, [], length, drop, take, IfSome, IfNone, OnOk, true};
ghost use Rattle.evbuf_chain.specs.Mark.{unmarked, ended_tickets, uncut_marks, AreWhole};
ghost use Rattle.evbuf_chain.specs.Covered.{covered};
ghost use Rattle.evbuf_chain.specs.Buffered.{joined};

use crate::queue::Queue;
use crate::stack::Node;
use smallvec::SmallVec;
use std::alloc::{AllocError, Global};
use std::marker::Model;
use std::mem::swap;

/// Chunks in order, and how many bytes they have.
///
/// Own.
#[derive(Drop)]
pub(crate) struct Chunks {
    queue: Queue,
    len: usize,
}

impl Model for Chunks {
    ghost use Rattle.evbuf_chain.specs.ChunkValue.{Gathered, gathered};

    ghost Value = { Gathered };

    ghost use Rattle.evbuf_chain.specs.ChunksView.{IsChunks};

    ghost view = { λ p. gathered p.queue };

    ghost invariant = { IsChunks };
}

impl Chunks {
    pub(crate) fn new() -> Chunks
        ensures bytes { result.bytes ≡ [] }
        ensures marks { result.marks ≡ [] }
    {
        Chunks {
            queue: Queue::new(),
            len: 0,
        }
    }

    pub(crate) fn len(&self) -> usize
        ensures len { result ≡ length self.now.bytes }
        ensures fits { length self.now.bytes < 2 ^ 64 }
        ensures marked { length self.now.marks ≡ length self.now.bytes }
        ensures whole { AreWhole self.now.marks }
    {
        let _ = &self.queue;
        self.len
    }

    pub(crate) fn push_back(&mut self, node: Box<Node>)
        requires { length self.old.bytes + length node.value.chunk.bytes < 2 ^ 64 }
        ensures bytes { self.new.bytes ≡ self.old.bytes ++ node.value.chunk.bytes }
        ensures marks { self.new.marks ≡ self.old.marks ++ node.value.chunk.marks }
    {
        self.len += node.chunk.len();
        self.queue.push_back(node);
    }

    pub(crate) fn push_front(&mut self, node: Box<Node>)
        requires { length self.old.bytes + length node.value.chunk.bytes < 2 ^ 64 }
        ensures bytes { self.new.bytes ≡ node.value.chunk.bytes ++ self.old.bytes }
        ensures marks { self.new.marks ≡ node.value.chunk.marks ++ self.old.marks }
        ensures run { self.new.run ≡ length node.value.chunk.bytes }
    {
        self.len += node.chunk.len();
        self.queue.push_front(node);
    }

    pub(crate) fn pop_front(&mut self) -> Option<Box<Node>>
        ensures none_bytes { IfNone result ((self.old.bytes ≡ []) × (self.new.bytes ≡ [])) }
        ensures none_marks { IfNone result ((self.old.marks ≡ []) × (self.new.marks ≡ [])) }
        ensures bytes { IfSome result (λ node. self.old.bytes ≡ node.value.chunk.bytes ++ self.new.bytes) }
        ensures marks { IfSome result (λ node. self.old.marks ≡ node.value.chunk.marks ++ self.new.marks) }
        ensures count { IfSome result (λ _. self.old.count ≡ self.new.count + 1) }
    {
        let node = self.queue.pop_front()?;
        self.len -= node.chunk.len();
        Some(node)
    }

    /// Moves all chunks of others behind these. Constant where there is none before, else linear in the chunks that are moved.
    pub(crate) fn append(&mut self, from: &mut Chunks)
        requires { length self.old.bytes + length from.old.bytes < 2 ^ 64 }
        ensures bytes { self.new.bytes ≡ self.old.bytes ++ from.old.bytes }
        ensures marks { self.new.marks ≡ self.old.marks ++ from.old.marks }
        ensures from_bytes { from.new.bytes ≡ [] }
        ensures from_marks { from.new.marks ≡ [] }
    {
        if self.len() == 0 {
            swap(self, from);
            return;
        }
        while let Some(node) = from.pop_front() {
            self.push_back(node);
        }
    }

    /// Copies the bytes from a place on to a window, as far as they are there.
    pub(crate) fn copy_out(&self, from: usize, window: &mut [u8])
        requires { from + length window.old < 2 ^ 64 }
        ensures { window.new ≡ covered 0 self.now.bytes from window.old }
    {
        self.queue.copy_out(self.len, from, window);
    }

    /// Shows the first n bytes, or all where there are fewer, behind other slices.
    pub(crate) fn extents<'a>(
        &'a self,
        alloc: Global,
        n: usize,
        slices: &mut SmallVec<&'a [u8], 8>,
    ) -> Result<(), AllocError>
        ensures { OnOk result (joined slices.new.items ≡ joined slices.old.items ++ take n self.now.bytes) }
    {
        self.queue.extents(alloc, self.len, n, slices)
    }

    /// The first n bytes, which lie in the first chunk.
    pub(crate) fn first(&self, n: usize) -> &[u8]
        requires { n ≤ self.now.run }
        ensures bytes { result.now ≡ take n self.now.bytes }
        ensures len { length result.now ≡ n }
    {
        self.queue.first().split_at(n).0
    }

    /// Whether the first n bytes lie in the first chunk, in memory of its own.
    pub(crate) fn leads_own(&mut self, n: usize) -> bool
        ensures bytes { self.new.bytes ≡ self.old.bytes }
        ensures marks { self.new.marks ≡ self.old.marks }
        ensures run { result ≡ true → n ≤ self.new.run }
        ensures own { result ≡ true → take n self.old.marks ≡ unmarked n }
    {
        let _fits = self.len();
        let Some(node) = self.pop_front() else {
            return false;
        };
        let leads = node.chunk.leads_own(n);
        self.push_front(node);
        leads
    }
}
