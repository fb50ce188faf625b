// Chunks in order, of which the front ones lie on one stack and those behind, the last on top, on another. So nodes go in
// and out at both ends without taking memory.
ghost use Rattle.std.specs.Prelude.{◌≡◌, [], ◌∷◌, ◌++◌, ◌+◌, ◌^◌, ◌<◌, IfSome, IfNone, OnOk, reverse, length, take};
ghost use Rattle.evbuf_chain.specs.ChunkValue.{chunk_bytes, first_bytes};
ghost use Rattle.evbuf_chain.specs.Covered.{covered};
ghost use Rattle.evbuf_chain.specs.Buffered.{joined};

use crate::reading;
use crate::stack::{Node, Stack};
use smallvec::SmallVec;
use std::alloc::{AllocError, Global};
use std::marker::Model;
use std::mem::swap;

/// Chunks in order.
///
/// Own.
#[derive(Drop)]
pub(crate) struct Queue {
    front: Stack,
    back: Stack,
}

impl Model for Queue {
    ghost use Rattle.std.specs.Prelude.{List, ◌++◌, reverse};
    ghost use Rattle.evbuf_chain.specs.ChunkValue.{ChunkValue};

    ghost Value = { List ChunkValue };

    ghost view = { λ q. q.front ++ reverse q.back };
}

impl Queue {
    pub(crate) fn new() -> Queue
        ensures { result ≡ [] }
    {
        Queue {
            front: Stack::new(),
            back: Stack::new(),
        }
    }

    pub(crate) fn push_back(&mut self, node: Box<Node>)
        ensures { self.new ≡ self.old ++ node.value.chunk ∷ [] }
    {
        if self.back.is_empty() && self.front.is_empty() {
            self.front.push(node);
            return;
        }
        self.back.push(node);
    }

    pub(crate) fn push_front(&mut self, node: Box<Node>)
        ensures { self.new ≡ node.value.chunk ∷ self.old }
    {
        self.front.push(node);
    }

    pub(crate) fn pop_front(&mut self) -> Option<Box<Node>>
        ensures none { IfNone result (self.old ≡ []) }
        ensures stays { IfNone result (self.new ≡ []) }
        ensures some { IfSome result (λ node. self.old ≡ node.value.chunk ∷ self.new) }
    {
        if let Some(node) = self.front.pop() {
            return Some(node);
        }
        turn(&mut self.back, &mut self.front);
        self.front.pop()
    }

    /// Copies the bytes from a place on to a window, as far as they are there.
    pub(crate) fn copy_out(&self, end: usize, from: usize, window: &mut [u8])
        requires end { end ≡ length (chunk_bytes self.now) }
        requires fits { from + length window.old < 2 ^ 64 }
        ensures { window.new ≡ covered 0 (chunk_bytes self.now) from window.old }
    {
        if !reading::copy_forward(&self.front, from, window) {
            reading::copy_backward(&self.back, end, from, window);
        }
    }

    /// Shows the first n bytes, or all where there are fewer, behind other slices.
    pub(crate) fn extents<'a>(
        &'a self,
        alloc: Global,
        end: usize,
        n: usize,
        slices: &mut SmallVec<&'a [u8], 8>,
    ) -> Result<(), AllocError>
        requires { end ≡ length (chunk_bytes self.now) }
        ensures { OnOk result (joined slices.new.items ≡ joined slices.old.items ++ take n (chunk_bytes self.now)) }
    {
        if reading::show_forward(&self.front, n, slices)? {
            return Ok(());
        }
        let mut turned = SmallVec::new(alloc);
        reading::show_backward(&self.back, end, n, &mut turned)?;
        reading::turn(&mut turned, slices)?;
        Ok(())
    }

    /// The bytes of the first chunk.
    pub(crate) fn first(&self) -> &[u8]
        ensures { result.now ≡ first_bytes self.now }
    {
        match self.front.top() {
            Some(node) => node.chunk.as_slice(),
            None => reading::bottom(&self.back),
        }
    }
}

// Puts chunks on others, so that the last comes first.
fn turn(from: &mut Stack, onto: &mut Stack)
    ensures onto { onto.new ≡ reverse from.old ++ onto.old }
    ensures from { from.new ≡ [] }
{
    while let Some(node) = from.pop() {
        onto.push(node);
    }
}
