// Chunks, the first on top.
ghost use Rattle.std.specs.Prelude.{◌≡◌, [], ◌∷◌, ◌↔◌, IsTrue, IfSome, IfNone, IfOk};

use crate::chunk::Chunk;
use std::alloc::{AllocError, Global};
use std::marker::Model;
use std::mem::swap;

/// Chunks, of which the first is on top.
#[cycle(stack)]
pub(crate) struct Stack {
    top: Option<Box<Node>>,
}

/// A chunk and those below it.
#[cycle(stack)]
#[derive(Drop)]
pub(crate) struct Node {
    pub(crate) chunk: Chunk,
    pub(crate) below: Stack,
}

impl Model for Stack {
    ghost use Rattle.std.specs.Prelude.{List, length};
    ghost use Rattle.evbuf_chain.specs.ChunkValue.{ChunkValue};

    ghost Value = { List ChunkValue };

    ghost use Rattle.evbuf_chain.specs.StackView.{stacked};

    ghost view = { λ s. stacked s.top };

    ghost size = { length };

    ghost use Rattle.std.proofs.Common.{arith};

    ghost size_decreases = { λ a h. Prim.grind (arith) };
}

impl Drop for Stack {
    fn drop(mut self) {
        loop {
            let Stack { top } = self;
            match top {
                None => return,
                Some(node) => {
                    let Node { chunk, below } = Box::into_inner(node);
                    drop(chunk);
                    self = below;
                }
            }
        }
    }
}

impl Stack {
    pub(crate) fn new() -> Stack
        ensures { result ≡ [] }
    {
        Stack { top: None }
    }

    pub(crate) fn is_empty(&self) -> bool
        ensures { IsTrue result ↔ (self.now ≡ []) }
    {
        self.top.is_none()
    }

    /// The node on top.
    pub(crate) fn top(&self) -> Option<&Node>
        ensures none { IfNone result (self.now ≡ []) }
        ensures some { IfSome result (λ node. self.now ≡ node.now.chunk ∷ node.now.below) }
    {
        self.top.as_deref()
    }

    /// Puts a node on top. What was below it is let go.
    pub(crate) fn push(&mut self, mut node: Box<Node>)
        ensures { self.new ≡ node.value.chunk ∷ self.old }
    {
        swap(self, &mut node.below);
        self.top = Some(node);
    }

    /// Takes the top node off, with nothing below it.
    pub(crate) fn pop(&mut self) -> Option<Box<Node>>
        ensures none { IfNone result (self.old ≡ []) }
        ensures stays { IfNone result (self.new ≡ []) }
        ensures some { IfSome result (λ node. self.old ≡ node.value.chunk ∷ self.new) }
    {
        let mut node = self.top.take()?;
        swap(self, &mut node.below);
        Some(node)
    }
}

/// A node of its own.
pub(crate) fn make_node(alloc: Global, chunk: Chunk) -> Result<Box<Node>, AllocError>
    ensures { IfOk result (λ node. node.value.chunk ≡ chunk) }
{
    Ok(Box::new(
        alloc,
        Node {
            chunk,
            below: Stack::new(),
        },
    )?)
}
