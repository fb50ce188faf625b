// The bytes behind all chunks of a chain, and the node in which they become a chunk.
ghost use Rattle.std.specs.Prelude.{◌≡◌, ◌≤◌, ◌<◌, ◌+◌, ◌-◌, ◌^◌, ◌++◌, [], length, drop, max, is_some, true};
ghost use Rattle.std.specs.Prelude.{OnOk, OnErr, IfOk, IsOk, IfSome, IfNone};
ghost use Rattle.evbuf_chain.specs.Mark.{unmarked};
ghost use Rattle.evbuf_chain.specs.ChunkValue.{given_up_own};

use crate::chunk::Chunk;
use crate::stack::{Node, make_node};
use byte_queue::ByteQueue;
use std::alloc::{AllocError, Global};
use std::marker::Model;
use std::mem::replace;

/// Bytes in memory of their own, and at least how many more fit behind them. Where there is one, or room for one, there is a
/// node too, so that they become a chunk without taking memory. Where there is none, a node may be kept for the next reference.
///
/// Own.
#[derive(Drop)]
pub(crate) struct Own {
    bytes: ByteQueue,
    spare: usize,
    node: Option<Box<Node>>,
}

impl Model for Own {
    ghost use Rattle.evbuf_chain.specs.ChunkValue.{Owned};

    ghost Value = { Owned };

    ghost use Rattle.evbuf_chain.specs.OwnView.{owned, IsOwn};

    ghost view = { owned };

    ghost invariant = { IsOwn };
}

impl Own {
    pub(crate) fn new(alloc: Global) -> Own
        ensures items { result.items ≡ [] }
        ensures spare { result.spare ≡ 0 }
    {
        Own {
            bytes: ByteQueue::new(alloc),
            spare: 0,
            node: None,
        }
    }

    pub(crate) fn allocator(&self) -> Global {
        self.bytes.allocator()
    }

    pub(crate) fn len(&self) -> usize
        ensures { result ≡ length self.now.items }
    {
        self.bytes.len()
    }

    pub(crate) fn spare(&self) -> usize
        ensures { result ≡ self.now.spare }
    {
        self.spare
    }

    pub(crate) fn as_slice(&self) -> &[u8]
        ensures { result.now ≡ self.now.items }
    {
        self.bytes.as_slice()
    }

    /// Makes room for at least n more. After a refusal nothing has changed.
    pub(crate) fn reserve(&mut self, n: usize) -> Result<(), AllocError>
        ensures items { self.new.items ≡ self.old.items }
        ensures spare { OnOk result (self.new.spare ≡ max self.old.spare n) }
        ensures err { OnErr result (self.new ≡ self.old) }
    {
        if n <= self.spare {
            return Ok(());
        }
        have_node(&mut self.node, self.bytes.allocator())?;
        self.bytes.reserve(n)?;
        self.spare = n;
        Ok(())
    }

    /// Appends in room that was made before.
    pub(crate) fn push(&mut self, bytes: &[u8])
        requires { length bytes.now ≤ self.old.spare }
        ensures items { self.new.items ≡ self.old.items ++ bytes.now }
        ensures spare { self.new.spare ≡ self.old.spare - length bytes.now }
    {
        self.bytes.push(bytes);
        self.spare -= bytes.len();
    }

    /// Appends. After a refusal nothing has changed.
    pub(crate) fn append(&mut self, bytes: &[u8]) -> Result<(), AllocError>
        ensures items { OnOk result (self.new.items ≡ self.old.items ++ bytes.now) }
        ensures spare { OnOk result (self.new.spare ≡ self.old.spare - length bytes.now) }
        ensures there { length bytes.now ≤ self.old.spare → IsOk result }
        ensures err { OnErr result (self.new ≡ self.old) }
    {
        if bytes.len() <= self.spare {
            self.push(bytes);
            return Ok(());
        }
        have_node(&mut self.node, self.bytes.allocator())?;
        self.bytes.append(bytes)?;
        self.spare = 0;
        Ok(())
    }

    /// Puts bytes in front. After a refusal nothing has changed.
    pub(crate) fn prepend(&mut self, bytes: &[u8]) -> Result<(), AllocError>
        ensures items { OnOk result (self.new.items ≡ bytes.now ++ self.old.items) }
        ensures spare { self.new.spare ≡ self.old.spare }
        ensures err { OnErr result (self.new ≡ self.old) }
    {
        have_node(&mut self.node, self.bytes.allocator())?;
        self.bytes.prepend(bytes)
    }

    /// Takes off the first n.
    pub(crate) fn drop_front(&mut self, n: usize)
        requires { n ≤ length self.old.items }
        ensures items { self.new.items ≡ drop n self.old.items }
        ensures spare { self.new.spare ≡ self.old.spare }
    {
        if n == 0 {
            return;
        }
        self.bytes.drop_front(n);
    }

    /// Frees the room and the node where there is no byte.
    pub(crate) fn give_up(&mut self)
        ensures { self.new ≡ given_up_own self.old }
    {
        if self.bytes.len() == 0 {
            self.bytes.give_up();
            self.spare = 0;
            self.node = None;
        }
    }

    /// Says no more how many fit behind.
    pub(crate) fn forget_spare(&mut self)
        ensures items { self.new.items ≡ self.old.items }
        ensures spare { self.new.spare ≡ 0 }
    {
        self.spare = 0;
    }

    /// Keeps a node that is done with, where there is none.
    pub(crate) fn keep(&mut self, node: Box<Node>)
        ensures { self.new ≡ self.old }
    {
        if self.node.is_none() {
            self.node = Some(node);
        }
    }

    /// A node of a chunk that comes behind: the one that is here where there is no byte, and else a new one. After a refusal nothing
    /// has changed.
    pub(crate) fn node_of(&mut self, chunk: Chunk) -> Result<Box<Node>, AllocError>
        ensures node { IfOk result (λ node. node.value.chunk ≡ chunk) }
        ensures items { self.new.items ≡ self.old.items }
        ensures err { OnErr result (self.new ≡ self.old) }
    {
        if self.bytes.len() == 0
            && let Some(mut node) = self.node.take()
        {
            self.spare = 0;
            node.chunk = chunk;
            return Ok(node);
        }
        make_node(self.bytes.allocator(), chunk)
    }

    /// Makes a chunk of the bytes, where there are some, with which their room goes.
    pub(crate) fn seal(&mut self) -> Option<Box<Node>>
        ensures left { self.new.items ≡ [] }
        ensures spare { self.new.spare ≡ 0 }
        ensures none { IfNone result (self.old.items ≡ []) }
        ensures bytes { IfSome result (λ node. node.value.chunk.bytes ≡ self.old.items) }
        ensures marks { IfSome result (λ node. node.value.chunk.marks ≡ unmarked (length self.old.items)) }
    {
        self.spare = 0;
        if self.bytes.len() == 0 {
            return None;
        }
        let mut node = self.node.take()?;
        let alloc = self.bytes.allocator();
        node.chunk = Chunk::own(replace(&mut self.bytes, ByteQueue::new(alloc)));
        Some(node)
    }
}

// Makes a node where there is none.
fn have_node(node: &mut Option<Box<Node>>, alloc: Global) -> Result<(), AllocError>
    ensures made { OnOk result (is_some node.new ≡ true) }
    ensures kept { is_some node.old ≡ true → is_some node.new ≡ true }
{
    if node.is_none() {
        *node = Some(make_node(alloc, Chunk::own(ByteQueue::new(alloc)))?);
    }
    Ok(())
}
