// What the chunks of a chain and the own bytes behind them do together, as lists of bytes and of marks that stand one behind the other.
ghost use Rattle.std.specs.Prelude.{◌≡◌, ◌≤◌, ◌<◌, ◌+◌, ◌-◌, ◌^◌, ◌++◌, [], length, drop, take, is_ok, if◌then◌else◌, IfOk, OnOk, OnErr};
ghost use Rattle.evbuf_chain.specs.Mark.{unmarked, ended_tickets, uncut_marks};
ghost use Rattle.evbuf_chain.specs.ChunkValue.{tickets_of, all_bytes, all_marks};
ghost use Rattle.evbuf_chain.specs.Leaving.{Takes, PullsUp};

use crate::chunk::Chunk;
use crate::chunks::Chunks;
use crate::moves;
use crate::own::Own;
use crate::queue::Queue;
use crate::reading::first;
use crate::stack::{Node, make_node};
use byte_queue::ByteQueue;
use std::alloc::{AllocError, Global};
use std::mem::swap;

/// A node of bytes in memory of their own.
pub(crate) fn own_node(alloc: Global, bytes: &[u8]) -> Result<Box<Node>, AllocError>
    ensures bytes { IfOk result (λ node. node.value.chunk.bytes ≡ bytes.now) }
    ensures marks { IfOk result (λ node. node.value.chunk.marks ≡ unmarked (length bytes.now)) }
{
    let mut queue = ByteQueue::new(alloc);
    queue.append(bytes)?;
    make_node(alloc, Chunk::own(queue))
}

/// Makes a chunk of the own bytes, the last.
pub(crate) fn seal(own: &mut Own, chunks: &mut Chunks)
    requires { length chunks.old.bytes + length own.old.items < 2 ^ 64 }
    ensures bytes { chunks.new.bytes ≡ chunks.old.bytes ++ own.old.items }
    ensures marks { chunks.new.marks ≡ chunks.old.marks ++ unmarked (length own.old.items) }
    ensures own { own.new.items ≡ [] }
    ensures spare { own.new.spare ≡ 0 }
{
    if let Some(node) = own.seal() {
        chunks.push_back(node);
    }
}

/// Puts bytes in front: among the own bytes where there is no chunk, and else as a chunk. After a refusal nothing has changed.
pub(crate) fn put_before(chunks: &mut Chunks, own: &mut Own, bytes: &[u8]) -> Result<(), AllocError>
    requires { length chunks.old.bytes + length bytes.now < 2 ^ 64 }
    ensures bytes { OnOk result (all_bytes chunks.new own.new ≡ bytes.now ++ all_bytes chunks.old own.old) }
    ensures marks { OnOk result (all_marks chunks.new own.new ≡ unmarked (length bytes.now) ++ all_marks chunks.old own.old) }
    ensures spare { own.new.spare ≡ own.old.spare }
    ensures err { OnErr result (chunks.new ≡ chunks.old) }
    ensures err_own { OnErr result (own.new ≡ own.old) }
{
    if chunks.len() == 0 {
        own.prepend(bytes)?;
        return Ok(());
    }
    let node = own_node(own.allocator(), bytes)?;
    chunks.push_front(node);
    Ok(())
}

/// Moves all chunks and own bytes of another chain behind those of this one. Nothing is spare then.
pub(crate) fn put_behind(chunks: &mut Chunks, own: &mut Own, from: &mut Chunks, from_own: &mut Own)
    requires { length (all_bytes chunks.old own.old) + length (all_bytes from.old from_own.old) < 2 ^ 64 }
    ensures bytes { all_bytes chunks.new own.new ≡ all_bytes chunks.old own.old ++ all_bytes from.old from_own.old }
    ensures marks { all_marks chunks.new own.new ≡ all_marks chunks.old own.old ++ all_marks from.old from_own.old }
    ensures spare { own.new.spare ≡ 0 }
    ensures from { from.new.bytes ≡ [] }
    ensures from_marks { from.new.marks ≡ [] }
    ensures from_own { from_own.new.items ≡ [] }
    ensures from_spare { from_own.new.spare ≡ 0 }
{
    seal(own, chunks);
    chunks.append(from);
    swap(own, from_own);
    own.forget_spare();
}

/// Takes off the first n bytes and copies them behind others, in room that was made before.
pub(crate) fn take(chunks: &mut Chunks, own: &mut Own, ended: &mut Queue, n: usize, into: &mut Own)
    requires there { n ≤ length (all_bytes chunks.old own.old) }
    requires room { n ≤ into.old.spare }
    ensures { Takes chunks.old own.old (tickets_of ended.old) into.old n chunks.new own.new (tickets_of ended.new) into.new }
{
    let _marked = chunks.len();
    let left = moves::gather(chunks, ended, n, into);
    into.push(first(own.as_slice(), left));
    own.drop_front(left);
}

/// Makes the first n bytes one chunk, in memory of its own, or leaves a first chunk as it is that has so many in memory of its own.
pub(crate) fn pull(
    chunks: &mut Chunks,
    own: &mut Own,
    ended: &mut Queue,
    n: usize,
) -> Result<(), AllocError>
    requires some { 0 < n }
    requires there { n ≤ length (all_bytes chunks.old own.old) }
    requires fits { length (all_bytes chunks.old own.old) < 2 ^ 64 }
    ensures pulled { OnOk result (PullsUp chunks.old own.old (tickets_of ended.old) n chunks.new own.new (tickets_of ended.new)) }
    ensures err_bytes { OnErr result (all_bytes chunks.new own.new ≡ all_bytes chunks.old own.old) }
    ensures err_marks { OnErr result (all_marks chunks.new own.new ≡ all_marks chunks.old own.old) }
    ensures err_spare { OnErr result (own.new.spare ≡ own.old.spare) }
    ensures err_ended { OnErr result (tickets_of ended.new ≡ tickets_of ended.old) }
{
    if chunks.leads_own(n) {
        return Ok(());
    }
    let mut block = Own::new(own.allocator());
    block.reserve(n)?;
    take(chunks, own, ended, n, &mut block);
    seal_front(&mut block, chunks);
    Ok(())
}

// Makes a chunk of own bytes, the first.
fn seal_front(block: &mut Own, chunks: &mut Chunks)
    requires some { 0 < length block.old.items }
    requires fits { length chunks.old.bytes + length block.old.items < 2 ^ 64 }
    ensures bytes { chunks.new.bytes ≡ block.old.items ++ chunks.old.bytes }
    ensures marks { chunks.new.marks ≡ unmarked (length block.old.items) ++ chunks.old.marks }
    ensures run { chunks.new.run ≡ length block.old.items }
{
    if let Some(node) = block.seal() {
        chunks.push_front(node);
    }
}

// Copies the first n bytes behind own bytes of another chain, where nothing is spare then. After a refusal nothing has changed.
fn copy_front(
    chunks: &mut Chunks,
    own: &mut Own,
    ended: &mut Queue,
    n: usize,
    into: &mut Own,
) -> Result<(), AllocError>
    requires { n ≤ length (all_bytes chunks.old own.old) }
    ensures copied { OnOk result (Takes chunks.old own.old (tickets_of ended.old) (record into.old { spare = n }) n
        chunks.new own.new (tickets_of ended.new) into.new) }
    ensures err { OnErr result (chunks.new ≡ chunks.old) }
    ensures err_own { OnErr result (own.new ≡ own.old) }
    ensures err_ended { OnErr result (tickets_of ended.new ≡ tickets_of ended.old) }
    ensures err_into { OnErr result (into.new ≡ into.old) }
{
    into.reserve(n)?;
    take(chunks, own, ended, n, into);
    into.forget_spare();
    Ok(())
}

// Copies the first n bytes as own bytes, once others were moved from before them. After a refusal those are in front again, and else
// nothing has changed.
fn cut_front(
    chunks: &mut Chunks,
    own: &mut Own,
    ended: &mut Queue,
    n: usize,
    moved: &mut Chunks,
) -> Result<Own, AllocError>
    requires there { n ≤ length (all_bytes chunks.old own.old) }
    requires fits { length moved.old.bytes + length chunks.old.bytes < 2 ^ 64 }
    ensures items { IfOk result (λ cut. cut.items ≡ take n (all_bytes chunks.old own.old)) }
    ensures bytes { OnOk result (all_bytes chunks.new own.new ≡ drop n (all_bytes chunks.old own.old)) }
    ensures marks { OnOk result (all_marks chunks.new own.new ≡ drop n (all_marks chunks.old own.old)) }
    ensures ended { OnOk result (tickets_of ended.new ≡ tickets_of ended.old ++ ended_tickets (take n (all_marks chunks.old own.old))) }
    ensures moved { OnOk result (moved.new ≡ moved.old) }
    ensures spare { own.new.spare ≡ own.old.spare }

    ensures err_bytes { OnErr result (chunks.new.bytes ≡ moved.old.bytes ++ chunks.old.bytes) }
    ensures err_marks { OnErr result (chunks.new.marks ≡ moved.old.marks ++ chunks.old.marks) }
    ensures err_own { OnErr result (own.new ≡ own.old) }
    ensures err_ended { OnErr result (tickets_of ended.new ≡ tickets_of ended.old) }
{
    let mut cut = Own::new(own.allocator());
    if cut.reserve(n).is_err() {
        moved.append(chunks);
        swap(chunks, moved);
        return Err(AllocError);
    }
    take(chunks, own, ended, n, &mut cut);
    Ok(cut)
}

/// Moves the first n bytes behind those of another chain: whole chunks as they are, and the front of one that is cut as a copy, behind
/// the own bytes there if no chunk comes between. After a refusal nothing has changed.
pub(crate) fn move_front(
    chunks: &mut Chunks,
    own: &mut Own,
    ended: &mut Queue,
    n: usize,
    to: &mut Chunks,
    to_own: &mut Own,
) -> Result<(), AllocError>
    requires there { n ≤ length (all_bytes chunks.old own.old) }
    requires fits { length (all_bytes chunks.old own.old) < 2 ^ 64 }
    requires to_fits { length (all_bytes to.old to_own.old) + n < 2 ^ 64 }
    ensures bytes { all_bytes chunks.new own.new
        ≡ (if is_ok result then drop n (all_bytes chunks.old own.old) else all_bytes chunks.old own.old) }
    ensures marks { all_marks chunks.new own.new
        ≡ (if is_ok result then drop n (all_marks chunks.old own.old) else all_marks chunks.old own.old) }
    ensures to_bytes { all_bytes to.new to_own.new
        ≡ (if is_ok result then all_bytes to.old to_own.old ++ take n (all_bytes chunks.old own.old) else all_bytes to.old to_own.old) }
    ensures to_marks { all_marks to.new to_own.new
        ≡ (if is_ok result then all_marks to.old to_own.old ++ uncut_marks (take n (all_marks chunks.old own.old))
        else all_marks to.old to_own.old) }
    ensures spare { own.new.spare ≡ own.old.spare }
    ensures to_spare { to_own.new.spare ≤ to_own.old.spare }
    ensures ok_spare { OnOk result (to_own.new.spare ≡ 0) }
    ensures err_spare { OnErr result (to_own.new.spare ≡ to_own.old.spare) }
    ensures ended { tickets_of ended.new ≡ tickets_of ended.old }
{
    let _marked = chunks.len();
    let mut whole = Chunks::new();
    let left = moves::move_whole(chunks, &mut whole, n);
    let _rest = chunks.len();
    if whole.len() == 0 {
        copy_front(chunks, own, ended, left, to_own)?;
        return Ok(());
    }
    let mut cut = cut_front(chunks, own, ended, left, &mut whole)?;
    put_behind(to, to_own, &mut whole, &mut cut);
    Ok(())
}
