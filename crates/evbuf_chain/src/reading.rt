// How the bytes of chunks are read where they lie: those of the front stack from the front, and those of the back stack from the end.
ghost use Rattle.std.specs.Prelude.{◌≡◌, ◌≤◌, ◌<◌, ◌+◌, ◌-◌, ◌^◌, ◌++◌, length, drop, take, reverse, [], true, OnOk, IfOk};
ghost use Rattle.evbuf_chain.specs.ChunkValue.{chunk_bytes, first_bytes};
ghost use Rattle.evbuf_chain.specs.Covered.{overlaid, covered};
ghost use Rattle.evbuf_chain.specs.Buffered.{joined};

use crate::stack::Stack;
use smallvec::SmallVec;
use std::alloc::AllocError;

// Writes bytes over the first of others, as many as there are.
fn overlay(bytes: &[u8], under: &mut [u8])
    ensures { under.new ≡ overlaid bytes.now under.old }
{
    let count = bytes.len().min(under.len());
    let (part, _) = bytes.split_at(count);
    let (over, _) = under.split_at_mut(count);
    over.copy_from_slice(part);
}

/// Copies bytes that begin at a place to a window that begins at another, as far as they lie in it.
pub(crate) fn copy_part(bytes: &[u8], place: usize, from: usize, window: &mut [u8])
    ensures { window.new ≡ covered place bytes.now from window.old }
{
    let (_, bytes) = bytes.split_at(from.saturating_sub(place).min(bytes.len()));
    let gap = place.saturating_sub(from).min(window.len());
    let (_, window) = window.split_at_mut(gap);
    overlay(bytes, window);
}

/// The same for the chunks of a stack, one after another, of which none is looked at that lies behind the window. Answers whether they
/// reach its end.
pub(crate) fn copy_forward(stack: &Stack, from: usize, window: &mut [u8]) -> bool
    requires few { length (chunk_bytes stack.now) < 2 ^ 64 }
    requires fits { from + length window.old < 2 ^ 64 }
    ensures copied { window.new ≡ covered 0 (chunk_bytes stack.now) from window.old }
    ensures filled { result ≡ true → from + length window.old ≤ length (chunk_bytes stack.now) }
{
    let end = from + window.len();
    let mut at = stack;
    let mut place = 0usize;
    while place < end {
        let Some(node) = at.top() else {
            return false;
        };
        copy_part(node.chunk.as_slice(), place, from, window);
        place += node.chunk.len();
        at = &node.below;
    }
    true
}

/// The same for those of a stack of which the top is the last and ends at a place.
pub(crate) fn copy_backward(stack: &Stack, end: usize, from: usize, window: &mut [u8])
    requires { length (chunk_bytes (reverse stack.now)) ≤ end }
    ensures copied { window.new
        ≡ covered (end - length (chunk_bytes (reverse stack.now))) (chunk_bytes (reverse stack.now)) from window.old }
{
    let mut at = stack;
    let mut place = end;
    while let Some(node) = at.top() {
        place -= node.chunk.len();
        copy_part(node.chunk.as_slice(), place, from, window);
        at = &node.below;
    }
}

/// The first n bytes, or all where there are fewer.
pub(crate) fn first(bytes: &[u8], n: usize) -> &[u8]
    ensures { result.now ≡ take n bytes.now }
{
    bytes.split_at(n.min(bytes.len())).0
}

/// Shows the first n bytes of the chunks of a stack, or all where there are fewer, behind other slices. Answers whether there are n.
pub(crate) fn show_forward<'a>(
    stack: &'a Stack,
    n: usize,
    slices: &mut SmallVec<&'a [u8], 8>,
) -> Result<bool, AllocError>
    ensures shown { OnOk result (joined slices.new.items ≡ joined slices.old.items ++ take n (chunk_bytes stack.now)) }
    ensures enough { IfOk result (λ enough. enough ≡ true → n ≤ length (chunk_bytes stack.now)) }
{
    let mut at = stack;
    let mut left = n;
    while left > 0 {
        let Some(node) = at.top() else {
            break;
        };
        let bytes = first(node.chunk.as_slice(), left);
        slices.push(bytes)?;
        left -= bytes.len();
        at = &node.below;
    }
    Ok(left == 0)
}

/// The same for those of a stack of which the top is the last and ends at a place, the last slice first.
pub(crate) fn show_backward<'a>(
    stack: &'a Stack,
    end: usize,
    n: usize,
    turned: &mut SmallVec<&'a [u8], 8>,
) -> Result<(), AllocError>
    requires within { length (chunk_bytes (reverse stack.now)) ≤ end }
    requires empty { turned.old.items ≡ [] }
    ensures { OnOk result (joined (reverse turned.new.items)
        ≡ take (n - (end - length (chunk_bytes (reverse stack.now)))) (chunk_bytes (reverse stack.now))) }
{
    let mut at = stack;
    let mut place = end;
    while let Some(node) = at.top() {
        place -= node.chunk.len();
        if place < n {
            turned.push(first(node.chunk.as_slice(), n - place))?;
        }
        at = &node.below;
    }
    Ok(())
}

/// Puts slices behind others, the last first.
pub(crate) fn turn<'a>(
    turned: &mut SmallVec<&'a [u8], 8>,
    slices: &mut SmallVec<&'a [u8], 8>,
) -> Result<(), AllocError>
    ensures { OnOk result (joined slices.new.items ≡ joined slices.old.items ++ joined (reverse turned.old.items)) }
{
    while let Some(bytes) = turned.pop() {
        slices.push(bytes)?;
    }
    Ok(())
}

/// The bytes of the chunk at the bottom, where there is one.
pub(crate) fn bottom(stack: &Stack) -> &[u8]
    ensures { result.now ≡ first_bytes (reverse stack.now) }
{
    let mut at = stack;
    let mut lowest: &[u8] = &[];
    while let Some(node) = at.top() {
        lowest = node.chunk.as_slice();
        at = &node.below;
    }
    lowest
}
