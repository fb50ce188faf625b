// Bytes in order, in one block all of whose bytes are initialized, so that bytes are written over others and what the block
// is long is all the memory that is kept. The front is taken off by moving the start on; the bytes are moved down only
// where at least three quarters of what lies before their end lie before the start, so that draining in pieces stays linear.
ghost use Rattle.std.specs.Prelude.{◌≡◌, ◌≤◌, ◌<◌, ◌+◌, ◌-◌, ◌*◌, ◌^◌, ◌++◌, ◌⊎◌, [], length, drop, take, max, OnOk, OnErr, IfOk, IsOk};
ghost use Rattle.std.specs.Prelude.{vec_len, vec_capacity};

use std::alloc::{AllocError, Global};
use std::marker::Model;
use std::mem::swap;

/// The least part of what lies before the end, as a divisor, that the bytes fill behind a start.
const SPARSE: usize = 3;

/// The least part of the bytes, as a divisor, by which room grows beyond twice what is used.
const SLACK: usize = 4;

/// Bytes in order, in one piece, and how many more fit behind them without taking memory. They are appended at the end and
/// taken from the front; taking some costs their number, over many calls. The bytes, the room before and the room behind
/// are all the memory that is kept.
///
/// Libevent: event2/buffer.h; "Evbuffers".
/// Differs: the bytes lie in one piece.
#[derive(Drop)]
pub struct ByteQueue {
    kept: Vec<u8>,
    start: usize,
    end: usize,
}

impl Model for ByteQueue {
    ghost use Rattle.byte_queue.specs.QueuedBytes.{Queued};

    ghost Value = { Queued };

    ghost use Rattle.byte_queue.specs.QueueView.{queued, IsQueue};

    ghost view = { queued };

    ghost invariant = { IsQueue };
}

impl ByteQueue {
    ghost use Rattle.byte_queue.specs.QueuedBytes.{given_up_room, room_in_all, most_spare};

    /// An empty queue. Takes no memory; constant.
    pub fn new(alloc: Global) -> ByteQueue
        ensures items { result.items ≡ [] }
        ensures spare { result.spare ≡ 0 }
    {
        ByteQueue {
            kept: Vec::new(alloc),
            start: 0,
            end: 0,
        }
    }

    /// How many bytes there are. Constant.
    pub fn len(&self) -> usize
        ensures len { result ≡ length self.now.items }
        ensures fits { length self.now.items + self.now.spare < 2 ^ 64 }
        ensures front { self.now.front ≤ 3 * length self.now.items }
    {
        let _size = self.kept.len();
        self.end - self.start
    }

    /// The allocator that it was made with. Takes no memory; constant.
    ///
    /// Own.
    pub fn allocator(&self) -> Global {
        *self.kept.allocator()
    }

    /// All bytes, from the front. Constant.
    pub fn as_slice(&self) -> &[u8]
        ensures { result.now ≡ self.now.items }
    {
        let (upto, _) = self.kept.as_slice().split_at(self.end);
        let (_, bytes) = upto.split_at(self.start);
        bytes
    }

    // How many bytes more fit behind.
    fn spare(&self) -> usize
        ensures { result ≡ self.now.spare }
    {
        self.kept.len() - self.end
    }

    // By how much room grows beyond twice what is used: by what lies before the start, or by a quarter of the bytes. So the blocks that
    // a growing queue leaves behind are together less than the last one. The C library, which gives what is free at its end back to the
    // system once that is twice the longest block, keeps them for the next queue.
    fn slack(&self) -> usize
        ensures { result ≤ 3 * length self.now.items }
    {
        self.start.max(self.len() / SLACK)
    }

    /// Makes room behind the bytes for so many more. Where there is less it takes memory: for what is used more than twice over, so that
    /// appending in pieces stays linear, or for just so many where no more can be had. After a refusal nothing has changed.
    /// Constant where there is room, else linear in the length.
    pub fn reserve(&mut self, n: usize) -> Result<(), AllocError>
        ensures items { self.new.items ≡ self.old.items }
        ensures room { OnOk result (n ≤ self.new.spare) }
        ensures kept { self.old.spare ≤ self.new.spare }
        ensures most { self.new.spare ≤ most_spare self.old.spare n (length self.old.items) }
        ensures there { n ≤ self.old.spare → IsOk result }
        ensures still { n ≤ self.old.spare → self.new ≡ self.old }
        ensures err { OnErr result (self.new ≡ self.old) }
    {
        if self.spare() >= n {
            return Ok(());
        }
        let spare = self.slack().saturating_add(n.max(self.end));
        if self.move_before(&[], spare).is_ok() {
            return Ok(());
        }
        self.move_before(&[], n)
    }

    // Moves the bytes to a block of their own, with more bytes and so much room behind them and no room in front. After a refusal
    // nothing has changed.
    fn move_before(&mut self, more: &[u8], spare: usize) -> Result<(), AllocError>
        ensures items { OnOk result (self.new.items ≡ self.old.items ++ more.now) }
        ensures front { OnOk result (self.new.front ≡ 0) }
        ensures spare { OnOk result (self.new.spare ≡ spare) }
        ensures err { OnErr result (self.new ≡ self.old) }
    {
        self.kept = block(self.allocator(), 0, self.as_slice(), more, spare)?;
        self.start = 0;
        self.end = self.kept.len() - spare;
        Ok(())
    }

    /// Appends: in the room that is there, or in a block of its own that is made for the bytes of both, with room behind them so that
    /// appending in pieces stays linear, or with none where no more can be had. An empty queue gets no room more. Takes memory only
    /// where there is less room. After a refusal nothing has changed. Linear in the bytes, over many calls.
    pub fn append(&mut self, bytes: &[u8]) -> Result<(), AllocError>
        ensures items { OnOk result (self.new.items ≡ self.old.items ++ bytes.now) }
        ensures most { self.new.spare ≤ most_spare self.old.spare 0 (length self.old.items) }
        ensures there { length bytes.now ≤ self.old.spare → IsOk result }
        ensures used { length bytes.now ≤ self.old.spare → self.new.spare + length bytes.now ≡ self.old.spare }
        ensures err { OnErr result (self.new ≡ self.old) }
    {
        if bytes.len() <= self.spare() {
            self.push(bytes);
            return Ok(());
        }
        let spare = self
            .slack()
            .saturating_add(self.end.saturating_sub(bytes.len()));
        if self.move_before(bytes, spare).is_ok() {
            return Ok(());
        }
        self.move_before(bytes, 0)
    }

    /// Appends the first n bytes of a block, as `append` does. Where the queue has no byte, and room for just what the block is long,
    /// they exchange their blocks and no byte is copied, if the block keeps no memory more. The block stays as long. After a refusal
    /// nothing has changed.
    pub fn append_block(&mut self, block: &mut Vec<u8>, n: usize) -> Result<(), AllocError>
        requires within { n ≤ vec_len block.old }
        ensures items { OnOk result (self.new.items ≡ self.old.items ++ take n block.old.items) }
        ensures most { self.new.spare ≤ most_spare self.old.spare 0 (length self.old.items) }
        ensures there { n ≤ self.old.spare → IsOk result }
        ensures used { n ≤ self.old.spare → self.new.spare + n ≡ self.old.spare }
        ensures block { vec_len block.new ≡ vec_len block.old }
        ensures err { OnErr result ((self.new ≡ self.old) × (block.new.items ≡ block.old.items)) }
    {
        let len = block.len();
        if self.len() == 0 && self.kept.len() == len && block.capacity() == len {
            swap(&mut self.kept, block);
            self.start = 0;
            self.end = n;
            return Ok(());
        }
        let (bytes, _) = block.as_slice().split_at(n);
        self.append(bytes)
    }

    /// Appends in room that was made before. Takes no memory; linear in the number of bytes that are appended.
    pub fn push(&mut self, bytes: &[u8])
        requires { length bytes.now ≤ self.old.spare }
        ensures items { self.new.items ≡ self.old.items ++ bytes.now }
        ensures front { self.new.front ≡ self.old.front }
        ensures spare { self.new.spare + length bytes.now ≡ self.old.spare }
    {
        write_at(&mut self.kept, self.end, bytes);
        self.end += bytes.len();
    }

    /// Takes off the first n. Takes no memory; linear in n, over many calls. The room in all stays, and at most three times
    /// the bytes that are there lie in front of them.
    pub fn drop_front(&mut self, n: usize)
        requires { n ≤ length self.old.items }
        ensures items { self.new.items ≡ drop n self.old.items }
        ensures spare { self.old.spare ≤ self.new.spare }
        ensures room { room_in_all self.new ≡ room_in_all self.old }
        ensures front { self.new.front ≤ 3 * length self.new.items }
        ensures most { length self.new.items + self.new.spare ≤ self.old.spare + 4 * length self.old.items }
    {
        self.start += n;
        if self.end - self.start <= self.start / SPARSE {
            pull_down(&mut self.kept, self.start, self.end);
            self.end -= self.start;
            self.start = 0;
        }
    }

    /// Moves the first n behind the bytes of another queue. All of them go to an empty queue whole, without being copied; else
    /// in room that was made before. Takes no memory; constant where they go whole, else linear in n, over many calls.
    pub fn give(&mut self, into: &mut ByteQueue, n: usize)
        requires within { n ≤ length self.old.items }
        requires room { (n ≤ into.old.spare) ⊎ ((into.old.items ≡ []) × (n ≡ length self.old.items)) }
        ensures left { self.new.items ≡ drop n self.old.items }
        ensures given { into.new.items ≡ into.old.items ++ take n self.old.items }
    {
        if into.len() == 0 && n == self.len() {
            swap(self, into);
            return;
        }
        let (front, _) = self.as_slice().split_at(n);
        into.push(front);
        self.drop_front(n);
    }

    /// Frees the room where there is no byte. Takes no memory; constant.
    ///
    /// Own.
    pub fn give_up(&mut self)
        ensures { self.new ≡ given_up_room self.old }
    {
        if self.end == self.start && !self.kept.is_empty() {
            let alloc = self.allocator();
            self.kept = Vec::new(alloc);
            self.start = 0;
            self.end = 0;
        }
    }

    /// Puts bytes in front. Takes memory where there is less room there. After a refusal nothing has changed. Linear in the bytes, over
    /// many calls.
    pub fn prepend(&mut self, bytes: &[u8]) -> Result<(), AllocError>
        ensures items { OnOk result (self.new.items ≡ bytes.now ++ self.old.items) }
        ensures spare { self.new.spare ≡ self.old.spare }
        ensures err { OnErr result (self.new ≡ self.old) }
    {
        if self.start < bytes.len() {
            return self.move_behind(bytes);
        }
        let from = self.start - bytes.len();
        write_at(&mut self.kept, from, bytes);
        self.start = from;
        Ok(())
    }

    // Puts bytes in front in a block of their own with room in front for half of what was there, so that putting bytes in
    // front in pieces stays linear. After a refusal nothing has changed.
    fn move_behind(&mut self, bytes: &[u8]) -> Result<(), AllocError>
        ensures items { OnOk result (self.new.items ≡ bytes.now ++ self.old.items) }
        ensures spare { self.new.spare ≡ self.old.spare }
        ensures err { OnErr result (self.new ≡ self.old) }
    {
        let len = self.len();
        let front = len / 2;
        self.kept = block(
            self.allocator(),
            front,
            bytes,
            self.as_slice(),
            self.spare(),
        )?;
        self.start = front;
        self.end = front + bytes.len() + len;
        Ok(())
    }
}

// A block of just so much room, the bytes of two slices, and so much room again.
fn block(
    alloc: Global,
    front: usize,
    first: &[u8],
    bytes: &[u8],
    spare: usize,
) -> Result<Vec<u8>, AllocError>
    ensures len { IfOk result (λ v. vec_len v ≡ front + (length first.now + length bytes.now) + spare) }
    ensures whole { IfOk result (λ v. vec_capacity v ≡ vec_len v) }
    ensures bytes { IfOk result (λ v. drop front (take (front + (length first.now + length bytes.now)) v.items)
        ≡ first.now ++ bytes.now) }
{
    let count = first.len().checked_add(bytes.len()).ok_or(AllocError)?;
    let end = front.checked_add(count).ok_or(AllocError)?;
    let size = end.checked_add(spare).ok_or(AllocError)?;
    let mut kept = Vec::with_capacity(alloc, size)?;
    kept.resize(front, 0)?;
    kept.extend_from_slice(first)?;
    kept.extend_from_slice(bytes)?;
    kept.resize(size, 0)?;
    // No contract says that a vector keeps its block where it has room, so one that took another is no block.
    if kept.capacity() != size {
        return Err(AllocError);
    }
    Ok(kept)
}

// Moves what stands between two places to the front.
fn pull_down(kept: &mut Vec<u8>, start: usize, end: usize)
    requires within { (start ≤ end) × (end ≤ vec_len kept.old) }
    requires apart { end ≤ start + start }
    ensures items { take (end - start) kept.new.items ≡ drop start (take end kept.old.items) }
    ensures len { vec_len kept.new ≡ vec_len kept.old }
    ensures capacity { vec_capacity kept.new ≡ vec_capacity kept.old }
{
    let (front, back) = kept.as_mut_slice().split_at_mut(start);
    let (front, _) = front.split_at_mut(end - start);
    let (bytes, _) = back.split_at(end - start);
    front.copy_from_slice(bytes);
}

// Writes bytes over what stands at a place.
fn write_at(kept: &mut Vec<u8>, place: usize, bytes: &[u8])
    requires { place + length bytes.now ≤ vec_len kept.old }
    ensures items { kept.new.items ≡ take place kept.old.items ++ (bytes.now ++ drop (place + length bytes.now) kept.old.items) }
    ensures len { vec_len kept.new ≡ vec_len kept.old }
    ensures capacity { vec_capacity kept.new ≡ vec_capacity kept.old }
{
    kept.slice_mut(place..place + bytes.len())
        .copy_from_slice(bytes);
}
