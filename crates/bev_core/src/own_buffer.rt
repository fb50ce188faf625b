// A buffer that nobody but its bufferevent reaches. So it is frozen at no end, and has no reference and no size callback: all of it is
// its bytes.
ghost use Rattle.std.specs.Prelude.{◌≡◌, ◌≤◌, ◌<◌, ◌+◌, ◌-◌, ◌*◌, ◌^◌, ◌++◌, ◌==◌, [], length, drop, take, min, max, None, true, false};
ghost use Rattle.std.specs.Prelude.{if◌then◌else◌, is_some, vec_len, OnOk, OnErr, IfOk, IfSome, IsOk};
ghost use Rattle.byte_queue.specs.MemoryAnswers.{AnswersOr, fault_of};
ghost use Rattle.byte_queue.specs.QueuedBytes.{most_spare};
ghost use Rattle.bev_core.specs.BevValue.{nothing};
ghost use Rattle.bev_core.specs.BufferValue.{more, less, without_room};
ghost use Rattle.bev_core.specs.Refusals.{length_refusal};
ghost use Rattle.bev_core.specs.declared.fault.BevFault.TheVariants.{Memory};

mod moves;

use crate::chained::Chained;
use crate::fault::BevFault;
use byte_queue::ByteQueue;
use ev_types::NoMemory;
use std::alloc::Global;
use std::marker::Model;
use std::mem;

/// Where the bytes lie: in one piece, or in chunks.
#[derive(Drop)]
enum Kept {
    Piece(ByteQueue),
    Chunks(Chained),
}

/// Bytes in order, and how many more fit without taking memory.
///
/// Own.
#[derive(Drop)]
pub(crate) struct OwnBuffer {
    kept: Kept,
}

impl Model for OwnBuffer {
    ghost use Rattle.bev_core.specs.BufferValue.{BufferValue};
    ghost use Rattle.bev_core.specs.BufferView.{buffer_value};

    ghost Value = { BufferValue };

    ghost view = { λ own. buffer_value own.kept };
}

impl OwnBuffer {
    pub(crate) fn new(alloc: Global, chunked: bool) -> OwnBuffer
        ensures { result ≡ record { held = nothing; chunked = chunked } }
    {
        let kept = if chunked {
            Kept::Chunks(Chained::new(alloc))
        } else {
            Kept::Piece(ByteQueue::new(alloc))
        };
        OwnBuffer { kept }
    }

    pub(crate) fn len(&self) -> usize
        ensures len { result ≡ length self.now.held.bytes }
        ensures fits { length self.now.held.bytes + self.now.held.spare < 2 ^ 64 }
    {
        match &self.kept {
            Kept::Piece(queue) => queue.len(),
            Kept::Chunks(chunks) => chunks.len(),
        }
    }

    pub(crate) fn allocator(&self) -> Global {
        match &self.kept {
            Kept::Piece(queue) => queue.allocator(),
            Kept::Chunks(chunks) => chunks.allocator(),
        }
    }

    /// All bytes in one piece, or None where they lie in several chunks.
    pub(crate) fn piece(&self) -> Option<&[u8]>
        ensures piece { IfSome result (λ piece. piece.now ≡ self.now.held.bytes) }
        ensures there { self.now.chunked ≡ false → is_some result ≡ true }
    {
        match &self.kept {
            Kept::Piece(queue) => Some(queue.as_slice()),
            Kept::Chunks(chunks) => chunks.piece(),
        }
    }

    /// The first n bytes, or all where there are fewer, in one piece.
    pub(crate) fn front(&self, n: usize) -> &[u8]
        requires { self.now.chunked ≡ false }
        ensures { result.now ≡ take n self.now.held.bytes }
    {
        match &self.kept {
            Kept::Piece(queue) => {
                let (bytes, _) = queue.as_slice().split_at(n.min(queue.len()));
                bytes
            }
            Kept::Chunks(_) => &[],
        }
    }

    pub(crate) fn copy_out(&self, into: &mut [u8]) -> usize
        ensures count { result ≡ min (length into.old) (length self.now.held.bytes) }
        ensures copied { into.new ≡ take result self.now.held.bytes ++ drop result into.old }
    {
        match &self.kept {
            Kept::Piece(queue) => {
                let count = into.len().min(queue.len());
                let (place, _) = into.split_at_mut(count);
                place.copy_from_slice(queue.as_slice().split_at(count).0);
                count
            }
            Kept::Chunks(chunks) => chunks.copy_out(into),
        }
    }

    /// A copy of the first n bytes, or of all where there are fewer.
    pub(crate) fn gathered(&self, n: usize) -> Result<Vec<u8>, NoMemory>
        ensures { IfOk result (λ copy. copy.items ≡ take n self.now.held.bytes) }
    {
        let mut copy = Vec::new(self.allocator());
        copy.resize(n.min(self.len()), 0)?;
        self.copy_out(copy.as_mut_slice());
        Ok(copy)
    }

    /// Makes room for at least n more. Takes memory only where there is less.
    pub(crate) fn reserve(&mut self, n: usize) -> Result<(), NoMemory>
        ensures stays { self.new ≡ more self.old [] self.new.held.spare }
        ensures room { OnOk result (n ≤ self.new.held.spare) }
        ensures kept { self.old.held.spare ≤ self.new.held.spare }
        ensures most { self.new.held.spare ≤ most_spare self.old.held.spare n (length self.old.held.bytes) }
        ensures there { n ≤ self.old.held.spare → IsOk result }
        ensures still { n ≤ self.old.held.spare → self.new ≡ self.old }
        ensures err { OnErr result (self.new ≡ self.old) }
    {
        match &mut self.kept {
            Kept::Piece(queue) => Ok(queue.reserve(n)?),
            Kept::Chunks(chunks) => chunks.reserve(n),
        }
    }

    /// Appends the first n bytes of a block, as `append_block` of byte_queue; or where no memory is left for that, in the room of an empty
    /// queue that has room for all.
    pub(crate) fn feed_or_swap(&mut self, block: &mut Vec<u8>, n: usize, spare: &mut ByteQueue)
        requires one_piece { self.old.chunked ≡ false }
        requires within { n ≤ vec_len block.old }
        requires room { length self.old.held.bytes + n ≤ spare.old.spare }
        requires empty { spare.old.items ≡ [] }
        ensures fed { self.new ≡ more self.old (take n block.old.items) self.new.held.spare }
        ensures most { self.new.held.spare ≤ max spare.old.spare (most_spare self.old.held.spare 0 (length self.old.held.bytes)) }
        ensures kept { n ≤ self.old.held.spare → spare.new ≡ spare.old }
        ensures used { n ≤ self.old.held.spare → self.new.held.spare + n ≡ self.old.held.spare }
        ensures empty { spare.new.items ≡ [] }
        ensures block { vec_len block.new ≡ vec_len block.old }
    {
        if let Kept::Piece(queue) = &mut self.kept {
            if queue.append_block(block, n).is_err() {
                take_room(queue, spare);
                let (bytes, _) = block.as_slice().split_at(n);
                queue.push(bytes);
            }
        }
    }

    /// Appends in room that was made before. Takes no memory.
    pub(crate) fn feed_reserved(&mut self, bytes: &[u8])
        requires { length bytes.now ≤ self.old.held.spare }
        ensures { self.new ≡ more self.old bytes.now (self.old.held.spare - length bytes.now) }
    {
        match &mut self.kept {
            Kept::Piece(queue) => queue.push(bytes),
            Kept::Chunks(chunks) => chunks.push(bytes),
        }
    }

    /// Takes off the first n, or all where there are fewer. Takes no memory.
    pub(crate) fn drain(&mut self, n: usize)
        ensures left { self.new ≡ less self.old n self.new.held.spare }
        ensures spare { self.old.held.spare ≤ self.new.held.spare }
        ensures most { length self.new.held.bytes + self.new.held.spare ≤ self.old.held.spare + 4 * length self.old.held.bytes }
    {
        match &mut self.kept {
            Kept::Piece(queue) => {
                let n = n.min(queue.len());
                queue.drop_front(n);
            }
            Kept::Chunks(chunks) => chunks.drain(n),
        }
    }

    /// Frees the room where there is no byte. Takes no memory.
    pub(crate) fn give_up(&mut self)
        ensures { self.new ≡ without_room self.old }
    {
        match &mut self.kept {
            Kept::Piece(queue) => queue.give_up(),
            Kept::Chunks(chunks) => chunks.give_up(),
        }
    }

    /// Drops the bytes, and frees their room. Takes no memory.
    pub(crate) fn empty(&mut self)
        ensures { self.new ≡ record self.old { held = nothing } }
    {
        let alloc = self.allocator();
        match &mut self.kept {
            Kept::Piece(queue) => *queue = ByteQueue::new(alloc),
            Kept::Chunks(chunks) => *chunks = Chained::new(alloc),
        }
    }

    /// Appends, in the room that is there or in room that it makes.
    pub(crate) fn feed(&mut self, bytes: &[u8]) -> Result<(), BevFault>
        ensures answer { AnswersOr Memory result (length_refusal self.old.held (length bytes.now)) }
        ensures there { length bytes.now ≤ self.old.held.spare → fault_of result ≡ None }
        ensures ok { OnOk result (self.new ≡ more self.old bytes.now self.new.held.spare) }
        ensures used { length bytes.now ≤ self.old.held.spare → self.new.held.spare + length bytes.now ≡ self.old.held.spare }
        ensures err { OnErr result (self.new ≡ self.old) }
    {
        self.fits(bytes.len())?;
        let appended = match &mut self.kept {
            Kept::Piece(queue) => queue.append(bytes).is_ok(),
            Kept::Chunks(chunks) => chunks.append(bytes).is_ok(),
        };
        if !appended {
            return Err(BevFault::Memory);
        }
        Ok(())
    }

    // Whether so many more bytes leave a length that fits a usize.
    fn fits(&self, n: usize) -> Result<(), BevFault>
        ensures answer { fault_of result ≡ length_refusal self.now.held n }
        ensures there { n ≤ self.now.held.spare → fault_of result ≡ None }
        ensures room { OnOk result (length self.now.held.bytes + n < 2 ^ 64) }
    {
        if n > usize::MAX - self.len() {
            return Err(BevFault::Spent);
        }
        Ok(())
    }
}

// Takes the room of an empty queue for its bytes, and leaves its own to that.
fn take_room(queue: &mut ByteQueue, spare: &mut ByteQueue)
    requires room { length queue.old.items ≤ spare.old.spare }
    requires empty { spare.old.items ≡ [] }
    ensures items { queue.new.items ≡ queue.old.items }
    ensures room { queue.new.spare ≡ spare.old.spare - length queue.old.items }
    ensures empty { spare.new.items ≡ [] }
{
    let len = queue.len();
    spare.push(queue.as_slice());
    mem::swap(queue, spare);
    spare.drop_front(len);
}
