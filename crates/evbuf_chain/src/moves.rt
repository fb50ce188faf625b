// How the first bytes leave the chunks of a chain: they are let go, copied, or moved in whole chunks.
ghost use Rattle.std.specs.Prelude.{◌≡◌, ◌≤◌, ◌<◌, ◌+◌, ◌-◌, ◌^◌, ◌++◌, [], length, drop, take, min, IfSome, IfNone, ◌∷◌};
ghost use Rattle.evbuf_chain.specs.Mark.{unmarked, ended_tickets, uncut_marks};
ghost use Rattle.evbuf_chain.specs.ChunkValue.{tickets_of};
ghost use Rattle.evbuf_chain.specs.Leaving.{FrontGone, MovesWhole};

use crate::chunk::Chunk;
use crate::chunks::Chunks;
use crate::own::Own;
use crate::queue::Queue;
use crate::stack::Node;

/// Lets a chunk go. A reference ends by that, and its node keeps the ticket.
pub(crate) fn release(ended: &mut Queue, mut node: Box<Node>)
    ensures { tickets_of ended.new ≡ tickets_of ended.old ++ ended_tickets node.value.chunk.marks }
{
    if let Some(ticket) = node.chunk.last_ticket() {
        node.chunk = Chunk::ended(ticket);
        ended.push_back(node);
    }
}

/// The ticket that was released first, and its node.
pub(crate) fn take_ticket(ended: &mut Queue) -> Option<(u64, Box<Node>)>
    ensures none { IfNone result ((tickets_of ended.old ≡ []) × (tickets_of ended.new ≡ [])) }
    ensures some { IfSome result (λ taken. tickets_of ended.old ≡ taken.0 ∷ tickets_of ended.new) }
{
    while let Some(node) = ended.pop_front() {
        if let Some(ticket) = node.chunk.ticket() {
            return Some((ticket, node));
        }
    }
    None
}

/// Takes off the first n bytes, and answers how many of the n there were not.
pub(crate) fn drain(chunks: &mut Chunks, ended: &mut Queue, n: usize) -> usize
    ensures { FrontGone chunks.old (tickets_of ended.old) n result chunks.new (tickets_of ended.new) }
{
    let _fits = chunks.len();
    let mut left = n;
    while left > 0 {
        let Some(mut node) = chunks.pop_front() else {
            break;
        };
        if node.chunk.is_cut(left) {
            node.chunk.drop_front(left);
            chunks.push_front(node);
            return 0;
        }
        left -= node.chunk.len();
        release(ended, node);
    }
    left
}

/// Takes off the first n bytes and copies them behind others, in room that was made before. Answers how many of the n there were not.
pub(crate) fn gather(chunks: &mut Chunks, ended: &mut Queue, n: usize, into: &mut Own) -> usize
    requires { n ≤ into.old.spare }
    ensures drained { FrontGone chunks.old (tickets_of ended.old) n result chunks.new (tickets_of ended.new) }
    ensures into { into.new.items ≡ into.old.items ++ take n chunks.old.bytes }
    ensures room { into.new.spare + n ≡ into.old.spare + result }
{
    let _fits = chunks.len();
    let mut left = n;
    while left > 0 {
        let Some(mut node) = chunks.pop_front() else {
            break;
        };
        if node.chunk.is_cut(left) {
            into.push(node.chunk.as_slice().split_at(left).0);
            node.chunk.drop_front(left);
            chunks.push_front(node);
            return 0;
        }
        into.push(node.chunk.as_slice());
        left -= node.chunk.len();
        release(ended, node);
    }
    left
}

/// Moves the chunks that lie whole among the first n bytes behind others, and answers how many of the n bytes are left. No
/// reference ends among those.
pub(crate) fn move_whole(chunks: &mut Chunks, moved: &mut Chunks, n: usize) -> usize
    requires { length moved.old.bytes + length chunks.old.bytes < 2 ^ 64 }
    ensures moves { MovesWhole chunks.old moved.old n result chunks.new moved.new }
    ensures no_end { ended_tickets (take result chunks.new.marks) ≡ [] }
    ensures no_mark { uncut_marks (take result chunks.new.marks) ≡ unmarked (min result (length chunks.new.bytes)) }
{
    let mut left = n;
    while left > 0 {
        let Some(node) = chunks.pop_front() else {
            break;
        };
        if node.chunk.is_cut(left) {
            chunks.push_front(node);
            break;
        }
        left -= node.chunk.len();
        moved.push_back(node);
    }
    left
}
