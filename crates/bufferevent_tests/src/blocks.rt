// Bytes that come in front of a block: the input takes the block for its own where it has room for just as much and no byte, and a copy
// of them else.
ghost use Rattle.std.specs.Prelude.{◌≡◌, false};

use bev_core::{Bev, SpareRoom};
use bev_world::{Dir, NoMemory};
use std::alloc::Global;

fn block_of(alloc: Global, bytes: &[u8]) -> Result<Vec<u8>, NoMemory> {
    let mut block = Vec::with_capacity(alloc, bytes.len())?;
    block.extend_from_slice(bytes)?;
    Ok(block)
}

/// Brings the first n bytes of a block. Whether the block stays as it was.
fn bring(bev: &mut Bev, bytes: &[u8], n: usize) -> Result<bool, NoMemory>
    requires { bev.old.chunked ≡ false }
    ensures { bev.new.chunked ≡ false }
{
    let alloc = bev.allocator();
    let mut block = block_of(alloc, bytes)?;
    let n = n.min(block.len());
    let mut spare = SpareRoom::new(alloc);
    spare.reserve(bev.len(Dir::Read).checked_add(n).ok_or(NoMemory)?)?;
    bev.feed_with_spare(&mut block, n, &mut spare);
    Ok(block.as_slice() == bytes)
}

/// Whether a block stays that is brought where there is room for more, one where there is room for just as much, and one behind bytes;
/// and what has come.
fn brought(bev: &mut Bev) -> Result<(bool, bool, bool, [u8; 8]), NoMemory>
    requires { bev.old.chunked ≡ false }
{
    bev.make_room(Dir::Read, 5)?;
    let wider = bring(bev, b"abcd", 2)?;
    bev.drain(Dir::Read, 1);
    let behind = bring(bev, b"cdef", 2)?;
    bev.drain(Dir::Read, 3);
    let as_much = bring(bev, b"ghijk", 4)?;
    let mut into = [b'.'; 8];
    let _count = bev.peek(&mut into);
    Ok((wider, behind, as_much, into))
}

#[test]
fn a_block_is_exchanged_where_there_is_room_for_just_as_much(rt: HostRuntime) {
    let mut bev = Bev::fresh(rt.alloc());
    let went = brought(&mut bev);
    drop(bev);
    assert_eq!(rt; went, Ok((true, true, false, *b"ghij....")));
}
