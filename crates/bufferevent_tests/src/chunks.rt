// Inputs that move behind one another, and what passes a filter then. Worlds and bufferevents are lent, so that each is let go at one
// place.

use crate::worlds::pass;
use bev_core::{Bev, BevFault};
use bev_world::{BevId, Dir, FilterKind, Mode, Step, World, WorldFault};

/// What a socket brought goes behind an output.
fn hand_on(world: &mut World, from: BevId, to: BevId, bytes: &[u8]) -> Result<(), WorldFault> {
    world.feed(from, bytes, 5)?;
    world.move_input(from, to)
}

fn output(world: &World, id: BevId) -> [u8; 8] {
    let mut into = [b'.'; 8];
    let _count = world.peek_output(id, &mut into);
    into
}

/// Three inputs, the last of them the own one.
fn in_order(world: &mut World) -> Result<[u8; 8], WorldFault> {
    let from = world.new_socket()?;
    let to = world.new_socket()?;
    hand_on(world, from, to, b"ab")?;
    hand_on(world, from, to, b"cde")?;
    hand_on(world, to, to, b"f")?;
    Ok(output(world, to))
}

/// How a step went over two inputs, what it made, and what it left.
type Passed = (Step, [u8; 8], [u8; 8]);

/// Two inputs go down through a filter.
fn filtered(world: &mut World, kind: FilterKind, limit: usize) -> Result<Passed, WorldFault> {
    let from = world.new_socket()?;
    let under = world.new_socket()?;
    let over = world.new_filter(under, FilterKind::None, kind)?;
    hand_on(world, from, over, b"ab")?;
    hand_on(world, from, over, b"cd")?;
    let step = pass(world, over, Dir::Write, limit, Mode::Normal)?;
    Ok((step, output(world, under), output(world, over)))
}

/// Bytes in two chunks, of which the first three go into one piece.
fn into_one_piece(from: &mut Bev, more: &mut Bev, to: &mut Bev) -> Result<bool, BevFault> {
    from.write(b"ab")?;
    more.write(b"cd")?;
    more.pass(Dir::Write, from, 9)?;
    let apart = from.piece(Dir::Write).is_none();
    from.pass(Dir::Write, to, 3)?;
    Ok(
        apart
            && to.piece(Dir::Write) == Some("abc".as_bytes())
            && from.piece(Dir::Write) == Some("d".as_bytes()),
    )
}

#[test]
fn inputs_lie_behind_one_another(rt: HostRuntime) {
    let mut world = World::new(rt.alloc());
    let chunks = in_order(&mut world);
    drop(world);
    let mut world = World::in_one_piece(rt.alloc());
    let piece = in_order(&mut world);
    drop(world);
    assert_eq!(rt; chunks, Ok(*b"abcdef.."));
    assert_eq!(rt; piece, Ok(*b"abcdef.."));
}

#[test]
fn a_filter_steps_over_chunks_as_over_one_piece(rt: HostRuntime) {
    let mut world = World::new(rt.alloc());
    let all = filtered(&mut world, FilterKind::HexOut, 8);
    let limited = filtered(&mut world, FilterKind::HexOut, 5);
    let as_they_are = filtered(&mut world, FilterKind::None, 3);
    drop(world);
    let went = |used| Step {
        used,
        finished: false,
    };
    assert_eq!(rt; all, Ok((went(4), *b"61626364", *b"........")));
    assert_eq!(rt; limited, Ok((went(3), *b"616263..", *b"d.......")));
    assert_eq!(rt; as_they_are, Ok((went(3), *b"abc.....", *b"d.......")));
}

#[test]
fn chunks_go_into_one_piece(rt: HostRuntime) {
    let mut from = Bev::made(rt.alloc(), true);
    let mut more = Bev::made(rt.alloc(), true);
    let mut to = Bev::fresh(rt.alloc());
    let went = into_one_piece(&mut from, &mut more, &mut to);
    drop(from);
    drop(more);
    drop(to);
    assert_eq!(rt; went, Ok(true));
}
