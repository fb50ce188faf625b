// What passes the filters of a world, by identifier and by number, and that each call answers. The worlds are lent, so that each is let
// go at one place.
ghost use Rattle.std.specs.Prelude.{◌≡◌, false};

use self::Answer::{Bad, Went};
use bev_world::{BevId, Dir, FilterKind, Mode, NoMemory, SpareRoom, Step, World, WorldFault};
use std::alloc::Global;
use stream_filters::StreamFilter;

/// The first bytes of an input.
fn input(world: &World, id: BevId) -> [u8; 4] {
    let mut into = *b"....";
    let _count = world.peek(id, &mut into);
    into
}

/// The first bytes of an output.
fn output(world: &World, id: BevId) -> [u8; 4] {
    let mut into = *b"....";
    let _count = world.peek_output(id, &mut into);
    into
}

/// What a socket brought goes back to its output.
fn brought(world: &mut World) -> Result<([u8; 4], u64), WorldFault> {
    world.reserve(1)?;
    let id = world.new_socket()?;
    world.reserve_input(id, 3)?;
    world.feed(id, b"abc", 5)?;
    world.move_input(id, id)?;
    Ok((output(world, id), world.room(id, Dir::Write, None, Some(2))))
}

/// What goes from half to half, of which the other reads up to 3 bytes.
fn halved(world: &mut World) -> Result<(usize, [u8; 2], [u8; 4]), WorldFault> {
    let (a, b) = world.new_pair()?;
    world.enable(b, Dir::Read)?;
    world.set_watermark(b, Dir::Read, 0, 3)?;
    world.write(a, b"01234")?;
    let mut into = [0; 2];
    let taken = world.take(b, &mut into)?;
    Ok((taken, into, output(world, a)))
}

/// A filter over a socket, and what a second one over it is answered.
fn filtered(world: &mut World) -> Result<Result<BevId, WorldFault>, WorldFault> {
    let under = world.new_socket()?;
    let _over = world.new_filter(under, FilterKind::HexOut, FilterKind::None)?;
    Ok(world.new_filter(under, FilterKind::None, FilterKind::None))
}

#[test]
fn each_call_answers(rt: HostRuntime) {
    let mut world = World::new(rt.alloc());
    let brought = brought(&mut world);
    let halved = halved(&mut world);
    let filtered = filtered(&mut world);
    drop(world);
    assert_eq!(rt; brought, Ok((*b"abc.", 2)));
    assert_eq!(rt; halved, Ok((2, *b"01", *b"....")));
    assert_eq!(rt; filtered, Ok(Err(WorldFault::Taken)));
}

/// A filter over a new socket.
fn over_socket(
    world: &mut World,
    input: FilterKind,
    output: FilterKind,
) -> Result<(BevId, BevId), WorldFault>
    ensures { world.new.chunked ≡ world.old.chunked }
{
    let under = world.new_socket()?;
    let over = world.new_filter(under, input, output)?;
    Ok((under, over))
}

/// A step of a filter that isn't finished.
pub(crate) fn pass(
    world: &mut World,
    over: BevId,
    dir: Dir,
    limit: usize,
    mode: Mode,
) -> Result<Step, WorldFault> {
    let at = over.0 as usize;
    if at >= world.count() || world.under(at).is_none() || world.filter(at, dir).is_finished() {
        return Err(WorldFault::NoFilter);
    }
    world.pass(over, dir, limit, mode)
}

/// The answer of a step, the first bytes where they come to, and those where they came from.
type Passed = (Result<Step, WorldFault>, [u8; 4], [u8; 4]);

/// What a socket brought goes up through a filter.
fn read_through(
    world: &mut World,
    kind: FilterKind,
    bytes: &[u8],
    limit: usize,
    mode: Mode,
) -> Result<Passed, WorldFault> {
    let (under, over) = over_socket(world, kind, FilterKind::None)?;
    world.feed(under, bytes, 5)?;
    let answer = pass(world, over, Dir::Read, limit, mode);
    Ok((answer, input(world, over), input(world, under)))
}

/// What is written goes down through a filter.
fn written_through(
    world: &mut World,
    kind: FilterKind,
    bytes: &[u8],
    limit: usize,
    mode: Mode,
) -> Result<Passed, WorldFault> {
    let (under, over) = over_socket(world, FilterKind::None, kind)?;
    world.write(over, bytes)?;
    let answer = pass(world, over, Dir::Write, limit, mode);
    Ok((answer, output(world, under), output(world, over)))
}

/// What a step answers: how many bytes it used and whether it finished, or the bad place.
#[derive(Clone, Copy)]
enum Answer {
    Went(usize, bool),
    Bad(u64),
}

fn answer_of(answer: Answer) -> Result<Step, WorldFault> {
    match answer {
        Went(used, finished) => Ok(Step { used, finished }),
        Bad(place) => Err(WorldFault::Filter(place)),
    }
}

/// Up or down, a filter, the bytes, the limit, the mode, what the step answers, and the first bytes where they come to and where they
/// came from.
type Passage = (
    Dir,
    FilterKind,
    &'static [u8],
    usize,
    Mode,
    Answer,
    &'static [u8; 4],
    &'static [u8; 4],
);

const UP: Dir = Dir::Read;

const DOWN: Dir = Dir::Write;

const LAST: Mode = Mode::Finished;

const MORE: Mode = Mode::Normal;

const TO_CRLF: FilterKind = FilterKind::ToCrlf;

const TO_LF: FilterKind = FilterKind::ToLf;

const HEX_IN: FilterKind = FilterKind::HexIn;

const HEX_OUT: FilterKind = FilterKind::HexOut;

const NONE: FilterKind = FilterKind::None;

const PASSAGES: &[Passage] = &[
    (
        UP,
        TO_CRLF,
        b"a\nb",
        8,
        LAST,
        Went(3, true),
        b"a\r\nb",
        b"....",
    ),
    (
        UP,
        TO_CRLF,
        b"\n\n\n",
        3,
        MORE,
        Went(2, false),
        b"\r\n\r\n",
        b"\n...",
    ),
    (UP, HEX_IN, b"414g", 8, MORE, Bad(3), b"A...", b"g..."),
    (
        DOWN,
        HEX_OUT,
        b"hi",
        8,
        LAST,
        Went(2, true),
        b"6869",
        b"....",
    ),
    (DOWN, HEX_IN, b"414", 8, LAST, Bad(3), b"A...", b"...."),
];

fn passes(world: &mut World, passage: &Passage) -> bool {
    let (dir, kind, bytes, limit, mode, answer, came, left) = *passage;
    let passed = match dir {
        Dir::Read => read_through(world, kind, bytes, limit, mode),
        Dir::Write => written_through(world, kind, bytes, limit, mode),
    };
    passed == Ok((answer_of(answer), *came, *left))
}

/// The first passage that goes otherwise.
fn first_wrong_passage(world: &mut World) -> Option<usize> {
    for (place, passage) in PASSAGES.iter().enumerate() {
        if !passes(world, passage) {
            return Some(place);
        }
    }
    None
}

#[test]
fn bytes_pass_a_filter_up_and_down(rt: HostRuntime) {
    let mut world = World::new(rt.alloc());
    let wrong = first_wrong_passage(&mut world);
    drop(world);
    assert_eq!(rt; wrong, None);
}

/// Brings bytes to a bufferevent, with room for its whole input made before.
pub(crate) fn bring(world: &mut World, at: usize, bytes: &[u8]) -> Result<(), NoMemory>
    requires { world.old.chunked ≡ false }
    ensures { world.new.chunked ≡ false }
{
    if at >= world.count() {
        return Err(NoMemory);
    }
    let held = world.bev(at).len(Dir::Read);
    let all = held.checked_add(bytes.len()).ok_or(NoMemory)?;
    let alloc = world.bev(at).allocator();
    let mut spare = SpareRoom::new(alloc);
    spare.reserve(all)?;
    let mut block = Vec::new(alloc);
    block.extend_from_slice(bytes)?;
    world.feed_at(at, &mut block, bytes.len(), 7, &mut spare);
    Ok(())
}

/// A step of a filter in room that it makes, where the count of bytes goes on from 10.
fn step(
    world: &mut World,
    at: usize,
    dir: Dir,
    limit: usize,
    beside: &mut Vec<u8>,
) -> Result<u64, NoMemory>
    requires { world.old.chunked ≡ false }
    ensures { world.new.chunked ≡ false }
{
    if at >= world.count() {
        return Err(NoMemory);
    }
    let Some(under) = world.under(at) else {
        return Err(NoMemory);
    };
    let count = match dir {
        Dir::Read => world.bev(under).len(Dir::Read),
        Dir::Write => world.bev(at).len(Dir::Write),
    };
    if world.filter(at, dir).used() > u64::MAX - count as u64 {
        return Err(NoMemory);
    }
    world.reserve_step_at(at, under, dir, count, beside, limit, 10)?;
    Ok(world.step_at(at, under, dir, limit, true, beside, 10))
}

/// Moves an input to an output.
fn move_on(world: &mut World, from: usize, to: usize) -> Result<(), NoMemory>
    requires { world.old.chunked ≡ false }
    ensures { world.new.chunked ≡ false }
{
    if from >= world.count() || to >= world.count() || from == to {
        return Err(NoMemory);
    }
    if world.bev(to).len(Dir::Write) > 0 {
        return Err(NoMemory);
    }
    world.move_at(from, to);
    Ok(())
}

/// What is left of the output once its first byte was taken.
fn drain(world: &mut World, at: usize) -> Result<[u8; 4], NoMemory> {
    if at >= world.count() {
        return Err(NoMemory);
    }
    world.drain_at(at, 1);
    Ok(output(world, BevId(at as u32)))
}

/// What a socket brought goes up through a filter, and on to the other side and down through its filter; how many bytes were made by
/// then, up and down, and what is left of the last output once its first byte was taken.
fn relayed(
    world: &mut World,
    beside: &mut Vec<u8>,
    up: FilterKind,
    down: FilterKind,
    bytes: &[u8],
    limit: usize,
) -> Result<(u64, u64, [u8; 4]), WorldFault>
    requires { world.old.chunked ≡ false }
{
    let (socket, side) = over_socket(world, up, FilterKind::None)?;
    let (other_socket, other) = over_socket(world, FilterKind::None, down)?;
    bring(world, socket.0 as usize, bytes)?;
    let read = step(world, side.0 as usize, Dir::Read, limit, beside)?;
    move_on(world, side.0 as usize, other.0 as usize)?;
    let written = step(world, other.0 as usize, Dir::Write, limit, beside)?;
    Ok((read, written, drain(world, other_socket.0 as usize)?))
}

/// The filters up and down, the bytes, the limit of each step, how many bytes were made by then up and down, and what is left.
type Way = (
    FilterKind,
    FilterKind,
    &'static [u8],
    usize,
    u64,
    u64,
    &'static [u8; 4],
);

const WAYS: &[Way] = &[
    (NONE, NONE, b"abc", 9, 13, 13, b"bc.."),
    (NONE, HEX_OUT, b"ab", 9, 12, 14, b"162."),
    (HEX_IN, NONE, b"4142", 1, 11, 11, b"...."),
    (TO_LF, TO_CRLF, b"\r\na", 9, 12, 13, b"\na.."),
    (HEX_IN, HEX_OUT, b"4g", 9, 10, 10, b"...."),
];

fn goes(alloc: Global, beside: &mut Vec<u8>, way: &Way) -> bool {
    let (up, down, bytes, limit, read, written, left) = *way;
    let mut world = World::in_one_piece(alloc);
    let answer = relayed(&mut world, beside, up, down, bytes, limit);
    drop(world);
    answer == Ok((read, written, *left))
}

/// The first way that bytes go otherwise.
fn first_wrong_way(alloc: Global, beside: &mut Vec<u8>) -> Option<usize> {
    for (place, way) in WAYS.iter().enumerate() {
        if !goes(alloc, beside, way) {
            return Some(place);
        }
    }
    None
}

#[test]
fn bytes_go_from_side_to_side_by_number(rt: HostRuntime) {
    let mut beside = Vec::new(rt.alloc());
    let wrong = first_wrong_way(rt.alloc(), &mut beside);
    drop(beside);
    assert_eq!(rt; wrong, None);
}
