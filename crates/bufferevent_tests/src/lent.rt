// Filters that are lent to a world. The worlds are lent, so that each is let go at one place.

use self::Answer::{Bad, Went};
use bev_world::{AnyFilter, BevId, Dir, FilterKind, Mode, Step, World, WorldFault};
use stream_filters::StreamFilter;

/// What a step answers: how many bytes it used and whether it finished, or the bad place.
#[derive(Clone, Copy)]
enum Answer {
    Went(usize, bool),
    Bad(u64),
}

fn answer_of(answer: Answer) -> Result<Step, WorldFault> {
    match answer {
        Went(used, finished) => Ok(Step { used, finished }),
        Bad(place) => Err(WorldFault::Filter(place)),
    }
}

/// A step of a filter that isn't finished, lent to a filter bufferevent that hands every byte on.
fn lend(
    world: &mut World,
    over: BevId,
    dir: Dir,
    filter: &mut AnyFilter,
    limit: usize,
    mode: Mode,
) -> Result<Step, WorldFault> {
    if filter.is_finished() {
        return Err(WorldFault::NoFilter);
    }
    world.pass_by(over, dir, filter, limit, mode)
}

/// The first bytes of the buffer of a direction.
fn held(world: &World, id: BevId, dir: Dir) -> [u8; 4] {
    let mut into = *b"....";
    let _count = match dir {
        Dir::Read => world.peek(id, &mut into),
        Dir::Write => world.peek_output(id, &mut into),
    };
    into
}

/// The answer of a step, the first bytes where they come to, and those where they came from.
type Passed = (Result<Step, WorldFault>, [u8; 4], [u8; 4]);

/// What a socket brought goes up through a lent filter, or what is written goes down.
fn pass_lent(
    world: &mut World,
    dir: Dir,
    kind: FilterKind,
    bytes: &[u8],
    limit: usize,
    mode: Mode,
) -> Result<Passed, WorldFault> {
    let under = world.new_socket()?;
    let over = world.new_filter(under, FilterKind::None, FilterKind::None)?;
    let (from, to) = match dir {
        Dir::Read => (under, over),
        Dir::Write => (over, under),
    };
    match dir {
        Dir::Read => world.feed(under, bytes, 5)?,
        Dir::Write => world.write(over, bytes)?,
    }
    let mut filter = AnyFilter::new(kind);
    let answer = lend(world, over, dir, &mut filter, limit, mode);
    Ok((answer, held(world, to, dir), held(world, from, dir)))
}

/// Up or down, the filter, the bytes, the limit, the mode, what the step answers, and the first bytes where they come to and where they
/// came from.
type Passage = (
    Dir,
    FilterKind,
    &'static [u8],
    usize,
    Mode,
    Answer,
    &'static [u8; 4],
    &'static [u8; 4],
);

const UP: Dir = Dir::Read;

const DOWN: Dir = Dir::Write;

const LAST: Mode = Mode::Finished;

const MORE: Mode = Mode::Normal;

const TO_CRLF: FilterKind = FilterKind::ToCrlf;

const HEX_IN: FilterKind = FilterKind::HexIn;

const HEX_OUT: FilterKind = FilterKind::HexOut;

const PASSAGES: &[Passage] = &[
    (
        UP,
        TO_CRLF,
        b"\n\n\n",
        3,
        MORE,
        Went(2, false),
        b"\r\n\r\n",
        b"\n...",
    ),
    (UP, HEX_IN, b"414g", 8, MORE, Bad(3), b"A...", b"g..."),
    (
        DOWN,
        HEX_OUT,
        b"hi",
        8,
        LAST,
        Went(2, true),
        b"6869",
        b"....",
    ),
    (DOWN, HEX_IN, b"414", 8, LAST, Bad(3), b"A...", b"...."),
];

/// The first passage that goes otherwise.
fn first_wrong_passage(world: &mut World) -> Option<usize> {
    for (place, passage) in PASSAGES.iter().enumerate() {
        let (dir, kind, bytes, limit, mode, answer, came, left) = *passage;
        let passed = pass_lent(world, dir, kind, bytes, limit, mode);
        if passed != Ok((answer_of(answer), *came, *left)) {
            return Some(place);
        }
    }
    None
}

#[test]
fn bytes_pass_a_lent_filter_up_and_down(rt: HostRuntime) {
    let mut world = World::new(rt.alloc());
    let wrong = first_wrong_passage(&mut world);
    drop(world);
    assert_eq!(rt; wrong, None);
}

/// What is answered where nothing can pass: to a number that was never used, of a socket, and where the one under it was freed.
fn refused(world: &mut World) -> Result<[Result<Step, WorldFault>; 3], WorldFault> {
    let under = world.new_socket()?;
    let over = world.new_filter(under, FilterKind::None, FilterKind::None)?;
    let mut filter = AnyFilter::new(HEX_OUT);
    let unknown = lend(world, BevId(9), UP, &mut filter, 8, MORE);
    let socket = lend(world, under, UP, &mut filter, 8, MORE);
    world.free(under)?;
    let alone = lend(world, over, DOWN, &mut filter, 8, MORE);
    Ok([unknown, socket, alone])
}

#[test]
fn a_lent_filter_is_refused_as_an_own_one(rt: HostRuntime) {
    let mut world = World::new(rt.alloc());
    let refused = refused(&mut world);
    drop(world);
    let none = Err(WorldFault::NotLive);
    assert_eq!(rt; refused, Ok([none, Err(WorldFault::NoFilter), none]));
}

/// What two steps of one lent filter come to, of which the first ends on a CR, and how many bytes the filter and the one of the
/// bufferevent used.
fn two_steps(world: &mut World) -> Result<([u8; 4], u64, u64), WorldFault> {
    let under = world.new_socket()?;
    let over = world.new_filter(under, HEX_IN, HEX_IN)?;
    let mut filter = AnyFilter::new(FilterKind::ToLf);
    world.feed(under, b"a\r", 5)?;
    let _first = lend(world, over, UP, &mut filter, 8, MORE)?;
    world.feed(under, b"\nb", 6)?;
    let _second = lend(world, over, UP, &mut filter, 8, MORE)?;
    let at = over.0 as usize;
    if at >= world.count() {
        return Err(WorldFault::NotLive);
    }
    Ok((
        held(world, over, UP),
        filter.used(),
        world.filter(at, UP).used(),
    ))
}

#[test]
fn a_lent_filter_goes_on_and_the_own_ones_stay(rt: HostRuntime) {
    let mut world = World::new(rt.alloc());
    let steps = two_steps(&mut world);
    drop(world);
    assert_eq!(rt; steps, Ok((*b"a\nb.", 4, 0)));
}
