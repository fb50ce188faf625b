// Passages through a filter, also in two pieces of which the second is the last. The bufferevents are lent, so that each is let go
// at one place.
ghost use Rattle.std.specs.Prelude.{◌≡◌, false};

use self::Answer::{Bad, Went};
use bev_core::{Bev, Dir};
use bev_filter::{PassFault, process_input, process_output, reserve_step, step_reserved};
use ev_types::NoMemory;
use std::alloc::Global;
use stream_filters::{AnyFilter, FilterKind, Mode, Step, StreamFilter};

/// Bytes that pass a filter between two bufferevents.
#[derive(Clone, Copy)]
enum Row {
    /// What comes under the filter first and last, the limit, what the last passage answers, and what came over it.
    Up(&'static str, &'static str, usize, Answer, &'static str),
    /// What is written over the filter, what the passage answers, and what came under it.
    Down(&'static str, Answer, &'static str),
    /// As `Up`, in room that was made: how many bytes were made, and what is left under the filter and came over it.
    Steps(&'static str, &'static str, usize, u64, &'static str, &'static str),
}

/// What a passage answers: how many bytes it used and whether it finished, or the bad place.
#[derive(Clone, Copy)]
enum Answer {
    Went(usize, bool),
    Bad(u64),
}

fn answer_of(answer: Answer) -> Result<Step, PassFault> {
    match answer {
        Went(used, finished) => Ok(Step { used, finished }),
        Bad(place) => Err(PassFault::Filter(place)),
    }
}

/// The place of the first row whose bytes pass otherwise.
fn first_wrong(alloc: Global, rows: &[(FilterKind, Row)]) -> Option<usize> {
    for (place, (kind, row)) in rows.iter().enumerate() {
        if !passes_anew(alloc, *kind, *row) {
            return Some(place);
        }
    }
    None
}

fn passes_anew(alloc: Global, kind: FilterKind, row: Row) -> bool {
    let mut under = Bev::fresh(alloc);
    let mut over = Bev::fresh(alloc);
    let mut filter = AnyFilter::new(kind);
    passes(&mut under, &mut over, &mut filter, row)
}

fn passes(under: &mut Bev, over: &mut Bev, filter: &mut AnyFilter, row: Row) -> bool
    requires one_piece { under.old.chunked ≡ false }
    requires over_one_piece { over.old.chunked ≡ false }
{
    match row {
        Row::Up(first, last, limit, answer, made) => {
            pass_piece(under, over, filter, first, limit, Mode::Normal) == answer_of(Went(2, false))
                && pass_piece(under, over, filter, last, limit, Mode::Finished) == answer_of(answer)
                && over.piece(Dir::Read) == Some(made.as_bytes())
        }
        Row::Down(text, answer, made) => {
            pass_output(under, over, filter, text) == answer_of(answer)
                && under.piece(Dir::Write) == Some(made.as_bytes())
        }
        Row::Steps(first, last, limit, count, left, made) => {
            steps(under, over, filter, first, last, limit) == Ok(count)
                && under.piece(Dir::Read) == Some(left.as_bytes())
                && over.piece(Dir::Read) == Some(made.as_bytes())
        }
    }
}

/// Adds a piece to the input under the filter, and passes what is there.
fn pass_piece(
    under: &mut Bev,
    over: &mut Bev,
    filter: &mut AnyFilter,
    piece: &str,
    limit: usize,
    mode: Mode,
) -> Result<Step, PassFault> {
    under.feed(Dir::Read, piece.as_bytes())?;
    if filter.is_finished() || !under.state().live || !over.state().live {
        return Err(PassFault::Memory);
    }
    process_input(under, over, filter, limit, mode)
}

/// Passes the output over the filter, which ends there.
fn pass_output(
    under: &mut Bev,
    over: &mut Bev,
    filter: &mut AnyFilter,
    text: &str,
) -> Result<Step, PassFault> {
    over.write(text.as_bytes())?;
    if filter.is_finished() || !under.state().live || !over.state().live {
        return Err(PassFault::Memory);
    }
    process_output(under, over, filter, 100, Mode::Finished)
}

/// How many bytes two pieces make, of which the second is the last.
fn steps(
    under: &mut Bev,
    over: &mut Bev,
    filter: &mut AnyFilter,
    first: &str,
    last: &str,
    limit: usize,
) -> Result<u64, NoMemory>
    requires one_piece { under.old.chunked ≡ false }
    requires over_one_piece { over.old.chunked ≡ false }
    ensures one_piece { under.new.chunked ≡ false }
    ensures over_one_piece { over.new.chunked ≡ false }
{
    let made = step_piece(under, over, filter, first, limit, false, 0)?;
    step_piece(under, over, filter, last, limit, true, made)
}

/// Adds a piece to the input under the filter, and passes what is there in room that it makes. How many bytes were made by then.
fn step_piece(
    under: &mut Bev,
    over: &mut Bev,
    filter: &mut AnyFilter,
    piece: &str,
    limit: usize,
    last: bool,
    made: u64,
) -> Result<u64, NoMemory>
    requires one_piece { under.old.chunked ≡ false }
    requires over_one_piece { over.old.chunked ≡ false }
    ensures one_piece { under.new.chunked ≡ false }
    ensures over_one_piece { over.new.chunked ≡ false }
{
    under.make_room(Dir::Read, piece.len())?;
    under.feed_reserved(Dir::Read, piece.as_bytes());
    let mut beside = Vec::new(under.allocator());
    let answer = step_beside(under, over, filter, limit, last, &mut beside, made);
    drop(beside);
    answer
}

fn step_beside(
    under: &mut Bev,
    over: &mut Bev,
    filter: &mut AnyFilter,
    limit: usize,
    last: bool,
    beside: &mut Vec<u8>,
    made: u64,
) -> Result<u64, NoMemory>
    requires one_piece { under.old.chunked ≡ false }
    requires over_one_piece { over.old.chunked ≡ false }
    ensures one_piece { under.new.chunked ≡ false }
    ensures over_one_piece { over.new.chunked ≡ false }
{
    let count = under.len(Dir::Read);
    if filter.used() > u64::MAX - count as u64 {
        return Err(NoMemory);
    }
    reserve_step(filter.kind(), count, over, Dir::Read, beside, limit, made)?;
    Ok(step_reserved(under, over, Dir::Read, filter, limit, last, beside, made))
}

const PIECES: &[(FilterKind, Row)] = &[
    (
        FilterKind::ToLf,
        Row::Up("a\r", "\nb", 100, Went(2, true), "a\nb"),
    ),
    (
        FilterKind::ToLf,
        Row::Up("a\r", "b\r", 100, Went(2, true), "a\rb\r"),
    ),
    (FilterKind::HexIn, Row::Up("41", "4g", 100, Bad(3), "A")),
    (
        FilterKind::HexOut,
        Row::Up("ab", "c", 5, Went(1, true), "616263"),
    ),
    (
        FilterKind::HexOut,
        Row::Up("ab", "c", 4, Went(0, false), "6162"),
    ),
    (
        FilterKind::None,
        Row::Up("ab", "cd", 100, Went(2, true), "abcd"),
    ),
    (
        FilterKind::None,
        Row::Up("ab", "cd", 3, Went(1, false), "abc"),
    ),
];

#[test]
fn a_stream_passes_in_pieces(rt: HostRuntime) {
    assert_eq!(rt; first_wrong(rt.alloc(), PIECES), None);
}

const OUTPUTS: &[(FilterKind, Row)] = &[(
    FilterKind::ToCrlf,
    Row::Down("a\nb", Went(3, true), "a\r\nb"),
)];

#[test]
fn an_output_passes_down(rt: HostRuntime) {
    assert_eq!(rt; first_wrong(rt.alloc(), OUTPUTS), None);
}

const STEPS: &[(FilterKind, Row)] = &[
    (
        FilterKind::ToLf,
        Row::Steps("a\r", "\nb", 100, 3, "", "a\nb"),
    ),
    (
        FilterKind::ToLf,
        Row::Steps("a\r", "b\r", 100, 4, "", "a\rb\r"),
    ),
    (FilterKind::HexIn, Row::Steps("41", "4g", 100, 1, "g", "A")),
    (
        FilterKind::HexOut,
        Row::Steps("ab", "c", 5, 6, "", "616263"),
    ),
    (FilterKind::HexOut, Row::Steps("ab", "c", 4, 4, "c", "6162")),
    (FilterKind::None, Row::Steps("ab", "cd", 100, 4, "", "abcd")),
    (FilterKind::None, Row::Steps("ab", "cd", 3, 3, "d", "abc")),
];

#[test]
fn steps_in_room_that_was_made_are_those_of_the_stream(rt: HostRuntime) {
    assert_eq!(rt; first_wrong(rt.alloc(), STEPS), None);
}
