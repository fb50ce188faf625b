// Streams in pieces, and what a clause leaves open: that a step with ample memory is made. Filters and targets are lent, so that each
// is let go at one place.

use self::Answer::{Bad, Went};
use std::alloc::Global;
use stream_filters::{
    AnyFilter, FilterFault, FilterKind, HexIn, HexOut, Mode, NoFilter, Step, StreamFilter, ToCrlf,
    ToLf, most_step,
};

/// A kind, a stream, and what it comes to with its end.
type Stream = (FilterKind, &'static str, &'static str);

const STREAMS: &[Stream] = &[
    (FilterKind::None, "a\r\nb", "a\r\nb"),
    (FilterKind::ToCrlf, "\na\nb\r\nc\r", "\r\na\r\nb\r\nc\r"),
    (FilterKind::ToCrlf, "\n\n\r\r\n", "\r\n\r\n\r\r\n"),
    (FilterKind::ToLf, "a\r\nb\rc\r\r\n", "a\nb\rc\r\n"),
    (FilterKind::ToLf, "x\r", "x\r"),
    (FilterKind::ToLf, "\r\r\n\n", "\r\n\n"),
    (FilterKind::HexOut, "Az\n", "417a0a"),
    (FilterKind::HexIn, "417A0a", "Az\n"),
    (FilterKind::HexIn, "", ""),
    // more than vectors of sixteen bytes
    (
        FilterKind::ToCrlf,
        "\nseventeen bytes \r\n\n\r\n\n\nand sixteen more\r\r\n one\n behind it.\n",
        "\r\nseventeen bytes \r\n\r\n\r\n\r\n\r\nand sixteen more\r\r\n one\r\n behind it.\r\n",
    ),
    (
        FilterKind::HexOut,
        "sixteen bytes at once, and three",
        "7369787465656e206279746573206174206f6e63652c20616e64207468726565",
    ),
    (
        FilterKind::HexIn,
        "7369787465656e206279746573206174206f6e63652C20616E64207468726565",
        "sixteen bytes at once, and three",
    ),
];

/// How a stream is offered: in pieces of so many bytes, each up to a limit.
#[derive(Clone, Copy, Debug, PartialEq, Eq)]
struct Offer {
    piece: usize,
    limit: usize,
}

/// The first stream that comes to something else where it is offered in small pieces, and how it is offered then.
fn first_other(alloc: Global) -> Option<(usize, Offer)> {
    for (place, stream) in STREAMS.iter().enumerate() {
        for piece in 1..5usize {
            for limit in 1..5usize {
                let offer = Offer { piece, limit };
                if !comes_to(alloc, stream, offer) {
                    return Some((place, offer));
                }
            }
        }
    }
    None
}

fn comes_to(alloc: Global, stream: &Stream, offer: Offer) -> bool {
    let (kind, text, made) = *stream;
    let mut filter = AnyFilter::new(kind);
    let mut target = Vec::new(alloc);
    let mut all = Vec::new(alloc);
    let answer = put_pieces(&mut filter, text.as_bytes(), offer, &mut target, &mut all);
    answer.is_ok() && all.as_slice() == made.as_bytes()
}

/// Puts all that a filter makes of a stream that it is offered in pieces, its target being emptied before each step.
fn put_pieces(
    filter: &mut AnyFilter,
    stream: &[u8],
    offer: Offer,
    target: &mut Vec<u8>,
    all: &mut Vec<u8>,
) -> Result<(), FilterFault> {
    let mut rest = stream;
    for _ in 0..128usize {
        if filter.is_finished() || filter.used() > 1000 {
            break;
        }
        let (offered, behind) = rest.split_at(offer.piece.min(rest.len()));
        let mode = if behind.is_empty() {
            Mode::Finished
        } else {
            Mode::Normal
        };
        target.clear();
        let step = filter.step(offered, target, offer.limit, mode)?;
        all.extend_from_slice(target)?;
        rest = rest.split_at(step.used.min(rest.len())).1;
    }
    Ok(())
}

#[test]
fn pieces_and_limits_make_no_difference(rt: HostRuntime) {
    assert_eq!(rt; first_other(rt.alloc()), None);
}

/// What a step answers: how many bytes it used and whether it finished, or how many it used and the bad place.
#[derive(Clone, Copy)]
enum Answer {
    Went(usize, bool),
    Bad(usize, u64),
}

fn answer_of(answer: Answer) -> Result<Step, FilterFault> {
    match answer {
        Went(used, finished) => Ok(Step { used, finished }),
        Bad(used, place) => Err(FilterFault::BadByte { used, place }),
    }
}

/// A step: its source, the limit, the mode, what it answers, and what is in the target then.
type Part = (&'static str, usize, Mode, Answer, &'static str);

/// The place of the first step that goes otherwise.
fn first_wrong<F: StreamFilter>(
    filter: &mut F,
    target: &mut Vec<u8>,
    parts: &[Part],
) -> Option<usize> {
    for (place, part) in parts.iter().enumerate() {
        if !goes(filter, target, part) {
            return Some(place);
        }
    }
    None
}

fn goes<F: StreamFilter>(filter: &mut F, target: &mut Vec<u8>, part: &Part) -> bool {
    let (source, limit, mode, answer, made) = *part;
    if filter.is_finished() {
        return false;
    }
    filter.step(source.as_bytes(), target, limit, mode) == answer_of(answer)
        && target.as_slice() == made.as_bytes()
}

/// The same with a target that is empty before.
fn plays<F: StreamFilter>(filter: &mut F, alloc: Global, parts: &[Part]) -> Option<usize> {
    let mut target = Vec::new(alloc);
    first_wrong(filter, &mut target, parts)
}

const TEXT: &[Part] = &[(
    "a\r\nb\r",
    usize::MAX,
    Mode::Finished,
    Went(5, true),
    "a\nb\r",
)];

#[test]
fn a_text_is_made_in_one_step(rt: HostRuntime) {
    assert_eq!(rt; plays(&mut ToLf::new(), rt.alloc(), TEXT), None);
}

const HELD_CR: &[Part] = &[
    ("a\r", 100, Mode::Normal, Went(2, false), "a"),
    ("", 1, Mode::Finished, Went(0, false), "a"),
    ("", 2, Mode::Finished, Went(0, true), "a\r"),
];

#[test]
fn a_held_cr_outlives_a_step(rt: HostRuntime) {
    assert_eq!(rt; plays(&mut ToLf::new(), rt.alloc(), HELD_CR), None);
}

const LATE_BAD_BYTE: &[Part] = &[(
    "7369787465656e206279746573206174206f6e63652c2g616e64207468726565",
    100,
    Mode::Finished,
    Bad(45, 45),
    "sixteen bytes at once,",
)];

const BAD_BYTE: &[Part] = &[
    ("41", 100, Mode::Normal, Went(2, false), "A"),
    ("42g4", 100, Mode::Normal, Bad(2, 4), "AB"),
    ("44", 100, Mode::Finished, Bad(0, 4), "AB"),
];

#[test]
fn a_bad_byte_is_told_again(rt: HostRuntime) {
    assert_eq!(rt; plays(&mut HexIn::new(), rt.alloc(), BAD_BYTE), None);
    assert_eq!(rt; plays(&mut HexIn::new(), rt.alloc(), LATE_BAD_BYTE), None);
}

const ODD_DIGIT: &[Part] = &[("414", 100, Mode::Finished, Bad(3, 3), "A")];

#[test]
fn an_odd_digit_is_a_bad_end(rt: HostRuntime) {
    assert_eq!(rt; plays(&mut HexIn::new(), rt.alloc(), ODD_DIGIT), None);
}

const AS_IT_IS: &[Part] = &[("\n", 100, Mode::Flush, Went(1, false), "\n")];

const CRLF_BEHIND: &[Part] = &[("\n", 100, Mode::Normal, Went(1, false), "\n\r\n")];

const DIGITS_BEHIND: &[Part] = &[("\n", 100, Mode::Normal, Went(1, false), "\n\r\n0a")];

/// Three filters one behind another, with the place of the first wrong step of each.
fn own_of_each(target: &mut Vec<u8>) -> [Option<usize>; 3] {
    [
        first_wrong(&mut NoFilter::new(), target, AS_IT_IS),
        first_wrong(&mut ToCrlf::new(), target, CRLF_BEHIND),
        first_wrong(&mut HexOut::new(), target, DIGITS_BEHIND),
    ]
}

#[test]
fn each_filter_makes_its_own(rt: HostRuntime) {
    let mut target = Vec::new(rt.alloc());
    let wrong = own_of_each(&mut target);
    drop(target);
    assert_eq!(rt; wrong, [None; 3]);
}

/// The first stream that is made otherwise by one step in room for its most.
fn first_other_in_room(alloc: Global) -> Option<usize> {
    for (place, stream) in STREAMS.iter().enumerate() {
        if !is_made_in_room(alloc, stream) {
            return Some(place);
        }
    }
    None
}

fn is_made_in_room(alloc: Global, stream: &Stream) -> bool {
    let (kind, text, made) = *stream;
    let mut filter = AnyFilter::new(kind);
    let mut target = Vec::new(alloc);
    let Some((most, used)) = make(&mut filter, text.as_bytes(), &mut target) else {
        return false;
    };
    made.len() <= most
        && (used, filter.stopped()) == (text.len(), None)
        && target.as_slice() == made.as_bytes()
}

/// How many bytes a last step may make at most, for which it makes room, and how many it used.
fn make(filter: &mut AnyFilter, source: &[u8], target: &mut Vec<u8>) -> Option<(usize, usize)> {
    if filter.used() > 0 {
        return None;
    }
    let most = most_step(filter.kind(), source.len(), target.len(), 100);
    target.reserve(most).ok()?;
    Some((most, filter.make(source, target, 100, true)))
}

/// What a filter that gives every byte as it is hands on up to a length of 3, and whether it is finished by the last byte.
fn handed_on() -> (usize, usize, bool) {
    let mut filter = AnyFilter::new(FilterKind::None);
    let first = filter.hand_on(b"abc", 1, 3, true);
    let last = filter.hand_on(b"c", 0, 3, true);
    (first, last, filter.is_finished())
}

#[test]
fn a_step_in_room_is_the_step(rt: HostRuntime) {
    assert_eq!(rt; first_other_in_room(rt.alloc()), None);
    assert_eq!(rt; handed_on(), (2, 1, true));
}
