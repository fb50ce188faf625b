// Bytes that go through the filters of a link's sides, and where each filter may stop. The relay is lent, so that it is let go at one
// place.

use crate::calls::{IN, OUT, fault, give, open, pass, read};
use ev_types::{Cause, FilterKind, NoMemory};
use relay_core::{RateGroups, Relay, Settings};
use std::alloc::Global;

/// A run of one direction: its filters, the hold mark, what is read at In in two pieces before its end, what is given to Out
/// by then, and why either side is to be freed.
#[derive(Clone, Copy)]
struct Run {
    in_read: FilterKind,
    out_write: FilterKind,
    hold: u64,
    first: &'static [u8],
    second: &'static [u8],
    given: &'static [u8],
    faults: (Option<Cause>, Option<Cause>),
}

/// The filters alone and together, and where each may stop.
const RUNS: &[Run] = &[
    Run {
        in_read: FilterKind::ToCrlf,
        out_write: FilterKind::None,
        hold: 100,
        first: b"a\nb\r",
        second: b"\nc\n",
        given: b"a\r\nb\r\nc\r\n",
        faults: (None, None),
    },
    // a CR is held between two reads, and given at the end
    Run {
        in_read: FilterKind::None,
        out_write: FilterKind::ToLf,
        hold: 100,
        first: b"a\r",
        second: b"\nb\r",
        given: b"a\nb\r",
        faults: (None, None),
    },
    // the place counts from the first byte that was read
    Run {
        in_read: FilterKind::HexIn,
        out_write: FilterKind::None,
        hold: 100,
        first: b"616",
        second: b"2zz",
        given: b"ab",
        faults: (Some(Cause::Filter(4)), None),
    },
    // the write filter's bad place is that of the side it gives to
    Run {
        in_read: FilterKind::None,
        out_write: FilterKind::HexIn,
        hold: 100,
        first: b"6",
        second: b"g",
        given: b"",
        faults: (None, Some(Cause::Filter(1))),
    },
    // two digits a byte pass a mark of three
    Run {
        in_read: FilterKind::HexOut,
        out_write: FilterKind::HexIn,
        hold: 3,
        first: b"\x01\xab\xff",
        second: b"zyxw",
        given: b"\x01\xab\xffzyxw",
        faults: (None, None),
    },
    Run {
        in_read: FilterKind::ToLf,
        out_write: FilterKind::HexOut,
        hold: 3,
        first: b"\x01\r",
        second: b"\n\xff",
        given: b"010aff",
        faults: (None, None),
    },
];

/// The place of the first run whose bytes or faults are others.
fn first_other(alloc: Global) -> Option<usize> {
    for (place, run) in RUNS.iter().enumerate() {
        if !goes(alloc, run) {
            return Some(place);
        }
    }
    None
}

fn goes(alloc: Global, run: &Run) -> bool {
    let settings = Settings {
        hold: run.hold,
        in_read: run.in_read,
        out_write: run.out_write,
        ..Settings::usual()
    };
    let Ok(mut relay) = Relay::new(alloc, settings, RateGroups::none(alloc), Vec::new(alloc)) else {
        return false;
    };
    gives(alloc, &mut relay, run) && (fault(&relay, IN), fault(&relay, OUT)) == run.faults
}

/// Opens a link and plays a run. Whether Out is given what it should be, and no more.
fn gives(alloc: Global, relay: &mut Relay, run: &Run) -> bool {
    if open(relay) != Ok(true) {
        return false;
    }
    let mut rest = run.given;
    for piece in [run.first, run.second, b""] {
        let Ok(Some(behind)) = gives_piece(alloc, relay, piece, rest) else {
            return false;
        };
        rest = behind;
    }
    rest.is_empty()
}

/// Some bytes are read at In, and Out is given what comes of them, a few times. What of these bytes stands behind those, where they
/// begin so.
fn gives_piece<'a>(
    alloc: Global,
    relay: &mut Relay,
    piece: &[u8],
    bytes: &'a [u8],
) -> Result<Option<&'a [u8]>, NoMemory> {
    read(alloc, relay, IN, piece)?;
    let mut rest = bytes;
    for _ in 0..4 {
        let Some(behind) = behind_offer(relay, rest) else {
            return Ok(None);
        };
        rest = behind;
        give(relay, OUT, usize::MAX);
        pass(relay, IN)?;
    }
    Ok(Some(rest))
}

fn behind_offer<'a>(relay: &Relay, bytes: &'a [u8]) -> Option<&'a [u8]> {
    if OUT.link >= relay.opened() {
        return None;
    }
    let offer = relay.offer(OUT);
    let (front, behind) = bytes.split_at(offer.len().min(bytes.len()));
    if front != offer {
        return None;
    }
    Some(behind)
}

#[test]
fn bytes_pass_through_the_filters_of_both_sides(rt: HostRuntime) {
    assert_eq!(rt; first_other(rt.alloc()), None);
}
