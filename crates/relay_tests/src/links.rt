// Whole links, with the answers of the ends played by hand. The relay is lent, so that it is let go at one place.

use crate::calls::{IN, OUT, fault, get, give, open, pass, read};
use ev_types::{Cause, FilterKind, LinkCount, LinkState, ReadAnswer, SideId};
use relay_core::{Closing, Marks, RateGroups, Relay, Settings, Timeouts};
use std::alloc::Global;

/// A call on a relay with its answer, or what is seen of it then. The link of number 0 is meant.
#[derive(Clone, Copy)]
enum Act {
    /// A turn begins at a reading of the clock; what the time is then.
    Begins(u64, u64),
    /// A turn begins at a reading of the clock; for how long its poll may wait.
    Turns(u64, Option<u64>),
    /// A link is opened whose target is connected.
    Opens,
    /// Some bytes are read from an end, as many as may be read now, or its end where there are none.
    Gets(SideId, &'static [u8]),
    /// They are read, and the direction is passed.
    Reads(SideId, &'static [u8]),
    /// The direction is passed.
    PassesOn(SideId),
    /// The direction is passed; whether anything changed.
    Passes(SideId, bool),
    /// An end takes at most so many bytes; how many it was offered.
    Gives(SideId, usize, usize),
    /// A read fails at an end; why the side is to be freed.
    Fails(SideId, Option<Cause>),
    /// The steps of closing that are called for.
    Closes,
    Sees(View),
}

/// Values of a relay, and of its link of number 0.
#[derive(Clone, Copy)]
enum View {
    Time(u64),
    PollTimeout(Option<u64>),
    Turns(u64),
    IsUntimed(bool),
    IsSpent(bool),
    Buffered(u64),
    Opened(u32),
    OpenLinks(u32),
    Count(u32, Option<LinkCount>),
    /// Whether it is open, and whether a count of it has come far.
    Link(bool, bool),
    Room(SideId, usize),
    Fault(SideId, Option<Cause>),
}

/// Whether a call answers as it says, or what is seen is as it says.
fn answers(alloc: Global, relay: &mut Relay, act: Act) -> bool {
    match act {
        Act::Begins(reading, time) => begin(relay, reading) == Some(time),
        Act::Turns(reading, wait) => turn(relay, reading) == wait,
        Act::Opens => open(relay) == Ok(true),
        Act::Gets(side, bytes) => get(alloc, relay, side, bytes).is_ok(),
        Act::Reads(side, bytes) => read(alloc, relay, side, bytes).is_ok(),
        Act::PassesOn(side) => pass(relay, side).is_ok(),
        Act::Passes(side, changed) => pass(relay, side) == Ok(changed),
        Act::Gives(side, most, offered) => give(relay, side, most) == offered,
        Act::Fails(side, cause) => fail(alloc, relay, side) == cause,
        Act::Closes => close(relay),
        Act::Sees(view) => sees(relay, view),
    }
}

fn sees(relay: &Relay, view: View) -> bool {
    match view {
        View::Time(time) => relay.time() == time,
        View::PollTimeout(wait) => relay.poll_timeout() == wait,
        View::Turns(count) => relay.turns() == count,
        View::IsUntimed(untimed) => relay.is_untimed() == untimed,
        View::IsSpent(spent) => relay.is_spent() == spent,
        View::Buffered(count) => relay.buffered() == count,
        View::Opened(count) => relay.opened() == count,
        View::OpenLinks(count) => relay.open_links() == count,
        View::Count(link, count) => relay.link(link) == count,
        View::Link(open, far) => seen(relay) == (open, far),
        View::Room(side, room) => room_of(relay, side) == room,
        View::Fault(side, cause) => fault(relay, side) == cause,
    }
}

fn begin(relay: &mut Relay, reading: u64) -> Option<u64> {
    if relay.is_spent() {
        return None;
    }
    Some(relay.begin(reading))
}

fn turn(relay: &mut Relay, reading: u64) -> Option<u64> {
    let _time = begin(relay, reading);
    relay.poll_timeout()
}

fn fail(alloc: Global, relay: &mut Relay, side: SideId) -> Option<Cause> {
    if side.link < relay.opened() {
        relay.read_answered(side, ReadAnswer::Failed, &mut Vec::new(alloc));
    }
    fault(relay, side)
}

fn room_of(relay: &Relay, side: SideId) -> usize {
    if side.link >= relay.opened() {
        return 0;
    }
    relay.read_room(side)
}

fn seen(relay: &Relay) -> (bool, bool) {
    if relay.opened() == 0 {
        return (false, false);
    }
    (relay.is_open(0), relay.sides().has_spent_count(0))
}

fn close(relay: &mut Relay) -> bool {
    for step in Closing::of(0) {
        close_step(relay, step);
    }
    true
}

fn close_step(relay: &mut Relay, step: Closing) {
    let own = match step {
        Closing::Faulty(side)
        | Closing::EndWriting(side)
        | Closing::PeerGone(side)
        | Closing::Shut(side) => side.link,
        Closing::BothDone(link) => link,
    };
    if own < relay.opened() && relay.calls_for(step) {
        relay.close(step);
    }
}

/// The place of the first act that does not answer as it says.
fn first_wrong(alloc: Global, relay: &mut Relay, acts: &[Act]) -> Option<usize> {
    for (place, act) in acts.iter().enumerate() {
        if !answers(alloc, relay, *act) {
            return Some(place);
        }
    }
    None
}

/// The same of a new relay.
fn plays(alloc: Global, settings: Settings, acts: &[Act]) -> Option<usize> {
    let Ok(mut relay) = Relay::new(alloc, settings, RateGroups::none(alloc), Vec::new(alloc)) else {
        return Some(0);
    };
    first_wrong(alloc, &mut relay, acts)
}

const DONE: LinkCount = LinkCount {
    state: LinkState::Done,
    in_read: 5,
    in_given: 0,
    out_read: 0,
    out_given: 5,
};

const WHOLE_LINK: &[Act] = &[
    Act::Begins(7, 7),
    Act::Sees(View::Time(7)),
    Act::Sees(View::PollTimeout(None)),
    Act::Sees(View::Turns(1)),
    Act::Sees(View::IsUntimed(true)),
    Act::Opens,
    Act::Sees(View::Link(true, false)),
    Act::Reads(IN, b"hello"),
    Act::Sees(View::Buffered(5)),
    Act::Gives(OUT, 2, 5),
    Act::Gives(OUT, 9, 3),
    Act::Reads(IN, b""),
    Act::Closes,
    Act::Reads(OUT, b""),
    Act::Closes,
    Act::Sees(View::Count(0, Some(DONE))),
    Act::Sees(View::Count(1, None)),
    Act::Sees(View::Opened(1)),
    Act::Sees(View::OpenLinks(0)),
    Act::Sees(View::Link(false, false)),
    Act::Sees(View::IsSpent(false)),
];

#[test]
fn a_link_passes_bytes_and_ends(rt: HostRuntime) {
    assert_eq!(rt; plays(rt.alloc(), Settings::usual(), WHOLE_LINK), None);
}

const PASSINGS: &[Act] = &[
    Act::Opens,
    Act::Gets(IN, b"one"),
    Act::Passes(IN, true),
    Act::Passes(IN, false),
    Act::Passes(OUT, false),
    Act::Gets(IN, b"two"),
    Act::Passes(IN, true),
    Act::Passes(IN, false),
    Act::Passes(OUT, false),
    Act::Gets(IN, b""),
    Act::Passes(IN, true),
    Act::Passes(IN, false),
    Act::Passes(OUT, false),
];

#[test]
fn passing_tells_whether_anything_changed(rt: HostRuntime) {
    assert_eq!(rt; plays(rt.alloc(), Settings::usual(), PASSINGS), None);
}

const HELD: &[Act] = &[
    Act::Opens,
    Act::Reads(IN, b"0123456789"),
    Act::Gives(OUT, 1, 4),
    Act::PassesOn(IN),
    Act::Gives(OUT, 1, 3),
    Act::PassesOn(IN),
    Act::Gives(OUT, 4, 4),
    Act::PassesOn(IN),
    Act::Gives(OUT, 4, 4),
    Act::PassesOn(IN),
];

#[test]
fn a_held_direction_goes_on_at_half_of_the_hold_mark(rt: HostRuntime) {
    let settings = Settings {
        out_marks: Marks {
            write_high: 4,
            ..Marks::none()
        },
        ..Settings::usual()
    };
    assert_eq!(rt; plays(rt.alloc(), settings, HELD), None);
}

const GONE: LinkCount = LinkCount {
    state: LinkState::Gone,
    in_read: 0,
    in_given: 0,
    out_read: 0,
    out_given: 0,
};

const FAILED: &[Act] = &[
    Act::Opens,
    Act::Fails(IN, Some(Cause::Failed)),
    Act::Sees(View::Fault(OUT, None)),
    Act::Closes,
    Act::Sees(View::Count(0, Some(GONE))),
];

#[test]
fn a_side_whose_read_failed_is_freed(rt: HostRuntime) {
    assert_eq!(rt; plays(rt.alloc(), Settings::usual(), FAILED), None);
}

const UP_TO_THE_MARK: &[Act] = &[
    Act::Opens,
    Act::Sees(View::Room(IN, 6)),
    Act::Sees(View::Room(OUT, 16_384)),
    Act::Gets(IN, b"abcd"),
    Act::Sees(View::Room(IN, 2)),
    Act::Gets(IN, b"efgh"),
    Act::Sees(View::Room(IN, 0)),
    Act::Sees(View::Buffered(6)),
    Act::PassesOn(IN),
    Act::Sees(View::Room(IN, 6)),
];

#[test]
fn a_side_is_read_up_to_its_high_mark(rt: HostRuntime) {
    let settings = Settings {
        in_marks: Marks {
            read_high: 6,
            ..Marks::none()
        },
        ..Settings::usual()
    };
    assert_eq!(rt; plays(rt.alloc(), settings, UP_TO_THE_MARK), None);
}

const WITH_GREAT_MARKS: &[Act] = &[
    Act::Opens,
    Act::Gets(IN, b"ab"),
    Act::Gets(IN, b"cd"),
    Act::PassesOn(IN),
    Act::Reads(IN, b"ef"),
    Act::Gives(OUT, 6, 6),
];

#[test]
fn a_great_mark_takes_no_more_room_than_comes(rt: HostRuntime) {
    let great = Marks {
        read_high: u64::MAX,
        write_high: u64::MAX,
        ..Marks::none()
    };
    let settings = Settings {
        in_marks: great,
        out_marks: great,
        ..Settings::usual()
    };
    assert_eq!(rt; plays(rt.alloc(), settings, WITH_GREAT_MARKS), None);
}

const IDLE: &[Act] = &[
    Act::Turns(10, None),
    Act::Opens,
    Act::Reads(IN, b"x"),
    Act::Turns(10, Some(5)),
    Act::Turns(14, Some(1)),
    Act::Turns(15, Some(0)),
    Act::Sees(View::Fault(IN, Some(Cause::Timeout))),
    Act::Sees(View::Fault(OUT, None)),
    Act::Closes,
    Act::Turns(99, None),
    Act::Sees(View::OpenLinks(1)),
    Act::Gives(OUT, 1, 1),
    Act::Closes,
    Act::Sees(View::OpenLinks(0)),
];

#[test]
fn an_idle_side_is_freed_and_its_peer_gets_what_waits(rt: HostRuntime) {
    let settings = Settings {
        in_timeouts: Timeouts {
            read_ms: 5,
            ..Timeouts::none()
        },
        ..Settings::usual()
    };
    assert_eq!(rt; plays(rt.alloc(), settings, IDLE), None);
}

const BAD_PLACES: &[Act] = &[
    Act::Opens,
    Act::Reads(OUT, b"00q"),
    Act::Sees(View::Fault(IN, Some(Cause::Filter(2)))),
    Act::Reads(IN, b"z"),
    Act::Sees(View::Fault(IN, Some(Cause::Filter(2)))),
    Act::Sees(View::Fault(OUT, None)),
    Act::Closes,
    Act::Sees(View::OpenLinks(0)),
];

#[test]
fn the_first_bad_place_of_a_side_is_told(rt: HostRuntime) {
    let settings = Settings {
        in_read: FilterKind::HexIn,
        in_write: FilterKind::HexIn,
        ..Settings::usual()
    };
    assert_eq!(rt; plays(rt.alloc(), settings, BAD_PLACES), None);
}
