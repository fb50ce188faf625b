// Fires of hooks over two open links: what is due, what a hook asks, and all that is recorded of it. Each hook asks lines of a script.
ghost use Rattle.std.specs.Prelude.{◌≡◌, true, []};

use crate::calls::{IN, OUT, get, give, open, pass, rooms};
use ev_types::{
    Act, AskAnswer, Cause, ConnAnswer, Dir, Entry, Flags, LimitCfg, NoMemory, PlanLine, Settings,
    Side, SideId, Why, WhyKind,
};
use relay_core::{AskFault, Counts, Hook, Lengths, RateGroups, Relay};
use script_hook::ScriptHook;
use std::alloc::Global;

pub(crate) const OTHER: SideId = SideId {
    link: 1,
    side: Side::In,
};

/// A side that is never opened.
pub(crate) const NOBODY: SideId = SideId {
    link: 9,
    side: Side::In,
};

/// What is done to a relay, and what is seen of it.
#[derive(Clone, Copy)]
pub(crate) enum Step {
    /// A turn begins at a reading of the clock.
    Begins(u64),
    /// Some bytes are read from an end, as many as may be read now, or its end where there are none.
    Gets(SideId, &'static [u8]),
    /// The direction from a side is passed.
    Passes(SideId),
    /// An end takes at most so many bytes.
    Gives(SideId, usize),
    /// A connect check is answered.
    Connects(SideId, ConnAnswer),
    /// What is to be fired as a dispatch begins, in order.
    Fires(&'static [(SideId, Why)]),
    /// The hook of In of link 0 is called and asks this; what each ask is answered, and whether the run is stopped.
    Asks(&'static [(Ask, AskAnswer)], bool),
    /// In how many milliseconds something is to be done.
    Waits(Option<u64>),
    /// Whether the sides In and Out of link 0 and In of link 1 are live.
    Live(bool, bool, bool),
    /// The bytes in the buffers of a side.
    Holds(SideId, Result<Lengths, AskFault>),
    /// What was counted of a side.
    Counts(SideId, Result<Counts, AskFault>),
    /// The first four bytes of the input of a side.
    Peeks(SideId, [u8; 4]),
    /// How many bytes may be read from an end now, and how many given to it.
    Rooms(SideId, usize, usize),
}

/// An act of a hook, as a constant can have it.
#[derive(Clone, Copy)]
pub(crate) enum Ask {
    Free(SideId),
    Enable(SideId, Dir),
    Disable(SideId, Dir),
    Marks(SideId, Dir, u64, u64),
    Timeouts(SideId, u64, u64),
    /// The numbers of a limit, or none: rate and burst of reading, those of writing, and the tick.
    Rate(SideId, Option<[u64; 5]>),
    Join(SideId, u32),
    Leave(SideId),
    Trigger(SideId, Dir),
    Timer(SideId, u64),
    Cancel(SideId),
    Incref(SideId),
    Decref(SideId),
    Stop,
}

pub(crate) fn limit(
    [read_rate, read_burst, write_rate, write_burst, tick]: [u64; 5],
) -> Option<LimitCfg> {
    LimitCfg::new(read_rate, read_burst, write_rate, write_burst, tick).ok()
}

fn act(ask: Ask) -> Act {
    match ask {
        Ask::Free(side) => Act::Free(side),
        Ask::Enable(side, dir) => Act::Enable(side, dir),
        Ask::Disable(side, dir) => Act::Disable(side, dir),
        Ask::Marks(side, dir, low, high) => Act::Marks(side, dir, low, high),
        Ask::Timeouts(side, read, write) => Act::Timeouts(side, read, write),
        Ask::Rate(side, None) => Act::Rate(side, None),
        Ask::Rate(side, Some(numbers)) => Act::Rate(side, limit(numbers)),
        Ask::Join(side, group) => Act::Join(side, group),
        Ask::Leave(side) => Act::Leave(side),
        Ask::Trigger(side, dir) => Act::Trigger(side, dir),
        Ask::Timer(side, delay) => Act::Timer(side, delay),
        Ask::Cancel(side) => Act::Cancel(side),
        Ask::Incref(side) => Act::Incref(side),
        Ask::Decref(side) => Act::Decref(side),
        Ask::Stop => Act::Stop,
    }
}

/// A line for the first read reason.
fn line(ask: Ask) -> PlanLine {
    PlanLine {
        why: WhyKind::Read,
        nth: 1,
        act: Some(act(ask)),
    }
}

fn lines(alloc: Global, asks: &[(Ask, AskAnswer)]) -> Result<Vec<PlanLine>, NoMemory> {
    let mut lines = Vec::new(alloc);
    for pair in asks {
        lines.push(line(pair.0))?;
    }
    Ok(lines)
}

/// Calls a hook of these lines once at In of link 0, for reading, where that is live.
fn fire(alloc: Global, relay: &mut Relay, asks: &[(Ask, AskAnswer)]) -> Result<bool, NoMemory> {
    let lines = lines(alloc, asks)?;
    let mut script = ScriptHook::new(alloc);
    script.plan(&lines)?;
    let mut hook: Box<dyn Hook> = Box::new(alloc, script)?;
    relay.reserve_fire()?;
    if !relay.ctl().live(IN) {
        return Ok(false);
    }
    relay.fire(IN, Why::Read, &mut hook)?;
    Ok(true)
}

/// What is recorded of asks that were answered so.
fn log_of(alloc: Global, relay: &Relay, asks: &[(Ask, AskAnswer)]) -> Result<Vec<Entry>, NoMemory> {
    let mut log = Vec::new(alloc);
    for (ask, answer) in asks {
        log.push(Entry::Asked {
            side: IN,
            act: act(*ask),
            answer: *answer,
        })?;
        if let (Ask::Free(side), AskAnswer::Ok) = (*ask, *answer) {
            log.push(freed(relay, side))?;
        }
    }
    Ok(log)
}

/// That a hook freed a side, with what was counted of it.
fn freed(relay: &Relay, side: SideId) -> Entry {
    let counts = counts(relay, side);
    Entry::Freed {
        side,
        cause: Cause::Hook,
        moved: counts.moved,
        given: counts.given,
    }
}

fn counts(relay: &Relay, side: SideId) -> Counts {
    if side.link >= relay.opened() {
        return Counts {
            read: 0,
            moved: 0,
            given: 0,
        };
    }
    relay.sides().counts(side)
}

fn asks(alloc: Global, relay: &mut Relay, asks: &[(Ask, AskAnswer)], stopped: bool) -> bool {
    if fire(alloc, relay, asks) != Ok(true) || relay.has_stopped() != stopped {
        return false;
    }
    match log_of(alloc, relay, asks) {
        Ok(log) => relay.fired() == log.as_slice() && relay.ctl().me() == IN,
        Err(_) => false,
    }
}

/// Takes what is left to fire. Whether that was little.
fn is_drained(relay: &mut Relay) -> bool
    ensures { result ≡ true → relay.new.state.batch ≡ [] }
{
    for _ in 0..9 {
        if relay.next_due().is_none() {
            return true;
        }
    }
    false
}

fn fires(relay: &mut Relay, reasons: &[(SideId, Why)]) -> bool {
    if !is_drained(relay) {
        return false;
    }
    relay.begin_batch();
    for reason in reasons {
        if relay.next_due() != Some(*reason) {
            return false;
        }
    }
    relay.next_due().is_none()
}

fn begins(relay: &mut Relay, reading: u64) -> bool {
    if relay.is_spent() {
        return false;
    }
    relay.begin(reading) == reading && relay.ctl().now() == reading
}

fn connects(relay: &mut Relay, side: SideId, answer: ConnAnswer) -> bool {
    if side.link >= relay.opened() {
        return false;
    }
    relay.connect_answered(side, answer);
    true
}

fn peeked(relay: &Relay, side: SideId) -> [u8; 4] {
    let mut first = [0; 4];
    let _ = relay.ctl().peek(side, &mut first);
    first
}

fn live(relay: &Relay) -> (bool, bool, bool) {
    let ctl = relay.ctl();
    (ctl.live(IN), ctl.live(OUT), ctl.live(OTHER))
}

fn goes(alloc: Global, relay: &mut Relay, step: Step) -> bool {
    match step {
        Step::Begins(reading) => begins(relay, reading),
        Step::Gets(side, bytes) => get(alloc, relay, side, bytes).is_ok(),
        Step::Passes(side) => pass(relay, side).is_ok(),
        Step::Gives(side, most) => give(relay, side, most) > 0,
        Step::Connects(side, answer) => connects(relay, side, answer),
        Step::Fires(reasons) => fires(relay, reasons),
        Step::Asks(pairs, stopped) => asks(alloc, relay, pairs, stopped),
        Step::Waits(wait) => relay.poll_timeout() == wait,
        Step::Live(near, far, other) => live(relay) == (near, far, other),
        Step::Holds(side, lengths) => relay.ctl().lengths(side) == lengths,
        Step::Counts(side, counts) => relay.ctl().counts(side) == counts,
        Step::Peeks(side, bytes) => peeked(relay, side) == bytes,
        Step::Rooms(side, read, write) => rooms(relay, side) == (read, write),
    }
}

/// The place of the first step that does not go as it says.
pub(crate) fn first_wrong(alloc: Global, relay: &mut Relay, steps: &[Step]) -> Option<usize> {
    if open(relay) != Ok(true) || open(relay) != Ok(true) {
        return Some(0);
    }
    for (place, step) in steps.iter().enumerate() {
        if !goes(alloc, relay, *step) {
            return Some(place);
        }
    }
    None
}

/// The same of a new relay with two links, of which the first three sides have a hook.
fn plays(alloc: Global, steps: &[Step]) -> Option<usize> {
    let Ok(hooked) = vec![in alloc; true; 3] else {
        return Some(0);
    };
    let Ok(mut relay) = Relay::new(alloc, Settings::usual(), RateGroups::none(alloc), hooked) else {
        return Some(0);
    };
    first_wrong(alloc, &mut relay, steps)
}

const ITSELF: &[Step] = &[
    Step::Gets(IN, b"abc"),
    Step::Gets(IN, b""),
    Step::Asks(
        &[
            (Ask::Free(IN), AskAnswer::Ok),
            (Ask::Free(IN), AskAnswer::NotLive),
            (Ask::Cancel(OUT), AskAnswer::Ok),
        ],
        false,
    ),
    Step::Live(false, true, true),
    Step::Fires(&[]),
];

#[test]
fn a_hook_that_freed_its_own_side_asks_on(rt: HostRuntime) {
    assert_eq!(rt; plays(rt.alloc(), ITSELF), None);
}

const NEIGHBOURS: &[Step] = &[
    Step::Gets(OUT, b"ab"),
    Step::Gets(OTHER, b"cd"),
    Step::Gets(IN, b"ef"),
    Step::Asks(
        &[
            (Ask::Free(OUT), AskAnswer::Ok),
            (Ask::Free(OTHER), AskAnswer::Ok),
        ],
        false,
    ),
    Step::Live(true, false, false),
    Step::Fires(&[(IN, Why::Read)]),
];

#[test]
fn a_side_that_a_hook_frees_loses_its_reasons(rt: HostRuntime) {
    assert_eq!(rt; plays(rt.alloc(), NEIGHBOURS), None);
}

const MARK: u64 = 1 << 24;

const LONG: u64 = 1 << 40;

const REFUSALS: &[Step] = &[Step::Asks(
    &[
        (
            Ask::Marks(NOBODY, Dir::Read, MARK + 1, 0),
            AskAnswer::NotLive,
        ),
        (Ask::Marks(OUT, Dir::Read, MARK + 1, 0), AskAnswer::BadValue),
        (
            Ask::Marks(OUT, Dir::Write, 0, MARK + 1),
            AskAnswer::BadValue,
        ),
        (Ask::Marks(OUT, Dir::Write, MARK, MARK), AskAnswer::Ok),
        (Ask::Timeouts(NOBODY, LONG + 1, 0), AskAnswer::NotLive),
        (Ask::Timeouts(OUT, LONG + 1, 0), AskAnswer::BadValue),
        (Ask::Timeouts(OUT, 0, LONG + 1), AskAnswer::BadValue),
        (Ask::Rate(NOBODY, None), AskAnswer::NotLive),
        (Ask::Join(NOBODY, 0), AskAnswer::NotLive),
        (Ask::Join(OUT, 0), AskAnswer::NoGroup),
        (Ask::Leave(NOBODY), AskAnswer::NotLive),
        (Ask::Leave(OUT), AskAnswer::BadValue),
        (Ask::Timer(NOBODY, LONG + 1), AskAnswer::NotLive),
        (Ask::Timer(OUT, LONG + 1), AskAnswer::BadValue),
        (Ask::Timer(OUT, LONG), AskAnswer::Ok),
        (Ask::Decref(NOBODY), AskAnswer::NotLive),
        (Ask::Decref(OUT), AskAnswer::BadValue),
        (Ask::Incref(NOBODY), AskAnswer::NotLive),
        (Ask::Enable(NOBODY, Dir::Read), AskAnswer::NotLive),
        (Ask::Disable(NOBODY, Dir::Write), AskAnswer::NotLive),
        (Ask::Trigger(NOBODY, Dir::Read), AskAnswer::NotLive),
        (Ask::Cancel(NOBODY), AskAnswer::NotLive),
        (Ask::Free(NOBODY), AskAnswer::NotLive),
    ],
    false,
)];

#[test]
fn the_first_refusal_of_an_ask_is_answered(rt: HostRuntime) {
    assert_eq!(rt; plays(rt.alloc(), REFUSALS), None);
}

const REFERENCES: &[Step] = &[
    Step::Gets(OUT, b"abc"),
    Step::Asks(
        &[
            (Ask::Incref(OUT), AskAnswer::Ok),
            (Ask::Free(OUT), AskAnswer::Ok),
            (Ask::Incref(OUT), AskAnswer::NotLive),
            (Ask::Stop, AskAnswer::Ok),
        ],
        true,
    ),
    Step::Counts(
        OUT,
        Ok(Counts {
            read: 3,
            moved: 0,
            given: 0,
        }),
    ),
    Step::Holds(OUT, Err(AskFault::NotLive)),
    Step::Asks(
        &[
            (Ask::Decref(OUT), AskAnswer::Ok),
            (Ask::Decref(OUT), AskAnswer::NotLive),
        ],
        false,
    ),
    Step::Counts(OUT, Err(AskFault::NotLive)),
];

#[test]
fn the_counts_of_a_freed_side_are_told_while_it_has_a_reference(rt: HostRuntime) {
    assert_eq!(rt; plays(rt.alloc(), REFERENCES), None);
}

const TIMERS: &[Step] = &[
    Step::Begins(10),
    Step::Waits(None),
    Step::Asks(
        &[
            (Ask::Timer(IN, 5), AskAnswer::Ok),
            (Ask::Timer(OUT, 3), AskAnswer::Ok),
            (Ask::Timer(OUT, 7), AskAnswer::Ok),
        ],
        false,
    ),
    Step::Waits(Some(5)),
    Step::Begins(14),
    Step::Fires(&[]),
    Step::Begins(15),
    Step::Waits(Some(0)),
    Step::Fires(&[(IN, Why::Timer)]),
    Step::Asks(&[(Ask::Cancel(OUT), AskAnswer::Ok)], false),
    Step::Waits(None),
    Step::Begins(20),
    Step::Fires(&[]),
];

#[test]
fn a_side_has_one_timer_and_loses_it_as_it_comes(rt: HostRuntime) {
    assert_eq!(rt; plays(rt.alloc(), TIMERS), None);
}

const REASONS: &[Step] = &[
    Step::Gets(OUT, b"abcde"),
    Step::Gets(IN, b"f"),
    Step::Gets(OUT, b""),
    Step::Connects(OUT, ConnAnswer::Pending),
    Step::Connects(OUT, ConnAnswer::Connected),
    Step::Peeks(OUT, *b"abcd"),
    Step::Peeks(NOBODY, [0; 4]),
    Step::Holds(
        OUT,
        Ok(Lengths {
            raw_input: 0,
            input: 5,
            output: 0,
            raw_output: 0,
        }),
    ),
    Step::Fires(&[
        (OUT, Why::Connected),
        (OUT, Why::Read),
        (OUT, Why::Event(Flags(0x11))),
        (IN, Why::Read),
    ]),
    Step::Asks(
        &[
            (Ask::Trigger(IN, Dir::Write), AskAnswer::Ok),
            (Ask::Trigger(IN, Dir::Read), AskAnswer::Ok),
            (Ask::Marks(OUT, Dir::Read, 6, 0), AskAnswer::Ok),
            (Ask::Trigger(OUT, Dir::Read), AskAnswer::Ok),
        ],
        false,
    ),
    Step::Fires(&[(IN, Why::Read), (IN, Why::Write)]),
];

#[test]
fn the_reasons_of_a_side_are_fired_in_order_where_it_has_a_hook(rt: HostRuntime) {
    assert_eq!(rt; plays(rt.alloc(), REASONS), None);
}

/// How many asks of a fire are recorded, of a hook that cancels a timer 300 times; 0 where it was not called.
fn recorded(alloc: Global, relay: &mut Relay) -> usize {
    let acts = [(Ask::Cancel(IN), AskAnswer::Ok); 300];
    if open(relay) != Ok(true) || fire(alloc, relay, &acts) != Ok(true) {
        return 0;
    }
    relay.fired().len()
}

fn most_recorded(alloc: Global) -> usize {
    let Ok(mut relay) = Relay::new(
        alloc,
        Settings::usual(),
        RateGroups::none(alloc),
        Vec::new(alloc),
    ) else {
        return 0;
    };
    recorded(alloc, &mut relay)
}

#[test]
fn the_257th_ask_of_a_fire_is_not_recorded(rt: HostRuntime) {
    assert_eq!(rt; most_recorded(rt.alloc()), 256);
}
