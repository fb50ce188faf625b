// Two links beside one another, with the answers of the ends played by hand. The sides are lent, so that they are let go at one
// place.
ghost use Rattle.std.specs.Prelude.{◌≡◌, None};

use ev_types::{FilterKind, NoMemory, Side, SideId};
use relay_sides::{Marks, NewSide, Sides, SpareLimits, Timeouts};
use std::alloc::Global;

const HOLD: u64 = 100;

const IN: SideId = SideId {
    link: 0,
    side: Side::In,
};

const OUT: SideId = SideId {
    link: 0,
    side: Side::Out,
};

const OTHER_IN: SideId = SideId {
    link: 1,
    side: Side::In,
};

const OTHER_OUT: SideId = SideId {
    link: 1,
    side: Side::Out,
};

/// A call on the sides with its answer, or what is seen of them then.
#[derive(Clone, Copy)]
enum Act {
    /// A link is opened whose bytes go through a filter at the end Out.
    Opens(FilterKind),
    Opened(u32),
    /// Bytes are read from an end, and the link is passed; whether that changed anything.
    Reads(SideId, &'static [u8], bool),
    /// The first bytes that wait for an end.
    Waiting(SideId, [u8; 4]),
    /// An end takes all that waits for it; how many bytes.
    Takes(SideId, usize),
}

/// Whether a call answers as it says, or what is seen is as it says.
fn answers(alloc: Global, sides: &mut Sides, spare: &mut SpareLimits, act: Act) -> bool {
    match act {
        Act::Opens(write) => open(sides, spare, write).is_ok(),
        Act::Opened(count) => sides.opened() == count,
        Act::Reads(from, bytes, changed) => read(alloc, sides, from, bytes) == Ok(changed),
        Act::Waiting(to, bytes) => waiting(sides, to) == bytes,
        Act::Takes(to, count) => take(sides, to) == count,
    }
}

/// What a side is opened with that gives through a filter, without a limit.
fn new_side(write: FilterKind) -> NewSide
    ensures { result.limit ≡ None }
{
    NewSide {
        marks: Marks::none(),
        timeouts: Timeouts::none(),
        read: FilterKind::None,
        write,
        limit: None,
        group: None,
        connected: true,
    }
}

fn open(sides: &mut Sides, spare: &mut SpareLimits, write: FilterKind) -> Result<(), NoMemory> {
    sides.reserve_link()?;
    sides.open(new_side(FilterKind::None), new_side(write), 0, 1, spare);
    Ok(())
}

fn read(alloc: Global, sides: &mut Sides, from: SideId, bytes: &[u8]) -> Result<bool, NoMemory> {
    if from.link >= sides.opened() || bytes.is_empty() {
        return Ok(false);
    }
    sides.reserve_read(from, bytes.len())?;
    let mut block = Vec::new(alloc);
    block.extend_from_slice(bytes)?;
    sides.got(from, &mut block, bytes.len(), 7);
    sides.pass_link(from.link, HOLD)
}

fn take(sides: &mut Sides, to: SideId) -> usize {
    if to.link >= sides.opened() {
        return 0;
    }
    let count = sides.waiting_for(to).len();
    sides.took(to, count, 9);
    count
}

/// Bytes that wait for an end, as far as they fit.
fn waiting(sides: &Sides, to: SideId) -> [u8; 4] {
    let mut first = [0; 4];
    if to.link < sides.opened() {
        let bytes = sides.waiting_for(to);
        let count = bytes.len().min(4);
        let (front, _) = bytes.split_at(count);
        let (target, _) = first.split_at_mut(count);
        target.copy_from_slice(front);
    }
    first
}

/// The place of the first act that does not answer as it says.
fn first_wrong(
    alloc: Global,
    sides: &mut Sides,
    spare: &mut SpareLimits,
    acts: &[Act],
) -> Option<usize> {
    for (place, act) in acts.iter().enumerate() {
        if !answers(alloc, sides, spare, *act) {
            return Some(place);
        }
    }
    None
}

/// The same where no link is open before.
fn plays(alloc: Global, acts: &[Act]) -> Option<usize> {
    let mut sides = Sides::new(alloc);
    let mut spare = SpareLimits::new(alloc);
    first_wrong(alloc, &mut sides, &mut spare, acts)
}

const TWO_LINKS: &[Act] = &[
    Act::Opens(FilterKind::None),
    Act::Opens(FilterKind::HexOut),
    Act::Opened(2),
    Act::Reads(IN, b"ab", true),
    Act::Reads(OTHER_IN, b"ab", true),
    Act::Waiting(OUT, [b'a', b'b', 0, 0]),
    Act::Waiting(OTHER_OUT, [b'6', b'1', b'6', b'2']),
    Act::Waiting(IN, [0, 0, 0, 0]),
    Act::Takes(OTHER_OUT, 4),
    Act::Takes(OTHER_OUT, 0),
    Act::Takes(OUT, 2),
];

#[test]
fn two_links_do_not_meet(rt: HostRuntime) {
    assert_eq!(rt; plays(rt.alloc(), TWO_LINKS), None);
}
