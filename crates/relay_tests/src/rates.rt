// Limits and rate groups, in rows of fires over two open links: what they leave to sides, and what hooks ask of them.
ghost use Rattle.std.specs.Prelude.{◌≡◌, ◌<◌, length, IfOk};
ghost use Rattle.std.specs.List.{All};

use crate::calls::{IN, OUT};
use crate::fires::{Ask, NOBODY, OTHER, Step, first_wrong, limit};
use ev_types::{AskAnswer, NoMemory, Settings, Why};
use relay_core::{GroupSet, RateGroups, Relay};
use std::alloc::Global;

/// The numbers of the limits of two groups: rate and burst of reading, those of writing, and the tick.
const GROUPS: [[u64; 5]; 2] = [[40, 90, 20, 70, 100], [4, 9, 4, 9, 100]];

/// The least share in either group.
const SHARE: u64 = 3;

fn groups(alloc: Global) -> Result<Vec<GroupSet>, NoMemory>
    ensures few { IfOk result (λ groups. length groups.items ≡ 2) }
    ensures shares { IfOk result (λ groups. All (λ x. 0 < x.share) groups.items) }
{
    let [first, second] = GROUPS;
    let (Some(first), Some(second)) = (limit(first), limit(second)) else {
        return Err(NoMemory);
    };
    let mut groups = Vec::new(alloc);
    groups.push(GroupSet {
        cfg: first,
        share: SHARE,
    })?;
    groups.push(GroupSet {
        cfg: second,
        share: SHARE,
    })?;
    Ok(groups)
}

/// The place of the first step that does not go as it says, of a new relay with two links, of which the first three sides have a hook.
/// The In sides open in the group of number 0 and the Out sides in the other one, or all of them in none.
fn plays(alloc: Global, settings: Settings, in_groups: bool, steps: &[Step]) -> Option<usize> {
    let (Ok(groups), Ok(hooked)) = (groups(alloc), vec![in alloc; true; 3]) else {
        return Some(0);
    };
    let given = RateGroups {
        groups,
        in_group: in_groups.then_some(0),
        out_group: in_groups.then_some(1),
    };
    let Ok(mut relay) = Relay::new(alloc, settings, given, hooked) else {
        return Some(0);
    };
    first_wrong(alloc, &mut relay, steps)
}

const LIMITS: &[Step] = &[
    Step::Begins(10),
    Step::Gets(OUT, b"0123456789"),
    Step::Passes(OUT),
    Step::Rooms(IN, 16_384, 10),
    Step::Asks(
        &[(Ask::Rate(IN, Some([4, 9, 3, 7, 100])), AskAnswer::Ok)],
        false,
    ),
    Step::Rooms(IN, 4, 3),
    Step::Gets(IN, b"abcdef"),
    Step::Gives(IN, 2),
    Step::Rooms(IN, 0, 1),
    // two ticks begin: 8 bytes come to none, and 6 to one
    Step::Begins(250),
    Step::Rooms(IN, 8, 7),
    // another limit keeps the lesser of what is left and its burst
    Step::Asks(
        &[(Ask::Rate(IN, Some([2, 5, 6, 20, 100])), AskAnswer::Ok)],
        false,
    ),
    Step::Rooms(IN, 5, 7),
    Step::Asks(&[(Ask::Rate(IN, None), AskAnswer::Ok)], false),
    Step::Rooms(IN, 16_380, 8),
    // behind none it is the first one again
    Step::Asks(
        &[(Ask::Rate(IN, Some([2, 5, 6, 20, 100])), AskAnswer::Ok)],
        false,
    ),
    Step::Rooms(IN, 2, 6),
    Step::Rooms(OTHER, 16_384, 0),
];

#[test]
fn a_limit_starts_with_its_rates_and_another_one_keeps_what_is_less(rt: HostRuntime) {
    assert_eq!(rt; plays(rt.alloc(), Settings::usual(), false, LIMITS), None);
}

const WAITS: &[Step] = &[
    Step::Begins(10),
    Step::Waits(None),
    Step::Asks(
        &[(Ask::Rate(IN, Some([4, 9, 3, 7, 100])), AskAnswer::Ok)],
        false,
    ),
    Step::Waits(None),
    Step::Gets(IN, b"abcd"),
    Step::Fires(&[(IN, Why::Read)]),
    Step::Waits(Some(90)),
    Step::Begins(100),
    Step::Waits(None),
];

#[test]
fn a_poll_waits_for_the_tick_of_an_empty_limit(rt: HostRuntime) {
    assert_eq!(rt; plays(rt.alloc(), Settings::usual(), false, WAITS), None);
}

const MEMBERS: &[Step] = &[
    Step::Gets(
        OUT,
        b"0123456789012345678901234567890123456789012345678901234567890123",
    ),
    Step::Passes(OUT),
    Step::Rooms(IN, 16_384, 64),
    Step::Asks(
        &[
            (Ask::Join(NOBODY, 2), AskAnswer::NotLive),
            (Ask::Join(IN, 2), AskAnswer::NoGroup),
            (Ask::Leave(IN), AskAnswer::BadValue),
            (Ask::Join(IN, 0), AskAnswer::Ok),
        ],
        false,
    ),
    Step::Rooms(IN, 40, 20),
    // the level is for two
    Step::Asks(&[(Ask::Join(OTHER, 0), AskAnswer::Ok)], false),
    Step::Rooms(IN, 20, 10),
    Step::Rooms(OTHER, 20, 0),
    Step::Asks(&[(Ask::Join(IN, 0), AskAnswer::Ok)], false),
    Step::Rooms(IN, 20, 10),
    // what one moves, both have less
    Step::Gets(IN, b"12345678"),
    Step::Rooms(IN, 16, 10),
    Step::Rooms(OTHER, 16, 0),
    // a member of another group is none of this one
    Step::Asks(&[(Ask::Join(OTHER, 1), AskAnswer::Ok)], false),
    Step::Rooms(IN, 32, 20),
    Step::Rooms(OTHER, 4, 0),
    Step::Asks(
        &[
            (Ask::Join(OTHER, 0), AskAnswer::Ok),
            (Ask::Leave(IN), AskAnswer::Ok),
            (Ask::Leave(IN), AskAnswer::BadValue),
        ],
        false,
    ),
    Step::Rooms(IN, 16_376, 64),
    Step::Rooms(OTHER, 32, 0),
    // nor is one that is freed
    Step::Asks(
        &[
            (Ask::Join(IN, 0), AskAnswer::Ok),
            (Ask::Free(IN), AskAnswer::Ok),
        ],
        false,
    ),
    Step::Rooms(OTHER, 32, 0),
];

#[test]
fn the_members_of_a_group_share_what_is_left(rt: HostRuntime) {
    assert_eq!(rt; plays(rt.alloc(), Settings::usual(), false, MEMBERS), None);
}

const DEBTS: &[Step] = &[
    Step::Begins(10),
    Step::Asks(
        &[
            (Ask::Join(IN, 1), AskAnswer::Ok),
            (Ask::Join(OTHER, 1), AskAnswer::Ok),
        ],
        false,
    ),
    // half of 4 bytes is less than the least share
    Step::Rooms(IN, 3, 0),
    Step::Gets(IN, b"abc"),
    Step::Rooms(OTHER, 3, 0),
    Step::Gets(OTHER, b"abc"),
    Step::Rooms(IN, 0, 0),
    Step::Asks(
        &[
            (Ask::Leave(OTHER), AskAnswer::Ok),
            (Ask::Leave(IN), AskAnswer::Ok),
            (Ask::Join(OTHER, 1), AskAnswer::Ok),
        ],
        false,
    ),
    Step::Rooms(OTHER, 0, 0),
    Step::Fires(&[(IN, Why::Read), (OTHER, Why::Read)]),
    Step::Waits(Some(90)),
    // the tick brings 4 bytes for 2 that are owed, and the next one 4 more
    Step::Begins(100),
    Step::Rooms(OTHER, 0, 0),
    Step::Waits(Some(100)),
    Step::Begins(200),
    Step::Rooms(OTHER, 6, 0),
    Step::Waits(None),
];

#[test]
fn a_group_keeps_what_it_owes_and_goes_on_with_the_least_share(rt: HostRuntime) {
    assert_eq!(rt; plays(rt.alloc(), Settings::usual(), false, DEBTS), None);
}

const OPENED: &[Step] = &[
    Step::Rooms(IN, 15, 0),
    Step::Rooms(OUT, 3, 0),
    Step::Rooms(OTHER, 15, 0),
    Step::Asks(
        &[
            (Ask::Rate(IN, None), AskAnswer::Ok),
            (Ask::Leave(OUT), AskAnswer::Ok),
        ],
        false,
    ),
    Step::Rooms(IN, 20, 0),
    Step::Rooms(OUT, 16_384, 0),
];

#[test]
fn sides_open_with_the_limit_and_in_the_group_of_the_run(rt: HostRuntime) {
    let settings = Settings {
        in_rate: limit([15, 30, 15, 30, 100]),
        ..Settings::usual()
    };
    assert_eq!(rt; plays(rt.alloc(), settings, true, OPENED), None);
}
