// Calls in their order, and what a clause leaves open: that room is made where there is memory. What is due is lent, so that it is
// let go at one place.

use deferred_cb::{Due, Flags, NoMemory, Why};
use std::alloc::Global;
use std::test::Fail;

/// A call on what is due, with its answer.
#[derive(Clone, Copy)]
enum Act {
    /// A reason becomes due of an owner, for whom room is made.
    Raises(u64, Why),
    Forgets(u64),
    /// The batch is used up, and the next begins.
    Begins,
    Calls(u64, Why),
    IsUsedUp,
    IsEmpty(bool),
}

/// Whether a call answers as it says.
fn answers(due: &mut Due, act: Act) -> bool {
    match act {
        Act::Raises(owner, why) => raise(due, owner, why).is_ok(),
        Act::Forgets(owner) => forget(due, owner),
        Act::Begins => begin(due),
        Act::Calls(owner, why) => due.take_turn() == Some((owner, why)),
        Act::IsUsedUp => due.take_turn().is_none(),
        Act::IsEmpty(empty) => due.is_empty() == empty,
    }
}

fn raise(due: &mut Due, owner: u64, why: Why) -> Result<(), NoMemory> {
    due.reserve(1)?;
    due.schedule(owner, why);
    Ok(())
}

fn forget(due: &mut Due, owner: u64) -> bool {
    due.forget(owner);
    true
}

fn begin(due: &mut Due) -> bool {
    if due.take_turn().is_some() {
        return false;
    }
    due.begin();
    true
}

/// The place of the first act that does not answer as it says.
fn first_wrong(due: &mut Due, acts: &[Act]) -> Option<usize> {
    for (place, act) in acts.iter().enumerate() {
        if !answers(due, *act) {
            return Some(place);
        }
    }
    None
}

/// The same where nothing is due before.
fn plays(alloc: Global, acts: &[Act]) -> Option<usize> {
    let mut due = Due::new(alloc);
    first_wrong(&mut due, acts)
}

const JOINED: &[Act] = &[
    Act::Raises(7, Why::Timer),
    Act::Raises(3, Why::Event(Flags(0x11))),
    Act::Raises(7, Why::Read),
    Act::Raises(3, Why::Connected),
    Act::Raises(3, Why::Event(Flags(0x22))),
    Act::Raises(9, Why::Write),
    Act::Raises(7, Why::Timer),
    Act::Begins,
    Act::Raises(3, Why::Write),
    Act::Calls(7, Why::Read),
    Act::Calls(7, Why::Timer),
    Act::Calls(3, Why::Connected),
    Act::Calls(3, Why::Event(Flags(0x33))),
    Act::Calls(9, Why::Write),
    Act::IsUsedUp,
    Act::IsEmpty(false),
];

#[test]
fn reasons_are_joined_and_in_order(rt: HostRuntime) {
    assert_eq!(rt; plays(rt.alloc(), JOINED), None);
}

const FORGOTTEN: &[Act] = &[
    Act::Raises(1, Why::Read),
    Act::Raises(2, Why::Read),
    Act::Raises(1, Why::Timer),
    Act::Begins,
    Act::Raises(1, Why::Write),
    Act::Calls(1, Why::Read),
    Act::Forgets(1),
    Act::Calls(2, Why::Read),
    Act::IsUsedUp,
    Act::IsEmpty(true),
];

#[test]
fn a_forgotten_owner_is_not_called(rt: HostRuntime) {
    assert_eq!(rt; plays(rt.alloc(), FORGOTTEN), None);
}

const ONE_OF_THREE_FORGOTTEN: &[Act] = &[
    Act::Raises(7, Why::Timer),
    Act::Raises(3, Why::Event(Flags(0x11))),
    Act::Raises(7, Why::Read),
    Act::Raises(3, Why::Connected),
    Act::Raises(3, Why::Event(Flags(0x22))),
    Act::Raises(9, Why::Write),
    Act::Raises(7, Why::Timer),
    Act::Forgets(3),
    Act::Raises(3, Why::Timer),
    Act::Begins,
    Act::Calls(7, Why::Read),
    Act::Calls(7, Why::Timer),
    Act::Calls(9, Why::Write),
    Act::Calls(3, Why::Timer),
    Act::IsEmpty(true),
];

#[test]
fn owners_keep_their_order_where_one_is_forgotten(rt: HostRuntime) {
    assert_eq!(rt; plays(rt.alloc(), ONE_OF_THREE_FORGOTTEN), None);
}
