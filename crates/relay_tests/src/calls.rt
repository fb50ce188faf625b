// Calls on a relay whose link of number 0 is played, at a side that is there.

use ev_types::{Cause, NoMemory, ReadAnswer, Side, SideId, WriteAnswer};
use relay_core::Relay;
use std::alloc::Global;

pub(crate) const IN: SideId = SideId {
    link: 0,
    side: Side::In,
};

pub(crate) const OUT: SideId = SideId {
    link: 0,
    side: Side::Out,
};

/// Opens a link whose target is connected, where one is allowed.
pub(crate) fn open(relay: &mut Relay) -> Result<bool, NoMemory> {
    relay.reserve_link()?;
    if !relay.can_open() {
        return Ok(false);
    }
    relay.open(true);
    Ok(true)
}

/// Some bytes are read from an end, as many as may be read now, or its end where there are none.
pub(crate) fn get(
    alloc: Global,
    relay: &mut Relay,
    side: SideId,
    bytes: &[u8],
) -> Result<(), NoMemory> {
    if side.link >= relay.opened() {
        return Ok(());
    }
    let mut block = Vec::new(alloc);
    if bytes.is_empty() {
        relay.read_answered(side, ReadAnswer::Ended, &mut block);
        return Ok(());
    }
    let (bytes, _) = bytes.split_at(bytes.len().min(relay.read_room(side)));
    if bytes.is_empty() {
        return Ok(());
    }
    relay.reserve_read(side, bytes.len())?;
    block.extend_from_slice(bytes)?;
    relay.read_answered(side, ReadAnswer::Got(bytes.len()), &mut block);
    Ok(())
}

/// Some bytes are read from an end, as many as may be read now, or its end where there are none, and the link is passed.
pub(crate) fn read(
    alloc: Global,
    relay: &mut Relay,
    side: SideId,
    bytes: &[u8],
) -> Result<(), NoMemory> {
    get(alloc, relay, side, bytes)?;
    pass(relay, side)?;
    Ok(())
}

/// Passes the link of a side. It answers whether anything changed.
pub(crate) fn pass(relay: &mut Relay, side: SideId) -> Result<bool, NoMemory> {
    if side.link >= relay.opened() {
        return Ok(false);
    }
    relay.pass_link(side.link)
}

/// How many bytes are offered to an end, of which it takes at most so many.
pub(crate) fn give(relay: &mut Relay, side: SideId, most: usize) -> usize {
    if side.link >= relay.opened() {
        return 0;
    }
    let offered = relay.offer(side).len();
    relay.write_answered(side, WriteAnswer::Took(most.min(offered)));
    offered
}

/// How many bytes may be read from an end now, and how many given to it.
pub(crate) fn rooms(relay: &Relay, side: SideId) -> (usize, usize) {
    if side.link >= relay.opened() {
        return (0, 0);
    }
    (relay.read_room(side), relay.write_room(side))
}

/// Why a live side is to be freed.
pub(crate) fn fault(relay: &Relay, side: SideId) -> Option<Cause> {
    let sides = relay.sides();
    if side.link >= sides.opened() || !sides.is_live(side) {
        return None;
    }
    sides.fault(side)
}
