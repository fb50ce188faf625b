// Calls of a port with what they owe, and the first of a list whose answer is another. What a port is, each test says.
use ev_port::{Accepted, Addr, ConnAnswer, Polled, Port, ReadAnswer, Started, Want, WriteAnswer};
use ev_types::{Side, SideId};

pub(crate) const IN_0: SideId = SideId {
    link: 0,
    side: Side::In,
};

pub(crate) const OUT_0: SideId = SideId {
    link: 0,
    side: Side::Out,
};

/// The system chooses the number.
pub(crate) const ANY_PORT: Addr = Addr {
    ip: [127, 0, 0, 1],
    port: 0,
};

/// The most wants of one poll.
const MOST_WANTS: usize = 2;

/// The most bytes of one read.
const MOST_ROOM: usize = 16;

/// Reading and writing: what is wanted of an end, or what a poll marks of that.
pub(crate) type Ways = (bool, bool);

pub(crate) const BOTH: Ways = (true, true);

pub(crate) const READING: Ways = (true, false);

pub(crate) const WRITING: Ways = (false, true);

pub(crate) const NEITHER: Ways = (false, false);

/// A call and what it owes. A read's room is as long as the bytes that it owes there; those behind what was read are as the
/// read before left them, and zero at first. A poll is asked for what is wanted of each end, and owes the marks
/// behind it.
pub(crate) enum Act {
    Start(Addr, Addr, Started),
    Now(u64),
    Poll(&'static [(SideId, Ways, Ways)], bool, Option<u64>, Polled),
    Accept(u32, Accepted),
    Connects(SideId, ConnAnswer),
    Reads(SideId, ReadAnswer, &'static [u8]),
    Writes(SideId, &'static [u8], WriteAnswer),
    CloseWrite(SideId),
    Close(SideId),
}

pub(crate) fn want((side, wanted, marked): (SideId, Ways, Ways)) -> Want {
    Want {
        side,
        read: wanted.0,
        write: wanted.1,
        can_read: marked.0,
        can_write: marked.1,
    }
}

/// Whether a poll answers so and leaves these marks.
fn polls(
    port: &mut impl Port,
    owed: &[(SideId, Ways, Ways)],
    accept: bool,
    timeout: Option<u64>,
    answer: Polled,
) -> bool {
    let mut wants = [want((IN_0, NEITHER, NEITHER)); MOST_WANTS];
    if owed.len() > MOST_WANTS {
        return false;
    }
    for (asked, (side, wanted, _)) in wants.iter_mut().zip(owed) {
        *asked = want((*side, *wanted, NEITHER));
    }
    let (asked, _) = wants.split_at_mut(owed.len());
    if port.poll(asked, accept, timeout) != answer {
        return false;
    }
    for (got, marked) in asked.iter().zip(owed) {
        if *got != want(*marked) {
            return false;
        }
    }
    true
}

/// Whether a read answers so, and leaves these bytes in its room.
fn reads(
    port: &mut impl Port,
    end: SideId,
    into: &mut [u8; MOST_ROOM],
    answer: ReadAnswer,
    owed: &[u8],
) -> bool {
    if owed.is_empty() || owed.len() > MOST_ROOM {
        return false;
    }
    let (room, _) = into.split_at_mut(owed.len());
    port.read(end, room) == answer && &*room == owed
}

fn answers(port: &mut impl Port, into: &mut [u8; MOST_ROOM], act: &Act) -> bool {
    match act {
        Act::Start(listen, to, answer) => port.start(*listen, *to) == *answer,
        Act::Now(time) => port.now() == *time,
        Act::Poll(owed, accept, timeout, answer) => polls(port, owed, *accept, *timeout, *answer),
        Act::Accept(link, answer) => port.accept(*link) == *answer,
        Act::Connects(end, answer) => port.connect_state(*end) == *answer,
        Act::Reads(end, answer, owed) => reads(port, *end, into, *answer, owed),
        Act::Writes(end, bytes, answer) => {
            !bytes.is_empty() && port.write(*end, bytes) == *answer
        }
        Act::CloseWrite(end) => {
            port.close_write(*end);
            true
        }
        Act::Close(end) => {
            port.close(*end);
            true
        }
    }
}

/// The place of the first call that answers otherwise.
pub(crate) fn first_other(port: &mut impl Port, acts: &[Act]) -> Option<usize> {
    let mut into = [0; MOST_ROOM];
    for (place, act) in acts.iter().enumerate() {
        if !answers(port, &mut into, act) {
            return Some(place);
        }
    }
    None
}
