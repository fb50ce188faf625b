// One step of a run.
ghost use Rattle.std.specs.Prelude.{◌≡◌};
ghost use Rattle.ev_types.specs.Trace.{bytes_beside};

use crate::{Act, AskAnswer, Cause, ConnAnswer, ReadAnswer, SideId, Why, WriteAnswer};

/// One step of a run, as the trace records it. The bytes that a read got and that a write took stand beside the
/// entry and not in it. Times are in milliseconds, rooms, offers and counts in bytes.
///
/// Own.
#[derive(Clone, Copy, Debug, PartialEq, Eq)]
pub enum Entry {
    /// A turn begins.
    Turn {
        ms: u64,
    },
    /// The port is to be polled.
    Poll {
        timeout: Option<u64>,
    },
    /// What a side wants of the poll.
    Want {
        side: SideId,
        read: bool,
        write: bool,
    },
    /// What the poll marked of that.
    Ready {
        side: SideId,
        read: bool,
        write: bool,
    },
    /// The poll failed.
    PollFailed,
    /// A link was accepted; `connected` tells whether its Out end is connected already.
    Opened {
        link: u32,
        connected: bool,
    },
    /// A connecting end was asked for its state.
    Conn {
        side: SideId,
        answer: ConnAnswer,
    },
    /// An end was read with this room.
    Read {
        side: SideId,
        room: u64,
        answer: ReadAnswer,
    },
    /// An end was offered so many bytes.
    Write {
        side: SideId,
        offered: u64,
        answer: WriteAnswer,
    },
    /// A hook was called.
    Fired {
        side: SideId,
        why: Why,
    },
    /// What the hook of this side asked, and what it was answered.
    Asked {
        side: SideId,
        act: Act,
        answer: AskAnswer,
    },
    /// A side was freed; `moved` counts the bytes that went from its input to its peer's output, `given` those
    /// that its own end took.
    Freed {
        side: SideId,
        cause: Cause,
        moved: u64,
        given: u64,
    },
    /// Writing was ended at an end.
    CloseWrite {
        side: SideId,
    },
    /// An end was closed.
    Close {
        side: SideId,
    },
}

impl Entry {
    /// How many bytes stand beside the entry. Constant cost.
    pub fn byte_count(&self) -> usize
        ensures { result ≡ bytes_beside self.now }
    {
        match self {
            Entry::Read {
                answer: ReadAnswer::Got(count),
                ..
            } => *count,
            Entry::Write {
                answer: WriteAnswer::Took(count),
                ..
            } => *count,
            _ => 0,
        }
    }
}
