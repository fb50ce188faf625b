// What the lines of a script say to a port.

use crate::SideId;
use std::marker::Model;

/// Bytes of a line. Contracts see their list.
///
/// Own.
#[derive(Debug, Drop)]
pub struct ByteList {
    pub bytes: Vec<u8>,
}

impl Model for ByteList {
    ghost use Rattle.std.specs.Prelude.{ℕ, List};

    ghost Value = { List ℕ };

    ghost view = { λ b. b.bytes.items };
}

/// What a line of a turn says to the port.
///
/// Own.
#[derive(Drop)]
pub enum TurnLine {
    /// One more link waits to be accepted; `wait` tells that its Out end is undecided.
    NewLink { wait: bool },
    /// The Out end of this link is connected, or it can't be. The first such line of a link stands.
    Conn(u32, bool),
    /// These bytes come in at the end, behind those before.
    Pending(SideId, ByteList),
    /// The end is ended after its pending bytes.
    Eof(SideId),
    /// Reads of the end fail after its pending bytes.
    ReadFail(SideId),
    /// The end takes so many bytes more, or any number.
    Take(SideId, Option<u64>),
    /// Writes to the end fail once it takes no more bytes.
    WriteFail(SideId),
    /// In this turn the poll marks all that is wanted of the end.
    Spur(SideId),
    /// The poll of this turn fails.
    PollFail,
}
