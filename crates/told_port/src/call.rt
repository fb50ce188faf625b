// One call on a port, with what it was answered.
use ev_port::{Accepted, Polled, Want, WantTable};
use ev_types::{Addr, ConnAnswer, ReadAnswer, SideId, WriteAnswer};

/// A call on a port that was answered, without the bytes and the wants that it was given.
///
/// Own.
#[derive(Clone, Copy, Debug, PartialEq, Eq)]
pub enum Call {
    Start(Addr, Addr),
    Now(u64),
    Poll(bool, Option<u64>, Polled),
    Accept(u32, Accepted),
    ConnectState(SideId, ConnAnswer),
    Read(SideId, ReadAnswer),
    Write(SideId, WriteAnswer),
    CloseWrite(SideId),
    Close(SideId),
    StopAccepting,
}

/// A call with the slices that it was given, as it left them. Those that it doesn't have are empty.
///
/// Own.
#[derive(Clone, Copy, Drop)]
pub struct CallWith<'a> {
    pub call: Call,
    pub bytes: &'a [u8],
    pub wants: &'a [Want],
}

/// A poll of a table, as it left the table.
///
/// Own.
#[derive(Clone, Copy, Drop)]
pub struct TablePoll<'a> {
    pub call: Call,
    pub table: &'a WantTable,
}
