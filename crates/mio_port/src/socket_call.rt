// A call of the system on a socket, with what came of it.
use crate::acceptor::NoLink;
use crate::attempt::Attempt;
use crate::check::Check;
use std::net::SocketAddr;

/// A call of the system on a socket. `Came` is one that the listener gave, and `Began` one whose connection was begun to an address;
/// `NoLink` is any call on the way to a link that was refused, with what that means; `Delayed` is the wish that short writes may be kept
/// back for more to follow (Nagle's algorithm), and `Undelayed` that none is, whatever came of it; `Watched` is the number under which it
/// is reported.
///
/// Own.
#[derive(Clone, Copy)]
pub(crate) enum SocketCall {
    Came,
    NoLink(NoLink),
    Began(SocketAddr),
    Delayed,
    Undelayed,
    Watched(usize),
    Read(Attempt),
    Write(Attempt),
    Checked(Check),
    EndedWriting,
}

/// A call with the bytes that it was given, as it left them. A call that has none has an empty slice.
///
/// Own.
#[derive(Clone, Copy, Drop)]
pub(crate) struct CallBytes<'a> {
    pub(crate) call: SocketCall,
    pub(crate) bytes: &'a [u8],
}
