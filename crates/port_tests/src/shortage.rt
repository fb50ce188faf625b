// A listener that found the system short of descriptors. The test takes all that its process may have.
use crate::acts::{ANY_PORT, Act, IN_0, first_other};
use crate::loopback::{RealPort, client, has_link};
use ev_port::{Accepted, Polled, Port, Started};
use mio_port::MioPort;
use std::net::{Ipv4Addr, SocketAddr, TcpListener};
use std::test::Fail;

const READY: Polled = Polled::Ready { accept: true };

const QUIET: Polled = Polled::Ready { accept: false };

/// A process that may have more descriptors is given fewer by `ulimit -n`.
const MOST_HELD: usize = 1 << 21;

/// Takes all descriptors that are left.
fn take_all(held: &mut Vec<TcpListener>, listener: &TcpListener) -> Result<(), Fail> {
    for _ in 0..MOST_HELD {
        let Ok(copy) = listener.try_clone() else {
            return Ok(());
        };
        held.push(copy)?;
    }
    Err(Fail::new("this process may have too many descriptors"))
}

/// A link can't be taken, and none is asked for.
const PAUSES: &[Act] = &[
    Act::Accept(0, Accepted::NotYet),
    Act::Poll(&[], true, Some(0), QUIET),
];

/// The pause ends by itself.
const WAITS: &[Act] = &[Act::Poll(&[], true, None, READY)];

/// The pause ends at once, also at the close of an end that isn't there. What waited can be taken as soon as there is a descriptor.
const CLOSES: &[Act] = &[
    Act::Close(IN_0),
    Act::Poll(&[], true, Some(0), READY),
    Act::Poll(&[], true, None, READY),
];

const TAKES: &[Act] = &[Act::Accept(0, Accepted::Link { connected: false })];

/// Whether the first pause, its end, the time that it took, the second pause, its end and what comes behind it are as owed.
fn pauses_twice(port: &mut RealPort<'_>, held: &mut Vec<TcpListener>) -> [bool; 6] {
    let pauses = first_other(port, PAUSES).is_none();
    let before = port.now();
    let goes_on = first_other(port, WAITS).is_none();
    let has_waited = port.now() >= before.saturating_add(90);
    let pauses_again = first_other(port, PAUSES).is_none();
    let goes_on_again = first_other(port, CLOSES).is_none();
    held.clear();
    let takes = first_other(port, TAKES).is_none();
    [
        pauses,
        goes_on,
        has_waited,
        pauses_again,
        goes_on_again,
        takes,
    ]
}

/// A client waits for its link, and there is no descriptor left.
fn runs_short(
    rt: &HostRuntime,
    port: &mut RealPort<'_>,
    held: &mut Vec<TcpListener>,
) -> Result<[bool; 6], Fail> {
    let is_started = port.start(ANY_PORT, ANY_PORT) == Started::Started;
    let _near = client(rt, port)?;
    let listener = TcpListener::bind(rt, SocketAddr::from((Ipv4Addr::LOCALHOST, 0)))?;
    if !is_started || !has_link(port) {
        return Err(Fail::new("no client was seen"));
    }
    take_all(held, &listener)?;
    Ok(pauses_twice(port, held))
}

#[test]
fn a_pause_ends_by_itself_or_at_a_close(rt: HostRuntime) -> Result<(), Fail> {
    let mut held = Vec::new(rt.alloc());
    let mut port = MioPort::new(&rt);
    let went = runs_short(&rt, &mut port, &mut held);
    drop(port);
    drop(held);
    assert_eq!(rt; went?, [true; 6]);
    Ok(())
}
