// A port over loopback, and the sockets of its clients and of its target. Nothing here waits for ever: a poll that has to come to
// something is made so often at most, and a read of a socket ends after some seconds.
use crate::acts::{ANY_PORT, NEITHER, OUT_0, READING, WRITING, Ways, want};
use ev_port::{Accepted, Addr, ConnAnswer, Polled, Port, ReadAnswer, Started};
use ev_types::SideId;
use mio_port::MioPort;
use std::net::{Ipv4Addr, SocketAddr, TcpListener, TcpStream};
use std::test::Fail;
use std::time::Duration;

pub(crate) const MOST_POLLS: u32 = 1000;

pub(crate) const MOST_WAIT: u64 = 10;

const MOST_SECONDS: u64 = 5;

pub(crate) type RealPort<'a> = MioPort<'a, HostRuntime>;

/// A port that has the link 0, with the client and the target of that. A far end that went is none.
#[derive(Drop)]
pub(crate) struct World<'a> {
    pub(crate) port: RealPort<'a>,
    pub(crate) near: TcpStream,
    pub(crate) far: Option<TcpStream>,
}

/// Connects to where the port listens.
pub(crate) fn client(rt: &HostRuntime, port: &RealPort<'_>) -> Result<TcpStream, Fail> {
    let Some(addr) = port.local() else {
        return Err(Fail::new("the port has no address"));
    };
    let stream = TcpStream::connect(rt, SocketAddr::from((Ipv4Addr::from(addr.ip), addr.port)))?;
    stream.set_read_timeout(Some(Duration::from_secs(MOST_SECONDS)))?;
    Ok(stream)
}

/// Polls until an end is marked so, and says whether that came.
pub(crate) fn is_marked(port: &mut RealPort<'_>, end: SideId, ways: Ways) -> bool {
    for _ in 0..MOST_POLLS {
        let mut wants = [want((end, ways, NEITHER))];
        if port.poll(&mut wants, false, Some(MOST_WAIT)) != (Polled::Ready { accept: false }) {
            return false;
        }
        if wants == [want((end, ways, ways))] {
            return true;
        }
    }
    false
}

/// Polls until a link waits, and says whether that came.
pub(crate) fn has_link(port: &mut RealPort<'_>) -> bool {
    for _ in 0..MOST_POLLS {
        if port.poll(&mut [], true, Some(MOST_WAIT)) == (Polled::Ready { accept: true }) {
            return true;
        }
    }
    false
}

/// Polls until a link waits, and takes it. Its connection to the target is not made yet.
pub(crate) fn accepts(port: &mut RealPort<'_>, link: u32) -> bool {
    has_link(port) && port.accept(link) == (Accepted::Link { connected: false })
}

/// Whether an end reads these bytes up to its end.
pub(crate) fn says(port: &mut RealPort<'_>, end: SideId, owed: &[u8]) -> bool {
    let mut buffer = [0; 16];
    let mut left = owed;
    for _ in 0..MOST_POLLS {
        if !is_marked(port, end, READING) {
            return false;
        }
        match port.read(end, &mut buffer) {
            ReadAnswer::Got(count) => {
                let (got, _) = buffer.split_at(count);
                let Some(rest) = left.strip_prefix(got) else {
                    return false;
                };
                left = rest;
            }
            ReadAnswer::Ended => return left.is_empty(),
            ReadAnswer::NotYet => {}
            ReadAnswer::Failed => return false,
        }
    }
    false
}

fn listener(rt: &HostRuntime) -> Result<(TcpListener, Addr), Fail> {
    let listener = TcpListener::bind(rt, SocketAddr::from((Ipv4Addr::LOCALHOST, 0)))?;
    let SocketAddr::V4(addr) = listener.local_addr()? else {
        return Err(Fail::new("no address of IPv4"));
    };
    let ip = addr.ip().octets();
    let port = addr.port();
    Ok((listener, Addr { ip, port }))
}

/// Starts the port, and joins a client and a target that took its connection.
pub(crate) fn join(
    rt: &HostRuntime,
    port: &mut RealPort<'_>,
) -> Result<(TcpStream, TcpStream), Fail> {
    let (listener, addr) = listener(rt)?;
    let started = port.start(ANY_PORT, addr) == Started::Started;
    let near = client(rt, port)?;
    let joined = started
        && accepts(port, 0)
        && is_marked(port, OUT_0, WRITING)
        && port.connect_state(OUT_0) == ConnAnswer::Connected;
    if !joined {
        return Err(Fail::new("no link was made"));
    }
    let (far, _from) = listener.accept()?;
    far.set_read_timeout(Some(Duration::from_secs(MOST_SECONDS)))?;
    Ok((near, far))
}

/// The port and its link.
pub(crate) fn new_world(rt: &HostRuntime) -> Result<World<'_>, Fail> {
    let mut port = MioPort::new(rt);
    let (near, far) = join(rt, &mut port)?;
    Ok(World {
        port,
        near,
        far: Some(far),
    })
}
