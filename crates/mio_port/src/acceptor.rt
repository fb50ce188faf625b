// The listener, where its links are connected to, and when it can be asked for another link.
ghost use Rattle.std.specs.Prelude.{◌≡◌, ◌∷◌, [], None, Some, is_none, is_some, true, false, Err, IfOk, if◌then◌else◌};
ghost use Rattle.mio_port.specs.Acceptor.{no_link_of, addr_of, shut_acceptor, opened_acceptor, is_open, after_time, faulty_acceptor};
ghost use Rattle.mio_port.specs.Kernels.{told_link};

use crate::kernel::Kernel;
use crate::scarce::{came_broken, is_scarce};
use crate::socket::{Socket, plain};
use crate::socket_call::SocketCall;
use crate::socket_log::SocketLog;
use ev_port::Addr;
use mio::net::TcpListener;
use mio::{Interest, Registry, Token};
use std::io;
use std::io::ErrorKind;
use std::net::{Ipv4Addr, Net, SocketAddr};

/// A listener, the address that it was told to listen at, and what else the system was asked of it.
///
/// Own.
#[derive(Drop)]
pub(crate) struct Listener {
    socket: TcpListener,
    at: SocketAddr,
    log: SocketLog,
}

/// The listener and the target of its links. It is ready once the kernel told that a link waits, and until an accept finds
/// none. It is paused, up to a time of the port's clock, where the system had no descriptor or no memory for a link.
///
/// Own.
#[derive(Drop)]
pub(crate) struct Acceptor {
    listener: Option<Listener>,
    target: Option<SocketAddr>,
    ready: bool,
    paused_to: Option<u64>,
    faults: u64,
}

/// Why the listener gave no connection. `Again` is one that went before it could be taken or that came broken, or a call that was
/// interrupted: another may wait.
///
/// Own.
#[derive(Clone, Copy)]
pub(crate) enum NoLink {
    NoneWaits,
    Again,
    Scarce,
    Failed,
}

/// What an error on the way to a link means.
pub(crate) fn no_link_of(error: &io::Error) -> NoLink
    ensures { result ≡ no_link_of error.now }
{
    match error.kind() {
        ErrorKind::WouldBlock => NoLink::NoneWaits,
        ErrorKind::Interrupted | ErrorKind::ConnectionAborted => NoLink::Again,
        _ if is_scarce(error) => NoLink::Scarce,
        _ if came_broken(error) => NoLink::Again,
        _ => NoLink::Failed,
    }
}

pub(crate) fn socket_addr(addr: Addr) -> SocketAddr
    ensures { addr_of result ≡ Some addr }
{
    let [a, b, c, d] = addr.ip;
    SocketAddr::from((Ipv4Addr::new(a, b, c, d), addr.port))
}

pub(crate) fn addr_of(addr: SocketAddr) -> Option<Addr>
    ensures { result ≡ addr_of addr }
{
    match addr {
        SocketAddr::V4(addr) => Some(Addr {
            ip: addr.ip().octets(),
            port: addr.port(),
        }),
        SocketAddr::V6(_) => None,
    }
}

impl Listener {
    /// One that listens at this address.
    pub(crate) fn bind<R: Net>(rt: &R, at: SocketAddr) -> io::Result<Listener>
        ensures at { IfOk result (λ made. made.at ≡ at) }
        ensures log { IfOk result (λ made. made.log.calls ≡ []) }
    {
        Ok(Listener {
            socket: TcpListener::bind(rt, at)?,
            at,
            log: SocketLog::new(),
        })
    }

    /// Has it reported under this number where a link waits.
    pub(crate) fn watch(&mut self, registry: &Registry, number: usize) -> io::Result<()>
        ensures at { self.new.at ≡ self.old.at }
        ensures told { self.new.log.calls ≡ (SocketCall.Watched number, []) ∷ self.old.log.calls }
    {
        self.log = self.log.then(&plain(SocketCall::Watched(number)));
        registry.register(&mut self.socket, Token(number), Interest::READABLE)
    }
}

impl Acceptor {
    pub(crate) fn new() -> Acceptor
        ensures { result ≡ shut_acceptor 0 }
    {
        Acceptor {
            listener: None,
            target: None,
            ready: false,
            paused_to: None,
            faults: 0,
        }
    }

    /// Drops the listener.
    pub(crate) fn shut(&mut self)
        ensures { self.new ≡ shut_acceptor self.old.faults }
    {
        self.listener = None;
        self.target = None;
        self.ready = false;
        self.paused_to = None;
    }

    pub(crate) fn open(&mut self, listener: Listener, target: SocketAddr)
        ensures { self.new ≡ opened_acceptor listener target self.old.faults }
    {
        self.shut();
        self.listener = Some(listener);
        self.target = Some(target);
    }

    pub(crate) fn local(&self) -> Option<Addr>
        ensures { is_none self.now.listener ≡ true → result ≡ None }
    {
        addr_of(self.listener.as_ref()?.socket.local_addr().ok()?)
    }

    pub(crate) fn target(&self) -> Option<SocketAddr>
        ensures { result ≡ self.now.target }
    {
        self.target
    }

    /// A link can be asked for.
    pub(crate) fn is_open(&self) -> bool
        ensures { result ≡ is_open self.now }
    {
        self.ready && self.paused_to.is_none()
    }

    pub(crate) fn pause_end(&self) -> Option<u64>
        ensures { result ≡ self.now.paused_to }
    {
        self.paused_to
    }

    pub(crate) fn notice(&mut self)
        ensures { self.new ≡ record self.old { ready = true } }
    {
        self.ready = true;
    }

    pub(crate) fn ran_out(&mut self)
        ensures { self.new ≡ record self.old { ready = false } }
    {
        self.ready = false;
    }

    pub(crate) fn pause(&mut self, to: u64)
        ensures { self.new ≡ record self.old { paused_to = Some to } }
    {
        self.paused_to = Some(to);
    }

    pub(crate) fn end_pause(&mut self)
        ensures { self.new ≡ record self.old { paused_to = None } }
    {
        self.paused_to = None;
    }

    /// It is this time: a pause that reached its end is over.
    pub(crate) fn pass_time(&mut self, time: u64)
        ensures { self.new ≡ after_time self.old time }
    {
        if matches!(self.paused_to, Some(to) if to <= time) {
            self.paused_to = None;
        }
    }

    pub(crate) fn count_fault(&mut self)
        ensures { self.new ≡ faulty_acceptor self.old }
    {
        self.faults = self.faults.saturating_add(1);
    }

    /// Asks for a connection, while a descriptor is kept for its other end; why there is none is told. It changes nothing here.
    pub(crate) fn ask(&self, kernel: &mut Kernel) -> Result<Socket, NoLink>
        requires kept { is_some kernel.old.spare ≡ true }
        ensures told { kernel.new ≡ (if is_some self.now.listener then told_link kernel.old result else kernel.old) }
        ensures none { is_none self.now.listener ≡ true → result ≡ Err NoLink.NoneWaits }
        ensures came { IfOk result (λ socket. socket.log.calls ≡ (SocketCall.Came, []) ∷ []) }
    {
        let Some(listener) = &self.listener else {
            return Err(NoLink::NoneWaits);
        };
        kernel.link_of(Socket::came(&listener.socket))
    }
}
