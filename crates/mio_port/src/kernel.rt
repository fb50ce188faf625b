// The kernel's reports: what is watched, how often it is asked, and what it told.
ghost use Rattle.std.specs.Prelude.{◌≡◌, ◌<◌, ◌-◌, ◌*◌, ◌^◌, ◌∷◌, [], true, false, is_none, is_some, option_map};
ghost use Rattle.std.specs.Prelude.{is_ok, Ok, Err, IfErr, IfOk, OnOk, MatchResult};
ghost use Rattle.std.specs.IoError.{raw_os_error};
ghost use Rattle.std.specs.Duration.{as_nanos};
ghost use Rattle.mio_port.specs.OneEnd.{fresh};
ghost use Rattle.mio_port.specs.EndLeft.{AllHeard};
ghost use Rattle.mio_port.specs.EndPlaces.{CountsStay};
ghost use Rattle.mio.specs.Events.{capacity, items};
ghost use Rattle.mio_port.specs.Reports.{AsReported};
ghost use Rattle.mio_port.specs.Acceptor.{no_link_of};
ghost use Rattle.mio_port.specs.Scarcity.{is_scarce};
ghost use Rattle.mio_port.specs.Sockets.{watched};
ghost use Rattle.mio_port.specs.Waiting.{looks_after, is_due, longest_wait};

use crate::acceptor::{Acceptor, Listener, NoLink, no_link_of};
use crate::end::{Connection, End};
use crate::ends::Ends;
use crate::scarce::is_scarce;
use crate::socket::{Socket, plain};
use crate::socket_call::SocketCall;
use crate::socket_log::SocketLog;
use mio::{Events, Poll, Registry, Token};
use std::alloc::{AllocGlobal, Global};
use std::io;
use std::net::{Net, SocketAddr};
use std::time::Duration;

/// The most reports that one wait takes. What is over comes with the next.
const MOST_EVENTS: usize = 1024;

/// Where something wanted is ready already, the kernel is asked at each poll of this number.
pub(crate) const LOOK_EVERY: u32 = 16;

// No end has this number.
const LISTENER: Token = Token(usize::MAX);

/// What is watched, how many polls went by since the kernel was last asked, how long the last wait was to last at most and whether it
/// worked, and a descriptor that is kept for the second end of a link, whose first one may take the last. The log tells why accepts came
/// to no link. The table has room for a report at least, since the system refuses to wait with none.
///
/// Own.
#[derive(Drop)]
pub(crate) struct Kernel {
    poll: Poll,
    events: Events<Global>,
    skipped: u32,
    most: Option<u64>,
    worked: bool,
    spare: Option<Registry>,
    log: SocketLog,
    ghost below: { skipped < 16 },
    ghost room: { 0 < capacity events },
}

impl Kernel {
    pub(crate) fn new<R: Net + AllocGlobal>(rt: &R) -> io::Result<Kernel> {
        let events = Events::with_capacity(rt.alloc(), MOST_EVENTS)?;
        Ok(Kernel {
            poll: Poll::new(rt)?,
            events,
            skipped: 0,
            most: Some(0),
            worked: true,
            spare: None,
            log: SocketLog::new(),
        })
    }

    /// A listener at this address that is watched.
    pub(crate) fn listen<R: Net>(&self, rt: &R, at: SocketAddr) -> io::Result<Listener>
        ensures at { IfOk result (λ listener. listener.at ≡ at) }
        ensures watched { IfOk result (λ listener. listener.log.calls ≡ (SocketCall.Watched (2 ^ 64 - 1), []) ∷ []) }
    {
        let mut listener = Listener::bind(rt, at)?;
        listener.watch(self.poll.registry(), LISTENER.0)?;
        Ok(listener)
    }

    /// An end that is watched both ways, under its number, and whose short writes aren't kept back.
    pub(crate) fn end(&self, mut socket: Socket, number: usize) -> io::Result<End>
        ensures { IfOk result (λ end. end ≡ fresh (Connection.Open (watched socket number)) false) }
    {
        socket.undelay();
        socket.watch(self.poll.registry(), number)?;
        Ok(End::open(socket))
    }

    /// Sees that a descriptor is kept. It fails where the system has none.
    pub(crate) fn keep_spare(&mut self) -> io::Result<()>
        ensures spare { OnOk result (is_some self.new.spare ≡ true) }
        ensures poll { self.new.poll ≡ self.old.poll }
        ensures skipped { self.new.skipped ≡ self.old.skipped }
        ensures most { self.new.most ≡ self.old.most }
        ensures kept { is_some self.old.spare ≡ true → self.new.spare ≡ self.old.spare }
        ensures log { self.new.log ≡ self.old.log }
    {
        if self.spare.is_none() {
            self.spare = Some(self.poll.registry().try_clone()?);
        }
        Ok(())
    }

    /// Sees that there are descriptors for the two ends of a link: one is kept, and the other is the answer. It fails where the system has
    /// fewer.
    pub(crate) fn keep_room(&mut self) -> io::Result<Registry>
        ensures spare { OnOk result (is_some self.new.spare ≡ true) }
        ensures poll { self.new.poll ≡ self.old.poll }
        ensures skipped { self.new.skipped ≡ self.old.skipped }
        ensures most { self.new.most ≡ self.old.most }
    {
        self.keep_spare()?;
        self.poll.registry().try_clone()
    }

    /// Begins a connection, by the descriptor that is kept where there is no other.
    pub(crate) fn connect<R: Net>(&mut self, rt: &R, to: SocketAddr) -> io::Result<Socket>
        ensures begun { IfOk result (λ socket. socket.log.calls ≡ (SocketCall.Began to, []) ∷ []) }
        ensures given_up { IfErr result (λ error. is_scarce (raw_os_error error) ≡ true → is_none self.new.spare ≡ true) }
        ensures poll { self.new.poll ≡ self.old.poll }
        ensures skipped { self.new.skipped ≡ self.old.skipped }
        ensures most { self.new.most ≡ self.old.most }
        ensures log { self.new.log ≡ self.old.log }
    {
        match Socket::begun(rt, to) {
            Err(error) if is_scarce(&error) => {
                self.spare = None;
                Socket::begun(rt, to)
            }
            begun => begun,
        }
    }

    /// What a call on the way to a link made, or why there is none, which is told.
    pub(crate) fn link_of<T>(&mut self, outcome: io::Result<T>) -> Result<T, NoLink>
        ensures means { MatchResult outcome (λ made. result ≡ Ok made) (λ error. result ≡ Err (no_link_of error)) }
        ensures told { MatchResult result (λ _. self.new ≡ self.old)
            (λ why. self.new ≡ record self.old { log = record { calls = (SocketCall.NoLink why, []) ∷ self.old.log.calls } }) }
    {
        match outcome {
            Ok(made) => Ok(made),
            Err(error) => {
                let why = no_link_of(&error);
                self.log = self.log.then(&plain(SocketCall::NoLink(why)));
                Err(why)
            }
        }
    }

    /// A poll found something ready already: is the kernel to be asked all the same?
    pub(crate) fn is_due(&mut self) -> bool
        ensures due { result ≡ is_due self.old.skipped }
        ensures counted { self.new.skipped ≡ looks_after self.old.skipped }
        ensures poll { self.new.poll ≡ self.old.poll }
        ensures most { self.new.most ≡ self.old.most }
        ensures spare { self.new.spare ≡ self.old.spare }
    {
        self.skipped = (self.skipped + 1) % LOOK_EVERY;
        self.skipped == 0
    }

    /// Waits for reports, at most so many milliseconds. An interrupted wait has none.
    pub(crate) fn wait(&mut self, timeout: Option<u64>) -> io::Result<()>
        ensures skipped { self.new.skipped ≡ 0 }
        ensures most { self.new.most ≡ timeout }
        ensures worked { self.new.worked ≡ is_ok result }
        ensures spare { self.new.spare ≡ self.old.spare }
    {
        self.skipped = 0;
        self.most = timeout;
        let waited = self.poll.poll(&mut self.events, wait_time(timeout));
        self.worked = waited.is_ok();
        waited
    }

    /// Passes the reports of the last wait on.
    pub(crate) fn tell(&self, ends: &mut Ends, acceptor: &mut Acceptor)
        ensures ends { CountsStay ends.old.ends.items ends.new.ends.items }
        ensures acceptor { acceptor.new.faults ≡ acceptor.old.faults }
        ensures heard { AllHeard ends.old.ends.items ends.new.ends.items }
        ensures listener { acceptor.new ≡ record acceptor.old { ready = acceptor.new.ready } }
        ensures waits { acceptor.old.ready ≡ true → acceptor.new.ready ≡ true }

        // Exactly what they tell, in their order.
        ensures told { AsReported (items self.now.events) ends.old.ends.items ends.new.ends.items acceptor.old.ready acceptor.new.ready }
    {
        for event in &self.events {
            if event.token() == LISTENER {
                acceptor.notice();
            } else {
                ends.notice(event.token().0, event);
            }
        }
    }
}

// So many milliseconds, as the system is told them.
fn wait_time(most: Option<u64>) -> Option<Duration>
    ensures { option_map as_nanos result ≡ option_map (λ ms. ms * 1000000) most }
{
    most.map(Duration::from_millis)
}

/// How long a poll may wait: not at all where something that is asked for is ready, and else as long as it was told, but where links
/// are asked for with the pause at the latest.
pub(crate) fn longest_wait(
    is_any: bool,
    accept: bool,
    timeout: Option<u64>,
    pause: Option<u64>,
) -> Option<u64>
    ensures { result ≡ longest_wait is_any accept timeout pause }
{
    if is_any {
        return Some(0);
    }
    if !accept {
        return timeout;
    }
    match (timeout, pause) {
        (Some(timeout), Some(pause)) => Some(timeout.min(pause)),
        (None, pause) => pause,
        (timeout, None) => timeout,
    }
}
