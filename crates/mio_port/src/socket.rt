// A socket with what the system was asked of it: one call of the system a function, which tells it.
ghost use Rattle.std.specs.Prelude.{◌≡◌, ◌≢◌, ◌∷◌, [], length, IfOk};
ghost use Rattle.mio_port.specs.Attempts.{AttemptWithin};
ghost use Rattle.mio_port.specs.Sockets.{Gave, Took, with_call};

use crate::attempt::{Attempt, attempt_of};
use crate::check::{Check, check_of};
use crate::socket_call::{CallBytes, SocketCall};
use crate::socket_log::SocketLog;
use mio::net::{TcpListener, TcpStream};
use mio::{Interest, Registry, Token};
use std::io;
use std::io::{Read, Write};
use std::net::{Net, Shutdown, SocketAddr};

/// A socket, and all that the system was asked of it. What it was asked exists in proofs alone.
///
/// Own.
#[derive(Drop)]
pub(crate) struct Socket {
    stream: TcpStream,
    log: SocketLog,
}

// A call that has no bytes.
pub(crate) fn plain(call: SocketCall) -> CallBytes<'static>
    ensures call { result.call ≡ call }
    ensures bytes { result.bytes.now ≡ [] }
{
    CallBytes { call, bytes: &[] }
}

// One read. Of a reader that tells its bytes it takes those that it gives and no others.
fn read_once<S: Read>(stream: &mut S, log: &mut SocketLog, into: &mut [u8]) -> Attempt
    ensures within { AttemptWithin result (length into.new) }
    ensures told { log.new.calls ≡ (SocketCall.Read result, into.new) ∷ log.old.calls }
    ensures gave { Gave (S.remaining stream.old) (S.remaining stream.new) result into.new }
{
    let attempt = attempt_of(stream.read(into));
    *log = log.then(&CallBytes {
        call: SocketCall::Read(attempt),
        bytes: &*into,
    });
    attempt
}

// One write. A writer that tells its bytes has those that were taken behind them, once.
fn write_once<S: Write>(stream: &mut S, log: &mut SocketLog, from: &[u8]) -> Attempt
    ensures within { AttemptWithin result (length from.now) }
    ensures told { log.new.calls ≡ (SocketCall.Write result, from.now) ∷ log.old.calls }
    ensures took { Took (S.contents stream.old) (S.contents stream.new) result from.now }
{
    let attempt = attempt_of(stream.write(from));
    *log = log.then(&CallBytes {
        call: SocketCall::Write(attempt),
        bytes: from,
    });
    attempt
}

impl Socket {
    /// One that came to a listener.
    pub(crate) fn came(listener: &TcpListener) -> io::Result<Socket>
        ensures { IfOk result (λ socket. socket.log.calls ≡ (SocketCall.Came, []) ∷ []) }
    {
        let (stream, _from) = listener.accept()?;
        Ok(Socket {
            stream,
            log: SocketLog::new().then(&plain(SocketCall::Came)),
        })
    }

    /// One whose connection to this address is begun.
    pub(crate) fn begun<R: Net>(rt: &R, to: SocketAddr) -> io::Result<Socket>
        ensures { IfOk result (λ socket. socket.log.calls ≡ (SocketCall.Began to, []) ∷ []) }
    {
        Ok(Socket {
            stream: TcpStream::connect(rt, to)?,
            log: SocketLog::new().then(&plain(SocketCall::Began(to))),
        })
    }

    fn told(&mut self, call: SocketCall)
        ensures { self.new ≡ with_call self.old (call, []) }
    {
        self.log = self.log.then(&plain(call));
    }

    /// Asks that its short writes may be kept back for more to follow. What the system says to that is ignored.
    pub(crate) fn delay(&mut self)
        ensures { self.new ≡ with_call self.old (SocketCall.Delayed, []) }
    {
        let _ignored = self.stream.set_nodelay(false);
        self.told(SocketCall::Delayed);
    }

    /// Asks that its short writes are kept back no longer: what was kept back goes. What the system says to that is ignored.
    pub(crate) fn undelay(&mut self)
        ensures { self.new ≡ with_call self.old (SocketCall.Undelayed, []) }
    {
        let _ignored = self.stream.set_nodelay(true);
        self.told(SocketCall::Undelayed);
    }

    /// Has it reported both ways, under this number.
    pub(crate) fn watch(&mut self, registry: &Registry, number: usize) -> io::Result<()>
        ensures { self.new ≡ with_call self.old (SocketCall.Watched number, []) }
    {
        let both_ways = Interest::READABLE | Interest::WRITABLE;
        self.told(SocketCall::Watched(number));
        registry.register(&mut self.stream, Token(number), both_ways)
    }

    pub(crate) fn read(&mut self, into: &mut [u8]) -> Attempt
        ensures within { AttemptWithin result (length into.new) }
        ensures told { self.new ≡ with_call self.old (SocketCall.Read result, into.new) }
    {
        read_once(&mut &self.stream, &mut self.log, into)
    }

    pub(crate) fn write(&mut self, from: &[u8]) -> Attempt
        ensures within { AttemptWithin result (length from.now) }
        ensures told { self.new ≡ with_call self.old (SocketCall.Write result, from.now) }
    {
        write_once(&mut &self.stream, &mut self.log, from)
    }

    /// Asks for the error that waits, and for the peer's address.
    pub(crate) fn check(&mut self) -> Check
        ensures found { result ≢ Check.Absent }
        ensures told { self.new ≡ with_call self.old (SocketCall.Checked result, []) }
    {
        let check = check_of(self.stream.take_error(), self.stream.peer_addr());
        self.told(SocketCall::Checked(check));
        check
    }

    /// Ends its writing. What the system says to that is ignored.
    pub(crate) fn end_writing(&mut self)
        ensures { self.new ≡ with_call self.old (SocketCall.EndedWriting, []) }
    {
        let _ignored = self.stream.shutdown(Shutdown::Write);
        self.told(SocketCall::EndedWriting);
    }
}
