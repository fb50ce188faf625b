// One end: its connection, what the kernel told of it, and its count of faults.
ghost use Rattle.std.specs.Prelude.{◌≡◌, ◌<◌, length, false, true, Some, []};
ghost use Rattle.ev_port.specs.FaultCounts.{Counted};
ghost use Rattle.ev_port.specs.Ends.{ReadWithin, is_failed_read, WriteWithin, is_failed_write, is_failed_conn};
ghost use Rattle.mio_port.specs.Attempts.{AttemptBy, CheckBy, read_answer, write_answer, check_answer};
ghost use Rattle.mio_port.specs.EndAnswers.{ReadBy, WrittenBy, CheckedBy};
ghost use Rattle.mio_port.specs.EndLeft.{ReadLeft, WriteLeft, CheckLeft};
ghost use Rattle.mio_port.specs.OneEnd.{fresh, told, after_read, after_write, after_check};
ghost use Rattle.mio_port.specs.OneEnd.{closed_end, counted_read, delayed_end, delayed_if, ended_end, handed_on_end, has_socket};
ghost use Rattle.mio_port.specs.OneEnd.{noticed_end, undelayed_end};

use crate::attempt::Attempt;
use crate::check::Check;
use crate::socket::Socket;
use crate::socket_call::SocketCall;
use ev_types::{ConnAnswer, ReadAnswer, WriteAnswer};
use mio::event::Event;

/// What an end reaches the outside by. `Refused` is a connection that could not be made, and `Closed` one that is gone.
///
/// Own.
#[derive(Drop)]
pub(crate) enum Connection {
    Open(Socket),
    Refused,
    Closed,
}

/// One end. The bits say that the kernel reported it ready for a way and that no call has found otherwise since; the end
/// is hung up once the kernel told that the peer sends no more, or of an error. It is bulky if one of its last two reads filled
/// the room that it was given: what is sent in bulk comes in bursts, at the end of which one read comes short. Its last write came
/// short if it took less than it was given, or would have blocked. It is delayed while the system may keep a short write back for more to
/// follow. It is ending while its writing is to be ended and the system was not told yet.
///
/// Own.
#[derive(Drop)]
pub(crate) struct End {
    connection: Connection,
    read_ready: bool,
    write_ready: bool,
    hung_up: bool,
    filled: bool,
    bulky: bool,
    came_short: bool,
    delayed: bool,
    ending: bool,
    faults: u64,
}

impl Connection {
    fn read(&mut self, into: &mut [u8]) -> Attempt
        ensures by { AttemptBy self.old result (length into.new) }
        ensures told { self.new ≡ told self.old (SocketCall.Read result, into.new) }
    {
        match self {
            Connection::Open(socket) => socket.read(into),
            Connection::Refused => Attempt::Failed,
            Connection::Closed => Attempt::Absent,
        }
    }

    fn write(&mut self, from: &[u8]) -> Attempt
        ensures by { AttemptBy self.old result (length from.now) }
        ensures told { self.new ≡ told self.old (SocketCall.Write result, from.now) }
    {
        match self {
            Connection::Open(socket) => socket.write(from),
            Connection::Refused => Attempt::Failed,
            Connection::Closed => Attempt::Absent,
        }
    }

    fn check(&mut self) -> Check
        ensures by { CheckBy self.old result }
        ensures told { self.new ≡ told self.old (SocketCall.Checked result, []) }
    {
        match self {
            Connection::Open(socket) => socket.check(),
            Connection::Refused => Check::Failed,
            Connection::Closed => Check::Absent,
        }
    }

    fn end_writing(&mut self)
        ensures { self.new ≡ told self.old (SocketCall.EndedWriting, []) }
    {
        if let Connection::Open(socket) = self {
            socket.end_writing();
        }
    }

    fn delay(&mut self)
        ensures { self.new ≡ told self.old (SocketCall.Delayed, []) }
    {
        if let Connection::Open(socket) = self {
            socket.delay();
        }
    }

    fn undelay(&mut self)
        ensures { self.new ≡ told self.old (SocketCall.Undelayed, []) }
    {
        if let Connection::Open(socket) = self {
            socket.undelay();
        }
    }

    fn has_socket(&self) -> bool
        ensures { result ≡ has_socket self.now }
    {
        matches!(self, Connection::Open(_))
    }
}

impl End {
    fn fresh(connection: Connection, write_ready: bool) -> End
        ensures { result ≡ fresh connection write_ready }
    {
        End {
            connection,
            read_ready: false,
            write_ready,
            hung_up: false,
            filled: false,
            bulky: false,
            came_short: false,
            delayed: false,
            ending: false,
            faults: 0,
        }
    }

    /// An end that is connected or connecting. Nothing was reported of it yet.
    pub(crate) fn open(socket: Socket) -> End
        ensures { result ≡ fresh (Connection.Open socket) false }
    {
        End::fresh(Connection::Open(socket), false)
    }

    /// An end whose connection could not be begun. It is ready for writing, so that it is checked.
    pub(crate) fn refused() -> End
        ensures { result ≡ fresh Connection.Refused true }
    {
        End::fresh(Connection::Refused, true)
    }

    pub(crate) fn is_read_ready(&self) -> bool
        ensures { result ≡ self.now.read_ready }
    {
        self.read_ready
    }

    pub(crate) fn is_bulky(&self) -> bool
        ensures { result ≡ self.now.bulky }
    {
        self.bulky
    }

    pub(crate) fn is_write_ready(&self) -> bool
        ensures { result ≡ self.now.write_ready }
    {
        self.write_ready
    }

    pub(crate) fn came_short(&self) -> bool
        ensures { result ≡ self.now.came_short }
    {
        self.came_short
    }

    /// Its last read filled the room that it was given, so that more is likely to come.
    pub(crate) fn has_filled(&self) -> bool
        ensures { result ≡ self.now.filled }
    {
        self.filled
    }

    /// The system may keep its short writes back from now on. It is told once.
    fn delay(&mut self)
        ensures { self.new ≡ delayed_end self.old }
    {
        if !self.delayed {
            self.connection.delay();
            self.delayed = true;
        }
    }

    /// The system keeps none back from now on, and what was kept back goes. It is told where that wasn't so.
    pub(crate) fn undelay(&mut self)
        ensures { self.new ≡ undelayed_end self.old }
    {
        if self.delayed {
            self.connection.undelay();
            self.delayed = false;
        }
    }

    fn delay_if(&mut self, more_follows: bool)
        ensures { self.new ≡ delayed_if more_follows self.old }
    {
        if more_follows {
            self.delay();
        } else {
            self.undelay();
        }
    }

    /// An error and a hang-up make it ready both ways.
    pub(crate) fn notice(&mut self, event: &Event)
        ensures { self.new ≡ noticed_end self.old event.now }
    {
        let is_over = event.is_error() || event.is_write_closed();
        let is_read_closed = event.is_read_closed();
        self.read_ready = self.read_ready || event.is_readable() || is_read_closed || is_over;
        self.write_ready = self.write_ready || event.is_writable() || is_over;
        self.hung_up = self.hung_up || is_read_closed || is_over;
    }

    pub(crate) fn read(&mut self, into: &mut [u8]) -> ReadAnswer
        requires { 0 < length into.old }
        ensures within { ReadWithin result (length into.new) }
        ensures cause { Counted self.old.faults self.new.faults (is_failed_read result) }
        ensures other_way { self.new.write_ready ≡ self.old.write_ready }
        ensures ending { self.new.ending ≡ self.old.ending }
        ensures by { ReadBy (Some self.old.connection) result }
        ensures left { ReadLeft into.new result self.old self.new }
    {
        let attempt = self.connection.read(into);
        self.take_read(attempt, into.len())
    }

    // A read that would have blocked or that failed counts as one that came short. One that was interrupted doesn't count.
    fn count_read(&mut self, is_full: bool)
        ensures { self.new ≡ counted_read self.old is_full }
    {
        self.bulky = is_full || self.filled;
        self.filled = is_full;
    }

    fn take_read(&mut self, attempt: Attempt, room: usize) -> ReadAnswer
        ensures answer { result ≡ read_answer attempt }
        ensures after { self.new ≡ after_read self.old attempt room }
    {
        match attempt {
            Attempt::Moved(count) => {
                self.count_read(count >= room);
                self.read_ready = self.read_ready && (self.hung_up || self.filled);
                if count == 0 {
                    ReadAnswer::Ended
                } else {
                    ReadAnswer::Got(count)
                }
            }
            Attempt::WouldBlock => {
                self.read_ready = false;
                self.count_read(false);
                ReadAnswer::NotYet
            }
            Attempt::Interrupted | Attempt::Absent => ReadAnswer::NotYet,
            Attempt::Failed => {
                self.faults = self.faults.saturating_add(1);
                self.count_read(false);
                ReadAnswer::Failed
            }
        }
    }

    /// Where more is likely to follow the system may keep a short write back.
    pub(crate) fn write(&mut self, from: &[u8], more_follows: bool) -> WriteAnswer
        requires { 0 < length from.now }
        ensures within { WriteWithin result (length from.now) }
        ensures cause { Counted self.old.faults self.new.faults (is_failed_write result) }
        ensures other_way { self.new.read_ready ≡ self.old.read_ready }
        ensures all_handed_on { self.new.ending ≡ false }
        ensures by { WrittenBy (Some self.old.connection) result }
        ensures left { WriteLeft more_follows from.now result self.old self.new }
    {
        self.hand_on();
        self.delay_if(more_follows);
        let attempt = self.connection.write(from);
        self.take_write(attempt, from.len())
    }

    fn take_write(&mut self, attempt: Attempt, offered: usize) -> WriteAnswer
        ensures answer { result ≡ write_answer attempt }
        ensures after { self.new ≡ after_write self.old attempt offered }
    {
        match attempt {
            Attempt::Moved(0) | Attempt::Failed => {
                self.faults = self.faults.saturating_add(1);
                WriteAnswer::Failed
            }
            Attempt::Moved(count) => {
                self.came_short = count < offered;
                self.write_ready = self.write_ready && !self.came_short;
                WriteAnswer::Took(count)
            }
            Attempt::WouldBlock => {
                self.write_ready = false;
                self.came_short = true;
                WriteAnswer::NotYet
            }
            Attempt::Interrupted | Attempt::Absent => WriteAnswer::NotYet,
        }
    }

    pub(crate) fn check(&mut self) -> ConnAnswer
        ensures cause { Counted self.old.faults self.new.faults (is_failed_conn result) }
        ensures other_way { self.new.read_ready ≡ self.old.read_ready }
        ensures ending { self.new.ending ≡ self.old.ending }
        ensures by { CheckedBy (Some self.old.connection) result }
        ensures left { CheckLeft result self.old self.new }
        ensures failed { result ≡ ConnAnswer.Failed → self.new.connection ≡ Connection.Refused }
    {
        let check = self.connection.check();
        self.take_check(check)
    }

    /// A connection that failed stays so: its socket goes, and each later check fails too. One that is hung up and isn't
    /// connected failed as well, since nothing more would be reported of it.
    fn take_check(&mut self, check: Check) -> ConnAnswer
        ensures answer { result ≡ check_answer self.old.hung_up check }
        ensures after { self.new ≡ after_check self.old check }
    {
        match check {
            Check::Made => ConnAnswer::Connected,
            Check::Early if !self.hung_up => {
                self.write_ready = false;
                ConnAnswer::Pending
            }
            Check::Unsure | Check::Absent => ConnAnswer::Pending,
            Check::Early | Check::Failed => {
                self.connection = Connection::Refused;
                self.faults = self.faults.saturating_add(1);
                ConnAnswer::Failed
            }
        }
    }

    /// Its writing is to be ended. The system is told when that is handed on, or never if the end is closed before.
    pub(crate) fn close_write(&mut self)
        ensures { self.new ≡ ended_end self.old }
    {
        self.ending = self.connection.has_socket();
    }

    pub(crate) fn is_ending(&self) -> bool
        ensures { result ≡ self.now.ending }
    {
        self.ending
    }

    /// Tells the system that its writing ends, if that is pending.
    pub(crate) fn hand_on(&mut self)
        ensures { self.new ≡ handed_on_end self.old }
    {
        if self.ending {
            self.connection.end_writing();
            self.ending = false;
        }
    }

    /// Drops the socket, which ends its writing too. The count of faults stays.
    pub(crate) fn close(&mut self)
        ensures { self.new ≡ closed_end self.old }
    {
        self.connection = Connection::Closed;
        self.read_ready = false;
        self.write_ready = false;
        self.filled = false;
        self.bulky = false;
        self.came_short = false;
        self.delayed = false;
        self.ending = false;
    }
}
