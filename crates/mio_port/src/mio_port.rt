// The port over real sockets. Its parts keep the ends, the listener, the kernel's reports and the clock; here stands what
// each call of a port does with them, and which count of faults it raises.
ghost use Rattle.std.specs.Prelude.{◌≡◌, ◌≢◌, ◌<◌, ◌≤◌, ◌+◌, ◌*◌, ⊤, [], true, false, length, is_none, is_some, None, Some};
ghost use Rattle.std.specs.Prelude.{MatchResult, OnOk, option_map, slice_index_or};
ghost use Rattle.std.specs.IoError.{error_kind};
ghost use Rattle.std.specs.List.{list_any};
ghost use Rattle.ev_types.specs.Sides.{number};
ghost use Rattle.ev_port.specs.Counting.{risen_if};
ghost use Rattle.ev_port.specs.Silent.{silent_port, silent_end};
ghost use Rattle.ev_port.specs.Vouching.{LongerBy, NothingWaits};
ghost use Rattle.ev_port.specs.EndSteps.{EndsWent, AllWent, PortStays, no_step};
ghost use Rattle.ev_port.specs.Faults.{FaultsStay, EndFaults, PollFaults, ListenerFaults};
ghost use Rattle.ev_port.specs.Calls.{Ticked, ClockRead, is_failed_start, StartedAt, is_failed_accept, accept_events, accept_step};
ghost use Rattle.ev_port.specs.Calls.{AcceptedLink};
ghost use Rattle.ev_port.specs.Polling.{is_failed_poll, opens_accepting, AllMarked, poll_events, poll_step, PolledWith};
ghost use Rattle.ev_port.specs.Table.{RowsStay, TablePolled, named};
ghost use Rattle.ev_port.specs.Ends.{is_failed_conn, conn_step, conn_events, ReadWithin, is_failed_read, read_step, read_events};
ghost use Rattle.ev_port.specs.Ends.{WriteWithin, is_failed_write, write_step, write_events, close_write_events, close_events};
ghost use Rattle.ev_port.specs.Ends.{close_write_step, close_step};
ghost use Rattle.mio_port.specs.EndAnswers.{connection_at, ReadBy, WrittenBy, CheckedBy};
ghost use Rattle.mio_port.specs.Acceptor.{shut_acceptor};
ghost use Rattle.mio_port.specs.EndLeft.{CheckLeft, EndAndPeerLeft, LeftAt, NewEnds, PlaceLeft, ReadLeft, WriteLeft};
ghost use Rattle.mio_port.specs.OneEnd.{ended_end, closed_end};
ghost use Rattle.mio_port.specs.EndPlaces.{PlaceWent, all_handed_on, holds, more_follows, wants_ready};
ghost use Rattle.mio_port.specs.Kernels.{watch_of, HasSpare};
ghost use Rattle.mio_port.specs.Asking.{PollLooked};
ghost use Rattle.mio_port.specs.PollLeft.{PollLeft};
ghost use Rattle.mio_port.specs.PortCalls.{Listens, start_refusal, acceptor_after_start, Marked, Accepts, MadeLink, AskedFor};
ghost use Rattle.mio_port.specs.ReadTurns.{MarkedTable, SomeMarked, other_end};
ghost use Rattle.mio_port.specs.PortFaults.{IsFaultless, mio_faults, vouches_nothing, waits_untold};

mod linking;
mod polling;

use crate::acceptor::{Acceptor, socket_addr};
use crate::clock::SteadyClock;
use crate::ends::Ends;
use crate::kernel::Kernel;
use crate::turn::Turn;
use ev_port::{
    Accepted, Addr, ConnAnswer, Polled, Port, ReadAnswer, Started, Want, WantTable, WriteAnswer,
};
use ev_types::SideId;
use std::alloc::AllocGlobal;
use std::io;
use std::io::ErrorKind;
use std::net::Net;
use std::time::Clock;

/// A port over TCP sockets of IPv4, none of which ever blocks a call; only `poll` waits.
///
/// Each socket is watched for both ways from the moment it is made, and each end keeps a bit a way that says that it is
/// ready. A report of the kernel sets the bit, an error or a hang-up sets both, and a call that finds the way blocked
/// clears it, as does a read or a write that came short. So a poll asks for reports at most once, whatever is wanted;
/// and not where something wanted is ready already, but at each 16th such poll, so that nothing waits for ever behind an
/// end that is always ready. The numbers of the ends whose bit is set stand in a set a way, so that a poll finds what is
/// ready without a look at the ends.
///
/// An end of writing is handed to the system at the next poll at the latest; closing the end before that leaves it out, since a
/// close ends writing by itself. One is pending at most: the next `close_write`, of whatever end, hands it on first, as does a
/// `write` to the end itself. No other call does. A port that goes closes its ends.
///
/// Its clauses are those of every port. It tells nothing of the bytes and vouches for no trace, since no clause can say
/// what a socket gives. Its counts of faults are real: one for polling, one for the listener and one an end, each of 64
/// bits, and each rises where one of its calls is answered `Failed`. An end that was made keeps its count when it is
/// closed.
///
/// It holds three descriptors, for the listener, the kernel's reports and a spare one for the second end of a link, and two for
/// each link whose ends are open.
///
/// Only `start` and `accept` take memory: `start` a table of reports, `accept` the places of the link's ends and of those
/// of lower numbers that weren't made. No memory is given back before the port goes, and a number is never used again. Each
/// call takes constant time, but `poll`, which is linear in the wants and the reports, `poll_table`, which is linear in the
/// reports and in the wants that it marks, and passes over the numbers of sides, 4,096 at a time where none is in the set, and
/// `accept`, which is so over a run of links that are numbered in turn.
///
/// Own, over mio's `Poll`, `TcpListener` and `TcpStream`; libevent has it as event2/event.h, `EV_ET`, and event2/listener.h.
/// Differs: a listener that found no descriptor is left alone for a while, where libevent's reports the error each time; and short writes
/// wait for no acknowledgement but in bulk, where libevent leaves that to who makes the socket.
#[derive(Drop)]
pub struct MioPort<'a, R> {
    rt: &'a R,
    clock: SteadyClock,
    kernel: Option<Kernel>,
    acceptor: Acceptor,
    ends: Ends,
    turn: Turn,
    polling_faults: u64,
}

impl<'a, R: Net + Clock + AllocGlobal> MioPort<'a, R> {
    /// A port that listens nowhere, has no end and met no fault. It makes no socket and takes no memory. Its clock begins
    /// here.
    pub fn new(rt: &'a R) -> MioPort<'a, R>
        ensures faultless { IsFaultless (mio_faults result) }
        ensures listener { result.acceptor ≡ shut_acceptor 0 }
        ensures ends { result.ends.ends.items ≡ [] }
        ensures kernel { result.kernel ≡ None }
        ensures clock { result.clock.last ≡ 0 }
        ensures turn { result.turn ≡ record { who = 0; left = 0; peer_drains = false } }
    {
        MioPort {
            rt,
            clock: SteadyClock::new(rt),
            kernel: None,
            acceptor: Acceptor::new(),
            ends: Ends::new(rt.alloc()),
            turn: Turn::new(),
            polling_faults: 0,
        }
    }

    /// Where it listens: after a start at port 0 the port that the system chose. `None` where it doesn't listen.
    pub fn local(&self) -> Option<Addr>
        ensures { is_none self.now.acceptor.listener ≡ true → result ≡ None }
    {
        self.acceptor.local()
    }

    // Takes the kernel that watches the ends, or makes the first one.
    fn take_kernel(&mut self) -> io::Result<Kernel>
        ensures same { is_some self.old.kernel ≡ true → MatchResult result (λ kernel. self.old.kernel ≡ Some kernel) (λ _. ⊥) }
        ensures rest { self.new ≡ record self.old { kernel = self.new.kernel } }
    {
        match self.kernel.take() {
            Some(kernel) => Ok(kernel),
            None => Kernel::new(self.rt),
        }
    }

    // A first listener is closed before the second one is made.
    fn listen(&mut self, at: Addr, to: Addr) -> io::Result<()>
        ensures faults { self.new.acceptor.faults ≡ self.old.acceptor.faults }
        ensures polling { self.new.polling_faults ≡ self.old.polling_faults }
        ensures ends { self.new.ends ≡ self.old.ends }
        ensures listens { MatchResult result (λ _. Listens self.new.acceptor at to Started.Started)
            (λ _. Listens self.new.acceptor at to Started.Failed) }
        ensures quiet { self.new.acceptor.ready ≡ false }
        ensures unpaused { self.new.acceptor.paused_to ≡ None }
        ensures clock { self.new.clock ≡ self.old.clock }
        ensures turn { self.new.turn ≡ self.old.turn }
        ensures kernel { is_some self.old.kernel ≡ true → watch_of self.new.kernel ≡ watch_of self.old.kernel }
        ensures spare { OnOk result (HasSpare self.new.kernel) }
    {
        self.acceptor.shut();
        let mut kernel = self.take_kernel()?;
        let listener = kernel.listen(self.rt, socket_addr(at));
        let room = kernel.keep_room();
        self.kernel = Some(kernel);
        let _room_for_the_first = room?;
        self.acceptor.open(listener?, socket_addr(to));
        Ok(())
    }

    // What a start answers. One that failed is counted.
    fn started(&mut self, made: io::Result<()>) -> Started
        ensures answer { MatchResult made (λ _. result ≡ Started.Started) (λ error. result ≡ start_refusal (error_kind error)) }
        ensures counted { self.new ≡ record self.old { acceptor = acceptor_after_start self.old.acceptor result } }
    {
        match made {
            Ok(()) => Started::Started,
            Err(error) if error.kind() == ErrorKind::OutOfMemory => Started::NoMemory,
            Err(_) => {
                self.acceptor.count_fault();
                Started::Failed
            }
        }
    }
}

/// What the trait leaves open, call by call:
///
/// - `start` listens with `SO_REUSEADDR` and the longest queue that the system allows. It is `Failed`, at the listener's
///   count, where the address can't be had and where there are fewer descriptors than one link needs, and `NoMemory` where
///   the table of reports or the kernel finds none. A second start closes the first listener before it makes its own, and
///   leaves the ends. After one that failed nothing listens.
/// - `now` is in milliseconds since the port was made and never falls. Where the system's clock can't be read it is the
///   last reading.
/// - `poll` is `Failed`, at the count of polling, before the first start and where the kernel refuses to wait; then nothing
///   is marked. A wait that a signal interrupts is ready for nothing. A timeout is in milliseconds, `None` is for ever, and
///   more than 24 days are cut to that.
/// - `poll_table` marks what `poll` would mark of the same wants, but of the bulky ends, those one of whose last two reads filled
///   its room, at most one for reading, in turns of 64 polls. While the turn stays, that end isn't read from a write to its
///   peer that came short until a poll finds that nothing waits for the peer, but where the peer can't be written and at the
///   last poll of the turn. It waits as long. It doesn't go over the wants: it joins the table's sets of numbers and the port's,
///   and passes over 4,096 numbers at a time where none is in the set.
/// - `accept` makes both ends with `TCP_NODELAY`. The Out end is never connected yet: its check decides, also where its
///   connection couldn't be begun. `NoMemory` comes before anything is accepted. `NotYet` comes for a link that was
///   accepted before, where none waits, where one went before it was taken or came with an error of the network, and where the
///   system is short of descriptors, buffers or memory: then no link is asked for until an end is closed or 100 ms passed, and
///   a poll that asks for links waits no longer than that. So it is too where the system can't watch a client that was accepted,
///   for want of memory or since no more may be watched; that client is cut off. Each other error is `Failed`, at the listener's
///   count, and leaves the listener ready.
/// - `connect_state` is `Failed`, at the end's count, for a connection that was refused or that broke, and stays so.
/// - `read` and `write` are `NotYet` where they would block or were interrupted, and at an end that was closed or never
///   made; a write that takes no byte is `Failed`, as is every other error. No signal comes of a peer that is gone.
/// - What comes in bulk goes in long segments: where the last read of the other end filled its room, more is likely to follow, and the
///   system may keep back the end of a write of 16,384 bytes or more (Nagle's algorithm). It goes at once when a read of that other end
///   doesn't fill its room or fails, that end is closed, or fewer bytes are written. Where none of these comes, it goes once what went
///   before is acknowledged, which a receiver may put off (Linux by 40 to 200 ms).
/// - `stop_accepting` closes the listener: a client that comes from then on is refused, and one that was not accepted yet is
///   cut off.
/// - `close_write` leaves its end pending, if that has a socket, until the next `poll`, `poll_table` or `close_write`, a `write` to
///   the end, or its `close`, which leaves it out. What the system says is ignored. Until then the peer sees no end.
/// - `close` drops the socket with all that wasn't read, and ends its writing so; where bytes wait unread the system resets the
///   connection in place of that.
impl<'a, R: Net + Clock + AllocGlobal> Port for MioPort<'a, R> {
    ghost use Rattle.std.specs.Prelude.{⊤};

    ghost Plan = { ⊤ };

    ghost vouches = { vouches_nothing };

    ghost none_waits = { waits_untold };

    ghost faults = { mio_faults };

    ghost ends = { λ _. silent_end };

    ghost told = { λ _. silent_port };

    ghost stops = { λ old new. new ≡ record old { acceptor = shut_acceptor old.acceptor.faults } };

    fn start(&mut self, listen: Addr, to: Addr) -> Started
        ensures listens { Listens self.new.acceptor listen to result }
        ensures quiet { self.new.acceptor.ready ≡ false }
        ensures unpaused { self.new.acceptor.paused_to ≡ None }
        ensures stays { self.new.ends ≡ self.old.ends }
        ensures clock { self.new.clock ≡ self.old.clock }
        ensures turn { self.new.turn ≡ self.old.turn }

        // What was watched stays watched, and a spare descriptor is kept.
        ensures kernel { is_some self.old.kernel ≡ true → watch_of self.new.kernel ≡ watch_of self.old.kernel }
        ensures spare { result ≡ Started.Started → HasSpare self.new.kernel }
        ensures counts { self.new.acceptor.faults ≡ risen_if (is_failed_start result) self.old.acceptor.faults }

        // What every port says.
        ensures cause { ListenerFaults (mio_faults self.old) (mio_faults self.new) (is_failed_start result) }
        ensures ends { AllWent silent_end silent_end (λ _. no_step) }
        ensures told { StartedAt silent_port silent_port listen to }
        ensures vouched { LongerBy (vouches_nothing self.old) (vouches_nothing self.new) [] }
    {
        let made = self.listen(listen, to);
        self.started(made)
    }

    fn now(&mut self) -> u64
        ensures steady { self.old.clock.last ≤ result }
        ensures kept { self.new.clock.last ≡ result }
        ensures others { self.new ≡ record self.old { clock = self.new.clock } }
        ensures stays { self.new.ends ≡ self.old.ends }

        // What every port says.
        ensures cause { FaultsStay (mio_faults self.old) (mio_faults self.new) }
        ensures ends { AllWent silent_end silent_end (λ _. no_step) }
        ensures told { ClockRead silent_port silent_port result }
        ensures vouched { Ticked (vouches_nothing self.old) (vouches_nothing self.new) result }
    {
        self.clock.read(self.rt)
    }

    fn poll(&mut self, wants: &mut [Want], accept: bool, timeout: Option<u64>) -> Polled
        ensures marks { Marked self.new.ends.ends.items wants.old wants.new result }
        ensures turn { self.new.turn ≡ self.old.turn }
        ensures accepts { Accepts self.new.acceptor accept result }
        ensures left { PollLeft self.old self.new result }
        ensures looked { PollLooked (list_any (wants_ready self.old.ends.ends.items) wants.old) accept timeout self.old self.new result }

        // What every port says.
        ensures marked { AllMarked wants.old wants.new }
        ensures asked { opens_accepting result ≡ true → accept ≡ true }
        ensures cause { PollFaults (mio_faults self.old) (mio_faults self.new) (is_failed_poll result) }
        ensures ends { AllWent silent_end silent_end (poll_step wants.new result) }
        ensures told { PolledWith silent_port silent_port accept timeout result }
        ensures vouched { LongerBy (vouches_nothing self.old) (vouches_nothing self.new) (poll_events timeout wants.new result) }
        ensures waiting { accept ≡ true → result ≡ Polled.Ready false → NothingWaits (vouches_nothing self.new) waits_untold }
    {
        self.ready_for(wants, accept, timeout)
    }

    fn poll_table(&mut self, wants: &mut WantTable, accept: bool, timeout: Option<u64>) -> Polled
        ensures marks { MarkedTable self.new.ends.ends.items self.old.turn self.new.turn wants.old wants.new result }
        ensures some { SomeMarked self.new.ends.ends.items wants.old wants.new result }
        ensures accepts { Accepts self.new.acceptor accept result }
        ensures left { PollLeft self.old self.new result }
        ensures looked { PollLooked (list_any (wants_ready self.old.ends.ends.items) (named wants.old)) accept timeout self.old self.new result }

        // What every port says.
        ensures rows { RowsStay wants.old wants.new }
        ensures asked { opens_accepting result ≡ true → accept ≡ true }
        ensures cause { PollFaults (mio_faults self.old) (mio_faults self.new) (is_failed_poll result) }
        ensures told { PolledWith silent_port silent_port accept timeout result }
        ensures went { TablePolled wants.old wants.new timeout result silent_end silent_end (vouches_nothing self.old) (vouches_nothing self.new) }
        ensures waiting { accept ≡ true → result ≡ Polled.Ready false → NothingWaits (vouches_nothing self.new) waits_untold }
    {
        self.table_ready_for(wants, accept, timeout)
    }

    fn accept(&mut self, link: u32) -> Accepted
        ensures made { MadeLink self.old.ends.ends.items self.new.ends.ends.items link result }
        ensures ends_made { NewEnds self.new.ends.ends.items self.old.acceptor.target link result }
        ensures steady { self.old.clock.last ≤ self.new.clock.last }
        ensures turn { self.new.turn ≡ self.old.turn }
        ensures kernel { watch_of self.new.kernel ≡ watch_of self.old.kernel }

        // Where none was made, why, and what that leaves of the listener.
        ensures listener { holds self.old.ends.ends.items link ≡ false →
            AskedFor self.old.kernel self.new.kernel self.old.acceptor self.new.acceptor self.new.clock.last result }

        // Of a link that was accepted before nothing is asked, nor where memory runs out. Where its places are there it does not.
        ensures held { holds self.old.ends.ends.items link ≡ true → (result ≡ Accepted.NotYet) × (self.new ≡ self.old) }
        ensures unasked { result ≡ Accepted.NoMemory → self.new ≡ record self.old { ends = self.new.ends } }
        ensures room { 2 * link + 1 < length self.old.ends.ends.items → result ≢ Accepted.NoMemory }

        // What every port says.
        ensures cause { ListenerFaults (mio_faults self.old) (mio_faults self.new) (is_failed_accept result) }
        ensures ends { AllWent silent_end silent_end (accept_step link result) }
        ensures told { AcceptedLink silent_port silent_port result }
        ensures vouched { LongerBy (vouches_nothing self.old) (vouches_nothing self.new) (accept_events link result) }
        ensures waiting { result ≡ Accepted.NotYet → NothingWaits (vouches_nothing self.new) waits_untold }
    {
        if self.ends.holds(link) {
            return Accepted::NotYet;
        }
        if self.ends.make_room(link).is_err() {
            return Accepted::NoMemory;
        }
        match self.pair(link) {
            Ok((inside, outside)) => {
                self.ends.put(link, inside, outside);
                Accepted::Link { connected: false }
            }
            Err(why) => self.refuse(why),
        }
    }

    fn connect_state(&mut self, end: SideId) -> ConnAnswer
        ensures by { CheckedBy (connection_at self.old.ends.ends.items end) result }
        ensures left { PlaceLeft self.old.ends.ends.items self.new.ends.ends.items (number end) (CheckLeft result) }
        ensures others { self.new ≡ record self.old { ends = self.new.ends } }

        // What every port says.
        ensures cause { EndFaults (mio_faults self.old) (mio_faults self.new) end (is_failed_conn result) }
        ensures ends { EndsWent silent_end silent_end end (conn_step result) }
        ensures told { PortStays silent_port silent_port }
        ensures vouched { LongerBy (vouches_nothing self.old) (vouches_nothing self.new) (conn_events end result) }
    {
        self.ends.check(end)
    }

    fn read(&mut self, end: SideId, into: &mut [u8]) -> ReadAnswer
        requires { 0 < length into.old }
        ensures by { ReadBy (connection_at self.old.ends.ends.items end) result }
        ensures left { EndAndPeerLeft self.old.ends.ends.items self.new.ends.ends.items (number end) (LeftAt (ReadLeft into.new result)) }
        ensures others { self.new ≡ record self.old { ends = self.new.ends } }

        // What every port says.
        ensures within { ReadWithin result (length into.new) }
        ensures cause { EndFaults (mio_faults self.old) (mio_faults self.new) end (is_failed_read result) }
        ensures ends { EndsWent silent_end silent_end end (read_step result into.new) }
        ensures told { PortStays silent_port silent_port }
        ensures vouched { LongerBy (vouches_nothing self.old) (vouches_nothing self.new) (read_events end into.new result) }
    {
        self.ends.read(end, into)
    }

    fn write(&mut self, end: SideId, from: &[u8]) -> WriteAnswer
        requires { 0 < length from.now }
        ensures by { WrittenBy (connection_at self.old.ends.ends.items end) result }
        ensures left { PlaceLeft self.old.ends.ends.items self.new.ends.ends.items (number end)
            (WriteLeft (more_follows (slice_index_or self.old.ends.ends.items (other_end (number end)) None) from.now) from.now result) }
        ensures others { self.new ≡ record self.old { ends = self.new.ends } }

        // What every port says.
        ensures within { WriteWithin result (length from.now) }
        ensures cause { EndFaults (mio_faults self.old) (mio_faults self.new) end (is_failed_write result) }
        ensures ends { EndsWent silent_end silent_end end (write_step result from.now) }
        ensures told { PortStays silent_port silent_port }
        ensures vouched { LongerBy (vouches_nothing self.old) (vouches_nothing self.new) (write_events end from.now result) }
    {
        self.ends.write(end, from)
    }

    fn close_write(&mut self, end: SideId)
        ensures ended { PlaceWent (all_handed_on self.old.ends.ends.items) self.new.ends.ends.items (number end) ended_end }
        ensures others { self.new ≡ record self.old { ends = self.new.ends } }

        // What every port says.
        ensures cause { FaultsStay (mio_faults self.old) (mio_faults self.new) }
        ensures ends { EndsWent silent_end silent_end end (close_write_step) }
        ensures told { PortStays silent_port silent_port }
        ensures vouched { LongerBy (vouches_nothing self.old) (vouches_nothing self.new) (close_write_events end) }
    {
        self.ends.close_write(end);
    }

    fn close(&mut self, end: SideId)
        ensures gone { EndAndPeerLeft self.old.ends.ends.items self.new.ends.ends.items (number end)
            (λ old new. new ≡ option_map closed_end old) }
        ensures pause { self.new.acceptor.paused_to ≡ None }
        ensures others { self.new ≡ record self.old { ends = self.new.ends; acceptor = record self.old.acceptor { paused_to = None } } }

        // What every port says.
        ensures cause { FaultsStay (mio_faults self.old) (mio_faults self.new) }
        ensures ends { EndsWent silent_end silent_end end (close_step) }
        ensures told { PortStays silent_port silent_port }
        ensures vouched { LongerBy (vouches_nothing self.old) (vouches_nothing self.new) (close_events end) }
    {
        self.ends.close(end);
        self.acceptor.end_pause();
    }

    fn stop_accepting(&mut self)
        ensures shut { self.new ≡ record self.old { acceptor = shut_acceptor self.old.acceptor.faults } }

        // What every port says.
        ensures cause { FaultsStay (mio_faults self.old) (mio_faults self.new) }
        ensures ends { AllWent silent_end silent_end (λ _. no_step) }
        ensures told { PortStays silent_port silent_port }
        ensures vouched { LongerBy (vouches_nothing self.old) (vouches_nothing self.new) [] }
    {
        self.acceptor.shut();
    }

    ghost waits_no_more = { λ plan t u quiet waits. waits };

    ghost unheard = { λ p e unheard plan t vouched. vouched };
}
