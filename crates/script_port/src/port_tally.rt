// What is counted of the calls on the whole of a script port. A number that reached the end of a u64 stays there.
ghost use Rattle.std.specs.Prelude.{◌≡◌, true};
ghost use Rattle.script_port.specs.ScriptPort.{no_port_calls, poll_tally, poll_fault, accept_tally};

use ev_port::Accepted;
use ev_types::Addr;

/// What calls on the whole port were made, and what they were answered.
///
/// Own.
#[derive(Clone, Copy)]
pub(crate) struct PortTally {
    pub accept_polls: u64,
    pub timeout: Option<u64>,
    pub links: u64,
    pub accepting: bool,
    pub readings: u64,
    pub reading: u64,
    pub started: Option<(Addr, Addr)>,
    pub poll_faults: u64,
}

impl PortTally {
    pub fn new() -> PortTally
        ensures { result ≡ no_port_calls }
    {
        PortTally {
            accept_polls: 0,
            timeout: None,
            links: 0,
            accepting: false,
            readings: 0,
            reading: 0,
            started: None,
            poll_faults: 0,
        }
    }

    /// A poll that asked so opens accepting, or closes it.
    pub fn count_poll(&mut self, accept: bool, timeout: Option<u64>, opens: bool)
        ensures { self.new ≡ poll_tally accept timeout opens self.old }
    {
        self.accept_polls = self.accept_polls.saturating_add(u64::from(accept));
        self.timeout = timeout;
        self.accepting = opens;
    }

    /// A poll failed.
    pub fn count_poll_fault(&mut self)
        ensures { self.new ≡ poll_fault true self.old }
    {
        self.poll_faults = self.poll_faults.saturating_add(1);
    }

    /// An accept was answered so.
    pub fn count_accept(&mut self, answer: Accepted)
        ensures { self.new ≡ accept_tally answer self.old }
    {
        match answer {
            Accepted::Link { .. } => self.links = self.links.saturating_add(1),
            Accepted::NotYet | Accepted::Failed | Accepted::NoMemory => self.accepting = false,
        }
    }
}
