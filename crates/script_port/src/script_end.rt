// One end of a script port: the bytes that the script brings in at it, the bytes that it takes, what the script decides
// and lets fail, and what calls on it were made. Which line and which call comes to it is not its own.
ghost use Rattle.std.specs.Prelude.{◌≡◌, ◌<◌, ◌++◌, [], length, take, drop, if◌then◌else◌, IfOk, OnErr, OnOk, IsOk};
ghost use Rattle.ev_port.specs.Ends.{got_bytes};
ghost use Rattle.script_port.specs.ScriptEnds.{new_end, allowed, decided, can_read, can_write, same_turn, is_spurred, end_marked};
ghost use Rattle.script_port.specs.ScriptEnds.{read_answer, after_read, conn_answer, after_check, accepted, after_close_write, after_close};
ghost use Rattle.script_port.specs.ScriptEnds.{wanted};
ghost use Rattle.script_port.specs.ScriptClosing.{closing_end};
ghost use Rattle.script_port.specs.FailedCalls.{failed_read, failed_write, failed_check};
ghost use Rattle.script_port.specs.ScriptKept.{kept_after_line, Wrote};
ghost use Rattle.relay_model.specs.Scripted.{decided_answer};

use crate::end_tally::EndTally;
use crate::kept_line::EndLine;
use ev_port::Want;
use ev_types::{ConnAnswer, NoMemory, ReadAnswer, WriteAnswer};
use std::alloc::Global;
use std::marker::Model;

/// One end. `bytes` are all that the script ever brings in, so that no line takes memory; `came` of them came in,
/// and reads gave `given` of these. `spurred` is the last turn in which all that is wanted of it is marked.
///
/// Own.
#[derive(Drop)]
pub(crate) struct ScriptEnd {
    bytes: Vec<u8>,
    came: usize,
    given: usize,
    eof: bool,
    read_fails: bool,
    may_take: Option<u64>,
    write_fails: bool,
    wait: bool,
    decision: Option<bool>,
    spurred: Option<usize>,
    taken: Vec<u8>,
    tally: EndTally,
}

impl Model for ScriptEnd {
    ghost use Rattle.script_port.specs.ScriptState.{EndKept};

    ghost Value = { EndKept };

    ghost use Rattle.script_port.specs.ScriptEndView.{end_kept, IsEnd};

    ghost view = { end_kept };

    ghost invariant = { IsEnd };
}

impl ScriptEnd {
    /// An end to which nothing came. Takes no memory.
    pub fn new(alloc: Global, wait: bool) -> ScriptEnd
        ensures state { result.state ≡ new_end wait }
        ensures to_come { result.to_come ≡ [] }
    {
        ScriptEnd {
            bytes: Vec::new(alloc),
            came: 0,
            given: 0,
            eof: false,
            read_fails: false,
            may_take: Some(0),
            write_fails: false,
            wait,
            decision: None,
            spurred: None,
            taken: Vec::new(alloc),
            tally: EndTally::new(),
        }
    }

    /// The script brings in these bytes too, behind those that it is known to bring in.
    pub fn expect(&mut self, bytes: &[u8]) -> Result<(), NoMemory>
        ensures { OnOk result (self.new ≡ record self.old { to_come = self.old.to_come ++ bytes.now }) }
    {
        self.bytes.extend_from_slice(bytes)?;
        Ok(())
    }

    /// A line of this turn that names this end is applied.
    pub fn apply(&mut self, turn: Option<usize>, line: EndLine)
        ensures { self.new ≡ kept_after_line turn line self.old }
    {
        match line {
            EndLine::Conn(connected) => self.decision = decide(self.decision, connected),
            EndLine::Pending(count) => self.come_in(count),
            EndLine::Eof => self.eof = true,
            EndLine::ReadFail => self.read_fails = true,
            EndLine::Take(more) => self.may_take = allow(self.may_take, more),
            EndLine::WriteFail => self.write_fails = true,
            EndLine::Spur => self.spurred = turn,
        }
    }

    fn come_in(&mut self, count: usize)
        ensures state { self.new.state ≡ record self.old.state { pending = self.old.state.pending ++ take count self.old.to_come } }
        ensures to_come { self.new.to_come ≡ drop count self.old.to_come }
    {
        self.came += count.min(self.bytes.len() - self.came);
    }

    /// A closing turn begins: from here on the end takes every write, and it is connected unless that was decided.
    pub fn take_all(&mut self)
        ensures { self.new ≡ record self.old { state = closing_end self.old.state } }
    {
        self.may_take = None;
        self.write_fails = false;
        self.decision = decide(self.decision, true);
    }

    /// How many bytes came in that were not read yet. Constant.
    pub fn pending(&self) -> usize
        ensures { result ≡ length self.now.state.pending }
    {
        self.came - self.given
    }

    fn can_read(&self) -> bool
        ensures { result ≡ can_read self.now.state }
    {
        self.given < self.came || self.read_fails || self.eof
    }

    fn can_write(&self) -> bool
        ensures { result ≡ can_write self.now.state }
    {
        if self.wait && !self.tally.connected {
            self.decision.is_some()
        } else {
            self.may_take != Some(0) || self.write_fails
        }
    }

    /// Whether in this turn all that is wanted of it is marked.
    fn is_spurred(&self, turn: Option<usize>) -> bool
        ensures { result ≡ is_spurred turn self.now.state }
    {
        is_same_turn(turn, self.spurred)
    }

    /// A poll is given this want: what of it can be done, or is to be marked in this turn, is marked, and the want is counted
    /// with its marks.
    pub fn poll(&mut self, turn: Option<usize>, want: Want) -> Want
        ensures marks { result ≡ end_marked turn self.old.state want }
        ensures after { self.new ≡ record self.old { state = wanted result self.old.state } }
    {
        let all = self.is_spurred(turn);
        let want = Want {
            can_read: want.read && (self.can_read() || all),
            can_write: want.write && (self.can_write() || all),
            ..want
        };
        self.count_want(&want);
        want
    }

    /// A poll was given this want, and left its marks.
    pub fn count_want(&mut self, want: &Want)
        ensures { self.new ≡ record self.old { state = wanted want.now self.old.state } }
    {
        self.tally.count_want(want);
    }

    pub fn accept(&mut self, connected: bool)
        ensures { self.new ≡ record self.old { state = accepted connected self.old.state } }
    {
        self.tally.made_connected |= connected;
    }

    pub fn connect_state(&mut self) -> ConnAnswer
        ensures answer { result ≡ conn_answer self.old.state }
        ensures after { self.new ≡ record self.old { state = after_check self.old.state } }
    {
        let answer = self.conn_answer();
        self.tally.count_check(answer);
        self.tally.count_fault(matches!(answer, ConnAnswer::Failed));
        answer
    }

    fn conn_answer(&self) -> ConnAnswer
        ensures { result ≡ conn_answer self.now.state }
    {
        if self.wait {
            decided_answer(self.decision)
        } else if self.tally.made_connected {
            ConnAnswer::Connected
        } else {
            ConnAnswer::Pending
        }
    }

    pub fn read(&mut self, into: &mut [u8]) -> ReadAnswer
        requires { 0 < length into.old }
        ensures answer { result ≡ read_answer self.old.state (length into.old) }
        ensures bytes { got_bytes result into.new ≡ take (length into.old) self.old.state.pending }
        ensures rest { drop (length (got_bytes result into.new)) into.new ≡ drop (length (got_bytes result into.new)) into.old }
        ensures after { self.new ≡ record self.old { state = after_read self.old.state (length into.old) } }
    {
        let answer = self.give(into);
        self.tally.count_read(into.len(), answer);
        self.tally.count_fault(matches!(answer, ReadAnswer::Failed));
        answer
    }

    fn give(&mut self, into: &mut [u8]) -> ReadAnswer
        requires { 0 < length into.old }
        ensures answer { result ≡ read_answer self.old.state (length into.old) }
        ensures bytes { got_bytes result into.new ≡ take (length into.old) self.old.state.pending }
        ensures rest { drop (length (got_bytes result into.new)) into.new ≡ drop (length (got_bytes result into.new)) into.old }
        ensures after { self.new ≡ record self.old { state = record self.old.state { given = self.old.state.given ++ take (length into.old) self.old.state.pending; pending = drop (length into.old) self.old.state.pending } } }
    {
        let (came, _) = self.bytes.split_at(self.came);
        let (_, pending) = came.split_at(self.given);
        let count = pending.len().min(into.len());
        if count == 0 {
            return answer_of_none(self.read_fails, self.eof);
        }
        let (next, _) = pending.split_at(count);
        let (front, _) = into.split_at_mut(count);
        front.copy_from_slice(next);
        self.given += count;
        ReadAnswer::Got(count)
    }

    pub fn write(&mut self, from: &[u8]) -> WriteAnswer
        requires { 0 < length from.now }
        ensures { Wrote self.old self.new from.now result }
    {
        let count = match self.may_take {
            Some(most) => from.len().min(most as usize),
            None => from.len(),
        };
        let (front, _) = from.split_at(count);
        if self.taken.extend_from_slice(front).is_err() {
            return WriteAnswer::NoMemory;
        }
        self.may_take = self.may_take.map(|most| most - count as u64);
        let answer = if count > 0 {
            WriteAnswer::Took(count)
        } else if self.write_fails {
            WriteAnswer::Failed
        } else {
            WriteAnswer::NotYet
        };
        self.tally.count_write(from.len());
        self.tally
            .count_fault(matches!(answer, WriteAnswer::Failed));
        answer
    }

    /// A read with this room was answered with a fault that is none of this end.
    pub fn fail_read(&mut self, room: usize)
        ensures { self.new ≡ record self.old { state = failed_read room self.old.state } }
    {
        self.tally.count_read(room, ReadAnswer::Failed);
    }

    /// A write that was offered so many bytes was answered with a fault that is none of this end.
    pub fn fail_write(&mut self, offer: usize)
        ensures { self.new ≡ record self.old { state = failed_write offer self.old.state } }
    {
        self.tally.count_write(offer);
    }

    /// A connect check was answered with a fault that is none of this end.
    pub fn fail_check(&mut self)
        ensures { self.new ≡ record self.old { state = failed_check self.old.state } }
    {
        self.tally.count_check(ConnAnswer::Failed);
    }

    pub fn close_write(&mut self)
        ensures { self.new ≡ record self.old { state = after_close_write self.old.state } }
    {
        self.tally.write_ended = true;
    }

    pub fn close(&mut self)
        ensures { self.new ≡ record self.old { state = after_close self.old.state } }
    {
        self.tally.closed = true;
    }
}

fn allow(may_take: Option<u64>, more: Option<u64>) -> Option<u64>
    ensures { result ≡ allowed may_take more }
{
    match (may_take, more) {
        (Some(count), Some(more)) => Some(count.saturating_add(more)),
        _ => None,
    }
}

// The first decision stands.
fn decide(decision: Option<bool>, connected: bool) -> Option<bool>
    ensures { result ≡ decided decision connected }
{
    decision.or(Some(connected))
}

fn decided_answer(decision: Option<bool>) -> ConnAnswer
    ensures { result ≡ decided_answer decision }
{
    match decision {
        None => ConnAnswer::Pending,
        Some(true) => ConnAnswer::Connected,
        Some(false) => ConnAnswer::Failed,
    }
}

fn is_same_turn(a: Option<usize>, b: Option<usize>) -> bool
    ensures { result ≡ same_turn a b }
{
    match (a, b) {
        (Some(a), Some(b)) => a == b,
        _ => false,
    }
}

// What a read is answered where no bytes are pending.
fn answer_of_none(fails: bool, eof: bool) -> ReadAnswer
    ensures { result ≡ (if fails then ReadAnswer.Failed else (if eof then ReadAnswer.Ended else ReadAnswer.NotYet)) }
{
    if fails {
        ReadAnswer::Failed
    } else if eof {
        ReadAnswer::Ended
    } else {
        ReadAnswer::NotYet
    }
}
