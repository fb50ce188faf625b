// The links of a script port with their ends, by the number of the side. What the script brings in is known from the
// beginning, so that its lines take no memory.
ghost use Rattle.std.specs.Prelude.{◌≡◌, ◌<◌, ◌==◌, ◌++◌, ◌∷◌, [], length, take, drop, map, filter, not, IfOk, OnOk, Option, None, true};
ghost use Rattle.std.specs.Prelude.{false, ◌&&◌, if◌then◌else◌};
ghost use Rattle.ev_port.specs.Ends.{got_bytes};
ghost use Rattle.ev_port.specs.Table.{RowsStay, is_marked, named};
ghost use Rattle.script_port.specs.ScriptEnds.{after_read, after_check, after_close_write, after_close, accepted, wanted};
ghost use Rattle.script_port.specs.ScriptLinks.{at_end, out_end, links_of, entered, marked, unmarked, polled, after_wants, accept_answer};
ghost use Rattle.script_port.specs.ScriptLinks.{accept_first, read_answer_at, pending_at, beyond_answer, WroteAt, conn_answer_at};
ghost use Rattle.script_port.specs.ScriptLinks.{changed};
ghost use Rattle.script_port.specs.ScriptClosing.{closing_end, closing_ends, unread};
ghost use Rattle.script_port.specs.ScriptPort.{poll_marks};
ghost use Rattle.script_port.specs.FailedCalls.{failed_read, failed_write, failed_check};
ghost use Rattle.script_port.specs.KeptLines.{kept_line};
ghost use Rattle.script_port.specs.ScriptKept.{line_at, links_after_line, links_after_lines, with_links, with_bytes, with_all_bytes};
ghost use Rattle.script_port.specs.ScriptKept.{TookWaiting};

use crate::kept_line::{EndLine, KeptLine};
use crate::script_end::ScriptEnd;
use ev_port::{Accepted, MarkWant, Want, WantTable};
use ev_types::{ConnAnswer, NoMemory, ReadAnswer, Side, SideId, TurnLine, WriteAnswer};
use std::alloc::Global;
use std::marker::Model;

/// All links of the script. Of `waits`, which tells of each whether its line says wait, `opened` links were opened so
/// far, and `accepted` of these were accepted. `turn` is the place of the running turn, and `poll_fails` of it alone.
/// `closing` stands from the first closing turn on.
///
/// Own.
#[derive(Drop)]
pub(crate) struct ScriptLinks {
    waits: Vec<bool>,
    opened: usize,
    accepted: usize,
    ends: Vec<ScriptEnd>,
    turn: Option<usize>,
    poll_fails: bool,
    closing: bool,
}

impl Model for ScriptLinks {
    ghost use Rattle.script_port.specs.ScriptState.{LinksKept};

    ghost Value = { LinksKept };

    ghost use Rattle.script_port.specs.ScriptLinksView.{links_kept, IsLinks};

    ghost view = { links_kept };

    ghost invariant = { IsLinks };
}

impl ScriptLinks {
    /// No links. Takes no memory.
    pub fn new(alloc: Global) -> ScriptLinks
        ensures { result ≡ record { state = record { waiting = []; ends = []; turn = None; poll_fails = false; closing = false }; to_open = []; to_come = [] } }
    {
        ScriptLinks {
            waits: Vec::new(alloc),
            opened: 0,
            accepted: 0,
            ends: Vec::new(alloc),
            turn: None,
            poll_fails: false,
            closing: false,
        }
    }

    fn add_link(&mut self, alloc: Global, wait: bool) -> Result<(), NoMemory>
        ensures { OnOk result (self.new ≡ with_links (wait ∷ []) self.old) }
    {
        self.waits.push(wait)?;
        self.ends.push(ScriptEnd::new(alloc, false))?;
        self.ends.push(ScriptEnd::new(alloc, wait))?;
        Ok(())
    }

    /// The links that these lines open are still to be opened, behind those from before.
    pub fn add_links(&mut self, alloc: Global, lines: &[TurnLine]) -> Result<(), NoMemory>
        ensures { OnOk result (self.new ≡ with_links (links_of lines.now) self.old) }
    {
        for line in lines {
            if let TurnLine::NewLink { wait } = line {
                self.add_link(alloc, *wait)?;
            }
        }
        Ok(())
    }

    fn expect(&mut self, line: &TurnLine) -> Result<(), NoMemory>
        ensures { OnOk result (self.new ≡ record self.old { to_come = with_bytes line.now self.old.to_come }) }
    {
        if let TurnLine::Pending(end, list) = line {
            let number = end.number();
            if number < self.ends.len() {
                self.ends[number].expect(&list.bytes)?;
            }
        }
        Ok(())
    }

    fn keep_line(&mut self, line: TurnLine) -> Result<KeptLine, NoMemory>
        ensures kept { IfOk result (λ kept. kept ≡ kept_line line) }
        ensures after { OnOk result (self.new ≡ record self.old { to_come = with_bytes line self.old.to_come }) }
    {
        self.expect(&line)?;
        Ok(KeptLine::of(&line))
    }

    /// The bytes that these lines bring in are still to come, behind those from before. Each line goes as soon as its bytes
    /// are copied, and this is what is kept of all.
    pub fn keep_lines(
        &mut self,
        alloc: Global,
        lines: Vec<TurnLine>,
    ) -> Result<Vec<KeptLine>, NoMemory>
        ensures kept { IfOk result (λ kept. kept.items ≡ map kept_line lines.items) }
        ensures after { OnOk result (self.new ≡ record self.old { to_come = with_all_bytes lines.items self.old.to_come }) }
    {
        let mut kept = Vec::with_capacity(alloc, lines.len())?;
        for line in lines {
            let line = self.keep_line(line)?;
            kept.push(line)?;
        }
        Ok(kept)
    }

    /// Another turn runs, or none.
    pub fn enter(&mut self, turn: Option<usize>)
        ensures { self.new ≡ record self.old { state = entered turn self.old.state } }
    {
        self.turn = turn;
        self.poll_fails = false;
    }

    fn take_all_at(&mut self, place: usize)
        ensures { self.new ≡ record self.old { state = record self.old.state { ends = changed place closing_end self.old.state.ends } } }
    {
        if place < self.ends.len() {
            self.ends[place].take_all();
        }
    }

    /// A closing turn begins: from here on every end takes every write. Linear in the number of links.
    pub fn take_all(&mut self)
        ensures { self.new ≡ record self.old { state = closing_ends self.old.state } }
    {
        for place in 0..self.ends.len() {
            self.take_all_at(place);
        }
        self.closing = true;
    }

    /// Lines of the running turn are applied in their order.
    pub fn apply_all(&mut self, lines: &[KeptLine])
        ensures { self.new ≡ links_after_lines lines.now self.old }
    {
        for line in lines {
            self.apply(*line);
        }
    }

    fn apply(&mut self, line: KeptLine)
        ensures { self.new ≡ links_after_line line self.old }
    {
        match line {
            KeptLine::NewLink => self.open_next(),
            KeptLine::At(end, line) => self.apply_at(end, line),
            KeptLine::PollFail => self.poll_fails = true,
        }
    }

    fn open_next(&mut self)
        ensures { self.new ≡ record self.old { state = record self.old.state { waiting = self.old.state.waiting ++ take 1 self.old.to_open }; to_open = drop 1 self.old.to_open } }
    {
        self.opened += (self.waits.len() - self.opened).min(1);
    }

    fn apply_at(&mut self, end: SideId, line: EndLine)
        ensures { self.new ≡ line_at end line self.old }
    {
        let number = end.number();
        if number < self.ends.len() {
            let turn = self.turn;
            self.ends[number].apply(turn, line);
        }
    }

    pub fn read(&mut self, end: SideId, into: &mut [u8]) -> ReadAnswer
        requires { 0 < length into.old }
        ensures answer { result ≡ read_answer_at self.old.state end (length into.old) }
        ensures bytes { got_bytes result into.new ≡ take (length into.old) (pending_at self.old.state end) }
        ensures rest { drop (length (got_bytes result into.new)) into.new ≡ drop (length (got_bytes result into.new)) into.old }
        ensures after { self.new ≡ record self.old { state = at_end end (λ s. after_read s (length into.old)) self.old.state } }
    {
        let number = end.number();
        if number < self.ends.len() {
            self.ends[number].read(into)
        } else {
            ReadAnswer::NotYet
        }
    }

    pub fn write(&mut self, end: SideId, from: &[u8]) -> WriteAnswer
        requires { 0 < length from.now }
        ensures wrote { WroteAt self.old.state self.new.state end from.now result }
        ensures kept { self.new ≡ record self.old { state = self.new.state } }
    {
        let number = end.number();
        if number < self.ends.len() {
            self.ends[number].write(from)
        } else {
            beyond_answer(self.closing, from.len())
        }
    }

    pub fn connect_state(&mut self, end: SideId) -> ConnAnswer
        ensures answer { result ≡ conn_answer_at self.old.state end }
        ensures after { self.new ≡ record self.old { state = at_end end after_check self.old.state } }
    {
        let number = end.number();
        if number < self.ends.len() {
            self.ends[number].connect_state()
        } else {
            ConnAnswer::Pending
        }
    }

    pub fn close_write(&mut self, end: SideId)
        ensures { self.new ≡ record self.old { state = at_end end after_close_write self.old.state } }
    {
        let number = end.number();
        if number < self.ends.len() {
            self.ends[number].close_write();
        }
    }

    pub fn close(&mut self, end: SideId)
        ensures { self.new ≡ record self.old { state = at_end end after_close self.old.state } }
    {
        let number = end.number();
        if number < self.ends.len() {
            self.ends[number].close();
        }
    }

    /// A read of the end with this room was answered with a fault that is none of this port.
    pub fn fail_read(&mut self, end: SideId, room: usize)
        ensures { self.new ≡ record self.old { state = at_end end (failed_read room) self.old.state } }
    {
        let number = end.number();
        if number < self.ends.len() {
            self.ends[number].fail_read(room);
        }
    }

    /// A write to the end that was offered so many bytes was answered with a fault that is none of this port.
    pub fn fail_write(&mut self, end: SideId, offer: usize)
        ensures { self.new ≡ record self.old { state = at_end end (failed_write offer) self.old.state } }
    {
        let number = end.number();
        if number < self.ends.len() {
            self.ends[number].fail_write(offer);
        }
    }

    /// A connect check of the end was answered with a fault that is none of this port.
    pub fn fail_check(&mut self, end: SideId)
        ensures { self.new ≡ record self.old { state = at_end end failed_check self.old.state } }
    {
        let number = end.number();
        if number < self.ends.len() {
            self.ends[number].fail_check();
        }
    }

    fn accept_end(&mut self, end: SideId, connected: bool)
        ensures { self.new ≡ record self.old { state = at_end end (accepted connected) self.old.state } }
    {
        let number = end.number();
        if number < self.ends.len() {
            self.ends[number].accept(connected);
        }
    }

    fn count_want(&mut self, want: &Want)
        ensures { self.new ≡ record self.old { state = at_end want.now.side (wanted want.now) self.old.state } }
    {
        let number = want.side.number();
        if number < self.ends.len() {
            self.ends[number].count_want(want);
        }
    }

    /// A poll was given these wants, and left their marks.
    pub fn count_wants(&mut self, wants: &[Want])
        ensures { self.new ≡ record self.old { state = after_wants wants.now self.old.state } }
    {
        for want in wants {
            self.count_want(want);
        }
    }

    fn poll_want(&mut self, want: Want) -> Want
        ensures marks { result ≡ marked self.old.state want }
        ensures after { self.new ≡ record self.old { state = at_end want.side (wanted result) self.old.state } }
    {
        let number = want.side.number();
        if number < self.ends.len() {
            self.ends[number].poll(self.turn, want)
        } else {
            marked_beyond(self.closing, want)
        }
    }

    fn mark_want(&mut self, want: Want) -> Want
        ensures marks { result ≡ polled self.old.state want }
        ensures after { self.new ≡ record self.old { state = at_end want.side (wanted result) self.old.state } }
    {
        if !self.poll_fails {
            return self.poll_want(want);
        }
        let want = unmarked(want);
        self.count_want(&want);
        want
    }

    /// Whether the poll fails in the running turn.
    pub fn poll_fails(&self) -> bool
        ensures { result ≡ self.now.state.poll_fails }
    {
        self.poll_fails
    }

    /// A poll that does not fail is given these wants: what can be done, or is to be marked in this turn, is marked, and the
    /// wants are counted with their marks.
    pub fn poll(&mut self, wants: &mut [Want])
        ensures marks { wants.new ≡ map (λ w. marked self.old.state w) wants.old }
        ensures after { self.new ≡ record self.old { state = after_wants wants.new self.old.state } }
    {
        for want in wants.iter_mut() {
            *want = self.poll_want(*want);
        }
    }

    /// As `poll`, of all wants of a table, and where the poll fails nothing is marked. The table lists the wants with a mark.
    pub fn poll_table(&mut self, wants: &mut WantTable)
        ensures rows { RowsStay wants.old wants.new }
        ensures list { wants.new.list ≡ filter is_marked (poll_marks self.old.state (named wants.old)) }
        ensures after { self.new ≡ record self.old { state = after_wants (poll_marks self.old.state (named wants.old)) self.old.state } }
    {
        wants.mark_each(self);
    }

    /// How many bytes came in that were not read yet, at all ends. Linear in the number of links.
    pub fn unread(&self) -> u64
        ensures { result ≡ unread self.now.state }
    {
        let mut sum: u64 = 0;
        for end in &self.ends {
            sum = sum.saturating_add(end.pending() as u64);
        }
        sum
    }

    /// How many links wait to be accepted. Constant.
    pub fn waiting(&self) -> usize
        ensures { result ≡ length self.now.state.waiting }
    {
        self.opened - self.accepted
    }

    /// Whether a link waits to be accepted.
    pub fn has_waiting(&self) -> bool
        ensures { result ≡ not (length self.now.state.waiting == 0) }
    {
        self.accepted < self.opened
    }

    fn take_waiting(&mut self) -> Option<bool>
        ensures { TookWaiting self.old self.new result }
    {
        if self.accepted == self.opened {
            return None;
        }
        let wait = self.waits[self.accepted];
        self.accepted += 1;
        Some(wait)
    }

    /// Accepts the first link that waits, as the link with this number.
    pub fn accept(&mut self, link: u32) -> Accepted
        ensures answer { result ≡ accept_answer self.old.state.waiting }
        ensures after { self.new ≡ record self.old { state = accept_first link self.old.state.waiting self.old.state } }
    {
        match self.take_waiting() {
            None => Accepted::NotYet,
            Some(wait) => {
                let connected = !wait;
                self.accept_end(
                    SideId {
                        link,
                        side: Side::In,
                    },
                    true,
                );
                self.accept_end(out_end(link), connected);
                Accepted::Link { connected }
            }
        }
    }
}

/// A want is marked as the running turn has it, and counted with its marks.
impl MarkWant for ScriptLinks {
    ghost use Rattle.script_port.specs.ScriptLinks.{polled, at_end};
    ghost use Rattle.script_port.specs.ScriptEnds.{wanted};

    ghost marked = { λ l w. polled l.state w };

    ghost after = { λ l w. record l { state = at_end w.side (wanted (polled l.state w)) l.state } };

    fn mark(&mut self, want: Want) -> Want {
        self.mark_want(want)
    }
}

/// The Out end of a link.
fn out_end(link: u32) -> SideId
    ensures { result ≡ out_end link }
{
    SideId {
        link,
        side: Side::Out,
    }
}

/// What a write is answered at an end of no link of the script.
fn beyond_answer(closing: bool, offer: usize) -> WriteAnswer
    ensures { result ≡ beyond_answer closing offer }
{
    if closing && offer != 0 {
        WriteAnswer::Took(offer)
    } else {
        WriteAnswer::NotYet
    }
}

/// A want of an end of no link of the script, with its marks.
fn marked_beyond(closing: bool, want: Want) -> Want
    ensures { result ≡ record want { can_read = false; can_write = want.write && closing } }
{
    Want {
        can_read: false,
        can_write: want.write && closing,
        ..want
    }
}

/// Clears all marks.
pub(crate) fn unmark(wants: &mut [Want])
    ensures { wants.new ≡ map unmarked wants.old }
{
    for want in wants.iter_mut() {
        *want = unmarked(*want);
    }
}

fn unmarked(want: Want) -> Want
    ensures { result ≡ unmarked want }
{
    Want {
        can_read: false,
        can_write: false,
        ..want
    }
}
