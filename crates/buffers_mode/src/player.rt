// Plays the lines of a script one after another, and keeps the text of what they are answered.
//
// After each line the buffers report in rising number, but for those that are deferred; then the tickets that were
// handed out are told.
ghost use Rattle.std.specs.Prelude.{◌≡◌, ◌≤◌, ◌<◌, ◌++◌, ◌∷◌, length, OnOk, IfOk};
ghost use Rattle.buffers_mode.specs.Answers.{answer_words};
ghost use Rattle.buffers_mode.specs.Grammar.{AskNames, NamesBuffers};
ghost use Rattle.buffers_mode.specs.Played.{Took, Went};
ghost use Rattle.buffers_mode.specs.Run.{fresh_run, ask_step, asks_reports, reports_after, after_reports_run, after_released_run};
ghost use Rattle.buffers_mode.specs.Run.{reported_by, released_by, line_played};
ghost use Rattle.script_text.specs.Lines.{line_of};

use crate::ModeFault;
use crate::answer::{Answer, answer_text};
use crate::line::{BufferAsk, Line};
use crate::moves::{add_buffer, own_step, remove_buffer};
use crate::tell::{tell_released, tell_reports};
use ev_types::NoMemory;
use evbuf::Buffers;
use std::alloc::{AllocError, Global};
use std::marker::Model;

/// How many buffers a script has.
pub(crate) const BUFFERS: usize = 16;

/// A run on sixteen buffers. Contracts see the buffers as answers show them.
///
/// Own.
#[derive(Drop)]
pub(crate) struct Player {
    alloc: Global,
    buffers: Buffers,
    deferred: [bool; BUFFERS],
    text: Vec<u8>,
}

impl Model for Player {
    ghost use Rattle.buffers_mode.specs.Run.{Run};

    ghost Value = { Run };

    ghost use Rattle.buffers_mode.specs.PlayerView.{run_shown, HasAll};

    ghost view = { run_shown };

    ghost invariant = { HasAll };
}

impl Player {
    /// No line was played yet. Takes memory for the list of the buffers.
    pub(crate) fn new(alloc: Global) -> Result<Player, NoMemory>
        ensures { IfOk result (λ player. player ≡ fresh_run) }
    {
        let Ok(buffers) = Buffers::new(alloc, BUFFERS) else {
            return Err(NoMemory);
        };
        Ok(Player {
            alloc,
            buffers,
            deferred: [false; BUFFERS],
            text: Vec::new(alloc),
        })
    }

    /// Plays one line and writes its answer, and what the buffers tell after it.
    pub(crate) fn play_line(&mut self, line: &Line) -> Result<(), ModeFault>
        requires { NamesBuffers line.now }
        ensures { Went result self.new (line_played self.old line.now) }
    {
        let answer = self.ask(line.buffer, &line.ask)?;
        self.write_answer(&answer)?;
        self.report(line)?;
        self.release()?;
        Ok(())
    }

    /// Does what a line asks.
    fn ask(&mut self, b: usize, ask: &BufferAsk) -> Result<Answer, ModeFault>
        requires there { b < BUFFERS }
        requires names { AskNames ask.now }
        ensures { Took result self.new (ask_step self.old b ask.now) }
    {
        match ask {
            BufferAsk::Own(op) => own_step(self.alloc, &mut self.buffers, b, op),
            BufferAsk::AddBuffer(from) => add_buffer(&mut self.buffers, b, *from),
            BufferAsk::RemoveBuffer(to, n) => remove_buffer(&mut self.buffers, b, *to, *n),
            BufferAsk::Defer(on) => {
                self.deferred[b] = *on;
                Ok(Answer::Done)
            }
            BufferAsk::Reports => Ok(Answer::Done),
        }
    }

    fn write_answer(&mut self, answer: &Answer) -> Result<(), AllocError>
        ensures { OnOk result (self.new
            ≡ record self.old { text = self.old.text ++ line_of (answer_words answer.now) }) }
    {
        let text = answer_text(self.alloc, answer)?;
        self.text.extend_from_slice(text.as_bytes())?;
        Ok(())
    }

    /// How many buffers there are.
    fn count(&self) -> usize
        ensures all { result ≡ BUFFERS }
        ensures there { length self.now.buffers ≡ BUFFERS }
    {
        let _written = self.text.len();
        BUFFERS
    }

    /// Writes the reports that are made after a line.
    fn report(&mut self, line: &Line) -> Result<(), AllocError>
        ensures { OnOk result (self.new ≡ after_reports_run line.now self.old) }
    {
        for b in 0..self.count() {
            if self.reports_after(line, b) {
                self.report_buffer(b)?;
            }
        }
        Ok(())
    }

    fn report_buffer(&mut self, b: usize) -> Result<(), AllocError>
        requires { b < BUFFERS }
        ensures { OnOk result (self.new ≡ reported_by b self.old) }
    {
        tell_reports(self.alloc, b, self.buffers.at(b), &mut self.text)
    }

    fn release_buffer(&mut self, b: usize) -> Result<(), AllocError>
        requires { b < BUFFERS }
        ensures { OnOk result (self.new ≡ released_by b self.old) }
    {
        tell_released(self.alloc, self.buffers.at(b), &mut self.text)
    }

    /// Does the buffer of a number report after the line?
    fn reports_after(&self, line: &Line, b: usize) -> bool
        requires { b < BUFFERS }
        ensures { result ≡ reports_after self.now.deferred line.now b }
    {
        !self.deferred[b] || (line.buffer == b && asks_reports(&line.ask))
    }

    /// Writes the tickets that were handed out.
    fn release(&mut self) -> Result<(), AllocError>
        ensures { OnOk result (self.new ≡ after_released_run self.old) }
    {
        for b in 0..self.count() {
            self.release_buffer(b)?;
        }
        Ok(())
    }

    /// The text of all answers.
    pub(crate) fn finish(self) -> Vec<u8>
        ensures { result.items ≡ self.text }
    {
        self.text
    }
}

/// Does the line ask for the reports of its buffer?
fn asks_reports(ask: &BufferAsk) -> bool
    ensures { result ≡ asks_reports ask.now }
{
    matches!(ask, BufferAsk::Reports)
}
