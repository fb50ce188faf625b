// Plays the lines of a script one after another on the two halves of a pair, and keeps the text of what they are answered.
ghost use Rattle.std.specs.Prelude.{◌≡◌, ◌++◌, OnOk, IfOk, Some, None, string_bytes};
ghost use Rattle.pairs_mode.specs.Grammar.{IsWithin, IsAskWithin};
ghost use Rattle.pairs_mode.specs.Run.{fresh_run, refused_by, done_by, settled, after_ask, other_half, end_at, written, line_played};

use crate::answer::{Refusal, answer_text, end_text, lengths_text};
use crate::half::Half;
use crate::line::{Line, PairAsk};
use crate::step::{raises_end, refusal_of, settle, take_step};
use bev_core::Bev;
use ev_types::NoMemory;
use std::alloc::{AllocError, Global};
use std::marker::Model;

/// A run on the two halves of a pair. Contracts see the halves as answers show them.
///
/// Own.
#[derive(Drop)]
pub(crate) struct Player {
    alloc: Global,
    a: Bev,
    b: Bev,
    text: Vec<u8>,
}

impl Model for Player {
    ghost use Rattle.pairs_mode.specs.Run.{Run};

    ghost Value = { Run };

    ghost use Rattle.pairs_mode.specs.PlayerView.{run_shown};

    ghost view = { run_shown };
}

impl Player {
    /// No line was played yet.
    pub(crate) fn new(alloc: Global) -> Result<Player, NoMemory>
        ensures { IfOk result (λ player. player ≡ fresh_run) }
    {
        let (Ok(a), Ok(b)) = (Bev::new(alloc), Bev::new(alloc)) else {
            return Err(NoMemory);
        };
        Ok(Player {
            alloc,
            a,
            b,
            text: Vec::new(alloc),
        })
    }

    /// Plays one line and writes its answer.
    pub(crate) fn play_line(&mut self, line: &Line) -> Result<(), NoMemory>
        requires { IsWithin line.now }
        ensures { OnOk result (self.new ≡ line_played self.old line.now) }
    {
        let refusal = self.refused_by(line.half, &line.ask);
        self.ask(line.half, &line.ask, refusal)?;
        self.write(refusal, end_at(line.half, &line.ask, refusal))?;
        Ok(())
    }

    // Why a line is refused, if it is.
    fn refused_by(&self, half: Half, ask: &PairAsk) -> Option<Refusal>
        ensures { result ≡ refused_by self.now half ask.now }
    {
        match half {
            Half::A => refusal_of(ask, &self.a, &self.b),
            Half::B => refusal_of(ask, &self.b, &self.a),
        }
    }

    // Does what a line asks, and moves the bytes that go of themselves after it. A refused line does nothing.
    fn ask(&mut self, half: Half, ask: &PairAsk, refusal: Option<Refusal>) -> Result<(), NoMemory>
        requires within { IsAskWithin ask.now }
        requires refusal { refusal ≡ refused_by self.old half ask.now }
        ensures { OnOk result (self.new ≡ after_ask self.old half ask.now refusal) }
    {
        if refusal.is_some() {
            return Ok(());
        }
        self.do_step(half, ask)?;
        self.settle()
    }

    fn do_step(&mut self, half: Half, ask: &PairAsk) -> Result<(), NoMemory>
        requires within { IsAskWithin ask.now }
        requires open { refused_by self.old half ask.now ≡ None }
        ensures { OnOk result (self.new ≡ done_by self.old half ask.now) }
    {
        match half {
            Half::A => take_step(&mut self.a, &mut self.b, ask),
            Half::B => take_step(&mut self.b, &mut self.a, ask),
        }
    }

    fn settle(&mut self) -> Result<(), NoMemory>
        ensures { OnOk result (self.new ≡ settled self.old) }
    {
        settle(&mut self.a, &mut self.b)?;
        settle(&mut self.b, &mut self.a)
    }

    // Writes the line of an answer.
    fn write(&mut self, refusal: Option<Refusal>, end: Option<Half>) -> Result<(), AllocError>
        ensures { OnOk result (self.new ≡ written self.old refusal end) }
    {
        let a = lengths_text(self.alloc, &self.a)?;
        let b = lengths_text(self.alloc, &self.b)?;
        self.put(answer_text(refusal))?;
        self.put(end_text(end))?;
        self.put(" a")?;
        self.put(&a)?;
        self.put(" b")?;
        self.put(&b)?;
        self.put("\n")
    }

    fn put(&mut self, text: &str) -> Result<(), AllocError>
        ensures { OnOk result (self.new ≡ record self.old { text = self.old.text ++ text.now }) }
    {
        self.text.extend_from_slice(text.as_bytes())
    }

    /// The text of all answers.
    pub(crate) fn finish(self) -> Vec<u8>
        ensures { result.items ≡ self.text }
    {
        self.text
    }
}

// The half at which a line raised end of file, if it did.
fn end_at(half: Half, ask: &PairAsk, refusal: Option<Refusal>) -> Option<Half>
    ensures { result ≡ end_at half ask.now refusal }
{
    match refusal {
        None if raises_end(ask) => Some(other_half(half)),
        _ => None,
    }
}

fn other_half(half: Half) -> Half
    ensures { result ≡ other_half half }
{
    match half {
        Half::A => Half::B,
        Half::B => Half::A,
    }
}
