// What the lines of a base script ask for.
ghost use Rattle.std.specs.Prelude.{◌≡◌, ◌≤◌, ◌^◌};

use std::marker::Model;

/// A delay or a moment of a script, in milliseconds: at most 2^40. Contracts see the number.
///
/// Own.
#[derive(Drop)]
pub struct Delay {
    ms: u64,
}

impl Model for Delay {
    ghost use Rattle.std.specs.Prelude.{ℕ, ◌≤◌, ◌^◌};

    ghost Value = { ℕ };

    ghost view = { λ d. d.ms };

    ghost invariant = { λ d. d.ms ≤ 2 ^ 40 };
}

impl Delay {
    /// This many milliseconds. Constant cost.
    pub fn new(ms: u64) -> Delay
        requires { ms ≤ 2 ^ 40 }
        ensures { result ≡ ms }
    {
        Delay { ms }
    }

    /// How many milliseconds. Constant cost.
    pub fn ms(&self) -> u64
        ensures same { result ≡ self.now }
        ensures within { result ≤ 2 ^ 40 }
    {
        self.ms
    }
}

/// What the callback of an event does as it fires.
///
/// Own.
#[derive(Drop)]
pub enum Reaction {
    /// Deletes the event of this name.
    Delete(u32),
    /// Adds the event, with a timeout.
    Add(u32, Delay),
    /// Makes the event active.
    Activate(u32),
    Break,
    Exit,
}

impl Reaction {
    /// The same act once more. Takes no memory; constant cost.
    pub fn again(&self) -> Reaction
        ensures { result ≡ self.now }
    {
        match self {
            Reaction::Delete(event) => Reaction::Delete(*event),
            Reaction::Add(event, delay) => Reaction::Add(*event, Delay::new(delay.ms())),
            Reaction::Activate(event) => Reaction::Activate(*event),
            Reaction::Break => Reaction::Break,
            Reaction::Exit => Reaction::Exit,
        }
    }
}

/// A line of a script that a base answers to. Events go by the names that the script gives them, 0 to 255.
///
/// Own.
#[derive(Drop)]
pub enum Command {
    /// Makes the event, persistent or not, and with its signal.
    New(u32, bool, Option<u32>),
    Priority(u32, u32),
    Add(u32, Option<Delay>),
    Delete(u32),
    Activate(u32),
    /// A signal comes so many times.
    Signal(u32, u32),
    /// At the fire of the event with this number, counted from 1, its callback does this too.
    On(u32, u64, Reaction),
    /// A turn at this moment, in milliseconds.
    Turn(u64),
    /// A delay that many events will have.
    Common(u64),
}

impl Command {
    /// The same line once more. Takes no memory; constant cost.
    pub fn again(&self) -> Command
        ensures { result ≡ self.now }
    {
        match self {
            Command::New(event, persist, signal) => Command::New(*event, *persist, *signal),
            Command::Priority(event, priority) => Command::Priority(*event, *priority),
            Command::Add(event, Some(delay)) => Command::Add(*event, Some(Delay::new(delay.ms()))),
            Command::Add(event, None) => Command::Add(*event, None),
            Command::Delete(event) => Command::Delete(*event),
            Command::Activate(event) => Command::Activate(*event),
            Command::Signal(number, count) => Command::Signal(*number, *count),
            Command::On(event, nth, act) => Command::On(*event, *nth, act.again()),
            Command::Turn(ms) => Command::Turn(*ms),
            Command::Common(ms) => Command::Common(*ms),
        }
    }
}
