// The reasons of one pending entry.
ghost use Rattle.std.specs.Prelude.{◌≡◌, ℕ, ◌∷◌, not, true};

use ev_types::{Flags, Why};
use std::mem;

/// The reasons for which an owner's callback is due, those of events joined.
///
/// Own.
#[derive(Clone, Copy, Debug, PartialEq, Eq)]
pub struct Reasons {
    pub(crate) connected: bool,
    pub(crate) read: bool,
    pub(crate) write: bool,
    pub(crate) event: Option<Flags>,
    pub(crate) timer: bool,
}

impl Reasons {
    ghost use Rattle.deferred_cb.specs.DueCalls.{no_reasons, joined, has_reason, calls_of};

    /// One reason alone.
    pub(crate) fn of(why: Why) -> Reasons
        ensures { result ≡ joined no_reasons why }
    {
        let mut reasons = Reasons {
            connected: false,
            read: false,
            write: false,
            event: None,
            timer: false,
        };
        reasons.join(why);
        reasons
    }

    /// Joins one reason more.
    pub(crate) fn join(&mut self, why: Why)
        ensures { self.new ≡ joined self.old why }
    {
        match why {
            Why::Connected => self.connected = true,
            Why::Read => self.read = true,
            Why::Write => self.write = true,
            Why::Timer => self.timer = true,
            Why::Event(flags) => {
                let before = self.event.map_or(0, |event| event.0);
                self.event = Some(Flags(before | flags.0));
            }
        }
    }

    /// Whether no reason is left.
    pub(crate) fn is_empty(&self) -> bool
        ensures { result ≡ not (has_reason self.now) }
    {
        !(self.connected || self.read || self.write || self.event.is_some() || self.timer)
    }

    /// Takes the first reason, in the order in which the calls of an owner come.
    pub(crate) fn take_first(&mut self) -> Why
        requires { has_reason self.old ≡ true }
        ensures { (owner : ℕ) → calls_of (owner, self.old) ≡ (owner, result) ∷ calls_of (owner, self.new) }
    {
        if mem::take(&mut self.connected) {
            return Why::Connected;
        }
        if mem::take(&mut self.read) {
            return Why::Read;
        }
        if mem::take(&mut self.write) {
            return Why::Write;
        }
        if let Some(flags) = self.event.take() {
            return Why::Event(flags);
        }
        self.timer = false;
        Why::Timer
    }
}
