//! What it is worth that a relay stands for a trace: what a sceptic may conclude of a trace, of what the relay counts, and of its
//! buffers. The laws stand on functions that do nothing.
#![tactic(auto)]

mod trace_laws;

ghost use Rattle.relay_laws.specs.Laws.{CountsAreTold, LeftIsLegal, MeansConserved, NewRelayStands};

pub use trace_laws::{
    buffered_is_underway, done_is_whole, frees_are_for, frees_are_recorded_at_once, links_are_told,
    nothing_is_of_hooks, plainly_hands_on, reads_fit_as_scripted, stood_is_spellable,
};

/// Before the first turn a relay stands for the trace of no entries.
pub fn a_new_relay_stands()
    ensures { NewRelayStands }
{}

/// A trace for which a relay stands is legal, and no byte of it was lost, made or changed: the relay's buffers hold exactly
/// what the counts leave.
pub fn what_stands_is_conserved()
    ensures { MeansConserved }
{}

/// A trace for which a relay was left by a turn's answer can end with that answer.
pub fn what_is_left_is_legal()
    ensures { LeftIsLegal }
{}

/// Of each side a relay counts exactly the bytes that were read from its end and given to it.
pub fn what_is_counted_is_told()
    ensures { CountsAreTold }
{}
