//! A scribe that writes the trace of a run as text, line by line, into one text.
#![tactic(auto)]

mod scribe;

pub use scribe::TextScribe;
