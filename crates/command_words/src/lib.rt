//! The words of the programs' command lines, read and judged: those of `evrelay`, which name their options, and the mode word of
//! `evplay` with what stands beside it. What the programs do with them stands elsewhere.
#![tactic(auto)]

mod fault;
mod mode;
mod options;
mod parse;
mod serve;
mod values;
mod words;

pub use fault::WordsFault;
pub use mode::{Ending, ScriptKind, mode_words};
pub use serve::serve_words;
pub use words::{BadWords, bad_words, program_words};
