//! The mode that plays a script on the two halves of a pair and writes what each line answers.
#![tactic(auto)]

mod answer;
mod half;
mod line;
mod play;
mod player;
mod step;

pub use play::play_pairs;
