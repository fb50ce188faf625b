//! A filter between two bufferevents: bytes go through it from a buffer of the one to the buffer of the same direction of the
//! other. When they go, and who hears of it, is left to the program.
#![tactic(auto)]

mod fault;
mod own_filter;
mod passing;
mod source;
mod step;

pub use bev_core::Bev;
pub use fault::PassFault;
pub use own_filter::{process_input_by, process_output_by};
pub use passing::{process_input, process_output};
pub use step::{reserve_step, step_reserved};
pub use stream_filters::{AnyFilter, FilterKind, Mode, Step, StreamFilter};
