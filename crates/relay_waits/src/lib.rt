//! What waits in a relay: the reasons for which hooks are to be called, and the timers of sides. It is kept by the numbers of
//! sides; that this is what the relay's model has by side stands on the functions that do nothing.
#![tactic(auto)]

mod due_laws;
mod numbered;
mod side_timers;
mod timer_laws;
mod waits;

pub use due_laws::{batches_are_fired, due_is_the_models, reasons_join, sides_are_forgotten};
pub use timer_laws::{
    due_timers_are_taken, first_is_earliest, timers_are_cancelled, timers_are_placed,
};
pub use waits::Waits;
