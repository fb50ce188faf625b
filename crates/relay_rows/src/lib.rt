//! Worked runs of the relay, replayed against the definitions of `relay_model`. The replay stands in `specs/`; what it says of
//! these definitions, and the runs, stand on the functions here, which do nothing.
#![tactic(auto)]

mod laws;
mod runs;
mod wrong;

pub use laws::{one_state_is_reached, what_is_refused_is_illegal, what_is_replayed_is_legal};
pub use runs::{
    plain_runs_are_legal, runs_at_edges_are_legal, runs_of_asks_are_legal, runs_of_marks_are_legal,
    runs_of_reasons_are_legal, runs_with_filters_are_legal, runs_with_hooks_are_legal,
    runs_with_limits_are_legal,
};
pub use wrong::{
    wrong_closing_is_refused, wrong_edges_are_refused, wrong_hook_steps_are_refused,
    wrong_rooms_are_refused, wrong_turns_are_refused,
};
