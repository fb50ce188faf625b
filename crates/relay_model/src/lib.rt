//! What a run of the relay says: what was read and given, which traces are legal, what is conserved. Definitions stand
//! in `specs/`, in the order in which `specs/Lib.antt` names them; the laws that they obey stand on the functions here.
#![tactic(auto)]

mod buffer_laws;
mod closing_laws;
mod laws;
mod legal_laws;
mod played_laws;
mod refill_laws;
mod step_laws;
mod turn_laws;
mod work_laws;

pub use buffer_laws::{all_is_passed, buffers_are_within, buffers_are_within_so_far, counts_fit};
pub use closing_laws::{
    closing_turns_are_willing, closing_turns_go_on, drains_in_most, open_link_wants,
    two_closing_turns_go_on, willing_turns_go_on,
};
pub use laws::{
    all_is_there, given_begins_the_whole, passing_leaves_only_what_is_held,
    rest_is_there_after_a_free,
};
pub use legal_laws::{
    all_on_one_way, asked_frees_are_next, closing_frees_faulty, failed_are_freed_so,
    faults_are_answered, faults_are_freed, faulty_are_freed, freed_are_still, freed_stand_still,
    frees_are_called_for, frees_have_causes, frees_tell_totals, legal_is_quiet, links_in_order,
    nothing_is_left, places_are_first, state_is_told, time_rises,
};
pub use played_laws::{
    answers_go_on, end_ties_join, nothing_is_tied, nothing_stands, polls_fail_as_scripted,
    what_comes_is_read,
};
pub use refill_laws::{
    a_tick_brings_a_byte, groups_come_back, groups_owe_less, sides_come_back, sides_owe_nothing,
    two_ticks_bring_so_much,
};
pub use step_laws::{entries_keep_accounts, nothing_is_accounted, silent_steps_keep_accounts};
pub use turn_laws::{beginnings_are_legal, limits_are_kept, trace_tells_rates, trace_tells_shape};
pub use work_laws::{
    carrying_is_measured, moves_are_measured, moves_left_are_few, turns_are_few, work_falls,
};
