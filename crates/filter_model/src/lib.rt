//! What filters of a byte stream are: five functions of lists of bytes, what each obeys, and what a filter that runs step by step
//! makes of them. No code runs here. Definitions stand in `specs/`, in the order in which `specs/Lib.antt` names them; the laws stand on
//! the functions here.
#![tactic(auto)]

mod filter_laws;

pub use filter_laws::{
    a_running_filter_is_known, a_step_fits_its_target, a_step_is_the_function,
    a_switched_filter_is_lawful, cuts_agree, cuts_give_the_function, every_filter_is_lawful,
    runs_join, what_is_met_is_bad,
};
