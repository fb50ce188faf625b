// What filters obey, and what a running filter comes to, each law on a function whose contract it is.
ghost use Rattle.ev_types.specs.declared.filter.FilterKind.{FilterKind};
ghost use Rattle.filter_model.specs.Filter.{filter_of};
ghost use Rattle.filter_model.specs.FilterLaws.{IsFilter, MetIsBad};
ghost use Rattle.filter_model.specs.Switched.{SwitchedIsFilter};
ghost use Rattle.filter_model.specs.Running.{RunningIsKnown};
ghost use Rattle.filter_model.specs.FilterCuts.{StepIsFunction, StepFits, CutsGiveFunction, CutsAgree, RunsJoin};

/// Each of the five filters never takes output back, stops before a bad place, and is known while it runs by how many
/// bytes it used and the last of them.
pub fn every_filter_is_lawful()
    ensures { (k : FilterKind) → IsFilter (filter_of k) }
{}

/// A filter that is another one from a place of its input on obeys the same laws.
pub fn a_switched_filter_is_lawful()
    ensures { SwitchedIsFilter }
{}

/// What a running filter knows of its input is all that it needs: whatever the input was, it goes on in the same way.
pub fn a_running_filter_is_known()
    ensures { RunningIsKnown }
{}

/// The place that a filter meets is bad, and the first that is.
pub fn what_is_met_is_bad()
    ensures { MetIsBad }
{}

/// A step of a running filter with all the bytes that are left uses, makes, stops at and finishes with what the
/// definition says of the whole input.
pub fn a_step_is_the_function()
    ensures { StepIsFunction }
{}

/// What a step makes is bounded by what it is offered, and passes the limit by one byte at most.
pub fn a_step_fits_its_target()
    ensures { StepFits }
{}

/// However an input is cut into steps, whatever the limits are and however full the targets, what was made is the
/// definition's function of the bytes that were used.
pub fn cuts_give_the_function()
    ensures { CutsGiveFunction }
{}

/// Two ways to cut an input that came equally far made the same.
pub fn cuts_agree()
    ensures { CutsAgree }
{}

/// A run over two pieces in a row is the run over the first and then the run over the second.
pub fn runs_join()
    ensures { RunsJoin }
{}
