// What holds of handles over any calls, by what each call's clauses say.
ghost use Rattle.min_timer.specs.Handles.{HandlesAreNew, HandlesStayGone};

/// The handle that is handed out next is that of no timer that waits.
///
/// Own.
pub fn handles_are_new()
    ensures { HandlesAreNew }
{}

/// A handle whose timer fired or was cancelled is never good again.
///
/// Own.
pub fn handles_stay_gone()
    ensures { HandlesStayGone }
{}
