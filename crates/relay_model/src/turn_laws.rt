// The laws of legal traces, each on a function whose contract it is.
ghost use Rattle.relay_model.specs.TurnLaws.{BeginningsAreLegal, LimitsAreKept, TraceTellsRates, TraceTellsShape};

/// The clock, the links, and how many sides and directions the relay keeps are those of the trace.
pub fn trace_tells_shape()
    ensures { TraceTellsShape }
{}

/// A trace that is cut off anywhere is still legal.
pub fn beginnings_are_legal()
    ensures { BeginningsAreLegal }
{}

/// The limit and the group of a side are those of the settings, or of what a hook last asked.
pub fn trace_tells_rates()
    ensures { TraceTellsRates }
{}

/// Whatever hooks, clocks and ports do, no side and no group moves more than its limit lets through.
pub fn limits_are_kept()
    ensures { LimitsAreKept }
{}
