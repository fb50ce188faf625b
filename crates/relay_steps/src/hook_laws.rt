// Laws on hooks: what a relay does that fires them and does what they ask is what the model does.
ghost use Rattle.relay_steps.specs.HookLaws.{AsksAreStoodFor, DispatchesAreStoodFor, FiresAreStoodFor, StopsAreLeft};
ghost use Rattle.relay_steps.specs.ToFire.{WaitsAreHooked};

/// One ask of a hook, of any side, whatever it is but an ask about groups, and however it is answered: the relay stands for the trace
/// with its entries.
pub fn asks_are_stood_for()
    ensures { AsksAreStoodFor }
{}

/// A whole fire, with up to 256 asks: the relay stands for the trace with its entries, before the next reason or, where the hook
/// stopped the run, at its end.
pub fn fires_are_stood_for()
    ensures { FiresAreStoodFor }
{}

/// A whole dispatch: all that was due is fired, and the relay stands before passing.
pub fn dispatches_are_stood_for()
    ensures { DispatchesAreStoodFor }
{}

/// A dispatch that a hook stopped: the turn may answer that the run was stopped.
pub fn stops_are_left()
    ensures { StopsAreLeft }
{}

/// Whatever is due or left to fire is of a live side that has a hook, and its flags fit a byte.
pub fn waits_are_hooked()
    ensures { WaitsAreHooked }
{}
