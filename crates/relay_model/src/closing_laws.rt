// Laws on links that are drained, each on a function whose contract it is: while one is open something moves on, and a run adds few
// turns for it.
ghost use Rattle.relay_model.specs.ClosingTurns.{ClosingTurnsAreWilling, ClosingTurnsGoOn, DrainsInMost, TwoClosingTurnsGoOn};
ghost use Rattle.relay_model.specs.OpenLinks.{OpenLinkWants};
ghost use Rattle.relay_model.specs.MovingOn.{WillingTurnsGoOn};

/// Between two turns an open link wants something of the poll, but for limits and groups, while each free was of a side that was done.
pub fn open_link_wants()
    ensures { OpenLinkWants }
{}

/// A turn in which the port withholds nothing has an event that moves on, while a link is open and limits and groups let it.
pub fn willing_turns_go_on()
    ensures { WillingTurnsGoOn }
{}

/// In a closing turn of a run over a script that can be drained the port withholds nothing.
pub fn closing_turns_are_willing()
    ensures { ClosingTurnsAreWilling }
{}

/// In a run over a script that can be drained each closing turn has an event that moves on, while a link is open, where no group is set.
pub fn closing_turns_go_on()
    ensures { ClosingTurnsGoOn }
{}

/// Where groups are set, a closing turn or the turn before it has such an event.
pub fn two_closing_turns_go_on()
    ensures { TwoClosingTurnsGoOn }
{}

/// A run that drains its links makes no more closing turns than the most: 4, and 10 for each byte of the script that was not read, 8 for
/// each byte in buffers, and 24 for each link that is open or waits to be.
pub fn drains_in_most()
    ensures { DrainsInMost }
{}
