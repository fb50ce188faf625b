// Laws on how much is still to be done in a direction, each on a function whose contract it is.
ghost use Rattle.relay_model.specs.Work.{CarryingIsMeasured, MovesAreMeasured, MovesLeftAreFew, TurnsAreFew, WorkFalls};

/// Whatever hooks ask, no step makes work in a direction but a read, which makes four for a byte; each byte that is given takes one off.
pub fn work_falls()
    ensures { WorkFalls }
{}

/// In any part of a run so many events carry a direction on at most: by how much what is left of that fell, and five for each byte read.
pub fn carrying_is_measured()
    ensures { CarryingIsMeasured }
{}

/// What is left of moving on in a direction is at most four for each byte that it buffers, and five.
pub fn moves_left_are_few()
    ensures { MovesLeftAreFew }
{}

/// With no hooks, where all that moves on in a part of a run does so in some directions, so many events do at most: by how much what is
/// left of that fell, and five for each byte read.
pub fn moves_are_measured()
    ensures { MovesAreMeasured }
{}

/// With no hooks, turns of which no two in a row pass without an event that moves on are few, by the bytes that were read and buffered.
pub fn turns_are_few()
    ensures { TurnsAreFew }
{}
