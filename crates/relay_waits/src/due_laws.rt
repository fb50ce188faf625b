// What is due by number is what the model has due by side.
ghost use Rattle.relay_waits.specs.DueLaws.{ReasonsJoin, SidesAreForgotten, BatchesAreFired, DueIsTheModels};

/// A reason joins the entry of its side.
///
/// Own.
pub fn reasons_join()
    ensures { ReasonsJoin }
{}

/// What is dropped for a side's number is dropped for the side.
///
/// Own.
pub fn sides_are_forgotten()
    ensures { SidesAreForgotten }
{}

/// The calls of a batch are what a turn fires.
///
/// Own.
pub fn batches_are_fired()
    ensures { BatchesAreFired }
{}

/// What is pending and what the batch has left are the model's, whatever calls are made.
///
/// Own.
pub fn due_is_the_models()
    ensures { DueIsTheModels }
{}
