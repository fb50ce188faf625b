// How far a turn can go, as laws on functions that do nothing: a drive that makes few enough turns is never spent.
ghost use Rattle.relay_drive.specs.Bounds.{NewDriveIsWithin, TurnIsBounded, WithinIsNotWorn};

/// A drive with no link has counted nothing.
///
/// Own.
pub fn new_drive_is_within()
    ensures { NewDriveIsWithin }
{}

/// A turn raises what the counts and the number of entries are within by at most a number that grows with the links, and
/// leaves the settings.
///
/// Own.
pub fn turns_are_bounded()
    ensures { TurnIsBounded }
{}

/// A drive whose counts and entries are within less than 2^62 is not refused as spent.
///
/// Own.
pub fn within_is_not_worn()
    ensures { WithinIsNotWorn }
{}
