// What is kept of a side beside its two bufferevents, and of the direction that begins at it.
ghost use Rattle.std.specs.Prelude.{◌≡◌, ◌<◌, ◌+◌, ◌*◌};
ghost use Rattle.ev_types.specs.Sides.{number};
ghost use Rattle.relay_model.specs.Rooms.{mark_or};
ghost use Rattle.relay_sides.specs.Bevs.{lower_of, upper_of};
ghost use Rattle.relay_sides.specs.SideView.{new_state};

use ev_types::SideId;
use side_limit::SideLimit;

/// The most bytes of one read and of one write, and the length of the input at which reading stops where no mark is set.
pub const MOST_AT_ONCE: usize = 16_384;

/// A mark that was set, or another where it is 0.
pub(crate) fn mark_or(set: u64, usual: u64) -> u64
    ensures { result ≡ mark_or set usual }
{
    if set == 0 { usual } else { set }
}

/// What no bufferevent has of a side: whether its end is known to be connected, whether a timeout has passed, whether writing was ended
/// at its end and the end closed, and the first bad place that a filter of the side met. Of the direction from it: whether it is held,
/// how many bytes were read, made of them by the read filter of this side, moved, made of those by the write filter of the peer, and
/// given to its end. Its limit, where it has one, and the number of its group.
#[derive(Drop)]
pub(crate) struct SideState {
    pub(crate) connecting: bool,
    pub(crate) expired: bool,
    pub(crate) write_ended: bool,
    pub(crate) closed: bool,
    pub(crate) held: bool,
    pub(crate) bad: Option<u64>,
    pub(crate) read: u64,
    pub(crate) read_made: u64,
    pub(crate) moved: u64,
    pub(crate) write_made: u64,
    pub(crate) given: u64,
    pub(crate) limit: Option<Box<SideLimit>>,
    pub(crate) group: Option<u32>,
}

impl SideState {
    /// That of a side whose link opens.
    pub(crate) fn new(
        connected: bool,
        limit: Option<Box<SideLimit>>,
        group: Option<u32>,
    ) -> SideState
        ensures { result ≡ new_state connected limit group }
    {
        SideState {
            connecting: !connected,
            expired: false,
            write_ended: false,
            closed: false,
            held: false,
            bad: None,
            read: 0,
            read_made: 0,
            moved: 0,
            write_made: 0,
            given: 0,
            limit,
            group,
        }
    }
}

/// The number of the bufferevent of a side's end.
pub(crate) fn lower(side: SideId) -> usize
    ensures { result ≡ lower_of (number side) }
{
    2 * side.number()
}

/// The number of the filter over it.
pub(crate) fn upper(side: SideId) -> usize
    ensures { result ≡ upper_of (number side) }
{
    2 * side.number() + 1
}
