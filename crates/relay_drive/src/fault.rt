// How a turn ends, and why one is refused.
ghost use Rattle.std.specs.Prelude.{◌≡◌};

use ev_types::NoMemory;
use thiserror::Error;

/// How a turn ended that was not refused.
///
/// Own.
#[derive(Clone, Copy, Debug, PartialEq, Eq)]
pub enum TurnEnd {
    Went,
    /// A hook of this link asked the run to end. Every later turn ends so too, with no call of the port and no entry.
    Stopped(u32),
}

/// Why a turn was refused. Every later turn is refused so too.
///
/// Own.
#[derive(Clone, Copy, Debug, PartialEq, Eq, Error)]
pub enum DriveFault {
    #[error("out of memory")]
    Memory,
    /// The poll failed.
    #[error("poll fault")]
    PollFault,
    /// The listener failed.
    #[error("open fault")]
    OpenFault,
    /// A count, or the number of the trace's entries, had come to 2^62 as the turn began.
    #[error("count spent")]
    Spent,
}

impl From<NoMemory> for DriveFault {
    ghost use Rattle.std.specs.Prelude.{◌≡◌};
    ghost use Rattle.relay_drive.specs.declared.fault.DriveFault.TheVariants.{Memory};

    ghost from_gives = { λ _ fault. fault ≡ Memory };

    fn from(_: NoMemory) -> DriveFault {
        DriveFault::Memory
    }
}
