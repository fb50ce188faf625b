// Why a call on a world is refused.
ghost use Rattle.std.specs.Prelude.{◌≡◌};
ghost use Rattle.bev_world.specs.Refusals.{of_bev};
ghost use Rattle.bev_world.specs.declared.fault.WorldFault.TheVariants.{Memory};

use bev_core::BevFault;
use ev_types::NoMemory;
use std::alloc::{AllocError, AllocFailed};
use thiserror::Error;

/// Why a call on a world is refused. A refused call has changed nothing, but where the call says otherwise.
///
/// Libevent: event2/bufferevent.h, where such calls answer -1.
/// Differs: a freed bufferevent can still be named, and is refused.
#[derive(Clone, Copy, Debug, PartialEq, Eq, Error)]
pub enum WorldFault {
    #[error("out of memory")]
    Memory,
    /// No bufferevent of this identifier was made, or it was freed.
    #[error("no such bufferevent is live")]
    NotLive,
    #[error("the bufferevent is no socket")]
    NotSocket,
    /// All 2^32 - 1 identifiers are used.
    #[error("there are no more identifiers")]
    IdsSpent,
    #[error("the bufferevent has a filter over it")]
    Taken,
    #[error("the bufferevent is no filter")]
    NoFilter,
    /// The byte at this place of the filter's whole input is bad, or the input may not end there. Places count from 0.
    #[error("bad input at place {0}")]
    Filter(u64),
    /// There are 2^32 - 1 references.
    #[error("there are too many references")]
    TooManyRefs,
    /// A length would not fit a usize, or a count of bytes a u64.
    #[error("a number does not fit")]
    Spent,
}

impl From<BevFault> for WorldFault {
    ghost from_gives = { λ given fault. fault ≡ of_bev given };

    fn from(fault: BevFault) -> WorldFault {
        match fault {
            BevFault::Memory => WorldFault::Memory,
            BevFault::NotLive => WorldFault::NotLive,
            BevFault::TooManyRefs => WorldFault::TooManyRefs,
            BevFault::Spent => WorldFault::Spent,
        }
    }
}

impl From<NoMemory> for WorldFault {
    ghost from_gives = { λ _ fault. fault ≡ Memory };

    fn from(_: NoMemory) -> WorldFault {
        WorldFault::Memory
    }
}

impl From<AllocError> for WorldFault {
    ghost from_gives = { λ _ fault. fault ≡ Memory };

    fn from(_: AllocError) -> WorldFault {
        WorldFault::Memory
    }
}

impl<T: Drop> From<AllocFailed<T>> for WorldFault {
    ghost from_gives = { λ _ fault. fault ≡ Memory };

    fn from(_: AllocFailed<T>) -> WorldFault {
        WorldFault::Memory
    }
}
