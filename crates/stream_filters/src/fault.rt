// Why a step of a filter is refused.
ghost use Rattle.std.specs.Prelude.{◌≡◌};
ghost use Rattle.stream_filters.specs.declared.fault.FilterFault.TheVariants.{Memory};

use std::alloc::AllocError;
use thiserror::Error;

/// Why a step is refused.
///
/// Libevent: event2/bufferevent.h, `BEV_ERROR`; "Bufferevents: advanced topics", filters.
/// Differs: the place is told.
#[derive(Clone, Copy, Debug, PartialEq, Eq, Error)]
pub enum FilterFault {
    /// Nothing has changed.
    #[error("out of memory")]
    Memory,
    /// The byte at this place of the filter's whole input is bad, or the input may not end there. Places count from 0. The
    /// step used so many bytes before it, and their output is in the target.
    #[error("bad input at place {place}")]
    BadByte { used: usize, place: u64 },
    /// The bytes that it used and those that it is offered are more than a u64 counts. Nothing has changed.
    #[error("too many bytes to count")]
    Spent,
}

impl From<AllocError> for FilterFault {
    ghost from_gives = { λ _ fault. fault ≡ Memory };

    fn from(_: AllocError) -> FilterFault {
        FilterFault::Memory
    }
}
