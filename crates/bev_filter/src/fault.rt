// Why bytes don't go through a filter.
ghost use Rattle.std.specs.Prelude.{◌≡◌};
ghost use Rattle.bev_filter.specs.declared.fault.PassFault.TheVariants.{Memory};

use bev_core::BevFault;
use thiserror::Error;

/// Why bytes don't go through a filter.
///
/// Libevent: event2/bufferevent.h, `BEV_ERROR`; "Bufferevents: advanced topics", filters.
/// Differs: the place is told.
#[derive(Clone, Copy, Debug, PartialEq, Eq, Error)]
pub enum PassFault {
    /// Nothing has changed. No buffer has a length that would not fit a usize: there is no memory for it.
    #[error("out of memory")]
    Memory,
    /// The byte at this place of the filter's whole input is bad, or the input may not end there. Places count from 0. The
    /// bytes before it have passed.
    #[error("bad input at place {0}")]
    Filter(u64),
    /// The bytes that the filter used and those of the source are more than a u64 counts. Nothing has changed.
    #[error("too many bytes to count")]
    Spent,
}

impl From<BevFault> for PassFault {
    ghost from_gives = { λ _ fault. fault ≡ Memory };

    fn from(_: BevFault) -> PassFault {
        PassFault::Memory
    }
}
