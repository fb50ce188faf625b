// Why a call on a bufferevent is refused.
ghost use Rattle.std.specs.Prelude.{◌≡◌};
ghost use Rattle.bev_core.specs.declared.fault.BevFault.TheVariants.{Memory};

use ev_types::NoMemory;
use thiserror::Error;

/// Why a call on a bufferevent is refused. A refused call has changed nothing.
///
/// Libevent: event2/bufferevent.h, where such calls answer -1.
/// Differs: a freed bufferevent can still be named, and refuses.
#[derive(Clone, Copy, Debug, PartialEq, Eq, Error)]
pub enum BevFault {
    #[error("out of memory")]
    Memory,
    #[error("the bufferevent was freed")]
    NotLive,
    /// There are 2^32 - 1 references.
    #[error("there are too many references")]
    TooManyRefs,
    /// A length would not fit a usize.
    #[error("a length does not fit")]
    Spent,
}

impl From<NoMemory> for BevFault {
    ghost from_gives = { λ _ fault. fault ≡ Memory };

    fn from(_: NoMemory) -> BevFault {
        BevFault::Memory
    }
}
