// Why a call on a chain is refused.
ghost use Rattle.std.specs.Prelude.{◌≡◌};
ghost use Rattle.evbuf_chain.specs.declared.fault.ChainFault.TheVariants.{Memory};

use std::alloc::{AllocError, AllocFailed};
use thiserror::Error;

/// Why a call on a chain is refused. A refused call has changed nothing.
///
/// Libevent: event2/buffer.h, where such calls answer -1; "Evbuffers".
#[derive(Clone, Copy, Debug, PartialEq, Eq, Error)]
pub enum ChainFault {
    #[error("out of memory")]
    Memory,
    /// The length would not fit a usize.
    #[error("a length does not fit")]
    Spent,
}

impl From<AllocError> for ChainFault {
    ghost from_gives = { λ _ fault. fault ≡ Memory };

    fn from(_: AllocError) -> ChainFault {
        ChainFault::Memory
    }
}

impl<T: Drop> From<AllocFailed<T>> for ChainFault {
    ghost from_gives = { λ _ fault. fault ≡ Memory };

    fn from(_: AllocFailed<T>) -> ChainFault {
        ChainFault::Memory
    }
}
