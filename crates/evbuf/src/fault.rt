// Why a call on an evbuffer is refused.
ghost use Rattle.std.specs.Prelude.{◌≡◌};
ghost use Rattle.evbuf.specs.declared.fault.BufFault.TheVariants.{Memory, Spent};
ghost use Rattle.evbuf.specs.Faults.{buf_fault};

use evbuf_chain::ChainFault;
use std::alloc::{AllocError, AllocFailed};
use thiserror::Error;

/// Why a call on an evbuffer is refused. A refused call has changed nothing.
///
/// Libevent: event2/buffer.h, where such calls answer -1; "Evbuffers".
/// Differs: the frozen tests come before every other test, also where there is nothing to do, and moving a
/// buffer into itself is refused.
#[derive(Clone, Copy, Debug, PartialEq, Eq, Error)]
pub enum BufFault {
    #[error("out of memory")]
    Memory,
    #[error("the front of the buffer is frozen")]
    FrozenFront,
    #[error("the end of the buffer is frozen")]
    FrozenEnd,
    #[error("a buffer is not moved into itself")]
    SameBuffer,
    #[error("the buffer has no size callback of that number")]
    NoSuchCallback,
    /// A length would not fit a usize, or the number of a callback a u32.
    #[error("a length or a number does not fit")]
    Spent,
}

impl From<AllocError> for BufFault {
    ghost from_gives = { λ _ fault. fault ≡ Memory };

    fn from(_: AllocError) -> BufFault {
        BufFault::Memory
    }
}

impl<T: Drop> From<AllocFailed<T>> for BufFault {
    ghost from_gives = { λ _ fault. fault ≡ Memory };

    fn from(_: AllocFailed<T>) -> BufFault {
        BufFault::Memory
    }
}

impl From<ChainFault> for BufFault {
    ghost from_gives = { λ chain_fault fault. fault ≡ buf_fault chain_fault };

    fn from(fault: ChainFault) -> BufFault {
        match fault {
            ChainFault::Memory => BufFault::Memory,
            ChainFault::Spent => BufFault::Spent,
        }
    }
}
