// Why a call on the queues is refused.
ghost use Rattle.std.specs.Prelude.{◌≡◌};
ghost use Rattle.prio_queue.specs.declared.fault.PrioFault.TheVariants.{Memory};

use std::alloc::{AllocError, AllocFailed};
use thiserror::Error;

/// Why a call on the queues is refused. The queues are as they were.
#[derive(Clone, Copy, Debug, PartialEq, Eq, Error)]
pub enum PrioFault {
    #[error("out of memory")]
    Memory,
    /// There is no queue of this priority, or no base has so many.
    #[error("no such priority")]
    BadPriority,
}

impl From<AllocError> for PrioFault {
    ghost from_gives = { λ _ fault. fault ≡ Memory };

    fn from(_: AllocError) -> PrioFault {
        PrioFault::Memory
    }
}

impl<T: Drop> From<AllocFailed<T>> for PrioFault {
    ghost from_gives = { λ _ fault. fault ≡ Memory };

    fn from(_: AllocFailed<T>) -> PrioFault {
        PrioFault::Memory
    }
}
