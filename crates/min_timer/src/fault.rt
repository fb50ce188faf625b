// Why a call on the timers is refused.
ghost use Rattle.std.specs.Prelude.{◌≡◌};
ghost use Rattle.min_timer.specs.declared.fault.TimerFault.TheVariants.{Memory};

use std::alloc::{AllocError, AllocFailed};
use thiserror::Error;

/// Why a call on the timers is refused. The timers are as they were.
#[derive(Clone, Copy, Debug, PartialEq, Eq, Error)]
pub enum TimerFault {
    #[error("out of memory")]
    Memory,
    /// The timer fired or was cancelled.
    #[error("the timer is not pending")]
    NotPending,
    /// 2^64 - 1 timers were added, and there is no number for another.
    #[error("no number is left for a timer")]
    Spent,
    /// 256 other delays are registered.
    #[error("too many delays")]
    TooManyDelays,
}

impl From<AllocError> for TimerFault {
    ghost from_gives = { λ _ fault. fault ≡ Memory };

    fn from(_: AllocError) -> TimerFault {
        TimerFault::Memory
    }
}

impl<T: Drop> From<AllocFailed<T>> for TimerFault {
    ghost from_gives = { λ _ fault. fault ≡ Memory };

    fn from(_: AllocFailed<T>) -> TimerFault {
        TimerFault::Memory
    }
}
