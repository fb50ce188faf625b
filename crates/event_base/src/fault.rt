// Why a call on a base is refused.
ghost use Rattle.std.specs.Prelude.{◌≡◌};
ghost use Rattle.event_base.specs.declared.fault.BaseFault.TheVariants.{Memory};

use min_timer::TimerFault;
use prio_queue::PrioFault;
use std::alloc::{AllocError, AllocFailed};
use thiserror::Error;

/// Why a call on a base is refused. The base is as it was.
///
/// Own.
#[derive(Clone, Copy, Debug, PartialEq, Eq, Error)]
pub enum BaseFault {
    #[error("out of memory")]
    Memory,
    /// The base has no queue of this priority, or no base has so many queues.
    #[error("no such priority")]
    BadPriority,
    /// The event was not made on this base, or it was freed.
    #[error("no such event")]
    NoEvent,
    /// The priority of an active event stays.
    #[error("the event is active")]
    IsActive,
    /// A number would not fit its type.
    #[error("a number is spent")]
    Spent,
    /// 256 other delays are registered.
    #[error("too many delays")]
    TooManyDelays,
}

impl From<AllocError> for BaseFault {
    ghost from_gives = { λ _ fault. fault ≡ Memory };

    fn from(_: AllocError) -> BaseFault {
        BaseFault::Memory
    }
}

impl<T: Drop> From<AllocFailed<T>> for BaseFault {
    ghost from_gives = { λ _ fault. fault ≡ Memory };

    fn from(_: AllocFailed<T>) -> BaseFault {
        BaseFault::Memory
    }
}

impl From<PrioFault> for BaseFault {
    ghost use Rattle.event_base.specs.Faults.{from_queue};

    ghost from_gives = { λ fault answer. answer ≡ from_queue fault };

    fn from(fault: PrioFault) -> BaseFault {
        match fault {
            PrioFault::Memory => BaseFault::Memory,
            PrioFault::BadPriority => BaseFault::BadPriority,
        }
    }
}

impl From<TimerFault> for BaseFault {
    ghost use Rattle.event_base.specs.Faults.{from_timers};

    ghost from_gives = { λ fault answer. answer ≡ from_timers fault };

    fn from(fault: TimerFault) -> BaseFault {
        match fault {
            TimerFault::Memory => BaseFault::Memory,
            TimerFault::NotPending => BaseFault::NoEvent,
            TimerFault::Spent => BaseFault::Spent,
            TimerFault::TooManyDelays => BaseFault::TooManyDelays,
        }
    }
}
