// Why a script is not played to its end.
ghost use Rattle.std.specs.Prelude.{◌≡◌};
ghost use Rattle.buffers_mode.specs.declared.fault.ModeFault.TheVariants.{Memory};

use ev_types::NoMemory;
use std::alloc::{AllocError, AllocFailed};
use thiserror::Error;

/// Why a script is not played to its end.
///
/// Own.
#[derive(Clone, Copy, Debug, PartialEq, Eq, Error)]
pub enum ModeFault {
    #[error("out of memory")]
    Memory,
    /// The first line that is not in the grammar, counted from 1. No line was run.
    #[error("line {0} is not in the grammar")]
    BadLine(u32),
    /// The length of a buffer would not fit a usize, or the number of a callback a u32. A text of at most 2^24 bytes
    /// never comes to it.
    #[error("a count does not fit")]
    Spent,
}

impl From<AllocError> for ModeFault {
    ghost from_gives = { λ _ fault. fault ≡ Memory };

    fn from(_: AllocError) -> ModeFault {
        ModeFault::Memory
    }
}

impl<T: Drop> From<AllocFailed<T>> for ModeFault {
    ghost from_gives = { λ _ fault. fault ≡ Memory };

    fn from(_: AllocFailed<T>) -> ModeFault {
        ModeFault::Memory
    }
}

impl From<NoMemory> for ModeFault {
    ghost from_gives = { λ _ fault. fault ≡ Memory };

    fn from(_: NoMemory) -> ModeFault {
        ModeFault::Memory
    }
}
