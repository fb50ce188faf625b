// Why a run stops before its last line.
ghost use Rattle.std.specs.Prelude.{◌≡◌};
ghost use Rattle.base_mode.specs.declared.stop.Stop.TheVariants.{Memory};

use ev_types::NoMemory;
use std::alloc::{AllocError, AllocFailed};

/// Why a run stops before its last line.
///
/// Own.
#[derive(Drop)]
pub enum Stop {
    Memory,
    /// A number of the base is spent. The text so far stands.
    Spent(Vec<u8>),
}

impl From<AllocError> for Stop {
    ghost from_gives = { λ _ stop. stop ≡ Memory };

    fn from(_: AllocError) -> Stop {
        Stop::Memory
    }
}

impl<T: Drop> From<AllocFailed<T>> for Stop {
    ghost from_gives = { λ _ stop. stop ≡ Memory };

    fn from(_: AllocFailed<T>) -> Stop {
        Stop::Memory
    }
}

impl From<NoMemory> for Stop {
    ghost from_gives = { λ _ stop. stop ≡ Memory };

    fn from(_: NoMemory) -> Stop {
        Stop::Memory
    }
}
