// Why a call of a run's base has no answer.
ghost use Rattle.std.specs.Prelude.{◌≡◌};
ghost use Rattle.base_mode.specs.declared.halt.Halt.TheVariants.{Memory};

use std::alloc::AllocError;

/// Why a call of a run's base has no answer.
///
/// Own.
#[derive(Clone, Copy, Debug, PartialEq, Eq)]
pub enum Halt {
    Memory,
    /// A number or a deadline of the base would not fit its type.
    Spent,
}

impl From<AllocError> for Halt {
    ghost from_gives = { λ _ halt. halt ≡ Memory };

    fn from(_: AllocError) -> Halt {
        Halt::Memory
    }
}
