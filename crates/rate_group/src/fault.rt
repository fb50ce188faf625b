// Why a call on groups is refused.
ghost use Rattle.std.specs.Prelude.{◌≡◌};
ghost use Rattle.rate_group.specs.declared.fault.GroupFault.TheVariants.{Memory};

use std::alloc::{AllocError, AllocFailed};
use thiserror::Error;

/// Why a call on groups is refused. The groups are as they were.
#[derive(Clone, Copy, Debug, PartialEq, Eq, Error)]
pub enum GroupFault {
    #[error("out of memory")]
    Memory,
    #[error("there is no such group")]
    NoGroup,
    /// The member is in this group or in another one.
    #[error("the member is in a group already")]
    AlreadyMember,
    #[error("the member is in no group")]
    NotMember,
    #[error("the least share is 0")]
    BadShare,
    /// 2^32 groups were made, and there is no number for another.
    #[error("no number is left for a group")]
    Spent,
}

impl From<AllocError> for GroupFault {
    ghost from_gives = { λ _ fault. fault ≡ Memory };

    fn from(_: AllocError) -> GroupFault {
        GroupFault::Memory
    }
}

impl<T: Drop> From<AllocFailed<T>> for GroupFault {
    ghost from_gives = { λ _ fault. fault ≡ Memory };

    fn from(_: AllocFailed<T>) -> GroupFault {
        GroupFault::Memory
    }
}
