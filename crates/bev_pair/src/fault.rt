// Why bytes don't go from one half of a pair to the other.

use thiserror::Error;

/// Why bytes don't go from one half of a pair to the other. Both are as they were.
///
/// Own.
#[derive(Clone, Copy, Debug, PartialEq, Eq, Error)]
pub enum PairFault {
    #[error("out of memory")]
    Memory,
    /// One of the halves was freed.
    #[error("the pair has no partner")]
    NoPartner,
    /// The length of the input would not fit a usize.
    #[error("a length does not fit")]
    Spent,
}
