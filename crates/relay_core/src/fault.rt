// Why an ask of a hook is refused.
use thiserror::Error;

/// Why an ask of a hook is refused. They are tested in the order TooManyAsks, NotLive, BadValue, NoGroup, TooManyRefs, Memory. A refused
/// ask changes nothing; all but the first are recorded.
///
/// Own.
#[derive(Clone, Copy, Debug, PartialEq, Eq, Error)]
pub enum AskFault {
    #[error("out of memory")]
    Memory,
    /// The side was never opened or is freed. A reference may be given up at a freed side that has one.
    #[error("the side is not live")]
    NotLive,
    /// The hook asked 256 times in this fire already.
    #[error("too many asks in one fire")]
    TooManyAsks,
    #[error("there is no such group")]
    NoGroup,
    /// A mark is above 2^24, a timeout or a delay above 2^40, a side that is in no group is to leave it, or a live side that has no
    /// reference is to give one up.
    #[error("the value is out of range")]
    BadValue,
    /// The side has 2^32 - 1 references.
    #[error("too many references")]
    TooManyRefs,
}
