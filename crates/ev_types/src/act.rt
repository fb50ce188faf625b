// What a hook may ask of the relay.
use crate::SideId;
use token_bucket::{Dir, LimitCfg};

/// An ask, with the side that it names and its numbers: marks in bytes, timeouts and delays in milliseconds.
///
/// Own; each is a call of libevent on a bufferevent, as `bufferevent_setwatermark`.
#[derive(Clone, Copy, Debug, PartialEq, Eq)]
pub enum Act {
    Free(SideId),
    Enable(SideId, Dir),
    Disable(SideId, Dir),
    /// The low mark and then the high mark.
    Marks(SideId, Dir, u64, u64),
    /// The timeout of reading and then that of writing.
    Timeouts(SideId, u64, u64),
    Rate(SideId, Option<LimitCfg>),
    Join(SideId, u32),
    Leave(SideId),
    Trigger(SideId, Dir),
    Timer(SideId, u64),
    Cancel(SideId),
    Incref(SideId),
    Decref(SideId),
    Stop,
}
