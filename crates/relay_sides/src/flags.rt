// What is so of a side.

/// What is so of a side. A side that failed or expired is freed when its link is closed.
///
/// Libevent: event2/bufferevent.h, `bufferevent_get_enabled` for the two directions; the others are own.
#[derive(Clone, Copy, Debug, PartialEq, Eq)]
pub struct SideFlags {
    /// It was not freed.
    pub live: bool,
    /// Its end is not known to be connected.
    pub connecting: bool,
    /// Reading is enabled.
    pub reads: bool,
    /// Writing is enabled.
    pub writes: bool,
    /// A read was answered with the end.
    pub ended: bool,
    /// A read, a write or a connect check failed.
    pub failed: bool,
    /// One of its timeouts has passed.
    pub expired: bool,
    /// Writing was ended at its end.
    pub write_ended: bool,
    /// Its end was closed.
    pub closed: bool,
}
