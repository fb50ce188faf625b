// The plain values of a bufferevent.

/// The plain values of a bufferevent: whether it is live, what is enabled, whether end of file or an error was met, the
/// lengths of its buffers in bytes, the marks in bytes, the timeouts and the moments of last activity in milliseconds, and
/// how many references hold its name. A high mark of 0 and a timeout of 0 are none.
///
/// Libevent: event2/bufferevent.h, `bufferevent_get_enabled`, `bufferevent_getwatermark`; "Bufferevents: concepts and basics".
#[derive(Clone, Copy, Debug, PartialEq, Eq)]
pub struct BevState {
    pub live: bool,
    pub reading: bool,
    pub writing: bool,
    pub ended: bool,
    pub failed: bool,
    pub input: u64,
    pub output: u64,
    pub read_low: u64,
    pub read_high: u64,
    pub write_low: u64,
    pub write_high: u64,
    pub read_ms: u64,
    pub write_ms: u64,
    pub last_read: u64,
    pub last_write: u64,
    pub refs: u32,
}
