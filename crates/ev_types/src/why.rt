// Why a callback runs, and why a side was freed.

/// Event flags of a bufferevent: reading 0x01, writing 0x02, end of file 0x10, error 0x20, timeout 0x40,
/// connected 0x80.
///
/// Libevent: event2/bufferevent.h, `BEV_EVENT_READING` and those behind it.
#[derive(Clone, Copy, Debug, PartialEq, Eq)]
pub struct Flags(pub u8);

/// The reason for which a callback is due, with the joined flags of an event.
///
/// Libevent: event2/bufferevent.h, `bufferevent_data_cb` and `bufferevent_event_cb`.
/// Differs: connected is a reason of its own, and a side's timer is one.
#[derive(Clone, Copy, Debug, PartialEq, Eq)]
pub enum Why {
    Connected,
    Read,
    Write,
    Timer,
    Event(Flags),
}

/// A reason without its flags.
///
/// Own.
#[derive(Clone, Copy, Debug, PartialEq, Eq)]
pub enum WhyKind {
    Connected,
    Read,
    Write,
    Timer,
    Event,
}

/// Why a side was freed. `Filter` carries the place of the first byte that its filter could not take, counted
/// from 0 over the filter's whole input.
///
/// Own.
#[derive(Clone, Copy, Debug, PartialEq, Eq)]
pub enum Cause {
    /// A hook asked for it.
    Hook,
    /// Writing was ended at both sides.
    Done,
    /// The peer was freed, and nothing waits to be given.
    PeerGone,
    /// A read, a write or a connect check of its end failed.
    Failed,
    /// A direction that was wanted did nothing for as long as its timeout.
    Timeout,
    Filter(u64),
}
