// The ends of a buffer.

/// An end of a buffer, which can be frozen.
///
/// Libevent: event2/buffer.h, `evbuffer_freeze`, whose flag is true for the front; "Evbuffers".
#[derive(Clone, Copy, Debug, PartialEq, Eq)]
pub enum Place {
    Front,
    End,
}
