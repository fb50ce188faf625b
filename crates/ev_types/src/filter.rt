// The names of the filters, and how far a filter is to go.

/// Which function of the bytes a filter computes.
///
/// Own.
#[derive(Clone, Copy, Debug, PartialEq, Eq)]
pub enum FilterKind {
    /// Every byte as it is.
    None,
    /// CR LF for each LF that no CR precedes.
    ToCrlf,
    /// LF for each CR LF.
    ToLf,
    /// Two lower-case hex digits for each byte.
    HexOut,
    /// One byte for each two hex digits.
    HexIn,
}

/// How far a filter goes with the bytes that it has.
///
/// Libevent: event2/bufferevent.h, `bufferevent_flush_mode`; "Bufferevents: advanced topics".
#[derive(Clone, Copy, Debug, PartialEq, Eq)]
pub enum Mode {
    Normal,
    Flush,
    Finished,
}
