// What a port answers for one end, and what an ask of a hook is answered.

/// What the connect check of an end that may be connecting says.
///
/// Own.
#[derive(Clone, Copy, Debug, PartialEq, Eq)]
pub enum ConnAnswer {
    Connected,
    Pending,
    Failed,
}

/// What one read of an end gave. `Got` carries how many bytes, at least 1.
///
/// Own.
#[derive(Clone, Copy, Debug, PartialEq, Eq)]
pub enum ReadAnswer {
    Got(usize),
    Ended,
    NotYet,
    Failed,
}

/// What one write to an end did. `Took` carries how many bytes, at least 1. `NoMemory` took nothing and changed
/// nothing, and no entry of a trace has it.
///
/// Own.
#[derive(Clone, Copy, Debug, PartialEq, Eq)]
pub enum WriteAnswer {
    Took(usize),
    NotYet,
    Failed,
    NoMemory,
}

/// What an ask that was recorded was answered.
///
/// Own.
#[derive(Clone, Copy, Debug, PartialEq, Eq)]
pub enum AskAnswer {
    Ok,
    NotLive,
    NoGroup,
    BadValue,
    TooManyRefs,
    Memory,
}
