// How a program ends, and what a link came to.

/// How a program ends. The process status is the place in this list, from 0.
///
/// Own.
#[derive(Clone, Copy, Debug, PartialEq, Eq)]
pub enum Status {
    Ok,
    Usage,
    /// The first line that is not in the grammar, counted from 1.
    BadScript(u32),
    ReadFault,
    WriteFault,
    PollFault,
    /// The link of the side that asked, and the turn, counted from 1.
    Stopped(u32, u32),
    TooLong,
    Memory,
    OpenFault,
    Spent,
}

/// What a link came to: both sides freed as done, a side still live, or any other end.
///
/// Own.
#[derive(Clone, Copy, Debug, PartialEq, Eq)]
pub enum LinkState {
    Done,
    Live,
    Gone,
}

/// What a link came to, and how many bytes each of its ends gave and took.
///
/// Own.
#[derive(Clone, Copy, Debug, PartialEq, Eq)]
pub struct LinkCount {
    pub state: LinkState,
    pub in_read: u64,
    pub in_given: u64,
    pub out_read: u64,
    pub out_given: u64,
}
