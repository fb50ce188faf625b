// The flags of what happened to a bufferevent. No two have a bit in common.

/// It happened in reading.
///
/// Libevent: event2/bufferevent.h, `BEV_EVENT_READING`; "Bufferevents: concepts and basics".
pub const READING: u8 = 0x01;

/// It happened in writing. Libevent: `BEV_EVENT_WRITING`.
pub const WRITING: u8 = 0x02;

/// End of file was met. Libevent: `BEV_EVENT_EOF`.
pub const EOF: u8 = 0x10;

/// An error was met. Libevent: `BEV_EVENT_ERROR`.
pub const ERROR: u8 = 0x20;

/// A timeout expired. Libevent: `BEV_EVENT_TIMEOUT`.
pub const TIMEOUT: u8 = 0x40;

// Each has its place, and no two have a bit in common: their sum is what they have together.
const _: () = prove!(READING | WRITING | EOF | ERROR | TIMEOUT == 0x73);

const _: () = prove!(READING + WRITING + EOF + ERROR + TIMEOUT == 0x73);
