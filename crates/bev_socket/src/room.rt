// How many bytes a bufferevent may read and write at once.
ghost use Rattle.std.specs.Prelude.{◌≡◌, min};
ghost use Rattle.bev_socket.specs.Rooms.{read_mark, read_room, write_room, within};

use bev_core::{Bev, BevState};

/// The most bytes of one read or write.
///
/// Own.
pub const MOST_AT_ONCE: u64 = 16_384;

/// The length of an input from which on nothing is read, where there is no high mark.
///
/// Own.
pub const READ_MARK: u64 = 16_384;

/// How many bytes may be read: 0 where it is freed, disabled for reading, ended or failed. Else the least of `MOST_AT_ONCE`,
/// of what is missing of the input to its read high mark, or to `READ_MARK` where there is none, and of the numbers given,
/// which a limit of its own or a share of a group would be. Takes no memory; constant cost.
///
/// Libevent: event2/bufferevent.h, `bufferevent_setwatermark`, `bufferevent_get_max_to_read`; "Bufferevents: concepts and
/// basics".
/// Differs: without a high mark reading stops all the same.
pub fn room_read(bev: &Bev, allowance: Option<u64>, share: Option<u64>) -> u64
    ensures { result ≡ read_room bev.now allowance share }
{
    let state = bev.state();
    if !state.live || !state.reading || state.ended || state.failed {
        return 0;
    }
    let room = mark_of(&state)
        .saturating_sub(state.input)
        .min(MOST_AT_ONCE);
    least(least(room, allowance), share)
}

/// How many bytes may be written: 0 where it is freed, disabled for writing or failed. Else the least of `MOST_AT_ONCE`, of
/// the length of the output, and of the numbers given. Takes no memory; constant cost.
///
/// Libevent: event2/bufferevent.h, `bufferevent_get_max_to_write`; "Bufferevents: concepts and basics".
pub fn room_write(bev: &Bev, allowance: Option<u64>, share: Option<u64>) -> u64
    ensures { result ≡ write_room bev.now allowance share }
{
    let state = bev.state();
    if !state.live || !state.writing || state.failed {
        return 0;
    }
    least(least(state.output.min(MOST_AT_ONCE), allowance), share)
}

// The length of the input from which on nothing is read.
fn mark_of(state: &BevState) -> u64
    ensures { result ≡ read_mark state.now.read_high }
{
    match state.read_high {
        0 => READ_MARK,
        high => high,
    }
}

// The lesser of a number and another, where there is one.
fn least(n: u64, most: Option<u64>) -> u64
    ensures { result ≡ within n most }
{
    match most {
        Some(most) => n.min(most),
        None => n,
    }
}
