// What the results of reads and writes, and timeouts, make of a bufferevent.
ghost use Rattle.std.specs.Prelude.{◌≡◌, ◌≤◌, ◌<◌, ◌+◌, ◌&&◌, nat_lt, length, false};
ghost use Rattle.bev_core.specs.BevValue.{reaches_low};
ghost use Rattle.bev_core.specs.Steps.{with_enabled, touched, less, ended_at, failed_at};
ghost use Rattle.bev_socket.specs.Results.{read, written, event_flags};
ghost use Rattle.token_bucket.specs.declared.limit.Dir.TheVariants as dir;

use crate::event::direction_flag;
use bev_core::{Bev, EOF, ERROR, TIMEOUT};
use ev_types::Flags;
use token_bucket::Dir;

/// Bytes were read: they go to the end of the input, in room that was made before, and the moment is the last activity of
/// reading. Answers whether the read callback becomes due: bytes arrived, and with them the input is at least as long as its
/// read low mark. Takes no memory; linear in the length.
///
/// Libevent: event2/bufferevent.h, `bufferevent_data_cb`; "Bufferevents: concepts and basics".
pub fn took_read(bev: &mut Bev, bytes: &[u8], now: u64) -> bool
    requires { length bytes.now ≤ bev.old.input.spare }
    ensures after { bev.new ≡ read bev.old bytes.now now }
    ensures due { result ≡ (nat_lt 0 (length bytes.now) && reaches_low (read bev.old bytes.now now) dir.Read) }
{
    bev.feed_reserved(Dir::Read, bytes);
    bev.moved_at(Dir::Read, now);
    !bytes.is_empty() && bev.reaches_low(Dir::Read)
}

/// So many bytes of the output were written: they leave it, and the moment is the last activity of writing. Answers whether
/// the write callback becomes due: bytes were taken, and without them the output is at most as long as its write low mark.
/// Takes no memory; linear in n, over many calls.
///
/// Libevent: event2/bufferevent.h, `bufferevent_data_cb`; "Bufferevents: concepts and basics".
pub fn took_write(bev: &mut Bev, n: usize, now: u64) -> bool
    requires { n ≤ length bev.old.output.bytes }
    ensures after { bev.new ≡ written bev.old n now bev.new.output.spare }
    ensures spare { bev.old.output.spare ≤ bev.new.output.spare }
    ensures due { result ≡ (nat_lt 0 n && reaches_low (written bev.old n now bev.new.output.spare) dir.Write) }
{
    bev.drain(Dir::Write, n);
    bev.moved_at(Dir::Write, now);
    n > 0 && bev.reaches_low(Dir::Write)
}

/// End of file was met in a direction: the direction is disabled and the mark `ended` set. Answers the flags of the event.
/// Takes no memory; constant cost.
///
/// Libevent: event2/bufferevent.h, `BEV_EVENT_EOF`; "Bufferevents: concepts and basics".
pub fn ended(bev: &mut Bev, dir: Dir) -> Flags
    ensures flags { result ≡ event_flags dir EOF }
    ensures after { bev.new ≡ ended_at bev.old dir }
{
    bev.end(dir);
    Flags(direction_flag(dir) + EOF)
}

/// An error was met in a direction: the direction is disabled and the mark `failed` set, as `ended`.
///
/// Libevent: event2/bufferevent.h, `BEV_EVENT_ERROR`; "Bufferevents: concepts and basics".
pub fn failed(bev: &mut Bev, dir: Dir) -> Flags
    ensures flags { result ≡ event_flags dir ERROR }
    ensures after { bev.new ≡ failed_at bev.old dir }
{
    bev.fail(dir);
    Flags(direction_flag(dir) + ERROR)
}

/// A timeout of a direction expired: the direction is disabled and no mark is set, as `ended`.
///
/// Libevent: event2/bufferevent.h, `BEV_EVENT_TIMEOUT`; "Bufferevents: concepts and basics".
pub fn timed_out(bev: &mut Bev, dir: Dir) -> Flags
    ensures flags { result ≡ event_flags dir TIMEOUT }
    ensures after { bev.new ≡ with_enabled bev.old dir false }
{
    bev.expire(dir);
    Flags(direction_flag(dir) + TIMEOUT)
}
