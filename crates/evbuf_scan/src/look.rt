// The places of bytes and of line ends in an evbuffer.
ghost use Rattle.std.specs.Prelude.{◌≡◌, ◌≤◌, ◌<◌, ◌+◌, ◌*◌, ◌^◌, length, take, drop, min, max, IfOk, IfSome, Some, None, true};
ghost use Rattle.evbuf_scan.specs.Place.{first_place, place_from};
ghost use Rattle.evbuf_scan.specs.Needle.{begins_with, place_of};
ghost use Rattle.evbuf_scan.specs.Ends.{run_length, end_length, is_bounded, is_end, end_from};

use crate::eol::{Eol, end_at_front, first_end, run_of_ends};
use ev_types::NoMemory;
use evbuf::Evbuffer;
use memchr::memmem;
use std::alloc::Global;

/// How many bytes of a buffer are looked at at once.
const WINDOW: usize = 256;

/// How many bytes of a buffer are searched at once, where the needle isn't longer than half of them.
const SEARCH_WINDOW: usize = 4096;

/// How many bytes tell whether a line end stands at their front.
const LOOK_AHEAD: usize = 2;

/// The bytes from a place on, as many as the window has room for.
fn window_at<'a>(buf: &Evbuffer, from: usize, window: &'a mut [u8]) -> &'a [u8]
    ensures { result.now ≡ take (length window.old) (drop from buf.now.bytes) }
{
    let count = buf.copy_out(from, window);
    window.split_at(count).0
}

/// The first place at or after `from` where a line end of the style stands, and how long it is from there on. None
/// exactly where there is none. Takes no memory; linear in the bytes that it looks at.
///
/// Libevent: event2/buffer.h, `evbuffer_search_eol`; Evbuffers, "Searching within an evbuffer".
pub fn search_eol(buf: &Evbuffer, style: Eol, from: usize) -> Option<(usize, usize)>
    ensures value { result ≡ end_from style buf.now.bytes from }
    ensures within { IfSome result (λ found. found.0 + found.1 ≤ length buf.now.bytes) }
{
    let place = place_of_end(buf, style, from)?;
    let length = match style {
        Eol::Any => length_of_run(buf, place),
        _ => length_of_end(buf, style, place),
    };
    Some((place, length))
}

fn place_of_end(buf: &Evbuffer, style: Eol, from: usize) -> Option<usize>
    ensures value { result ≡ place_from (is_end style) buf.now.bytes from }
    ensures within { IfSome result (λ place. place < length buf.now.bytes) }
{
    let mut room = [0; WINDOW];
    let mut at = from;
    while at < buf.len() {
        let window = window_at(buf, at, &mut room);
        if let Some(place) = first_end(style, window) {
            return Some(at + place);
        }
        if window.len() < WINDOW {
            return None;
        }
        at += WINDOW + 1 - LOOK_AHEAD;
    }
    None
}

/// How many CR and LF stand at the place, one after another.
fn length_of_run(buf: &Evbuffer, place: usize) -> usize
    requires { place ≤ length buf.now.bytes }
    ensures value { result ≡ run_length (drop place buf.now.bytes) }
    ensures within { place + result ≤ length buf.now.bytes }
{
    let mut room = [0; WINDOW];
    let mut at = place;
    while at < buf.len() {
        let run = run_of_ends(window_at(buf, at, &mut room));
        if run < WINDOW {
            return at - place + run;
        }
        at += WINDOW;
    }
    at - place
}

/// How long the line end at the place is, for a style that has no runs.
fn length_of_end(buf: &Evbuffer, style: Eol, place: usize) -> usize
    requires bounded { is_bounded style ≡ true }
    requires there { place ≤ length buf.now.bytes }
    ensures value { result ≡ end_length style (drop place buf.now.bytes) }
    ensures within { place + result ≤ length buf.now.bytes }
{
    let mut room = [0; LOOK_AHEAD];
    end_at_front(style, window_at(buf, place, &mut room))
}

/// The first place at or after `from` where the needle stands. None exactly where there is none. An empty needle stands
/// at each place that has a byte.
/// Takes memory for a window of 4,096 bytes, or of twice the needle's length where that is more. Linear in the window and
/// in the bytes that it looks at.
///
/// Libevent: event2/buffer.h, `evbuffer_search`; Evbuffers, "Searching within an evbuffer".
pub fn search(
    alloc: Global,
    buf: &Evbuffer,
    needle: &[u8],
    from: usize,
) -> Result<Option<usize>, NoMemory>
    ensures { IfOk result (λ place. place ≡ place_of needle.now buf.now.bytes from) }
{
    if needle.is_empty() {
        return Ok((from < buf.len()).then_some(from));
    }
    let size = needle.len().saturating_mul(2).max(SEARCH_WINDOW);
    let mut room = vec![in alloc; 0; size]?;
    Ok(search_by(buf, needle, from, &mut room))
}

/// The first place of a slice where the needle stands.
fn place_in(bytes: &[u8], needle: &[u8]) -> Option<usize>
    requires { 0 < length needle.now }
    ensures { result ≡ first_place (begins_with needle.now) 0 bytes.now }
{
    memmem::find(bytes, needle)
}

/// The same of a buffer, through a window with room for the needle.
fn search_by(buf: &Evbuffer, needle: &[u8], from: usize, room: &mut [u8]) -> Option<usize>
    requires some { 0 < length needle.now }
    requires fits { length needle.now ≤ length room.old }
    ensures { result ≡ place_of needle.now buf.now.bytes from }
{
    let mut at = from;
    while at < buf.len() {
        let window = window_at(buf, at, room);
        let count = window.len();
        if let Some(place) = place_in(window, needle) {
            return Some(at + place);
        }
        if count < room.len() {
            return None;
        }
        at += count - (needle.len() - 1);
    }
    None
}
