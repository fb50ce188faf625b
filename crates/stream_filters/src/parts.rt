// The parts in which a run is made: each uses a first piece of the source and appends what that makes. A target is below
// its limit, and has the room.
ghost use Rattle.std.specs.Prelude.{◌≡◌, ◌≢◌, ◌≤◌, ◌<◌, ◌+◌, ◌-◌, ◌++◌, Some, length, take, min, All, slice_index, vec_len, vec_capacity};
ghost use Rattle.std.specs.List.{last_or};
ghost use Rattle.ev_types.specs.declared.filter.FilterKind.TheVariants as kind_of;
ghost use Rattle.filter_model.specs.FilterRun.{adds};
ghost use Rattle.stream_filters.specs.Knowledge.{IsDigitLast};
ghost use Rattle.stream_filters.specs.Parts.{AppendsPart, HasRoom};

use crate::crlf_put::put_crlf;
use crate::hex_parts::{hex_in_part, hex_out_part};
use crate::knowledge::Knowledge;
use crate::lf_put::put_lf;
use crate::line_end::{CR, LF};
use crate::put::{put, put_byte};
use crate::put_before::put_before;
use ev_types::FilterKind;

/// All bytes as they are, as far as the limit allows.
fn none_part(src: &[u8], dst: &mut Vec<u8>, limit: usize) -> usize
    requires below { vec_len dst.old < limit }
    requires room { vec_len dst.old + min (length src.now) (limit - vec_len dst.old) ≤ vec_capacity dst.old }
    ensures used { result ≡ min (length src.now) (limit - vec_len dst.old) }
    ensures items { dst.new.items ≡ dst.old.items ++ take result src.now }
    ensures capacity { vec_capacity dst.old ≤ vec_capacity dst.new }
{
    let used = src.len().min(limit - dst.len());
    put(dst, src.split_at(used).0);
    used
}

/// Gives the LF behind this byte, with a CR before it where there is none.
fn put_line_end(last: Option<u8>, dst: &mut Vec<u8>)
    requires { vec_len dst.old + length (adds kind_of.ToCrlf 0 last LF) ≤ vec_capacity dst.old }
    ensures items { dst.new.items ≡ dst.old.items ++ adds kind_of.ToCrlf 0 last LF }
    ensures capacity { vec_capacity dst.old ≤ vec_capacity dst.new }
{
    if last != Some(CR) {
        put_byte(dst, CR);
    }
    put_byte(dst, LF);
}

/// A byte and sixteens of bytes behind it, where what they make is surely below the limit; else the bytes before an LF and the
/// LF itself, as far as the limit allows.
fn to_crlf_part(known: &Knowledge, src: &[u8], dst: &mut Vec<u8>, limit: usize) -> usize
    requires some { 0 < length src.now }
    requires below { vec_len dst.old < limit }
    requires room { HasRoom kind_of.ToCrlf limit known.now.used known.now.last src.now dst.old.items (vec_capacity dst.old) }
    ensures part { AppendsPart kind_of.ToCrlf limit known.now.used known.now.last src.now dst.old.items dst.new.items result }
    ensures capacity { vec_capacity dst.old ≤ vec_capacity dst.new }
{
    let most = src.len().min((limit - dst.len()) / 2);
    if most > 16 {
        let used = (most - 1) / 16 * 16 + 1;
        put_crlf(known.last, src.split_at(used).0, dst);
        return used;
    }
    let run = put_before(LF, src, dst, limit - dst.len());
    if run == src.len() || dst.len() == limit {
        return run;
    }
    put_line_end(known.last_behind(src.split_at(run).0), dst);
    run + 1
}

/// Gives the CR that is held and the byte behind it, which may be held in turn.
fn put_behind_cr(byte: u8, dst: &mut Vec<u8>)
    requires { vec_len dst.old + length (adds kind_of.ToLf 0 (Some CR) byte) ≤ vec_capacity dst.old }
    ensures items { dst.new.items ≡ dst.old.items ++ adds kind_of.ToLf 0 (Some CR) byte }
    ensures capacity { vec_capacity dst.old ≤ vec_capacity dst.new }
{
    match byte {
        LF | CR => put(dst, &[byte]),
        _ => put(dst, &[CR, byte]),
    }
}

/// The byte behind a CR that is held; or sixteens of bytes and one behind them, where what they make is surely no more than the
/// limit allows; else a CR, or the bytes before one.
fn to_lf_part(known: &Knowledge, src: &[u8], dst: &mut Vec<u8>, limit: usize) -> usize
    requires some { 0 < length src.now }
    requires below { vec_len dst.old < limit }
    requires room { HasRoom kind_of.ToLf limit known.now.used known.now.last src.now dst.old.items (vec_capacity dst.old) }
    ensures part { AppendsPart kind_of.ToLf limit known.now.used known.now.last src.now dst.old.items dst.new.items result }
    ensures capacity { vec_capacity dst.old ≤ vec_capacity dst.new }
{
    if known.last == Some(CR) {
        put_behind_cr(src[0], dst);
        return 1;
    }
    let most = src.len().min(limit - dst.len());
    if most > 16 {
        let used = (most - 1) / 16 * 16 + 1;
        put_lf(src.split_at(used).0, dst);
        return used;
    }
    if src[0] == CR {
        return 1;
    }
    put_before(CR, src, dst, limit - dst.len())
}

/// The next part of a run. It uses nothing only where the next byte is bad.
pub(crate) fn part(
    kind: FilterKind,
    known: &Knowledge,
    src: &[u8],
    dst: &mut Vec<u8>,
    limit: usize,
) -> usize
    requires some { 0 < length src.now }
    requires below { vec_len dst.old < limit }
    requires digit { IsDigitLast kind known.now.last }
    requires room { HasRoom kind limit known.now.used known.now.last src.now dst.old.items (vec_capacity dst.old) }
    ensures part { AppendsPart kind limit known.now.used known.now.last src.now dst.old.items dst.new.items result }
    ensures digit { IsDigitLast kind (last_or known.now.last (take result src.now)) }
    ensures capacity { vec_capacity dst.old ≤ vec_capacity dst.new }
{
    match kind {
        FilterKind::None => none_part(src, dst, limit),
        FilterKind::ToCrlf => to_crlf_part(known, src, dst, limit),
        FilterKind::ToLf => to_lf_part(known, src, dst, limit),
        FilterKind::HexOut => hex_out_part(src, dst, limit),
        FilterKind::HexIn => hex_in_part(known, src, dst, limit),
    }
}
