// What bytes make with CR LF for each LF that no CR precedes, appended block by block.
ghost use Rattle.std.specs.Prelude.{◌≡◌, ◌≤◌, ◌+◌, ◌%◌, ◌++◌, length, drop, slice_index, unwrap_or, vec_len, vec_capacity};
ghost use Rattle.ev_types.specs.declared.filter.FilterKind.TheVariants as kind_of;
ghost use Rattle.filter_model.specs.Filter.{crlf_after};
ghost use Rattle.filter_model.specs.FilterRun.{adds};

use crate::crlf_lanes::write_crlf;
use crate::line_end::{BLOCK, CR, LF};
use crate::put::{put, put_byte};

/// Appends what the first byte makes.
fn put_first(last: Option<u8>, byte: u8, dst: &mut Vec<u8>)
    requires { vec_len dst.old + length (adds kind_of.ToCrlf 0 last byte) ≤ vec_capacity dst.old }
    ensures items { dst.new.items ≡ dst.old.items ++ adds kind_of.ToCrlf 0 last byte }
    ensures capacity { vec_capacity dst.old ≤ vec_capacity dst.new }
{
    if byte == LF && last != Some(CR) {
        put_byte(dst, CR);
    }
    put_byte(dst, byte);
}

/// Appends what the bytes behind the first make.
fn put_behind_first(src: &[u8], dst: &mut Vec<u8>)
    requires sixteens { length src.now % 16 ≡ 1 }
    requires room { vec_len dst.old + length (crlf_after (slice_index src.now 0) (drop 1 src.now)) ≤ vec_capacity dst.old }
    ensures items { dst.new.items ≡ dst.old.items ++ crlf_after (slice_index src.now 0) (drop 1 src.now) }
    ensures capacity { vec_capacity dst.old ≤ vec_capacity dst.new }
{
    let mut block = [0; 2 * BLOCK];
    let mut at = 0;
    while at + 16 < src.len() {
        let rest = src.split_at(at).1;
        let piece = rest.split_at(rest.len().min(BLOCK + 1)).0;
        let end = write_crlf(piece, &mut block);
        put(dst, block.split_at(end).0);
        at += piece.len() - 1;
    }
}

/// Appends what a byte and sixteens of bytes behind it make, where `last` is the byte before them.
pub(crate) fn put_crlf(last: Option<u8>, src: &[u8], dst: &mut Vec<u8>)
    requires sixteens { length src.now % 16 ≡ 1 }
    requires room { vec_len dst.old + length (crlf_after (unwrap_or last 0) src.now) ≤ vec_capacity dst.old }
    ensures items { dst.new.items ≡ dst.old.items ++ crlf_after (unwrap_or last 0) src.now }
    ensures capacity { vec_capacity dst.old ≤ vec_capacity dst.new }
{
    put_first(last, src[0], dst);
    put_behind_first(src, dst);
}
