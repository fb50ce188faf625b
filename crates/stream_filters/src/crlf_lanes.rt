// What bytes make with CR LF for each LF that no CR precedes, 16 of them at once. A table says where each byte goes, so that no
// branch hangs on the bytes.
ghost use Rattle.std.specs.Prelude.{◌≡◌, ◌≤◌, ◌<◌, ◌+◌, ◌*◌, ◌%◌, ◌++◌, length, take, drop, slice_index};
ghost use Rattle.std.specs.Simd.Lanes.{chunk, mask_l, zip2};
ghost use Rattle.filter_model.specs.Filter.{crlf_after};
ghost use Rattle.stream_filters.specs.Crlf.{is_bare_end, with_crs};

use crate::crlf_table::SPREAD;
use crate::line_end::{CR, LF};
use std::simd::prelude::*;

/// Bit k tells whether byte k is an LF and the byte before it no CR.
#[inline(always)]
fn bare_ends(before: u8x16, bytes: u8x16) -> usize
    requires { (length before ≡ 16) × (length bytes ≡ 16) }
    ensures { result ≡ mask_l (zip2 is_bare_end before bytes) }
{
    let ends = bytes.simd_eq(u8x16::splat(LF)) & before.simd_ne(u8x16::splat(CR));
    ends.to_bitmask() as usize
}

/// Writes the first eight bytes, with a CR before each whose bit is set, and answers where they end. Byte 8 is that CR.
#[inline(always)]
fn write_eight(bytes: u8x16, bits: usize, block: &mut [u8], end: usize) -> usize
    requires cr { (length bytes ≡ 16) × (slice_index bytes 8 ≡ CR) }
    requires bits { bits < 256 }
    requires room { end + 16 ≤ length block.old }
    ensures within { result ≤ end + 16 }
    ensures len { length block.new ≡ length block.old }
    ensures text { take result block.new ≡ take end block.old ++ with_crs bits (take 8 bytes) }
{
    let spread = bytes.swizzle_dyn(u8x16::from_slice(&SPREAD[bits]));
    spread.copy_to_slice(&mut block[end..]);
    end + 8 + bits.count_ones() as usize
}

/// Writes what the 16 bytes behind a place make, and answers where it ends.
#[inline(always)]
fn write_sixteen(src: &[u8], at: usize, block: &mut [u8], end: usize) -> usize
    requires there { at + 17 ≤ length src.now }
    requires room { end + 32 ≤ length block.old }
    ensures within { result ≤ end + 32 }
    ensures len { length block.new ≡ length block.old }
    ensures text { take result block.new ≡ take end block.old ++ crlf_after (slice_index src.now at) (chunk (at + 1) 16 src.now) }
{
    let bytes = u8x16::from_slice(&src[at + 1..]);
    let bits = bare_ends(u8x16::from_slice(&src[at..]), bytes);
    let cr = u8x16::splat(CR);
    let low = bytes.shuffle(cr, [0, 1, 2, 3, 4, 5, 6, 7, 16, 16, 16, 16, 16, 16, 16, 16]);
    let high = bytes.shuffle(
        cr,
        [8, 9, 10, 11, 12, 13, 14, 15, 16, 16, 16, 16, 16, 16, 16, 16],
    );
    let middle = write_eight(low, bits % 256, block, end);
    write_eight(high, bits / 256, block, middle)
}

/// Writes what the bytes behind the first make, and answers where it ends.
pub(crate) fn write_crlf(src: &[u8], block: &mut [u8]) -> usize
    requires sixteens { length src.now % 16 ≡ 1 }
    requires room { 2 * length src.now ≤ length block.old + 2 }
    ensures len { length block.new ≡ length block.old }
    ensures within { result ≤ length block.new }
    ensures text { take result block.new ≡ crlf_after (slice_index src.now 0) (drop 1 src.now) }
{
    let mut at = 0;
    let mut end = 0;
    while at + 16 < src.len() {
        end = write_sixteen(src, at, block, end);
        at += 16;
    }
    end
}
