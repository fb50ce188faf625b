// What bytes make without each CR that LF follows, 16 of them at once. A table says where each byte goes, so that no branch
// hangs on the bytes.
ghost use Rattle.std.specs.Prelude.{◌≡◌, ◌≤◌, ◌<◌, ◌+◌, ◌-◌, ◌%◌, ◌++◌, length, take, drop};
ghost use Rattle.std.specs.Simd.Lanes.{mask_l, zip2};
ghost use Rattle.filter_model.specs.Filter.{to_lf};
ghost use Rattle.stream_filters.specs.Lf.{is_dropped_cr, without_marked};

use crate::lf_table::PRESS;
use crate::line_end::{CR, LF};
use std::simd::prelude::*;

/// Bit k tells whether byte k is a CR and the byte behind it an LF.
#[inline(always)]
fn dropped_crs(bytes: u8x16, behind: u8x16) -> usize
    requires { (length bytes ≡ 16) × (length behind ≡ 16) }
    ensures { result ≡ mask_l (zip2 is_dropped_cr bytes behind) }
{
    let dropped = bytes.simd_eq(u8x16::splat(CR)) & behind.simd_eq(u8x16::splat(LF));
    dropped.to_bitmask() as usize
}

/// Writes the first eight bytes but those whose bit is set, and answers where they end. It writes 16 bytes.
#[inline(always)]
fn press_eight(bytes: u8x16, bits: usize, block: &mut [u8], end: usize) -> usize
    requires long { length bytes ≡ 16 }
    requires bits { bits < 256 }
    requires room { end + 16 ≤ length block.old }
    ensures within { result ≤ end + 8 }
    ensures len { length block.new ≡ length block.old }
    ensures text { take result block.new ≡ take end block.old ++ without_marked bits (take 8 bytes) }
{
    let pressed = bytes.swizzle_dyn(u8x16::from_slice(&PRESS[bits]));
    pressed.copy_to_slice(&mut block[end..]);
    end + 8 - bits.count_ones() as usize
}

/// Writes what the 16 bytes at a place make, and answers where it ends. The byte behind them tells of the last.
#[inline(always)]
fn press_sixteen(src: &[u8], at: usize, block: &mut [u8], end: usize) -> usize
    requires there { at + 17 ≤ length src.now }
    requires room { end + 24 ≤ length block.old }
    ensures within { result ≤ end + 16 }
    ensures len { length block.new ≡ length block.old }
    ensures text { take result block.new ++ to_lf (drop (at + 16) src.now) ≡ take end block.old ++ to_lf (drop at src.now) }
{
    let bytes = u8x16::from_slice(&src[at..]);
    let bits = dropped_crs(bytes, u8x16::from_slice(&src[at + 1..]));
    let high = bytes.shuffle(
        bytes,
        [8, 9, 10, 11, 12, 13, 14, 15, 0, 1, 2, 3, 4, 5, 6, 7],
    );
    let middle = press_eight(bytes, bits % 256, block, end);
    press_eight(high, bits / 256, block, middle)
}

/// Writes what the bytes of one place up to another make, and answers where it ends. With what the bytes from there on make
/// it is what all from the first place on make.
pub(crate) fn write_lf(src: &[u8], from: usize, to: usize, block: &mut [u8]) -> usize
    requires there { (from ≤ to) × (to < length src.now) }
    requires sixteens { (to - from) % 16 ≡ 0 }
    requires room { to + 8 ≤ from + length block.old }
    ensures len { length block.new ≡ length block.old }
    ensures within { result ≤ length block.new }
    ensures text { take result block.new ++ to_lf (drop to src.now) ≡ to_lf (drop from src.now) }
{
    let mut at = from;
    let mut end = 0;
    while at < to {
        end = press_sixteen(src, at, block, end);
        at += 16;
    }
    end
}
