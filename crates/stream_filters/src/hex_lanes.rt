// Many bytes at a time: their hex digits, and what hex digits spell. What is left over is left to others.
ghost use Rattle.std.specs.Prelude.{◌≡◌, ◌≤◌, ◌<◌, ◌*◌, ℕ, List, true, length, map, nat_lt, take};
ghost use Rattle.std.specs.List.{list_all};
ghost use Rattle.std.specs.Simd.Lanes.{Each1};
ghost use Rattle.filter_model.specs.Filter.{hex_out, hex_in, hex_digit, is_hex, hex_value};

use std::simd::prelude::*;

/// How many bytes are turned at once, each of two digits.
const LANES: usize = 16;

/// The lower-case digits of numbers below 16.
#[inline(always)]
fn digits_of(values: u8x16) -> u8x16
    requires { Each1 (λ x. x < 16) values }
    ensures { result ≡ map hex_digit values }
{
    u8x16::from_array(*b"0123456789abcdef").swizzle_dyn(values)
}

/// The two digits of each byte.
#[inline(always)]
fn two_digits(bytes: u8x16) -> u8x32
    ensures { result ≡ hex_out bytes }
{
    let high = digits_of(bytes >> u8x16::splat(4));
    let low = digits_of(bytes & u8x16::splat(15));
    high.shuffle(
        low,
        [
            0, 16, 1, 17, 2, 18, 3, 19, 4, 20, 5, 21, 6, 22, 7, 23, 8, 24, 9, 25, 10, 26, 11, 27,
            12, 28, 13, 29, 14, 30, 15, 31,
        ],
    )
}

/// The number that each digit of either case stands for, 16 or more for a byte that is no digit.
#[inline(always)]
fn values_of(digits: u8x32) -> u8x32
    ensures small { list_all (λ x. nat_lt x 16) result ≡ list_all is_hex digits }
    ensures values { list_all is_hex digits ≡ true → result ≡ map hex_value digits }
{
    // The numerals move to the end, 246 to 255: so saturating leaves all other bytes at 16 or more, as the least of 245 does below.
    let from_end = (digits + u8x32::splat(255 - b'9')).saturating_sub(u8x32::splat(6));
    let numerals = from_end - u8x32::splat(240);
    let from_a = (digits | u8x32::splat(0x20)) - u8x32::splat(b'a');
    let letters = from_a.simd_min(u8x32::splat(245)) + u8x32::splat(10);
    numerals.simd_min(letters)
}

/// The bytes that pairs of digits spell, by the numbers that the digits stand for.
#[inline(always)]
fn spelled_by(values: u8x32) -> u8x16
    ensures { (digits : List ℕ) → list_all is_hex digits ≡ true → values ≡ map hex_value digits → result ≡ hex_in digits }
{
    let high: u8x16 = values.swizzle([0, 2, 4, 6, 8, 10, 12, 14, 16, 18, 20, 22, 24, 26, 28, 30]);
    let low: u8x16 = values.swizzle([1, 3, 5, 7, 9, 11, 13, 15, 17, 19, 21, 23, 25, 27, 29, 31]);
    high * u8x16::splat(16) + low
}

/// Writes digits as long as there are bytes for a vector. It answers how many bytes.
pub(crate) fn write_by_lanes(bytes: &[u8], block: &mut [u8]) -> usize
    requires { length block.old ≡ 2 * length bytes.now }
    ensures within { result ≤ length bytes.now }
    ensures written { take (2 * result) block.new ≡ hex_out (take result bytes.now) }
    ensures places { length block.new ≡ length block.old }
{
    let mut at = 0;
    while bytes.len() - at >= LANES {
        let digits = two_digits(u8x16::from_slice(&bytes[at..]));
        digits.copy_to_slice(&mut block[2 * at..]);
        at += LANES;
    }
    at
}

/// Writes the bytes that pairs of digits spell as long as there are digits for a vector. It answers how many bytes, and whether
/// all were digits.
pub(crate) fn read_by_lanes(digits: &[u8], block: &mut [u8]) -> (usize, bool)
    requires { length digits.now ≡ 2 * length block.old }
    ensures within { result.0 ≤ length block.new }
    ensures digits { result.1 ≡ list_all is_hex (take (2 * result.0) digits.now) }
    ensures spelled { result.1 ≡ true → take result.0 block.new ≡ hex_in (take (2 * result.0) digits.now) }
    ensures places { length block.new ≡ length block.old }
{
    let mut worst = u8x32::splat(0);
    let mut at = 0;
    while block.len() - at >= LANES {
        let values = values_of(u8x32::from_slice(&digits[2 * at..]));
        worst = worst.simd_max(values);
        spelled_by(values).copy_to_slice(&mut block[at..]);
        at += LANES;
    }
    (at, worst.simd_ge(u8x32::splat(16)).to_bitmask() == 0)
}
