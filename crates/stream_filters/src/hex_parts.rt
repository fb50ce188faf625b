// The parts of runs of hex filters. Digits are written and read block by block, by vectors as far as those go, and one by one at a
// bad byte.
ghost use Rattle.std.specs.Prelude.{◌≡◌, ◌≤◌, ◌<◌, ◌+◌, ◌-◌, ◌*◌, ◌/◌, ◌%◌, ◌++◌, true, length, take, drop, min, slice_index, unwrap_or};
ghost use Rattle.std.specs.Prelude.{vec_len, vec_capacity};
ghost use Rattle.std.specs.List.{last_or, list_all};
ghost use Rattle.ev_types.specs.declared.filter.FilterKind.TheVariants as kind_of;
ghost use Rattle.filter_model.specs.Filter.{hex_out, hex_in, is_hex, hex_value};
ghost use Rattle.stream_filters.specs.Knowledge.{IsDigitLast};
ghost use Rattle.stream_filters.specs.Parts.{AppendsPart, HasRoom, ReadsPairs, PairsStop, BlocksStop, value_of_pair};

use crate::digits::{digit_value, hex_digit, value_or_none};
use crate::hex_lanes::{read_by_lanes, write_by_lanes};
use crate::knowledge::Knowledge;
use crate::put::{put, put_byte};

/// How many bytes are turned at once at most.
const BLOCK: usize = 128;

/// Writes the digits of bytes into a block that has two places for each.
fn write_digits(bytes: &[u8], block: &mut [u8])
    requires { length block.old ≡ 2 * length bytes.now }
    ensures { block.new ≡ hex_out bytes.now }
{
    let start = write_by_lanes(bytes, block);
    for at in start..bytes.len() {
        let byte = bytes[at];
        block[2 * at] = hex_digit(byte / 16);
        block[2 * at + 1] = hex_digit(byte % 16);
    }
}

/// Appends the digits of bytes, in room that was made before.
fn put_digits(bytes: &[u8], dst: &mut Vec<u8>)
    requires { vec_len dst.old + 2 * length bytes.now ≤ vec_capacity dst.old }
    ensures items { dst.new.items ≡ dst.old.items ++ hex_out bytes.now }
    ensures capacity { vec_capacity dst.old ≤ vec_capacity dst.new }
{
    let mut block = [0; 2 * BLOCK];
    let mut at = 0;
    while at < bytes.len() {
        let rest = bytes.split_at(at).1;
        let piece = rest.split_at(BLOCK.min(rest.len())).0;
        let places = block.split_at_mut(2 * piece.len()).0;
        write_digits(piece, places);
        put(dst, places);
        at += piece.len();
    }
}

/// Two digits for each byte, as far as the limit allows.
pub(crate) fn hex_out_part(src: &[u8], dst: &mut Vec<u8>, limit: usize) -> usize
    requires below { vec_len dst.old < limit }
    requires room { vec_len dst.old + 2 * min (length src.now) ((limit - vec_len dst.old + 1) / 2) ≤ vec_capacity dst.old }
    ensures used { result ≡ min (length src.now) ((limit - vec_len dst.old + 1) / 2) }
    ensures items { dst.new.items ≡ dst.old.items ++ hex_out (take result src.now) }
    ensures capacity { vec_capacity dst.old ≤ vec_capacity dst.new }
{
    let used = src.len().min((limit - dst.len()).div_ceil(2));
    put_digits(src.split_at(used).0, dst);
    used
}

/// The number that the digit before the next stands for.
fn held_value(last: Option<u8>) -> u8
    requires { IsDigitLast kind_of.HexIn last }
    ensures value { result ≡ hex_value (unwrap_or last 0) }
    ensures small { result < 16 }
{
    let Some(byte) = last else {
        return 0;
    };
    digit_value(byte).unwrap()
}

/// Writes the bytes that pairs of digits spell into a block with a place for each pair, and answers whether all are digits.
fn read_digits(digits: &[u8], block: &mut [u8]) -> bool
    requires { length digits.now ≡ 2 * length block.old }
    ensures digits { result ≡ list_all is_hex digits.now }
    ensures spelled { result ≡ true → block.new ≡ hex_in digits.now }
{
    let (start, all) = read_by_lanes(digits, block);
    let mut worst = if all { 0u8 } else { 255 };
    for at in start..block.len() {
        let (first, second) = (digits[2 * at], digits[2 * at + 1]);
        let (high, low) = (value_or_none(first), value_or_none(second));
        worst = worst.max(high).max(low);
        block[at] = high.wrapping_mul(16).wrapping_add(low);
    }
    worst < 16
}

/// Pairs of digits block by block as far as the limit allows, up to a block in which a byte is no digit. It answers how many digits.
fn pairs_by_blocks(known: &Knowledge, src: &[u8], dst: &mut Vec<u8>, limit: usize) -> usize
    requires even { known.now.used % 2 ≡ 0 }
    requires below { vec_len dst.old < limit }
    requires room { HasRoom kind_of.HexIn limit known.now.used known.now.last src.now dst.old.items (vec_capacity dst.old) }
    ensures pairs { ReadsPairs limit src.now dst.old.items dst.new.items result }
    ensures stops { BlocksStop 128 limit src.now dst.new.items result }
    ensures capacity { vec_capacity dst.old ≤ vec_capacity dst.new }
{
    let mut block = [0; BLOCK];
    let mut at = 0;
    while at + 1 < src.len() && dst.len() < limit {
        let rest = src.split_at(at).1;
        let count = BLOCK.min(limit - dst.len()).min(rest.len() / 2);
        let digits = rest.split_at(2 * count).0;
        let places = block.split_at_mut(count).0;
        if !read_digits(digits, places) {
            return at;
        }
        put(dst, places);
        at += 2 * count;
    }
    at
}

/// The byte that the two digits at a place spell, None where one of the two bytes is no digit.
fn pair_value(src: &[u8], at: usize) -> Option<u8>
    requires { at + 1 < length src.now }
    ensures { result ≡ value_of_pair (slice_index src.now at) (slice_index src.now (at + 1)) }
{
    let high = digit_value(src[at])?;
    let low = digit_value(src[at + 1])?;
    Some(16 * high + low)
}

/// Pairs of digits as far as the limit allows, up to the first byte that is no digit. It answers how many digits.
fn hex_pairs(known: &Knowledge, src: &[u8], dst: &mut Vec<u8>, limit: usize) -> usize
    requires even { known.now.used % 2 ≡ 0 }
    requires below { vec_len dst.old < limit }
    requires room { HasRoom kind_of.HexIn limit known.now.used known.now.last src.now dst.old.items (vec_capacity dst.old) }
    ensures pairs { ReadsPairs limit src.now dst.old.items dst.new.items result }
    ensures stops { PairsStop limit src.now dst.new.items result }
    ensures capacity { vec_capacity dst.old ≤ vec_capacity dst.new }
{
    let mut at = pairs_by_blocks(known, src, dst, limit);
    while at + 1 < src.len() && dst.len() < limit {
        let Some(value) = pair_value(src, at) else {
            return at;
        };
        put_byte(dst, value);
        at += 2;
    }
    at
}

/// One digit, or nothing where the next byte is none.
fn hex_digit_part(known: &Knowledge, src: &[u8], dst: &mut Vec<u8>, limit: usize) -> usize
    requires some { 0 < length src.now }
    requires below { vec_len dst.old < limit }
    requires digit { IsDigitLast kind_of.HexIn known.now.last }
    requires room { HasRoom kind_of.HexIn limit known.now.used known.now.last src.now dst.old.items (vec_capacity dst.old) }
    ensures part { AppendsPart kind_of.HexIn limit known.now.used known.now.last src.now dst.old.items dst.new.items result }
    ensures digit { IsDigitLast kind_of.HexIn (last_or known.now.last (take result src.now)) }
    ensures capacity { vec_capacity dst.old ≤ vec_capacity dst.new }
{
    let Some(low) = digit_value(src[0]) else {
        return 0;
    };
    if known.used % 2 == 1 {
        put_byte(dst, 16 * held_value(known.last) + low);
    }
    1
}

/// Pairs of digits, or one digit, or nothing where the next byte is none. A digit that is held is not forgotten: behind it comes one.
pub(crate) fn hex_in_part(known: &Knowledge, src: &[u8], dst: &mut Vec<u8>, limit: usize) -> usize
    requires some { 0 < length src.now }
    requires below { vec_len dst.old < limit }
    requires digit { IsDigitLast kind_of.HexIn known.now.last }
    requires room { HasRoom kind_of.HexIn limit known.now.used known.now.last src.now dst.old.items (vec_capacity dst.old) }
    ensures part { AppendsPart kind_of.HexIn limit known.now.used known.now.last src.now dst.old.items dst.new.items result }
    ensures digit { IsDigitLast kind_of.HexIn (last_or known.now.last (take result src.now)) }
    ensures capacity { vec_capacity dst.old ≤ vec_capacity dst.new }
{
    if known.used % 2 == 0 {
        let used = hex_pairs(known, src, dst, limit);
        if used > 0 {
            return used;
        }
    }
    hex_digit_part(known, src, dst, limit)
}
