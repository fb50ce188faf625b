// A set as words of 64 bits, the number n at the bit n % 64 of the word n / 64.
ghost use Rattle.std.specs.Prelude.{◌≡◌, ◌≢◌, ℕ, ◌+◌, ◌*◌, ◌/◌, ◌<◌, ◌≤◌, ◌==◌, ◌^◌, nat_lt, Bool, false, OnOk, OnErr, slice_index, length};
ghost use Rattle.std.specs.Prelude.{vec_len, if◌then◌else◌};
ghost use Rattle.number_set.specs.Next.{in_either, IsNext, IsPrevious};
ghost use Rattle.number_set.specs.Words.{has_number, is_set};

use crate::bits::{WORD, bits_below, highest_below, lowest_from, with_bit};
use std::alloc::AllocError;

/// The word at a place, which is 0 behind the end.
pub(crate) fn word_at(words: &[u64], at: usize) -> u64
    ensures { result ≡ slice_index words.now at }
{
    words.get(at).copied().unwrap_or(0)
}

/// Whether the number is in the words.
pub(crate) fn has_number(words: &[u64], number: usize) -> bool
    ensures { result ≡ has_number words.now number }
{
    (word_at(words, number / WORD) >> (number % WORD)) & 1 == 1
}

/// Puts the number into the words, or takes it out of them.
pub(crate) fn put_number(words: &mut Vec<u64>, number: usize, member: bool)
    requires { number < 64 * vec_len words.old }
    ensures len { vec_len words.new ≡ vec_len words.old }
    ensures numbers { (n : ℕ) → has_number words.new.items n
        ≡ (if n == number then member else has_number words.old.items n) }
    ensures words { (k : ℕ) → k ≢ number / 64 → slice_index words.new.items k ≡ slice_index words.old.items k }
{
    let at = number / WORD;
    words[at] = with_bit(words[at], number % WORD, member);
}

/// Adds a word without a number where the words have no bit for this number, which is the next.
pub(crate) fn make_room(words: &mut Vec<u64>, number: usize) -> Result<(), AllocError>
    requires enough { number ≤ 64 * vec_len words.old }
    requires tight { 64 * vec_len words.old < number + 64 }
    ensures enough { OnOk result (number < 64 * vec_len words.new) }
    ensures tight { OnOk result (64 * vec_len words.new ≤ number + 64) }
    ensures numbers { OnOk result
        ((n : ℕ) → has_number words.new.items n ≡ has_number words.old.items n) }
    ensures words { OnOk result ((k : ℕ) → slice_index words.new.items k ≡ slice_index words.old.items k) }
    ensures err { OnErr result (words.new.items ≡ words.old.items) }
{
    if number / WORD >= words.len() {
        words.push(0)?;
    }
    Ok(())
}

/// Puts all numbers below a length into the words, and takes all others out.
pub(crate) fn fill_words(words: &mut Vec<u64>, len: usize)
    requires { 64 * vec_len words.old ≤ len + 64 }
    ensures len { vec_len words.new ≡ vec_len words.old }
    ensures numbers { (n : ℕ) → n < 64 * vec_len words.old → has_number words.new.items n ≡ nat_lt n len }
{
    for at in 0..words.len() {
        words[at] = bits_below(len.saturating_sub(WORD * at).min(WORD));
    }
}

/// A word of the numbers that are in the first two or in the last two.
pub(crate) fn either_at(
    first: &[u64],
    second: &[u64],
    third: &[u64],
    fourth: &[u64],
    at: usize,
) -> u64
    ensures { (k : ℕ) → k < WORD → is_set result k ≡ in_either (has_number first.now)
        (has_number second.now) (has_number third.now) (has_number fourth.now) (64 * at + k) }
{
    (word_at(first, at) & word_at(second, at)) | (word_at(third, at) & word_at(fourth, at))
}

/// From this word on no number is in the first two or in the last two.
pub(crate) fn end_of_either(first: &[u64], second: &[u64], third: &[u64], fourth: &[u64]) -> usize
    ensures none { (n : ℕ) → 64 * result ≤ n → in_either (has_number first.now)
        (has_number second.now) (has_number third.now) (has_number fourth.now) n ≡ false }
    ensures small { length first.now ≤ 2 ^ 58 → length third.now ≤ 2 ^ 58 → result ≤ 2 ^ 58 }
{
    let both = first.len().min(second.len());
    let both_others = third.len().min(fourth.len());
    both.max(both_others)
}

/// The least number from a number on that is in the first two or in the last two.
pub(crate) fn next_number(
    first: &[u64],
    second: &[u64],
    third: &[u64],
    fourth: &[u64],
    from: usize,
) -> Option<usize>
    requires first { length first.now ≤ 2 ^ 58 }
    requires third { length third.now ≤ 2 ^ 58 }
    ensures { IsNext (in_either (has_number first.now)
        (has_number second.now) (has_number third.now) (has_number fourth.now)) from result }
{
    let end = end_of_either(first, second, third, fourth);
    let mut at = from / WORD;
    let mut place = from % WORD;
    while at < end {
        if let Some(bit) = lowest_from(either_at(first, second, third, fourth, at), place) {
            return Some(WORD * at + bit);
        }
        at += 1;
        place = 0;
    }
    None
}

/// The greatest number below a number that is in the first two or in the last two.
pub(crate) fn previous_number(
    first: &[u64],
    second: &[u64],
    third: &[u64],
    fourth: &[u64],
    before: usize,
) -> Option<usize>
    ensures { IsPrevious (in_either (has_number first.now)
        (has_number second.now) (has_number third.now) (has_number fourth.now)) before result }
{
    let end = end_of_either(first, second, third, fourth);
    let mut at = end.min(before / WORD);
    let mut place = before % WORD;
    loop {
        if let Some(bit) = highest_below(either_at(first, second, third, fourth, at), place) {
            return Some(WORD * at + bit);
        }
        if at == 0 {
            return None;
        }
        at -= 1;
        place = WORD;
    }
}

/// The least number from a number on that is in the words.
pub(crate) fn next_own(words: &[u64], from: usize) -> Option<usize>
    requires { length words.now ≤ 2 ^ 58 }
    ensures { IsNext (has_number words.now) from result }
{
    let (mut at, mut place) = (from / WORD, from % WORD);
    while at < words.len() {
        if let Some(bit) = lowest_from(word_at(words, at), place) {
            return Some(WORD * at + bit);
        }
        at += 1;
        place = 0;
    }
    None
}

/// The greatest number below a number that is in the words.
pub(crate) fn previous_own(words: &[u64], before: usize) -> Option<usize>
    ensures { IsPrevious (has_number words.now) before result }
{
    let mut at = words.len().min(before / WORD);
    let mut place = before % WORD;
    loop {
        if let Some(bit) = highest_below(word_at(words, at), place) {
            return Some(WORD * at + bit);
        }
        if at == 0 {
            return None;
        }
        at -= 1;
        place = WORD;
    }
}
