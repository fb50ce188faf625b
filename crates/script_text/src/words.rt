// The pieces of a text, the words of a line, and the numbers and bytes that words spell. What a line says with
// them is left to the grammar.
ghost use Rattle.std.specs.Prelude.{◌≡◌, ◌<◌, ◌≤◌, ◌-◌, ◌^◌, ◌∷◌, length, map, min, IfOk, option_map, position, ◌==◌, IfSome};
ghost use Rattle.std.specs.List.{list_all};
ghost use Rattle.std.specs.Str.{bytes_eq};
ghost use Rattle.script_text.specs.Pieces.{pieces, words};
ghost use Rattle.script_text.specs.Spelled.{is_plain};
ghost use Rattle.script_text.specs.Numbers.{bytes_of, number_within};

use ev_types::NoMemory;
use hex::FromHexError;
use std::alloc::Global;

/// The greatest number that a script's word spells, whatever the word is for.
///
/// Own.
pub const MAX_NUMBER: u64 = 1 << 62;

/// The fewest hex digits of a word that spells bytes.
const MIN_HEX_DIGITS: usize = 2;

/// The most hex digits of a word that spells bytes.
const MAX_HEX_DIGITS: usize = 65_536;

/// The place of the first `stop`.
fn place_of(text: &[u8], stop: u8) -> Option<usize>
    ensures { result ≡ position (λ b. b == stop) text.now }
{
    text.iter().position(|b| *b == stop)
}

/// The bytes before the first `stop`, and what is behind it. Without a `stop` these are the whole text and nothing;
/// so of an empty text both are empty. Takes no memory; linear in the first piece.
///
/// Own.
pub fn first_piece(text: &[u8], stop: u8) -> (&[u8], &[u8])
    ensures pieces { 0 < length text.now
        → pieces stop text.now ≡ result.0.now ∷ pieces stop result.1.now }
    ensures shorter { 0 < length text.now → length result.1.now < length text.now }
    ensures empty { length text.now ≡ 0 → (length result.0.now ≡ 0) × (length result.1.now ≡ 0) }
{
    match place_of(text, stop) {
        Some(at) => {
            let (piece, rest) = text.split_at(at);
            (piece, rest.split_at(1).1)
        }
        None => (text, &[]),
    }
}

/// The words of a line: what stands between its spaces. Spaces at the ends of the line, and several between two
/// words, make no word; a line of spaces alone has none. Takes memory for the list of the words. Linear in the line.
///
/// Own.
pub fn words_of<'a>(alloc: Global, line: &'a [u8]) -> Result<Vec<&'a [u8]>, NoMemory>
    ensures { IfOk result (λ all. map (λ w. w.now) all.items ≡ words line.now) }
{
    let mut all = Vec::new(alloc);
    let mut rest = line;
    while !rest.is_empty() {
        let (word, after) = first_piece(rest, b' ');
        if !word.is_empty() {
            all.push(word)?;
        }
        rest = after;
    }
    Ok(all)
}

/// The number that a word of decimal digits spells, without a sign and without a leading zero. `None` for every other
/// word, and for a number above `max`. Takes no memory; linear in the word.
///
/// Own.
pub fn number(word: &[u8], max: u64) -> Option<u64>
    ensures value { result ≡ number_within max word.now }
    ensures within { IfSome result (λ n. n ≤ max) }
{
    if word.is_empty() || (word.len() > 1 && word[0] == b'0') {
        return None;
    }
    let mut value: u64 = 0;
    for digit in word {
        if !digit.is_ascii_digit() {
            return None;
        }
        if value > max / 10 {
            return None;
        }
        let tens = value * 10;
        let ones = u64::from(*digit - b'0');
        if ones > max - tens {
            return None;
        }
        value = tens + ones;
    }
    Some(value)
}

/// The bytes that a word of hex digits of either case spells: an even number of digits, 2 to 65,536. `None` for every
/// other word. Takes memory for the bytes. Linear in the digits.
///
/// Own.
pub fn hex_bytes(alloc: Global, word: &[u8]) -> Result<Option<Vec<u8>>, NoMemory>
    ensures { IfOk result (λ bytes. option_map (λ v. v.items) bytes ≡ bytes_of word.now) }
{
    if word.len() < MIN_HEX_DIGITS || word.len() > MAX_HEX_DIGITS {
        return Ok(None);
    }
    match hex::decode(alloc, word) {
        Ok(bytes) => Ok(Some(bytes)),
        Err(FromHexError::OutOfMemory) => Err(NoMemory),
        Err(_) => Ok(None),
    }
}

/// Whether a line has only bytes that a script may have, those of printing ASCII. Takes no memory; linear in the line.
///
/// Own.
pub fn is_plain_text(line: &[u8]) -> bool
    ensures { result ≡ list_all is_plain line.now }
{
    line.iter().all(|b| (b' '..=b'~').contains(b))
}

/// Whether the word is this text. Takes no memory; linear in the word.
///
/// Own.
pub fn is_word(word: &[u8], text: &str) -> bool
    ensures { result ≡ bytes_eq word.now text.now }
{
    word == text.as_bytes()
}

/// The number of a line as it is told: one above 2^32 - 1 as that number. Constant cost.
///
/// Own.
pub fn told(line: usize) -> u32
    ensures { result ≡ min line (2 ^ 32 - 1) }
{
    u32::try_from(line).unwrap_or(u32::MAX)
}
