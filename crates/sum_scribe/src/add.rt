// What one entry adds to each of the four numbers. Takes no memory.
ghost use Rattle.std.specs.Prelude.{◌≡◌, ◌<◌, ◌^◌, [], ◌∷◌, fold};
ghost use Rattle.ev_port.specs.Counting.{counted};
ghost use Rattle.sum_scribe.specs.Sums.{turns_in, read_in, written_in, all_taken, next_sum};

use ev_types::{Entry, ReadAnswer, WriteAnswer};

/// The sum is kept modulo this number, 2^32.
const MODULUS: u64 = 1 << 32;

/// The number of turns with this entry.
pub fn turns_with(turns: u64, entry: &Entry, _bytes: &[u8]) -> u64
    ensures { result ≡ counted turns (turns_in ((entry.now, _bytes.now) ∷ [])) }
{
    match entry {
        Entry::Turn { .. } => turns.saturating_add(1),
        _ => turns.saturating_add(0),
    }
}

/// The number of bytes that were read with this entry.
pub fn read_with(read: u64, entry: &Entry, _bytes: &[u8]) -> u64
    ensures { result ≡ counted read (read_in ((entry.now, _bytes.now) ∷ [])) }
{
    match entry {
        Entry::Read {
            answer: ReadAnswer::Got(count),
            ..
        } => read.saturating_add(*count as u64),
        _ => read.saturating_add(0),
    }
}

/// The number of bytes that were written with this entry.
pub fn written_with(written: u64, entry: &Entry, _bytes: &[u8]) -> u64
    ensures { result ≡ counted written (written_in ((entry.now, _bytes.now) ∷ [])) }
{
    match entry {
        Entry::Write {
            answer: WriteAnswer::Took(count),
            ..
        } => written.saturating_add(*count as u64),
        _ => written.saturating_add(0),
    }
}

/// The sum with the bytes of this entry, where they were written. Linear in them.
pub fn sum_with(sum: u64, entry: &Entry, bytes: &[u8]) -> u64
    requires { sum < 2 ^ 32 }
    ensures sum { result ≡ fold next_sum sum (all_taken ((entry.now, bytes.now) ∷ [])) }
    ensures fits { result < 2 ^ 32 }
{
    match entry {
        Entry::Write {
            answer: WriteAnswer::Took(_),
            ..
        } => sum_after(sum, bytes),
        _ => sum,
    }
}

/// The sum with these bytes behind those before. Linear in the bytes.
fn sum_after(before: u64, bytes: &[u8]) -> u64
    requires { before < 2 ^ 32 }
    ensures sum { result ≡ fold next_sum before bytes.now }
    ensures fits { result < 2 ^ 32 }
{
    let mut sum = before;
    for byte in bytes {
        sum = (sum * 31 + u64::from(*byte)) % MODULUS;
    }
    sum
}
