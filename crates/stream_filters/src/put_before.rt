// Bytes before the first that is a given one.
ghost use Rattle.std.specs.Prelude.{◌≡◌, ◌≢◌, ◌≤◌, ◌<◌, ◌+◌, ◌++◌, ℕ, length, take, All, slice_index, vec_len, vec_capacity};
ghost use Rattle.stream_filters.specs.Parts.{StandBefore};

use crate::put::put;
use memchr::memchr;

/// How many bytes stand before the first that is `stop`, or all.
fn all_before(stop: u8, src: &[u8]) -> usize
    ensures { StandBefore stop src.now result }
{
    memchr(stop, src).unwrap_or(src.len())
}

/// Appends the bytes before the first that is `stop`, or all, and at most so many; answers how many. It looks at no more of
/// them.
pub(crate) fn put_before(stop: u8, src: &[u8], dst: &mut Vec<u8>, most: usize) -> usize
    requires room { (n : ℕ) → n ≤ length src.now → n ≤ most → All (λ x. x ≢ stop) (take n src.now)
        → vec_len dst.old + n ≤ vec_capacity dst.old }
    ensures within { result ≤ length src.now }
    ensures at_most { result ≤ most }
    ensures others { All (λ x. x ≢ stop) (take result src.now) }
    ensures stop { result < length src.now → result < most → slice_index src.now result ≡ stop }
    ensures items { dst.new.items ≡ dst.old.items ++ take result src.now }
    ensures len { vec_len dst.new ≡ vec_len dst.old + result }
    ensures capacity { vec_capacity dst.old ≤ vec_capacity dst.new }
{
    let within = src.split_at(most.min(src.len())).0;
    let count = all_before(stop, within);
    put(dst, within.split_at(count).0);
    count
}
