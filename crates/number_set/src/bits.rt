// One word of 64 bits: a bit is written, and the nearest bit that is set is looked for.
ghost use Rattle.std.specs.Prelude.{◌≡◌, ◌≢◌, ℕ, ◌<◌, ◌≤◌, ◌==◌, nat_lt, false, IfSome, if◌then◌else◌};
ghost use Rattle.std.specs.Int.{bit_at};
ghost use Rattle.number_set.specs.Next.{IsLeast, IsNext, IsPrevious};
ghost use Rattle.number_set.specs.Words.{is_set};

/// The bits of a word.
pub(crate) const WORD: usize = 64;

/// The word with the bit at a place set or not, and the others as they were.
pub(crate) fn with_bit(word: u64, place: usize, set: bool) -> u64
    requires { place < WORD }
    ensures same { is_set result place ≡ set }
    ensures others { (k : ℕ) → k < WORD → k ≢ place → is_set result k ≡ is_set word k }
{
    if set {
        word | (1 << place)
    } else {
        word & !(1 << place)
    }
}

/// The word whose bits below a place are set, and no other.
pub(crate) fn bits_below(place: usize) -> u64
    requires { place ≤ WORD }
    ensures { (k : ℕ) → is_set result k ≡ nat_lt k place }
{
    if place == WORD {
        u64::MAX
    } else {
        (1 << place) - 1
    }
}

/// The least place from a place on whose bit is set.
pub(crate) fn lowest_from(word: u64, place: usize) -> Option<usize>
    requires { place < WORD }
    ensures next { IsNext (is_set word) place result }
    ensures within { IfSome result (λ k. k < WORD) }
{
    let above = word >> place;
    if above == 0 {
        None
    } else {
        Some(place + above.trailing_zeros() as usize)
    }
}

/// The greatest place below a place whose bit is set.
pub(crate) fn highest_below(word: u64, place: usize) -> Option<usize>
    requires { place ≤ WORD }
    ensures { IsPrevious (is_set word) place result }
{
    let below = word & bits_below(place);
    if below == 0 {
        None
    } else {
        Some(WORD - 1 - below.leading_zeros() as usize)
    }
}

/// The least place whose bit is set, and the word without that bit.
pub(crate) fn without_lowest(word: u64) -> (usize, u64)
    requires { 0 < word }
    ensures least { IsLeast (is_set word) 0 result.0 }
    ensures within { result.0 < WORD }
    ensures rest { (k : ℕ) → k < WORD → is_set result.1 k ≡ (if k == result.0 then false else is_set word k) }
{
    let place = word.trailing_zeros() as usize;
    (place, with_bit(word, place, false))
}
