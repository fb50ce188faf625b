// Words of numbers beside a set of the places of those that aren't 0, so that a walk passes over 64 words without a number at a
// time.
ghost use Rattle.std.specs.Prelude.{◌≡◌, ℕ, ◌+◌, ◌*◌, ◌^◌, ◌<◌, ◌≤◌, ◌==◌, nat_lt, Bool, false, length, vec_len, MatchOption, OnOk, OnErr};
ghost use Rattle.std.specs.Prelude.{if◌then◌else◌, slice_index};
ghost use Rattle.number_set.specs.Next.{in_either, IsNext, IsPrevious};
ghost use Rattle.number_set.specs.Walks.{IsNextWord, IsPreviousWord};
ghost use Rattle.number_set.specs.Words.{AreTops, has_number, is_set};

use crate::bits::{WORD, highest_below, lowest_from, without_lowest};
use crate::words;
use crate::words::{either_at, end_of_either, fill_words, has_number, put_number, word_at};
use std::alloc::{AllocError, Global};

/// Words, and the places of those that aren't 0, as words of their own.
#[derive(Drop)]
pub(crate) struct Levels {
    pub(crate) words: Vec<u64>,
    pub(crate) tops: Vec<u64>,
    ghost few: { length words.items ≤ 2 ^ 58 },
    ghost tops_are: { AreTops words.items tops.items },
}

impl Levels {
    /// No word. Takes no memory.
    pub(crate) fn new(alloc: Global) -> Levels
        ensures { length result.words.items ≡ 0 }
    {
        Levels {
            words: Vec::new(alloc),
            tops: Vec::new(alloc),
        }
    }

    /// Puts a number into the words, or takes it out of them.
    pub(crate) fn put(&mut self, number: usize, member: bool)
        requires { number < 64 * vec_len self.old.words }
        ensures len { vec_len self.new.words ≡ vec_len self.old.words }
        ensures numbers { (n : ℕ) → has_number self.new.words.items n
            ≡ (if n == number then member else has_number self.old.words.items n) }
    {
        if has_number(&self.words, number) != member {
            self.change(number, member);
        }
    }

    /// The same, at the cost of a write to the words and one to the places.
    fn change(&mut self, number: usize, member: bool)
        requires { number < 64 * vec_len self.old.words }
        ensures len { vec_len self.new.words ≡ vec_len self.old.words }
        ensures numbers { (n : ℕ) → has_number self.new.words.items n
            ≡ (if n == number then member else has_number self.old.words.items n) }
    {
        let at = number / WORD;
        put_number(&mut self.words, number, member);
        put_number(&mut self.tops, at, self.words[at] > 0);
    }

    /// Adds a word without a number where the words have no bit for this number, which is the next.
    pub(crate) fn make_room(&mut self, number: usize) -> Result<(), AllocError>
        requires enough { number ≤ 64 * vec_len self.old.words }
        requires tight { 64 * vec_len self.old.words < number + 64 }
        requires fits { number + 1 < 2 ^ 64 }
        ensures enough { OnOk result (number < 64 * vec_len self.new.words) }
        ensures tight { OnOk result (64 * vec_len self.new.words ≤ number + 64) }
        ensures numbers { OnOk result
            ((n : ℕ) → has_number self.new.words.items n ≡ has_number self.old.words.items n) }
        ensures err { OnErr result (self.new.words.items ≡ self.old.words.items) }
    {
        self.make_place(number / WORD)?;
        words::make_room(&mut self.words, number)
    }

    /// Makes room for the place of a word, which is at most the next.
    fn make_place(&mut self, at: usize) -> Result<(), AllocError>
        requires { at ≤ vec_len self.old.words }
        ensures room { OnOk result (at < 64 * vec_len self.new.tops) }
        ensures words { self.new.words ≡ self.old.words }
    {
        if at >= WORD * self.tops.len() {
            self.tops.push(0)?;
        }
        Ok(())
    }

    /// Puts all numbers below a length into the words, and takes all others out.
    pub(crate) fn fill(&mut self, len: usize)
        requires { 64 * vec_len self.old.words < len + 64 }
        ensures len { vec_len self.new.words ≡ vec_len self.old.words }
        ensures numbers { (n : ℕ) → n < 64 * vec_len self.old.words → has_number self.new.words.items n ≡ nat_lt n len }
    {
        fill_words(&mut self.words, len);
        fill_words(&mut self.tops, self.words.len());
    }

    /// The word at a place.
    pub(crate) fn word(&self, at: usize) -> u64
        ensures value { result ≡ slice_index self.now.words.items at }
        ensures bits { (k : ℕ) → k < WORD → is_set result k ≡ has_number self.now.words.items (64 * at + k) }
    {
        word_at(&self.words, at)
    }

    /// The first place from a place on whose word isn't 0.
    fn next_top(&self, from: usize) -> Option<usize>
        ensures { IsNext (has_number self.now.tops.items) from result }
    {
        words::next_own(&self.tops, from)
    }

    /// The last place before a place whose word isn't 0.
    fn previous_top(&self, before: usize) -> Option<usize>
        ensures { IsPrevious (has_number self.now.tops.items) before result }
    {
        words::previous_own(&self.tops, before)
    }

    /// The least number from a number on.
    pub(crate) fn next_own(&self, from: usize) -> Option<usize>
        ensures { IsNext (has_number self.now.words.items) from result }
    {
        let at = from / WORD;
        if let Some(bit) = lowest_from(self.word(at), from % WORD) {
            return Some(WORD * at + bit);
        }
        let at = self.next_top(at + 1)?;
        let (bit, _rest) = without_lowest(self.word(at));
        Some(WORD * at + bit)
    }

    /// The greatest number below a number.
    pub(crate) fn previous_own(&self, before: usize) -> Option<usize>
        ensures { IsPrevious (has_number self.now.words.items) before result }
    {
        let at = before / WORD;
        if let Some(bit) = highest_below(self.word(at), before % WORD) {
            return Some(WORD * at + bit);
        }
        let at = self.previous_top(at)?;
        let bit = highest_below(self.word(at), WORD)?;
        Some(WORD * at + bit)
    }

    /// The word at a place of the numbers that are in both of `a` or in both of `b`.
    pub(crate) fn either_at(a: (&Levels, &Levels), b: (&Levels, &Levels), at: usize) -> u64
        ensures { (k : ℕ) → k < WORD → is_set result k ≡ in_either (has_number a.entry.0.now.words.items)
            (has_number a.entry.1.now.words.items) (has_number b.entry.0.now.words.items) (has_number b.entry.1.now.words.items)
            (64 * at + k) }
    {
        either_at(&a.0.words, &a.1.words, &b.0.words, &b.1.words, at)
    }

    /// The first word from a place on that has a number of both of `a` or of both of `b`, with its place.
    pub(crate) fn next_word(
        a: (&Levels, &Levels),
        b: (&Levels, &Levels),
        from: usize,
    ) -> Option<(usize, u64)>
        ensures { MatchOption result
            ((n : ℕ) → 64 * from ≤ n → in_either (has_number a.entry.0.now.words.items)
            (has_number a.entry.1.now.words.items) (has_number b.entry.0.now.words.items) (has_number b.entry.1.now.words.items) n ≡ false)
            (λ found. IsNextWord (in_either (has_number a.entry.0.now.words.items)
            (has_number a.entry.1.now.words.items) (has_number b.entry.0.now.words.items) (has_number b.entry.1.now.words.items))
            from found.0 found.1) }
    {
        if from >= end_of_either(&a.0.words, &a.1.words, &b.0.words, &b.1.words) {
            return None;
        }
        let mut at = from;
        while let Some(next) = next_place(a, b, at) {
            let word = Levels::either_at(a, b, next);
            if word != 0 {
                return Some((next, word));
            }
            at = next + 1;
        }
        None
    }

    /// The last word before a place that has a number of both of `a` or of both of `b`, with its place.
    pub(crate) fn previous_word(
        a: (&Levels, &Levels),
        b: (&Levels, &Levels),
        before: usize,
    ) -> Option<(usize, u64)>
        ensures { MatchOption result
            ((n : ℕ) → n < 64 * before → in_either (has_number a.entry.0.now.words.items)
            (has_number a.entry.1.now.words.items) (has_number b.entry.0.now.words.items) (has_number b.entry.1.now.words.items) n ≡ false)
            (λ found. IsPreviousWord (in_either (has_number a.entry.0.now.words.items)
            (has_number a.entry.1.now.words.items) (has_number b.entry.0.now.words.items) (has_number b.entry.1.now.words.items))
            before found.0 found.1) }
    {
        let mut end = before;
        while let Some(at) = previous_place(a, b, end) {
            let word = Levels::either_at(a, b, at);
            if word != 0 {
                return Some((at, word));
            }
            end = at;
        }
        None
    }

    /// The least number from a number on that is in both of `a` or in both of `b`.
    pub(crate) fn next(a: (&Levels, &Levels), b: (&Levels, &Levels), from: usize) -> Option<usize>
        ensures { IsNext (in_either (has_number a.entry.0.now.words.items)
            (has_number a.entry.1.now.words.items) (has_number b.entry.0.now.words.items) (has_number b.entry.1.now.words.items)) from result }
    {
        let at = from / WORD;
        if let Some(bit) = lowest_from(Levels::either_at(a, b, at), from % WORD) {
            return Some(WORD * at + bit);
        }
        let (at, word) = Levels::next_word(a, b, at + 1)?;
        let (bit, _rest) = without_lowest(word);
        Some(WORD * at + bit)
    }

    /// The greatest number below a number that is in both of `a` or in both of `b`.
    pub(crate) fn previous(
        a: (&Levels, &Levels),
        b: (&Levels, &Levels),
        before: usize,
    ) -> Option<usize>
        ensures { IsPrevious (in_either (has_number a.entry.0.now.words.items)
            (has_number a.entry.1.now.words.items) (has_number b.entry.0.now.words.items) (has_number b.entry.1.now.words.items)) before result }
    {
        let at = before / WORD;
        if let Some(bit) = highest_below(Levels::either_at(a, b, at), before % WORD) {
            return Some(WORD * at + bit);
        }
        let (at, word) = Levels::previous_word(a, b, at)?;
        let bit = highest_below(word, WORD)?;
        Some(WORD * at + bit)
    }
}

/// The first place from a place on where the words of `a` or the words of `b` may have a number in common.
fn next_place(a: (&Levels, &Levels), b: (&Levels, &Levels), from: usize) -> Option<usize>
    ensures { IsNext (in_either (has_number a.entry.0.now.tops.items) (has_number a.entry.1.now.tops.items)
        (has_number b.entry.0.now.tops.items) (has_number b.entry.1.now.tops.items)) from result }
{
    words::next_number(&a.0.tops, &a.1.tops, &b.0.tops, &b.1.tops, from)
}

/// The last such place before a place.
fn previous_place(a: (&Levels, &Levels), b: (&Levels, &Levels), before: usize) -> Option<usize>
    ensures { IsPrevious (in_either (has_number a.entry.0.now.tops.items) (has_number a.entry.1.now.tops.items)
        (has_number b.entry.0.now.tops.items) (has_number b.entry.1.now.tops.items)) before result }
{
    words::previous_number(&a.0.tops, &a.1.tops, &b.0.tops, &b.1.tops, before)
}
