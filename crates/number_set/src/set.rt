// A set of the numbers below a length, and the walks from member to member, up and down.
ghost use Rattle.std.specs.Prelude.{◌≡◌, ℕ, ◌+◌, ◌*◌, ◌^◌, ◌<◌, ◌≤◌, ◌==◌, Bool, true, false, IfSome, MatchOption, OnOk, OnErr, IsOk, max};
ghost use Rattle.std.specs.Prelude.{if◌then◌else◌};
ghost use Rattle.number_set.specs.Next.{in_either, IsNext, IsPrevious};
ghost use Rattle.number_set.specs.Walks.{IsNextWord, IsPreviousWord};
ghost use Rattle.number_set.specs.Words.{is_set};

use crate::levels::Levels;
use crate::walk::Walk;
use crate::words::has_number;
use std::alloc::{AllocError, Global};
use std::marker::Model;

/// A set of numbers below a length that grows. It takes one bit for each number below the length,
/// and to go from member to member skips 4,096 absent numbers at a time.
///
/// Own.
#[derive(Drop)]
pub struct NumberSet {
    levels: Levels,
    len: usize,
}

impl Model for NumberSet {
    ghost use Rattle.number_set.specs.Numbers.{NumberSetValue};
    ghost use Rattle.number_set.specs.Code.{number_set_code};

    ghost Value = { NumberSetValue };

    ghost coded = { number_set_code };

    ghost use Rattle.number_set.specs.Words.{value_of, IsKept};

    ghost view = { λ a. value_of a.levels.words.items a.len };

    ghost invariant = { λ a. IsKept a.levels.words.items a.len };
}

impl NumberSet {
    /// A set of length 0, without a member. Takes no memory; constant cost.
    ///
    /// Own.
    pub fn new(alloc: Global) -> NumberSet
        ensures len { result.len ≡ 0 }
        ensures members { (n : ℕ) → result.has n ≡ false }
    {
        NumberSet {
            levels: Levels::new(alloc),
            len: 0,
        }
    }

    /// The length: the numbers below it can be members. Takes no memory; constant cost.
    ///
    /// Own.
    pub fn len(&self) -> usize
        ensures { result ≡ self.now.len }
    {
        self.len
    }

    /// Makes the set longer by one, and its new last number a member or not. Takes memory at most once
    /// in 64 calls; constant cost where it takes none. Out of memory, and at a length of 2^64 - 1, it is
    /// refused, and the set is as it was.
    ///
    /// Own.
    pub fn push(&mut self, member: bool) -> Result<(), AllocError>
        ensures len { OnOk result (self.new.len ≡ self.old.len + 1) }
        ensures members { OnOk result
            ((n : ℕ) → self.new.has n ≡ (if n == self.old.len then member else self.old.has n)) }
        ensures err { OnErr result (self.new ≡ self.old) }
    {
        let number = self.len;
        if number == usize::MAX {
            return Err(AllocError);
        }
        self.levels.make_room(number)?;
        self.levels.put(number, member);
        self.len = number + 1;
        Ok(())
    }

    /// Makes a number below the length a member, which it may be already. Takes no memory; constant
    /// cost.
    ///
    /// Own.
    pub fn insert(&mut self, number: usize)
        requires { number < self.old.len }
        ensures len { self.new.len ≡ self.old.len }
        ensures members { (n : ℕ) → self.new.has n ≡ (if n == number then true else self.old.has n) }
    {
        self.levels.put(number, true);
    }

    /// Makes a number no member, which it may be already: one from the length on never is one. Takes
    /// no memory; constant cost.
    ///
    /// Own.
    pub fn remove(&mut self, number: usize)
        ensures len { self.new.len ≡ self.old.len }
        ensures members { (n : ℕ) → self.new.has n ≡ (if n == number then false else self.old.has n) }
    {
        if number < self.len {
            self.levels.put(number, false);
        }
    }

    /// Makes a number below the length a member or not. Takes no memory; constant cost.
    ///
    /// Own.
    pub fn put(&mut self, number: usize, member: bool)
        requires { number < self.old.len }
        ensures len { self.new.len ≡ self.old.len }
        ensures members { (n : ℕ) → self.new.has n ≡ (if n == number then member else self.old.has n) }
    {
        if member {
            self.insert(number);
        } else {
            self.remove(number);
        }
    }

    /// Makes a shorter set so long, with no new member, and leaves one that is as long or longer. Takes memory where it is
    /// shorter; linear in what is added. Out of memory some of it may be added.
    ///
    /// Own.
    pub fn lengthen(&mut self, len: usize) -> Result<(), AllocError>
        ensures long { OnOk result (len ≤ self.new.len) }
        ensures no_shorter { self.old.len ≤ self.new.len }
        ensures no_longer { self.new.len ≤ max self.old.len len }
        ensures exact { OnOk result (self.new.len ≡ max self.old.len len) }
        ensures already { len ≤ self.old.len → IsOk result }
        ensures members { (n : ℕ) → self.new.has n ≡ self.old.has n }
    {
        while self.len() < len {
            self.push(false)?;
        }
        Ok(())
    }

    /// Makes all numbers below the length members. Takes no memory; linear in the length, 64 numbers
    /// at a time.
    ///
    /// Own.
    pub fn fill(&mut self)
        ensures len { self.new.len ≡ self.old.len }
        ensures members { (n : ℕ) → n < self.old.len → self.new.has n ≡ true }
    {
        self.levels.fill(self.len);
    }

    /// Whether the number is a member: one from the length on never is one. Takes no memory; constant
    /// cost.
    ///
    /// Own.
    pub fn contains(&self, number: usize) -> bool
        ensures { result ≡ self.now.has number }
    {
        has_number(&self.levels.words, number)
    }

    /// The numbers from 64 * `at` on as the bits of a word, the lowest first: a bit is set where its number is a member, and
    /// past the length none is. Takes no memory; constant cost.
    ///
    /// Own.
    pub fn word(&self, at: usize) -> u64
        ensures { (k : ℕ) → k < 64 → is_set result k ≡ self.now.has (64 * at + k) }
    {
        self.levels.word(at)
    }

    /// The least member from a number on, that number included, or None where there is none. It can be
    /// asked again from the number after it. Takes no memory; linear in the length that is passed over,
    /// 4,096 numbers at a time where none is a member.
    ///
    /// Own.
    pub fn next(&self, from: usize) -> Option<usize>
        ensures next { IsNext self.now.has from result }
        ensures within { IfSome result (λ n. n < self.now.len) }
        ensures small { IfSome result (λ n. n + 1 < 2 ^ 64) }
    {
        self.levels.next_own(from)
    }

    /// The greatest member below a number, or None where there is none. Takes no memory; linear in
    /// the length that is passed over, 4,096 numbers at a time where none is a member.
    ///
    /// Own.
    pub fn previous(&self, before: usize) -> Option<usize>
        ensures previous { IsPrevious self.now.has before result }
        ensures within { IfSome result (λ n. n < self.now.len) }
    {
        self.levels.previous_own(before)
    }

    /// The least number from a number on, that number included, that is in both sets of `a` or in
    /// both sets of `b`, or None where there is none. The sets may have different lengths. It can be
    /// asked again from the number after it. Takes no memory; linear in the length that is passed over,
    /// 4,096 numbers at a time where none is a member.
    ///
    /// Own.
    pub fn next_in_either(
        a: (&NumberSet, &NumberSet),
        b: (&NumberSet, &NumberSet),
        from: usize,
    ) -> Option<usize>
        ensures next { IsNext (in_either a.entry.0.now.has a.entry.1.now.has
            b.entry.0.now.has b.entry.1.now.has) from result }
        ensures small { IfSome result (λ n. n + 1 < 2 ^ 64) }
    {
        let (first, second) = a;
        let (third, fourth) = b;
        Levels::next(
            (&first.levels, &second.levels),
            (&third.levels, &fourth.levels),
            from,
        )
    }

    /// The greatest number below a number that is in both sets of `a` or in both sets of `b`, or None
    /// where there is none. The sets may have different lengths. Takes no memory; linear in the length
    /// that is passed over, 4,096 numbers at a time where none is a member.
    ///
    /// Own.
    pub fn previous_in_either(
        a: (&NumberSet, &NumberSet),
        b: (&NumberSet, &NumberSet),
        before: usize,
    ) -> Option<usize>
        ensures { IsPrevious (in_either a.entry.0.now.has a.entry.1.now.has
            b.entry.0.now.has b.entry.1.now.has) before result }
    {
        let (first, second) = a;
        let (third, fourth) = b;
        Levels::previous(
            (&first.levels, &second.levels),
            (&third.levels, &fourth.levels),
            before,
        )
    }

    /// The last word before a place that has a number in both sets of `a` or in both sets of `b`, with its place, or None where
    /// no number below 64 * `before` is one. The numbers from 64 times its place on are its bits, the lowest first. The sets may
    /// have different lengths. Takes no memory; linear in the length that is passed over, 4,096 numbers at a time where none is
    /// a member.
    ///
    /// Own.
    pub fn previous_word_in_either(
        a: (&NumberSet, &NumberSet),
        b: (&NumberSet, &NumberSet),
        before: usize,
    ) -> Option<(usize, u64)>
        ensures { MatchOption result
            ((n : ℕ) → n < 64 * before
            → in_either a.entry.0.now.has a.entry.1.now.has b.entry.0.now.has b.entry.1.now.has n ≡ false)
            (λ found. IsPreviousWord (in_either a.entry.0.now.has a.entry.1.now.has b.entry.0.now.has b.entry.1.now.has)
            before found.0 found.1) }
    {
        let (first, second) = a;
        let (third, fourth) = b;
        Levels::previous_word(
            (&first.levels, &second.levels),
            (&third.levels, &fourth.levels),
            before,
        )
    }

    /// A walk upwards over the numbers that are in both sets of `a` or in both sets of `b`, from 0 on. The sets may have
    /// different lengths. Takes no memory; constant cost.
    ///
    /// Own.
    pub fn walk_either<'a>(
        a: (&'a NumberSet, &'a NumberSet),
        b: (&'a NumberSet, &'a NumberSet),
    ) -> Walk<'a>
        ensures { result ≡ record { first = a.entry.0.now; second = a.entry.1.now; third = b.entry.0.now; fourth = b.entry.1.now; from = 0 } }
    {
        Walk::over(a, b)
    }

    /// The word at a place of the numbers that are in both sets of `a` or in both sets of `b`.
    pub(crate) fn word_in_either(
        a: (&NumberSet, &NumberSet),
        b: (&NumberSet, &NumberSet),
        at: usize,
    ) -> u64
        ensures fits { (n : ℕ) → in_either a.entry.0.now.has a.entry.1.now.has b.entry.0.now.has b.entry.1.now.has n ≡ true → n + 1 < 2 ^ 64 }
        ensures bits { (k : ℕ) → k < 64 → is_set result k
            ≡ in_either a.entry.0.now.has a.entry.1.now.has b.entry.0.now.has b.entry.1.now.has (64 * at + k) }
    {
        let (first, second) = a;
        let (third, fourth) = b;
        Levels::either_at(
            (&first.levels, &second.levels),
            (&third.levels, &fourth.levels),
            at,
        )
    }

    /// The first word from a place on that has a number in both sets of `a` or in both sets of `b`, with its place.
    pub(crate) fn next_word(
        a: (&NumberSet, &NumberSet),
        b: (&NumberSet, &NumberSet),
        from: usize,
    ) -> Option<(usize, u64)>
        ensures { MatchOption result
            ((n : ℕ) → 64 * from ≤ n → in_either a.entry.0.now.has a.entry.1.now.has b.entry.0.now.has b.entry.1.now.has n ≡ false)
            (λ found. IsNextWord (in_either a.entry.0.now.has a.entry.1.now.has b.entry.0.now.has b.entry.1.now.has) from found.0 found.1) }
    {
        let (first, second) = a;
        let (third, fourth) = b;
        Levels::next_word(
            (&first.levels, &second.levels),
            (&third.levels, &fourth.levels),
            from,
        )
    }
}
