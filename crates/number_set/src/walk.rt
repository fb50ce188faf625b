// A walk from number to number, upwards, that reads each word once.
ghost use Rattle.std.specs.Prelude.{◌≡◌, ℕ, ◌+◌, ◌^◌, ◌<◌, IfSome};
ghost use Rattle.number_set.specs.Next.{in_either, IsNext};
ghost use Rattle.number_set.specs.WalkView.{IsAt, IsLeft};
ghost use Rattle.number_set.specs.Walks.{walked, walked_to};

use crate::bits::{WORD, without_lowest};
use crate::set::NumberSet;
use std::marker::Model;

/// A walk upwards over the numbers that are in both sets of one pair or in both sets of another. `rest` are those of the word
/// at `at` to which it did not come yet.
///
/// Own.
#[derive(Drop)]
pub struct Walk<'a> {
    first: &'a NumberSet,
    second: &'a NumberSet,
    third: &'a NumberSet,
    fourth: &'a NumberSet,
    from: usize,
    at: usize,
    rest: u64,
}

/// What is left of a word, or the next word where nothing is.
fn word_left(
    a: (&NumberSet, &NumberSet),
    b: (&NumberSet, &NumberSet),
    at: usize,
    rest: u64,
) -> Option<(usize, u64)>
    requires { at < 2 ^ 58 }
    ensures { (from : ℕ) → IsAt (in_either a.entry.0.now.has a.entry.1.now.has b.entry.0.now.has b.entry.1.now.has) from at rest
        → IsLeft (in_either a.entry.0.now.has a.entry.1.now.has b.entry.0.now.has b.entry.1.now.has) from result }
{
    if rest != 0 {
        return Some((at, rest));
    }
    NumberSet::next_word(a, b, at + 1)
}

impl<'a> Model for Walk<'a> {
    ghost use Rattle.number_set.specs.Walks.{WalkValue};
    ghost use Rattle.number_set.specs.Code.{walk_code};

    ghost Value = { WalkValue };

    ghost coded = { walk_code };

    ghost use Rattle.number_set.specs.WalkView.{walk_of, IsWalk};

    ghost view = { walk_of };

    ghost invariant = { IsWalk };
}

impl<'a> Walk<'a> {
    /// From 0 on.
    pub(crate) fn over(
        a: (&'a NumberSet, &'a NumberSet),
        b: (&'a NumberSet, &'a NumberSet),
    ) -> Walk<'a>
        ensures { result ≡ record { first = a.entry.0.now; second = a.entry.1.now; third = b.entry.0.now; fourth = b.entry.1.now; from = 0 } }
    {
        Walk {
            first: a.0,
            second: a.1,
            third: b.0,
            fourth: b.1,
            from: 0,
            at: 0,
            rest: NumberSet::word_in_either(a, b, 0),
        }
    }

    /// The next number, or None where there is none more. Takes no memory; constant cost, and linear in the length that is
    /// passed over, 4,096 numbers at a time where none is a member.
    ///
    /// Own.
    pub fn next(&mut self) -> Option<usize>
        ensures next { IsNext (walked self.old) self.old.from result }
        ensures small { IfSome result (λ n. n + 1 < 2 ^ 64) }
        ensures after { self.new ≡ walked_to result self.old }
    {
        let a = (self.first, self.second);
        let b = (self.third, self.fourth);
        let (at, word) = word_left(a, b, self.at, self.rest)?;
        let (place, rest) = without_lowest(word);
        let number = WORD * at + place;
        self.at = at;
        self.rest = rest;
        self.from = number + 1;
        Some(number)
    }
}
