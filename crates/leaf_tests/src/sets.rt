// Sets of numbers beside lists of bools, which answer the same questions by looking at each number.

use number_set::{NumberSet, Walk};
use std::alloc::{AllocError, Global};

/// Numbers up to here are asked for, past the end of each list.
const ASKED: usize = 280;

/// Whether the number is in the list.
fn is_in(list: &[bool], number: usize) -> bool {
    list.get(number).copied().unwrap_or(false)
}

/// Whether the number is in both of the first two lists or in both of the last two.
fn is_in_either(lists: [&[bool]; 4], number: usize) -> bool {
    let [first, second, third, fourth] = lists;
    (is_in(first, number) && is_in(second, number))
        || (is_in(third, number) && is_in(fourth, number))
}

/// The least number from a number on that is in both of the first two lists or in both of the last two.
fn next_in(lists: [&[bool]; 4], from: usize) -> Option<usize> {
    (from..ASKED).find(|number| is_in_either(lists, *number))
}

/// The greatest number below a number that is in both of the first two lists or in both of the last two.
fn previous_in(lists: [&[bool]; 4], before: usize) -> Option<usize> {
    (0..before)
        .rev()
        .find(|number| is_in_either(lists, *number))
}

/// Whether the bit of a number is set in its word.
fn is_in_word(set: &NumberSet, number: usize) -> bool {
    (set.word(number / 64) >> (number % 64)) & 1 == 1
}

/// Whether the set answers as the list does.
fn answers_as(set: &NumberSet, list: &[bool]) -> bool {
    for number in 0..ASKED {
        if set.contains(number) != is_in(list, number)
            || is_in_word(set, number) != is_in(list, number)
            || set.next(number) != next_in([list, list, list, list], number)
            || set.previous(number) != previous_in([list, list, list, list], number)
        {
            return false;
        }
    }
    set.len() == list.len()
}

/// Makes a set and a list longer by so many numbers. Those are members that leave a remainder over the multiples of a step.
fn push_all(
    set: &mut NumberSet,
    list: &mut Vec<bool>,
    length: usize,
    remainder: usize,
    step: usize,
) -> Result<(), AllocError> {
    for number in 0..length {
        let member = number.checked_rem(step) == Some(remainder);
        set.push(member)?;
        list.push(member)?;
    }
    Ok(())
}

fn insert_some(set: &mut NumberSet, list: &mut [bool]) {
    for (number, flag) in list.iter_mut().enumerate() {
        if number % 11 == 0 && number < set.len() {
            set.insert(number);
            *flag = true;
        }
    }
}

/// The number behind the last one is asked to go too, though it can't be a member.
fn remove_some(set: &mut NumberSet, list: &mut [bool]) {
    let length = list.len();
    for (number, flag) in list.iter_mut().enumerate() {
        if number % 5 < 3 {
            set.remove(number);
            *flag = false;
        }
    }
    set.remove(length);
}

fn fill_all(set: &mut NumberSet, list: &mut [bool]) {
    set.fill();
    for flag in list.iter_mut() {
        *flag = true;
    }
}

/// After which change a set no longer answers as its list, of so many numbers.
fn first_wrong(
    set: &mut NumberSet,
    list: &mut Vec<bool>,
    length: usize,
) -> Result<Option<&'static str>, AllocError> {
    push_all(set, list, length, 3, 7)?;
    if !answers_as(set, list) {
        return Ok(Some("pushed"));
    }
    insert_some(set, list);
    if !answers_as(set, list) {
        return Ok(Some("inserted"));
    }
    remove_some(set, list);
    if !answers_as(set, list) {
        return Ok(Some("removed"));
    }
    fill_all(set, list);
    if !answers_as(set, list) {
        return Ok(Some("filled"));
    }
    Ok(None)
}

/// The same for a new set.
fn first_wrong_of(alloc: Global, length: usize) -> Result<Option<&'static str>, AllocError> {
    let mut set = NumberSet::new(alloc);
    let mut list = Vec::new(alloc);
    first_wrong(&mut set, &mut list, length)
}

#[test]
fn a_set_answers_as_a_list_of_bools(rt: HostRuntime) {
    for length in [0usize, 1, 63, 64, 65, 200] {
        let wrong = first_wrong_of(rt.alloc(), length);
        assert_eq!(rt; wrong, Ok(None), "length {length}");
    }
}

/// A set and a list of the same numbers.
#[derive(Drop)]
struct Both {
    set: NumberSet,
    list: Vec<bool>,
}

fn empty(alloc: Global) -> Both {
    Both {
        set: NumberSet::new(alloc),
        list: Vec::new(alloc),
    }
}

/// Fills it with so many numbers, of which those are members that leave 1 over the multiples of a step.
fn fill(both: &mut Both, length: usize, step: usize) -> Result<(), AllocError> {
    push_all(&mut both.set, &mut both.list, length, 1, step)
}

/// The first number from which a walk goes on otherwise than over lists.
fn first_wrong_step(walk: &mut Walk, lists: [&[bool]; 4]) -> Option<usize> {
    let mut from = 0;
    for _ in 0..ASKED {
        let next = walk.next();
        if next != next_in(lists, from) {
            return Some(from);
        }
        if let Some(number) = next {
            from = number + 1;
        }
    }
    None
}

/// The first number from which, or below which, another number is found than in lists.
fn first_wrong_find(sets: [&NumberSet; 4], lists: [&[bool]; 4]) -> Option<usize> {
    let [first, second, third, fourth] = sets;
    for number in 0..ASKED {
        let next = NumberSet::next_in_either((first, second), (third, fourth), number);
        let previous = NumberSet::previous_in_either((first, second), (third, fourth), number);
        if next != next_in(lists, number) || previous != previous_in(lists, number) {
            return Some(number);
        }
    }
    None
}

/// Whether the bits of a word are the numbers from this one on, in lists.
fn has_bits(lists: [&[bool]; 4], from: usize, word: u64) -> bool {
    for bit in 0..64usize {
        if ((word >> bit) & 1 == 1) != is_in_either(lists, from.saturating_add(bit)) {
            return false;
        }
    }
    true
}

/// Whether a word was found where there is a last number, and is that of this number.
fn is_last_word(lists: [&[bool]; 4], found: Option<(usize, u64)>, last: Option<usize>) -> bool {
    match (found, last) {
        (Some((at, word)), Some(number)) => {
            at == number / 64 && has_bits(lists, number - number % 64, word)
        }
        (None, None) => true,
        _ => false,
    }
}

/// The first place before which another last word is found than in lists.
fn first_wrong_word(sets: [&NumberSet; 4], lists: [&[bool]; 4]) -> Option<usize> {
    let [first, second, third, fourth] = sets;
    for before in 0..6usize {
        let found = NumberSet::previous_word_in_either((first, second), (third, fourth), before);
        if !is_last_word(lists, found, previous_in(lists, 64 * before)) {
            return Some(before);
        }
    }
    None
}

/// Fills four sets, of different lengths.
fn fill_four(
    first: &mut Both,
    second: &mut Both,
    third: &mut Both,
    fourth: &mut Both,
) -> Result<(), AllocError> {
    fill(first, 200, 2)?;
    fill(second, 130, 3)?;
    fill(third, 65, 4)?;
    fill(fourth, 250, 5)
}

/// Where a walk over four sets goes wrong, and where a search for a number or for a word does.
fn wrong_together(first: &Both, second: &Both, third: &Both, fourth: &Both) -> [Option<usize>; 3] {
    let sets = [&first.set, &second.set, &third.set, &fourth.set];
    let lists = [
        first.list.as_slice(),
        second.list.as_slice(),
        third.list.as_slice(),
        fourth.list.as_slice(),
    ];
    let mut walk = NumberSet::walk_either((&first.set, &second.set), (&third.set, &fourth.set));
    [
        first_wrong_step(&mut walk, lists),
        first_wrong_find(sets, lists),
        first_wrong_word(sets, lists),
    ]
}

#[test]
fn sets_of_different_lengths_are_looked_through_together(rt: HostRuntime) {
    let mut first = empty(rt.alloc());
    let mut second = empty(rt.alloc());
    let mut third = empty(rt.alloc());
    let mut fourth = empty(rt.alloc());
    let filled = fill_four(&mut first, &mut second, &mut third, &mut fourth);
    let wrong = wrong_together(&first, &second, &third, &fourth);
    drop(fourth);
    drop(third);
    drop(second);
    drop(first);
    assert_eq!(rt; (filled, wrong), (Ok(()), [None, None, None]));
}

/// Members of a long set, each far behind the one before it or right behind it.
const FAR: [usize; 7] = [0, 63, 4_095, 4_096, 8_191, 9_998, 9_999];

/// Each member of a long set but the last, with the one after it.
const NEIGHBOURS: [[usize; 2]; 6] = [
    [0, 63],
    [63, 4_095],
    [4_095, 4_096],
    [4_096, 8_191],
    [8_191, 9_998],
    [9_998, 9_999],
];

fn insert_far(set: &mut NumberSet) {
    for number in FAR {
        if number < set.len() {
            set.insert(number);
        }
    }
}

/// The first member from which, or to which, the way is not that to its neighbour.
fn first_wrong_way(set: &NumberSet) -> Option<usize> {
    for [before, after] in NEIGHBOURS {
        if set.next(before + 1) != Some(after) || set.previous(after) != Some(before) {
            return Some(before);
        }
    }
    None
}

/// What lies behind the last number and before the first, and what is left once the members are removed.
fn ends(set: &mut NumberSet) -> [Option<usize>; 4] {
    let last = set.next(10_000);
    let first = set.previous(0);
    for number in FAR {
        set.remove(number);
    }
    [last, first, set.next(0), set.previous(10_000)]
}

#[test]
fn a_long_set_is_walked_from_member_to_member(rt: HostRuntime) {
    let mut set = NumberSet::new(rt.alloc());
    let made = set.lengthen(10_000);
    insert_far(&mut set);
    let wrong = first_wrong_way(&set);
    let ends = ends(&mut set);
    drop(set);
    assert_eq!(rt; (made, wrong), (Ok(()), None));
    assert_eq!(rt; ends, [None, None, None, None]);
}
