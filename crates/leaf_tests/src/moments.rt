// Moments by number beside a plain list of them, which is searched from end to end, over generated calls; and worked rows.

use next_moments::Moments;
use std::alloc::{AllocError, Global};

/// How many calls are made.
const CALLS: u64 = 6_000;

/// The list grows no longer than this.
const MOST: usize = 300;

/// Moments, and the plain list of them.
#[derive(Drop)]
struct Both {
    moments: Moments,
    list: Vec<Option<u64>>,
}

/// The first number of the plain list with the least moment, with that moment.
fn first_of(list: &[Option<u64>]) -> Option<(usize, u64)> {
    let mut first = None;
    for (number, moment) in list.iter().enumerate() {
        if let Some(moment) = *moment {
            first = match first {
                Some((other, least)) if least <= moment => Some((other, least)),
                _ => Some((number, moment)),
            };
        }
    }
    first
}

fn set_in(list: &mut [Option<u64>], number: usize, moment: Option<u64>) {
    if let Some(place) = list.get_mut(number) {
        *place = moment;
    }
}

fn take_due_of(list: &mut [Option<u64>], time: u64) -> Option<usize> {
    let (number, moment) = first_of(list)?;
    if moment > time {
        return None;
    }
    set_in(list, number, None);
    Some(number)
}

/// Sets a number's moment in both.
fn set_both(both: &mut Both, number: usize, moment: Option<u64>) {
    if number < both.moments.len() {
        both.moments.set(number, moment);
    }
    set_in(&mut both.list, number, moment);
}

/// Makes both so long.
fn lengthen_both(both: &mut Both, len: usize) -> Result<(), AllocError> {
    both.moments.lengthen(len)?;
    for _ in both.list.len()..len {
        both.list.push(None)?;
    }
    Ok(())
}

/// Makes one call of a random number; do both answer the same?
fn is_alike(both: &mut Both, random: u64) -> Result<bool, AllocError> {
    let some = random / 16;
    let number = (some % 512) as usize;
    let moment = some / 512 % 40;
    match random % 16 {
        0 => lengthen_both(both, number.min(MOST))?,
        1 | 2 => set_both(both, number, None),
        3..=5 => {
            let time = moment / 2;
            return Ok(both.moments.take_due(time) == take_due_of(&mut both.list, time));
        }
        _ => set_both(both, number, Some(moment)),
    }
    Ok(both.moments.first() == first_of(&both.list))
}

/// Has each number the moment that the plain list has?
fn are_alike(both: &Both) -> bool {
    for number in 0..MOST + 2 {
        if both.moments.get(number) != both.list.get(number).copied().flatten() {
            return false;
        }
    }
    both.moments.len() == both.list.len()
}

/// The first call that they answer otherwise.
fn first_difference(both: &mut Both) -> Result<Option<u64>, AllocError> {
    let mut random = 1u64;
    for call in 0..CALLS {
        random = random
            .wrapping_mul(6_364_136_223_846_793_005)
            .wrapping_add(1_442_695_040_888_963_407);
        if !is_alike(both, random >> 33)? {
            return Ok(Some(call));
        }
    }
    Ok(if are_alike(both) { None } else { Some(CALLS) })
}

fn difference(alloc: Global) -> Result<Option<u64>, AllocError> {
    let mut both = Both {
        moments: Moments::new(alloc),
        list: Vec::new(alloc),
    };
    first_difference(&mut both)
}

#[test]
fn moments_answer_as_a_plain_list(rt: HostRuntime) {
    assert_eq!(rt; difference(rt.alloc()), Ok(None));
}

/// The numbers that are taken at 50, one after the other, after these moments were set.
fn taken(moments: &mut Moments, set: &[Option<u64>]) -> [Option<usize>; 5] {
    for (number, moment) in set.iter().enumerate() {
        if number < moments.len() {
            moments.set(number, *moment);
        }
    }
    [
        moments.take_due(50),
        moments.take_due(50),
        moments.take_due(50),
        moments.take_due(50),
        moments.take_due(50),
    ]
}

/// The same for new moments.
fn taken_of(alloc: Global, set: &[Option<u64>]) -> Result<[Option<usize>; 5], AllocError> {
    let mut moments = Moments::new(alloc);
    moments.lengthen(5)?;
    Ok(taken(&mut moments, set))
}

#[test]
fn due_numbers_come_by_moment_and_then_by_number(rt: HostRuntime) {
    let falling = taken_of(
        rt.alloc(),
        &[Some(50), Some(40), Some(30), Some(20), Some(10)],
    );
    assert_eq!(rt; falling, Ok([Some(4), Some(3), Some(2), Some(1), Some(0)]));
    let equal = taken_of(rt.alloc(), &[Some(7), Some(7), Some(7), Some(7), Some(7)]);
    assert_eq!(rt; equal, Ok([Some(0), Some(1), Some(2), Some(3), Some(4)]));
    let late = taken_of(rt.alloc(), &[Some(51), None, Some(50), Some(0), Some(50)]);
    assert_eq!(rt; late, Ok([Some(3), Some(2), Some(4), None, None]));
}
