// Bulky ends are read in turns. What a poll marks by that stands beside the ends.
ghost use Rattle.std.specs.Prelude.{◌≡◌, ℕ, ◌+◌, ◌^◌, ◌<◌, ◌≤◌, ◌&&◌, false, IfSome};
ghost use Rattle.number_set.specs.Next.{IsNext};
ghost use Rattle.mio_port.specs.ReadTurns.{gives_way, in_turn, other_end, EachIsReadInTime, GoesTo, TurnWent};

use ev_port::WantTable;
use number_set::NumberSet;

/// For so many polls an end keeps its turn. Fewer leave what it read to the processor's caches before it is written, and more
/// let the others wait.
const POLLS: u32 = 64;

/// The number of the end whose turn it is to be read, and for how many polls more it may be. Its peer drains from a write that
/// came short until a poll finds that nothing waits for it: one full write doesn't tell that all was given.
///
/// Own.
#[derive(Clone, Copy, Debug, PartialEq, Eq)]
pub(crate) struct Turn {
    pub(crate) who: usize,
    left: u32,
    pub(crate) peer_drains: bool,
}

impl Turn {
    /// Nobody had a turn yet.
    pub(crate) fn new() -> Turn
        ensures { result ≡ record { who = 0; left = 0; peer_drains = false } }
    {
        Turn {
            who: 0,
            left: 0,
            peer_drains: false,
        }
    }

    /// The turn at the next poll of a table, by the numbers of the bulky ends that are ready. What was said of
    /// the peer stays.
    pub(crate) fn next(self, wants: &WantTable, bulky: &NumberSet) -> Turn
        ensures { TurnWent (in_turn wants.now bulky.now) self result }
    {
        if self.left > 0 && is_in_turn(wants, bulky, self.who) {
            return Turn {
                left: self.left - 1,
                ..self
            };
        }
        match next_in_round(wants, bulky, self.who) {
            Some(who) => Turn {
                who,
                left: POLLS - 1,
                ..self
            },
            None => Turn { left: 0, ..self },
        }
    }

    /// The end gives way to its peer while that drains, but not at the last poll of the turn, so that no turn goes by without
    /// a read.
    pub(crate) fn gives_way(self) -> bool
        ensures { result ≡ gives_way self }
    {
        self.peer_drains && self.left > 0
    }
}

/// A bulky end that is wanted and ready is marked within 64 polls for each side, and 64: its wait is no longer, whoever else
/// comes and goes and however little its peer takes. A law about turns; it does nothing.
///
/// Own.
pub fn each_is_read_in_time()
    ensures { EachIsReadInTime }
{}

/// The number of the other end of the link.
pub(crate) fn other_end(number: usize) -> usize
    ensures { result ≡ other_end number }
{
    if number % 2 == 0 {
        number + 1
    } else {
        number - 1
    }
}

/// Whether the side with this number wants to read, and to write. Where it wants something no other side is looked at.
pub(crate) fn wants_at(wants: &WantTable, number: usize) -> (bool, bool)
    ensures read { result.0 ≡ wants.now.reads number }
    ensures write { result.1 ≡ wants.now.writes number }
{
    if number >= 2 * wants.links() as usize {
        return (false, false);
    }
    match wants.previous_wanted(number + 1) {
        Some(want) if want.side.number() == number => (want.read, want.write),
        _ => (false, false),
    }
}

fn is_in_turn(wants: &WantTable, bulky: &NumberSet, number: usize) -> bool
    ensures { result ≡ in_turn wants.now bulky.now number }
{
    bulky.contains(number) && wants_at(wants, number).0
}

/// The first from a number on that takes turns.
fn first_in_turn(wants: &WantTable, bulky: &NumberSet, from: usize) -> Option<usize>
    ensures next { IsNext (in_turn wants.now bulky.now) from result }
    ensures small { IfSome result (λ n. n + 1 < 2 ^ 64) }
{
    let mut at = from;
    while let Some(number) = bulky.next(at) {
        if is_in_turn(wants, bulky, number) {
            return Some(number);
        }
        at = number + 1;
    }
    None
}

/// The first behind a number that takes turns, or the first of all.
fn next_in_round(wants: &WantTable, bulky: &NumberSet, who: usize) -> Option<usize>
    ensures { GoesTo (in_turn wants.now bulky.now) who result }
{
    let first = first_in_turn(wants, bulky, 0)?;
    match first_in_turn(wants, bulky, who.saturating_add(1)) {
        Some(behind) => Some(behind),
        None => Some(first),
    }
}
