// A heap of timers in a list, where the slot of each timer holds its place: how timers go to other places.
ghost use Rattle.std.specs.Prelude.{◌≡◌, ◌≢◌, ◌+◌, ◌<◌, ◌≤◌, ℕ, [], ◌∷◌, ◌++◌, true, false, length, get_or};
ghost use Rattle.std.specs.Prelude.{IsPermutation, All, IfSome, IfNone, vec_len, vec_capacity};
ghost use Rattle.std.specs.List.{swap};
ghost use Rattle.slab.specs.Slab.{get, slab_len, HasRoomFor};
ghost use Rattle.min_timer.specs.Order.{is_earlier, above, IsHeap, IsHeapBut, MayRise, MaySink, SlotsHoldPlaces, HaveOwnStamps, IsKept};
ghost use Rattle.min_timer.specs.Queue.{is_timer_of};
ghost use Rattle.min_timer.specs.declared.timer.Timer.{Timer};

use crate::key::TimerKey;
use crate::timer::Timer;
use slab::Slab;

/// The place of the timer of this handle, if it waits.
pub(crate) fn place_of(timers: &[Timer], places: &Slab<usize>, handle: TimerKey) -> Option<usize>
    requires { SlotsHoldPlaces timers.now places.now }
    ensures found { IfSome result (λ at. (at < length timers.now) × ((d : Timer) → is_timer_of handle (get_or timers.now at d) ≡ true)) }
    ensures none { IfNone result (All (λ timer. is_timer_of handle timer ≡ false) timers.now) }
{
    let at = *places.get(handle.slot)?;
    if timers.get(at)?.handle == handle {
        Some(at)
    } else {
        None
    }
}

/// Exchanges the timers at two places.
fn exchange(timers: &mut [Timer], places: &mut Slab<usize>, a: usize, b: usize)
    requires bounds { (a < length timers.old) × (b < length timers.old) }
    requires seated { SlotsHoldPlaces timers.old places.old }
    ensures after { timers.new ≡ swap timers.old a b }
    ensures seated { SlotsHoldPlaces timers.new places.new }
    ensures count { slab_len places.new ≡ slab_len places.old }
{
    timers.swap(a, b);
    places[timers[a].handle.slot] = a;
    places[timers[b].handle.slot] = b;
}

/// The place below this one whose timer comes due first, or None where there is none below.
fn first_below(timers: &[Timer], at: usize) -> Option<usize>
    requires { at < length timers.now }
    ensures below { IfSome result (λ k. (k < length timers.now) × (at < k) × (above k ≡ at)) }
    ensures first { IfSome result (λ k. (other : ℕ) (d : Timer) → 0 < other → other < length timers.now → above other ≡ at
        → is_earlier (get_or timers.now other d) (get_or timers.now k d) ≡ false) }
    ensures none { IfNone result ((k : ℕ) → 0 < k → k < length timers.now → above k ≢ at) }
{
    let mut first = 4 * at + 1;
    if first >= timers.len() {
        return None;
    }
    for other in first + 1..timers.len().min(first + 4) {
        if timers[other].is_earlier(&timers[first]) {
            first = other;
        }
    }
    Some(first)
}

/// Brings the timer at the place up to where it belongs.
fn rise(timers: &mut [Timer], places: &mut Slab<usize>, mut at: usize)
    requires bounds { at < length timers.old }
    requires seated { SlotsHoldPlaces timers.old places.old }
    requires heap { MayRise timers.old at }
    ensures same { IsPermutation timers.old timers.new }
    ensures heap { IsHeap timers.new }
    ensures seated { SlotsHoldPlaces timers.new places.new }
    ensures count { slab_len places.new ≡ slab_len places.old }
{
    while at > 0 {
        let over = (at - 1) / 4;
        if !timers[at].is_earlier(&timers[over]) {
            return;
        }
        exchange(timers, places, at, over);
        at = over;
    }
}

/// Brings the timer at the place down to where it belongs.
fn sink(timers: &mut [Timer], places: &mut Slab<usize>, mut at: usize)
    requires bounds { at < length timers.old }
    requires seated { SlotsHoldPlaces timers.old places.old }
    requires heap { MaySink timers.old at }
    ensures same { IsPermutation timers.old timers.new }
    ensures heap { IsHeap timers.new }
    ensures seated { SlotsHoldPlaces timers.new places.new }
    ensures count { slab_len places.new ≡ slab_len places.old }
{
    while let Some(below) = first_below(timers, at) {
        if !timers[below].is_earlier(&timers[at]) {
            return;
        }
        exchange(timers, places, at, below);
        at = below;
    }
}

/// Brings the timer at the place to where it belongs.
fn settle(timers: &mut [Timer], places: &mut Slab<usize>, at: usize)
    requires bounds { at < length timers.old }
    requires seated { SlotsHoldPlaces timers.old places.old }
    requires heap { IsHeapBut timers.old at }
    ensures same { IsPermutation timers.old timers.new }
    ensures heap { IsHeap timers.new }
    ensures seated { SlotsHoldPlaces timers.new places.new }
    ensures count { slab_len places.new ≡ slab_len places.old }
{
    if at > 0 && timers[at].is_earlier(&timers[(at - 1) / 4]) {
        rise(timers, places, at);
    } else {
        sink(timers, places, at);
    }
}

/// Takes the timer at the place out.
pub(crate) fn take(timers: &mut Vec<Timer>, places: &mut Slab<usize>, at: usize) -> Timer
    requires bounds { at < length timers.old.items }
    requires kept { IsKept timers.old.items places.old }
    ensures taken { (d : Timer) → result ≡ get_or timers.old.items at d }
    ensures rest { IsPermutation timers.old.items (result ∷ timers.new.items) }
    ensures kept { IsKept timers.new.items places.new }
{
    let taken = take_out(timers, places, at);
    if at < timers.len() {
        settle(timers, places, at);
    }
    taken
}

/// Takes the timer at the place out, to which the last one goes, which may not belong there.
fn take_out(timers: &mut Vec<Timer>, places: &mut Slab<usize>, at: usize) -> Timer
    requires bounds { at < length timers.old.items }
    requires kept { IsKept timers.old.items places.old }
    ensures taken { (d : Timer) → result ≡ get_or timers.old.items at d }
    ensures rest { IsPermutation timers.old.items (result ∷ timers.new.items) }
    ensures own_stamps { HaveOwnStamps timers.new.items }
    ensures but { at < length timers.new.items → IsHeapBut timers.new.items at }
    ensures heap { length timers.new.items ≤ at → IsHeap timers.new.items }
    ensures seated { SlotsHoldPlaces timers.new.items places.new }
    ensures count { slab_len places.new ≡ length timers.new.items }
{
    let last = timers.len() - 1;
    exchange(timers, places, at, last);
    take_last(timers, places)
}

/// Takes the timer at the last place out, and frees its slot.
fn take_last(timers: &mut Vec<Timer>, places: &mut Slab<usize>) -> Timer
    requires some { 0 < length timers.old.items }
    requires seated { SlotsHoldPlaces timers.old.items places.old }
    ensures items { timers.old.items ≡ timers.new.items ++ result ∷ [] }
    ensures seated { SlotsHoldPlaces timers.new.items places.new }
    ensures count { slab_len places.new + 1 ≡ slab_len places.old }
{
    let last = timers.pop().unwrap();
    let _ = places.try_remove(last.handle.slot);
    last
}

/// Adds a timer whose stamp is above all others, and hands out its handle.
pub(crate) fn push(
    timers: &mut Vec<Timer>,
    places: &mut Slab<usize>,
    deadline: u64,
    stamp: u64,
    key: u64,
) -> TimerKey
    requires room { (vec_len timers.old < vec_capacity timers.old) × HasRoomFor places.old 1 }
    requires newest { All (λ timer. timer.handle.stamp < stamp) timers.old.items }
    requires kept { IsKept timers.old.items places.old }
    ensures stamped { result.stamp ≡ stamp }
    ensures pushed { IsPermutation (record { deadline = deadline; key = key; handle = result } ∷ timers.old.items) timers.new.items }
    ensures kept { IsKept timers.new.items places.new }
{
    let at = timers.len();
    let slot = places.insert_reserved(at);
    let handle = TimerKey { slot, stamp };
    timers.push_reserved(Timer {
        deadline,
        key,
        handle,
    });
    rise(timers, places, at);
    handle
}
