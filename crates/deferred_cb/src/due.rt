// The callbacks that are due, by owner.
ghost use Rattle.std.specs.Prelude.{◌≡◌, ◌+◌, ◌*◌, ◌≤◌, ◌<◌, ◌++◌, ◌∷◌, ◌&&◌, ◌==◌, [], not, if◌then◌else◌, None, true, false, length};
ghost use Rattle.std.specs.Prelude.{OnOk, OnErr, IfNone, nat_eq};
ghost use Rattle.std.specs.VecDeque.{deque_capacity};
ghost use Rattle.std.specs.List.{IsDistinct};
ghost use Rattle.std.specs.Map.{keys_of};
ghost use Rattle.std.specs.Option.{option_to_list};
ghost use Rattle.indexmap.specs.IndexMap.{spare as spare_of, get};
ghost use Rattle.deferred_cb.specs.DueCalls.{with_reason, has_entry, without, without_calls, all_calls};

use crate::reasons::Reasons;
use ev_types::{NoMemory, Why};
use indexmap::IndexMap;
use std::alloc::Global;
use std::collections::VecDeque;
use std::marker::Model;

/// The callbacks that are due. An owner has at most one pending entry, with joined reasons, at the place where it first became
/// due. A batch is what was pending when it began; its calls are taken one by one, while new reasons become pending for the
/// next batch.
///
/// Libevent: bufferevent-internal.h, deferred callbacks; "Bufferevents: concepts and basics", deferred callbacks.
/// Differs: entries know their owner by a number, and nothing is called here.
#[derive(Drop)]
pub struct Due {
    pending: IndexMap<u64, Reasons>,
    /// Empty between calls.
    moving: VecDeque<(u64, Reasons)>,
    /// What is left of the batch; each entry has a reason.
    batch: VecDeque<(u64, Reasons)>,
    spare: usize,
}

impl Model for Due {
    ghost use Rattle.deferred_cb.specs.DueValue.{DueValue};

    ghost Value = { DueValue };

    ghost use Rattle.deferred_cb.specs.DueView.{due_value, HasRooms};

    ghost view = { due_value };

    ghost invariant = { HasRooms };
}

impl Due {
    /// Nothing is due. Takes no memory; the cost is constant.
    pub fn new(alloc: Global) -> Due
        ensures { result ≡ record { pending = []; batch = []; spare = 0 } }
    {
        Due {
            pending: IndexMap::new(alloc),
            moving: VecDeque::new(alloc),
            batch: VecDeque::new(alloc),
            spare: 0,
        }
    }

    /// Whether nothing is pending and the batch is used up. Takes no memory; the cost is constant.
    pub fn is_empty(&self) -> bool
        ensures { result ≡ ((length self.now.pending == 0) && (length self.now.batch == 0)) }
    {
        self.pending.is_empty() && self.batch.is_empty()
    }

    /// Takes the next call of the batch: the owner, and one reason. None where the batch is used up. Takes no memory; the cost is
    /// constant.
    pub fn take_turn(&mut self) -> Option<(u64, Why)>
        ensures next { self.old.batch ≡ option_to_list result ++ self.new.batch }
        ensures used_up { IfNone result (self.old.batch ≡ []) }
        ensures pending { self.new.pending ≡ self.old.pending }
        ensures spare { self.new.spare ≡ self.old.spare }
    {
        let (owner, mut reasons) = self.batch.pop_front()?;
        let why = reasons.take_first();
        if !reasons.is_empty() {
            self.batch.push_front((owner, reasons)).unwrap();
        }
        Some((owner, why))
    }

    /// A reason becomes due for an owner. It joins the owner's pending entry where it has one, and else makes a new one behind
    /// the others. Takes no memory; the cost is constant.
    pub fn schedule(&mut self, owner: u64, why: Why)
        requires { has_entry owner self.old.pending ≡ false → 0 < self.old.spare }
        ensures pending { self.new.pending ≡ with_reason owner why self.old.pending }
        ensures batch { self.new.batch ≡ self.old.batch }
        ensures spare { length self.new.pending + self.new.spare ≡ length self.old.pending + self.old.spare }
    {
        if let Some(reasons) = self.pending.get_mut(&owner) {
            reasons.join(why);
            return;
        }
        let _ = self.pending.insert(owner, Reasons::of(why)).unwrap();
        self.spare -= 1;
    }

    /// Drops what is pending for an owner, and its calls in the batch. Takes no memory; the cost is in the number of
    /// entries of the batch, and in the number of entries where the owner has one.
    pub fn forget(&mut self, owner: u64)
        ensures pending { self.new.pending ≡ without owner self.old.pending }
        ensures batch { self.new.batch ≡ without_calls owner self.old.batch }
        ensures spare { length self.new.pending + self.new.spare ≡ length self.old.pending + self.old.spare }
    {
        forget_left(&mut self.batch, owner);
        if self.pending.contains_key(&owner) {
            let before = self.pending.len();
            forget_entry(&mut self.pending, &mut self.moving, owner);
            self.spare += before - self.pending.len();
        }
    }

    /// Makes room for entries of so many owners more. Refused for want of memory; then nothing has changed. The cost is in
    /// the number of entries where it takes memory, and else constant.
    pub fn reserve(&mut self, owners: usize) -> Result<(), NoMemory>
        ensures pending { self.new.pending ≡ self.old.pending }
        ensures batch { self.new.batch ≡ self.old.batch }
        ensures spare { OnOk result (owners ≤ self.new.spare) }
        ensures kept { self.old.spare ≤ self.new.spare }
        ensures err { OnErr result (self.new.spare ≡ self.old.spare) }
    {
        if owners <= self.spare {
            return Ok(());
        }
        let all = self.pending.len().checked_add(owners).ok_or(NoMemory)?;
        self.pending.reserve(owners)?;
        self.moving.reserve(all)?;
        self.batch.reserve(all)?;
        self.spare = owners;
        Ok(())
    }

    /// Makes what is pending the batch. It is asked that the batch is used up. Takes no memory; the cost is in the number of
    /// entries.
    pub fn begin(&mut self)
        requires { self.old.batch ≡ [] }
        ensures pending { self.new.pending ≡ [] }
        ensures batch { self.new.batch ≡ all_calls self.old.pending }
        ensures spare { self.new.spare ≡ length self.old.pending + self.old.spare }
    {
        put_all(&self.pending, &mut self.batch);
        self.spare += self.pending.len();
        self.pending.clear();
    }
}

/// Drops the entry of an owner from what is left of a batch.
fn forget_left(batch: &mut VecDeque<(u64, Reasons)>, owner: u64)
    ensures others { batch.new.items ≡ without owner batch.old.items }
    ensures capacity { deque_capacity batch.old ≤ deque_capacity batch.new }
{
    batch.retain(|entry| entry.0 != owner);
}

/// Drops the entry of an owner: all are moved to an empty list, and those of others back into the map, which is empty then.
fn forget_entry(
    entries: &mut IndexMap<u64, Reasons>,
    moving: &mut VecDeque<(u64, Reasons)>,
    owner: u64,
)
    requires empty { moving.old.items ≡ [] }
    requires room { length entries.old.entries ≤ deque_capacity moving.old }
    ensures others { entries.new.entries ≡ without owner entries.old.entries }
    ensures kept { length entries.old.entries + spare_of entries.old ≤ length entries.new.entries + spare_of entries.new }
    ensures emptied { moving.new.items ≡ [] }
    ensures capacity { deque_capacity moving.old ≤ deque_capacity moving.new }
{
    put_all(entries, moving);
    entries.clear();
    put_others(moving, owner, entries);
    moving.clear();
}

/// Puts the entries of other owners into an empty map.
fn put_others(entries: &VecDeque<(u64, Reasons)>, owner: u64, others: &mut IndexMap<u64, Reasons>)
    requires distinct { IsDistinct nat_eq (keys_of entries.now.items) }
    requires empty { others.old.entries ≡ [] }
    requires room { length entries.now.items ≤ spare_of others.old }
    ensures entries { others.new.entries ≡ without owner entries.now.items }
    ensures kept { spare_of others.old ≤ length others.new.entries + spare_of others.new }
{
    for at in 0..entries.len() {
        let (key, reasons) = entries[at];
        put_other(owner, key, reasons, others);
    }
}

/// Puts an entry behind the others, where it isn't the owner's.
fn put_other(owner: u64, key: u64, reasons: Reasons, others: &mut IndexMap<u64, Reasons>)
    requires absent { get nat_eq others.old key ≡ None }
    requires room { 0 < spare_of others.old }
    ensures entries { others.new.entries ≡ others.old.entries ++ (if not (nat_eq owner key) then (key, reasons) ∷ [] else []) }
    ensures room { spare_of others.old ≤ spare_of others.new + 1 }
    ensures kept { length others.old.entries + spare_of others.old ≤ length others.new.entries + spare_of others.new }
{
    if key != owner {
        let _ = others.insert(key, reasons).unwrap();
    }
}

/// Puts all entries into an empty list.
fn put_all(entries: &IndexMap<u64, Reasons>, list: &mut VecDeque<(u64, Reasons)>)
    requires empty { list.old.items ≡ [] }
    requires room { length entries.now.entries ≤ deque_capacity list.old }
    ensures items { list.new.items ≡ entries.now.entries }
    ensures distinct { IsDistinct nat_eq (keys_of list.new.items) }
    ensures capacity { deque_capacity list.old ≤ deque_capacity list.new }
{
    for at in 0..entries.len() {
        let (owner, reasons) = entries.get_index(at).unwrap();
        list.push_back((*owner, *reasons)).unwrap();
    }
}
