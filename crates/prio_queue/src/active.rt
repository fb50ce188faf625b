// The active queues: one list of keys for each priority. A key that is activated while it waits stays where it is.
ghost use Rattle.std.specs.Prelude.{◌≡◌, ◌≤◌, ◌↔◌, ◌==◌, [], IsTrue, IfOk, OnOk, OnErr, false, replicate, not, length, filter, position};
ghost use Rattle.std.specs.Prelude.{nat_lt};
ghost use Rattle.std.specs.List.{list_any};
ghost use Rattle.prio_queue.specs.Queues.{queue_of, is_queued, activated, appended, last_key, without_last, without, popped, first_key};
ghost use Rattle.prio_queue.specs.Queues.{first_filled, is_count};

use crate::fault::PrioFault;
use std::alloc::Global;
use std::collections::VecDeque;
use std::marker::Model;

/// The most priorities that there can be.
pub const MAX_PRIORITIES: u32 = 256;

/// The active queues of a base: for each priority, 0 being the most urgent, the keys that wait, in
/// the order in which they were activated.
///
/// Libevent: event-internal.h, `activequeues`; "Working with events", events with priorities.
#[derive(Drop)]
pub struct Active {
    queues: Vec<VecDeque<u64>>,
}

impl Model for Active {
    ghost use Rattle.std.specs.Prelude.{ℕ, List, map, length, ◌≤◌};

    ghost Value = { List (List ℕ) };

    ghost view = { λ a. map (λ q. q.items) a.queues.items };

    ghost invariant = { λ a. length a.queues.items ≤ 256 };
}

impl Active {
    /// So many empty queues. Takes memory; linear in their number.
    ///
    /// Libevent: event2/event.h, `event_base_priority_init`; "Working with events".
    /// Differs: 256 priorities can be had.
    pub fn new(alloc: Global, priorities: u32) -> Result<Active, PrioFault>
        ensures bad { (result ≡ Err PrioFault.BadPriority) ↔ IsTrue (not (is_count priorities)) }
        ensures ok { IfOk result (λ active. active ≡ replicate priorities []) }
    {
        if priorities == 0 || priorities > MAX_PRIORITIES {
            return Err(PrioFault::BadPriority);
        }
        let mut queues = Vec::new(alloc);
        queues.reserve(priorities as usize)?;
        for _ in 0..priorities {
            queues.push(VecDeque::new(alloc))?;
        }
        Ok(Active { queues })
    }

    /// The number of priorities, 1 to 256. Takes no memory; constant cost.
    pub fn priorities(&self) -> u32
        ensures { result ≡ length self.now }
    {
        self.queues.len() as u32
    }

    /// Puts the key at the end of the queue of this priority. A key that stands in any queue stays
    /// where it is. Takes memory; linear in the keys that wait.
    pub fn activate(&mut self, priority: u32, key: u64) -> Result<(), PrioFault>
        ensures bad { (result ≡ Err PrioFault.BadPriority) ↔ (length self.old ≤ priority) }
        ensures ok { OnOk result (self.new ≡ activated self.old priority key) }
        ensures err { OnErr result (self.new ≡ self.old) }
    {
        if priority as usize >= self.queues.len() {
            return Err(PrioFault::BadPriority);
        }
        if !self.holds(key) {
            self.queues[priority as usize].push_back(key)?;
        }
        Ok(())
    }

    /// Puts a key that stands in no queue at the end of the queue of this priority, without looking for
    /// it in the others. Takes memory; constant cost.
    pub fn append(&mut self, priority: u32, key: u64) -> Result<(), PrioFault>
        requires { is_queued key self.old ≡ false }
        ensures bad { (result ≡ Err PrioFault.BadPriority) ↔ (length self.old ≤ priority) }
        ensures ok { OnOk result (self.new ≡ appended self.old priority key) }
        ensures err { OnErr result (self.new ≡ self.old) }
    {
        if priority as usize >= self.queues.len() {
            return Err(PrioFault::BadPriority);
        }
        self.queues[priority as usize].push_back(key)?;
        Ok(())
    }

    // Whether the key stands in a queue.
    fn holds(&self, key: u64) -> bool
        ensures { result ≡ is_queued key self.now }
    {
        stands_in(self.queues.as_slice(), key)
    }

    /// Takes the key out of its queue, and tells whether it stood in one. Takes no memory; linear
    /// in the keys that wait.
    pub fn remove(&mut self, key: u64) -> bool
        ensures told { result ≡ is_queued key self.old }
        ensures left { self.new ≡ without key self.old }
    {
        let held = self.holds(key);
        for queue in self.queues.iter_mut() {
            drop_key(queue, key);
        }
        held
    }

    /// The priority of the most urgent queue that has a key, or None where all are empty. Takes no
    /// memory; linear in the number of priorities.
    pub fn first_queue(&self) -> Option<u32>
        ensures { result ≡ first_filled self.now }
    {
        match first_with_key(self.queues.as_slice()) {
            Some(at) => Some(at as u32),
            None => None,
        }
    }

    /// Takes out the key that has stood longest in the queue of this priority: None where it is
    /// empty, or where there is no such queue. Takes no memory; constant cost.
    pub fn pop(&mut self, priority: u32) -> Option<u64>
        ensures key { result ≡ first_key (queue_of self.old priority) }
        ensures left { self.new ≡ popped self.old priority }
    {
        self.queues.get_mut(priority as usize)?.pop_front()
    }

    /// The key that has stood longest in the queue of this priority: None where it is empty, or where
    /// there is no such queue. Takes no memory; constant cost.
    pub fn front(&self, priority: u32) -> Option<u64>
        ensures { result ≡ first_key (queue_of self.now priority) }
    {
        self.queues.get(priority as usize)?.front().copied()
    }

    /// Takes out the key that has stood shortest in the queue of this priority: None where it is
    /// empty, or where there is no such queue. Takes no memory; constant cost.
    pub fn pop_last(&mut self, priority: u32) -> Option<u64>
        ensures key { result ≡ last_key (queue_of self.old priority) }
        ensures left { self.new ≡ without_last self.old priority }
    {
        self.queues.get_mut(priority as usize)?.pop_back()
    }
}

// Whether the key stands in one of these queues.
fn stands_in(queues: &[VecDeque<u64>], key: u64) -> bool
    ensures { result ≡ list_any (λ queue. list_any (λ other. other == key) queue.items) queues.now }
{
    queues.iter().any(|queue| queue.contains(&key))
}

// The place of the first of these queues that has a key.
fn first_with_key(queues: &[VecDeque<u64>]) -> Option<usize>
    ensures { result ≡ position (λ queue. nat_lt 0 (length queue.items)) queues.now }
{
    queues.iter().position(|queue| !queue.is_empty())
}

// Takes the key out of a queue.
fn drop_key(queue: &mut VecDeque<u64>, key: u64)
    ensures { queue.new.items ≡ filter (λ other. not (other == key)) queue.old.items }
{
    queue.retain(|other| *other != key);
}
