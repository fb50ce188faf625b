// The size callbacks of a buffer, in the order of their numbers. When the buffer changes is left to the buffer.
ghost use Rattle.std.specs.Prelude.{◌≡◌, ◌≤◌, ◌<◌, ◌+◌, ◌^◌, ◌++◌, ◌∷◌, [], length, None, OnOk, OnErr, IfOk, IfErr, option_map, map, drop};
ghost use Rattle.std.specs.Prelude.{vec_len, MatchOption, slice_index_or, IsTrue, true, is_some};
ghost use Rattle.evbuf.specs.Callbacks.{all_after_change, after_change, new_callback, has_callback, without, with_enabled, enabled_at};
ghost use Rattle.evbuf.specs.Callbacks.{report_of, newest_waiting, after_report, waits};
ghost use Rattle.byte_queue.specs.MemoryAnswers.{fault_of};

use crate::callback::{Report, SizeCallback};
use std::alloc::{AllocError, Global};
use std::marker::Model;

/// The size callbacks of a buffer, and the number that the next one gets, at most 2^32.
///
/// Own.
#[derive(Drop)]
pub(crate) struct CallbackList {
    items: Vec<SizeCallback>,
    // From here on none has a report to make.
    waiting: usize,
    next: u64,
}

impl Model for CallbackList {
    ghost use Rattle.evbuf.specs.Evbuffered.{Called};

    ghost Value = { Called };

    ghost use Rattle.evbuf.specs.CallbackViews.{called, IsCallbackList};

    ghost view = { called };

    ghost invariant = { IsCallbackList };
}

impl CallbackList {
    pub(crate) fn new(alloc: Global) -> CallbackList
        ensures callbacks { result.callbacks ≡ [] }
        ensures next { result.next ≡ 0 }
    {
        CallbackList {
            items: Vec::new(alloc),
            waiting: 0,
            next: 0,
        }
    }

    /// The number that the next callback gets, where there is one.
    pub(crate) fn next_number(&self) -> Option<u32>
        ensures number { MatchOption result (2 ^ 32 ≤ self.now.next) (λ number. number ≡ self.now.next) }
        ensures small { self.now.next ≤ 2 ^ 32 }
    {
        u32::try_from(self.next).ok()
    }

    /// Adds a callback with the next number.
    pub(crate) fn add(&mut self, number: u32) -> Result<(), AllocError>
        requires { number ≡ self.old.next }
        ensures callbacks { OnOk result (self.new.callbacks ≡ self.old.callbacks ++ new_callback number ∷ []) }
        ensures next { OnOk result (self.new.next ≡ self.old.next + 1) }
        ensures err { OnErr result (self.new ≡ self.old) }
    {
        self.items.push(SizeCallback::new(number))?;
        self.next += 1;
        Ok(())
    }

    /// Whether there is a callback of the number.
    pub(crate) fn has(&self, cb: u32) -> bool
        ensures { result ≡ has_callback cb self.now.callbacks }
    {
        self.items.iter().any(|callback| callback.number == cb)
    }

    /// Takes the callback of a number out, with what it summed.
    pub(crate) fn remove(&mut self, cb: u32)
        ensures callbacks { self.new.callbacks ≡ without cb self.old.callbacks }
        ensures next { self.new.next ≡ self.old.next }
    {
        self.items.retain(|callback| callback.number != cb);
        self.waiting = self.items.len();
    }

    /// Enables or disables the callback of a number.
    pub(crate) fn set_enabled(&mut self, cb: u32, on: bool)
        ensures callbacks { self.new.callbacks ≡ with_enabled cb on self.old.callbacks }
        ensures next { self.new.next ≡ self.old.next }
    {
        enable_all(&mut self.items, cb, on);
        self.waiting = self.items.len();
    }

    /// Tells the callbacks of a change from a length.
    pub(crate) fn change(&mut self, before: usize, came: usize, went: usize)
        ensures callbacks { self.new.callbacks ≡ all_after_change before came went self.old.callbacks }
        ensures next { self.new.next ≡ self.old.next }
    {
        change_all(&mut self.items, before as u64, came as u64, went as u64);
        self.waiting = self.items.len();
    }

    /// The report of the newest callback that has one to make, or none.
    pub(crate) fn take_report(&mut self) -> Option<Report>
        ensures report { result ≡ option_map report_of (newest_waiting self.old.callbacks) }
        ensures callbacks { self.new.callbacks ≡ after_report self.old.callbacks }
        ensures next { self.new.next ≡ self.old.next }
    {
        match newest(&self.items, self.waiting) {
            Some(i) => {
                let report = self.items[i].report();
                self.waiting = i;
                Some(report)
            }
            None => {
                self.waiting = 0;
                None
            }
        }
    }
}

// The place of the newest callback that has a report to make, where none has from a place on.
fn newest(items: &[SizeCallback], mut waiting: usize) -> Option<usize>
    requires there { waiting ≤ length items.now }
    requires behind { newest_waiting (drop waiting items.now) ≡ None }
    ensures place { MatchOption result (newest_waiting items.now ≡ None) (λ i. (i < length items.now) × (newest_waiting (drop (i + 1) items.now) ≡ None) × ((d : SizeCallback) → waits (slice_index_or items.now i d) ≡ true)) }
{
    while waiting > 0 {
        if items[waiting - 1].waits() {
            return Some(waiting - 1);
        }
        waiting -= 1;
    }
    None
}

fn change_all(items: &mut Vec<SizeCallback>, before: u64, came: u64, went: u64)
    ensures { items.new.items ≡ map (after_change before came went) items.old.items }
{
    for callback in items.iter_mut() {
        callback.change(before, came, went);
    }
}

fn enable_all(items: &mut Vec<SizeCallback>, cb: u32, on: bool)
    ensures { items.new.items ≡ map (enabled_at cb on) items.old.items }
{
    for callback in items.iter_mut() {
        callback.enable_at(cb, on);
    }
}
