// The size callbacks of a buffer. Their list is made with the first one, so that a buffer without any keeps a pointer.
ghost use Rattle.std.specs.Prelude.{◌≡◌, ◌≤◌, ◌+◌, ◌^◌, ◌++◌, ◌∷◌, [], OnOk, OnErr, option_map, MatchOption};
ghost use Rattle.evbuf.specs.Callbacks.{all_after_change, new_callback, has_callback, without, with_enabled, report_of, newest_waiting};
ghost use Rattle.evbuf.specs.Callbacks.{after_report};

use crate::callback::Report;
use crate::callback_list::CallbackList;
use std::alloc::{AllocError, Global};
use std::marker::Model;

/// The size callbacks of a buffer, and the number that the next one gets, at most 2^32.
///
/// Own.
#[derive(Drop)]
pub(crate) struct SizeCallbacks {
    list: Option<Box<CallbackList>>,
}

impl Model for SizeCallbacks {
    ghost use Rattle.evbuf.specs.Evbuffered.{Called};

    ghost Value = { Called };

    ghost use Rattle.evbuf.specs.CallbackViews.{made_called};

    ghost view = { λ callbacks. made_called callbacks.list };
}

impl SizeCallbacks {
    pub(crate) fn new() -> SizeCallbacks
        ensures callbacks { result.callbacks ≡ [] }
        ensures next { result.next ≡ 0 }
    {
        SizeCallbacks { list: None }
    }

    /// The number that the next callback gets, where there is one.
    pub(crate) fn next_number(&self) -> Option<u32>
        ensures number { MatchOption result (2 ^ 32 ≤ self.now.next) (λ number. number ≡ self.now.next) }
        ensures small { self.now.next ≤ 2 ^ 32 }
    {
        match &self.list {
            Some(list) => list.next_number(),
            None => Some(0),
        }
    }

    /// Adds a callback with the next number.
    pub(crate) fn add(&mut self, number: u32, alloc: Global) -> Result<(), AllocError>
        requires { number ≡ self.old.next }
        ensures callbacks { OnOk result (self.new.callbacks ≡ self.old.callbacks ++ new_callback number ∷ []) }
        ensures next { OnOk result (self.new.next ≡ self.old.next + 1) }
        ensures err { OnErr result (self.new ≡ self.old) }
    {
        match &mut self.list {
            Some(list) => list.add(number),
            None => {
                let mut list = CallbackList::new(alloc);
                list.add(number)?;
                self.list = Some(Box::new(alloc, list)?);
                Ok(())
            }
        }
    }

    /// Whether there is a callback of the number.
    pub(crate) fn has(&self, cb: u32) -> bool
        ensures { result ≡ has_callback cb self.now.callbacks }
    {
        match &self.list {
            Some(list) => list.has(cb),
            None => false,
        }
    }

    /// Takes the callback of a number out, with what it summed.
    pub(crate) fn remove(&mut self, cb: u32)
        ensures callbacks { self.new.callbacks ≡ without cb self.old.callbacks }
        ensures next { self.new.next ≡ self.old.next }
    {
        match &mut self.list {
            Some(list) => list.remove(cb),
            None => {}
        }
    }

    /// Enables or disables the callback of a number.
    pub(crate) fn set_enabled(&mut self, cb: u32, on: bool)
        ensures callbacks { self.new.callbacks ≡ with_enabled cb on self.old.callbacks }
        ensures next { self.new.next ≡ self.old.next }
    {
        match &mut self.list {
            Some(list) => list.set_enabled(cb, on),
            None => {}
        }
    }

    /// Tells the callbacks of a change from a length.
    pub(crate) fn change(&mut self, before: usize, came: usize, went: usize)
        ensures callbacks { self.new.callbacks ≡ all_after_change before came went self.old.callbacks }
        ensures next { self.new.next ≡ self.old.next }
    {
        match &mut self.list {
            Some(list) => list.change(before, came, went),
            None => {}
        }
    }

    /// The report of the newest callback that has one to make, or none.
    pub(crate) fn take_report(&mut self) -> Option<Report>
        ensures report { result ≡ option_map report_of (newest_waiting self.old.callbacks) }
        ensures callbacks { self.new.callbacks ≡ after_report self.old.callbacks }
        ensures next { self.new.next ≡ self.old.next }
    {
        match &mut self.list {
            Some(list) => list.take_report(),
            None => None,
        }
    }
}
