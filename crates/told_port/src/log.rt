// What the calls on a port told. It exists only in proofs.
ghost use Rattle.std.specs.Prelude.{◌≡◌, ◌∷◌, [], List};
ghost use Rattle.std.specs.Borrow.{ftrue};
ghost use Rattle.ev_port.specs.Table.{named};
ghost use Rattle.told_port.specs.Calls.{Heard};

use crate::{CallWith, TablePoll};
use std::marker::Model;

/// The calls that were made on a port, with their answers, the last one first. Only clauses read it; it takes no memory, and its
/// methods do nothing when they run.
///
/// Own.
#[derive(Drop)]
pub struct CallLog {
    ghost calls: { List Heard },
}

impl Model for CallLog {
    ghost also_owns = { λ _. ftrue };
}

impl CallLog {
    /// Of no call. Constant cost.
    ///
    /// Own.
    pub fn new() -> CallLog
        ensures { result.calls ≡ [] }
    {
        CallLog {}
    }

    /// With a call more. Constant cost.
    ///
    /// Own.
    pub fn then(&self, _call: &CallWith<'_>) -> CallLog
        ensures { result.calls ≡ (_call.now.call, _call.now.bytes.now, _call.now.wants.now, _call.now.wants.now) ∷ self.now.calls }
    {
        CallLog {}
    }

    /// With a poll of a table more. Constant cost.
    ///
    /// Own.
    pub fn then_table(&self, _poll: &TablePoll<'_>) -> CallLog
        ensures { result.calls ≡ (_poll.now.call, [], named _poll.now.table.now, _poll.now.table.now.list) ∷ self.now.calls }
    {
        CallLog {}
    }
}
