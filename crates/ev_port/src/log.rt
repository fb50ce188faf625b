// The trace that a scribe was told. It exists only in proofs.
ghost use Rattle.std.specs.Prelude.{◌≡◌, [], ◌∷◌, ◌++◌};
ghost use Rattle.std.specs.Borrow.{ftrue};
ghost use Rattle.ev_types.specs.Trace.{Trace};
ghost use Rattle.ev_port.specs.Polling.{want_events};
ghost use Rattle.ev_port.specs.Table.{named};

use crate::table::WantTable;
use ev_types::Entry;
use std::marker::Model;

/// A trace that only clauses read. It takes no memory, and its methods do nothing when they run.
///
/// Own.
#[derive(Drop)]
pub struct TraceLog {
    ghost trace: { Trace },
}

impl Model for TraceLog {
    ghost also_owns = { λ _. ftrue };
}

/// An entry with the bytes that stand beside it.
///
/// Own.
#[derive(Clone, Copy, Drop)]
pub struct LogStep<'a> {
    pub entry: Entry,
    pub bytes: &'a [u8],
}

impl TraceLog {
    /// Of no entry. Constant cost.
    ///
    /// Own.
    pub fn new() -> TraceLog
        ensures { result.trace ≡ [] }
    {
        TraceLog {}
    }

    /// With a step behind it. Constant cost.
    ///
    /// Own.
    pub fn then(&self, _step: &LogStep<'_>) -> TraceLog
        ensures { result.trace ≡ self.now.trace ++ (_step.now.entry, _step.now.bytes.now) ∷ [] }
    {
        TraceLog {}
    }

    /// With an entry for each want of a table behind it. Constant cost.
    ///
    /// Own.
    pub fn then_wants(&self, _wants: &WantTable) -> TraceLog
        ensures { result.trace ≡ self.now.trace ++ want_events (named _wants.now) }
    {
        TraceLog {}
    }
}
