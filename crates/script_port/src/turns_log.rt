// The turns of a script. They exist only in proofs.
ghost use Rattle.std.specs.Prelude.{◌≡◌, List};
ghost use Rattle.std.specs.Borrow.{ftrue};
ghost use Rattle.ev_types.specs.ScriptTurn.{ScriptTurn};

use script_text::Script;
use std::marker::Model;

/// Turns that only clauses read. It takes no memory, and its function does nothing when it runs.
///
/// Own.
#[derive(Drop)]
pub(crate) struct TurnsLog {
    ghost turns: { List ScriptTurn },
}

impl Model for TurnsLog {
    ghost also_owns = { λ _. ftrue };
}

impl TurnsLog {
    pub(crate) fn of(_script: &Script) -> TurnsLog
        ensures { result.turns ≡ _script.now.turns }
    {
        TurnsLog {}
    }
}
