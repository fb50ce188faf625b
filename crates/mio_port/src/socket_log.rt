// What the system was asked of one socket, and what came of it. It exists only in proofs.
ghost use Rattle.std.specs.Prelude.{◌≡◌, ◌∷◌, [], List};
ghost use Rattle.std.specs.Borrow.{ftrue};
ghost use Rattle.mio_port.specs.SocketCalls.{CallMade};

use crate::socket_call::CallBytes;
use std::marker::Model;

/// The calls that were made on a socket, or were refused on the way to links, the last one first. Only clauses read it; it takes no
/// memory, and its methods do nothing when they run.
///
/// Own.
#[derive(Drop)]
pub(crate) struct SocketLog {
    ghost calls: { List CallMade },
}

impl Model for SocketLog {
    ghost also_owns = { λ _. ftrue };
}

impl SocketLog {
    /// Of no call.
    pub(crate) fn new() -> SocketLog
        ensures { result.calls ≡ [] }
    {
        SocketLog {}
    }

    /// With a call more.
    pub(crate) fn then(&self, _call: &CallBytes<'_>) -> SocketLog
        ensures { result.calls ≡ (_call.now.call, _call.now.bytes.now) ∷ self.now.calls }
    {
        SocketLog {}
    }
}
