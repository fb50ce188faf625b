// What one try at moving bytes came to, before an end makes an answer of it.
ghost use Rattle.std.specs.Prelude.{◌≡◌, MatchResult};
ghost use Rattle.std.specs.IoError.{error_kind};
ghost use Rattle.mio_port.specs.Attempts.{attempt_of_kind};

use std::io;
use std::io::ErrorKind;

/// What one read or write of a connection came to. `Absent` is a try where no connection is, and `Moved(0)` the end of
/// what a read can give.
///
/// Own.
#[derive(Clone, Copy)]
pub(crate) enum Attempt {
    Moved(usize),
    WouldBlock,
    Interrupted,
    Failed,
    Absent,
}

pub(crate) fn attempt_of(outcome: io::Result<usize>) -> Attempt
    ensures { MatchResult outcome (λ count. result ≡ Attempt.Moved count) (λ error. result ≡ attempt_of_kind (error_kind error)) }
{
    match outcome {
        Ok(count) => Attempt::Moved(count),
        Err(error) => match error.kind() {
            ErrorKind::WouldBlock => Attempt::WouldBlock,
            ErrorKind::Interrupted => Attempt::Interrupted,
            _ => Attempt::Failed,
        },
    }
}
