// What a connect check found, before an end makes an answer of it.
ghost use Rattle.std.specs.Prelude.{◌≡◌};
ghost use Rattle.mio_port.specs.Attempts.{check_of};

use std::io;
use std::io::ErrorKind;
use std::net::SocketAddr;

/// What a connect check found. `Early` is a connection that is still being made, `Unsure` a check that was interrupted.
///
/// Own.
#[derive(Clone, Copy)]
pub(crate) enum Check {
    Made,
    Early,
    Unsure,
    Failed,
    Absent,
}

/// An error that waits on the socket tells of a connection that failed; a peer's address tells of one that is made.
pub(crate) fn check_of(error: io::Result<Option<io::Error>>, peer: io::Result<SocketAddr>) -> Check
    ensures { result ≡ check_of error peer }
{
    match (error, peer) {
        (Ok(None), Ok(_)) => Check::Made,
        (Ok(None), Err(error)) => match error.kind() {
            ErrorKind::NotConnected => Check::Early,
            ErrorKind::Interrupted => Check::Unsure,
            _ => Check::Failed,
        },
        _ => Check::Failed,
    }
}
