// Which errors of the system say that it is short of something that comes back: descriptors, buffers or memory; and which that a
// connection that was taken came broken.
ghost use Rattle.std.specs.Prelude.{◌≡◌};
ghost use Rattle.std.specs.IoError.{raw_os_error};
ghost use Rattle.mio_port.specs.Scarcity.{is_scarce, came_broken};

use std::io;

// Linux's numbers for: no memory, no descriptor in the whole system, none in this process, no more sockets that may be
// watched, no buffer.
const ENOMEM: i32 = 12;

const ENFILE: i32 = 23;

const EMFILE: i32 = 24;

const ENOSPC: i32 = 28;

const ENOBUFS: i32 = 105;

// Linux's numbers for errors of the network that waited on a connection before it was taken: no network, a protocol's error, an
// option or a call that isn't known to it, a network that is down or out of reach, and a machine that is.
const ENONET: i32 = 64;

const EPROTO: i32 = 71;

const ENOPROTOOPT: i32 = 92;

const EOPNOTSUPP: i32 = 95;

const ENETDOWN: i32 = 100;

const ENETUNREACH: i32 = 101;

const EHOSTDOWN: i32 = 112;

const EHOSTUNREACH: i32 = 113;

pub(crate) fn is_scarce(error: &io::Error) -> bool
    ensures { result ≡ is_scarce (raw_os_error error.now) }
{
    matches!(
        error.raw_os_error(),
        Some(ENOMEM | ENFILE | EMFILE | ENOSPC | ENOBUFS)
    )
}

/// An accept on Linux gives such an error of the connection that it took. The next accept may do well.
pub(crate) fn came_broken(error: &io::Error) -> bool
    ensures { result ≡ came_broken (raw_os_error error.now) }
{
    matches!(
        error.raw_os_error(),
        Some(
            ENONET
                | EPROTO
                | ENOPROTOOPT
                | EOPNOTSUPP
                | ENETDOWN
                | ENETUNREACH
                | EHOSTDOWN
                | EHOSTUNREACH
        )
    )
}
