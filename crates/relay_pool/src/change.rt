// What may change of a side of a link that is over.
ghost use Rattle.std.specs.Prelude.{◌≡◌};
ghost use Rattle.relay_pool.specs.Over.{flags_changed, flags_after};

use bev_core::Dir;
use ev_types::Side;
use relay_sides::SideFlags;

/// What may change of a side of a link that is over.
#[derive(Clone, Copy, Drop)]
pub(crate) enum Change {
    /// A read was answered with the end.
    Ended,
    /// A read failed.
    ReadFailed,
    /// A write or a connect check failed.
    WriteFailed,
    /// Its end is connected.
    Connected,
    /// Writing was ended at its end.
    WriteEnded,
    /// Its end was closed.
    Closed,
    /// It was freed once more.
    Freed,
    /// It moved so many bytes in a direction at a time.
    Spent(Dir, u64, u64),
    /// Its end took no byte at a time.
    TookNone(u64),
}

/// A change of one of the two sides.
#[derive(Clone, Copy, Drop)]
pub(crate) struct SideChange {
    pub(crate) side: Side,
    pub(crate) change: Change,
}

impl Change {
    /// The flags of a side after it.
    fn made(self, flags: SideFlags) -> SideFlags
        ensures { result ≡ flags_changed self flags }
    {
        let mut flags = flags;
        match self {
            Change::Ended => {
                flags.ended = true;
                flags.reads = false;
            }
            Change::ReadFailed => {
                flags.failed = true;
                flags.reads = false;
            }
            Change::WriteFailed => {
                flags.failed = true;
                flags.writes = false;
            }
            Change::Connected => flags.connecting = false,
            Change::WriteEnded => flags.write_ended = true,
            Change::Closed => flags.closed = true,
            Change::Freed | Change::Spent(..) | Change::TookNone(_) => {}
        }
        flags
    }
}

impl SideChange {
    /// The flags of one of the two sides after it.
    pub(crate) fn made(self, side: Side, flags: SideFlags) -> SideFlags
        ensures { result ≡ flags_after self side flags }
    {
        match (self.side, side) {
            (Side::In, Side::In) | (Side::Out, Side::Out) => self.change.made(flags),
            _ => flags,
        }
    }
}
