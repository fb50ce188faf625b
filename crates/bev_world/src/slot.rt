// One bufferevent of a world.
ghost use Rattle.std.specs.Prelude.{◌≡◌};
ghost use Rattle.bev_world.specs.WorldValue.{made_slot};

use bev_core::Bev;
use ev_types::FilterKind;
use std::alloc::Global;
use stream_filters::AnyFilter;

/// What carries the bytes of a bufferevent: a socket, the other half of a pair, or a bufferevent under a filter.
///
/// Own.
#[derive(Clone, Copy, Debug, PartialEq, Eq)]
pub enum Kind {
    Socket,
    /// One half of a pair, with the number of the other half.
    Half(u32),
    /// A filter, with the number of the bufferevent under it.
    Filter(u32),
}

/// A bufferevent, what carries its bytes, whether a filter was made over it, how many bytes its input is sure to have room
/// for, and its filters, which are those of a filter alone.
///
/// Own.
#[derive(Drop)]
pub struct Slot {
    pub(crate) bev: Bev,
    pub(crate) kind: Kind,
    pub(crate) taken: bool,
    pub(crate) room: usize,
    pub(crate) read_filter: AnyFilter,
    pub(crate) write_filter: AnyFilter,
}

impl Slot {
    /// A new bufferevent with filters of these kinds. Its buffers may lie in several chunks, or not, as said.
    pub(crate) fn new(
        alloc: Global,
        chunked: bool,
        kind: Kind,
        input: FilterKind,
        output: FilterKind,
    ) -> Slot
        ensures { result ≡ made_slot chunked kind input output }
    {
        Slot {
            bev: Bev::made(alloc, chunked),
            kind,
            taken: false,
            room: 0,
            read_filter: AnyFilter::new(input),
            write_filter: AnyFilter::new(output),
        }
    }
}
