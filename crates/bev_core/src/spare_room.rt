// Room for bytes that lies beside the bufferevents.
ghost use Rattle.std.specs.Prelude.{◌≡◌, ◌≤◌, max, OnOk, IsOk};

use byte_queue::ByteQueue;
use ev_types::NoMemory;
use std::alloc::Global;
use std::marker::Model;

/// Room that many bufferevents share, and that is made before bytes come, so that none of them is refused: a bufferevent whose input has
/// no room for them, and gets none, takes this for its input. Contracts see for how many bytes it is.
///
/// Own.
#[derive(Drop)]
pub struct SpareRoom {
    pub(crate) queue: ByteQueue,
}

impl Model for SpareRoom {
    ghost use Rattle.std.specs.Prelude.{◌≡◌, [], ℕ};

    ghost Value = { ℕ };

    ghost view = { λ room. room.queue.spare };

    ghost invariant = { λ room. room.queue.items ≡ [] };
}

impl SpareRoom {
    /// Room for no byte. Takes no memory; constant cost.
    ///
    /// Own.
    pub fn new(alloc: Global) -> SpareRoom
        ensures { result ≡ 0 }
    {
        SpareRoom {
            queue: ByteQueue::new(alloc),
        }
    }

    /// Makes it room for n bytes, where it is for fewer. Takes memory then, linear in n.
    ///
    /// Own.
    pub fn reserve(&mut self, n: usize) -> Result<(), NoMemory>
        ensures room { OnOk result (n ≤ self.new) }
        ensures kept { self.old ≤ self.new }
        ensures most { self.new ≤ max self.old n }
        ensures there { n ≤ self.old → IsOk result }
    {
        Ok(self.queue.reserve(n)?)
    }
}
