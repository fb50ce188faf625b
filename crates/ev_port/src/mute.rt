// A scribe that keeps nothing.
ghost use Rattle.std.specs.Prelude.{◌≡◌, ◌≤◌, ◌<◌, ◌+◌, ◌^◌, [], ◌∷◌, None, IsOk, OnOk, length};
ghost use Rattle.ev_types.specs.Trace.{bytes_beside};
ghost use Rattle.ev_types.specs.Growth.{Grew};

use crate::{Scribe, WantTable};
use ev_types::{Entry, NoMemory};

/// Keeps nothing and tells nothing. It has room for every number of entries and bytes that can be asked for, and
/// takes no memory.
///
/// Own.
#[derive(Clone, Copy, Debug, PartialEq, Eq)]
pub struct Mute {}

impl Mute {
    /// A scribe that keeps nothing. Constant cost.
    pub fn new() -> Mute {
        Mute {}
    }
}

impl Scribe for Mute {
    ghost trace = { λ _. None };

    ghost spare_entries = { λ _. 2 ^ 64 };

    ghost spare_bytes = { λ _. 2 ^ 64 };

    fn reserve(&mut self, entries: usize, bytes: usize) -> Result<(), NoMemory>
        ensures ok { IsOk result }

        // What every scribe says.
        ensures trace { Grew None None [] }
        ensures entries { OnOk result (entries ≤ 2 ^ 64) }
        ensures bytes { OnOk result (bytes ≤ 2 ^ 64) }
    {
        Ok(())
    }

    fn put(&mut self, _entry: Entry, _bytes: &[u8]) {}

    fn put_wants(&mut self, _wants: &WantTable) {}
}
