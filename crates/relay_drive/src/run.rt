// The relay with the number of the entries that were put for it.
ghost use Rattle.std.specs.Prelude.{◌≡◌, ◌+◌, ◌<◌, ◌≤◌, ◌∷◌, [], length};
ghost use Rattle.ev_types.specs.Trace.{bytes_beside};
ghost use Rattle.ev_types.specs.Growth.{Grew};
ghost use Rattle.ev_port.specs.Counting.{counted};

use ev_port::Scribe;
use ev_types::Entry;
use relay_core::Relay;

/// The relay with the number of the entries that were put for it, which stays at 2^64 - 1.
#[derive(Drop)]
pub(crate) struct Run {
    pub(crate) relay: Relay,
    pub(crate) entries: u64,
}

/// Puts an entry with its bytes, in room that was made before, and counts it.
pub(crate) fn put<S: Scribe>(entries: &mut u64, scribe: &mut S, entry: Entry, bytes: &[u8])
    requires room { 0 < S.spare_entries scribe.old }
    requires bytes_room { length bytes.now ≤ S.spare_bytes scribe.old }
    requires beside { length bytes.now ≡ bytes_beside entry }
    ensures counted { entries.new ≡ counted entries.old 1 }
    ensures list { Grew (S.trace scribe.old) (S.trace scribe.new) ((entry, bytes.now) ∷ []) }
    ensures room { S.spare_entries scribe.old ≤ S.spare_entries scribe.new + 1 }
    ensures bytes_room { S.spare_bytes scribe.old ≤ S.spare_bytes scribe.new + length bytes.now }
{
    scribe.put(entry, bytes);
    *entries = entries.saturating_add(1);
}
