// The lines of the wants of words, in room that was made before. The first so many are passed over.
ghost use Rattle.std.specs.Prelude.{◌≡◌, ◌-◌, ◌∷◌, [], ◌^◌, ◌<◌, filter, length, map};
ghost use Rattle.ev_port.specs.Table.{wants_some};
ghost use Rattle.ev_port.specs.WantWords.{word_rows};
ghost use Rattle.script_text.specs.Room.{HasRoom, room_of};
ghost use Rattle.evrelay.specs.RingText.{SpeltBehind};
ghost use Rattle.evrelay.specs.RingWants.{AreOfSides, want_entry, word_wants, word_entries};

use crate::lines::put_counted;
use ev_port::{Want, WantWord};
use ev_types::Entry;

/// The sides of a word.
const SIDES: usize = 64;

/// The entry of a want.
pub(crate) fn want_entry(want: Want) -> Entry
    ensures { result ≡ want_entry want }
{
    Entry::Want {
        side: want.side,
        read: want.read,
        write: want.write,
    }
}

/// Appends the lines of the wants of words, the last word's first, but for the first so many, and answers how many of those
/// were not there.
pub(crate) fn put_want_words(text: &mut Vec<u8>, words: &[WantWord], passed: usize) -> usize
    requires sides { AreOfSides words.now }
    requires room { HasRoom text.old (room_of (length (word_wants words.now) - passed) 0) }
    ensures { SpeltBehind (word_entries words.now) passed result text.old text.new }
{
    let mut at = words.len();
    let mut left = passed;
    while at > 0 {
        at -= 1;
        left = put_want_word(text, &words[at], left);
    }
    left
}

/// The same of one word.
fn put_want_word(text: &mut Vec<u8>, word: &WantWord, passed: usize) -> usize
    requires sides { word.now.at < 2 ^ 27 }
    requires room { HasRoom text.old (room_of (length (word_rows word.now) - passed) 0) }
    ensures { SpeltBehind (map want_entry (word_rows word.now)) passed result text.old text.new }
{
    let mut left = passed;
    for bit in 0..SIDES {
        left = put_side(text, word.row(bit), left);
    }
    left
}

/// The same of one side, which may want nothing.
fn put_side(text: &mut Vec<u8>, want: Want, passed: usize) -> usize
    requires { HasRoom text.old (room_of (length (filter wants_some (want ∷ [])) - passed) 0) }
    ensures { SpeltBehind (map want_entry (filter wants_some (want ∷ []))) passed result text.old text.new }
{
    if is_wanted(want) {
        put_behind(text, want_entry(want), passed)
    } else {
        passed
    }
}

fn is_wanted(want: Want) -> bool
    ensures { result ≡ wants_some want }
{
    want.read || want.write
}

/// Appends the line of an entry where none is to be passed over any more, and answers how many are behind it.
fn put_behind(text: &mut Vec<u8>, entry: Entry, passed: usize) -> usize
    requires { HasRoom text.old (room_of (1 - passed) 0) }
    ensures { SpeltBehind (entry ∷ []) passed result text.old text.new }
{
    if passed > 0 {
        return passed - 1;
    }
    put_counted(text, entry);
    0
}
