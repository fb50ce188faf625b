// The lines of the last entries, in room that was made before.
ghost use Rattle.std.specs.Prelude.{◌+◌, length};
ghost use Rattle.script_text.specs.Room.{HasRoom, GrewBy, room_of};
ghost use Rattle.evrelay.specs.RingText.{counted_line, moved_line, ring_text};

use ev_types::{Entry, ReadAnswer, SideId, WriteAnswer};
use script_text::{put_end, put_entry, put_last_number, put_number, put_word};

/// Appends the lines of some entries, with the number of the bytes in place of the bytes. Takes no memory.
pub(crate) fn put_lines(text: &mut Vec<u8>, entries: &[Entry])
    requires { HasRoom text.old (room_of (length entries.now) 0) }
    ensures { GrewBy (ring_text entries.now) (room_of (length entries.now) 0) text.old text.new }
{
    for entry in entries {
        put_counted(text, *entry);
    }
}

/// Appends the line of an entry, with the number of its bytes.
pub(crate) fn put_counted(text: &mut Vec<u8>, entry: Entry)
    requires { HasRoom text.old (room_of 1 0) }
    ensures { GrewBy (counted_line entry) (room_of 1 0) text.old text.new }
{
    match entry {
        Entry::Read {
            side,
            room,
            answer: ReadAnswer::Got(count),
        } => put_moved(text, "read", side, room, "got", count as u64),
        Entry::Write {
            side,
            offered,
            answer: WriteAnswer::Took(count),
        } => put_moved(text, "write", side, offered, "took", count as u64),
        _ => put_entry(text, entry, &[]),
    }
}

/// Appends the line of a read that got bytes, or of a write that took some.
fn put_moved(text: &mut Vec<u8>, call: &str, end: SideId, most: u64, answer: &str, count: u64)
    requires { HasRoom text.old (length call.now + length answer.now + 69) }
    ensures { GrewBy (moved_line call.now end most answer.now count) (length call.now + length answer.now + 69) text.old text.new }
{
    put_word(text, call);
    put_end(text, end);
    put_number(text, most);
    put_word(text, answer);
    put_last_number(text, count);
}
