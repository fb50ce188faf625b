// Room for the lines of entries, made before they are put.
ghost use Rattle.std.specs.Prelude.{◌≡◌, ◌≤◌, OnOk, vec_len, vec_capacity};
ghost use Rattle.script_text.specs.Room.{HasRoom, room_of};

use ev_types::NoMemory;

/// No line of an entry has more bytes, where the digits of the bytes that it moved aren't counted.
///
/// Own.
pub const LINE_ROOM: usize = 192;

/// Makes room behind a text for the lines of so many entries with so many bytes in all. The text stays as it is. Takes
/// memory where there is less; constant cost where there is room, else linear in the text.
///
/// Own.
pub fn make_room(text: &mut Vec<u8>, entries: usize, bytes: usize) -> Result<(), NoMemory>
    ensures room { OnOk result (HasRoom text.new (room_of entries bytes)) }

    // Whatever the answer.
    ensures kept { text.new.items ≡ text.old.items }
    ensures len { vec_len text.new ≡ vec_len text.old }
    ensures capacity { vec_capacity text.old ≤ vec_capacity text.new }
{
    let lines = entries.checked_mul(LINE_ROOM).ok_or(NoMemory)?;
    let digits = bytes.checked_mul(2).ok_or(NoMemory)?;
    let room = lines.checked_add(digits).ok_or(NoMemory)?;
    text.reserve(room)?;
    Ok(())
}
