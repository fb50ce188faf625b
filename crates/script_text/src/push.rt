// Puts words, numbers and bytes at the end of a text, in room that was made before. Takes no memory.
ghost use Rattle.std.specs.Prelude.{◌≡◌, ◌∷◌, [], ◌+◌, ◌*◌, ◌++◌, length};
ghost use Rattle.std.specs.Fmt.{decimal};
ghost use Rattle.hex.specs.Hex.{encode_lower};
ghost use Rattle.script_text.specs.Lines.{line_of, side_word};
ghost use Rattle.script_text.specs.Room.{spaced, HasRoom, GrewBy};

use crate::value_text::side_text;
use ev_types::SideId;
use itoa::Buffer;

/// A word, and the space behind it. Takes no memory; linear in the word.
///
/// Own.
pub fn put_word(text: &mut Vec<u8>, word: &str)
    requires { HasRoom text.old (length word.now + 1) }
    ensures { GrewBy (spaced word.now) (length word.now + 1) text.old text.new }
{
    text.extend_from_slice(word.as_bytes()).unwrap();
    text.push(b' ').unwrap();
}

/// The last word of a line.
pub fn put_last(text: &mut Vec<u8>, word: &str)
    requires { HasRoom text.old (length word.now + 1) }
    ensures { GrewBy (line_of (word.now ∷ [])) (length word.now + 1) text.old text.new }
{
    text.extend_from_slice(word.as_bytes()).unwrap();
    text.push(b'\n').unwrap();
}

/// A number without a sign, and the space behind it. Takes no memory; constant.
///
/// Own.
pub fn put_number(text: &mut Vec<u8>, number: u64)
    requires { HasRoom text.old 21 }
    ensures { GrewBy (spaced (decimal number)) 21 text.old text.new }
{
    let mut buffer = Buffer::new();
    put_word(text, buffer.format(number));
}

/// A number that is the last word of a line. Takes no memory; constant.
///
/// Own.
pub fn put_last_number(text: &mut Vec<u8>, number: u64)
    requires { HasRoom text.old 21 }
    ensures { GrewBy (line_of (decimal number ∷ [])) 21 text.old text.new }
{
    let mut buffer = Buffer::new();
    put_last(text, buffer.format(number));
}

/// The name of an end, a link and a side, and the space behind it. Takes no memory; constant.
///
/// Own.
pub fn put_end(text: &mut Vec<u8>, end: SideId)
    requires { HasRoom text.old 25 }
    ensures { GrewBy (spaced (decimal end.link) ++ spaced (side_word end.side)) 25 text.old text.new }
{
    put_number(text, u64::from(end.link));
    put_word(text, side_text(end.side));
}

/// The digits of some bytes, two for each.
pub fn put_digits(text: &mut Vec<u8>, bytes: &[u8])
    requires { HasRoom text.old (2 * length bytes.now) }
    ensures { GrewBy (encode_lower bytes.now) (2 * length bytes.now) text.old text.new }
{
    let before = text.len();
    text.resize(before + 2 * bytes.len(), b'0').unwrap();
    let (_, digits) = text.split_at_mut(before);
    hex::encode_to_slice(bytes, digits).unwrap();
}
