// The values that words spell: an address, and a number from 1 on.
ghost use Rattle.std.specs.Prelude.{◌≡◌, ◌<◌, ◌≤◌, option_map, IfSome};
ghost use Rattle.command_words.specs.Values.{addr_named, cut, part_named, positive_within};

use ev_types::Addr;
use script_text::number;

/// The greatest of the four numbers of an address.
const MAX_PART: u64 = u8::MAX as u64;

/// The greatest port.
const MAX_PORT: u64 = u16::MAX as u64;

/// What stands in front of the first `stop`, and what stands behind it.
fn cut_at(text: &str, stop: char) -> Option<(&str, &str)>
    requires { stop < 128 }
    ensures { option_map (λ c. (c.0.now, c.1.now)) result ≡ cut stop text.now }
{
    text.split_once(stop)
}

/// A number from 1 to `max`.
pub fn read_positive(word: &str, max: u64) -> Option<u64>
    ensures value { result ≡ positive_within max word.now }
    ensures within { IfSome result (λ n. n ≤ max) }
{
    match number(word.as_bytes(), max)? {
        0 => None,
        found => Some(found),
    }
}

fn read_part(word: &str) -> Option<u8>
    ensures { result ≡ part_named word.now }
{
    Some(number(word.as_bytes(), MAX_PART)? as u8)
}

/// The address that a word spells. `None` for every other word, a name of a host among them. Takes no memory.
pub fn read_addr(word: &str) -> Option<Addr>
    ensures { result ≡ addr_named word.now }
{
    let (first, behind) = cut_at(word, '.')?;
    let (second, behind) = cut_at(behind, '.')?;
    let (third, behind) = cut_at(behind, '.')?;
    let (fourth, port) = cut_at(behind, ':')?;
    let ip = [
        read_part(first)?,
        read_part(second)?,
        read_part(third)?,
        read_part(fourth)?,
    ];
    let port = read_positive(port, MAX_PORT)? as u16;
    Some(Addr { ip, port })
}
