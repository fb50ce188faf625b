// The styles of line ends, and where an end stands in a slice. How a buffer is looked through is left to others.
ghost use Rattle.std.specs.Prelude.{◌≡◌};
ghost use Rattle.evbuf_scan.specs.Place.{first_place};
ghost use Rattle.evbuf_scan.specs.Ends.{run_length, end_length, is_end};

/// How a line ends.
///
/// Libevent: event2/buffer.h, `evbuffer_eol_style`; Evbuffers, "Reading lines from a buffer".
#[derive(Clone, Copy, Debug, PartialEq, Eq)]
pub enum Eol {
    /// A run of CR and LF, of any length.
    Any,
    /// LF, with an optional CR before it.
    Crlf,
    /// CR LF.
    CrlfStrict,
    /// LF.
    Lf,
    /// A zero byte.
    Nul,
}

/// How many CR and LF stand at the front.
pub fn run_of_ends(bytes: &[u8]) -> usize
    ensures { result ≡ run_length bytes.now }
{
    for (i, byte) in bytes.iter().enumerate() {
        if *byte != b'\r' && *byte != b'\n' {
            return i;
        }
    }
    bytes.len()
}

/// How long the line end at the front is, 0 for none.
pub fn end_at_front(style: Eol, bytes: &[u8]) -> usize
    ensures { result ≡ end_length style bytes.now }
{
    match (style, bytes) {
        (Eol::Any, _) => run_of_ends(bytes),
        (Eol::Crlf | Eol::CrlfStrict, [b'\r', b'\n', ..]) => 2,
        (Eol::Crlf | Eol::Lf, [b'\n', ..]) => 1,
        (Eol::Nul, [0, ..]) => 1,
        _ => 0,
    }
}

/// The first place where a line end stands.
pub fn first_end(style: Eol, bytes: &[u8]) -> Option<usize>
    ensures { result ≡ first_place (is_end style) 0 bytes.now }
{
    for place in 0..bytes.len() {
        if end_at_front(style, bytes.split_at(place).1) > 0 {
            return Some(place);
        }
    }
    None
}
