// How long a script may be: turns, links, the digits of a line, and the bytes of an end.
use script_text::{ScriptFault, read_script};
use std::alloc::Global;
use std::test::Fail;

/// Texts of these first bytes and then so many copies of a line, each with how many turns it has or its first bad line.
const TEXTS: &[(&str, &str, usize, Result<usize, u32>)] = &[
    // A script has at most 20,000 turns.
    ("", "at 9\n", 20_000, Ok(20_000)),
    ("", "at 9\n", 20_002, Err(20_001)),
    // A script has at most 256 links.
    ("at 0\n", "open\n", 256, Ok(1)),
    ("at 0\n", "open\n", 258, Err(258)),
    // A line has at most 65,536 digits.
    ("at 0\nopen\nr 0 in ", "5a", 32_768, Ok(1)),
    ("at 0\nopen\nr 0 in ", "5a", 32_769, Err(3)),
];

fn repeated(alloc: Global, first: &[u8], piece: &[u8], count: usize) -> Result<Vec<u8>, Fail> {
    let mut text = first.to_vec(alloc)?;
    for _ in 0..count {
        text.extend_from_slice(piece)?;
    }
    Ok(text)
}

/// How many turns a text has, or its first bad line.
fn turns_of(alloc: Global, text: &[u8]) -> Result<Result<usize, u32>, Fail> {
    match read_script(alloc, text) {
        Ok(script) => Ok(Ok(script.turns.len())),
        Err(ScriptFault::BadLine(line)) => Ok(Err(line)),
        Err(fault) => Err(Fail::from(fault)),
    }
}

fn first_other(alloc: Global) -> Result<Option<usize>, Fail> {
    for (place, (first, piece, count, owed)) in TEXTS.iter().enumerate() {
        let text = repeated(alloc, first.as_bytes(), piece.as_bytes(), *count)?;
        if turns_of(alloc, &text)? != *owed {
            return Ok(Some(place));
        }
    }
    Ok(None)
}

#[test]
fn a_script_and_a_line_have_their_greatest_lengths(rt: HostRuntime) -> Result<(), Fail> {
    assert_eq!(rt; first_other(rt.alloc())?, None);
    Ok(())
}

/// How many lines the first turn of a script has, where that is all of it.
fn lines_of(alloc: Global, text: &[u8]) -> Result<Option<usize>, Fail> {
    let script = read_script(alloc, text)?;
    match script.turns.as_slice() {
        [(_, lines)] => Ok(Some(lines.len())),
        _ => Ok(None),
    }
}

/// An end that gets nine times 32,768 bytes: how many lines that are, and the first bad line where bytes stand behind its end.
fn comes_in(alloc: Global) -> Result<(Option<usize>, Result<usize, u32>), Fail> {
    let mut line = repeated(alloc, b"r 0 in ", b"00", 32_768)?;
    line.push(b'\n')?;
    let mut text = repeated(alloc, b"at 0\nopen\n", &line, 9)?;
    let lines = lines_of(alloc, &text)?;
    text.extend_from_slice(b"eof 0 in\nr 0 in 00\n")?;
    Ok((lines, turns_of(alloc, &text)?))
}

#[test]
fn an_end_gets_more_than_2_to_the_18_bytes(rt: HostRuntime) -> Result<(), Fail> {
    assert_eq!(rt; comes_in(rt.alloc())?, (Some(10), Err(13)));
    Ok(())
}
