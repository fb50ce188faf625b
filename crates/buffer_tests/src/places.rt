// Searching: for bytes and for line ends, also where what is found lies across the windows that a search looks through.

use evbuf::{BufFault, Evbuffer};
use evbuf_scan::{Eol, search, search_eol};
use std::alloc::Global;
use std::test::Fail;

/// Puts so many times the same byte at the end of a buffer.
fn add_run(alloc: Global, buf: &mut Evbuffer, byte: u8, count: usize) -> Result<(), BufFault> {
    let run = vec![in alloc; byte; count]?;
    let answer = buf.add(&run);
    drop(run);
    answer
}

/// Bytes, a needle, a start, and the place.
type Search = (&'static str, &'static str, usize, Option<usize>);

const SEARCHES: &[Search] = &[
    ("hello", "l", 0, Some(2)),
    ("hello", "l", 3, Some(3)),
    ("hello", "l", 4, None),
    ("hello", "lo", 0, Some(3)),
    ("aab", "ab", 0, Some(1)),
    ("abcab", "ab", 0, Some(0)),
    ("abcab", "ab", 1, Some(3)),
    ("ab", "abc", 0, None),
    ("", "a", 0, None),
    ("abc", "c", 3, None),
    ("abc", "c", 1 << 62, None),
    ("abc", "abc", 0, Some(0)),
];

/// Whether what is searched in an empty buffer, once it has the bytes, is where it must be.
fn is_found(alloc: Global, buf: &mut Evbuffer, row: Search) -> Result<bool, Fail> {
    let (bytes, needle, from, place) = row;
    buf.add(bytes.as_bytes())?;
    Ok(search(alloc, buf, needle.as_bytes(), from)? == place)
}

/// The place of the first row that is searched otherwise.
fn first_wrong_search(alloc: Global, rows: &[Search]) -> Result<Option<usize>, Fail> {
    for (place, row) in rows.iter().enumerate() {
        let mut buf = Evbuffer::new(alloc);
        let found = is_found(alloc, &mut buf, *row);
        drop(buf);
        if !found? {
            return Ok(Some(place));
        }
    }
    Ok(None)
}

#[test]
fn a_needle_is_found_at_its_first_place(rt: HostRuntime) -> Result<(), Fail> {
    assert_eq!(rt; first_wrong_search(rt.alloc(), SEARCHES)?, None);
    Ok(())
}

/// The places of a word that stands behind so many bytes, and of one that does not stand there.
fn found_behind(
    alloc: Global,
    buf: &mut Evbuffer,
    count: usize,
) -> Result<(Option<usize>, Option<usize>), Fail> {
    add_run(alloc, buf, b'x', count)?;
    buf.add(b"needle and more")?;
    Ok((
        search(alloc, buf, b"needle", 0)?,
        search(alloc, buf, b"needles", 0)?,
    ))
}

#[test]
fn a_needle_is_found_across_windows(rt: HostRuntime) -> Result<(), Fail> {
    for count in [4090usize, 4093, 4095, 4096, 8192, 12285] {
        let mut buf = Evbuffer::new(rt.alloc());
        let found = found_behind(rt.alloc(), &mut buf, count);
        drop(buf);
        assert_eq!(rt; found?, (Some(count), None));
    }
    Ok(())
}

/// The places of a needle behind 7,000 bytes, from the first byte on and from behind the needle's first.
fn long_found(
    alloc: Global,
    buf: &mut Evbuffer,
    needle: &[u8],
) -> Result<(Option<usize>, Option<usize>), Fail> {
    add_run(alloc, buf, b'x', 7000)?;
    buf.add(needle)?;
    buf.add(b"z")?;
    Ok((
        search(alloc, buf, needle, 0)?,
        search(alloc, buf, needle, 7001)?,
    ))
}

#[test]
fn a_long_needle_is_found(rt: HostRuntime) -> Result<(), Fail> {
    let needle = vec![in rt.alloc(); b'y'; 5000]?;
    let mut buf = Evbuffer::new(rt.alloc());
    let found = long_found(rt.alloc(), &mut buf, &needle);
    drop(buf);
    drop(needle);
    assert_eq!(rt; found?, (Some(7000), None));
    Ok(())
}

/// A style, bytes, a start, and the place and the length of the line end.
type End = (Eol, &'static str, usize, Option<(usize, usize)>);

const ENDS: &[End] = &[
    (Eol::Any, "ab\r\n\ncd", 0, Some((2, 3))),
    (Eol::Any, "ab\r\n\ncd", 3, Some((3, 2))),
    (Eol::Any, "ab\r\n\ncd", 5, None),
    (Eol::Any, "ab\r", 0, Some((2, 1))),
    (Eol::Crlf, "a\rb\r\nc", 0, Some((3, 2))),
    (Eol::Crlf, "a\rb\r\nc", 4, Some((4, 1))),
    (Eol::Crlf, "a\nb", 0, Some((1, 1))),
    (Eol::Crlf, "a\r", 0, None),
    (Eol::Crlf, "a\r\r\n", 0, Some((2, 2))),
    (Eol::CrlfStrict, "a\nb\r\nc", 0, Some((3, 2))),
    (Eol::CrlfStrict, "a\nb\r\nc", 4, None),
    (Eol::CrlfStrict, "a\n\r", 0, None),
    (Eol::Lf, "a\r\nb", 0, Some((2, 1))),
    (Eol::Lf, "a\rb", 0, None),
    (Eol::Nul, "a\0b\0", 0, Some((1, 1))),
    (Eol::Nul, "a\0b\0", 2, Some((3, 1))),
    (Eol::Nul, "ab", 0, None),
    (Eol::Lf, "", 0, None),
    (Eol::Lf, "\n", 1 << 62, None),
];

/// Whether the line end of a style in an empty buffer, once it has the bytes, is where it must be.
fn is_ended(buf: &mut Evbuffer, row: End) -> Result<bool, BufFault> {
    let (style, bytes, from, end) = row;
    buf.add(bytes.as_bytes())?;
    Ok(search_eol(buf, style, from) == end)
}

/// The place of the first row that has another line end.
fn first_wrong_end(alloc: Global, rows: &[End]) -> Result<Option<usize>, BufFault> {
    for (place, row) in rows.iter().enumerate() {
        let mut buf = Evbuffer::new(alloc);
        let ended = is_ended(&mut buf, *row);
        drop(buf);
        if !ended? {
            return Ok(Some(place));
        }
    }
    Ok(None)
}

#[test]
fn each_style_has_its_line_ends(rt: HostRuntime) -> Result<(), Fail> {
    assert_eq!(rt; first_wrong_end(rt.alloc(), ENDS)?, None);
    Ok(())
}

/// The first style whose line end, behind so many bytes, is not where it must be.
fn first_wrong_behind(
    alloc: Global,
    buf: &mut Evbuffer,
    count: usize,
) -> Result<Option<Eol>, BufFault> {
    add_run(alloc, buf, b'x', count)?;
    buf.add(b"\r\n\r\nx")?;
    for (style, end) in [
        (Eol::Any, Some((count, 4))),
        (Eol::Crlf, Some((count, 2))),
        (Eol::CrlfStrict, Some((count, 2))),
        (Eol::Lf, Some((count.saturating_add(1), 1))),
        (Eol::Nul, None),
    ] {
        if search_eol(buf, style, 0) != end {
            return Ok(Some(style));
        }
    }
    Ok(None)
}

#[test]
fn a_line_end_is_found_across_windows(rt: HostRuntime) -> Result<(), Fail> {
    for count in [254usize, 255, 256, 509, 510, 511, 512] {
        let mut buf = Evbuffer::new(rt.alloc());
        let wrong = first_wrong_behind(rt.alloc(), &mut buf, count);
        drop(buf);
        assert_eq!(rt; wrong?, None, "behind {count} bytes");
    }
    Ok(())
}

/// The line ends of a run of so many behind one byte, and of the same run with more behind it.
fn run_found(
    alloc: Global,
    buf: &mut Evbuffer,
    count: usize,
) -> Result<[Option<(usize, usize)>; 2], BufFault> {
    buf.add(b"x")?;
    add_run(alloc, buf, b'\n', count)?;
    let alone = search_eol(buf, Eol::Any, 0);
    buf.add(b"x\n")?;
    Ok([alone, search_eol(buf, Eol::Any, 0)])
}

#[test]
fn a_run_of_ends_may_be_longer_than_a_window(rt: HostRuntime) -> Result<(), Fail> {
    for count in [255usize, 256, 257, 600] {
        let mut buf = Evbuffer::new(rt.alloc());
        let found = run_found(rt.alloc(), &mut buf, count);
        drop(buf);
        assert_eq!(rt; found?, [Some((1, count)), Some((1, count))]);
    }
    Ok(())
}
