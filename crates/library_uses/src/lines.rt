// An evbuffer with its searching: lines out of bytes that come in pieces.

use evbuf::Evbuffer;
use evbuf_scan::{Eol, readln, search};
use std::alloc::Global;
use std::io::Print;

/// A line is read once its end has come, and not before.
pub fn lines_that_came_in_pieces(rt: &impl Print, alloc: Global) -> anyhow::Result<()> {
    let mut buf = Evbuffer::new(alloc);
    let answer = three_pieces(rt, alloc, &mut buf);
    drop(buf);
    answer
}

// The buffer is lent, so that it is let go at one place.
fn three_pieces(rt: &impl Print, alloc: Global, buf: &mut Evbuffer) -> anyhow::Result<()> {
    for piece in [&b"GET / HT"[..], b"TP/1.1\r", b"\nHost: here\r\n"] {
        buf.add(piece)?;
        for _ in 0..4u32 {
            let Some(line) = readln(alloc, buf, Eol::Crlf)? else {
                break;
            };
            println!(rt; "line of {} bytes", line.len())?;
        }
        println!(rt;
            "{} bytes wait, a space at {:?}",
            buf.len(),
            search(alloc, buf, b" ", 0)?
        )?;
    }
    Ok(())
}
