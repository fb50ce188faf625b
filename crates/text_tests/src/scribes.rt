// The scribe that writes a trace as text.
use ev_port::Scribe;
use ev_types::{Entry, ReadAnswer, Side, SideId};
use std::alloc::Global;
use std::test::Fail;
use text_scribe::TextScribe;

const SIDE: SideId = SideId {
    link: 3,
    side: Side::Out,
};

const LINES: &[u8] = b"turn 7\nread 3 out 16 got 6869\nclose 3 out\n";

fn put(scribe: &mut TextScribe) -> Result<(), Fail> {
    scribe.reserve(2, 2)?;
    scribe.put(Entry::Turn { ms: 7 }, &[]);
    let read = Entry::Read {
        side: SIDE,
        room: 16,
        answer: ReadAnswer::Got(2),
    };
    scribe.put(read, b"hi");
    scribe.reserve(1, 0)?;
    scribe.put(Entry::Close { side: SIDE }, &[]);
    Ok(())
}

fn is_written(alloc: Global) -> Result<bool, Fail> {
    let mut scribe = TextScribe::new(alloc);
    put(&mut scribe)?;
    Ok(scribe.into_text().as_slice() == LINES)
}

#[test]
fn each_entry_is_written_as_its_line(rt: HostRuntime) -> Result<(), Fail> {
    assert!(rt; is_written(rt.alloc())?);
    Ok(())
}
