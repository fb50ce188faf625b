// Scripts of links: what each line says. Texts that are refused stand in the table that the built program is run on.
use ev_types::{Side, SideId, TurnLine};
use script_text::read_script;
use std::alloc::Global;
use std::test::Fail;

const IN: SideId = SideId {
    link: 0,
    side: Side::In,
};

/// What a line is owed to say.
enum Said {
    NewLink(bool),
    Conn(u32, bool),
    Pending(SideId, &'static [u8]),
    Eof(SideId),
    ReadFail(SideId),
    Take(SideId, Option<u64>),
    WriteFail(SideId),
    Spur(SideId),
    PollFail,
}

fn says(line: &TurnLine, said: &Said) -> bool {
    match (line, said) {
        (TurnLine::NewLink { wait }, Said::NewLink(owed)) => wait == owed,
        (TurnLine::Conn(link, made), Said::Conn(at, owed)) => link == at && made == owed,
        (TurnLine::Pending(end, list), Said::Pending(at, owed)) => {
            end == at && list.bytes.as_slice() == *owed
        }
        (TurnLine::Take(end, count), Said::Take(at, owed)) => end == at && count == owed,
        (TurnLine::Eof(end), Said::Eof(at))
        | (TurnLine::ReadFail(end), Said::ReadFail(at))
        | (TurnLine::WriteFail(end), Said::WriteFail(at))
        | (TurnLine::Spur(end), Said::Spur(at)) => end == at,
        (TurnLine::PollFail, Said::PollFail) => true,
        _ => false,
    }
}

fn all_say(lines: &[TurnLine], said: &[Said]) -> bool {
    if lines.len() != said.len() {
        return false;
    }
    for (line, owed) in lines.iter().zip(said) {
        if !says(line, owed) {
            return false;
        }
    }
    true
}

const TWO_TURNS: &[u8] =
    b"# two turns\nat 7\n  open\nr 0 in 6869\n\nw  0  in all \nat 1099511627776\neof 0 in\n";

/// Each turn with its moment and what its lines say.
const TURNS: &[(u64, &[Said])] = &[
    (
        7,
        &[
            Said::NewLink(false),
            Said::Pending(IN, b"hi"),
            Said::Take(IN, None),
        ],
    ),
    (1 << 40, &[Said::Eof(IN)]),
];

/// The place of the first turn that is another, where the script has as many.
fn first_other_turn(alloc: Global) -> Result<Option<usize>, Fail> {
    let script = read_script(alloc, TWO_TURNS)?;
    if script.turns.len() != TURNS.len() {
        return Ok(Some(script.turns.len()));
    }
    for (place, ((time, lines), (moment, said))) in script.turns.iter().zip(TURNS).enumerate() {
        if time != moment || !all_say(lines, said) {
            return Ok(Some(place));
        }
    }
    Ok(None)
}

#[test]
fn each_line_of_a_script_is_read(rt: HostRuntime) -> Result<(), Fail> {
    assert_eq!(rt; first_other_turn(rt.alloc())?, None);
    Ok(())
}

/// Lines behind one that opens a link with wait, each with what the last line of the script says then.
const LAST_LINES: &[(&str, Said)] = &[
    // A link may be undecided.
    ("# none", Said::NewLink(true)),
    ("conn 0 ok", Said::Conn(0, true)),
    ("conn 0 fail", Said::Conn(0, false)),
    // An end may fail.
    ("rfail 0 in", Said::ReadFail(IN)),
    ("wfail 0 in", Said::WriteFail(IN)),
    ("pollfail", Said::PollFail),
    // An end may take some and be marked.
    ("w 0 in 7", Said::Take(IN, Some(7))),
    ("spur 0 in", Said::Spur(IN)),
];

fn last_line_says(alloc: Global, line: &str, said: &Said) -> Result<bool, Fail> {
    let text = format!(in alloc; "at 0\nopen wait\n{line}\n")?;
    let script = read_script(alloc, text.as_bytes())?;
    let Some((_, lines)) = script.turns.last() else {
        return Ok(false);
    };
    Ok(lines.last().is_some_and(|last| says(last, said)))
}

fn first_other_line(alloc: Global) -> Result<Option<usize>, Fail> {
    for (place, (line, said)) in LAST_LINES.iter().enumerate() {
        if !last_line_says(alloc, line, said)? {
            return Ok(Some(place));
        }
    }
    Ok(None)
}

#[test]
fn each_line_says_its_own(rt: HostRuntime) -> Result<(), Fail> {
    assert_eq!(rt; first_other_line(rt.alloc())?, None);
    Ok(())
}
