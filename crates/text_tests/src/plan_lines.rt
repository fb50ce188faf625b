// Lines of limits, groups, members and plans: which of them are in the grammar, and what they say.
use ev_types::{Act, Dir, LimitCfg, Side, SideId, WhyKind};
use script_text::{GroupSet, PlanLine, Script, ScriptFault, read_script};
use std::alloc::Global;
use std::test::Fail;

/// Texts, each with its first bad line.
const TEXTS: &[(&str, Option<u32>)] = &[
    // A limit has rates above 0 and within their bursts, bursts of at most 2^40 bytes and a tick of 1 to 2^20 ms.
    ("set rate in 1 1 1 1 1", None),
    (
        "set rate out 1 1099511627776 1099511627776 1099511627776 1048576",
        None,
    ),
    ("set rate in 0 1 1 1 1", Some(1)),
    ("set rate in 2 1 1 1 1", Some(1)),
    ("set rate in 1 1 0 1 1", Some(1)),
    ("set rate in 1 1 2 1 1", Some(1)),
    ("set rate in 1 1099511627777 1 1 1", Some(1)),
    ("set rate in 1 1 1 1099511627777 1", Some(1)),
    ("set rate in 1 1 1 1 0", Some(1)),
    ("set rate in 1 1 1 1 1048577", Some(1)),
    // It has a side and five numbers, and stands once for each side and before the turns.
    ("set rate", Some(1)),
    ("set rate in", Some(1)),
    ("set rate in none", Some(1)),
    ("set rate in 1 1 1 1", Some(1)),
    ("set rate in 1 1 1 1 1 1", Some(1)),
    ("set rate in 1 1 1 1 01", Some(1)),
    ("set rate both 1 1 1 1 1", Some(1)),
    ("set rate in 1 1 1 1 1\nset rate out 1 1 1 1 1", None),
    ("set rate in 1 1 1 1 1\n\nset rate in 1 1 1 1 1", Some(3)),
    ("at 0\nset rate in 1 1 1 1 1", Some(2)),
    // A group has the next number, a limit and a share of 1 to 2^40 bytes.
    ("set group 0 1 1 1 1 1 1", None),
    ("set group 0 1 1 1 1 1 1099511627776", None),
    ("set group 0 1 1 1 1 1 1099511627777", Some(1)),
    ("set group 0 1 1 1 1 1 0", Some(1)),
    ("set group 0 1 1 1 1 1", Some(1)),
    ("set group 0 1 1 1 1 1 1 1", Some(1)),
    ("set group 0 0 1 1 1 1 1", Some(1)),
    ("set group 1 1 1 1 1 1 1", Some(1)),
    ("set group 0 1 1 1 1 1 1\nset group 0 1 1 1 1 1 1", Some(2)),
    ("set group 0 1 1 1 1 1 1\nset group 2 1 1 1 1 1 1", Some(2)),
    ("set group 0 1 1 1 1 1 1\nset group 1 1 1 1 1 1 1", None),
    ("at 0\nset group 0 1 1 1 1 1 1", Some(2)),
    // Sides are members of a group that was set before, once for each side.
    (
        "set group 0 1 1 1 1 1 1\nset member in 0\nset member out 0",
        None,
    ),
    ("set member in 0", Some(1)),
    ("set member in 0\nset group 0 1 1 1 1 1 1", Some(1)),
    ("set group 0 1 1 1 1 1 1\nset member in 1", Some(2)),
    ("set group 0 1 1 1 1 1 1\nset member in 64", Some(2)),
    ("set group 0 1 1 1 1 1 1\nset member in", Some(2)),
    ("set group 0 1 1 1 1 1 1\nset member 0", Some(2)),
    ("set group 0 1 1 1 1 1 1\nset member in 0 0", Some(2)),
    (
        "set group 0 1 1 1 1 1 1\nset member in 0\nset member in 0",
        Some(3),
    ),
    ("set group 0 1 1 1 1 1 1\nat 0\nset member in 0", Some(3)),
    // Plans are for links up to 31 and fires 1 to 1,000,000, as often as one likes, before the turns.
    ("on 31 out event 1000000 nop", None),
    ("on 0 in read 1 stop\non 0 in read 1 stop\nset hold 1", None),
    ("on 32 in read 1 nop", Some(1)),
    ("on 0 in read 0 nop", Some(1)),
    ("on 0 in read 1000001 nop", Some(1)),
    ("on 0 both read 1 nop", Some(1)),
    ("on 0 in event:10 1 nop", Some(1)),
    ("on 0 in close 1 nop", Some(1)),
    ("on 0 in read nop", Some(1)),
    ("on 0 in read 1", Some(1)),
    ("on", Some(1)),
    ("at 0\non 0 in read 1 nop", Some(2)),
    // They stand before the turns in any order, and a plan may name a group that no line sets.
    ("set hold 1\n\nset rate in 1 1 1 1 1\nat 0\nopen", None),
    ("set group 0 1 1 1 1 1 1\nset member in 0\nat 0", None),
    ("on 0 in read 1 nop\nset rate in 1 1 1 1 1\nat 0", None),
    (
        "on 0 in read 1 stop\non 0 in read 2 rate 0 in none\nset group 0 1 1 1 1 1 1",
        None,
    ),
    ("on 0 in timer 1 leave 0 in\nat 0", None),
    ("on 0 in timer 1 join 0 in 5\nat 0", None),
    // The first bad line is told, before them and behind.
    ("x\nset rate in 1 1 1 1 1", Some(1)),
    ("set hold 0\nset rate in 1 1 1 1 1", Some(1)),
    ("# one\nset group 0 1 1 1 1 1 1\nx", Some(3)),
    ("on 0 in timer 1 leave 0 in\nset hold 0", Some(2)),
    ("at 0\nx\nset group 0 1 1 1 1 1 1", Some(2)),
];

/// The first bad line of a text, if it has one.
fn bad_line(read: Result<Script, ScriptFault>) -> Result<Option<u32>, Fail> {
    match read {
        Ok(_) => Ok(None),
        Err(ScriptFault::BadLine(line)) => Ok(Some(line)),
        Err(fault) => Err(Fail::from(fault)),
    }
}

fn first_other_text(alloc: Global) -> Result<Option<&'static str>, Fail> {
    for (text, owed) in TEXTS {
        if bad_line(read_script(alloc, text.as_bytes()))? != *owed {
            return Ok(Some(text));
        }
    }
    Ok(None)
}

#[test]
fn each_line_has_its_ranges_and_its_place(rt: HostRuntime) -> Result<(), Fail> {
    assert_eq!(rt; first_other_text(rt.alloc())?, None);
    Ok(())
}

/// The first bad line of a text of so many groups.
fn bad_group(alloc: Global, count: u32) -> Result<Option<u32>, Fail> {
    let mut text = Vec::new(alloc);
    for number in 0..count {
        let line = format!(in alloc; "set group {number} 1 1 1 1 1 1\n")?;
        text.extend_from_slice(line.as_bytes())?;
    }
    bad_line(read_script(alloc, &text))
}

#[test]
fn there_are_at_most_64_groups(rt: HostRuntime) -> Result<(), Fail> {
    assert_eq!(rt; bad_group(rt.alloc(), 64)?, None);
    assert_eq!(rt; bad_group(rt.alloc(), 66)?, Some(65));
    Ok(())
}

const FAR: SideId = SideId {
    link: u32::MAX,
    side: Side::Out,
};

/// Words that ask, each with what they ask.
fn asks() -> [(&'static str, Option<Act>); 8] {
    [
        ("nop", None),
        ("stop", Some(Act::Stop)),
        ("free 4294967295 out", Some(Act::Free(FAR))),
        (
            "enable 4294967295 out read",
            Some(Act::Enable(FAR, Dir::Read)),
        ),
        (
            "disable 4294967295 out write",
            Some(Act::Disable(FAR, Dir::Write)),
        ),
        (
            "marks 4294967295 out write 4611686018427387904 0",
            Some(Act::Marks(FAR, Dir::Write, 1 << 62, 0)),
        ),
        (
            "marks 4294967295 out read 0 4611686018427387904",
            Some(Act::Marks(FAR, Dir::Read, 0, 1 << 62)),
        ),
        (
            "timeouts 4294967295 out 4611686018427387904 0",
            Some(Act::Timeouts(FAR, 1 << 62, 0)),
        ),
    ]
}

/// More of them, about limits, groups, timers and references.
fn more_asks() -> [(&'static str, Option<Act>); 8] {
    [
        ("rate 4294967295 out none", Some(Act::Rate(FAR, None))),
        (
            "join 4294967295 out 4294967295",
            Some(Act::Join(FAR, u32::MAX)),
        ),
        ("leave 4294967295 out", Some(Act::Leave(FAR))),
        (
            "trigger 4294967295 out read",
            Some(Act::Trigger(FAR, Dir::Read)),
        ),
        (
            "timer 4294967295 out 4611686018427387904",
            Some(Act::Timer(FAR, 1 << 62)),
        ),
        ("cancel 4294967295 out", Some(Act::Cancel(FAR))),
        ("incref 4294967295 out", Some(Act::Incref(FAR))),
        ("decref 4294967295 out", Some(Act::Decref(FAR))),
    ]
}

/// Words that ask nothing that there is.
const NO_ASKS: &[&str] = &[
    "nop 0",
    "Nop",
    "stop 0 in",
    "free",
    "free 4294967296 in",
    "free 0 in 0",
    "enable 0 in",
    "enable 0 in both",
    "marks 0 in read 1",
    "marks 0 in read 4611686018427387905 0",
    "marks 0 in write 0 4611686018427387905",
    "timeouts 0 in 4611686018427387905 0",
    "timeouts 0 in 0 4611686018427387905",
    "timeouts 0 in 0",
    "rate 0 in 0 1 1 1 1",
    "rate 0 in 1 1 1 1",
    "rate 0 in None",
    "join 0 in 4294967296",
    "join 0 in",
    "timer 0 in 4611686018427387905",
    "timer 0 in",
    "close 0 in",
];

/// What is planned by these words, where the script has this plan alone.
fn planned(alloc: Global, words: &str) -> Result<Option<(SideId, PlanLine)>, Fail> {
    let text = format!(in alloc; "on 7 in timer 3 {words}\nat 0\n")?;
    let script = read_script(alloc, text.as_bytes())?;
    match script.plans.as_slice() {
        [plan] => Ok(Some(*plan)),
        _ => Ok(None),
    }
}

fn first_other_ask(alloc: Global) -> Result<Option<&'static str>, Fail> {
    match first_other_of(alloc, asks())? {
        Some(words) => Ok(Some(words)),
        None => first_other_of(alloc, more_asks()),
    }
}

fn first_other_of(
    alloc: Global,
    asks: [(&'static str, Option<Act>); 8],
) -> Result<Option<&'static str>, Fail> {
    let end = SideId {
        link: 7,
        side: Side::In,
    };
    for (words, act) in asks {
        let item = PlanLine {
            why: WhyKind::Timer,
            nth: 3,
            act,
        };
        if planned(alloc, words)? != Some((end, item)) {
            return Ok(Some(words));
        }
    }
    Ok(None)
}

fn first_read(alloc: Global) -> Result<Option<&'static str>, Fail> {
    for words in NO_ASKS {
        let text = format!(in alloc; "# one\non 0 in connected 1 {words}\n")?;
        if bad_line(read_script(alloc, text.as_bytes()))? != Some(2) {
            return Ok(Some(words));
        }
    }
    Ok(None)
}

#[test]
fn a_plan_has_its_ask(rt: HostRuntime) -> Result<(), Fail> {
    assert_eq!(rt; first_other_ask(rt.alloc())?, None);
    assert_eq!(rt; first_read(rt.alloc())?, None);
    Ok(())
}

const ALL: &[u8] = b"\
set group 0 1 2 3 4 5 6
set rate out 7 8 9 10 11
on 1 out event 2 rate 3 in 12 13 14 15 16
set group 1 17 18 19 20 21 22
set member in 1
on 0 in write 1 nop
at 0
";

/// Whether that script says what stands in it.
fn says_all(alloc: Global) -> Result<bool, Fail> {
    let script = read_script(alloc, ALL)?;
    let groups = [
        GroupSet {
            cfg: LimitCfg::new(1, 2, 3, 4, 5)?,
            share: 6,
        },
        GroupSet {
            cfg: LimitCfg::new(17, 18, 19, 20, 21)?,
            share: 22,
        },
    ];
    let settings = script.settings;
    let members = script.members;
    let rate = LimitCfg::new(7, 8, 9, 10, 11)?;
    let asked = LimitCfg::new(12, 13, 14, 15, 16)?;
    let act = match script.plans.as_slice() {
        [(_, first), (_, last)] if last.act.is_none() => first.act,
        _ => None,
    };
    let end = SideId {
        link: 3,
        side: Side::In,
    };
    Ok(
        script.groups.as_slice() == groups.as_slice()
            && settings.in_rate.is_none()
            && settings.out_rate == Some(rate)
            && members.in_group == Some(1)
            && members.out_group.is_none()
            && act == Some(Act::Rate(end, Some(asked))),
    )
}

#[test]
fn a_script_has_its_limits_groups_and_plans(rt: HostRuntime) -> Result<(), Fail> {
    assert_eq!(rt; says_all(rt.alloc())?, true);
    Ok(())
}
