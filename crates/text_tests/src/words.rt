// The words of the two programs' command lines, as a user may give them.
use command_words::{Ending, ScriptKind, WordsFault, mode_words, serve_words};
use ev_types::{Addr, FilterKind, Route};
use script_text::Settings;
use std::alloc::Global;
use std::test::Fail;

/// Puts words behind those that are there.
fn put_words(all: &mut Vec<String>, alloc: Global, words: &[&str]) -> Result<(), Fail> {
    for word in words {
        all.push(String::from_str(alloc, word)?)?;
    }
    Ok(())
}

/// Words that are enough.
const ENOUGH: &[&str] = &[
    "--listen",
    "127.0.0.1:8080",
    "--to",
    "10.0.0.255:65535",
    "--links",
    "7",
];

const LISTEN: Addr = Addr {
    ip: [127, 0, 0, 1],
    port: 8080,
};

const TO: Addr = Addr {
    ip: [10, 0, 0, 255],
    port: 65535,
};

/// Words, each with the links, the hold mark, and the filters that they come to.
const RIGHT: &[(&[&str], u32, u64, [FilterKind; 4])] = &[
    (ENOUGH, 7, 524_288, [FilterKind::None; 4]),
    (
        &[
            "--links=65535",
            "--to=10.0.0.255:65535",
            "--listen=127.0.0.1:8080",
        ],
        65_535,
        524_288,
        [FilterKind::None; 4],
    ),
    (
        &[
            "--hold",
            "16777216",
            "--links",
            "1",
            "--listen=127.0.0.1:8080",
            "--to",
            "10.0.0.255:65535",
        ],
        1,
        16_777_216,
        [FilterKind::None; 4],
    ),
    (
        &[
            "--out-write=hex-in",
            "--to",
            "10.0.0.255:65535",
            "--in-read",
            "to-crlf",
            "--listen",
            "127.0.0.1:8080",
            "--in-write",
            "to-lf",
            "--hold=1",
            "--out-read=hex-out",
            "--links",
            "2",
        ],
        2,
        1,
        [
            FilterKind::ToCrlf,
            FilterKind::ToLf,
            FilterKind::HexOut,
            FilterKind::HexIn,
        ],
    ),
    (
        &[
            "--in-read=none",
            "--listen",
            "127.0.0.1:8080",
            "--links=10",
            "--to",
            "10.0.0.255:65535",
            "--out-write",
            "none",
        ],
        10,
        524_288,
        [FilterKind::None; 4],
    ),
];

/// Words that are wrong behind those that are enough.
const TOO_MUCH: &[&[&str]] = &[
    &["stray"],
    &[""],
    &["-"],
    &["--"],
    &["--", "--hold", "5"],
    &["--help"],
    &["-h"],
    &["--version"],
    &["-V"],
    &["help"],
    &["--links", "7"],
    &["--links=7"],
    &["--hold", "5", "--hold", "5"],
    &["--hold=5", "--hold", "6"],
    &["--in-read=none", "--in-read=none"],
    &["--hold"],
    &["--hold", ""],
    &["--hold="],
    &["--hold==5"],
    &["--hold", "0"],
    &["--hold", "16777217"],
    &["--hold", "-1"],
    &["--hold=-1"],
    &["--hold=+1"],
    &["--hold", "01"],
    &["--hold", "5", "5"],
    &["--hold 5"],
    &["-hold", "5"],
    &["--Hold", "5"],
    &["--hol", "5"],
    &["--=5"],
    &["--in-read", "upper"],
    &["--in-read", "--out-read", "none"],
    &["--in-read", "--"],
];

/// Words in which something is wrong or missing that is required.
const TOO_LITTLE: &[&[&str]] = &[
    &[],
    &["--listen", "1.2.3.4:5", "--to", "1.2.3.4:5"],
    &["--listen", "1.2.3.4:5", "--links", "1"],
    &["--to", "1.2.3.4:5", "--links", "1"],
    &["--listen", "--to", "1.2.3.4:5", "--links", "1"],
    &["--to", "1.2.3.4:5", "--links", "1", "--listen"],
    &["--listen", "1.2.3.4:5", "--to", "1.2.3.4:5", "--links", "0"],
    &[
        "--listen",
        "1.2.3.4:5",
        "--to",
        "1.2.3.4:5",
        "--links",
        "65536",
    ],
    &["--listen", "1.2.3.4:5", "--to", "1.2.3.4:5", "--links=01"],
];

/// Words that are no address.
const NO_ADDRESSES: &[&str] = &[
    "",
    "1.2.3:80",
    "1.2.3.4",
    "1.2.3.4:",
    "1.2.3.4:0",
    "1.2.3.4:65536",
    "1.2.3.4:080",
    "1.2.3.256:80",
    "01.2.3.4:80",
    "1.2.3.4.5:80",
    "1..3.4:80",
    ".2.3.4:80",
    "1.2.3.4:80:80",
    "1.2.3.4.80",
    ":80",
    "localhost:80",
    " 1.2.3.4:80",
];

/// What the words of one list with those of another behind them come to.
fn served(
    alloc: Global,
    front: &[&str],
    behind: &[&str],
) -> Result<Result<Route, WordsFault>, Fail> {
    let mut all = Vec::new(alloc);
    put_words(&mut all, alloc, front)?;
    put_words(&mut all, alloc, behind)?;
    Ok(serve_words(alloc, &all))
}

/// The place of the first words that come to something else.
fn first_other_route(alloc: Global) -> Result<Option<usize>, Fail> {
    for (place, (words, links, hold, filters)) in RIGHT.iter().enumerate() {
        let [in_read, in_write, out_read, out_write] = *filters;
        let settings = Settings {
            links: *links,
            hold: *hold,
            in_read,
            in_write,
            out_read,
            out_write,
            ..Settings::usual()
        };
        let owed = Route {
            listen: LISTEN,
            to: TO,
            settings,
        };
        if served(alloc, words, &[])? != Ok(owed) {
            return Ok(Some(place));
        }
    }
    Ok(None)
}

#[test]
fn right_words_come_to_their_values(rt: HostRuntime) -> Result<(), Fail> {
    assert_eq!(rt; first_other_route(rt.alloc())?, None);
    Ok(())
}

/// The place of the first words that aren't refused.
fn first_taken(alloc: Global, front: &[&str], lists: &[&[&str]]) -> Result<Option<usize>, Fail> {
    for (place, words) in lists.iter().enumerate() {
        if served(alloc, front, words)? != Err(WordsFault::Usage) {
            return Ok(Some(place));
        }
    }
    Ok(None)
}

/// The place of the first address that isn't refused.
fn first_address(alloc: Global) -> Result<Option<usize>, Fail> {
    for (place, word) in NO_ADDRESSES.iter().enumerate() {
        let listen = format!(in alloc; "--listen={word}")?;
        let front = &["--to", "1.2.3.4:5", "--links", "1"];
        if served(alloc, front, &[listen.as_str()])? != Err(WordsFault::Usage) {
            return Ok(Some(place));
        }
    }
    Ok(None)
}

/// The first that aren't refused of each kind.
fn first_of_each(alloc: Global) -> Result<[Option<usize>; 3], Fail> {
    Ok([
        first_taken(alloc, ENOUGH, TOO_MUCH)?,
        first_taken(alloc, &[], TOO_LITTLE)?,
        first_address(alloc)?,
    ])
}

#[test]
fn other_words_are_refused(rt: HostRuntime) -> Result<(), Fail> {
    assert_eq!(rt; first_of_each(rt.alloc())?, [None; 3]);
    Ok(())
}

/// Words, each with the mode that they ask for.
const MODES: &[(&[&str], Option<ScriptKind>)] = &[
    (&["relay"], Some(ScriptKind::Relay(Ending::LastTurn))),
    (&["buffers"], Some(ScriptKind::Buffers)),
    (&["base"], Some(ScriptKind::Base)),
    (&["pairs"], Some(ScriptKind::Pairs)),
    (
        &["relay", "--drain"],
        Some(ScriptKind::Relay(Ending::Drained)),
    ),
    (
        &["--drain", "relay"],
        Some(ScriptKind::Relay(Ending::Drained)),
    ),
    (&["big", "1"], Some(ScriptKind::Big(1))),
    (&["big", "10"], Some(ScriptKind::Big(10))),
    (&["big", "64"], Some(ScriptKind::Big(64))),
    (&[], None),
    (&[""], None),
    (&["-"], None),
    (&["--"], None),
    (&["relay", "--"], None),
    (&["--", "relay"], None),
    (&["relay", "x"], None),
    (&["relay", "relay"], None),
    (&["Relay"], None),
    (&["rela"], None),
    (&["--help"], None),
    (&["-h"], None),
    (&["--version"], None),
    (&["-V"], None),
    (&["help"], None),
    (&["relay", "--help"], None),
];

/// Words with the flag that ask for no mode.
const NO_FLAGS: &[&[&str]] = &[
    &["--drain"],
    &["--drain", "--drain"],
    &["relay", "--drain", "--drain"],
    &["--drain", "relay", "--drain"],
    &["--drain", "--drain", "relay"],
    &["relay", "--drain=x"],
    &["relay", "--drain="],
    &["--drain=relay"],
    &["--drain=true", "relay"],
    &["relay", "--dra"],
    &["relay", "--drains"],
    &["relay", "-drain"],
    &["relay", "-d"],
    &["relay", "drain"],
    &["relay", "--Drain"],
    &["relay", "--drain", ""],
    &["relay", "--drain", "--"],
    &["relay", "--drain", "5"],
    &["relay", "5", "--drain"],
    &["relay", "relay", "--drain"],
    &["buffers", "--drain"],
    &["--drain", "base"],
    &["pairs", "--drain"],
    &["--drain", "--help", "relay"],
];

/// Words with a number, or with `big`, that ask for no mode.
const NO_NUMBERS: &[&[&str]] = &[
    &["big"],
    &["big", ""],
    &["big", "0"],
    &["big", "65"],
    &["big", "01"],
    &["big", "+1"],
    &["big", "-1"],
    &["big", "1 "],
    &["big", "x"],
    &["big", "640"],
    &["big", "18446744073709551617"],
    &["big", "5", "5"],
    &["big", "5", "--drain"],
    &["big", "--drain", "5"],
    &["--drain", "big", "5"],
    &["big", "--drain"],
    &["--drain", "big"],
    &["big=5"],
    &["big", "--count", "5"],
    &["big", "--count=5"],
    &["--mode=relay"],
    &["--mode", "relay"],
    &["5", "big"],
    &["5"],
    &["relay", "5"],
    &["buffers", "5"],
    &["Big", "5"],
];

/// What words ask for.
fn mode(alloc: Global, words: &[&str]) -> Result<Result<ScriptKind, WordsFault>, Fail> {
    let mut all = Vec::new(alloc);
    put_words(&mut all, alloc, words)?;
    Ok(mode_words(alloc, &all))
}

fn first_other_mode(alloc: Global) -> Result<Option<usize>, Fail> {
    for (place, (words, owed)) in MODES.iter().enumerate() {
        if mode(alloc, words)? != owed.ok_or(WordsFault::Usage) {
            return Ok(Some(place));
        }
    }
    Ok(None)
}

/// The place of the first words that ask for a mode.
fn first_mode(alloc: Global, lists: &[&[&str]]) -> Result<Option<usize>, Fail> {
    for (place, words) in lists.iter().enumerate() {
        if mode(alloc, words)? != Err(WordsFault::Usage) {
            return Ok(Some(place));
        }
    }
    Ok(None)
}

/// The first words of each kind that ask for another mode than they owe.
fn first_modes(alloc: Global) -> Result<[Option<usize>; 3], Fail> {
    Ok([
        first_other_mode(alloc)?,
        first_mode(alloc, NO_FLAGS)?,
        first_mode(alloc, NO_NUMBERS)?,
    ])
}

#[test]
fn words_ask_for_their_mode(rt: HostRuntime) -> Result<(), Fail> {
    assert_eq!(rt; first_modes(rt.alloc())?, [None; 3]);
    Ok(())
}
