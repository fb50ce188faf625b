// Settings of a script: what they give, and the names of the filters.
use ev_types::FilterKind;
use script_text::{Marks, Settings, Timeouts, filter_named, read_script};
use std::alloc::Global;
use std::test::Fail;

fn settings_of(alloc: Global, text: &[u8]) -> Result<Settings, Fail> {
    Ok(read_script(alloc, text)?.settings)
}

#[test]
fn what_no_line_sets_is_as_usual(rt: HostRuntime) -> Result<(), Fail> {
    let usual = Settings::usual();
    assert_eq!(rt; settings_of(rt.alloc(), b"at 0\nopen\n")?, usual);
    let in_timeouts = Timeouts {
        read_ms: 7,
        write_ms: 0,
    };
    let set = Settings {
        in_timeouts,
        ..usual
    };
    assert_eq!(rt; settings_of(rt.alloc(), b"set timeouts in 7 0\n")?, set);
    Ok(())
}

/// The names of the filters.
const FILTERS: &[(&str, FilterKind)] = &[
    ("none", FilterKind::None),
    ("to-crlf", FilterKind::ToCrlf),
    ("to-lf", FilterKind::ToLf),
    ("hex-out", FilterKind::HexOut),
    ("hex-in", FilterKind::HexIn),
];

/// Words that name no filter.
const NO_FILTERS: &[&str] = &["", "None", "to-LF", "tolf", "to-l", "to-lff", "hex_in"];

#[test]
fn a_filter_has_one_name(rt: HostRuntime) {
    for (word, kind) in FILTERS {
        assert_eq!(rt; filter_named(word.as_bytes()), Some(*kind), "{word}");
    }
    for word in NO_FILTERS {
        assert_eq!(rt; filter_named(word.as_bytes()), None, "{word}");
    }
}

/// Usual settings but for this filter, at each of its four places.
fn cases(kind: FilterKind) -> [(&'static str, Settings); 4] {
    let usual = Settings::usual();
    let in_read = Settings {
        in_read: kind,
        ..usual
    };
    let in_write = Settings {
        in_write: kind,
        ..usual
    };
    let out_read = Settings {
        out_read: kind,
        ..usual
    };
    let out_write = Settings {
        out_write: kind,
        ..usual
    };
    [
        ("in-read", in_read),
        ("in-write", in_write),
        ("out-read", out_read),
        ("out-write", out_write),
    ]
}

fn sets_alone(alloc: Global, place: &str, word: &str, owed: Settings) -> Result<bool, Fail> {
    let text = format!(in alloc; "set {place} {word}\nat 0\n")?;
    Ok(settings_of(alloc, text.as_bytes())? == owed)
}

/// The place and the name of the first line that sets something else.
fn first_other(alloc: Global) -> Result<Option<(&'static str, &'static str)>, Fail> {
    for (word, kind) in FILTERS {
        for (place, owed) in cases(*kind) {
            if !sets_alone(alloc, place, word, owed)? {
                return Ok(Some((place, word)));
            }
        }
    }
    Ok(None)
}

#[test]
fn each_line_sets_its_filter_alone(rt: HostRuntime) -> Result<(), Fail> {
    assert_eq!(rt; first_other(rt.alloc())?, None);
    Ok(())
}

const ALL_SET: &[u8] = b"\
# started with
 set  hold 4096\x20

set marks out 1 2 3 4
set timeouts in 5 6
set in-read to-lf
set timeouts out 7 8
set out-write hex-out
set marks in 9 10 11 12
at 3
";

const SET: Settings = Settings {
    hold: 4096,
    in_read: FilterKind::ToLf,
    in_write: FilterKind::None,
    out_read: FilterKind::None,
    out_write: FilterKind::HexOut,
    in_rate: None,
    out_rate: None,
    in_marks: Marks {
        read_low: 9,
        read_high: 10,
        write_low: 11,
        write_high: 12,
    },
    out_marks: Marks {
        read_low: 1,
        read_high: 2,
        write_low: 3,
        write_high: 4,
    },
    in_timeouts: Timeouts {
        read_ms: 5,
        write_ms: 6,
    },
    out_timeouts: Timeouts {
        read_ms: 7,
        write_ms: 8,
    },
    links: 256,
};

#[test]
fn each_side_has_its_own_settings(rt: HostRuntime) -> Result<(), Fail> {
    let script = read_script(rt.alloc(), ALL_SET)?;
    let (settings, turns) = (script.settings, script.turns.len());
    drop(script);
    assert_eq!(rt; settings, SET);
    assert_eq!(rt; turns, 1);
    Ok(())
}
