// Reads the words of a line that sets something.
ghost use Rattle.std.specs.Prelude.{◌≡◌, map};
ghost use Rattle.script_text.specs.Grammar.{hold_of, said_by, set_by, setting_name_of, side_marks_of, side_timeouts_of};
ghost use Rattle.script_text.specs.GroupsAndPlans.{group_of, group_set_of, share_of};

use crate::act_words::limit;
use crate::line::{Keyword, Line};
use crate::setting::{Setting, SettingName};
use crate::value_words::{filter_named, read_side};
use crate::words::{is_word, number};
use ev_types::{Dir, Marks, Side, Timeouts};
use rate_group::GroupSet;

/// The most bytes that a mark can have.
const MAX_MARK: u64 = 1 << 24;

/// The longest timeout, in milliseconds.
const MAX_TIMEOUT: u64 = 1 << 40;

/// The greatest number of a group.
const MAX_GROUP: u64 = 63;

/// The greatest least share, in bytes.
const MAX_SHARE: u64 = 1 << 40;

fn read_name(word: &[u8]) -> Option<SettingName>
    ensures { result ≡ setting_name_of word.now }
{
    if is_word(word, "hold") {
        Some(SettingName::Hold)
    } else if is_word(word, "marks") {
        Some(SettingName::Marks)
    } else if is_word(word, "timeouts") {
        Some(SettingName::Timeouts)
    } else if is_word(word, "in-read") {
        Some(SettingName::Filter(Side::In, Dir::Read))
    } else if is_word(word, "in-write") {
        Some(SettingName::Filter(Side::In, Dir::Write))
    } else if is_word(word, "out-read") {
        Some(SettingName::Filter(Side::Out, Dir::Read))
    } else if is_word(word, "out-write") {
        Some(SettingName::Filter(Side::Out, Dir::Write))
    } else if is_word(word, "rate") {
        Some(SettingName::Rate)
    } else if is_word(word, "group") {
        Some(SettingName::Group)
    } else if is_word(word, "member") {
        Some(SettingName::Member)
    } else {
        None
    }
}

/// What a line sets with these words behind `set`.
pub fn set_line(more: &[&[u8]]) -> Option<Line>
    ensures { result ≡ said_by Keyword.Set (map (λ w. w.now) more.now) }
{
    let (name, words) = more.split_first()?;
    let name = read_name(name)?;
    Some(Line::Set(read_setting(name, words)?))
}

fn read_setting(name: SettingName, words: &[&[u8]]) -> Option<Setting>
    ensures { result ≡ set_by name (map (λ w. w.now) words.now) }
{
    match name {
        SettingName::Hold => set_hold(words),
        SettingName::Filter(side, dir) => set_filter(side, dir, words),
        SettingName::Marks => set_marks(words),
        SettingName::Timeouts => set_timeouts(words),
        SettingName::Rate => set_rate(words),
        SettingName::Group => set_group(words),
        SettingName::Member => set_member(words),
    }
}

fn set_hold(words: &[&[u8]]) -> Option<Setting>
    ensures { result ≡ set_by SettingName.Hold (map (λ w. w.now) words.now) }
{
    match words {
        [bytes] => Some(Setting::Hold(read_hold(bytes)?)),
        _ => None,
    }
}

fn read_hold(word: &[u8]) -> Option<u64>
    ensures { result ≡ hold_of word.now }
{
    let bytes = number(word, MAX_MARK)?;
    (bytes > 0).then_some(bytes)
}

fn set_filter(side: Side, dir: Dir, words: &[&[u8]]) -> Option<Setting>
    ensures { result ≡ set_by (SettingName.Filter side dir) (map (λ w. w.now) words.now) }
{
    match words {
        [filter] => Some(Setting::Filter(side, dir, filter_named(filter)?)),
        _ => None,
    }
}

fn set_marks(words: &[&[u8]]) -> Option<Setting>
    ensures { result ≡ set_by SettingName.Marks (map (λ w. w.now) words.now) }
{
    let [side, read_low, read_high, write_low, write_high] = words else {
        return None;
    };
    let side = read_side(side)?;
    let marks = read_marks(read_low, read_high, write_low, write_high)?;
    Some(Setting::Marks(side, marks))
}

/// The marks that these words spell.
fn read_marks(
    read_low: &[u8],
    read_high: &[u8],
    write_low: &[u8],
    write_high: &[u8],
) -> Option<Marks>
    ensures { result ≡ side_marks_of read_low.now read_high.now write_low.now write_high.now }
{
    let read_low = number(read_low, MAX_MARK)?;
    let read_high = number(read_high, MAX_MARK)?;
    let write_low = number(write_low, MAX_MARK)?;
    let write_high = number(write_high, MAX_MARK)?;
    Some(Marks {
        read_low,
        read_high,
        write_low,
        write_high,
    })
}

fn set_timeouts(words: &[&[u8]]) -> Option<Setting>
    ensures { result ≡ set_by SettingName.Timeouts (map (λ w. w.now) words.now) }
{
    let [side, read, write] = words else {
        return None;
    };
    let side = read_side(side)?;
    let timeouts = read_timeouts(read, write)?;
    Some(Setting::Timeouts(side, timeouts))
}

/// The timeouts that these words spell.
fn read_timeouts(read: &[u8], write: &[u8]) -> Option<Timeouts>
    ensures { result ≡ side_timeouts_of read.now write.now }
{
    let read_ms = number(read, MAX_TIMEOUT)?;
    let write_ms = number(write, MAX_TIMEOUT)?;
    Some(Timeouts { read_ms, write_ms })
}

fn set_rate(words: &[&[u8]]) -> Option<Setting>
    ensures { result ≡ set_by SettingName.Rate (map (λ w. w.now) words.now) }
{
    let (side, numbers) = words.split_first()?;
    let side = read_side(side)?;
    Some(Setting::Rate(side, limit(numbers)?))
}

fn set_group(words: &[&[u8]]) -> Option<Setting>
    ensures { result ≡ set_by SettingName.Group (map (λ w. w.now) words.now) }
{
    let [number, rr, rb, wr, wb, tick, share] = words else {
        return None;
    };
    let number = read_group(number)?;
    let cfg = limit(&[*rr, *rb, *wr, *wb, *tick])?;
    let share = read_share(share)?;
    Some(Setting::Group(number, GroupSet { cfg, share }))
}

fn set_member(words: &[&[u8]]) -> Option<Setting>
    ensures { result ≡ set_by SettingName.Member (map (λ w. w.now) words.now) }
{
    let [side, group] = words else {
        return None;
    };
    let side = read_side(side)?;
    Some(Setting::Member(side, read_group(group)?))
}

fn read_group(word: &[u8]) -> Option<u32>
    ensures { result ≡ group_of word.now }
{
    Some(number(word, MAX_GROUP)? as u32)
}

fn read_share(word: &[u8]) -> Option<u64>
    ensures { result ≡ share_of word.now }
{
    let bytes = number(word, MAX_SHARE)?;
    (bytes > 0).then_some(bytes)
}
