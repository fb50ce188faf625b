// Two bufferevents between which bytes move: each call that can want memory answers something else with ample memory, and worked
// lives. Both are lent, so that each is let go at one place.
ghost use Rattle.std.specs.Prelude.{◌≡◌, false};

use bev_core::{Bev, BevFault, Dir};
use std::alloc::Global;
use std::test::Fail;

/// A call on a first bufferevent, or on it and a second, with its answer; or what is seen of them then.
#[derive(Clone, Copy)]
enum Act {
    /// A call that succeeds.
    Set(Setting),
    Free(Result<(), BevFault>),
    Incref(Result<(), BevFault>),
    Decref(Result<(), BevFault>),
    Discard,
    /// Moves as many bytes, of which so many go.
    Cross(Dir, usize, usize),
    Pass(Dir, usize, usize),
    /// Copies bytes to a buffer in room that it makes, which is then so long.
    FeedReserved(Dir, &'static [u8], usize),
    /// Passes so many bytes in room that it makes, by which the second's buffer is so long.
    PassInRoom(Dir, usize, usize),
    SwapAcross(Dir),
    Sees(View),
}

/// A call that changes values or bytes of the first bufferevent.
#[derive(Clone, Copy)]
enum Setting {
    Write(&'static [u8]),
    Feed(Dir, &'static [u8]),
    Enable(Dir),
    Disable(Dir),
    Marks(Dir, u64, u64),
    Timeouts(u64, u64, u64),
    Touch(Dir, u64),
    Reserve(usize),
}

/// Values and bytes: those of a direction come before those of the other, and those of the first bufferevent are meant unless
/// it says otherwise.
#[derive(Clone, Copy)]
enum View {
    Enabled(bool, bool),
    ReadMarks(u64, u64),
    Timeouts(u64, u64),
    Activity(u64, u64),
    Live(bool),
    Refs(u32),
    OutputLength(u64),
    Input(&'static [u8]),
    Output(&'static [u8]),
    OtherInput(&'static [u8]),
    OtherOutput(&'static [u8]),
}

/// Whether a call answers as it says, or what is seen is as it says.
fn answers(from: &mut Bev, to: &mut Bev, act: Act) -> bool
    requires { from.old.chunked ≡ to.old.chunked }
    ensures { from.new.chunked ≡ to.new.chunked }
{
    match act {
        Act::Set(setting) => set(from, setting) == Ok(()),
        Act::Free(answer) => from.free() == answer,
        Act::Incref(answer) => from.incref() == answer,
        Act::Decref(answer) => give_back(from) == answer,
        Act::Discard => discard(from),
        Act::Cross(dir, n, count) => from.cross(dir, to, n) == Ok(count),
        Act::Pass(dir, n, count) => from.pass(dir, to, n) == Ok(count),
        Act::FeedReserved(dir, bytes, len) => feed_reserved(from, dir, bytes) == Ok(len),
        Act::PassInRoom(dir, n, len) => pass_in_room(from, dir, to, n) == Ok(len),
        Act::SwapAcross(dir) => swap_across(from, dir, to),
        Act::Sees(view) => sees(from, to, view),
    }
}

fn set(bev: &mut Bev, setting: Setting) -> Result<(), BevFault>
    ensures { bev.new.chunked ≡ bev.old.chunked }
{
    match setting {
        Setting::Write(bytes) => bev.write(bytes),
        Setting::Feed(dir, bytes) => bev.feed(dir, bytes),
        Setting::Enable(dir) => bev.enable(dir),
        Setting::Disable(dir) => bev.disable(dir),
        Setting::Marks(dir, low, high) => bev.set_watermark(dir, low, high),
        Setting::Timeouts(read, write, now) => bev.set_timeouts(read, write, now),
        Setting::Touch(dir, now) => bev.touch(dir, now),
        Setting::Reserve(n) => bev.reserve_input(n),
    }
}

fn sees(from: &Bev, to: &Bev, view: View) -> bool {
    let state = from.state();
    match view {
        View::Enabled(read, write) => (state.reading, state.writing) == (read, write),
        View::ReadMarks(low, high) => (state.read_low, state.read_high) == (low, high),
        View::Timeouts(read, write) => (state.read_ms, state.write_ms) == (read, write),
        View::Activity(read, write) => (state.last_read, state.last_write) == (read, write),
        View::Live(live) => state.live == live,
        View::Refs(refs) => state.refs == refs,
        View::OutputLength(len) => state.output == len,
        View::Input(bytes) => from.piece(Dir::Read) == Some(bytes),
        View::Output(bytes) => from.piece(Dir::Write) == Some(bytes),
        View::OtherInput(bytes) => to.piece(Dir::Read) == Some(bytes),
        View::OtherOutput(bytes) => to.piece(Dir::Write) == Some(bytes),
    }
}

fn give_back(bev: &mut Bev) -> Result<(), BevFault>
    ensures { bev.new.chunked ≡ bev.old.chunked }
{
    if bev.state().refs == 0 {
        return Err(BevFault::TooManyRefs);
    }
    bev.decref()
}

fn discard(bev: &mut Bev) -> bool
    ensures { bev.new.chunked ≡ bev.old.chunked }
{
    bev.discard();
    true
}

fn swap_across(from: &mut Bev, dir: Dir, to: &mut Bev) -> bool
    requires { from.old.chunked ≡ to.old.chunked }
    ensures { from.new.chunked ≡ to.new.chunked }
{
    from.swap_across(dir, to);
    true
}

fn feed_reserved(bev: &mut Bev, dir: Dir, bytes: &[u8]) -> Result<usize, BevFault>
    ensures { bev.new.chunked ≡ bev.old.chunked }
{
    bev.make_room(dir, bytes.len())?;
    bev.feed_reserved(dir, bytes);
    Ok(bev.len(dir))
}

fn pass_in_room(from: &mut Bev, dir: Dir, to: &mut Bev, n: usize) -> Result<usize, BevFault>
    requires { from.old.chunked ≡ to.old.chunked }
    ensures { from.new.chunked ≡ to.new.chunked }
{
    to.make_room(dir, n)?;
    from.pass_in_room(dir, to, n);
    Ok(to.len(dir))
}

/// The place of the first act that does not answer as it says.
fn first_wrong(from: &mut Bev, to: &mut Bev, acts: &[Act]) -> Option<usize>
    requires { from.old.chunked ≡ to.old.chunked }
{
    for (place, act) in acts.iter().enumerate() {
        if !answers(from, to, *act) {
            return Some(place);
        }
    }
    None
}

/// The same of new bufferevents, of which the second has these bytes in its input and in its output.
fn plays(
    alloc: Global,
    acts: &[Act],
    input: &[u8],
    output: &[u8],
) -> Result<Option<usize>, BevFault> {
    let mut to = Bev::new(alloc)?;
    let answer = plays_beside(&mut to, alloc, acts, input, output);
    drop(to);
    answer
}

fn plays_beside(
    to: &mut Bev,
    alloc: Global,
    acts: &[Act],
    input: &[u8],
    output: &[u8],
) -> Result<Option<usize>, BevFault>
    requires { to.old.chunked ≡ false }
{
    to.feed(Dir::Read, input)?;
    to.write(output)?;
    let mut from = Bev::new(alloc)?;
    let answer = first_wrong(&mut from, to, acts);
    drop(from);
    Ok(answer)
}

const SETTINGS: &[Act] = &[
    Act::Set(Setting::Write(b"ab")),
    Act::Set(Setting::Enable(Dir::Read)),
    Act::Set(Setting::Disable(Dir::Write)),
    Act::Set(Setting::Marks(Dir::Read, 2, 5)),
    Act::Set(Setting::Timeouts(100, 200, 7)),
    Act::Set(Setting::Touch(Dir::Write, 9)),
    Act::Set(Setting::Reserve(4)),
    Act::Sees(View::Enabled(true, false)),
    Act::Sees(View::ReadMarks(2, 5)),
    Act::Sees(View::Timeouts(100, 200)),
    Act::Sees(View::Activity(7, 9)),
];

#[test]
fn each_setting_is_kept(rt: HostRuntime) -> Result<(), Fail> {
    assert_eq!(rt; plays(rt.alloc(), SETTINGS, b"", b"")?, None);
    Ok(())
}

const FREED: &[Act] = &[
    Act::Set(Setting::Write(b"ab")),
    Act::Incref(Ok(())),
    Act::Free(Ok(())),
    Act::Sees(View::OutputLength(0)),
    Act::Incref(Err(BevFault::NotLive)),
    Act::Decref(Ok(())),
    Act::Sees(View::Refs(0)),
];

#[test]
fn a_free_drops_the_bytes_and_keeps_the_references(rt: HostRuntime) -> Result<(), Fail> {
    assert_eq!(rt; plays(rt.alloc(), FREED, b"", b"")?, None);
    Ok(())
}

const OUTPUT_MOVES: &[Act] = &[
    Act::Set(Setting::Write(b"abc")),
    Act::Cross(Dir::Write, 2, 2),
    Act::Pass(Dir::Write, 1, 1),
    Act::Sees(View::OtherInput(b"ab")),
    Act::Sees(View::OtherOutput(b"xc")),
];

#[test]
fn output_goes_to_the_end_of_another_input_or_output(rt: HostRuntime) -> Result<(), Fail> {
    assert_eq!(rt; plays(rt.alloc(), OUTPUT_MOVES, b"", b"x")?, None);
    Ok(())
}

const INPUT_MOVES: &[Act] = &[
    Act::Set(Setting::Feed(Dir::Read, b"xyz")),
    Act::Pass(Dir::Read, 2, 2),
    Act::Cross(Dir::Read, 9, 1),
    Act::Sees(View::OtherInput(b"xyzxy")),
    Act::Sees(View::OtherOutput(b"z")),
];

#[test]
fn input_goes_to_the_end_of_another_input_or_output(rt: HostRuntime) -> Result<(), Fail> {
    assert_eq!(rt; plays(rt.alloc(), INPUT_MOVES, b"xyz", b"")?, None);
    Ok(())
}

const ROOM_IS_MADE: &[Act] = &[
    Act::Set(Setting::Feed(Dir::Read, b"xyz")),
    Act::FeedReserved(Dir::Write, b"ab", 2),
    Act::FeedReserved(Dir::Write, b"cde", 5),
    Act::PassInRoom(Dir::Read, 1, 1),
    Act::PassInRoom(Dir::Write, 9, 5),
    Act::SwapAcross(Dir::Read),
    Act::Sees(View::Input(b"abcde")),
    Act::Sees(View::OtherInput(b"x")),
    Act::Sees(View::OtherOutput(b"yz")),
];

const EITHER_DIRECTION: &[Act] = &[
    Act::Set(Setting::Feed(Dir::Write, b"ab")),
    Act::FeedReserved(Dir::Read, b"cd", 2),
    Act::SwapAcross(Dir::Write),
    Act::Sees(View::Output(b"x")),
    Act::Sees(View::OtherInput(b"ab")),
    Act::PassInRoom(Dir::Read, 1, 3),
    Act::Sees(View::Input(b"d")),
    Act::Sees(View::OtherInput(b"abc")),
];

#[test]
fn each_call_does_the_same_in_the_other_direction(rt: HostRuntime) -> Result<(), Fail> {
    assert_eq!(rt; plays(rt.alloc(), EITHER_DIRECTION, b"x", b"")?, None);
    Ok(())
}

#[test]
fn bytes_go_into_room_that_was_made(rt: HostRuntime) -> Result<(), Fail> {
    assert_eq!(rt; plays(rt.alloc(), ROOM_IS_MADE, b"", b"")?, None);
    Ok(())
}

const DISCARDED: &[Act] = &[
    Act::Set(Setting::Write(b"ab")),
    Act::Discard,
    Act::Sees(View::Live(false)),
    Act::Sees(View::Output(b"")),
    Act::FeedReserved(Dir::Write, b"c", 1),
    Act::Discard,
    Act::Free(Err(BevFault::NotLive)),
    Act::Sees(View::Output(b"")),
];

#[test]
fn a_freed_one_is_discarded_too(rt: HostRuntime) -> Result<(), Fail> {
    assert_eq!(rt; plays(rt.alloc(), DISCARDED, b"", b"")?, None);
    Ok(())
}
