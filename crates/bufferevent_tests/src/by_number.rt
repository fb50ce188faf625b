// Steps and asks of a bufferevent by its number, which look at no liveness, and what is seen of it then.
ghost use Rattle.std.specs.Prelude.{◌≡◌, false};

use crate::worlds::bring;
use bev_world::{BevId, Dir, World, WorldFault};

/// A step by number of a socket, or what is seen of it then.
#[derive(Clone, Copy)]
enum Act {
    Brings(&'static [u8]),
    Expires(Dir),
    Ends(Dir),
    Enables(Dir),
    Disables(Dir),
    Marks(Dir, u64, u64),
    Timeouts(u64, u64, u64),
    /// One reference more, or one less where there is one.
    Holds,
    LetsGo(bool),
    Drops,
    IsLive(bool),
    /// Whether reading and writing are enabled.
    Enabled(bool, bool),
    /// Whether an end and an error were met.
    Met(bool, bool),
    /// The length of the input, and when it was last read.
    Input(u64, u64),
    /// The low and the high mark of reading, and those of writing.
    MarksAre((u64, u64), (u64, u64)),
    /// Both timeouts, and when each direction was last active.
    TimesAre((u64, u64), (u64, u64)),
    References(u32),
}

/// Whether what is seen is as it says; a step is made.
fn answers(world: &mut World, id: BevId, act: Act) -> bool
    requires { world.old.chunked ≡ false }
    ensures { world.new.chunked ≡ false }
{
    let at = id.0 as usize;
    let Some(state) = world.state(id) else {
        return false;
    };
    match act {
        Act::Brings(bytes) => bring(world, at, bytes).is_ok(),
        Act::Expires(dir) => expire(world, at, dir),
        Act::Ends(dir) => end(world, at, dir),
        Act::Enables(dir) => enable(world, at, dir),
        Act::Disables(dir) => disable(world, at, dir),
        Act::Marks(dir, low, high) => mark(world, at, dir, low, high),
        Act::Timeouts(read, write, now) => set_timeouts(world, at, read, write, now),
        Act::Holds => hold(world, at),
        Act::LetsGo(some) => let_go(world, at) == some,
        Act::Drops => free_alone(world, at),
        Act::IsLive(live) => state.live == live,
        Act::Enabled(read, write) => (state.reading, state.writing) == (read, write),
        Act::Met(end, fault) => (state.ended, state.failed) == (end, fault),
        Act::Input(length, now) => (state.input, state.last_read) == (length, now),
        Act::MarksAre(read, write) => {
            (state.read_low, state.read_high) == read
                && (state.write_low, state.write_high) == write
        }
        Act::TimesAre(timeouts, active) => {
            (state.read_ms, state.write_ms) == timeouts
                && (state.last_read, state.last_write) == active
        }
        Act::References(n) => state.refs == n,
    }
}

fn enable(world: &mut World, at: usize, dir: Dir) -> bool
    requires { world.old.chunked ≡ false }
    ensures { world.new.chunked ≡ false }
{
    if at >= world.count() {
        return false;
    }
    world.enable_at(at, dir);
    true
}

fn disable(world: &mut World, at: usize, dir: Dir) -> bool
    requires { world.old.chunked ≡ false }
    ensures { world.new.chunked ≡ false }
{
    if at >= world.count() {
        return false;
    }
    world.disable_at(at, dir);
    true
}

fn mark(world: &mut World, at: usize, dir: Dir, low: u64, high: u64) -> bool
    requires { world.old.chunked ≡ false }
    ensures { world.new.chunked ≡ false }
{
    if at >= world.count() {
        return false;
    }
    world.set_watermark_at(at, dir, low, high);
    true
}

fn set_timeouts(world: &mut World, at: usize, read: u64, write: u64, now: u64) -> bool
    requires { world.old.chunked ≡ false }
    ensures { world.new.chunked ≡ false }
{
    if at >= world.count() {
        return false;
    }
    world.set_timeouts_at(at, read, write, now);
    true
}

fn hold(world: &mut World, at: usize) -> bool
    requires { world.old.chunked ≡ false }
    ensures { world.new.chunked ≡ false }
{
    if at >= world.count() || world.bev(at).references() == u32::MAX {
        return false;
    }
    world.incref_at(at);
    true
}

fn let_go(world: &mut World, at: usize) -> bool
    requires { world.old.chunked ≡ false }
    ensures { world.new.chunked ≡ false }
{
    if at >= world.count() || world.bev(at).references() == 0 {
        return false;
    }
    world.decref_at(at);
    true
}

fn expire(world: &mut World, at: usize, dir: Dir) -> bool
    requires { world.old.chunked ≡ false }
    ensures { world.new.chunked ≡ false }
{
    if at >= world.count() {
        return false;
    }
    world.expire_at(at, dir);
    true
}

fn end(world: &mut World, at: usize, dir: Dir) -> bool
    requires { world.old.chunked ≡ false }
    ensures { world.new.chunked ≡ false }
{
    if at >= world.count() {
        return false;
    }
    world.end_at(at, dir);
    true
}

fn free_alone(world: &mut World, at: usize) -> bool
    requires { world.old.chunked ≡ false }
    ensures { world.new.chunked ≡ false }
{
    if at >= world.count() {
        return false;
    }
    world.drop_at(at);
    true
}

const STEPS: &[Act] = &[
    Act::Brings(b"ab"),
    Act::Input(2, 7),
    Act::Enabled(true, true),
    Act::Expires(Dir::Read),
    Act::Enabled(false, true),
    Act::Met(false, false),
    Act::Ends(Dir::Write),
    Act::Enabled(false, false),
    Act::Met(true, false),
    Act::Drops,
    Act::IsLive(false),
    Act::Input(0, 7),
    // a freed one is stepped too
    Act::Brings(b"c"),
    Act::Input(1, 7),
];

const ASKS: &[Act] = &[
    Act::Enabled(true, true),
    Act::Disables(Dir::Write),
    Act::Enabled(true, false),
    Act::Disables(Dir::Read),
    Act::Enables(Dir::Write),
    Act::Enabled(false, true),
    Act::Marks(Dir::Write, 3, 4),
    Act::MarksAre((0, 0), (3, 4)),
    Act::Marks(Dir::Read, 1, 2),
    Act::MarksAre((1, 2), (3, 4)),
    Act::Timeouts(100, 200, 9),
    Act::TimesAre((100, 200), (9, 9)),
    Act::Holds,
    Act::Holds,
    Act::References(2),
    Act::LetsGo(true),
    Act::Drops,
    // a freed one keeps its values, and is asked too
    Act::References(1),
    Act::LetsGo(true),
    Act::LetsGo(false),
    Act::Marks(Dir::Read, 0, 8),
    Act::MarksAre((0, 8), (3, 4)),
    Act::Enabled(false, true),
];

/// The place of the first step of a socket, or of what is seen of it, that is not as it says.
fn first_wrong_step(world: &mut World, steps: &[Act]) -> Result<Option<usize>, WorldFault>
    requires { world.old.chunked ≡ false }
    ensures { world.new.chunked ≡ false }
{
    let id = world.new_socket()?;
    world.enable(id, Dir::Read)?;
    for (place, act) in steps.iter().enumerate() {
        if !answers(world, id, *act) {
            return Ok(Some(place));
        }
    }
    Ok(None)
}

#[test]
fn steps_by_number_look_at_no_liveness(rt: HostRuntime) {
    let mut world = World::in_one_piece(rt.alloc());
    let wrong = first_wrong_step(&mut world, STEPS);
    let wrong_ask = first_wrong_step(&mut world, ASKS);
    drop(world);
    assert_eq!(rt; wrong, Ok(None));
    assert_eq!(rt; wrong_ask, Ok(None));
}
