// Turns of a relay over links that are idle.
ghost use Rattle.std.specs.Prelude.{◌≡◌, None};
ghost use Rattle.relay_drive.specs.Seats.{AreSeated};

use ev_port::Mute;
use ev_types::TurnLine;
use relay_drive::{Drive, RateGroups, Seats, Settings};
use script_port::ScriptPort;
use script_text::{Members, Script};
use std::alloc::Global;

/// So many links open, and then so many turns are made in which nothing comes and nobody listens; how many turns were made.
pub fn idle_turns(alloc: Global, links: u32, turns: u32) -> anyhow::Result<u64> {
    let settings = Settings {
        links,
        ..Settings::usual()
    };
    let mut port = ScriptPort::new(alloc, opening(alloc, settings, links)?)?;
    turns_over(alloc, settings, turns, &mut port)
}

/// Makes them with a drive of its own, over a port that is lent.
fn turns_over(
    alloc: Global,
    settings: Settings,
    turns: u32,
    port: &mut ScriptPort,
) -> anyhow::Result<u64> {
    let mut seats = Seats::new(alloc, Vec::new(alloc))?;
    let groups = RateGroups::none(alloc);
    let mut drive = Drive::new(alloc, settings, groups, &seats)?;
    let made = make_turns(turns, &mut drive, &mut seats, port);
    drop(drive);
    drop(seats);
    made
}

fn make_turns(
    turns: u32,
    drive: &mut Drive,
    seats: &mut Seats,
    port: &mut ScriptPort,
) -> anyhow::Result<u64>
    requires { drive.old.kept ≡ None → AreSeated drive.old.state seats.old.hooks.items seats.old.gone.items }
{
    let mut made = 0u64;
    for _ in 0..turns {
        drive.turn(seats, port, &mut Mute::new())?;
        made = made.saturating_add(1);
    }
    Ok(made)
}

/// A script of one turn, in which all links come.
fn opening(alloc: Global, settings: Settings, links: u32) -> anyhow::Result<Script> {
    let mut lines = Vec::new(alloc);
    for _ in 0..links {
        lines.push(TurnLine::NewLink { wait: false })?;
    }
    let mut turns = Vec::new(alloc);
    turns.push((0, lines))?;
    Ok(Script {
        settings,
        members: Members::none(),
        groups: Vec::new(alloc),
        plans: Vec::new(alloc),
        turns,
    })
}
