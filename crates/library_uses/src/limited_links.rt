// Two clients that say more at once than they may: a limit for each of them, and a rate group for both together.
ghost use Rattle.std.specs.Prelude.{IfOk};
ghost use Rattle.relay_core.specs.GivenGroups.{AreGroups};
ghost use Rattle.library_uses.specs.Turning.{MayTurn};

use ev_port::Mute;
use relay_core::Settings;
use relay_drive::{Drive, GroupSet, RateGroups, Seats};
use script_port::ScriptPort;
use script_text::read_script;
use std::alloc::Global;
use std::io::Print;
use token_bucket::LimitCfg;

/// Each says 20 bytes at once, and the second one comes a second later. Their targets take all.
const TWO_CLIENTS: &[u8] = b"
    at 0
    open
    r 0 in 3132333435363738393031323334353637383930
    w 0 out all
    at 0
    at 1000
    open
    r 1 in 3132333435363738393031323334353637383930
    w 1 out all
    at 2000
    at 3000
";

/// The relay over two clients, of which each may say 4 bytes a second, and both together 6.
pub fn two_limited_clients(rt: &impl Print, alloc: Global) -> anyhow::Result<()> {
    let settings = Settings {
        in_rate: Some(LimitCfg::new(4, 8, 4, 8, 1_000)?),
        ..Settings::usual()
    };
    let together = LimitCfg::new(6, 12, 6, 12, 1_000)?;
    let mut port = ScriptPort::new(alloc, read_script(alloc, TWO_CLIENTS)?)?;
    let mut seats = Seats::new(alloc, Vec::new(alloc))?;
    let mut drive = Drive::new(alloc, settings, of_clients(alloc, together)?, &seats)?;
    let answer = five_turns(rt, &mut drive, &mut seats, &mut port);
    drop(drive);
    drop(seats);
    answer
}

/// One group, of which the In side of each link is a member as it opens.
fn of_clients(alloc: Global, cfg: LimitCfg) -> anyhow::Result<RateGroups>
    ensures { IfOk result AreGroups }
{
    let mut groups = Vec::new(alloc);
    groups.push(GroupSet { cfg, share: 1 })?;
    Ok(RateGroups {
        groups,
        in_group: Some(0),
        out_group: None,
    })
}

// The drive is lent, so that it is let go at one place.
fn five_turns(
    rt: &impl Print,
    drive: &mut Drive,
    seats: &mut Seats,
    port: &mut ScriptPort,
) -> anyhow::Result<()>
    requires { MayTurn drive.old seats.old.hooks.items seats.old.gone.items }
{
    for turn in 1..6u32 {
        drive.turn(seats, port, &mut Mute::new())?;
        let (first, second) = (said(drive, 0), said(drive, 1));
        println!(rt; "turn {turn}: the clients said {first} and {second} bytes")?;
    }
    Ok(())
}

/// How many bytes were read from the client of a link.
fn said(drive: &Drive, link: u32) -> u64 {
    match drive.link(link) {
        Some(count) => count.in_read,
        None => 0,
    }
}
