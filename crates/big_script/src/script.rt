// The script of a generated run.
ghost use Rattle.std.specs.Prelude.{◌≡◌, ◌++◌, IfOk, OnOk, Some};
ghost use Rattle.script_text.specs.Limits.{limit_of};
ghost use Rattle.script_text.specs.ScriptView.{turn_values};
ghost use Rattle.big_script.specs.BigScript.{big_script_of, big_settings, idle_turns, turns_with_each};

use crate::lines::{opening_lines, sending_lines};
use ev_types::{FilterKind, NoMemory, Settings, TurnLine};
use script_text::{Members, Script};
use std::alloc::Global;
use token_bucket::LimitCfg;

/// How many bytes come in for each link.
const EACH: usize = 3_000;

/// How far turns are apart, in milliseconds.
const APART: u64 = 1_000;

/// How many turns have no lines.
const IDLE: u64 = 10;

/// The limit of each In side.
fn rate() -> LimitCfg
    ensures { Some result ≡ limit_of 500 1000 500 1000 1000 }
{
    LimitCfg::new(500, 1_000, 500, 1_000, 1_000).unwrap()
}

/// What a generated run is started with. Takes no memory; constant cost.
fn settings() -> Settings
    ensures { result ≡ big_settings }
{
    let mut settings = Settings::usual();
    settings.hold = 4_096;
    settings.out_write = FilterKind::ToCrlf;
    settings.in_rate = Some(rate());
    settings
}

/// Puts the turns with no lines behind the others. After a refusal some of them may be there.
fn put_idle(alloc: Global, turns: &mut Vec<(u64, Vec<TurnLine>)>) -> Result<(), NoMemory>
    ensures { OnOk result (turn_values turns.new.items ≡ turn_values turns.old.items ++ idle_turns 10 2000) }
{
    for i in 0..IDLE {
        turns.push(((i + 2) * APART, Vec::new(alloc)))?;
    }
    Ok(())
}

/// The turns of a generated script.
fn turns(alloc: Global, links: u32) -> Result<Vec<(u64, Vec<TurnLine>)>, NoMemory>
    ensures { IfOk result (λ turns. turn_values turns.items ≡ turns_with_each 3000 links) }
{
    let mut turns = Vec::new(alloc);
    turns.push((0, opening_lines(alloc, links)?))?;
    turns.push((APART, sending_lines(alloc, EACH, links)?))?;
    put_idle(alloc, &mut turns)?;
    Ok(turns)
}

/// The script of so many links. In its first turn they are opened. In the second 3,000 bytes of a generator come in at the In end of each;
/// then both of its ends end, and both take any number. Ten turns with no lines follow. Takes memory for the script; linear in its bytes. A
/// refusal keeps nothing.
///
/// Own.
pub fn big_script(alloc: Global, links: u32) -> Result<Script, NoMemory>
    ensures { IfOk result (λ script. script ≡ big_script_of links) }
{
    let turns = turns(alloc, links)?;
    Ok(Script {
        settings: settings(),
        members: Members::none(),
        groups: Vec::new(alloc),
        plans: Vec::new(alloc),
        turns,
    })
}
