// Closing turns: by how much the clock goes on in each, how many there may be, and a run that makes them.
ghost use Rattle.std.specs.Prelude.{◌≡◌, ◌+◌, ◌*◌, ◌-◌, ◌^◌, Ok, IfOk, IfErr, IsSomeAnd, List, fold, length, map, max, min};
ghost use Rattle.std.specs.Option.{option_map_or};
ghost use Rattle.ev_types.specs.ScriptTurn.{lines_of};
ghost use Rattle.ev_types.specs.declared.plan_line.PlanLine.{PlanLine};
ghost use Rattle.ev_types.specs.declared.side.SideId.{SideId};
ghost use Rattle.relay_model.specs.Called.{NamesOpened};
ghost use Rattle.relay_model.specs.Script.{closing_step};
ghost use Rattle.relay_core.specs.GivenGroups.{settings_given};
ghost use Rattle.relay_drive.specs.declared.fault.DriveFault.TheVariants.{Memory};
ghost use Rattle.relay_drive.specs.Seats.{telling, AreSeated};
ghost use Rattle.program_end.specs.Planned.{AllToldOf};
ghost use Rattle.script_port.specs.ScriptPlan.{first_plan};
ghost use Rattle.evplay.specs.Run.{AreSmall};
ghost use Rattle.evplay.specs.CameTo.{counted_most, CameToEnd, StandsAfter, ToldTo};

use crate::run::RunEnd;
use crate::turns::end_by;
use ev_port::Scribe;
use ev_types::Settings;
use rate_group::GroupSet;
use relay_drive::{Drive, DriveFault, RateGroups, Seats, TurnEnd};
use script_port::ScriptPort;
use token_bucket::LimitCfg;

/// How long a closing turn lasts where no limit is set, in milliseconds.
const SECOND_MS: u64 = 1_000;

/// The longer of a tick and of that of a limit, where one is set.
fn longer_tick(tick: u64, limit: Option<LimitCfg>) -> u64
    ensures { result ≡ max tick (option_map_or (λ cfg. cfg.tick_ms) limit 0) }
{
    match limit {
        Some(limit) => tick.max(limit.tick_ms()),
        None => tick,
    }
}

/// The longest of a tick and of those of some groups. Linear in the groups.
fn longest_tick(tick: u64, groups: &[GroupSet]) -> u64
    ensures { result ≡ fold (λ most n. max most n) tick (map (λ group. group.cfg.tick_ms) groups.now) }
{
    let mut longest = tick;
    for group in groups {
        longest = longest.max(group.cfg.tick_ms());
    }
    longest
}

/// By how much the clock goes on with each closing turn, in milliseconds: the longest tick of the limits of sides and of groups, or a
/// second where there is none. Linear in the groups.
pub(crate) fn closing_step(settings: &Settings, given: &RateGroups) -> u64
    ensures { (hooks : List SideId) → result ≡ closing_step (settings_given settings.now given.now hooks) }
{
    let of_sides = longer_tick(longer_tick(0, settings.in_rate), settings.out_rate);
    let longest = longest_tick(of_sides, &given.groups);
    if longest == 0 { SECOND_MS } else { longest }
}

/// The most closing turns: 4, and 10 for each byte that was not read, 8 for each in buffers, and 24 for each link that is open or waits to
/// be; 2^64 - 1 where that is more. Linear in the links.
fn most_closing_turns(drive: &Drive, port: &ScriptPort) -> u64
    ensures { result ≡ min (counted_most drive.now.state port.now) (2 ^ 64 - 1) }
{
    let links = u64::from(drive.open_links()).saturating_add(port.waiting() as u64);
    port.pending()
        .saturating_mul(10)
        .saturating_add(drive.buffered().saturating_mul(8))
        .saturating_add(links.saturating_mul(24))
        .saturating_add(4)
}

/// Makes closing turns until no link is open, or as many as the most; or up to one whose poll fails or which a hook ends. In each the clock
/// goes on by so much.
pub(crate) fn make_closing_turns<S: Scribe>(
    turns: usize,
    step: u64,
    seats: &mut Seats,
    drive: &mut Drive,
    port: &mut ScriptPort,
    scribe: &mut S,
) -> Result<RunEnd, DriveFault>
    requires small { AreSmall port.old.turns }
    requires names { NamesOpened 0 (lines_of port.old.turns) }
    requires links { drive.old.state.settings.links ≡ 256 }
    requires many { turns ≡ length port.old.turns }
    requires step { step ≡ closing_step drive.old.state.settings }
    requires stands { IsSomeAnd (S.trace scribe.old) (λ t. StandsAfter drive.old.state.settings turns (first_plan port.old.turns step)
        drive.old port.old t) }
    requires seated { AreSeated drive.old.state seats.old.hooks.items seats.old.gone.items }
    ensures came { IfOk result (λ end. IsSomeAnd (S.trace scribe.new) (CameToEnd drive.old.state.settings port.old.turns step end
        drive.new port.new)) }
    ensures told { (plan : SideId → List PlanLine) → IsSomeAnd (S.trace scribe.old)
        (AllToldOf (telling (λ h. heard (h.vtable, h.value)) (λ h. asked (h.vtable, h.value)) (λ h. planned (h.vtable, h.value))) plan
        seats.old.hooks.items seats.old.gone.items) →
        IfOk result (λ end. IsSomeAnd (S.trace scribe.new) (ToldTo (telling (λ h. heard (h.vtable, h.value))
        (λ h. asked (h.vtable, h.value)) (λ h. planned (h.vtable, h.value))) end plan seats.new.hooks.items seats.new.gone.items)) }
    ensures only_memory { IfErr result (λ fault. fault ≡ Memory) }
{
    let most = most_closing_turns(drive, port);
    let mut made = 0u64;
    while made < most && drive.has_open_links() {
        port.closing(step);
        match drive.turn(seats, port, scribe) {
            Ok(TurnEnd::Went) => made += 1,
            Ok(TurnEnd::Stopped(link)) => {
                return Ok(RunEnd::Stopped(link, (turns as u64 + made + 1) as u32));
            }
            Err(fault) => return end_by(fault),
        }
    }
    Ok(RunEnd::Went)
}
