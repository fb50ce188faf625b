// Passing both directions of each link at which passing may have something to do.
ghost use Rattle.std.specs.Prelude.{◌≡◌, ◌<◌, Bool, false, [], MatchResult, OnOk, Ok};
ghost use Rattle.relay_core.specs.BothPassed.{PassedBoth};
ghost use Rattle.relay_drive.specs.Agenda.{IsKept, KeepsNames, PassingNoted};
ghost use Rattle.relay_drive.specs.Moves.{OnlyForMemory};
ghost use Rattle.relay_drive.specs.Phases.{PassesLink, CutPassingLink, ForAllLinks, CutForAllLinks};

use crate::agenda::{Agenda, next_link};
use crate::fault::DriveFault;
use relay_core::Relay;

/// Passes the directions of a link. Where nothing changed, nothing will before something else does.
fn pass_next(relay: &mut Relay, agenda: &mut Agenda, link: u32) -> Result<(), DriveFault>
    requires opened { link < relay.old.state.plain.opened }
    requires kept { IsKept agenda.old relay.old.state }
    ensures went { MatchResult result
        (λ _. PassesLink link relay.old.state [] relay.new.state)
        (λ _. CutPassingLink link relay.old.state [] relay.new.state) }
    ensures opened { relay.new.state.plain.opened ≡ relay.old.state.plain.opened }
    ensures time { relay.new.state.plain.time ≡ relay.old.state.plain.time }
    ensures settings { relay.new.state.settings ≡ relay.old.state.settings }
    ensures cause { OnlyForMemory result }
    ensures kept { OnOk result (IsKept agenda.new relay.new.state) }
    ensures names { OnOk result (KeepsNames agenda.old relay.old.state agenda.new relay.new.state) }
    ensures noted { OnOk result ((changed : Bool) × PassedBoth relay.old.state link changed relay.new.state
        × PassingNoted link changed agenda.old agenda.new) }
{
    if relay.pass_link(link)? {
        agenda.touch(link);
    } else {
        agenda.to_pass.remove(link as usize);
    }
    Ok(())
}

/// Passes the directions of all links, in their order.
pub(crate) fn pass(relay: &mut Relay, agenda: &mut Agenda) -> Result<(), DriveFault>
    requires { IsKept agenda.old relay.old.state }
    ensures went { MatchResult result
        (λ _. ForAllLinks PassesLink relay.old.state [] relay.new.state)
        (λ _. CutForAllLinks PassesLink CutPassingLink relay.old.state [] relay.new.state) }
    ensures opened { relay.new.state.plain.opened ≡ relay.old.state.plain.opened }
    ensures time { relay.new.state.plain.time ≡ relay.old.state.plain.time }
    ensures settings { relay.new.state.settings ≡ relay.old.state.settings }
    ensures cause { OnlyForMemory result }
    ensures kept { OnOk result (IsKept agenda.new relay.new.state) }
    ensures names { OnOk result (KeepsNames agenda.old relay.old.state agenda.new relay.new.state) }
{
    let mut from = 0;
    while let Some(link) = next_link(&agenda.to_pass, from, relay.opened()) {
        pass_next(relay, agenda, link)?;
        from = link + 1;
    }
    Ok(())
}
