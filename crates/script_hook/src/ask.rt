// Lines of a plan become calls.
ghost use Rattle.std.specs.Prelude.{◌≡◌, []};
ghost use Rattle.relay_core.specs.Fires.{AsksOnce, answer_of};
ghost use Rattle.script_hook.specs.Planning.{AsksAct, AsksPlanned, acts_in};

use ev_types::{Act, PlanLine};
use relay_core::{AskFault, Ctl};

/// Asks for an act.
fn ask(ctl: &mut Ctl, act: Act) -> Result<(), AskFault>
    ensures { AsksOnce ctl.old act (answer_of result) ctl.new }
{
    match act {
        Act::Free(side) => ctl.free(side),
        Act::Enable(side, dir) => ctl.enable(side, dir),
        Act::Disable(side, dir) => ctl.disable(side, dir),
        Act::Marks(side, dir, low, high) => ctl.set_watermark(side, dir, low, high),
        Act::Timeouts(side, read, write) => ctl.set_timeouts(side, read, write),
        Act::Rate(side, cfg) => ctl.set_rate(side, cfg),
        Act::Join(side, group) => ctl.join_group(side, group),
        Act::Leave(side) => ctl.leave_group(side),
        Act::Trigger(side, dir) => ctl.trigger(side, dir),
        Act::Timer(side, delay) => ctl.add_timer(side, delay),
        Act::Cancel(side) => ctl.cancel_timer(side),
        Act::Incref(side) => ctl.incref(side),
        Act::Decref(side) => ctl.decref(side),
        Act::Stop => ctl.stop(),
    }
}

/// Asks what a line says.
fn ask_line(ctl: &mut Ctl, line: &PlanLine)
    ensures { AsksAct ctl.old line.now.act ctl.new }
{
    if let Some(act) = line.act {
        let _ = ask(ctl, act);
    }
}

/// Asks what the lines say, in their order. Linear in them.
pub(crate) fn ask_lines(ctl: &mut Ctl, lines: &[PlanLine])
    requires unasked { ctl.old.asks ≡ 0 }
    requires unrecorded { ctl.old.log ≡ [] }
    ensures { AsksPlanned (acts_in lines.now) ctl.old ctl.new }
{
    for line in lines {
        ask_line(ctl, line);
    }
}
