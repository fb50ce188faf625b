// The hook that a script plans.
ghost use Rattle.std.specs.Prelude.{◌≡◌, ◌∷◌, [], Some, true, OnErr, OnOk};
ghost use Rattle.std.specs.Option.{option_map};
ghost use Rattle.relay_model.specs.Hooked.{asked_in};
ghost use Rattle.relay_model.specs.Plain.{is_live};
ghost use Rattle.relay_model.specs.Plans.{kind_of};
ghost use Rattle.relay_core.specs.Fires.{HasAskedByPlan, HasToldNothing, Steps, told_more};
ghost use Rattle.script_hook.specs.Planning.{IsCountedOut};

use crate::ask::ask_lines;
use crate::fire_counts::{FireCounts, kind};
use crate::hook_log::{Fire, HookLog, Plan};
use crate::sorted_lines::{lines_at, sorted};
use ev_types::{NoMemory, PlanLine, Why};
use relay_core::{Ctl, Hook};
use std::alloc::Global;
use std::marker::Model;

/// A hook that asks what it was planned to ask: at its n-th fire for a kind of reason, the acts of the lines for that kind and number, in
/// their order. A line without an act asks nothing. It goes on behind an ask that is refused; what it asks beyond 256 in a fire is refused
/// and not recorded. It tells its lines, what it heard and what it asked.
///
/// A plan takes the place of the one before. Planning takes the time of a sort of the lines, and memory for a copy of them and for the
/// sort; where that is wanting, the hook stays as it was. A fire takes time logarithmic in the lines and linear in those for it, beside
/// what its asks take, and no memory but for the timers and groups that it asks for. The 2^64-th fire for a kind is refused as out of
/// memory, and asks nothing.
///
/// Own.
#[derive(Drop)]
pub struct ScriptHook {
    sorted: Vec<PlanLine>,
    fires: FireCounts,
    log: HookLog,
}

impl Model for ScriptHook {
    ghost use Rattle.std.specs.Prelude.{ℕ, ◌≡◌, filter};
    ghost use Rattle.std.specs.List.Sorted.{IsNonDecreasingBy};
    ghost use Rattle.ev_types.specs.declared.why.WhyKind.{WhyKind};
    ghost use Rattle.script_hook.specs.Counts.{Counts};
    ghost use Rattle.script_hook.specs.Keys.{line_key};
    ghost use Rattle.script_hook.specs.Planning.{HookValue, is_at};

    ghost Value = { HookValue };

    ghost view = { λ a. record { lines = a.log.lines; heard = a.log.heard; asked = a.log.asked } };

    ghost invariant = { λ a. record {
      sorted : IsNonDecreasingBy line_key a.sorted.items;
      same : (k : WhyKind) → (n : ℕ) → filter (is_at k n) a.sorted.items ≡ filter (is_at k n) a.log.lines;
      counted : Counts a.fires a.log.heard;
    } };
}

impl ScriptHook {
    /// With no lines, called for nothing yet, and having asked nothing. Constant; takes no memory.
    ///
    /// Own.
    pub fn new(alloc: Global) -> ScriptHook
        ensures heard { ⟦<ScriptHook as Hook>⟧.heard result ≡ Some [] }
        ensures asked { ⟦<ScriptHook as Hook>⟧.asked result ≡ Some [] }
        ensures planned { ⟦<ScriptHook as Hook>⟧.planned result ≡ Some [] }
    {
        ScriptHook {
            sorted: Vec::new(alloc),
            fires: FireCounts::new(),
            log: HookLog::new(),
        }
    }
}

/// It tells all that a hook can tell.
impl Hook for ScriptHook {
    ghost heard = { λ h. Some h.heard };

    ghost asked = { λ h. Some h.asked };

    ghost planned = { λ h. Some h.lines };

    fn plan(&mut self, lines: &[PlanLine]) -> Result<(), NoMemory>
        requires unheard { HasToldNothing (Some self.old.heard) }
        requires unasked { HasToldNothing (Some self.old.asked) }
        ensures refused { OnErr result (self.new ≡ self.old) }

        // What every hook says.
        ensures heard { Some self.new.heard ≡ Some self.old.heard }
        ensures asked { Some self.new.asked ≡ Some self.old.asked }
        ensures planned { OnOk result (Some self.new.lines ≡ option_map (λ _. lines.now) (Some self.old.lines)) }
    {
        self.sorted = sorted(*self.sorted.allocator(), lines)?;
        self.log = self.log.planned(&Plan { lines });
        Ok(())
    }

    fn fire(&mut self, ctl: &mut Ctl, why: Why) -> Result<(), NoMemory>
        requires live { is_live ctl.old.state.plain ctl.old.me ≡ true }
        requires unasked { ctl.old.asks ≡ 0 }
        requires unrecorded { ctl.old.log ≡ [] }
        ensures refused { OnErr result (IsCountedOut (kind_of why) self.old.heard × (self.new ≡ self.old) × (ctl.new ≡ ctl.old)) }

        // What every hook says.
        ensures step { Steps ctl.old ctl.new }
        ensures heard { OnOk result (Some self.new.heard ≡ told_more (Some self.old.heard) (why ∷ [])) }
        ensures asked { OnOk result (Some self.new.asked ≡ told_more (Some self.old.asked) (asked_in ctl.old.me ctl.new.log)) }
        ensures planned { Some self.new.lines ≡ Some self.old.lines }
        ensures by_plan { HasAskedByPlan (Some self.old.lines) (Some self.old.heard) (Some self.old.asked) →
            OnOk result (HasAskedByPlan (Some self.new.lines) (Some self.new.heard) (Some self.new.asked)) }
    {
        let kind = kind(why);
        let nth = self.fires.count(kind)?;
        ask_lines(ctl, lines_at(&self.sorted, kind, nth));
        self.log = self.log.then(&Fire { why, ctl });
        Ok(())
    }
}
