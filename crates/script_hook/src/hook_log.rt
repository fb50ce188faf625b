// What a hook was to ask, what it heard and what it asked. It exists only in proofs.
ghost use Rattle.std.specs.Prelude.{◌≡◌, ◌++◌, ◌∷◌, [], List};
ghost use Rattle.std.specs.Borrow.{ftrue};
ghost use Rattle.ev_types.specs.declared.act.Act.{Act};
ghost use Rattle.ev_types.specs.declared.answer.AskAnswer.{AskAnswer};
ghost use Rattle.ev_types.specs.declared.plan_line.PlanLine.{PlanLine as LineOf};
ghost use Rattle.ev_types.specs.declared.why.Why.{Why as WhyOf};
ghost use Rattle.relay_model.specs.Hooked.{asked_in};

use ev_types::{PlanLine, Why};
use relay_core::Ctl;
use std::marker::Model;

/// The lines of a plan.
#[derive(Clone, Copy, Drop)]
pub(crate) struct Plan<'a> {
    pub(crate) lines: &'a [PlanLine],
}

/// A fire: its reason, and the state that was lent, as the fire left it.
#[derive(Clone, Copy, Drop)]
pub(crate) struct Fire<'a> {
    pub(crate) why: Why,
    pub(crate) ctl: &'a Ctl,
}

/// The lines that a hook was handed, the reasons that it was called for, and what it asked and was answered. Only clauses read it; it takes
/// no memory, and its methods do nothing when they run.
#[derive(Drop)]
pub(crate) struct HookLog {
    ghost lines: { List LineOf },
    ghost heard: { List WhyOf },
    ghost asked: { List (Act × AskAnswer) },
}

impl Model for HookLog {
    ghost also_owns = { λ _. ftrue };
}

impl HookLog {
    /// Of no line and no fire.
    pub(crate) fn new() -> HookLog
        ensures { (result.lines ≡ []) × (result.heard ≡ []) × (result.asked ≡ []) }
    {
        HookLog {}
    }

    /// With these lines in the place of those before.
    pub(crate) fn planned(&self, _plan: &Plan<'_>) -> HookLog
        ensures { (result.lines ≡ _plan.now.lines.now) × (result.heard ≡ self.now.heard) × (result.asked ≡ self.now.asked) }
    {
        HookLog {}
    }

    /// With a fire more.
    pub(crate) fn then(&self, _fire: &Fire<'_>) -> HookLog
        ensures { (result.lines ≡ self.now.lines)
            × (result.heard ≡ self.now.heard ++ _fire.now.why ∷ [])
            × (result.asked ≡ self.now.asked ++ asked_in _fire.now.ctl.now.me _fire.now.ctl.now.log) }
    {
        HookLog {}
    }
}
