// What is called for a side.
ghost use Rattle.std.specs.Prelude.{◌≡◌, [], ◌∷◌, true, OnOk};
ghost use Rattle.std.specs.Option.{option_map};
ghost use Rattle.relay_model.specs.Plain.{is_live};
ghost use Rattle.relay_model.specs.Hooked.{asked_in};
ghost use Rattle.relay_core.specs.Fires.{Steps, told_more, HasAskedByPlan, HasToldNothing};

use crate::ctl::Ctl;
use ev_types::{NoMemory, PlanLine, Why};

/// The hook of a side. It is lent the relay's own state for a fire, and may free any side, its own too.
///
/// Own; libevent calls the callbacks of a bufferevent so: event2/bufferevent.h, `bufferevent_setcb`.
pub trait Hook: Drop {
    ghost use Rattle.std.specs.Prelude.{List, Option};
    ghost use Rattle.ev_types.specs.declared.why.Why.{Why};
    ghost use Rattle.ev_types.specs.declared.act.Act.{Act};
    ghost use Rattle.ev_types.specs.declared.answer.AskAnswer.{AskAnswer};
    ghost use Rattle.ev_types.specs.declared.plan_line.PlanLine.{PlanLine};

    /// The reasons that it was called for, in order, where it tells.
    ghost heard: { Self → Option (List Why) };

    /// What it asked and was answered, in order, but for asks refused as one too many, where it tells.
    ghost asked: { Self → Option (List (Act × AskAnswer)) };

    /// What it is to ask, where it tells.
    ghost planned: { Self → Option (List PlanLine) };

    /// Is handed what a script plans for it, before it is called for the first time. Refused for want of memory.
    fn plan(&mut self, lines: &[PlanLine]) -> Result<(), NoMemory>
        requires unheard { HasToldNothing (heard self.old) }
        requires unasked { HasToldNothing (asked self.old) }
        ensures heard { heard self.new ≡ heard self.old }
        ensures asked { asked self.new ≡ asked self.old }
        ensures planned { OnOk result (planned self.new ≡ option_map (λ _. lines.now) (planned self.old)) };

    /// Is called for one reason of the side `me` of the state that it is lent. It calls that as it likes. Refused for want of memory,
    /// the turn ends with it, once what was asked is recorded.
    fn fire(&mut self, ctl: &mut Ctl, why: Why) -> Result<(), NoMemory>
        requires live { is_live ctl.old.state.plain ctl.old.me ≡ true }
        requires unasked { ctl.old.asks ≡ 0 }
        requires unrecorded { ctl.old.log ≡ [] }
        ensures step { Steps ctl.old ctl.new }
        ensures heard { OnOk result (heard self.new ≡ told_more (heard self.old) (why ∷ [])) }
        ensures asked { OnOk result (asked self.new ≡ told_more (asked self.old) (asked_in ctl.old.me ctl.new.log)) }
        ensures planned { planned self.new ≡ planned self.old }
        ensures by_plan { HasAskedByPlan (planned self.old) (heard self.old) (asked self.old) →
            OnOk result (HasAskedByPlan (planned self.new) (heard self.new) (asked self.new)) };
}
