// What is called of a bufferevent.
ghost use Rattle.std.specs.Prelude.{◌≡◌, ◌∷◌, [], true, OnOk};
ghost use Rattle.bev_world.specs.WorldValue.{is_live};
ghost use Rattle.bev_world.specs.Went.{Went};
ghost use Rattle.bev_world.specs.Runs.{told_more};

use crate::world::World;
use ev_types::{BevId, NoMemory, Why};

/// A callback of a bufferevent. It is lent the whole world, and may free any bufferevent in it, its own included.
///
/// Libevent: event2/bufferevent.h, `bufferevent_setcb`; "Bufferevents: concepts and basics".
/// Differs: one callback for all reasons.
pub trait Callback: Drop {
    ghost use Rattle.std.specs.Prelude.{ℕ, List, Option};
    ghost use Rattle.ev_types.specs.declared.why.Why.{Why};
    ghost use Rattle.bev_world.specs.Went.{Went};
    ghost use Rattle.bev_world.specs.WorldValue.{WorldValue};

    /// The reasons that it was called with, where it tells.
    ghost heard: { Self → Option (List Why) };

    /// What it may do as it stands, called at this number for this reason: to the world before, so that the world is this one
    /// after. Where it tells nothing of its own, what any call on a world may do.
    ghost may_do: { Self → ℕ → Why → WorldValue → WorldValue → Type 0 } = { λ _ _ _ old new. Went old new };

    /// Called for one reason. It calls the world as it likes; refused for want of memory, the batch ends here, and the next run
    /// goes on with its rest.
    fn call(&mut self, world: &mut World, id: BevId, why: Why) -> Result<(), NoMemory>
        requires live { is_live world.old id.0 ≡ true }
        ensures went { Went world.old world.new }
        ensures did { may_do self.old id.0 why world.old world.new }
        ensures heard { OnOk result (heard self.new ≡ told_more (heard self.old) (why ∷ [])) };
}
