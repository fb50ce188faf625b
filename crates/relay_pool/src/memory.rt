// What a link that is over was. It exists only in proofs.
ghost use Rattle.std.specs.Prelude.{◌≡◌};
ghost use Rattle.std.specs.Borrow.{ftrue};
ghost use Rattle.relay_sides.specs.Links.{Links};

use crate::change::SideChange;
use ev_types::SideId;
use relay_sides::Sides;
use std::marker::Model;

/// A link alone that only clauses read. It takes no memory, and its methods do nothing when they run.
///
/// Own.
#[derive(Drop)]
pub(crate) struct Memory {
    ghost kept: { Links },
}

impl Model for Memory {
    ghost also_owns = { λ _. ftrue };
}

impl Memory {
    ghost use Rattle.relay_pool.specs.Over.{changed_by, link_alone};

    /// Of the link of a side.
    pub(crate) fn of(_sides: &Sides, _side: &SideId) -> Memory
        ensures { result.kept ≡ link_alone _sides.now.links _side.now.link }
    {
        Memory {}
    }

    /// With a change.
    pub(crate) fn then(&self, _change: &SideChange) -> Memory
        ensures { result.kept ≡ changed_by _change.now self.now.kept }
    {
        Memory {}
    }
}
