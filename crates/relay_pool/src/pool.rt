// The links of a pool.
ghost use Rattle.std.specs.Prelude.{◌≡◌, []};
ghost use Rattle.relay_sides.specs.Links.{no_links};
ghost use Rattle.relay_sides.specs.Pairs.{HasPairs};

use crate::stay::Stay;
use relay_sides::Sides;
use std::alloc::Global;
use std::marker::Model;

/// All links that were opened, with their sides and the directions between them. Calls on a side ask that its link was opened, and some
/// that a side of that link is live. It keeps a link whole in a bay of `Sides` until it is over, and some 72 bytes of it from then on.
///
/// Own.
#[derive(Drop)]
pub struct LinkPool {
    /// The links that are in bays.
    pub(crate) sides: Sides,
    /// Where each link is.
    pub(crate) links: Vec<Stay>,
    /// The link that is in each bay.
    pub(crate) owners: Vec<Option<u32>>,
    /// Bays that were given back, for the next links.
    pub(crate) free: Vec<u32>,
}

impl Model for LinkPool {
    ghost use Rattle.relay_pool.specs.PoolValue.{PoolValue};

    ghost Value = { PoolValue };

    ghost use Rattle.relay_pool.specs.PoolView.{pool_of, ArePooled};

    ghost view = { pool_of };

    ghost invariant = { ArePooled };
}

impl LinkPool {
    /// No link. Takes no memory; constant.
    ///
    /// Own.
    pub fn new(alloc: Global) -> LinkPool
        ensures links { result.links ≡ no_links }
        ensures kept { result.kept ≡ [] }
        ensures bays { result.bays ≡ 0 }
    {
        LinkPool {
            sides: Sides::new(alloc),
            links: Vec::new(alloc),
            owners: Vec::new(alloc),
            free: Vec::new(alloc),
        }
    }

    /// How many links were opened. There are two sides and two directions for each of them. Constant; takes no memory.
    ///
    /// Own.
    pub fn opened(&self) -> u32
        ensures count { result ≡ self.now.links.opened }
        ensures pairs { HasPairs self.now.links }
    {
        self.links.len() as u32
    }
}
