// The bays of links.
ghost use Rattle.std.specs.Prelude.{◌≡◌, ◌<◌, length, MatchOption};
ghost use Rattle.relay_pool.specs.Stays.{IsBay, IsOutOfBay, link_in, stay_at, at_stay, IsOverAs};

use crate::stay::{Over, Stay};
use ev_types::SideId;

/// The bay of a link. None where it is over.
pub(crate) fn bay_of(links: &Vec<Stay>, link: u32) -> Option<u32>
    requires { link < length links.now.items }
    ensures { MatchOption result (IsOutOfBay (stay_at links.now.items link))
        (λ bay. IsBay (stay_at links.now.items link) × (bay ≡ link_in (stay_at links.now.items link))) }
{
    match &links[link as usize] {
        Stay::Bay(bay) => Some(*bay),
        Stay::Over(_) => None,
    }
}

/// A side in the bay of its link. None where the link is over.
pub(crate) fn bay(links: &Vec<Stay>, side: SideId) -> Option<SideId>
    requires { side.link < length links.now.items }
    ensures { MatchOption result (IsOutOfBay (stay_at links.now.items side.link))
        (λ at. IsBay (stay_at links.now.items side.link) × (at ≡ at_stay (stay_at links.now.items side.link) side)) }
{
    let bay = bay_of(links, side.link)?;
    Some(SideId {
        link: bay,
        side: side.side,
    })
}

/// A side in the bay of its link, which is not over.
pub(crate) fn at(links: &Vec<Stay>, side: SideId) -> SideId
    requires opened { side.link < length links.now.items }
    requires there { IsBay (stay_at links.now.items side.link) }
    ensures { result ≡ at_stay (stay_at links.now.items side.link) side }
{
    bay(links, side).unwrap()
}

/// What is left of a link that is over.
pub(crate) fn left(links: &Vec<Stay>, link: u32) -> &Over
    requires opened { link < length links.now.items }
    requires left { IsOutOfBay (stay_at links.now.items link) }
    ensures { IsOverAs result.now (stay_at links.now.items link) }
{
    match &links[link as usize] {
        Stay::Over(over) => over,
        Stay::Bay(_) => unreachable!(),
    }
}
