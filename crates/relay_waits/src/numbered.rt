// Sides by their numbers.
ghost use Rattle.std.specs.Prelude.{◌≡◌, ◌<◌, ◌^◌};
ghost use Rattle.ev_types.specs.Sides.{number as number_of_side};
ghost use Rattle.relay_waits.specs.Numbered.{side_numbered};

use ev_types::{Side, SideId};

/// The number of a side.
pub(crate) fn number_of(side: SideId) -> u64
    ensures number { result ≡ number_of_side side }
    ensures small { result < 2 ^ 33 }
{
    let link = side.link as u64;
    match side.side {
        Side::In => 2 * link,
        Side::Out => 2 * link + 1,
    }
}

/// The side with a number.
pub(crate) fn side_with(number: u64) -> SideId
    requires { number < 2 ^ 33 }
    ensures { result ≡ side_numbered number }
{
    let link = number / 2;
    let side = if 2 * link == number {
        Side::In
    } else {
        Side::Out
    };
    SideId {
        link: link as u32,
        side,
    }
}
