// The flags of events in a direction.
ghost use Rattle.std.specs.Prelude.{◌≡◌, ◌≤◌};
ghost use Rattle.bev_socket.specs.Results.{direction_flag};

use bev_core::{READING, WRITING};
use token_bucket::Dir;

// The flag of a direction.
pub(crate) fn direction_flag(dir: Dir) -> u8
    ensures flag { result ≡ direction_flag dir }
    ensures small { result ≤ 2 }
{
    match dir {
        Dir::Read => READING,
        Dir::Write => WRITING,
    }
}
