// Passing a link.
ghost use Rattle.std.specs.Prelude.{◌≡◌, ◌<◌, MatchResult, Ok, true, false};
ghost use Rattle.relay_state.specs.Closing.{in_side, out_side};
ghost use Rattle.relay_sides.specs.LinkPasses.{PassedLink, PartlyPassedLink, NoRoundOfLinkChanges};
ghost use Rattle.relay_sides.specs.Progress.{is_settled_from};
ghost use Rattle.relay_pool.specs.PoolValue.{KeepsBays};

use crate::bay::bay_of;
use crate::pool::LinkPool;
use ev_types::NoMemory;

impl LinkPool {
    /// Passes both directions of a link, that from In first: in each, rounds until one changes nothing, with this hold mark where the side
    /// that it ends at has none. It answers whether anything changed; where nothing did, a round changes nothing either until another call
    /// does, and no buffer of the link that has no byte holds memory. Takes memory for what a round may make, and none where there is
    /// nothing that one could do; want of it comes between two rounds. Linear in the bytes that wait in the link; constant where none
    /// does.
    ///
    /// Own.
    pub fn pass_link(&mut self, link: u32, hold: u64) -> Result<bool, NoMemory>
        requires { link < self.old.links.opened }
        ensures passed { MatchResult result
            (λ changed. PassedLink hold self.old.links link changed self.new.links)
            (λ _. PartlyPassedLink hold self.old.links link self.new.links) }
        ensures still { result ≡ Ok false → NoRoundOfLinkChanges hold self.old.links link }
        ensures settled { is_settled_from hold self.old.links (in_side link) ≡ true →
            is_settled_from hold self.old.links (out_side link) ≡ true → result ≡ Ok false }
        ensures bays { KeepsBays self.old self.new }
    {
        match bay_of(&self.links, link) {
            Some(bay) => self.sides.pass_link(bay, hold),
            None => Ok(false),
        }
    }
}
