// Passing a link.
ghost use Rattle.std.specs.Prelude.{◌≡◌, ◌<◌, MatchResult, false};
ghost use Rattle.relay_core.specs.BothPassed.{PassedBoth, PartlyPassedBoth, BothStandStill};

use crate::relay::Relay;
use ev_types::NoMemory;

impl Relay {
    /// Passes both directions of a link, that from In first: in each, rounds until one changes nothing. It answers whether the state
    /// changed; where it did not, a round changes nothing either until another call does, and no buffer of the link that has no byte holds
    /// memory. Takes memory for what a round may make; want of it comes between two rounds. Linear in the bytes that wait in the link;
    /// constant where none does.
    ///
    /// Own.
    pub fn pass_link(&mut self, link: u32) -> Result<bool, NoMemory>
        requires { link < self.old.state.plain.opened }
        ensures passed { MatchResult result
            (λ changed. PassedBoth self.old.state link changed self.new.state)
            (λ _. PartlyPassedBoth self.old.state link self.new.state) }
        ensures still { result ≡ Ok false → BothStandStill self.old.state link }
    {
        self.ctl.sides.pass_link(link, self.ctl.settings.hold)
    }
}
