// Who looks at the wants of a poll one by one.
ghost use Rattle.std.specs.Prelude.{◌≡◌};

use crate::Want;

/// What a poll does with one want: it marks what of it can be done, and may count it.
///
/// Own.
pub trait MarkWant {
    ghost use Rattle.ev_port.specs.declared.port.Want.{Want};

    /// The want with its marks.
    ghost marked: { Self → Want → Want };

    /// What the one who marks is then.
    ghost after: { Self → Want → Self };

    /// Marks a want. Takes no memory.
    fn mark(&mut self, want: Want) -> Want
        ensures marks { result ≡ marked self.old want }
        ensures after { self.new ≡ after self.old want };
}
