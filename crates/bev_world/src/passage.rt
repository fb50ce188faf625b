// Through which filter bytes pass between two bufferevents: the one of the slot, or one that is lent.
ghost use Rattle.std.specs.Prelude.{◌≡◌, true};
ghost use Rattle.bev_filter.specs.Passing.{says_spent};
ghost use Rattle.bev_filter.specs.PassingBy.{AllKept};
ghost use Rattle.bev_world.specs.FilterSlots.{toward, IsOtherIn};

use bev_core::{Bev, Dir};
use bev_filter::{PassFault, process_input, process_input_by, process_output, process_output_by};
use ev_types::Mode;
use stream_filters::{AnyFilter, Step, StreamFilter};

/// What bytes pass through.
///
/// Own.
pub(crate) trait Passage {
    ghost use Rattle.std.specs.Prelude.{ℕ, Bool, Result};
    ghost use Rattle.token_bucket.specs.declared.limit.Dir.{Dir};
    ghost use Rattle.ev_types.specs.declared.filter.Mode.{Mode};
    ghost use Rattle.stream_filters.specs.declared.stream_filter.Step.{Step};
    ghost use Rattle.bev_filter.specs.declared.fault.PassFault.{PassFault};
    ghost use Rattle.bev_filter.specs.Passing.{Crossing};

    /// A step may be asked for.
    ghost may_step: { Self → Dir → Mode → Crossing → Type 0 };

    /// How a step goes up to a limit, by what it is before and after, and by what goes from the one bufferevent to the other.
    ghost passes: { Dir → ℕ → Mode → Self → Self → Crossing → Result Step PassFault → Crossing → Type 0 };

    /// It goes on, and would use more bytes than a u64 counts.
    ghost spent: { Self → Dir → Crossing → Bool };

    /// A step from the one bufferevent to the other, where `own` is the filter of the slot.
    fn process(
        &mut self,
        under: &mut Bev,
        over: &mut Bev,
        own: &mut AnyFilter,
        dir: Dir,
        limit: usize,
        mode: Mode,
    ) -> Result<Step, PassFault>
        requires live { under.old.live ≡ true }
        requires over_live { over.old.live ≡ true }
        requires open { may_step self.old dir mode (toward dir under.old over.old own.old) }
        ensures passes { passes dir limit mode self.old self.new (toward dir under.old over.old own.old) result
            (toward dir under.new over.new own.new) }
        ensures under { IsOtherIn dir under.old under.new }
        ensures over { IsOtherIn dir over.old over.new }
        ensures refused { AllKept result (toward dir under.old over.old own.old) (toward dir under.new over.new own.new) }
        ensures kept { AllKept result self.old self.new }
        ensures spent { says_spent result ≡ spent self.old dir (toward dir under.old over.old own.old) };
}

/// The filter of the slot itself.
#[derive(Drop)]
pub(crate) struct OwnFilter;

impl Passage for OwnFilter {
    ghost use Rattle.bev_filter.specs.Passing.{Passes};
    ghost use Rattle.bev_world.specs.FilterSlots.{IsOpenFor, is_own_spent};

    ghost may_step = { λ _ dir mode p. IsOpenFor p dir mode };

    ghost passes = { λ dir limit mode _ _ before answer after. Passes dir limit mode answer before after };

    ghost spent = { λ _ dir p. is_own_spent dir p };

    fn process(
        &mut self,
        under: &mut Bev,
        over: &mut Bev,
        own: &mut AnyFilter,
        dir: Dir,
        limit: usize,
        mode: Mode,
    ) -> Result<Step, PassFault> {
        match dir {
            Dir::Read => process_input(under, over, own, limit, mode),
            Dir::Write => process_output(under, over, own, limit, mode),
        }
    }
}

/// A filter that is lent.
pub(crate) struct LentFilter<F>(pub(crate) F);

impl<F: StreamFilter> Passage for LentFilter<F> {
    ghost use Rattle.bev_world.specs.LentFilters.{IsLentOpen, PassesLent, is_lent_spent};

    ghost may_step = { λ lent dir mode p. IsLentOpen (F.reached lent.0) dir mode p };

    ghost passes = { λ dir limit mode lent lent_after before answer after.
        PassesLent F.filter F.reached F.known dir limit mode lent.0 lent_after.0 before answer after };

    ghost spent = { λ lent dir p. is_lent_spent (F.reached lent.0) dir p };

    fn process(
        &mut self,
        under: &mut Bev,
        over: &mut Bev,
        _own: &mut AnyFilter,
        dir: Dir,
        limit: usize,
        mode: Mode,
    ) -> Result<Step, PassFault> {
        match dir {
            Dir::Read => process_input_by(under, over, &mut self.0, limit, mode),
            Dir::Write => process_output_by(under, over, &mut self.0, limit, mode),
        }
    }
}
