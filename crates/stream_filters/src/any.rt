// A filter whose kind is chosen when it is made.
ghost use Rattle.std.specs.Prelude.{◌≡◌, ◌≤◌, ◌<◌, ◌+◌, ◌^◌, true, [], length, take, min, vec_capacity, ◌-◌, ◌⊎◌};
ghost use Rattle.ev_types.specs.declared.filter.FilterKind.TheVariants as kind_of;
ghost use Rattle.ev_types.specs.declared.filter.Mode.TheVariants as mode_of;
ghost use Rattle.filter_model.specs.FilterStep.{begun, stepped};
ghost use Rattle.stream_filters.specs.House.{MayHaveUsed, definition, reach};
ghost use Rattle.stream_filters.specs.StepAnswers.{most_by_step, Answers, WasMade, AnswersInPlace, is_last, is_spent, says_spent};
ghost use Rattle.stream_filters.specs.StreamSteps.{MakesStep};

use crate::fault::FilterFault;
use crate::knowledge::Knowledge;
use crate::step::{hand_on, make, step_by, step_in_place};
use crate::stream_filter::{Step, StreamFilter};
use ev_types::{FilterKind, Mode};
use std::marker::Model;

/// One of the five filters.
///
/// Own.
#[derive(Drop)]
pub struct AnyFilter {
    kind: FilterKind,
    known: Knowledge,
}

impl Model for AnyFilter {
    ghost use Rattle.filter_model.specs.Running.{Running};
    ghost use Rattle.stream_filters.specs.Knowledge.{running_of, IsDigitLast};

    ghost Value = { Running };

    ghost view = { λ f. running_of f.kind f.known };

    ghost invariant = { λ f. IsDigitLast f.kind f.known.last };
}

impl AnyFilter {
    /// A filter of this kind that has used nothing. Takes no memory; the cost is constant.
    pub fn new(kind: FilterKind) -> AnyFilter
        ensures begun { result ≡ begun kind }
        ensures unused { MayHaveUsed result [] }
    {
        AnyFilter {
            kind,
            known: Knowledge::new(),
        }
    }

    /// Which filter it is. Takes no memory; the cost is constant.
    pub fn kind(&self) -> FilterKind
        ensures { result ≡ self.now.kind }
    {
        self.kind
    }

    /// The step of a filter that gives every byte as it is, where the target holds `held` bytes and the caller moves the
    /// bytes that the step used. Refused as a step is, but takes no memory; the cost is constant.
    pub fn step_in_place(
        &mut self,
        src: &[u8],
        held: usize,
        limit: usize,
        mode: Mode,
    ) -> Result<Step, FilterFault>
        requires kind { self.old.kind ≡ kind_of.None }
        requires open { self.old.finished ≡ true → (src.now ≡ []) × (mode ≡ mode_of.Finished) }
        ensures answers { AnswersInPlace result (stepped self.old (is_last mode) limit held src.now) self.old self.new src.now }
        ensures spent { says_spent result ≡ is_spent self.old (length src.now) }
    {
        step_in_place(&mut self.known, src, held, limit, mode)
    }

    /// A step in room that was made before, which is not refused; whether the stream ends behind the source is told. It answers
    /// how many bytes it used. A filter that is finished or has stopped does nothing. Takes no memory; the cost is in the length
    /// of the source.
    ///
    /// Own.
    pub fn make(&mut self, src: &[u8], dst: &mut Vec<u8>, limit: usize, over: bool) -> usize
        requires counted { self.old.used + length src.now < 2 ^ 64 }
        requires room { length dst.old.items + most_by_step self.old.kind (length src.now)
            (length dst.old.items) limit ≤ vec_capacity dst.old }
        ensures used { result ≡ (stepped self.old over limit (length dst.old.items) src.now).used }
        ensures made { WasMade (stepped self.old over limit (length dst.old.items) src.now) self.new dst.old.items dst.new.items }
        ensures capacity { vec_capacity dst.old ≤ vec_capacity dst.new }
    {
        make(self.kind, &mut self.known, src, dst, limit, over)
    }

    /// The same of a filter that gives every byte as it is, where the target holds `held` bytes and the caller moves the bytes
    /// that the step used. Takes no memory; the cost is constant.
    ///
    /// Own.
    pub fn hand_on(&mut self, src: &[u8], held: usize, limit: usize, over: bool) -> usize
        requires kind { self.old.kind ≡ kind_of.None }
        requires counted { self.old.used + length src.now < 2 ^ 64 }
        ensures used { result ≡ (stepped self.old over limit held src.now).used }
        ensures after { self.new ≡ (stepped self.old over limit held src.now).after }
        ensures made { (stepped self.old over limit held src.now).made ≡ take result src.now }
        ensures many { (result ≡ 0) ⊎ (result ≡ min (length src.now) (limit - held)) }
    {
        hand_on(&mut self.known, src, held, limit, over)
    }
}

impl StreamFilter for AnyFilter {
    ghost use Rattle.stream_filters.specs.House.{MayHaveUsed, definition, reach};
    ghost use Rattle.stream_filters.specs.HouseLaws.{house_is_lawful};

    ghost filter = { definition };

    ghost reached = { reach };

    ghost known = { MayHaveUsed };

    ghost lawful = { house_is_lawful };

    fn used(&self) -> u64 {
        self.known.used
    }

    fn is_finished(&self) -> bool {
        self.known.finished
    }

    fn stopped(&self) -> Option<u64> {
        self.known.stopped
    }

    fn copied(&self) -> AnyFilter {
        AnyFilter {
            kind: self.kind,
            known: self.known,
        }
    }

    fn step(
        &mut self,
        src: &[u8],
        dst: &mut Vec<u8>,
        limit: usize,
        mode: Mode,
    ) -> Result<Step, FilterFault>
        requires open { self.old.finished ≡ true → (src.now ≡ []) × (mode ≡ mode_of.Finished) }
        ensures answers { Answers result
            (stepped self.old (is_last mode) limit (length dst.old.items) src.now) self.old self.new dst.old.items dst.new.items }
        ensures spent { says_spent result ≡ is_spent self.old (length src.now) }
        ensures steps { MakesStep definition reach MayHaveUsed mode limit src.now result self.old self.new dst.old.items dst.new.items }
    {
        step_by(self.kind, &mut self.known, src, dst, limit, mode)
    }
}
