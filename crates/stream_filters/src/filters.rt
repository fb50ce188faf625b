// The five filters, each a type of its own. All stand on one step, by their kind.
ghost use Rattle.std.specs.Prelude.{◌≡◌, true, [], length};
ghost use Rattle.ev_types.specs.declared.filter.FilterKind.TheVariants as kind_of;
ghost use Rattle.ev_types.specs.declared.filter.Mode.TheVariants as mode_of;
ghost use Rattle.filter_model.specs.FilterStep.{begun, stepped};
ghost use Rattle.stream_filters.specs.House.{MayHaveUsed, definition, reach};
ghost use Rattle.stream_filters.specs.StepAnswers.{Answers, is_last, is_spent, says_spent};
ghost use Rattle.stream_filters.specs.StreamSteps.{MakesStep};

use crate::fault::FilterFault;
use crate::knowledge::Knowledge;
use crate::step::step_by;
use crate::stream_filter::{Step, StreamFilter};
use ev_types::{FilterKind, Mode};
use std::marker::Model;

/// Gives every byte as it is.
///
/// Own.
#[derive(Drop)]
pub struct NoFilter {
    known: Knowledge,
}

impl Model for NoFilter {
    ghost use Rattle.filter_model.specs.Running.{Running};
    ghost use Rattle.ev_types.specs.declared.filter.FilterKind.TheVariants as kind_of;
    ghost use Rattle.stream_filters.specs.Knowledge.{running_of};

    ghost Value = { Running };

    ghost view = { λ f. running_of kind_of.None f.known };
}

impl NoFilter {
    /// A filter that has used nothing. Takes no memory; the cost is constant.
    pub fn new() -> NoFilter
        ensures begun { result ≡ begun kind_of.None }
        ensures unused { MayHaveUsed result [] }
    {
        NoFilter {
            known: Knowledge::new(),
        }
    }
}

impl StreamFilter for NoFilter {
    ghost use Rattle.stream_filters.specs.House.{MayHaveUsed, definition, reach};
    ghost use Rattle.stream_filters.specs.HouseLaws.{house_is_lawful};

    ghost filter = { definition };

    ghost reached = { reach };

    ghost known = { MayHaveUsed };

    ghost lawful = { house_is_lawful };

    fn used(&self) -> u64 {
        self.known.used
    }

    fn is_finished(&self) -> bool {
        self.known.finished
    }

    fn stopped(&self) -> Option<u64> {
        self.known.stopped
    }

    fn copied(&self) -> NoFilter {
        NoFilter { known: self.known }
    }

    fn step(
        &mut self,
        src: &[u8],
        dst: &mut Vec<u8>,
        limit: usize,
        mode: Mode,
    ) -> Result<Step, FilterFault>
        requires open { self.old.finished ≡ true → (src.now ≡ []) × (mode ≡ mode_of.Finished) }
        ensures answers { Answers result
            (stepped self.old (is_last mode) limit (length dst.old.items) src.now) self.old self.new dst.old.items dst.new.items }
        ensures spent { says_spent result ≡ is_spent self.old (length src.now) }
        ensures steps { MakesStep definition reach MayHaveUsed mode limit src.now result self.old self.new dst.old.items dst.new.items }
    {
        step_by(FilterKind::None, &mut self.known, src, dst, limit, mode)
    }
}

/// Gives CR LF for each LF that no CR precedes, and every other byte as it is.
///
/// Own.
#[derive(Drop)]
pub struct ToCrlf {
    known: Knowledge,
}

impl Model for ToCrlf {
    ghost use Rattle.filter_model.specs.Running.{Running};
    ghost use Rattle.ev_types.specs.declared.filter.FilterKind.TheVariants as kind_of;
    ghost use Rattle.stream_filters.specs.Knowledge.{running_of};

    ghost Value = { Running };

    ghost view = { λ f. running_of kind_of.ToCrlf f.known };
}

impl ToCrlf {
    /// A filter that has used nothing. Takes no memory; the cost is constant.
    pub fn new() -> ToCrlf
        ensures begun { result ≡ begun kind_of.ToCrlf }
        ensures unused { MayHaveUsed result [] }
    {
        ToCrlf {
            known: Knowledge::new(),
        }
    }
}

impl StreamFilter for ToCrlf {
    ghost use Rattle.stream_filters.specs.House.{MayHaveUsed, definition, reach};
    ghost use Rattle.stream_filters.specs.HouseLaws.{house_is_lawful};

    ghost filter = { definition };

    ghost reached = { reach };

    ghost known = { MayHaveUsed };

    ghost lawful = { house_is_lawful };

    fn used(&self) -> u64 {
        self.known.used
    }

    fn is_finished(&self) -> bool {
        self.known.finished
    }

    fn stopped(&self) -> Option<u64> {
        self.known.stopped
    }

    fn copied(&self) -> ToCrlf {
        ToCrlf { known: self.known }
    }

    fn step(
        &mut self,
        src: &[u8],
        dst: &mut Vec<u8>,
        limit: usize,
        mode: Mode,
    ) -> Result<Step, FilterFault>
        requires open { self.old.finished ≡ true → (src.now ≡ []) × (mode ≡ mode_of.Finished) }
        ensures answers { Answers result
            (stepped self.old (is_last mode) limit (length dst.old.items) src.now) self.old self.new dst.old.items dst.new.items }
        ensures spent { says_spent result ≡ is_spent self.old (length src.now) }
        ensures steps { MakesStep definition reach MayHaveUsed mode limit src.now result self.old self.new dst.old.items dst.new.items }
    {
        step_by(FilterKind::ToCrlf, &mut self.known, src, dst, limit, mode)
    }
}

/// Gives LF for each CR LF, and every other byte as it is. A CR is held until the next byte or the end.
///
/// Own.
#[derive(Drop)]
pub struct ToLf {
    known: Knowledge,
}

impl Model for ToLf {
    ghost use Rattle.filter_model.specs.Running.{Running};
    ghost use Rattle.ev_types.specs.declared.filter.FilterKind.TheVariants as kind_of;
    ghost use Rattle.stream_filters.specs.Knowledge.{running_of};

    ghost Value = { Running };

    ghost view = { λ f. running_of kind_of.ToLf f.known };
}

impl ToLf {
    /// A filter that has used nothing. Takes no memory; the cost is constant.
    pub fn new() -> ToLf
        ensures begun { result ≡ begun kind_of.ToLf }
        ensures unused { MayHaveUsed result [] }
    {
        ToLf {
            known: Knowledge::new(),
        }
    }
}

impl StreamFilter for ToLf {
    ghost use Rattle.stream_filters.specs.House.{MayHaveUsed, definition, reach};
    ghost use Rattle.stream_filters.specs.HouseLaws.{house_is_lawful};

    ghost filter = { definition };

    ghost reached = { reach };

    ghost known = { MayHaveUsed };

    ghost lawful = { house_is_lawful };

    fn used(&self) -> u64 {
        self.known.used
    }

    fn is_finished(&self) -> bool {
        self.known.finished
    }

    fn stopped(&self) -> Option<u64> {
        self.known.stopped
    }

    fn copied(&self) -> ToLf {
        ToLf { known: self.known }
    }

    fn step(
        &mut self,
        src: &[u8],
        dst: &mut Vec<u8>,
        limit: usize,
        mode: Mode,
    ) -> Result<Step, FilterFault>
        requires open { self.old.finished ≡ true → (src.now ≡ []) × (mode ≡ mode_of.Finished) }
        ensures answers { Answers result
            (stepped self.old (is_last mode) limit (length dst.old.items) src.now) self.old self.new dst.old.items dst.new.items }
        ensures spent { says_spent result ≡ is_spent self.old (length src.now) }
        ensures steps { MakesStep definition reach MayHaveUsed mode limit src.now result self.old self.new dst.old.items dst.new.items }
    {
        step_by(FilterKind::ToLf, &mut self.known, src, dst, limit, mode)
    }
}

/// Gives two lower-case hex digits for each byte.
///
/// Own.
#[derive(Drop)]
pub struct HexOut {
    known: Knowledge,
}

impl Model for HexOut {
    ghost use Rattle.filter_model.specs.Running.{Running};
    ghost use Rattle.ev_types.specs.declared.filter.FilterKind.TheVariants as kind_of;
    ghost use Rattle.stream_filters.specs.Knowledge.{running_of};

    ghost Value = { Running };

    ghost view = { λ f. running_of kind_of.HexOut f.known };
}

impl HexOut {
    /// A filter that has used nothing. Takes no memory; the cost is constant.
    pub fn new() -> HexOut
        ensures begun { result ≡ begun kind_of.HexOut }
        ensures unused { MayHaveUsed result [] }
    {
        HexOut {
            known: Knowledge::new(),
        }
    }
}

impl StreamFilter for HexOut {
    ghost use Rattle.stream_filters.specs.House.{MayHaveUsed, definition, reach};
    ghost use Rattle.stream_filters.specs.HouseLaws.{house_is_lawful};

    ghost filter = { definition };

    ghost reached = { reach };

    ghost known = { MayHaveUsed };

    ghost lawful = { house_is_lawful };

    fn used(&self) -> u64 {
        self.known.used
    }

    fn is_finished(&self) -> bool {
        self.known.finished
    }

    fn stopped(&self) -> Option<u64> {
        self.known.stopped
    }

    fn copied(&self) -> HexOut {
        HexOut { known: self.known }
    }

    fn step(
        &mut self,
        src: &[u8],
        dst: &mut Vec<u8>,
        limit: usize,
        mode: Mode,
    ) -> Result<Step, FilterFault>
        requires open { self.old.finished ≡ true → (src.now ≡ []) × (mode ≡ mode_of.Finished) }
        ensures answers { Answers result
            (stepped self.old (is_last mode) limit (length dst.old.items) src.now) self.old self.new dst.old.items dst.new.items }
        ensures spent { says_spent result ≡ is_spent self.old (length src.now) }
        ensures steps { MakesStep definition reach MayHaveUsed mode limit src.now result self.old self.new dst.old.items dst.new.items }
    {
        step_by(FilterKind::HexOut, &mut self.known, src, dst, limit, mode)
    }
}

/// Gives a byte for each two hex digits of either case. A byte that is no digit is bad, and so is an end behind an odd
/// digit.
///
/// Own.
#[derive(Drop)]
pub struct HexIn {
    known: Knowledge,
}

impl Model for HexIn {
    ghost use Rattle.filter_model.specs.Running.{Running};
    ghost use Rattle.ev_types.specs.declared.filter.FilterKind.TheVariants as kind_of;
    ghost use Rattle.stream_filters.specs.Knowledge.{running_of, IsDigitLast};

    ghost Value = { Running };

    ghost view = { λ f. running_of kind_of.HexIn f.known };

    ghost invariant = { λ f. IsDigitLast kind_of.HexIn f.known.last };
}

impl HexIn {
    /// A filter that has used nothing. Takes no memory; the cost is constant.
    pub fn new() -> HexIn
        ensures begun { result ≡ begun kind_of.HexIn }
        ensures unused { MayHaveUsed result [] }
    {
        HexIn {
            known: Knowledge::new(),
        }
    }
}

impl StreamFilter for HexIn {
    ghost use Rattle.stream_filters.specs.House.{MayHaveUsed, definition, reach};
    ghost use Rattle.stream_filters.specs.HouseLaws.{house_is_lawful};

    ghost filter = { definition };

    ghost reached = { reach };

    ghost known = { MayHaveUsed };

    ghost lawful = { house_is_lawful };

    fn used(&self) -> u64 {
        self.known.used
    }

    fn is_finished(&self) -> bool {
        self.known.finished
    }

    fn stopped(&self) -> Option<u64> {
        self.known.stopped
    }

    fn copied(&self) -> HexIn {
        HexIn { known: self.known }
    }

    fn step(
        &mut self,
        src: &[u8],
        dst: &mut Vec<u8>,
        limit: usize,
        mode: Mode,
    ) -> Result<Step, FilterFault>
        requires open { self.old.finished ≡ true → (src.now ≡ []) × (mode ≡ mode_of.Finished) }
        ensures answers { Answers result
            (stepped self.old (is_last mode) limit (length dst.old.items) src.now) self.old self.new dst.old.items dst.new.items }
        ensures spent { says_spent result ≡ is_spent self.old (length src.now) }
        ensures steps { MakesStep definition reach MayHaveUsed mode limit src.now result self.old self.new dst.old.items dst.new.items }
    {
        step_by(FilterKind::HexIn, &mut self.known, src, dst, limit, mode)
    }
}
