// What a filter of a byte stream is.
ghost use Rattle.std.specs.Prelude.{◌≡◌, ℕ, true, []};
ghost use Rattle.ev_types.specs.declared.filter.Mode.TheVariants as mode_of;
ghost use Rattle.stream_filters.specs.StreamSteps.{IsStreamFilter, MakesStep};

use crate::fault::FilterFault;
use ev_types::Mode;

/// How far a step came.
///
/// Own.
#[derive(Clone, Copy, Debug, PartialEq, Eq)]
pub struct Step {
    /// How many bytes of the source it used.
    pub used: usize,
    /// No more will come, and all that the filter makes is in the target.
    pub finished: bool,
}

/// A filter of a byte stream: a function of the whole stream, computed piece by piece. The five of this crate are instances, and
/// anybody can write one more.
///
/// Libevent: event2/bufferevent.h, `bufferevent_filter_cb`; "Bufferevents: advanced topics", filters.
/// Differs: a filter is a function of the whole stream, and a mode other than Finished changes nothing.
pub trait StreamFilter: Drop {
    ghost use Rattle.std.specs.Prelude.{List};
    ghost use Rattle.filter_model.specs.Filter.{Filter};
    ghost use Rattle.stream_filters.specs.StreamSteps.{Reached};

    /// What it makes of its whole input, where it finds that bad, and what its end adds.
    ghost filter: { Self → Filter };

    /// How many bytes it used, whether it is finished, and the bad place at which it stopped.
    ghost reached: { Self → Reached };

    /// These may be the bytes that it used: what it keeps of them.
    ghost known: { Self → List ℕ → Type 0 };

    /// How many bytes it used since it was made. Takes no memory; the cost is constant.
    fn used(&self) -> u64
        ensures { result ≡ (reached self.now).used };

    /// Whether it is finished. Takes no memory; the cost is constant.
    fn is_finished(&self) -> bool
        ensures { result ≡ (reached self.now).finished };

    /// The bad place at which it stopped, or None where it goes on. Takes no memory; the cost is constant.
    fn stopped(&self) -> Option<u64>
        ensures { result ≡ (reached self.now).stopped };

    /// A filter that has come as far as this one. Takes no memory; the cost is constant.
    ///
    /// Own.
    fn copied(&self) -> Self
        ensures { result ≡ self.now };

    /// Uses bytes of the source and appends what they make to the target, until all are used or the target holds at least
    /// `limit` bytes, or the next byte is bad; with a target at the limit it uses and makes nothing. Where all are used and the
    /// mode is Finished, the stream ends there: what the end makes is appended once the target has room for it.
    ///
    /// Spent exactly where the filter goes on and the bytes used and offered are more than a u64 counts; then refused for want
    /// of memory, then as BadByte where the next byte is bad, or the end is, and the target is shorter than the limit. After
    /// that each later step answers the same place and uses nothing. A step of a finished filter is asked for an empty source
    /// and the mode Finished, and changes nothing.
    ///
    /// Takes memory for what the step can make at most. The cost is in the length of the source.
    fn step(
        &mut self,
        src: &[u8],
        dst: &mut Vec<u8>,
        limit: usize,
        mode: Mode,
    ) -> Result<Step, FilterFault>
        requires open { (reached self.old).finished ≡ true → (src.now ≡ []) × (mode ≡ mode_of.Finished) }
        ensures steps { MakesStep filter reached known mode limit src.now result self.old self.new dst.old.items dst.new.items };

    /// Its output is never taken back and stops before a bad place, and what it keeps of the bytes that it used is all that matters.
    ghost lawful: { IsStreamFilter filter reached known };
}
