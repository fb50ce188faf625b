// What a hook that runs may ask: whether an ask is refused, and its record.
ghost use Rattle.std.specs.Prelude.{◌≡◌, ◌<◌, false, Err, None, OnOk, IfErr};
ghost use Rattle.ev_types.specs.AskNumbers.{IsAct};
ghost use Rattle.relay_model.specs.Asks.{refusal, names_no_live, has_bad_value, names_no_group, has_too_many, most_asks};
ghost use Rattle.relay_model.specs.Plain.{side_at};
ghost use Rattle.relay_core.specs.Named.{HasRoomForReference, NamesLinkBelow, NamesLive};
ghost use Rattle.relay_core.specs.Fires.{AsksOnce, IsRecorded, MayAsk, answer_of, fault_of};

use crate::ctl::Ctl;
use crate::fault::AskFault;
use ev_types::{Act, AskAnswer, Entry, SideId};

/// How many asks of one fire are heard.
pub(crate) const MOST_ASKS: u32 = 256;

/// The greatest mark, in bytes.
const MOST_MARK: u64 = 1 << 24;

/// The longest timeout or delay, in milliseconds.
const MOST_MS: u64 = 1 << 40;

/// The fault that a recorded refusal is.
fn fault_of(refused: AskAnswer) -> AskFault
    ensures { result ≡ fault_of refused }
{
    match refused {
        AskAnswer::NotLive => AskFault::NotLive,
        AskAnswer::NoGroup => AskFault::NoGroup,
        AskAnswer::BadValue => AskFault::BadValue,
        AskAnswer::TooManyRefs => AskFault::TooManyRefs,
        AskAnswer::Ok | AskAnswer::Memory => AskFault::Memory,
    }
}

impl Ctl {
    /// How many references the side has, opened or not.
    pub(crate) fn references(&self, side: SideId) -> u32
        ensures count { result ≡ (side_at self.now.state.plain side).references }
        ensures opened { 0 < result → side.link < self.now.state.plain.opened }
    {
        if side.link < self.sides.opened() {
            self.sides.references(side)
        } else {
            0
        }
    }

    /// Whether the side that an ask names was never opened or is freed.
    fn names_no_live(&self, act: &Act) -> bool
        ensures live { result ≡ names_no_live self.now.state.plain act.now }
        ensures opened { result ≡ false → NamesLinkBelow self.now.state.plain.opened act.now }
        ensures side { result ≡ false → NamesLive self.now.state.plain act.now }
    {
        match *act {
            Act::Free(side)
            | Act::Enable(side, _)
            | Act::Disable(side, _)
            | Act::Marks(side, ..)
            | Act::Timeouts(side, ..)
            | Act::Rate(side, _)
            | Act::Join(side, _)
            | Act::Leave(side)
            | Act::Trigger(side, _)
            | Act::Timer(side, _)
            | Act::Cancel(side)
            | Act::Incref(side) => !self.live(side),
            Act::Decref(side) => !self.live(side) && self.references(side) == 0,
            Act::Stop => false,
        }
    }

    /// Whether a value of an ask is out of range.
    fn has_bad_value(&self, act: &Act) -> bool
        ensures { result ≡ has_bad_value self.now.state.plain act.now }
    {
        match *act {
            Act::Marks(_, _, low, high) => low > MOST_MARK || high > MOST_MARK,
            Act::Timeouts(_, read, write) => read > MOST_MS || write > MOST_MS,
            Act::Leave(side) => self.group(side).is_none(),
            Act::Timer(_, delay) => delay > MOST_MS,
            Act::Decref(side) => self.references(side) == 0,
            _ => false,
        }
    }

    /// The group of a side, opened or not.
    fn group(&self, side: SideId) -> Option<u32>
        ensures { result ≡ (side_at self.now.state.plain side).group }
    {
        if side.link < self.sides.opened() {
            self.sides.group(side)
        } else {
            None
        }
    }

    /// Whether the group that an ask names doesn't exist.
    fn names_no_group(&self, act: &Act) -> bool
        ensures { result ≡ names_no_group self.now.state.settings act.now }
    {
        match *act {
            Act::Join(_, group) => group as usize >= self.given.groups.len(),
            _ => false,
        }
    }

    /// Whether there would be one reference too many.
    fn has_too_many(&self, act: &Act) -> bool
        ensures many { result ≡ has_too_many self.now.state.plain act.now }
        ensures room { result ≡ false → HasRoomForReference self.now.state.plain act.now }
    {
        match *act {
            Act::Incref(side) => self.references(side) == u32::MAX,
            _ => false,
        }
    }

    /// Why an ask is refused, by the first reason that there is.
    fn refusal(&self, act: &Act) -> Option<AskAnswer>
        ensures refusal { result ≡ refusal self.now.state.settings self.now.state.plain act.now }
        ensures opened { result ≡ None → NamesLinkBelow self.now.state.plain.opened act.now }
        ensures live { result ≡ None → NamesLive self.now.state.plain act.now }
        ensures room { result ≡ None → HasRoomForReference self.now.state.plain act.now }
    {
        if self.names_no_live(act) {
            return Some(AskAnswer::NotLive);
        }
        if self.has_bad_value(act) {
            return Some(AskAnswer::BadValue);
        }
        if self.names_no_group(act) {
            return Some(AskAnswer::NoGroup);
        }
        if self.has_too_many(act) {
            return Some(AskAnswer::TooManyRefs);
        }
        None
    }

    /// Records an ask, in room that was made before.
    pub(crate) fn record(&mut self, act: Act, answer: AskAnswer)
        requires few { self.old.asks < most_asks }
        ensures { IsRecorded act answer self.old self.new }
    {
        self.log
            .push(Entry::Asked {
                side: self.me,
                act,
                answer,
            })
            .unwrap();
        self.asks += 1;
    }

    /// Whether an ask may be done. One that is refused is recorded, but for one too many.
    pub(crate) fn may_ask(&mut self, act: Act) -> Result<(), AskFault>
        requires { IsAct act }
        ensures may { OnOk result (MayAsk act self.old self.new) }
        ensures refused { IfErr result (λ fault. AsksOnce self.old act (answer_of (Err fault)) self.new) }
    {
        if self.asks >= MOST_ASKS {
            return Err(AskFault::TooManyAsks);
        }
        if let Some(refused) = self.refusal(&act) {
            self.record(act, refused);
            return Err(fault_of(refused));
        }
        Ok(())
    }
}
