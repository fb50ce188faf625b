// Closing a link: the steps in their order, whether one is called for, and what it changes.
ghost use Rattle.std.specs.Prelude.{◌≡◌, ◌<◌, true, is_some, map};
ghost use Rattle.relay_model.specs.Plain.{side_at, change_side};
ghost use Rattle.relay_model.specs.Plain as plain;
ghost use Rattle.relay_model.specs.Close.{closing_of, fault};
ghost use Rattle.relay_state.specs.State.{lane_at, with_plain, with_lane, lane_left, lane_lost};
ghost use Rattle.relay_state.specs.Closing.{is_complete, closing_entry, freed};
ghost use Rattle.relay_core.specs.Steps.{steps_of, link_of_step, close_step, after_closing, is_running_side, is_running, IsSettled};
ghost use Rattle.relay_core.specs.Steps.{LeavesWhereDone};

use crate::relay::Relay;
use ev_types::{Cause, Side, SideId};

/// A step of closing a link.
///
/// Own.
#[derive(Clone, Copy, Debug, PartialEq, Eq)]
pub enum Closing {
    /// A failed side is freed.
    Faulty(SideId),
    /// Writing is ended at a side to which all was given.
    EndWriting(SideId),
    /// Both sides of a link are freed, where writing was ended at both.
    BothDone(u32),
    /// A side is freed whose peer is freed and for which nothing waits.
    PeerGone(SideId),
    /// The end of a freed side is closed.
    Shut(SideId),
}

impl Closing {
    /// The steps of a link, in their order. Constant.
    pub fn of(link: u32) -> [Closing; 9]
        ensures steps { result ≡ steps_of link }
        ensures model { map close_step result ≡ closing_of link }
    {
        let near = SideId {
            link,
            side: Side::In,
        };
        let far = near.peer();
        [
            Closing::Faulty(near),
            Closing::Faulty(far),
            Closing::EndWriting(far),
            Closing::EndWriting(near),
            Closing::BothDone(link),
            Closing::PeerGone(near),
            Closing::PeerGone(far),
            Closing::Shut(near),
            Closing::Shut(far),
        ]
    }
}

impl Relay {
    ghost use Rattle.std.specs.Prelude.{◌==◌};
    ghost use Rattle.ev_types.specs.Sides.{peer};
    ghost use Rattle.relay_state.specs.Rooms.{output_length};

    /// Whether there is anything to do at a step of closing. Constant; takes no memory.
    pub fn calls_for(&self, step: Closing) -> bool
        requires { link_of_step step < self.now.state.plain.opened }
        ensures { result ≡ is_some (closing_entry self.now.state (close_step step)) }
    {
        let sides = &self.ctl.sides;
        match step {
            Closing::Faulty(side) => {
                let live = sides.is_live(side);
                live && sides.fault(side).is_some()
            }
            Closing::EndWriting(side) => {
                let flags = sides.flags(side);
                let peer_live = sides.is_live(side.peer());
                flags.live
                    && peer_live
                    && sides.is_complete(side.peer())
                    && !flags.connecting
                    && !flags.write_ended
            }
            Closing::BothDone(link) => {
                let near = SideId {
                    link,
                    side: Side::In,
                };
                let flags = sides.flags(near);
                let far_flags = sides.flags(near.peer());
                flags.live && far_flags.live && flags.write_ended && far_flags.write_ended
            }
            Closing::PeerGone(side) => {
                let peer_live = sides.is_live(side.peer());
                sides.is_live(side) && !peer_live && sides.output_len(side) == 0
            }
            Closing::Shut(side) => { !sides.is_live(side) && !sides.flags(side).closed }
        }
    }

    /// Whether a side was not freed, has not ended and is not faulty, and writing was not ended at it.
    fn is_running_side(&self, side: SideId) -> bool
        requires { side.link < self.now.state.plain.opened }
        ensures { result ≡ is_running_side (side_at self.now.state.plain side) }
    {
        let sides = &self.ctl.sides;
        let flags = sides.flags(side);
        flags.live && !flags.ended && !flags.write_ended && sides.fault(side).is_none()
    }

    /// Whether no side of a link was freed, has ended or is faulty, and writing was ended at neither. Then no step of closing is called
    /// for. Constant; takes no memory.
    ///
    /// Own.
    pub fn is_running(&self, link: u32) -> bool
        requires { link < self.now.state.plain.opened }
        ensures running { result ≡ is_running self.now.state link }
        ensures settled { result ≡ true → IsSettled self.now.state link }
    {
        let near = SideId {
            link,
            side: Side::In,
        };
        self.is_running_side(near) & self.is_running_side(near.peer())
    }

    /// Makes the change of a step of closing. Of a link that is over after it only what its report needs is kept. Takes no
    /// memory; constant.
    pub fn close(&mut self, step: Closing)
        requires { link_of_step step < self.old.state.plain.opened }
        ensures state { self.new.state ≡ after_closing self.old.state step }
        ensures left { LeavesWhereDone step self.new }
    {
        match step {
            Closing::Faulty(side) | Closing::PeerGone(side) => self.ctl.free_side(side),
            Closing::EndWriting(side) => self.ctl.sides.end_writing(side),
            Closing::BothDone(link) => {
                let near = SideId {
                    link,
                    side: Side::In,
                };
                self.ctl.free_side(near);
                self.ctl.free_side(near.peer());
            }
            Closing::Shut(side) => {
                self.ctl.sides.shut(side);
                self.ctl.sides.leave(side.link);
            }
        }
    }
}
