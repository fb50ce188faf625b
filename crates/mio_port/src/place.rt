// The place of an end, and the calls on it. Where no end is there they find nothing to do.
ghost use Rattle.std.specs.Prelude.{◌≡◌, ◌<◌, false, length, option_map};
ghost use Rattle.ev_port.specs.FaultCounts.{Counted};
ghost use Rattle.ev_port.specs.Ends.{ReadWithin, is_failed_read, WriteWithin, is_failed_write, is_failed_conn};
ghost use Rattle.mio_port.specs.EndAnswers.{connection_of, ReadBy, WrittenBy, CheckedBy};
ghost use Rattle.mio_port.specs.EndLeft.{LeftAt, ReadLeft, WriteLeft, CheckLeft};
ghost use Rattle.mio_port.specs.EndPlaces.{faults_of, is_ending};
ghost use Rattle.mio_port.specs.OneEnd.{closed_end, ended_end, handed_on_end, noticed_end, undelayed_end};

use crate::end::End;
use ev_types::{ConnAnswer, ReadAnswer, WriteAnswer};
use mio::event::Event;

pub(crate) fn read_at(place: &mut Option<End>, into: &mut [u8]) -> ReadAnswer
    requires { 0 < length into.old }
    ensures within { ReadWithin result (length into.new) }
    ensures cause { Counted (faults_of place.old) (faults_of place.new) (is_failed_read result) }
    ensures ending { is_ending place.new ≡ is_ending place.old }
    ensures by { ReadBy (connection_of place.old) result }
    ensures left { LeftAt (ReadLeft into.new result) place.old place.new }
{
    match place {
        Some(end) => end.read(into),
        None => ReadAnswer::NotYet,
    }
}

/// Where more is likely to follow the system may keep a short write back.
pub(crate) fn write_at(place: &mut Option<End>, from: &[u8], more_follows: bool) -> WriteAnswer
    requires { 0 < length from.now }
    ensures within { WriteWithin result (length from.now) }
    ensures cause { Counted (faults_of place.old) (faults_of place.new) (is_failed_write result) }
    ensures all_handed_on { is_ending place.new ≡ false }
    ensures by { WrittenBy (connection_of place.old) result }
    ensures left { LeftAt (WriteLeft more_follows from.now result) place.old place.new }
{
    match place {
        Some(end) => end.write(from, more_follows),
        None => WriteAnswer::NotYet,
    }
}

pub(crate) fn check_at(place: &mut Option<End>) -> ConnAnswer
    ensures cause { Counted (faults_of place.old) (faults_of place.new) (is_failed_conn result) }
    ensures ending { is_ending place.new ≡ is_ending place.old }
    ensures by { CheckedBy (connection_of place.old) result }
    ensures left { LeftAt (CheckLeft result) place.old place.new }
{
    match place {
        Some(end) => end.check(),
        None => ConnAnswer::Pending,
    }
}

pub(crate) fn notice_at(place: &mut Option<End>, event: &Event)
    ensures { place.new ≡ option_map (λ end. noticed_end end event.now) place.old }
{
    if let Some(end) = place {
        end.notice(event);
    }
}

/// Whether the end of writing is pending now.
pub(crate) fn close_write_at(place: &mut Option<End>) -> bool
    ensures ended { place.new ≡ option_map ended_end place.old }
    ensures pending { result ≡ is_ending place.new }
{
    match place {
        Some(end) => {
            end.close_write();
            end.is_ending()
        }
        None => false,
    }
}

pub(crate) fn hand_on_at(place: &mut Option<End>)
    ensures { place.new ≡ option_map handed_on_end place.old }
{
    if let Some(end) = place {
        end.hand_on();
    }
}

pub(crate) fn undelay_at(place: &mut Option<End>)
    ensures { place.new ≡ option_map undelayed_end place.old }
{
    if let Some(end) = place {
        end.undelay();
    }
}

pub(crate) fn close_at(place: &mut Option<End>)
    ensures { place.new ≡ option_map closed_end place.old }
{
    if let Some(end) = place {
        end.close();
    }
}
