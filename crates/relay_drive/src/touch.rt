// Which links are to be looked at again for what a hook asked.
ghost use Rattle.std.specs.Prelude.{◌≡◌, ◌≤◌, ◌∷◌, []};
ghost use Rattle.relay_core.specs.Fires.{events_of};
ghost use Rattle.relay_drive.specs.Asked.{link_changed, link_changed_by, TouchedAsked};

use crate::agenda::Agenda;
use ev_types::{Act, AskAnswer, Entry};

/// The link of the side that an ask names, where it may change something of that.
fn link_changed(act: &Act) -> Option<u32>
    ensures { result ≡ link_changed act.now }
{
    match act {
        Act::Free(side)
        | Act::Enable(side, _)
        | Act::Disable(side, _)
        | Act::Marks(side, _, _, _)
        | Act::Timeouts(side, _, _)
        | Act::Rate(side, _)
        | Act::Join(side, _)
        | Act::Leave(side)
        | Act::Incref(side)
        | Act::Decref(side) => Some(side.link),
        Act::Trigger(_, _) | Act::Timer(_, _) | Act::Cancel(_) | Act::Stop => None,
    }
}

/// The link that an entry changes by what was asked.
fn link_changed_by(entry: &Entry) -> Option<u32>
    ensures { result ≡ link_changed_by entry.now }
{
    match entry {
        Entry::Asked {
            act,
            answer: AskAnswer::Ok,
            ..
        } => link_changed(act),
        _ => None,
    }
}

/// The link that an entry changes is to be looked at again.
fn touch_entry(agenda: &mut Agenda, entry: &Entry, opened: u32)
    requires pass { opened ≤ agenda.old.to_pass.len }
    requires close { opened ≤ agenda.old.to_close.len }
    requires want { opened ≤ agenda.old.to_name.len }
    requires live { opened ≤ agenda.old.maybe_open.len }
    ensures { TouchedAsked ((entry.now, []) ∷ []) opened agenda.old agenda.new }
{
    if let Some(link) = link_changed_by(entry) {
        if link < opened {
            agenda.touch(link);
        }
    }
}

/// The links that these entries change are to be looked at again. Linear in the entries.
pub(crate) fn touch_asked(agenda: &mut Agenda, log: &[Entry], opened: u32)
    requires pass { opened ≤ agenda.old.to_pass.len }
    requires close { opened ≤ agenda.old.to_close.len }
    requires want { opened ≤ agenda.old.to_name.len }
    requires live { opened ≤ agenda.old.maybe_open.len }
    ensures { TouchedAsked (events_of log.now) opened agenda.old agenda.new }
{
    for entry in log {
        touch_entry(agenda, entry, opened);
    }
}
