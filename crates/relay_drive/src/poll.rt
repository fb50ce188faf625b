// Polling: what the sides want, and what the port marks of that.
ghost use Rattle.std.specs.Prelude.{◌≡◌, ◌+◌, ◌*◌, ◌<◌, ◌≤◌, ◌∷◌, [], false, length, MatchResult, OnOk, IsOk};
ghost use Rattle.ev_types.specs.Growth.{Grew};
ghost use Rattle.ev_port.specs.Counting.{counted};
ghost use Rattle.ev_port.specs.Polling.{ready_events};
ghost use Rattle.ev_port.specs.Table.{named, RowsStay};
ghost use Rattle.relay_drive.specs.Phases.{wanted, CutPoll, CutPolling, AllOpened};
ghost use Rattle.relay_drive.specs.Known.{Point, begun_if};
ghost use Rattle.relay_drive.specs.Links.{WantsAsSeen};
ghost use Rattle.relay_drive.specs.Agenda.{IsKept, IsNamed, IsUntold, CountsAreFew, SameBesideWants};
ghost use Rattle.relay_drive.specs.Naming.{NamedSide, NamedLink, OldRowsStay};
ghost use Rattle.relay_drive.specs.PollPhase.{PollsListed, PollsAndAcceptsListed};
ghost use Rattle.relay_drive.specs.Moves.{Moves, GetsTo, OnlyForMemory};

use crate::accept::accept;
use crate::agenda::{Agenda, next_link};
use crate::fault::DriveFault;
use crate::naming::Naming;
use crate::run::{Run, put};
use ev_port::{Polled, Port, Scribe, Want, WantTable};
use ev_types::{Entry, Side, SideId};
use relay_core::{Relay, Wants};

/// The table says of a side what it wants now.
fn name_side(relay: &Relay, wants: &mut WantTable, side: SideId)
    requires opened { side.link < relay.now.state.plain.opened }
    requires there { side.link < wants.old.links }
    ensures { NamedSide relay.now.state side wants.old wants.new }
{
    let Wants { read, write } = relay.wants_of(side);
    wants.set(side, read, write);
}

/// And of both sides of a link.
fn name_link(relay: &Relay, wants: &mut WantTable, link: u32)
    requires opened { link < relay.now.state.plain.opened }
    requires there { link < wants.old.links }
    ensures { NamedLink relay.now.state link wants.old wants.new }
{
    let near = SideId {
        link,
        side: Side::In,
    };
    name_side(relay, wants, near);
    name_side(relay, wants, near.peer());
}

/// Makes a place in the table for each opened link.
fn lengthen(relay: &Relay, wants: &mut WantTable) -> Result<(), DriveFault>
    requires { wants.old.links ≤ relay.now.state.plain.opened }
    ensures links { OnOk result (wants.new.links ≡ relay.now.state.plain.opened) }
    ensures rows { OnOk result (OldRowsStay wants.old wants.new) }
    ensures cause { OnlyForMemory result }
    ensures there { wants.old.links ≡ relay.now.state.plain.opened → IsOk result }
{
    for _ in wants.links()..relay.opened() {
        wants.push_link()?;
    }
    Ok(())
}

/// The table says what the sides want. Only the links are looked at of which it may not be right.
fn name_wants(relay: &Relay, agenda: &mut Agenda, naming: &mut Naming) -> Result<(), DriveFault>
    requires named { IsNamed agenda.old naming.old relay.now.state }
    requires seen { WantsAsSeen naming.old.seen.items relay.now.state }
    requires few { CountsAreFew relay.now.state }
    ensures named { OnOk result (named naming.new.table ≡ wanted relay.now.state) }
    ensures right { OnOk result (IsNamed agenda.new naming.new relay.now.state) }
    ensures same { SameBesideWants agenda.old agenda.new }
    ensures none_left { OnOk result (IsUntold agenda.new.to_name 0 relay.now.state.plain.opened) }
    ensures cause { OnlyForMemory result }
    ensures there { naming.old.table.links ≡ relay.now.state.plain.opened → IsOk result }
{
    lengthen(relay, &mut naming.table)?;
    let mut from = 0;
    while let Some(link) = next_link(&agenda.to_name, from, relay.opened()) {
        name_link(relay, &mut naming.table, link);
        agenda.to_name.remove(link as usize);
        from = link + 1;
    }
    Ok(())
}

/// Names what was marked of a want, in room that was made before.
fn put_mark<S: Scribe>(entries: &mut u64, scribe: &mut S, want: Want)
    requires { 0 < S.spare_entries scribe.old }
    ensures counted { counted entries.new 0 ≡ counted entries.old (length (ready_events (want ∷ []))) }
    ensures list { Grew (S.trace scribe.old) (S.trace scribe.new) (ready_events (want ∷ [])) }
    ensures room { S.spare_entries scribe.old ≤ S.spare_entries scribe.new + 1 }
{
    if want.can_read || want.can_write {
        let entry = Entry::Ready {
            side: want.side,
            read: want.can_read,
            write: want.can_write,
        };
        put(entries, scribe, entry, &[]);
    }
}

/// Names the marks, in room that was made before.
fn put_marks<S: Scribe>(entries: &mut u64, scribe: &mut S, wants: &[Want])
    requires { length wants.now ≤ S.spare_entries scribe.old }
    ensures counted { counted entries.new 0 ≡ counted entries.old (length (ready_events wants.now)) }
    ensures list { Grew (S.trace scribe.old) (S.trace scribe.new) (ready_events wants.now) }
{
    for want in wants {
        put_mark(entries, scribe, *want);
    }
}

/// For how many entries there must be room: a want and a mark of each side, and two.
fn most_entries(wants: &WantTable) -> usize
    ensures room { 2 * length (named wants.now) + 2 ≤ result }
    ensures no_more { result ≡ 4 * wants.now.links + 2 }
{
    4 * wants.links() as usize + 2
}

/// Polls for the wants of the table, and for links where more are allowed. It answers whether links are ready; the table lists the
/// wants that were marked.
fn ask_poll<P: Port, S: Scribe>(
    run: &mut Run,
    wants: &mut WantTable,
    port: &mut P,
    scribe: &mut S,
) -> Result<bool, DriveFault>
    requires { named wants.old ≡ wanted run.old.relay.state }
    ensures went { MatchResult result
        (λ accept. Moves P.Port S.Scribe Point.Begun (begun_if accept) false (PollsListed wants.new.list accept)
        (run.old, port.old, scribe.old) (run.new, port.new, scribe.new))
        (λ fault. Moves P.Port S.Scribe Point.Begun Point.Accepting false (CutPoll fault)
        (run.old, port.old, scribe.old) (run.new, port.new, scribe.new)) }
    ensures kept { run.new.relay ≡ run.old.relay }
    ensures rows { OnOk result (RowsStay wants.old wants.new) }
    ensures opened { OnOk result (AllOpened wants.new.list wants.old.links) }
{
    let count = wants.count();
    scribe.reserve(most_entries(wants), 0)?;
    let can_open = run.relay.can_open();
    let timeout = run.relay.poll_timeout();
    put(&mut run.entries, scribe, Entry::Poll { timeout }, &[]);
    scribe.put_wants(wants);
    run.entries = run.entries.saturating_add(count as u64);
    match port.poll_table(wants, can_open, timeout) {
        Polled::Ready { accept } => {
            put_marks(&mut run.entries, scribe, wants.list());
            Ok(accept)
        }
        Polled::Failed => {
            put(&mut run.entries, scribe, Entry::PollFailed, &[]);
            Err(DriveFault::PollFault)
        }
    }
}

/// Polls, and accepts the links that are ready. The table lists the wants that were marked.
pub(crate) fn poll<P: Port, S: Scribe>(
    run: &mut Run,
    agenda: &mut Agenda,
    naming: &mut Naming,
    port: &mut P,
    scribe: &mut S,
) -> Result<(), DriveFault>
    requires kept { IsKept agenda.old run.old.relay.state }
    requires named { IsNamed agenda.old naming.old run.old.relay.state }
    requires seen { WantsAsSeen naming.old.seen.items run.old.relay.state }
    requires few { CountsAreFew run.old.relay.state }
    ensures went { GetsTo P.Port S.Scribe result Point.Begun Point.Accepted (λ _. PollsAndAcceptsListed naming.new.table.list) CutPolling
        (run.old, port.old, scribe.old) (run.new, port.new, scribe.new) }
    ensures opened { OnOk result (AllOpened naming.new.table.list run.new.relay.state.plain.opened) }
    ensures kept { OnOk result (IsKept agenda.new run.new.relay.state) }
    ensures named { OnOk result (IsNamed agenda.new naming.new run.new.relay.state) }
{
    name_wants(&run.relay, agenda, naming)?;
    let ready = ask_poll(run, &mut naming.table, port, scribe)?;
    if !ready {
        return Ok(());
    }
    accept(run, agenda, port, scribe)?;
    Ok(())
}
