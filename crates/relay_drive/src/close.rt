// Closing what is to be closed of each link.
ghost use Rattle.std.specs.Prelude.{◌≡◌, ◌+◌, ◌<◌, ◌≤◌, true, false, [], ◌∷◌, length, is_some, Ok, OnOk};
ghost use Rattle.ev_types.specs.Growth.{Grew};
ghost use Rattle.ev_port.specs.Vouching.{LongerBy};
ghost use Rattle.ev_types.specs.declared.entry.Entry.{Entry as EntryValue};
ghost use Rattle.ev_port.specs.Calls.{IsUnheard};
ghost use Rattle.ev_port.specs.Counting.{counted};
ghost use Rattle.ev_port.specs.Faults.{FaultsStay};
ghost use Rattle.ev_port.specs.EndSteps.{AllWent, PortStays};
ghost use Rattle.relay_model.specs.Close.{freed_entry};
ghost use Rattle.relay_state.specs.Closing.{closing_entry};
ghost use Rattle.relay_core.specs.Steps.{link_of_step, close_step};
ghost use Rattle.relay_drive.specs.Steps.{Nothing};
ghost use Rattle.relay_drive.specs.Phases.{closing_events, told_events, told_step, Closes, LooksAt, ClosesLink, CutClosingLink};
ghost use Rattle.relay_drive.specs.Phases.{ForAllLinks, CutForAllLinks};
ghost use Rattle.relay_drive.specs.Links.{IsUncalled, IsSettled};
ghost use Rattle.relay_drive.specs.Agenda.{IsKept, KeepsNames, HasPlace, ClosingNoted};
ghost use Rattle.relay_drive.specs.Moves.{Does, OnlyForMemory};

use crate::agenda::{Agenda, next_link};
use crate::fault::DriveFault;
use crate::run::{Run, put};
use ev_port::{Port, Scribe};
use ev_types::{Cause, Entry, Side, SideId};
use relay_core::{Closing, Relay};

/// The most entries that one step of closing puts.
const MOST_ENTRIES: usize = 2;

/// Puts that a side is freed, in room that was made before.
fn put_freed<S: Scribe>(run: &mut Run, scribe: &mut S, side: SideId, cause: Cause)
    requires opened { side.link < run.old.relay.state.plain.opened }
    requires room { 0 < S.spare_entries scribe.old }
    ensures relay { run.new.relay ≡ run.old.relay }
    ensures counted { run.new.entries ≡ counted run.old.entries 1 }
    ensures list { Grew (S.trace scribe.old) (S.trace scribe.new) ((freed_entry run.old.relay.state.plain side cause, []) ∷ []) }
    ensures room { S.spare_entries scribe.old ≤ S.spare_entries scribe.new + 1 }
{
    let counts = run.relay.sides().counts(side);
    let entry = Entry::Freed {
        side,
        cause,
        moved: counts.moved,
        given: counts.given,
    };
    put(&mut run.entries, scribe, entry, &[]);
}

/// Tells the port of a step of closing.
fn tell<P: Port>(step: Closing, port: &mut P)
    ensures vouched { LongerBy (P.vouches port.old) (P.vouches port.new) (told_events step) }
    ensures unheard { (e : EntryValue) → IsUnheard e → LongerBy (P.vouches port.new) (P.vouches port.new) ((e, []) ∷ []) }
    ensures cause { FaultsStay (P.faults port.old) (P.faults port.new) }
    ensures ends { AllWent (P.ends port.old) (P.ends port.new) (told_step step) }
    ensures told { PortStays (P.told port.old) (P.told port.new) }
{
    match step {
        Closing::EndWriting(side) => port.close_write(side),
        Closing::Shut(side) => port.close(side),
        Closing::Faulty(_) | Closing::BothDone(_) | Closing::PeerGone(_) => {}
    }
}

/// Puts the entries of a step of closing that is called for, in room that was made before.
fn put_closing<S: Scribe>(run: &mut Run, step: Closing, scribe: &mut S)
    requires opened { link_of_step step < run.old.relay.state.plain.opened }
    requires due { is_some (closing_entry run.old.relay.state (close_step step)) ≡ true }
    requires room { 2 ≤ S.spare_entries scribe.old }
    ensures relay { run.new.relay ≡ run.old.relay }
    ensures counted { counted run.new.entries 0 ≡ counted run.old.entries (length (closing_events run.old.relay.state step)) }
    ensures list { Grew (S.trace scribe.old) (S.trace scribe.new) (closing_events run.old.relay.state step) }
{
    match step {
        Closing::Faulty(side) => {
            if let Some(cause) = run.relay.sides().fault(side) {
                put_freed(run, scribe, side, cause);
            }
        }
        Closing::EndWriting(side) => {
            put(&mut run.entries, scribe, Entry::CloseWrite { side }, &[])
        }
        Closing::BothDone(link) => {
            let near = SideId {
                link,
                side: Side::In,
            };
            put_freed(run, scribe, near, Cause::Done);
            put_freed(run, scribe, near.peer(), Cause::Done);
        }
        Closing::PeerGone(side) => put_freed(run, scribe, side, Cause::PeerGone),
        Closing::Shut(side) => put(&mut run.entries, scribe, Entry::Close { side }, &[]),
    }
}

/// Makes a step of closing, where it is called for. It answers whether it was.
fn close_step<P: Port, S: Scribe>(
    run: &mut Run,
    step: Closing,
    port: &mut P,
    scribe: &mut S,
) -> Result<bool, DriveFault>
    requires { link_of_step step < run.old.relay.state.plain.opened }
    ensures went { Does P.Port S.Scribe result (λ _. LooksAt step) Nothing
        (run.old, port.old, scribe.old) (run.new, port.new, scribe.new) }
    ensures called { result ≡ Ok false → (run.new.relay.state ≡ run.old.relay.state) × IsUncalled run.old.relay.state step }
    ensures kept { run.new.relay.state.plain.opened ≡ run.old.relay.state.plain.opened }
    ensures cause { OnlyForMemory result }
{
    if !run.relay.calls_for(step) {
        return Ok(false);
    }
    scribe.reserve(MOST_ENTRIES, 0)?;
    tell(step, port);
    put_closing(run, step, scribe);
    run.relay.close(step);
    Ok(true)
}

/// Closes what is to be closed of one link. It answers whether anything was.
fn close_link<P: Port, S: Scribe>(
    run: &mut Run,
    link: u32,
    port: &mut P,
    scribe: &mut S,
) -> Result<bool, DriveFault>
    requires { link < run.old.relay.state.plain.opened }
    ensures went { Does P.Port S.Scribe result (λ _. ClosesLink link) (CutClosingLink link)
        (run.old, port.old, scribe.old) (run.new, port.new, scribe.new) }
    ensures settled { result ≡ Ok false → (run.new.relay.state ≡ run.old.relay.state) × IsSettled run.old.relay.state link }
    ensures kept { run.new.relay.state.plain.opened ≡ run.old.relay.state.plain.opened }
    ensures cause { OnlyForMemory result }
{
    if run.relay.is_running(link) {
        return Ok(false);
    }
    let mut any = false;
    let steps = Closing::of(link);
    for step in steps.iter() {
        if close_step(run, *step, port, scribe)? {
            any = true;
        }
    }
    Ok(any)
}

/// Notes what closing came to at a link.
fn note_closing(relay: &Relay, agenda: &mut Agenda, link: u32, any: bool)
    requires opened { link < relay.now.state.plain.opened }
    requires places { HasPlace link agenda.old }
    ensures { ClosingNoted relay.now.state link any agenda.old agenda.new }
{
    if !any {
        agenda.to_close.remove(link as usize);
        return;
    }
    agenda.touch(link);
    if !relay.is_open(link) {
        agenda.maybe_open.remove(link as usize);
    }
}

/// Closes what is to be closed of one link. Where nothing was, nothing will be before something changes there.
fn close_next<P: Port, S: Scribe>(
    run: &mut Run,
    agenda: &mut Agenda,
    link: u32,
    port: &mut P,
    scribe: &mut S,
) -> Result<(), DriveFault>
    requires opened { link < run.old.relay.state.plain.opened }
    requires kept { IsKept agenda.old run.old.relay.state }
    ensures went { Does P.Port S.Scribe result (λ _. ClosesLink link) (CutClosingLink link)
        (run.old, port.old, scribe.old) (run.new, port.new, scribe.new) }
    ensures opened { run.new.relay.state.plain.opened ≡ run.old.relay.state.plain.opened }
    ensures cause { OnlyForMemory result }
    ensures kept { OnOk result (IsKept agenda.new run.new.relay.state) }
    ensures names { OnOk result (KeepsNames agenda.old run.old.relay.state agenda.new run.new.relay.state) }
{
    let any = close_link(run, link, port, scribe)?;
    note_closing(&run.relay, agenda, link, any);
    Ok(())
}

/// Closes what is to be closed of all links, in their order.
pub(crate) fn close<P: Port, S: Scribe>(
    run: &mut Run,
    agenda: &mut Agenda,
    port: &mut P,
    scribe: &mut S,
) -> Result<(), DriveFault>
    requires { IsKept agenda.old run.old.relay.state }
    ensures went { Does P.Port S.Scribe result (λ _. ForAllLinks ClosesLink) (CutForAllLinks ClosesLink CutClosingLink)
        (run.old, port.old, scribe.old) (run.new, port.new, scribe.new) }
    ensures cause { OnlyForMemory result }
    ensures kept { OnOk result (IsKept agenda.new run.new.relay.state) }
    ensures names { OnOk result (KeepsNames agenda.old run.old.relay.state agenda.new run.new.relay.state) }
{
    let mut from = 0;
    while let Some(link) = next_link(&agenda.to_close, from, run.relay.opened()) {
        close_next(run, agenda, link, port, scribe)?;
        from = link + 1;
    }
    Ok(())
}
