// All of the program but its words, its port and its streams: how the process ends, and what it says.
ghost use Rattle.std.specs.Prelude.{◌≡◌, ⊤, [], map, string_bytes, MatchOption, IfOk, IfErr};
ghost use Rattle.ev_types.specs.Trace.{Trace};
ghost use Rattle.ev_types.specs.declared.status.Status.{Status};
ghost use Rattle.program_end.specs.Complains.{Complains};
ghost use Rattle.program_end.specs.EndStatus.{status_number};
ghost use Rattle.command_words.specs.WordsStatus.{words_status};
ghost use Rattle.command_words.specs.ServeGrammar.{serve_words_of};
ghost use Rattle.relay_serve.specs.Seen.{drained, WasStopped};
ghost use Rattle.relay_serve.specs.Served.{DidWith, settings_on};
ghost use Rattle.evrelay.specs.Program.{seen_by, shows, Says, LeavesSink, LeavesAll};
ghost use Rattle.evrelay.specs.RingWants.{last_entries};
ghost use Rattle.evrelay.specs.Carried.{Carried, IsPassedOn, IsStartedBy};
ghost use Rattle.told_port.specs.Calls.{told_by, ends_by};

use crate::ring::Ring;
use command_words::BadWords;
use ev_port::{Port, Sink};
use ev_types::Status;
use program_end::{finish, process_status, write_text};
use relay_serve::serve;
use std::alloc::Global;
use std::sync::Wait;
use told_port::TellingPort;

/// Whether the last entries are shown after such an end.
fn shows(ended: Status) -> bool
    ensures { result ≡ shows ended }
{
    match ended {
        Status::PollFault | Status::OpenFault => true,
        _ => false,
    }
}

/// Says how the program ended, after a fault of its port with the last entries, and answers the status of its process. Where
/// that can't be written, the status still tells. Takes no memory.
fn say<E: Sink>(errors: &mut E, ended: Status, ring: &mut Ring) -> u8
    ensures number { result ≡ status_number ended }
    ensures said { Says ended (last_entries ring.old.told.trace) (E.taken errors.old) (E.taken errors.new) (E.faults errors.old) (E.faults errors.new) }
    ensures told { ring.new.told.trace ≡ ring.old.told.trace }
{
    if !shows(ended) {
        return finish(errors, ended);
    }
    ring.spell();
    match write_text(errors, &ring.text) {
        Ok(()) => finish(errors, ended),
        Err(_) => process_status(ended),
    }
}

/// Relays as these words say, and says how that ended, where there is memory for the ring.
fn relay_by<R: Wait, P: Port, K: Sink, E: Sink>(
    rt: &R,
    alloc: Global,
    words: &[String],
    port: &mut P,
    sink: &mut K,
    errors: &mut E,
) -> u8
    ensures served { (ended : Status) × (trace : Trace) × (result ≡ status_number ended)
        × DidWith (serve_words_of (map string_bytes words.now)) [] ended (seen_by P.Port port.old []) (seen_by P.Port port.new trace)
        (drained K.Sink sink.old) (drained K.Sink sink.new)
        × LeavesSink K.Sink ended sink.old sink.new
        × Says ended (last_entries trace) (E.taken errors.old) (E.taken errors.new) (E.faults errors.old) (E.faults errors.new)
        × LeavesAll ended port.old port.new sink.old sink.new }
    ensures stopped { result ≡ 0 → WasStopped P.Port }
{
    let Ok(mut ring) = Ring::new(alloc) else {
        return finish(errors, Status::Memory);
    };
    let ended = serve(rt, alloc, words, Vec::new(alloc), port, &mut ring, sink);
    say(errors, ended, &mut ring)
}

/// Relays as its words say, says on the last sink how that ended, and answers the status of the process. The words are those after
/// the program's name, or why they can't be read: then that is said, and nothing else is done. It may never return.
///
/// Own.
pub fn relay_program<R: Wait, P: Port, K: Sink, E: Sink>(
    rt: &R,
    alloc: Global,
    words: Result<Vec<String>, BadWords>,
    port: &mut P,
    sink: &mut K,
    errors: &mut E,
) -> u8
    ensures served { IfOk words (λ all. (ended : Status) × (trace : Trace) × (result ≡ status_number ended)
        × DidWith (serve_words_of (map string_bytes all.items)) [] ended (seen_by P.Port port.old []) (seen_by P.Port port.new trace)
        (drained K.Sink sink.old) (drained K.Sink sink.new)
        × LeavesSink K.Sink ended sink.old sink.new
        × Says ended (last_entries trace) (E.taken errors.old) (E.taken errors.new) (E.faults errors.old) (E.faults errors.new)
        × LeavesAll ended port.old port.new sink.old sink.new) }
    ensures stopped { result ≡ 0 → WasStopped P.Port }
    ensures refused { IfErr words (λ bad. (result ≡ status_number (words_status bad))
        × Complains (words_status bad) (E.taken errors.old) (E.taken errors.new) (E.faults errors.old) (E.faults errors.new)
        × (port.new ≡ port.old) × (sink.new ≡ sink.old)) }
{
    match words {
        Ok(words) => relay_by(rt, alloc, &words, port, sink, errors),
        Err(bad) => finish(errors, bad.status()),
    }
}

/// Does so over a port that tells and is new. So what is said of bytes is said of those that the reads of the port within gave and that
/// its writes took: end by end they are those of the trace, and whatever happened, those taken at an end are a prefix of what the filters
/// make of those given at its peer; where writing was ended there, they are all of that. The last start of the port within had the words'
/// addresses. It may never return.
///
/// Own.
pub fn relay_told<R: Wait, P: Port, K: Sink, E: Sink>(
    rt: &R,
    alloc: Global,
    words: Result<Vec<String>, BadWords>,
    port: &mut TellingPort<P>,
    sink: &mut K,
    errors: &mut E,
) -> u8
    requires new { port.old.log.calls ≡ [] }
    ensures served { IfOk words (λ all. (ended : Status) × (trace : Trace) × (result ≡ status_number ended)
        × DidWith (serve_words_of (map string_bytes all.items)) [] ended (seen_by ⟦<TellingPort<P> as Port>⟧ port.old [])
        (seen_by ⟦<TellingPort<P> as Port>⟧ port.new trace) (drained K.Sink sink.old) (drained K.Sink sink.new)
        × LeavesSink K.Sink ended sink.old sink.new
        × Says ended (last_entries trace) (E.taken errors.old) (E.taken errors.new) (E.faults errors.old) (E.faults errors.new)
        × LeavesAll ended port.old port.new sink.old sink.new
        × Carried trace (told_by port.new.log.calls) (ends_by port.new.log.calls)
        × MatchOption (serve_words_of (map string_bytes all.items)) ⊤ (λ route. IsPassedOn (settings_on route []) (ends_by port.new.log.calls))
        × MatchOption (serve_words_of (map string_bytes all.items)) ⊤ (λ route. IsStartedBy route ended (told_by port.new.log.calls))) }
    ensures stopped { result ≡ 0 → WasStopped ⟦<TellingPort<P> as Port>⟧ }
    ensures refused { IfErr words (λ bad. (result ≡ status_number (words_status bad))
        × Complains (words_status bad) (E.taken errors.old) (E.taken errors.new) (E.faults errors.old) (E.faults errors.new)
        × (port.new ≡ port.old) × (sink.new ≡ sink.old)) }
{
    relay_program(rt, alloc, words, port, sink, errors)
}
