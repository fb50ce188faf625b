// All of the program but its words, its port and its streams: how it ends, and what it says of that.
ghost use Rattle.std.specs.Prelude.{◌≡◌, [], map, string_bytes, option_map, IfOk, IfErr};
ghost use Rattle.ev_types.specs.declared.status.Status.{Status};
ghost use Rattle.command_words.specs.ServeGrammar.{serve_words_of};
ghost use Rattle.command_words.specs.WordsStatus.{words_status};
ghost use Rattle.program_end.specs.Complains.{Complains};
ghost use Rattle.program_end.specs.EndStatus.{status_number};
ghost use Rattle.relay_serve.specs.Seen.{seen, drained, WasStopped};
ghost use Rattle.relay_serve.specs.Served.{DidWith};
ghost use Rattle.logging_relay.specs.EndLines.{patient, IsLogOf, LeavesBy};

use crate::end_log::EndLog;
use crate::relaying::relay_logged;
use command_words::BadWords;
use ev_port::{Port, Scribe, Sink};
use program_end::finish;
use std::alloc::Global;
use std::sync::Wait;

/// Relays as these words say, and says how that ended.
fn run_by<R: Wait, P: Port, K: Sink, L: Sink + Drop, E: Sink>(
    rt: &R,
    alloc: Global,
    words: &[String],
    port: &mut P,
    sink: &mut K,
    log: &mut EndLog<L>,
    errors: &mut E,
) -> u8
    ensures relayed { (ended : Status) × (result ≡ status_number ended)
        × DidWith (option_map patient (serve_words_of (map string_bytes words.now))) [] ended
        (seen P.Port ⟦<EndLog<L> as Scribe>⟧ (port.old, log.old)) (seen P.Port ⟦<EndLog<L> as Scribe>⟧ (port.new, log.new))
        (drained K.Sink sink.old) (drained K.Sink sink.new)
        × LeavesBy K.Sink ended port.old port.new log.old log.new sink.old sink.new
        × Complains ended (E.taken errors.old) (E.taken errors.new) (E.faults errors.old) (E.faults errors.new) }
    ensures logged { ∥ IsLogOf L.Sink log.new.told.trace log.new.out ∥₁ }
    ensures stopped { result ≡ 0 → WasStopped P.Port }
{
    let ended = relay_logged(rt, alloc, words, port, sink, log);
    finish(errors, ended)
}

/// Relays as its words say, says on the last sink how that ended, and answers the status of the process. The words are those after the
/// program's name, or why they can't be read: then that is said, and nothing else is done. It may never return.
///
/// Own.
pub fn run<R: Wait, P: Port, K: Sink, L: Sink + Drop, E: Sink>(
    rt: &R,
    alloc: Global,
    words: Result<Vec<String>, BadWords>,
    port: &mut P,
    sink: &mut K,
    log: &mut EndLog<L>,
    errors: &mut E,
) -> u8
    // What the relay did, by its status, and the line of that.
    ensures relayed { IfOk words (λ all. (ended : Status) × (result ≡ status_number ended)
        × DidWith (option_map patient (serve_words_of (map string_bytes all.items))) [] ended
        (seen P.Port ⟦<EndLog<L> as Scribe>⟧ (port.old, log.old)) (seen P.Port ⟦<EndLog<L> as Scribe>⟧ (port.new, log.new))
        (drained K.Sink sink.old) (drained K.Sink sink.new)
        × LeavesBy K.Sink ended port.old port.new log.old log.new sink.old sink.new
        × Complains ended (E.taken errors.old) (E.taken errors.new) (E.faults errors.old) (E.faults errors.new)) }
    ensures refused { IfErr words (λ bad. (result ≡ status_number (words_status bad))
        × Complains (words_status bad) (E.taken errors.old) (E.taken errors.new) (E.faults errors.old) (E.faults errors.new)
        × (port.new ≡ port.old) × (sink.new ≡ sink.old) × (log.new ≡ log.old)) }

    // The log is that of the trace, which the scribe tells.
    ensures logged { ∥ IsLogOf L.Sink log.new.told.trace log.new.out ∥₁ }

    // After a good end the port was told that no more links will be asked for.
    ensures stopped { result ≡ 0 → WasStopped P.Port }
{
    match words {
        Ok(words) => run_by(rt, alloc, &words, port, sink, log, errors),
        Err(bad) => finish(errors, bad.status()),
    }
}
