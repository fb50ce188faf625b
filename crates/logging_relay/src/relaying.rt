// The relay with its timeouts and its log.
ghost use Rattle.std.specs.Prelude.{◌≡◌, [], map, string_bytes, option_map};
ghost use Rattle.command_words.specs.ServeGrammar.{serve_words_of};
ghost use Rattle.relay_serve.specs.Seen.{seen, drained, WasStopped};
ghost use Rattle.relay_serve.specs.Served.{DidWith};
ghost use Rattle.logging_relay.specs.EndLines.{patience, patient, IsLogOf, LeavesBy};

use crate::end_log::EndLog;
use command_words::serve_words;
use ev_port::{Port, Scribe, Sink};
use ev_types::{Route, Settings, Status, Timeouts};
use relay_serve::relay;
use std::alloc::Global;
use std::sync::Wait;

/// How long a side may want something that doesn't come, in milliseconds.
const PATIENCE_MS: u64 = 60_000;

/// The timeouts of every side.
fn patience() -> Timeouts
    ensures { result ≡ patience }
{
    Timeouts {
        read_ms: PATIENCE_MS,
        write_ms: PATIENCE_MS,
    }
}

/// The way of the words, with timeouts, for which there are no words.
fn patient(route: Route) -> Route
    ensures { result ≡ patient route }
{
    Route {
        settings: Settings {
            in_timeouts: patience(),
            out_timeouts: patience(),
            ..route.settings
        },
        ..route
    }
}

/// Relays as these words say, with timeouts, and logs each end. It may never return.
///
/// Own.
pub fn relay_logged<R: Wait, P: Port, K: Sink, L: Sink + Drop>(
    rt: &R,
    alloc: Global,
    words: &[String],
    port: &mut P,
    sink: &mut K,
    log: &mut EndLog<L>,
) -> Status
    // What the call did: `relay_serve` says it of the words' addresses and settings, with those timeouts and no hooks.
    ensures did { DidWith (option_map patient (serve_words_of (map string_bytes words.now))) [] result
        (seen P.Port ⟦<EndLog<L> as Scribe>⟧ (port.old, log.old)) (seen P.Port ⟦<EndLog<L> as Scribe>⟧ (port.new, log.new))
        (drained K.Sink sink.old) (drained K.Sink sink.new) }
    ensures leaves { LeavesBy K.Sink result port.old port.new log.old log.new sink.old sink.new }
    ensures stopped { result ≡ Status.Ok → WasStopped P.Port }

    // And the log is that of all entries.
    ensures logged { ∥ IsLogOf L.Sink log.new.told.trace log.new.out ∥₁ }
{
    match serve_words(alloc, words) {
        Ok(route) => relay(rt, alloc, &patient(route), Vec::new(alloc), port, log, sink),
        Err(fault) => fault.status(),
    }
}
