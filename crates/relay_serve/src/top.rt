// All that a program does that relays over a port, as one call: words, port, turns, report.
ghost use Rattle.std.specs.Prelude.{◌≡◌, ◌≢◌, map, string_bytes};
ghost use Rattle.ev_types.specs.declared.status.Status.TheVariants as status;
ghost use Rattle.ev_types.specs.declared.status.Status.TheVariants.{Usage, Memory, WriteFault};
ghost use Rattle.command_words.specs.ServeGrammar.{serve_words_of};
ghost use Rattle.relay_drive.specs.Seats.{telling, seated_sides};
ghost use Rattle.relay_serve.specs.Seen.{seen, drained, WasStopped};
ghost use Rattle.relay_serve.specs.Served.{DidWith, AskedByPlans};

use crate::run::relay;
use command_words::serve_words;
use ev_port::{Port, Scribe, Sink};
use ev_types::Status;
use relay_drive::Hook;
use std::alloc::Global;
use std::sync::Wait;

/// Relays over a port as the words say, which are those after the program's name: it listens at one address, makes a connection to the
/// other for each that comes, and makes turns until so many links were opened as the words ask for and none is open. Then the report
/// is written. The hooks are those of `relay`. It may never return. Costs what `relay` does.
///
/// Own; libevent's sample le-proxy is such a program.
pub fn serve<R: Wait, P: Port, S: Scribe, K: Sink>(
    rt: &R,
    alloc: Global,
    words: &[String],
    hooks: Vec<Option<Box<dyn Hook>>>,
    port: &mut P,
    scribe: &mut S,
    sink: &mut K,
) -> Status
    // What the call did, by its status: for words that are not in the grammar usage, or out of memory; else the trace that a relay made
    // with their settings and these hooks, over a port that was started with their addresses and is tied to that trace, and its report.
    ensures did { DidWith (serve_words_of (map string_bytes words.now)) (seated_sides hooks.items) result
        (seen P.Port S.Scribe (port.old, scribe.old)) (seen P.Port S.Scribe (port.new, scribe.new))
        (drained K.Sink sink.old) (drained K.Sink sink.new) }

    // Where all was served the port was told that no more links will be asked for.
    ensures stopped { result ≡ status.Ok → WasStopped P.Port }

    // Hooks that tell plans asked what those have, by the entries that the scribe was given; but where memory ran out, a last fire may
    // have been cut off in which its hook asked anything.
    ensures asked { AskedByPlans (telling (λ h. heard h) (λ h. asked h) (λ h. planned h)) result hooks.items (S.trace scribe.old)
        (S.trace scribe.new) }

    // The words are looked at before all else.
    ensures untouched { result ≡ Usage → (port.new ≡ port.old) × (scribe.new ≡ scribe.old) × (sink.new ≡ sink.old) }
    ensures unwritten { result ≡ Memory → sink.new ≡ sink.old }
    ensures write_calm { result ≢ WriteFault → K.faults sink.new ≡ K.faults sink.old }
{
    match serve_words(alloc, words) {
        Ok(route) => relay(rt, alloc, &route, hooks, port, scribe, sink),
        Err(fault) => fault.status(),
    }
}
