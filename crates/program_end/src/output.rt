// Writes a text to a sink.
ghost use Rattle.std.specs.Prelude.{◌≡◌, ◌≤◌, ◌<◌, ℕ, take, length, OnOk, OnErr};
ghost use Rattle.ev_port.specs.FaultCounts.{Rose};
ghost use Rattle.ev_port.specs.StreamBytes.{TookOn};

use ev_port::{Given, Sink};
use thiserror::Error;

/// The sink failed before it took the whole text.
#[derive(Clone, Copy, Debug, PartialEq, Eq, Error)]
#[error("the sink failed")]
pub struct WriteFailed;

/// Writes the whole text, or a prefix of it where the sink failed. Takes no memory; linear in the text, beside what the
/// sink costs.
///
/// Own.
pub fn write_text<K: Sink>(sink: &mut K, text: &[u8]) -> Result<(), WriteFailed>
    ensures whole { OnOk result (TookOn (K.taken sink.old) (K.taken sink.new) text.now) }
    ensures calm { OnOk result (K.faults sink.new ≡ K.faults sink.old) }

    ensures prefix { OnErr result ((n : ℕ) × (n < length text.now) × TookOn (K.taken sink.old) (K.taken sink.new) (take n text.now)) }
    ensures fault { OnErr result (Rose (K.faults sink.old) (K.faults sink.new)) }
{
    let mut at = 0;
    while at < text.len() {
        let (_, rest) = text.split_at(at);
        match sink.write(rest) {
            Given::Took(count) => at += count,
            Given::Failed => return Err(WriteFailed),
        }
    }
    Ok(())
}
