// All that the program does, as one call: words, source, script, what it comes to, sink, in this order.
ghost use Rattle.std.specs.Prelude.{◌≡◌, ◌≢◌, ◌+◌, ◌^◌, None, map, string_bytes};
ghost use Rattle.ev_port.specs.FaultCounts.{Rose};
ghost use Rattle.ev_port.specs.StreamBytes.{GaveCount, GaveAtMost};
ghost use Rattle.command_words.specs.ModeGrammar.{mode_of};
ghost use Rattle.std.specs.List.{All};
ghost use Rattle.relay_drive.specs.Seats.{telling};
ghost use Rattle.program_end.specs.Planned.{IsFresh};
ghost use Rattle.evplay.specs.HandedIn.{handed_in};
ghost use Rattle.evplay.specs.Play.{DidWith, ReadsNothing};
ghost use Rattle.evplay.specs.PlayCauses.{IsUnwritten};

use crate::input::{ReadStop, text_for};
use crate::outcome::outcome_of;
use command_words::mode_words;
use ev_port::{Sink, Source};
use ev_types::Status;
use program_end::write_text;
use relay_drive::Hook;
use std::alloc::Global;

/// Plays the script that a source spells, or the generated one, and writes what it comes to to a sink. It always returns. The words are
/// those after the program's name. In a script of links the first hook is for side In of link 0, the second for side Out of it, and so on;
/// each whose side has `on` lines gets those, and the others are let go. None of them was called yet.
///
/// What it did its status says: usage, or else out of memory, for words that are not one mode word; a bad script by its first bad line;
/// and else the whole text that the script comes to, or the part of it before the sink failed. The words are looked at before all else.
/// What is not written wholly or in part is not written at all. A fault is answered only where its count rose in this call; with every
/// other answer the counts are as they were. Too long is a text of which 2^24 + 1 bytes were read; with every other answer no more than
/// 2^24 were.
///
/// Own.
pub fn play<S: Source, K: Sink>(
    alloc: Global,
    words: &[String],
    source: &mut S,
    sink: &mut K,
    hooks: Vec<Box<dyn Hook>>,
) -> Status
    requires fresh { All (IsFresh (telling (λ h. heard h) (λ h. asked h) (λ h. planned h))) hooks.items }
    ensures did { DidWith (mode_of (map string_bytes words.now))
        (handed_in (telling (λ h. heard h) (λ h. asked h) (λ h. planned h)) hooks.items) result (S.left source.old)
        (S.left source.new) (K.taken sink.old) (K.taken sink.new) }
    ensures unread { result ≡ Status.Usage → source.new ≡ source.old }
    ensures reads_nothing { ReadsNothing (mode_of (map string_bytes words.now)) → source.new ≡ source.old }
    ensures unwritten { IsUnwritten result → sink.new ≡ sink.old }
    ensures read_fault { result ≡ Status.ReadFault → Rose (S.faults source.old) (S.faults source.new) }
    ensures read_calm { result ≢ Status.ReadFault → S.faults source.new ≡ S.faults source.old }
    ensures write_fault { result ≡ Status.WriteFault → Rose (K.faults sink.old) (K.faults sink.new) }
    ensures write_calm { result ≢ Status.WriteFault → K.faults sink.new ≡ K.faults sink.old }
    ensures too_long { result ≡ Status.TooLong → GaveCount (S.left source.old) (S.left source.new) (2 ^ 24 + 1) }
    ensures not_too_long { result ≢ Status.TooLong → GaveAtMost (S.left source.old) (S.left source.new) (2 ^ 24) }
{
    let mode = match mode_words(alloc, words) {
        Ok(mode) => mode,
        Err(fault) => return fault.status(),
    };
    let text = match text_for(alloc, mode, source) {
        Ok(text) => text,
        Err(ReadStop::Fault) => return Status::ReadFault,
        Err(ReadStop::TooLong) => return Status::TooLong,
        Err(ReadStop::Memory) => return Status::Memory,
    };
    let outcome = match outcome_of(alloc, mode, &text, hooks) {
        Ok(outcome) => outcome,
        Err(status) => return status,
    };
    match write_text(sink, &outcome.text) {
        Ok(()) => outcome.status,
        Err(_) => Status::WriteFault,
    }
}
