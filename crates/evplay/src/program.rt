// All of the program but its words and streams: how the process ends, and what it says.
ghost use Rattle.std.specs.Prelude.{◌≡◌, map, string_bytes, IfOk, IfErr};
ghost use Rattle.ev_types.specs.declared.status.Status.{Status};
ghost use Rattle.program_end.specs.EndStatus.{status_number};
ghost use Rattle.command_words.specs.WordsStatus.{words_status};
ghost use Rattle.program_end.specs.Complains.{Complains};
ghost use Rattle.command_words.specs.ModeGrammar.{mode_of};
ghost use Rattle.std.specs.List.{All};
ghost use Rattle.relay_drive.specs.Seats.{telling};
ghost use Rattle.program_end.specs.Planned.{IsFresh};
ghost use Rattle.evplay.specs.HandedIn.{handed_in};
ghost use Rattle.evplay.specs.Play.{DidWith};
ghost use Rattle.evplay.specs.PlayCauses.{HasCauses};

use crate::play::play;
use command_words::BadWords;
use ev_port::{Sink, Source};
use ev_types::Status;
use program_end::finish;
use relay_drive::Hook;
use std::alloc::Global;

/// Plays as its words say. Nothing is read or written where the words can't be read.
fn play_words<S: Source, K: Sink>(
    alloc: Global,
    words: Result<Vec<String>, BadWords>,
    source: &mut S,
    sink: &mut K,
    hooks: Vec<Box<dyn Hook>>,
) -> Status
    requires fresh { All (IsFresh (telling (λ h. heard h) (λ h. asked h) (λ h. planned h))) hooks.items }
    ensures played { IfOk words (λ all. DidWith (mode_of (map string_bytes all.items))
        (handed_in (telling (λ h. heard h) (λ h. asked h) (λ h. planned h)) hooks.items) result (S.left source.old)
        (S.left source.new) (K.taken sink.old) (K.taken sink.new)) }
    ensures causes { IfOk words (λ all. HasCauses S.Source K.Sink (mode_of (map string_bytes all.items)) result source.old source.new
        sink.old sink.new) }
    ensures refused { IfErr words (λ bad. (result ≡ words_status bad) × (source.new ≡ source.old) × (sink.new ≡ sink.old)) }
{
    match words {
        Ok(words) => play(alloc, &words, source, sink, hooks),
        Err(bad) => bad.status(),
    }
}

/// Plays as its words say, says on the last sink how that ended, and answers the status of the process. The words are
/// those after the program's name, or why they can't be read.
///
/// Own.
pub fn play_program<S: Source, K: Sink, E: Sink>(
    alloc: Global,
    words: Result<Vec<String>, BadWords>,
    source: &mut S,
    sink: &mut K,
    errors: &mut E,
    hooks: Vec<Box<dyn Hook>>,
) -> u8
    requires fresh { All (IsFresh (telling (λ h. heard h) (λ h. asked h) (λ h. planned h))) hooks.items }
    ensures played { IfOk words (λ all. (ended : Status) × (result ≡ status_number ended)
        × DidWith (mode_of (map string_bytes all.items))
        (handed_in (telling (λ h. heard h) (λ h. asked h) (λ h. planned h)) hooks.items) ended (S.left source.old)
        (S.left source.new) (K.taken sink.old) (K.taken sink.new)
        × HasCauses S.Source K.Sink (mode_of (map string_bytes all.items)) ended source.old source.new sink.old sink.new
        × Complains ended (E.taken errors.old) (E.taken errors.new) (E.faults errors.old) (E.faults errors.new)) }
    ensures refused { IfErr words (λ bad. (result ≡ status_number (words_status bad)) × (source.new ≡ source.old) × (sink.new ≡ sink.old)
        × Complains (words_status bad) (E.taken errors.old) (E.taken errors.new) (E.faults errors.old) (E.faults errors.new)) }
{
    finish(errors, play_words(alloc, words, source, sink, hooks))
}
