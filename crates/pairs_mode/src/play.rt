// Plays a script from its text.
ghost use Rattle.std.specs.Prelude.{◌≡◌, [], map, true, false, if◌then◌else◌, Some, None, IfOk, IfErr, Ok};
ghost use Rattle.script_text.specs.Spelled.{IsTold};
ghost use Rattle.pairs_mode.specs.Run.{is_skipped, text_played, run_of, answers_of};

use crate::line::line_of;
use crate::player::Player;
use ev_types::NoMemory;
use script_text::{ScriptFault, first_piece, is_plain_text, told, words_of};
use std::alloc::Global;

/// Plays a script on the two halves of a new pair, and answers the text of all answers. A text that has a line that is not in the
/// grammar is refused for the first such line, counted from 1; a number above 2^32 - 1 is told as that number. A length that would
/// fit no usize is want of memory, since no memory holds so many bytes. Takes memory for the words of a line, for what the halves
/// keep and for the text of the answers. Reading is linear in the text; then each line costs what its call of a half does.
///
/// Own.
pub fn play_pairs(alloc: Global, text: &[u8]) -> Result<Vec<u8>, ScriptFault>
    ensures answers { IfOk result (λ written. answers_of text.now ≡ Ok written.items) }
    ensures fault { IfErr result (λ fault. IsTold fault (answers_of text.now)) }
{
    let player = run_of(alloc, text)?;
    Ok(player.finish())
}

// Plays the lines of a text one after another.
fn run_of(alloc: Global, text: &[u8]) -> Result<Player, ScriptFault>
    ensures run { IfOk result (λ player. run_of text.now ≡ Ok player) }
    ensures fault { IfErr result (λ fault. IsTold fault (run_of text.now)) }
{
    let mut player = Player::new(alloc)?;
    let mut before: usize = 0;
    let mut rest = text;
    while !rest.is_empty() {
        let (line, after) = first_piece(rest, b'\n');
        before += 1;
        if !play_text(alloc, &mut player, line)? {
            return Err(ScriptFault::BadLine(told(before)));
        }
        rest = after;
    }
    Ok(player)
}

// Plays the line of a text, and answers whether it is in the grammar.
fn play_text(alloc: Global, player: &mut Player, text: &[u8]) -> Result<bool, NoMemory>
    ensures { IfOk result (λ fits. (if fits then Some player.new else None) ≡ text_played player.old text.now) }
{
    if !is_plain_text(text) {
        return Ok(false);
    }
    let words = words_of(alloc, text)?;
    if is_skipped(&words) {
        return Ok(true);
    }
    match line_of(alloc, &words)? {
        Some(line) => {
            player.play_line(&line)?;
            Ok(true)
        }
        None => Ok(false),
    }
}

// Is it a line of no words, or a comment?
fn is_skipped(words: &[&[u8]]) -> bool
    ensures { result ≡ is_skipped (map (λ w. w.now) words.now) }
{
    match words {
        [] => true,
        [first, ..] => matches!(first, [b'#', ..]),
    }
}
