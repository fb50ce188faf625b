// Plays a script from its text.
ghost use Rattle.std.specs.Prelude.{◌≡◌, ◌≢◌, ◌≤◌, ◌^◌, ◌∷◌, length, Some, IfOk, IfErr, All};
ghost use Rattle.buffers_mode.specs.Grammar.{NamesBuffers};
ghost use Rattle.buffers_mode.specs.Played.{Went};
ghost use Rattle.buffers_mode.specs.Run.{lines_played};
ghost use Rattle.buffers_mode.specs.Text.{answers_of, EndsFor};
ghost use Rattle.buffers_mode.specs.declared.fault.ModeFault.TheVariants.{Spent};

use crate::ModeFault;
use crate::line::Line;
use crate::player::Player;
use crate::read::read_script;
use std::alloc::Global;

/// Reads a script, plays it on sixteen buffers that are empty and unfrozen, and answers the text of all answers. A text
/// that has a line that is not in the grammar is refused for the first such line before any line is played. A text of
/// at most 2^24 bytes is never spent. Takes memory for the script, for what the buffers keep and for the text of the
/// answers. Reading is linear in the text; then each line costs what its call of a buffer does.
///
/// Own.
pub fn play_buffers(alloc: Global, text: &[u8]) -> Result<Vec<u8>, ModeFault>
    ensures answers { IfOk result (λ written. answers_of text.now ≡ Ok (Some written.items)) }
    ensures fault { IfErr result (λ fault. EndsFor fault (answers_of text.now)) }
    ensures never_spent { IfErr result (λ fault. length text.now ≤ 2 ^ 24 → fault ≢ Spent) }
{
    let lines = read_script(alloc, text)?;
    let mut player = Player::new(alloc)?;
    play_lines(&mut player, &lines)?;
    Ok(player.finish())
}

/// Plays some lines.
fn play_lines(player: &mut Player, lines: &[Line]) -> Result<(), ModeFault>
    requires { All NamesBuffers lines.now }
    ensures { Went result player.new (lines_played player.old lines.now) }
{
    for line in lines {
        player.play_line(line)?;
    }
    Ok(())
}
