// Plays a script from its text.
ghost use Rattle.std.specs.Prelude.{◌≡◌, IfOk, IfErr, Ok};
ghost use Rattle.base_mode.specs.Spelled.{script_of, IsTold};
ghost use Rattle.base_mode.specs.Turned.{answers_of};

use crate::read::read_base_script;
use crate::run::{Run, run_all};
use crate::stop::Stop;
use script_text::ScriptFault;
use std::alloc::Global;

/// What a script was answered: the text of all answers, or of those before the call for which a number of the base was
/// spent.
///
/// Own.
#[derive(Drop)]
pub struct Played {
    pub text: Vec<u8>,
    /// Was a number of the base spent? Then the script was played no further.
    pub spent: bool,
}

/// Reads a script, plays it on a base of its own, and answers the text of all answers. A text that has a line that is not
/// in the grammar is refused for the first such line before any line is played. Takes memory for the script, for the base
/// and for the text of the answers. Reading is linear in the text; then each line costs what its calls of a base do.
///
/// Own.
pub fn play_base(alloc: Global, text: &[u8]) -> Result<Played, ScriptFault>
    ensures played { IfOk result (λ played. answers_of text.now ≡ Ok (played.text.items, played.spent)) }
    ensures fault { IfErr result (λ fault. IsTold fault (script_of text.now)) }
{
    let (priorities, commands) = read_base_script(alloc, text)?.into_parts();
    let run = Run::new(alloc, priorities)?;
    match run_all(alloc, run, &commands) {
        Ok(run) => Ok(Played {
            text: run.finish(),
            spent: false,
        }),
        Err(Stop::Spent(text)) => Ok(Played { text, spent: true }),
        Err(Stop::Memory) => Err(ScriptFault::Memory),
    }
}
