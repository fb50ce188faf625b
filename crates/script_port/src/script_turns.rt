// The turns of a script as a port keeps them. Contracts see the script itself, while its bytes stand at the ends alone.
ghost use Rattle.std.specs.Prelude.{◌≡◌, ◌<◌, length, map, IfOk, OnOk};
ghost use Rattle.ev_types.specs.ScriptTurn.{lines_of};
ghost use Rattle.script_port.specs.KeptLines.{kept_line, turn_at};
ghost use Rattle.script_port.specs.ScriptKept.{with_all_bytes};

use crate::kept_line::KeptLine;
use crate::script_links::ScriptLinks;
use crate::turns_log::TurnsLog;
use ev_types::NoMemory;
use script_text::Script;
use std::alloc::Global;
use std::marker::Model;

/// All turns, each with its moment and what is kept of its lines.
///
/// Own.
#[derive(Drop)]
pub(crate) struct ScriptTurns {
    kept: Vec<(u64, Vec<KeptLine>)>,
    log: TurnsLog,
}

impl Model for ScriptTurns {
    ghost use Rattle.std.specs.Prelude.{List};
    ghost use Rattle.ev_types.specs.ScriptTurn.{ScriptTurn};

    ghost Value = { List ScriptTurn };

    ghost use Rattle.script_port.specs.ScriptTurnsView.{script_turns, IsTurns};

    ghost view = { script_turns };

    ghost invariant = { IsTurns };
}

impl ScriptTurns {
    /// The turns of a script, of which the bytes are still to come at the ends. Each line goes as soon as its bytes stand
    /// there.
    pub fn keep(
        alloc: Global,
        script: Script,
        links: &mut ScriptLinks,
    ) -> Result<ScriptTurns, NoMemory>
        ensures turns { IfOk result (λ turns. turns ≡ script.turns) }
        ensures links { OnOk result (links.new ≡ record links.old { to_come = with_all_bytes (lines_of script.turns) links.old.to_come }) }
    {
        let log = TurnsLog::of(&script);
        let mut kept = Vec::with_capacity(alloc, script.turns.len())?;
        for (moment, lines) in script.turns {
            let lines = links.keep_lines(alloc, lines)?;
            kept.push((moment, lines))?;
        }
        Ok(ScriptTurns { kept, log })
    }

    /// How many turns there are. Constant.
    pub fn len(&self) -> usize
        ensures { result ≡ length self.now }
    {
        self.kept.len()
    }

    /// The moment of the turn at this place. Constant.
    pub fn moment(&self, place: usize) -> u64
        requires { place < length self.now }
        ensures { result ≡ (turn_at self.now place).0 }
    {
        self.kept[place].0
    }

    /// What is kept of the lines of the turn at this place. Constant.
    pub fn lines(&self, place: usize) -> &[KeptLine]
        requires { place < length self.now }
        ensures { result.now ≡ map kept_line (turn_at self.now place).1 }
    {
        &self.kept[place].1
    }
}
