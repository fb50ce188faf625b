// A script as values.

ghost use Rattle.std.specs.Prelude.{◌≡◌};
ghost use Rattle.script_text.specs.declared.script.ScriptFault.TheVariants.{Memory};

use crate::members::Members;
use ev_types::{NoMemory, PlanLine, Settings, SideId, TurnLine};
use rate_group::GroupSet;
use std::alloc::{AllocError, AllocFailed};
use std::marker::Model;
use thiserror::Error;

/// A script: the settings of its run, its groups and who is in them, what is planned for its hooks, and its turns, each with its moment in
/// milliseconds and its lines.
///
/// Own.
#[derive(Drop)]
pub struct Script {
    pub settings: Settings,
    pub members: Members,
    /// The groups, by their numbers.
    pub groups: Vec<GroupSet>,
    /// What is planned for the hooks of sides, in the order of its lines. A side of which nothing is planned has no hook.
    pub plans: Vec<(SideId, PlanLine)>,
    pub turns: Vec<(u64, Vec<TurnLine>)>,
}

impl Model for Script {
    ghost use Rattle.script_text.specs.Script.{ScriptValue};

    ghost Value = { ScriptValue };

    ghost use Rattle.script_text.specs.ScriptView.{script_value};

    ghost view = { script_value };
}

/// Why a text is no script.
#[derive(Clone, Copy, Debug, PartialEq, Eq, Error)]
pub enum ScriptFault {
    #[error("out of memory")]
    Memory,
    /// The first line that is not in the grammar, counted from 1.
    #[error("line {0} is not in the grammar")]
    BadLine(u32),
}

impl From<AllocError> for ScriptFault {
    ghost from_gives = { λ _ e. e ≡ Memory };

    fn from(_: AllocError) -> ScriptFault {
        ScriptFault::Memory
    }
}

impl<T: Drop> From<AllocFailed<T>> for ScriptFault {
    ghost from_gives = { λ _ e. e ≡ Memory };

    fn from(_: AllocFailed<T>) -> ScriptFault {
        ScriptFault::Memory
    }
}

impl From<NoMemory> for ScriptFault {
    ghost from_gives = { λ _ e. e ≡ Memory };

    fn from(_: NoMemory) -> ScriptFault {
        ScriptFault::Memory
    }
}
