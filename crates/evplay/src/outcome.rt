// What a script comes to, by its mode: the text that is to be written, and how the program ends once it is.
ghost use Rattle.std.specs.Prelude.{◌≤◌, ◌^◌, ℕ, List, length, IfOk, IfErr};
ghost use Rattle.command_words.specs.declared.mode.ScriptKind.TheVariants.{Relay, Buffers, Base, Pairs, Big};
ghost use Rattle.std.specs.List.{All};
ghost use Rattle.relay_drive.specs.Seats.{telling};
ghost use Rattle.program_end.specs.Planned.{IsFresh};
ghost use Rattle.evplay.specs.HandedIn.{HandedIn, handed_in};
ghost use Rattle.evplay.specs.Play.{ComesTo, HasFewLinks, Refuses};

use crate::big::big;
use crate::run::run;
use crate::status::{buffers_status, script_status};
use base_mode::play_base;
use buffers_mode::play_buffers;
use command_words::{Ending, ScriptKind};
use ev_types::Status;
use pairs_mode::play_pairs;
use program_end::fault_status;
use relay_drive::Hook;
use script_text::read_script;
use std::alloc::Global;

/// A text, and the status with which the program ends once it is written.
///
/// Own.
#[derive(Drop)]
pub struct Outcome {
    pub text: Vec<u8>,
    pub status: Status,
}

/// What the script of a text of at most 2^24 bytes comes to, or the generated script, whatever the text. Hooks are for links alone. A text
/// that is no script of the mode is refused with its first bad line.
pub fn outcome_of(
    alloc: Global,
    mode: ScriptKind,
    text: &[u8],
    hooks: Vec<Box<dyn Hook>>,
) -> Result<Outcome, Status>
    requires short { length text.now ≤ 2 ^ 24 }
    requires few { HasFewLinks mode }
    requires fresh { All (IsFresh (telling (λ h. heard h) (λ h. asked h) (λ h. planned h))) hooks.items }
    ensures comes_to { IfOk result (λ outcome. ComesTo mode
        (handed_in (telling (λ h. heard h) (λ h. asked h) (λ h. planned h)) hooks.items) text.now outcome.status outcome.text.items) }
    ensures refused { IfErr result (λ status. Refuses mode text.now status) }
{
    match mode {
        ScriptKind::Relay(how) => relay(alloc, text, how, hooks),
        ScriptKind::Buffers => buffers(alloc, text),
        ScriptKind::Base => base(alloc, text),
        ScriptKind::Pairs => pairs(alloc, text),
        ScriptKind::Big(links) => generated(alloc, links),
    }
}

/// What the script of links that the text spells comes to.
fn relay(
    alloc: Global,
    text: &[u8],
    how: Ending,
    hooks: Vec<Box<dyn Hook>>,
) -> Result<Outcome, Status>
    requires short { length text.now ≤ 2 ^ 24 }
    requires fresh { All (IsFresh (telling (λ h. heard h) (λ h. asked h) (λ h. planned h))) hooks.items }
    ensures comes_to { IfOk result (λ outcome. ComesTo (Relay how)
        (handed_in (telling (λ h. heard h) (λ h. asked h) (λ h. planned h)) hooks.items) text.now outcome.status outcome.text.items) }
    ensures refused { IfErr result (λ status. Refuses (Relay how) text.now status) }
{
    let script = match read_script(alloc, text) {
        Ok(script) => script,
        Err(fault) => return Err(script_status(fault)),
    };
    match run(alloc, script, how, hooks) {
        Ok((text, end)) => Ok(Outcome {
            text,
            status: end.status(),
        }),
        Err(fault) => Err(fault_status(fault)),
    }
}

/// What the generated script of so many links comes to.
fn generated(alloc: Global, links: u32) -> Result<Outcome, Status>
    requires few { links ≤ 64 }
    ensures comes_to { (handed : HandedIn) (source : List ℕ) →
        IfOk result (λ outcome. ComesTo (Big links) handed source outcome.status outcome.text.items) }
    ensures refused { (source : List ℕ) → IfErr result (λ status. Refuses (Big links) source status) }
{
    match big(alloc, links) {
        Ok(text) => Ok(Outcome {
            text,
            status: Status::Ok,
        }),
        Err(fault) => Err(fault_status(fault)),
    }
}

/// What the script of buffers that the text spells comes to.
fn buffers(alloc: Global, text: &[u8]) -> Result<Outcome, Status>
    requires { length text.now ≤ 2 ^ 24 }
    ensures comes_to { (handed : HandedIn) → IfOk result (λ outcome. ComesTo Buffers handed text.now outcome.status outcome.text.items) }
    ensures refused { IfErr result (λ status. Refuses Buffers text.now status) }
{
    match play_buffers(alloc, text) {
        Ok(text) => Ok(Outcome {
            text,
            status: Status::Ok,
        }),
        Err(fault) => Err(buffers_status(fault)),
    }
}

/// What the script of a base that the text spells comes to. Where a number of the base is spent, its text so far.
fn base(alloc: Global, text: &[u8]) -> Result<Outcome, Status>
    ensures comes_to { (handed : HandedIn) → IfOk result (λ outcome. ComesTo Base handed text.now outcome.status outcome.text.items) }
    ensures refused { IfErr result (λ status. Refuses Base text.now status) }
{
    match play_base(alloc, text) {
        Ok(played) => Ok(Outcome {
            text: played.text,
            status: if played.spent {
                Status::Spent
            } else {
                Status::Ok
            },
        }),
        Err(fault) => Err(script_status(fault)),
    }
}

/// What the script of pairs that the text spells comes to.
fn pairs(alloc: Global, text: &[u8]) -> Result<Outcome, Status>
    ensures comes_to { (handed : HandedIn) → IfOk result (λ outcome. ComesTo Pairs handed text.now outcome.status outcome.text.items) }
    ensures refused { IfErr result (λ status. Refuses Pairs text.now status) }
{
    match play_pairs(alloc, text) {
        Ok(text) => Ok(Outcome {
            text,
            status: Status::Ok,
        }),
        Err(fault) => Err(script_status(fault)),
    }
}
