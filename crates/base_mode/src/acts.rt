// What the callbacks of a run do to its base.
ghost use Rattle.std.specs.Prelude.{◌≡◌, ◌<◌, ◌^◌, ◌==◌, length, position, OnOk, IfErr, Some};
ghost use Rattle.base_mode.specs.Run.{number_of, act_step, kept, after_acts};
ghost use Rattle.base_mode.specs.Stops.{IsStop, passed_on};

use crate::command::Reaction;
use crate::halt::Halt;
use event_base::{Base, BaseFault, READ};

/// The number that the base gave to the event of a name, or that of none.
pub fn number_in(names: &[u32], event: u32) -> u32
    requires { length names.now < 2 ^ 32 }
    ensures { result ≡ number_of event names.now }
{
    match place_of(names, event) {
        Some(number) => number as u32,
        None => names.len() as u32,
    }
}

/// The place of a name.
fn place_of(names: &[u32], event: u32) -> Option<usize>
    ensures { result ≡ position (λ other. other == event) names.now }
{
    names.iter().position(|name| *name == event)
}

/// Makes the call of an act. Its answer is dropped, unless a number is spent or memory ran out.
fn perform(base: &mut Base, names: &[u32], act: &Reaction) -> Result<(), Halt>
    requires { length names.now < 2 ^ 32 }
    ensures ok { OnOk result (kept base.old (act_step base.old names.now act.now) ≡ Some base.new) }
    ensures err { IfErr result (λ fault. IsStop fault (kept base.old (act_step base.old names.now act.now))) }
{
    match act {
        Reaction::Delete(event) => passed(base.del_event(number_in(names, *event))),
        Reaction::Add(event, delay) => {
            passed(base.add_event(number_in(names, *event), Some(delay.ms())))
        }
        Reaction::Activate(event) => passed(base.activate(number_in(names, *event), READ)),
        Reaction::Break => {
            base.loop_break();
            Ok(())
        }
        Reaction::Exit => {
            base.loop_exit();
            Ok(())
        }
    }
}

/// What a refusal of a call means where its answer isn't written: nothing, unless a number is spent or memory ran out.
fn passed(outcome: Result<(), BaseFault>) -> Result<(), Halt>
    ensures { result ≡ passed_on outcome }
{
    match outcome {
        Err(BaseFault::Memory) => Err(Halt::Memory),
        Err(BaseFault::Spent) => Err(Halt::Spent),
        _ => Ok(()),
    }
}

/// Makes the calls of some acts, in their order. Takes memory.
pub fn perform_all(base: &mut Base, names: &[u32], acts: &[Reaction]) -> Result<(), Halt>
    requires { length names.now < 2 ^ 32 }
    ensures ok { OnOk result (after_acts base.old names.now acts.now ≡ Some base.new) }
    ensures err { IfErr result (λ fault. IsStop fault (after_acts base.old names.now acts.now)) }
{
    for act in acts {
        perform(base, names, act)?;
    }
    Ok(())
}
