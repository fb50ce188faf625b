// What a script tells the callbacks of its events to do, by the names of the events and the numbers of their fires.
ghost use Rattle.std.specs.Prelude.{◌≡◌, ◌++◌, ◌∷◌, [], ◌==◌, ◌&&◌, ℕ, OnOk, if◌then◌else◌};
ghost use Rattle.base_mode.specs.Plans.{listed, acts_of};
ghost use Rattle.base_mode.specs.Run.{acts_at};

use crate::command::{Command, Reaction};
use ev_types::NoMemory;
use std::alloc::Global;
use std::collections::BTreeMap;

/// The acts of one event, by the numbers of its fires, counted from 1.
///
/// Own.
pub type Plan = BTreeMap<u64, Vec<Reaction>>;

/// Adds an act to those at a fire of this number. Takes memory.
fn plan(alloc: Global, plan: &mut Plan, nth: u64, act: Reaction) -> Result<(), NoMemory>
    ensures { OnOk result ((k : ℕ) → listed plan.new k ≡ listed plan.old k ++ (if nth == k then act ∷ [] else [])) }
{
    match plan.get_mut(&nth) {
        Some(acts) => acts.push(act)?,
        None => {
            let mut acts = Vec::new(alloc);
            acts.push(act)?;
            plan.insert(nth, acts)?;
        }
    }
    Ok(())
}

/// Adds an act to those of the event of a name at a fire of this number. Takes memory.
fn tell(
    alloc: Global,
    plans: &mut BTreeMap<u32, Plan>,
    event: u32,
    nth: u64,
    act: Reaction,
) -> Result<(), NoMemory>
    ensures { OnOk result ((e k : ℕ) → acts_of plans.new e k
        ≡ acts_of plans.old e k ++ (if event == e && nth == k then act ∷ [] else [])) }
{
    match plans.get_mut(&event) {
        Some(told) => plan(alloc, told, nth, act)?,
        None => {
            let mut told = BTreeMap::new(alloc);
            plan(alloc, &mut told, nth, act)?;
            plans.insert(event, told)?;
        }
    }
    Ok(())
}

/// Takes in what a line tells a callback. Takes memory.
pub fn note(alloc: Global, plans: &mut BTreeMap<u32, Plan>, line: &Command) -> Result<(), NoMemory>
    ensures { OnOk result ((e k : ℕ) → acts_of plans.new e k ≡ acts_of plans.old e k ++ acts_at e k (line.now ∷ [])) }
{
    match line {
        Command::On(event, nth, act) => tell(alloc, plans, *event, *nth, act.again()),
        _ => Ok(()),
    }
}

/// The acts of the event of a name at a fire of this number. Takes no memory.
pub fn acts(plans: &BTreeMap<u32, Plan>, event: u32, nth: u64) -> &[Reaction]
    ensures { result.now ≡ acts_of plans.now event nth }
{
    match plans.get(&event) {
        Some(told) => listed(told, nth),
        None => &[],
    }
}

/// The acts at a fire of this number.
fn listed(plan: &Plan, nth: u64) -> &[Reaction]
    ensures { result.now ≡ listed plan.now nth }
{
    match plan.get(&nth) {
        Some(acts) => acts.as_slice(),
        None => &[],
    }
}
