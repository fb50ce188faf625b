// The hooks of a run: of those that were handed in, the ones of sides for which the script plans something, each with its lines.
ghost use Rattle.std.specs.Prelude.{◌≡◌, ◌∷◌, ◌++◌, [], IfOk, OnOk};
ghost use Rattle.std.specs.List.{All};
ghost use Rattle.relay_drive.specs.Seats.{telling};
ghost use Rattle.program_end.specs.Planned.{IsFresh};
ghost use Rattle.evplay.specs.HandedIn.{handed_in, lines_at, IsAttached, AddsSlot, HasSeats};

use ev_types::{NoMemory, PlanLine, SideId};
use relay_drive::Hook;
use std::alloc::Global;

/// The sides for which a script can plan something are those of the links 0 to 31.
pub const PLANNED_SIDES: usize = 64;

/// Hands in one hook more, of which none was called yet.
pub fn hand_in(hooks: &mut Vec<Box<dyn Hook>>, hook: Box<dyn Hook>) -> Result<(), NoMemory>
    requires all { All (IsFresh (telling (λ h. heard h) (λ h. asked h) (λ h. planned h))) hooks.old.items }
    requires fresh { IsFresh (telling (λ h. heard h) (λ h. asked h) (λ h. planned h)) hook }
    ensures handed { OnOk result (hooks.new.items ≡ hooks.old.items ++ hook ∷ []) }
    ensures all { OnOk result (All (IsFresh (telling (λ h. heard h) (λ h. asked h) (λ h. planned h))) hooks.new.items) }
{
    hooks.push(hook)?;
    Ok(())
}

/// What is planned for the hook of the side with this number. Linear in the plans.
fn lines_for(
    alloc: Global,
    plans: &[(SideId, PlanLine)],
    number: usize,
) -> Result<Vec<PlanLine>, NoMemory>
    ensures { IfOk result (λ lines. lines.items ≡ lines_at plans.now number) }
{
    let mut lines = Vec::new(alloc);
    for (side, line) in plans {
        if side.number() == number {
            lines.push(*line)?;
        }
    }
    Ok(lines)
}

/// A hook with its lines; none where there are no lines.
fn with_lines(hook: Box<dyn Hook>, lines: &[PlanLine]) -> Result<Option<Box<dyn Hook>>, NoMemory>
    requires fresh { IsFresh (telling (λ h. heard h) (λ h. asked h) (λ h. planned h)) hook }
    ensures { IfOk result (λ slot. IsAttached (telling (λ h. heard h) (λ h. asked h) (λ h. planned h)) lines.now hook slot) }
{
    let mut hook = hook;
    if lines.is_empty() {
        return Ok(None);
    }
    hook.plan(lines)?;
    Ok(Some(hook))
}

/// Fills the next slot, for the side of its number.
fn attach_next(
    alloc: Global,
    plans: &[(SideId, PlanLine)],
    hook: Box<dyn Hook>,
    slots: &mut Vec<Option<Box<dyn Hook>>>,
) -> Result<(), NoMemory>
    requires fresh { IsFresh (telling (λ h. heard h) (λ h. asked h) (λ h. planned h)) hook }
    ensures { OnOk result (AddsSlot (telling (λ h. heard h) (λ h. asked h) (λ h. planned h)) plans.now hook slots.old.items
        slots.new.items) }
{
    let lines = lines_for(alloc, plans, slots.len())?;
    slots.push(with_lines(hook, &lines)?)?;
    Ok(())
}

/// The slots of the hooks that were handed in, one for each of the first sides. A side for which nothing is planned has none. Linear in
/// the plans for each hook.
pub fn attach(
    alloc: Global,
    plans: &[(SideId, PlanLine)],
    hooks: Vec<Box<dyn Hook>>,
) -> Result<Vec<Option<Box<dyn Hook>>>, NoMemory>
    requires fresh { All (IsFresh (telling (λ h. heard h) (λ h. asked h) (λ h. planned h))) hooks.items }
    ensures { IfOk result (λ slots. HasSeats slots.items (telling (λ h. heard h) (λ h. asked h) (λ h. planned h)) plans.now
        (handed_in (telling (λ h. heard h) (λ h. asked h) (λ h. planned h)) hooks.items)) }
{
    let mut slots = Vec::new(alloc);
    for hook in hooks {
        attach_next(alloc, plans, hook, &mut slots)?;
    }
    Ok(slots)
}
