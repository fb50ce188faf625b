// The hooks of a drive, which stand outside of the relay.
ghost use Rattle.std.specs.Prelude.{◌≡◌, ◌<◌, Some, None, true, is_some, length, slice_set, slice_index_or, if◌then◌else◌, map, IfOk, IsOk};
ghost use Rattle.std.specs.Prelude.{[], ◌∷◌};
ghost use Rattle.ev_types.specs.Sides.{number};
ghost use Rattle.relay_drive.specs.Seats.{hook_at, slots_taken, AreFresh};

use ev_types::{NoMemory, SideId};
use relay_core::Hook;
use std::alloc::Global;

/// The hooks of a drive, each in the slot of its side's number. A hook that was called while its side was freed, by itself or by what it
/// asked, leaves its slot for good and is kept, so that what it heard and asked can be said.
///
/// Own; libevent keeps the callbacks of a bufferevent with it.
#[derive(Drop)]
pub struct Seats {
    pub(crate) hooks: Vec<Option<Box<dyn Hook>>>,
    pub(crate) gone: Vec<Option<Box<dyn Hook>>>,
}

/// Whether there is a hook in each slot.
pub(crate) fn slots_taken(
    alloc: Global,
    hooks: &[Option<Box<dyn Hook>>],
) -> Result<Vec<bool>, NoMemory>
    ensures { IfOk result (λ taken. taken.items ≡ slots_taken hooks.now) }
{
    let mut taken = Vec::new(alloc);
    for slot in hooks {
        taken.push(slot.is_some())?;
    }
    Ok(taken)
}

impl Seats {
    /// These hooks, the first for side In of link 0, the second for side Out of it, and so on, where there is one. None is needed for
    /// the sides behind the last. Refused for want of memory; takes some for each slot. Linear in the slots.
    ///
    /// Own.
    pub fn new(alloc: Global, hooks: Vec<Option<Box<dyn Hook>>>) -> Result<Seats, NoMemory>
        ensures hooks { IfOk result (λ seats. seats.hooks.items ≡ hooks.items) }
        ensures fresh { IfOk result (λ seats. AreFresh seats.hooks.items seats.gone.items) }
        ensures sure { length hooks.items ≡ 0 → IsOk result }
    {
        let mut gone = Vec::new(alloc);
        for _ in 0..hooks.len() {
            gone.push(None)?;
        }
        Ok(Seats { hooks, gone })
    }
}

/// Takes the hook of a side out of its slot.
pub(crate) fn take_hook(hooks: &mut Vec<Option<Box<dyn Hook>>>, side: SideId) -> Box<dyn Hook>
    requires { is_some (hook_at hooks.old.items (number side)) ≡ true }
    ensures taken { hook_at hooks.old.items (number side) ≡ Some result }
    ensures left { hooks.new.items ≡ slice_set hooks.old.items (number side) None }
    ensures there { number side < length hooks.old.items }
{
    let slot = &mut hooks[side.number()];
    slot.take().unwrap()
}

/// Puts a hook where it belongs: into its slot while its side lives, else among those that are gone.
pub(crate) fn put_back(seats: &mut Seats, side: SideId, hook: Box<dyn Hook>, live: bool)
    requires there { number side < length seats.old.hooks.items }
    requires level { length seats.old.gone.items ≡ length seats.old.hooks.items }
    ensures hooks { seats.new.hooks.items ≡
        (if live then slice_set seats.old.hooks.items (number side) (Some hook) else seats.old.hooks.items) }
    ensures gone { seats.new.gone.items ≡
        (if live then seats.old.gone.items else slice_set seats.old.gone.items (number side) (Some hook)) }
{
    if live {
        seats.hooks[side.number()] = Some(hook);
    } else {
        seats.gone[side.number()] = Some(hook);
    }
}
