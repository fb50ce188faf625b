// In which directions groups are suspended, and which links have members. Who keeps a note of that knows when the members of groups may
// want something else than before.
ghost use Rattle.std.specs.Prelude.{◌≡◌, ◌≢◌, ◌<◌, ◌≤◌, ◌^◌, true, false, Some, None, slice_set, length, map, slice_get, Ok, OnOk, IfOk};
ghost use Rattle.std.specs.Option.{option_map};
ghost use Rattle.ev_types.specs.declared.side.SideId.{SideId};
ghost use Rattle.ev_types.specs.Sides.{number};
ghost use Rattle.token_bucket.specs.declared.limit.Dir.{Dir};
ghost use Rattle.rate_group.specs.Steps.{group_of};
ghost use Rattle.relay_state.specs.Rooms.{share};
ghost use Rattle.relay_core.specs.Timeless.{leaves_some};
ghost use Rattle.relay_core.specs.Halts.{halts_of, is_free};

use crate::relay::Relay;
use ev_types::NoMemory;
use number_set::NumberSet;
use relay_sides::Dir;

/// In which directions a group is suspended: its members move nothing there.
///
/// Libevent: bufferevent-internal.h, `read_suspended` and `write_suspended` of a rate limit group.
#[derive(Clone, Copy)]
pub struct Halts {
    pub reads: bool,
    pub writes: bool,
}

/// Whether a group is suspended in the directions that were noted.
fn is_same(noted: &Halts, now: &Halts) -> bool
    ensures same { result ≡ true → noted.now ≡ now.now }
    ensures apart { result ≡ false → noted.now ≢ now.now }
{
    noted.reads == now.reads && noted.writes == now.writes
}

impl Relay {
    /// The links of which a side may be in a group. Constant; takes no memory.
    ///
    /// Own.
    pub fn grouped(&self) -> &NumberSet
        ensures beside { (e : SideId) → e.link < self.now.state.plain.opened → result.now.has e.link ≡ false →
            group_of (number e) self.now.state.groups.members ≡ None }
    {
        &self.ctl.grouped
    }

    /// How many groups there are. By whether they are suspended a side's group leaves it something or nothing.
    fn group_count(&self) -> usize
        ensures count { result ≡ length self.now.state.groups.groups }
        ensures few { result ≤ 2 ^ 32 }
        ensures free { (e : SideId) (d : Dir) → leaves_some (share self.now.state e d)
            ≡ is_free (map halts_of self.now.state.groups.groups) d (group_of (number e) self.now.state.groups.members) }
    {
        self.ctl.given.groups.len()
    }

    /// In which directions a group is suspended. None exactly for no group.
    fn halts(&self, group: u32) -> Option<Halts>
        ensures { result ≡ option_map halts_of (slice_get self.now.state.groups.groups group) }
    {
        Some(Halts {
            reads: self.ctl.groups.is_suspended(group, Dir::Read)?,
            writes: self.ctl.groups.is_suspended(group, Dir::Write)?,
        })
    }

    /// Gives a note a place for each group, and answers whether it had one already, and changed nothing then. Takes memory only if it
    /// had fewer, which is so before the first turn; linear in what is added.
    ///
    /// Own.
    pub fn lengthen_halts(&self, seen: &mut Vec<Halts>) -> Result<bool, NoMemory>
        ensures len { OnOk result (length seen.new.items ≡ length self.now.state.groups.groups) }
        ensures known { IfOk result (λ known. known ≡ true → seen.new.items ≡ seen.old.items) }

        // Where no group came it wants no memory.
        ensures there { length seen.old.items ≡ length self.now.state.groups.groups → result ≡ Ok true }
    {
        let groups = self.group_count();
        if seen.len() == groups {
            return Ok(true);
        }
        let none = Halts {
            reads: false,
            writes: false,
        };
        seen.resize(groups, none)?;
        Ok(false)
    }

    /// Notes of a group in which directions it is suspended, and answers whether that was noted already.
    fn note_group(&self, group: u32, seen: &mut Vec<Halts>) -> bool
        requires there { group < length self.now.state.groups.groups }
        requires place { group < length seen.old.items }
        ensures noted { option_map (λ halts. slice_set seen.old.items group halts)
            (option_map halts_of (slice_get self.now.state.groups.groups group)) ≡ Some seen.new.items }
        ensures same { result ≡ true → seen.new.items ≡ seen.old.items }
        ensures apart { result ≡ false → slice_get seen.old.items group
            ≢ option_map halts_of (slice_get self.now.state.groups.groups group) }
    {
        let Some(halts) = self.halts(group) else {
            return false;
        };
        let same = is_same(&seen[group as usize], &halts);
        seen[group as usize] = halts;
        same
    }

    /// Notes of each group in which directions it is suspended, and answers whether that was noted already. By such a note one knows of
    /// each side whether its group leaves it something. Takes no memory; linear in the number of groups.
    ///
    /// Own.
    pub fn note_halts(&self, seen: &mut Vec<Halts>) -> bool
        requires { length seen.old.items ≡ length self.now.state.groups.groups }
        ensures noted { seen.new.items ≡ map halts_of self.now.state.groups.groups }
        ensures same { result ≡ true → seen.new.items ≡ seen.old.items }
        ensures apart { result ≡ false → seen.new.items ≢ seen.old.items }
        ensures shares { (e : SideId) (d : Dir) → leaves_some (share self.now.state e d)
            ≡ is_free seen.new.items d (group_of (number e) self.now.state.groups.members) }
    {
        let mut same = true;
        for at in 0..self.group_count() {
            same &= self.note_group(at as u32, seen);
        }
        same
    }
}
