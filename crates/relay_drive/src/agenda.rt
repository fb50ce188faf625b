// At which links a turn has something to look at. A link at which nothing was found to do is left alone until something changes there, so
// that it costs a turn nothing.
ghost use Rattle.std.specs.Prelude.{◌≡◌, ◌<◌, ◌≤◌, true, false, MatchOption, OnOk, IsOk};
ghost use Rattle.relay_drive.specs.Agenda.{Touched, TouchedEach, NamesEach, Covers, HasPlace, IsCovered, IsUntold};
ghost use Rattle.relay_drive.specs.Moves.{OnlyForMemory};

use crate::fault::DriveFault;
use number_set::NumberSet;
use std::alloc::Global;

/// The links at which passing and closing may have something to do, those that may have a live side, and those of which the table of wants
/// may not be right. A link that isn't in a set was looked at, and nothing changed there since, but for what groups leave its sides to
/// move. The links whose limits may leave more than before are in all sets as a turn begins; those with members are among those of which
/// the table may not be right once a group was suspended or goes on.
#[derive(Drop)]
pub(crate) struct Agenda {
    pub(crate) to_pass: NumberSet,
    pub(crate) to_close: NumberSet,
    pub(crate) to_name: NumberSet,
    pub(crate) maybe_open: NumberSet,
}

/// The first of the opened links from `from` on that is in the set.
pub(crate) fn next_link(set: &NumberSet, from: u32, opened: u32) -> Option<u32>
    ensures { MatchOption result (IsUntold set.now from opened)
        (λ link. (from ≤ link) × (link < opened) × (set.now.has link ≡ true) × IsUntold set.now from link) }
{
    if from >= opened {
        return None;
    }
    let link = set.next(from as usize)?;
    if link < opened as usize {
        Some(link as u32)
    } else {
        None
    }
}

/// Puts the link into the set, at a new place where it has none.
fn cover(set: &mut NumberSet, link: u32) -> Result<(), DriveFault>
    requires { link ≤ set.old.len }
    ensures covered { OnOk result (Covers link set.old set.new) }
    ensures cause { OnlyForMemory result }
    ensures there { link < set.old.len → IsOk result }
{
    if set.len() > link as usize {
        set.insert(link as usize);
        return Ok(());
    }
    if set.push(true).is_err() {
        return Err(DriveFault::Memory);
    }
    Ok(())
}

impl Agenda {
    /// No link has a place. Takes no memory.
    pub(crate) fn new(alloc: Global) -> Agenda
        ensures pass { result.to_pass.len ≡ 0 }
        ensures close { result.to_close.len ≡ 0 }
        ensures want { result.to_name.len ≡ 0 }
        ensures live { result.maybe_open.len ≡ 0 }
    {
        Agenda {
            to_pass: NumberSet::new(alloc),
            to_close: NumberSet::new(alloc),
            to_name: NumberSet::new(alloc),
            maybe_open: NumberSet::new(alloc),
        }
    }

    /// Makes a place for the next link, which is in each set then.
    pub(crate) fn cover(&mut self, link: u32) -> Result<(), DriveFault>
        requires pass { link ≤ self.old.to_pass.len }
        requires close { link ≤ self.old.to_close.len }
        requires want { link ≤ self.old.to_name.len }
        requires live { link ≤ self.old.maybe_open.len }
        ensures covered { OnOk result (IsCovered link self.old self.new) }
        ensures cause { OnlyForMemory result }
        ensures there { HasPlace link self.old → IsOk result }
    {
        cover(&mut self.to_pass, link)?;
        cover(&mut self.to_close, link)?;
        cover(&mut self.to_name, link)?;
        cover(&mut self.maybe_open, link)
    }

    /// Something changed at this link. Takes no memory; constant.
    pub(crate) fn touch(&mut self, link: u32)
        requires pass { link < self.old.to_pass.len }
        requires close { link < self.old.to_close.len }
        requires want { link < self.old.to_name.len }
        requires live { link < self.old.maybe_open.len }
        ensures { Touched link self.old self.new }
    {
        self.to_pass.insert(link as usize);
        self.to_close.insert(link as usize);
        self.to_name.insert(link as usize);
        self.maybe_open.insert(link as usize);
    }

    /// Something may have changed at each opened link of a set. Takes no memory; linear in the links of the set, and it looks at a word
    /// for each 4,096 links.
    pub(crate) fn touch_each(&mut self, set: &NumberSet, opened: u32)
        requires pass { opened ≤ self.old.to_pass.len }
        requires close { opened ≤ self.old.to_close.len }
        requires want { opened ≤ self.old.to_name.len }
        requires live { opened ≤ self.old.maybe_open.len }
        ensures { TouchedEach set.now opened self.old self.new }
    {
        let mut from = 0;
        while let Some(link) = next_link(set, from, opened) {
            self.touch(link);
            from = link + 1;
        }
    }

    /// Where that is told, the table of wants may not be right of each opened link of a set. Takes no memory; costs what `touch_each` does.
    pub(crate) fn name_each_where(&mut self, told: bool, set: &NumberSet, opened: u32)
        requires { opened ≤ self.old.to_name.len }
        ensures { NamesEach told set.now opened self.old self.new }
    {
        if !told {
            return;
        }
        let mut from = 0;
        while let Some(link) = next_link(set, from, opened) {
            self.to_name.insert(link as usize);
            from = link + 1;
        }
    }
}
