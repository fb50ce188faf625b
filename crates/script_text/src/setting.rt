// What the `set` lines of a script give. Each setting is given at most once.
ghost use Rattle.std.specs.Prelude.{◌≡◌, Some, None, is_none, if◌then◌else◌};
ghost use Rattle.script_text.specs.Given.{nothing_given, settings_by, with_setting};

use crate::members::Members;
use ev_types::{Dir, FilterKind, LimitCfg, Marks, Settings, Side, Timeouts};
use rate_group::GroupSet;

/// Which setting a line names.
///
/// Own.
#[derive(Clone, Copy)]
pub enum SettingName {
    Hold,
    /// The filter of what is read at a side, or of what is written to it.
    Filter(Side, Dir),
    Marks,
    Timeouts,
    Rate,
    Group,
    Member,
}

/// What one line sets.
///
/// Own.
#[derive(Clone, Copy)]
pub enum Setting {
    /// The hold mark, in bytes.
    Hold(u64),
    Filter(Side, Dir, FilterKind),
    Marks(Side, Marks),
    Timeouts(Side, Timeouts),
    /// The limit of the sides of this name.
    Rate(Side, LimitCfg),
    /// A group, with its number.
    Group(u32, GroupSet),
    /// The sides of this name are members of the group with this number.
    Member(Side, u32),
}

/// What the lines so far give; none where no line has set it. The groups are kept elsewhere.
///
/// Own.
#[derive(Clone, Copy)]
pub struct Given {
    pub hold: Option<u64>,
    pub in_read: Option<FilterKind>,
    pub in_write: Option<FilterKind>,
    pub out_read: Option<FilterKind>,
    pub out_write: Option<FilterKind>,
    pub in_marks: Option<Marks>,
    pub out_marks: Option<Marks>,
    pub in_timeouts: Option<Timeouts>,
    pub out_timeouts: Option<Timeouts>,
    pub in_rate: Option<LimitCfg>,
    pub out_rate: Option<LimitCfg>,
    pub members: Members,
}

impl Given {
    /// No line has set anything.
    pub fn nothing() -> Given
        ensures { result ≡ nothing_given }
    {
        Given {
            hold: None,
            in_read: None,
            in_write: None,
            out_read: None,
            out_write: None,
            in_marks: None,
            out_marks: None,
            in_timeouts: None,
            out_timeouts: None,
            in_rate: None,
            out_rate: None,
            members: Members::none(),
        }
    }

    /// Takes one setting more, and tells whether it was not given before. A group has a number of its own, so it never was.
    pub fn take(&mut self, setting: Setting) -> bool
        ensures { (if result then Some self.new else None) ≡ with_setting self.old setting }
    {
        match setting {
            Setting::Hold(bytes) => give(&mut self.hold, bytes),
            Setting::Filter(Side::In, Dir::Read, kind) => give(&mut self.in_read, kind),
            Setting::Filter(Side::In, Dir::Write, kind) => give(&mut self.in_write, kind),
            Setting::Filter(Side::Out, Dir::Read, kind) => give(&mut self.out_read, kind),
            Setting::Filter(Side::Out, Dir::Write, kind) => give(&mut self.out_write, kind),
            Setting::Marks(Side::In, marks) => give(&mut self.in_marks, marks),
            Setting::Marks(Side::Out, marks) => give(&mut self.out_marks, marks),
            Setting::Timeouts(Side::In, timeouts) => give(&mut self.in_timeouts, timeouts),
            Setting::Timeouts(Side::Out, timeouts) => give(&mut self.out_timeouts, timeouts),
            Setting::Rate(Side::In, limit) => give(&mut self.in_rate, limit),
            Setting::Rate(Side::Out, limit) => give(&mut self.out_rate, limit),
            Setting::Member(Side::In, group) => give(&mut self.members.in_group, group),
            Setting::Member(Side::Out, group) => give(&mut self.members.out_group, group),
            Setting::Group(..) => true,
        }
    }

    /// The settings of a run: the usual ones where nothing was given.
    pub fn settings(&self) -> Settings
        ensures { result ≡ settings_by self.now }
    {
        let usual = Settings::usual();
        Settings {
            hold: self.hold.unwrap_or(usual.hold),
            in_read: self.in_read.unwrap_or(usual.in_read),
            in_write: self.in_write.unwrap_or(usual.in_write),
            out_read: self.out_read.unwrap_or(usual.out_read),
            out_write: self.out_write.unwrap_or(usual.out_write),
            in_rate: self.in_rate,
            out_rate: self.out_rate,
            in_marks: self.in_marks.unwrap_or(usual.in_marks),
            out_marks: self.out_marks.unwrap_or(usual.out_marks),
            in_timeouts: self.in_timeouts.unwrap_or(usual.in_timeouts),
            out_timeouts: self.out_timeouts.unwrap_or(usual.out_timeouts),
            links: usual.links,
        }
    }
}

/// Gives the value where none was given before, and tells whether none was.
fn give<T: Copy>(place: &mut Option<T>, value: T) -> bool
    ensures fresh { result ≡ is_none place.old }
    ensures given { place.new ≡ (if result then Some value else place.old) }
{
    if place.is_some() {
        return false;
    }
    *place = Some(value);
    true
}
