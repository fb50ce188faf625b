// Reads a script line by line. What a line says is told elsewhere; here stands where it may stand.
ghost use Rattle.std.specs.Prelude.{◌≡◌, ◌≤◌, ◌<◌, ◌*◌, not, true, nat_lt, length, IfOk, IfErr, OnOk, if◌then◌else◌};
ghost use Rattle.ev_types.specs.Sides.{number};
ghost use Rattle.ev_types.specs.ScriptTurn.{lines_of};
ghost use Rattle.script_text.specs.Brought.{all_brought};
ghost use Rattle.script_text.specs.GroupsAreSet.{GroupsAreSet};
ghost use Rattle.script_text.specs.Order.{extended, may_be_set, with_line, may_follow, is_known, is_undecided, is_ended};
ghost use Rattle.script_text.specs.Script.{whole};
ghost use Rattle.script_text.specs.Spelled.{line_read, no_line, script_of, IsTold};

use crate::line::{Line, line_of};
use crate::setting::{Given, Setting};
use crate::tally::{count_line, count_link, kept};
use crate::words::{first_piece, is_plain_text, told, words_of};
use crate::{Script, ScriptFault, TurnLine};
use ev_types::{NoMemory, PlanLine, SideId};
use rate_group::GroupSet;
use std::alloc::Global;
use std::marker::Model;

/// The most turns of a script.
const MAX_TURNS: usize = 20_000;

/// The most links of a script.
const MAX_LINKS: usize = 256;

/// A script of which some lines were read. Contracts see the script so far.
///
/// Own.
#[derive(Drop)]
pub struct Reading {
    given: Given,
    groups: Vec<GroupSet>,
    plans: Vec<(SideId, PlanLine)>,
    turns: Vec<(u64, Vec<TurnLine>)>,
    /// Whether the line that opened a link said wait.
    links: Vec<bool>,
    /// Of each end whether its bytes were ended or failed.
    ended: Vec<bool>,
}

impl Model for Reading {
    ghost use Rattle.script_text.specs.Script.{SoFar};

    ghost Value = { SoFar };

    ghost use Rattle.script_text.specs.ReadingView.{script_so_far, IsReading};

    ghost view = { script_so_far };

    ghost invariant = { IsReading };
}

impl Reading {
    /// No line was read. Takes no memory.
    pub fn new(alloc: Global) -> Reading
        ensures { result ≡ no_line }
    {
        Reading {
            given: Given::nothing(),
            groups: Vec::new(alloc),
            plans: Vec::new(alloc),
            turns: Vec::new(alloc),
            links: Vec::new(alloc),
            ended: Vec::new(alloc),
        }
    }

    /// Takes the text of one line in, and tells whether the line is in the grammar there.
    pub fn read_line(&mut self, alloc: Global, text: &[u8]) -> Result<bool, NoMemory>
        ensures { IfOk result (λ fits. (if fits then Some self.new else None)
            ≡ line_read self.old text.now) }
    {
        if !is_plain_text(text) {
            return Ok(false);
        }
        let words = words_of(alloc, text)?;
        match line_of(alloc, &words)? {
            Some(line) => self.extend(alloc, line),
            None => Ok(false),
        }
    }

    /// Takes a line in where it may stand, and tells whether it may.
    fn extend(&mut self, alloc: Global, line: Line) -> Result<bool, NoMemory>
        ensures { IfOk result (λ fits. (if fits then Some self.new else None)
            ≡ extended self.old line) }
    {
        match line {
            Line::Set(setting) => self.set(setting),
            Line::Plan(side, item) => self.plan(side, item),
            Line::At(ms) => self.begin_turn(alloc, ms),
            Line::Within(line) => {
                if self.is_empty() || !self.may_follow(&line) {
                    return Ok(false);
                }
                self.put(line)?;
                Ok(true)
            }
            Line::Skipped => Ok(true),
        }
    }

    /// Does no turn stand in the script yet?
    fn is_empty(&self) -> bool
        ensures { result ≡ not (nat_lt 0 (length self.now.turns)) }
    {
        self.turns.is_empty()
    }

    fn set(&mut self, setting: Setting) -> Result<bool, NoMemory>
        ensures { IfOk result (λ fits. (if fits then Some self.new else None)
            ≡ extended self.old (Line.Set setting)) }
    {
        if !self.is_empty() || !may_be_set(&self.groups, setting) {
            return Ok(false);
        }
        if let Setting::Group(_, group) = setting {
            self.groups.push(group)?;
        }
        Ok(self.given.take(setting))
    }

    fn plan(&mut self, side: SideId, item: PlanLine) -> Result<bool, NoMemory>
        ensures { IfOk result (λ fits. (if fits then Some self.new else None)
            ≡ extended self.old (Line.Plan side item)) }
    {
        if !self.is_empty() {
            return Ok(false);
        }
        self.plans.push((side, item))?;
        Ok(true)
    }

    fn begin_turn(&mut self, alloc: Global, ms: u64) -> Result<bool, NoMemory>
        ensures { IfOk result (λ fits. (if fits then Some self.new else None)
            ≡ extended self.old (Line.At ms)) }
    {
        if self.turns.len() >= MAX_TURNS {
            return Ok(false);
        }
        self.turns.push((ms, Vec::new(alloc)))?;
        Ok(true)
    }

    /// May the line stand behind those so far?
    fn may_follow(&self, line: &TurnLine) -> bool
        ensures { result ≡ may_follow (lines_of self.now.turns) line.now }
    {
        match line {
            TurnLine::NewLink { .. } => self.links.len() < MAX_LINKS,
            TurnLine::Conn(link, _) => self.is_undecided(*link),
            TurnLine::Pending(side, _) => self.is_known(*side) && !self.is_ended(*side),
            TurnLine::Eof(side) => self.is_known(*side),
            TurnLine::ReadFail(side) => self.is_known(*side),
            TurnLine::Take(side, _) => self.is_known(*side),
            TurnLine::WriteFail(side) => self.is_known(*side),
            TurnLine::Spur(side) => self.is_known(*side),
            TurnLine::PollFail => true,
        }
    }

    /// Was the link of the end opened?
    fn is_known(&self, side: SideId) -> bool
        ensures { result ≡ is_known side (lines_of self.now.turns) }
    {
        (side.link as usize) < self.links.len()
    }

    /// Was this link opened with wait?
    fn is_undecided(&self, link: u32) -> bool
        ensures { result ≡ is_undecided link (lines_of self.now.turns) }
    {
        self.links.get(link as usize).copied().unwrap_or(false)
    }

    /// Were the bytes of the end ended or failed?
    fn is_ended(&self, side: SideId) -> bool
        ensures { result ≡ is_ended (number side) (lines_of self.now.turns) }
    {
        kept(&self.ended, side.number())
    }

    /// Puts a line that may stand there at the end of the last turn.
    fn put(&mut self, line: TurnLine) -> Result<(), NoMemory>
        requires begun { 0 < length self.old.turns }
        requires follows { may_follow (lines_of self.old.turns) line ≡ true }
        ensures turns { OnOk result (self.new.turns ≡ with_line self.old.turns line) }
        ensures given { OnOk result (self.new.given ≡ self.old.given) }
        ensures groups { OnOk result (self.new.groups ≡ self.old.groups) }
        ensures plans { OnOk result (self.new.plans ≡ self.old.plans) }
    {
        let last = self.turns.len() - 1;
        self.links.reserve(1)?;
        self.ended.reserve(2)?;
        let lines = &mut self.turns[last].1;
        lines.reserve(1)?;
        count_link(&mut self.links, &line);
        count_line(&mut self.ended, &line);
        lines.push(line).unwrap();
        Ok(())
    }

    /// The script of all lines so far.
    fn finish(self) -> Script
        ensures { result ≡ whole self }
    {
        Script {
            settings: self.given.settings(),
            members: self.given.members,
            groups: self.groups,
            plans: self.plans,
            turns: self.turns,
        }
    }
}

/// May this setting stand behind these groups?
fn may_be_set(groups: &[GroupSet], setting: Setting) -> bool
    ensures { result ≡ may_be_set groups.now setting }
{
    match setting {
        Setting::Group(number, _) => number as usize == groups.len(),
        Setting::Member(_, number) => (number as usize) < groups.len(),
        _ => true,
    }
}

/// Reads a whole script. Empty lines, and lines whose first word begins with `#`, are skipped and counted. An empty
/// text is a script with no turn. Takes memory for the script and for the words of a line. A text is refused at its
/// first line that is not in the grammar, counted from 1; a number above 2^32 - 1 is told as that number. Linear in the
/// text.
///
/// Own.
pub fn read_script(alloc: Global, text: &[u8]) -> Result<Script, ScriptFault>
    ensures script { IfOk result (λ script. script_of text.now ≡ Ok script) }
    ensures groups { IfOk result (λ script. GroupsAreSet script.groups script.members) }
    ensures bytes { IfOk result (λ script. 2 * all_brought (lines_of script.turns) ≤ length text.now) }
    ensures fault { IfErr result (λ fault. IsTold fault (script_of text.now)) }
{
    let mut reading = Reading::new(alloc);
    let mut before: usize = 0;
    let mut rest = text;
    while !rest.is_empty() {
        let (line, after) = first_piece(rest, b'\n');
        before += 1;
        if !reading.read_line(alloc, line)? {
            return Err(ScriptFault::BadLine(told(before)));
        }
        rest = after;
    }
    Ok(reading.finish())
}
