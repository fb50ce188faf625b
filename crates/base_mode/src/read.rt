// Reads a base script line by line. What a line says is told elsewhere; here stands where it may stand.
ghost use Rattle.std.specs.Prelude.{◌≡◌, ◌<◌, [], ◌∷◌, ◌++◌, vec_len, vec_capacity, is_some, IfOk, IfErr, OnOk, if◌then◌else◌};
ghost use Rattle.base_mode.specs.Order.{extended, may_follow, is_made, made};
ghost use Rattle.base_mode.specs.Spelled.{line_read, ended, script_of, IsTold};

use crate::command::Command;
use crate::line::{Line, line_of};
use ev_types::NoMemory;
use script_text::{ScriptFault, first_piece, is_plain_text, told, words_of};
use std::alloc::Global;
use std::marker::Model;

/// A script of a base: the number of priorities, and the lines to which a base answers.
///
/// Own.
#[derive(Drop)]
pub struct BaseScript {
    priorities: u32,
    commands: Vec<Command>,
}

impl Model for BaseScript {
    ghost use Rattle.base_mode.specs.Script.{ScriptValue};

    ghost Value = { ScriptValue };

    ghost view = { λ s. record { priorities = s.priorities; commands = s.commands.items } };
}

impl BaseScript {
    /// The number of priorities, and the lines to which a base answers. Takes no memory; constant cost.
    pub fn into_parts(self) -> (u32, Vec<Command>)
        ensures priorities { result.0 ≡ self.priorities }
        ensures commands { result.1.items ≡ self.commands }
    {
        (self.priorities, self.commands)
    }
}

/// A script of which some lines were read. Contracts see the script so far.
///
/// Own.
#[derive(Drop)]
pub struct Reading {
    priorities: Option<u32>,
    commands: Vec<Command>,
    /// The names of the events that were made.
    events: Vec<u32>,
}

impl Model for Reading {
    ghost use Rattle.std.specs.Prelude.{◌≡◌};
    ghost use Rattle.base_mode.specs.Script.{ScriptSoFar};
    ghost use Rattle.base_mode.specs.Order.{made};

    ghost Value = { ScriptSoFar };

    ghost view = { λ r. record { priorities = r.priorities; commands = r.commands.items } };

    ghost invariant = { λ r. r.events.items ≡ made r.commands.items };
}

impl Reading {
    /// No line was read. Takes no memory.
    pub fn new(alloc: Global) -> Reading
        ensures priorities { result.priorities ≡ None }
        ensures commands { result.commands ≡ [] }
    {
        Reading {
            priorities: None,
            commands: Vec::new(alloc),
            events: Vec::new(alloc),
        }
    }

    /// Takes the text of one line in, and tells whether the line is in the grammar there.
    pub fn read_line(&mut self, alloc: Global, text: &[u8]) -> Result<bool, NoMemory>
        ensures { IfOk result (λ fits. (if fits then Some self.new else None)
            ≡ line_read self.old text.now) }
    {
        if !is_plain_text(text) {
            return Ok(false);
        }
        let words = words_of(alloc, text)?;
        match line_of(&words) {
            Some(line) => self.extend(line),
            None => Ok(false),
        }
    }

    /// Takes a line in where it may stand, and tells whether it may.
    fn extend(&mut self, line: Line) -> Result<bool, NoMemory>
        ensures { IfOk result (λ fits. (if fits then Some self.new else None)
            ≡ extended self.old line) }
    {
        match line {
            Line::Skipped => Ok(true),
            Line::Base(priorities) => Ok(self.begin(priorities)),
            Line::Put(command) => {
                if !self.is_begun() || !self.may_follow(&command) {
                    return Ok(false);
                }
                self.put(command)?;
                Ok(true)
            }
        }
    }

    /// Was the number of priorities said?
    fn is_begun(&self) -> bool
        ensures { result ≡ is_some self.now.priorities }
    {
        self.priorities.is_some()
    }

    fn begin(&mut self, priorities: u32) -> bool
        ensures { (if result then Some self.new else None) ≡ extended self.old (Line.Base priorities) }
    {
        if self.priorities.is_some() {
            return false;
        }
        self.priorities = Some(priorities);
        true
    }

    /// May the line stand behind those so far?
    fn may_follow(&self, command: &Command) -> bool
        ensures { result ≡ may_follow self.now.commands command.now }
    {
        match command {
            Command::New(event, _, _) => !self.is_made(*event),
            Command::Priority(event, _) => self.is_made(*event),
            Command::Add(event, _) => self.is_made(*event),
            Command::Delete(event) => self.is_made(*event),
            Command::Activate(event) => self.is_made(*event),
            Command::Signal(_, _) => true,
            Command::On(event, _, _) => self.is_made(*event),
            Command::Turn(_) => true,
            Command::Common(_) => true,
        }
    }

    /// Was the event made?
    fn is_made(&self, event: u32) -> bool
        ensures { result ≡ is_made event self.now.commands }
    {
        self.events.contains(&event)
    }

    /// Puts a line behind the others.
    fn put(&mut self, command: Command) -> Result<(), NoMemory>
        ensures priorities { OnOk result (self.new.priorities ≡ self.old.priorities) }
        ensures commands { OnOk result (self.new.commands ≡ self.old.commands ++ command ∷ []) }
    {
        self.events.reserve(1)?;
        self.commands.reserve(1)?;
        keep_name(&mut self.events, &command);
        self.commands.push(command).unwrap();
        Ok(())
    }

    /// The script of all lines, so many; where no line said the number of priorities, that of the line that is
    /// missing.
    fn finish(self, count: usize) -> Result<BaseScript, ScriptFault>
        ensures script { IfOk result (λ script. ended count self.priorities self ≡ Ok script) }
        ensures fault { IfErr result (λ fault. IsTold fault (ended count self.priorities self)) }
    {
        match self.priorities {
            Some(priorities) => Ok(BaseScript {
                priorities,
                commands: self.commands,
            }),
            None => Err(ScriptFault::BadLine(told(count.saturating_add(1)))),
        }
    }
}

/// Keeps the name of the event that a line makes.
fn keep_name(events: &mut Vec<u32>, command: &Command)
    requires { vec_len events.old < vec_capacity events.old }
    ensures { events.new.items ≡ events.old.items ++ made (command.now ∷ []) }
{
    if let Command::New(event, _, _) = command {
        events.push(*event).unwrap();
    }
}

/// Reads a whole script. Takes memory for it and for the words of a line. A text is refused at its first line that is
/// not in the grammar, counted from 1; a text that says no number of priorities, at the line behind its last one. A
/// number above 2^32 - 1 is told as that number. Linear in the text, with one look at up to 256 names for each line.
///
/// Own.
pub fn read_base_script(alloc: Global, text: &[u8]) -> Result<BaseScript, ScriptFault>
    ensures script { IfOk result (λ script. script_of text.now ≡ Ok script) }
    ensures fault { IfErr result (λ fault. IsTold fault (script_of text.now)) }
{
    let mut reading = Reading::new(alloc);
    let mut before: usize = 0;
    let mut rest = text;
    while !rest.is_empty() {
        let (line, after) = first_piece(rest, b'\n');
        before += 1;
        if !reading.read_line(alloc, line)? {
            return Err(ScriptFault::BadLine(told(before)));
        }
        rest = after;
    }
    reading.finish(before)
}
