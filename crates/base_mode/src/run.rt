// Runs the lines of a script on a base, and gathers the answers.
ghost use Rattle.std.specs.Prelude.{◌≡◌, ◌++◌, ◌+◌, ◌∷◌, [], ◌<◌, ◌≤◌, ◌^◌, length, OnOk, OnErr, IfOk, IfErr, Ok};
ghost use Rattle.std.specs.Option.{ForSome};
ghost use Rattle.event_base.specs.Calls as call;
ghost use Rattle.event_base.specs.Delays.{common};
ghost use Rattle.base_mode.specs.Order.{made};
ghost use Rattle.base_mode.specs.Run.{number_of, answered, called_back, next_fired};
ghost use Rattle.base_mode.specs.Turned.{IsClosed, whole_batch, begun, turn_ended, turned, obeyed, new_fires, recorded, run, all_run};
ghost use Rattle.base_mode.specs.Turned.{start};
ghost use Rattle.base_mode.specs.Stops.{Went, HasFired, HasRun, IsAnswered};

use crate::acts::{number_in, perform_all};
use crate::answer;
use crate::command::{Command, Delay};
use crate::halt::Halt;
use crate::plans::{Plan, acts, note};
use crate::stop::Stop;
use ev_types::NoMemory;
use event_base::{Base, BaseFault, READ};
use std::alloc::Global;
use std::collections::BTreeMap;
use std::marker::Model;

/// The most events of a run. A script names 256 at most.
const MAX_EVENTS: usize = (1 << 32) - 1;

/// The latest moment that a clock can tell, in milliseconds.
const MAX_TIME: u64 = 1 << 62;

/// A run of some lines of a script.
///
/// Own.
#[derive(Drop)]
pub struct Run {
    base: Base,
    time: u64,
    before: Vec<Command>,
    names: Vec<u32>,
    fires: Vec<u64>,
    plans: BTreeMap<u32, Plan>,
    text: Vec<u8>,
}

impl Model for Run {
    ghost use Rattle.base_mode.specs.Run.{RunValue};

    ghost Value = { RunValue };

    ghost use Rattle.base_mode.specs.RunView.{run_of, IsRun};

    ghost view = { run_of };

    ghost invariant = { IsRun };
}

impl Run {
    /// A run of no line, on a base with so many priorities. Its text says that the base was made. Takes memory.
    pub fn new(alloc: Global, priorities: u32) -> Result<Run, NoMemory>
        ensures { IfOk result (λ run. run ≡ start priorities) }
    {
        let Ok(base) = Base::new(alloc, priorities) else {
            return Err(NoMemory);
        };
        let mut text = Vec::new(alloc);
        text.extend_from_slice(b"ok\n")?;
        Ok(Run {
            base,
            time: 0,
            before: Vec::new(alloc),
            names: Vec::new(alloc),
            fires: Vec::new(alloc),
            plans: BTreeMap::new(alloc),
            text,
        })
    }

    /// Runs a line. Takes memory.
    pub fn run(mut self, alloc: Global, line: &Command) -> Result<Run, Stop>
        ensures { HasRun result (run self line.now) }
    {
        match self.obey(alloc, line) {
            Ok(()) => self.record(alloc, line),
            Err(Halt::Spent) => Err(Stop::Spent(self.text)),
            Err(Halt::Memory) => Err(Stop::Memory),
        }
    }

    /// The text of all answers.
    pub fn finish(self) -> Vec<u8>
        ensures { result.items ≡ self.text }
    {
        self.text
    }

    /// Runs what a line asks for, but for what it says of an event.
    fn obey(&mut self, alloc: Global, line: &Command) -> Result<(), Halt>
        ensures { Went result self.new (obeyed self.old line.now) }
    {
        match line {
            Command::New(_, persist, signal) => self.make(alloc, *persist, *signal),
            Command::Priority(event, priority) => self.prioritize(alloc, *event, *priority),
            Command::Add(event, delay) => self.add(alloc, *event, ms_of(delay)),
            Command::Delete(event) => self.delete(alloc, *event),
            Command::Activate(event) => self.activate(alloc, *event),
            Command::Signal(number, count) => self.signal(alloc, *number, *count),
            Command::On(_, _, _) => Ok(()),
            Command::Turn(ms) => self.turn(alloc, *ms),
            Command::Common(ms) => self.common(alloc, *ms),
        }
    }

    /// The number that the base gave to the event of a name, or that of none.
    fn number(&self, event: u32) -> u32
        ensures { result ≡ number_of event (made self.now.before) }
    {
        number_in(&self.names, event)
    }

    fn make(&mut self, alloc: Global, persist: bool, signal: Option<u32>) -> Result<(), Halt>
        ensures { Went result self.new (answered self.old (call.new_event self.old.base persist signal)) }
    {
        let outcome = new_event(&mut self.base, persist, signal);
        put_answer(alloc, &mut self.text, outcome)
    }

    fn prioritize(&mut self, alloc: Global, event: u32, priority: u32) -> Result<(), Halt>
        ensures { Went result self.new (answered self.old (call.set_priority self.old.base (number_of event (made self.old.before)) priority)) }
    {
        let number = self.number(event);
        let outcome = self.base.set_priority(number, priority);
        put_answer(alloc, &mut self.text, outcome)
    }

    fn add(&mut self, alloc: Global, event: u32, delay: Option<u64>) -> Result<(), Halt>
        requires within { ForSome delay (λ ms. ms ≤ 2 ^ 62) }
        ensures { Went result self.new (answered self.old (call.add_event self.old.base (number_of event (made self.old.before)) delay)) }
    {
        let number = self.number(event);
        let outcome = self.base.add_event(number, delay);
        put_answer(alloc, &mut self.text, outcome)
    }

    fn delete(&mut self, alloc: Global, event: u32) -> Result<(), Halt>
        ensures { Went result self.new (answered self.old (call.del_event self.old.base (number_of event (made self.old.before)))) }
    {
        let number = self.number(event);
        let outcome = self.base.del_event(number);
        put_answer(alloc, &mut self.text, outcome)
    }

    fn activate(&mut self, alloc: Global, event: u32) -> Result<(), Halt>
        ensures { Went result self.new (answered self.old (call.activate self.old.base (number_of event (made self.old.before)) 2)) }
    {
        let number = self.number(event);
        let outcome = self.base.activate(number, READ);
        put_answer(alloc, &mut self.text, outcome)
    }

    fn signal(&mut self, alloc: Global, number: u32, count: u32) -> Result<(), Halt>
        ensures { Went result self.new (answered self.old (call.signal self.old.base number count)) }
    {
        let outcome = self.base.signal(number, count);
        put_answer(alloc, &mut self.text, outcome)
    }

    fn common(&mut self, alloc: Global, delay: u64) -> Result<(), Halt>
        ensures { Went result self.new (answered self.old (common self.old.base delay)) }
    {
        let outcome = self.base.common(delay);
        put_answer(alloc, &mut self.text, outcome)
    }

    /// Makes a turn of this moment, in milliseconds.
    fn turn(&mut self, alloc: Global, ms: u64) -> Result<(), Halt>
        ensures { Went result self.new (turned self.old ms) }
    {
        let over = self.base.ended();
        self.begin_turn(alloc, ms)?;
        self.fire_all(alloc)?;
        self.end_turn(alloc, over)
    }

    fn begin_turn(&mut self, alloc: Global, ms: u64) -> Result<(), Halt>
        ensures begun { Went result self.new (begun self.old ms (call.begin_turn self.old.base ms)) }
        ensures closed { OnOk result (IsClosed self.new.base) }
    {
        match self.base.begin_turn(ms) {
            Ok(()) => {}
            Err(BaseFault::Spent) => return Err(Halt::Spent),
            Err(_) => return Err(Halt::Memory),
        }
        self.time = self.time.max(ms.min(MAX_TIME));
        let line = answer::turn(alloc, self.time)?;
        self.text.extend_from_slice(line.as_bytes())?;
        Ok(())
    }

    /// Calls all callbacks of the batch.
    fn fire_all(&mut self, alloc: Global) -> Result<(), Halt>
        requires closed { IsClosed self.old.base }
        ensures { Went result self.new (whole_batch self.old) }
    {
        let mut fires = true;
        while fires {
            fires = self.fire_next(alloc)?;
        }
        Ok(())
    }

    /// Calls the next callback of the batch, and tells whether there was one.
    fn fire_next(&mut self, alloc: Global) -> Result<bool, Halt>
        ensures { HasFired result self.new (next_fired self.old) }
    {
        match self.base.next_active() {
            Ok(Some(fire)) => {
                self.call_back(alloc, fire.0, fire.1)?;
                Ok(true)
            }
            Ok(None) => Ok(false),
            Err(BaseFault::Spent) => Err(Halt::Spent),
            Err(_) => Err(Halt::Memory),
        }
    }

    /// Writes that an event fires, and calls its callback.
    fn call_back(&mut self, alloc: Global, number: u32, flags: u8) -> Result<(), Halt>
        ensures { Went result self.new (called_back self.old number flags) }
    {
        let place = number as usize;
        if place >= self.fires.len() {
            return Ok(());
        }
        let event = self.names[place];
        let line = answer::fire(alloc, event, flags)?;
        self.text.extend_from_slice(line.as_bytes())?;
        let Some(nth) = self.fires[place].checked_add(1) else {
            return Err(Halt::Spent);
        };
        perform_all(&mut self.base, &self.names, acts(&self.plans, event, nth))?;
        self.fires[place] = nth;
        Ok(())
    }

    /// Writes how long to wait for the next turn, unless the loop was over before this one.
    fn end_turn(&mut self, alloc: Global, over: bool) -> Result<(), Halt>
        ensures { Went result self.new (Ok (turn_ended over self.old)) }
    {
        let wait = if over { None } else { self.base.poll_timeout() };
        let line = answer::next(alloc, wait)?;
        self.text.extend_from_slice(line.as_bytes())?;
        Ok(())
    }

    /// Puts a line behind those that were run.
    fn record(self, alloc: Global, line: &Command) -> Result<Run, Stop>
        ensures { HasRun result (Ok (recorded self line.now)) }
    {
        if self.names.len() >= MAX_EVENTS {
            return Err(Stop::Memory);
        }
        let Run {
            base,
            time,
            mut before,
            mut names,
            mut fires,
            mut plans,
            text,
        } = self;
        note(alloc, &mut plans, line)?;
        keep_event(&mut names, &mut fires, line)?;
        before.push(line.again())?;
        Ok(Run {
            base,
            time,
            before,
            names,
            fires,
            plans,
            text,
        })
    }
}

/// How many milliseconds a delay has, where there is one.
fn ms_of(delay: &Option<Delay>) -> Option<u64>
    ensures same { result ≡ delay.now }
    ensures within { ForSome result (λ ms. ms ≤ 2 ^ 62) }
{
    match delay {
        Some(delay) => Some(delay.ms()),
        None => None,
    }
}

/// Keeps the name of the event that a line makes, which has not fired yet.
fn keep_event(names: &mut Vec<u32>, fires: &mut Vec<u64>, line: &Command) -> Result<(), NoMemory>
    ensures names { OnOk result (names.new.items ≡ names.old.items ++ made (line.now ∷ [])) }
    ensures fires { OnOk result (fires.new.items ≡ fires.old.items ++ new_fires line.now) }
    ensures each { OnOk result (length fires.old.items ≡ length names.old.items → length fires.new.items ≡ length names.new.items) }
    ensures few { OnOk result (length names.new.items ≤ length names.old.items + 1) }
{
    if let Command::New(event, _, _) = line {
        names.push(*event)?;
        fires.push(0)?;
    }
    Ok(())
}

/// Makes an event. The base numbers events in the order of making.
fn new_event(base: &mut Base, persist: bool, signal: Option<u32>) -> Result<(), BaseFault>
    ensures ok { OnOk result (call.new_event base.old persist signal ≡ Ok base.new) }
    ensures refused { IfErr result (λ fault. call.IsAnswer fault (call.new_event base.old persist signal)) }
    ensures stays { OnErr result (base.new ≡ base.old) }
{
    match base.new_event(persist, signal) {
        Ok(_) => Ok(()),
        Err(fault) => Err(fault),
    }
}

/// Appends the answer to a call. Where a number is spent or memory ran out, nothing is appended.
fn put_answer(alloc: Global, text: &mut Vec<u8>, outcome: Result<(), BaseFault>) -> Result<(), Halt>
    ensures { IsAnswered outcome result text.old.items text.new.items }
{
    match outcome {
        Ok(()) => text.extend_from_slice(b"ok\n")?,
        Err(BaseFault::Memory) => return Err(Halt::Memory),
        Err(BaseFault::Spent) => return Err(Halt::Spent),
        Err(fault) => {
            let refusal = answer::refusal(alloc, fault)?;
            text.extend_from_slice(refusal.as_bytes())?;
        }
    }
    Ok(())
}

/// Runs some lines, one behind another. Takes memory.
pub fn run_all(alloc: Global, run: Run, lines: &[Command]) -> Result<Run, Stop>
    ensures { HasRun result (all_run run lines.now) }
{
    let mut run = run;
    for line in lines {
        run = run.run(alloc, line)?;
    }
    Ok(run)
}
