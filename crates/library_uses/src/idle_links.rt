// A hook that closes links which nobody uses: it sets a timer as its link is connected, and each time that comes it looks whether anything
// was read meanwhile.
ghost use Rattle.std.specs.Prelude.{◌≡◌, None};
ghost use Rattle.relay_core.specs.Fires.{Steps};
ghost use Rattle.library_uses.specs.Turning.{MayTurn};

use ev_port::Mute;
use ev_types::{NoMemory, PlanLine, SideId, Why};
use relay_core::{AskFault, Ctl, Hook, Settings};
use relay_drive::{Drive, RateGroups, Seats};
use script_port::ScriptPort;
use script_text::read_script;
use std::alloc::Global;
use std::cell::RefCell;
use std::io::Print;
use std::rc::Rc;

/// A link that was closed: when, and how many bytes were read at its two ends.
#[derive(Clone, Copy)]
struct Closed {
    link: u32,
    at: u64,
    read: u64,
}

/// For how many milliseconds a link may be idle.
const AFTER: u64 = 100;

type Log = Rc<RefCell<Vec<Closed>>>;

/// Frees both sides of a link once nothing was read at its ends for so many milliseconds, and notes that.
#[derive(Drop)]
struct IdleCloser {
    after: u64,
    read: u64,
    log: Log,
}

impl Hook for IdleCloser {
    ghost heard = { λ _. None };

    ghost asked = { λ _. None };

    ghost planned = { λ _. None };

    fn plan(&mut self, _lines: &[PlanLine]) -> Result<(), NoMemory> {
        Ok(())
    }

    fn fire(&mut self, ctl: &mut Ctl, why: Why) -> Result<(), NoMemory> {
        match why {
            Why::Connected => wait(ctl, self.after),
            Why::Timer => self.look(ctl),
            _ => Ok(()),
        }
    }
}

impl IdleCloser {
    fn new(log: &Log) -> Result<IdleCloser, NoMemory> {
        Ok(IdleCloser {
            after: AFTER,
            read: 0,
            log: log.clone()?,
        })
    }

    /// Waits once more where something was read since it looked last.
    fn look(&mut self, ctl: &mut Ctl) -> Result<(), NoMemory>
        requires { ctl.old.asks ≡ 0 }
        ensures { Steps ctl.old ctl.new }
    {
        let read = read_at(ctl, ctl.me()).saturating_add(read_at(ctl, ctl.me().peer()));
        if read > self.read {
            self.read = read;
            return wait(ctl, self.after);
        }
        let closed = Closed {
            link: ctl.me().link,
            at: ctl.now(),
            read,
        };
        note(&self.log, closed)?;
        close(ctl);
        Ok(())
    }
}

fn read_at(ctl: &Ctl, side: SideId) -> u64 {
    match ctl.counts(side) {
        Ok(counts) => counts.read,
        Err(_) => 0,
    }
}

fn note(log: &Log, closed: Closed) -> Result<(), NoMemory> {
    if let Ok(mut closings) = log.try_borrow_mut() {
        closings.push(closed)?;
    }
    Ok(())
}

fn wait(ctl: &mut Ctl, after: u64) -> Result<(), NoMemory>
    requires { ctl.old.asks ≡ 0 }
    ensures { Steps ctl.old ctl.new }
{
    match set_timer(ctl, after) {
        Err(AskFault::Memory) => Err(NoMemory),
        _ => Ok(()),
    }
}

fn set_timer(ctl: &mut Ctl, after: u64) -> Result<(), AskFault>
    requires { ctl.old.asks ≡ 0 }
    ensures { Steps ctl.old ctl.new }
{
    ctl.add_timer(ctl.me(), after)
}

// A side that is gone already is as good as freed.
fn close(ctl: &mut Ctl)
    requires { ctl.old.asks ≡ 0 }
    ensures { Steps ctl.old ctl.new }
{
    let me = ctl.me();
    let _peer = ctl.free(me.peer());
    let _own = ctl.free(me);
}

/// Both links are connected at 10. The first says something at 60, and not again.
const TWO_LINKS: &[u8] = b"
    at 0
    open wait
    conn 0 ok
    open wait
    conn 1 ok
    at 10
    at 60
    r 0 in 68656c6c6f
    w 0 out all
    at 110
    at 210
";

/// Two links that are closed after 100 ms without a byte.
pub fn two_links(rt: &impl Print, alloc: Global) -> anyhow::Result<()> {
    let log = Rc::new(alloc, RefCell::new(Vec::new(alloc)))?;
    let first = Box::new(alloc, IdleCloser::new(&log)?)?;
    let second = Box::new(alloc, IdleCloser::new(&log)?)?;
    let mut hooks: Vec<Option<Box<dyn Hook>>> = Vec::new(alloc);
    hooks.push(None)?;
    hooks.push(Some(first))?;
    hooks.push(None)?;
    hooks.push(Some(second))?;
    let mut port = ScriptPort::new(alloc, read_script(alloc, TWO_LINKS)?)?;
    let mut seats = Seats::new(alloc, hooks)?;
    let groups = RateGroups::none(alloc);
    let mut drive = Drive::new(alloc, Settings::usual(), groups, &seats)?;
    let answer = five_turns(&mut drive, &mut seats, &mut port);
    drop(drive);
    drop(seats);
    answer?;
    tell(rt, &log)
}

// The drive is lent, so that it is let go at one place.
fn five_turns(drive: &mut Drive, seats: &mut Seats, port: &mut ScriptPort) -> anyhow::Result<()>
    requires { MayTurn drive.old seats.old.hooks.items seats.old.gone.items }
{
    for _ in 0..5 {
        drive.turn(seats, port, &mut Mute::new())?;
    }
    Ok(())
}

fn tell(rt: &impl Print, log: &Log) -> anyhow::Result<()> {
    if let Ok(closings) = log.try_borrow() {
        for closed in closings.iter() {
            println!(rt;
                "at {}: link {} was idle, and is closed after {} bytes",
                closed.at, closed.link, closed.read
            )?;
        }
    }
    Ok(())
}
