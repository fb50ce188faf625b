// A filter of one's own: it drops every byte 0. It is proved against its definition, and passes bytes between two bufferevents.
ghost use Rattle.std.specs.Prelude.{◌≡◌, ◌≤◌, ◌+◌, ◌&&◌, false, length, vec_len, vec_capacity};
ghost use Rattle.library_uses.specs.NoZeros.{but_zero};
ghost use Rattle.stream_filters.specs.Bytewise.{GivesBytes};
ghost use Rattle.stream_filters.specs.StepAnswers.{is_last};

use bev_core::{Bev, Dir};
use bev_filter::process_input_by;
use std::alloc::Global;
use std::io::Print;
use stream_filters::{FilterFault, Mode, Step, StreamFilter};

/// Drops every byte 0.
#[derive(Drop)]
pub(crate) struct NoZeros {
    used: u64,
    finished: bool,
}

impl NoZeros {
    /// One that has used nothing.
    pub(crate) fn new() -> NoZeros
        ensures { result ≡ record { used = 0; finished = false } }
    {
        NoZeros {
            used: 0,
            finished: false,
        }
    }
}

impl StreamFilter for NoZeros {
    ghost use Rattle.std.specs.Prelude.{◌≡◌, length, None};
    ghost use Rattle.library_uses.specs.NoZeros.{but_zero};
    ghost use Rattle.stream_filters.specs.Bytewise.{bytewise, bytewise_is_lawful};

    ghost filter = { λ _. bytewise but_zero };

    ghost reached = { λ f. record { used = f.used; finished = f.finished; stopped = None } };

    ghost known = { λ f xs. f.used ≡ length xs };

    ghost lawful = { bytewise_is_lawful but_zero _ _ (λ f xs known. known) };

    fn used(&self) -> u64 {
        self.used
    }

    fn is_finished(&self) -> bool {
        self.finished
    }

    fn stopped(&self) -> Option<u64> {
        None
    }

    fn copied(&self) -> NoZeros {
        NoZeros {
            used: self.used,
            finished: self.finished,
        }
    }

    fn step(
        &mut self,
        src: &[u8],
        dst: &mut Vec<u8>,
        limit: usize,
        mode: Mode,
    ) -> Result<Step, FilterFault> {
        if self.finished {
            return Ok(Step {
                used: 0,
                finished: true,
            });
        }
        if src.len() as u64 > u64::MAX - self.used {
            return Err(FilterFault::Spent);
        }
        dst.reserve(src.len())?;
        let used = keep(src, dst, limit);
        self.used += used as u64;
        self.finished = is_over(mode, used == src.len());
        Ok(Step {
            used,
            finished: self.finished,
        })
    }
}

/// Appends all bytes but 0, in room that was made before, until the target is at the limit. How many bytes it looked at.
fn keep(src: &[u8], dst: &mut Vec<u8>, limit: usize) -> usize
    requires room { vec_len dst.old + length src.now ≤ vec_capacity dst.old }
    ensures gives { GivesBytes but_zero limit src.now dst.old.items dst.new.items result }
{
    let mut at = 0;
    while at < src.len() && dst.len() < limit {
        if src[at] != 0 {
            dst.push(src[at]).unwrap();
        }
        at += 1;
    }
    at
}

/// Whether the stream is over: no more will come, and all was used.
fn is_over(mode: Mode, all: bool) -> bool
    ensures { result ≡ (is_last mode && all) }
{
    match mode {
        Mode::Normal | Mode::Flush => false,
        Mode::Finished => all,
    }
}

/// Passes a text with zeros into an input that takes 3 bytes at a time.
pub fn without_zeros(rt: &impl Print, alloc: Global) -> anyhow::Result<()> {
    let mut under = Bev::new(alloc)?;
    let answer = pass(rt, alloc, &mut under);
    drop(under);
    answer
}

// The lower one is lent, so that it is let go at one place.
fn pass(rt: &impl Print, alloc: Global, under: &mut Bev) -> anyhow::Result<()> {
    under.feed(Dir::Read, b"\0a\0\0bc\0d\0")?;
    let mut over = Bev::new(alloc)?;
    let mut filter = NoZeros::new();
    let first = process_input_by(under, &mut over, &mut filter, 3, Mode::Finished)?;
    println!(rt; "{} bytes used, {} passed", first.used, over.len(Dir::Read))?;
    if filter.is_finished() {
        return Ok(());
    }
    let rest = process_input_by(under, &mut over, &mut filter, 9, Mode::Finished)?;
    println!(rt; "{} bytes used, {} passed", rest.used, over.len(Dir::Read))?;
    Ok(())
}
