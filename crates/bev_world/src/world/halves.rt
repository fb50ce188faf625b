// Bytes that are written to a bufferevent and taken from it, and what then goes from one half of a pair to the other.
ghost use Rattle.std.specs.Prelude.{◌≡◌, ◌≢◌, ◌≤◌, ◌<◌, ◌++◌, ◌&&◌, nat_lt, true, None, Some, length, min, take, drop, OnOk, OnErr, IfOk};
ghost use Rattle.std.specs.Prelude.{IfSome};
ghost use Rattle.byte_queue.specs.MemoryAnswers.{AnswersOr, fault_of};
ghost use Rattle.bev_core.specs.BevValue.{new_bev, reaches_low};
ghost use Rattle.bev_world.specs.declared.fault.WorldFault.TheVariants.{Memory};
ghost use Rattle.bev_world.specs.Halves.{WrittenTo, TakenFrom, Roomier, with_spare, passed_on, appended, shortened, other_half, count_with};
ghost use Rattle.bev_world.specs.Halves.{count_without, half_refusal, back_refusal, write_refusal, take_refusal};
ghost use Rattle.bev_world.specs.Refusals.{length_fault};
ghost use Rattle.bev_world.specs.Went.{Went};
ghost use Rattle.bev_world.specs.WorldValue.{bev_at, is_live};

use super::World;
use crate::fault::WorldFault;
use crate::slot::Kind;
use bev_core::{Bev, Dir};
use bev_pair::count;
use ev_types::{BevId, Mode, Why};
use std::mem;

impl World {
    /// Copies bytes to the end of the output. Of a half whose other half is live as many bytes then go on as the pair lets go: none
    /// unless this half has writing and the other reading enabled, and no more than the other takes up to its read high mark. The
    /// other's reason of reading becomes due where bytes came and its input is at least as long as its read low mark, and this one's
    /// of writing where bytes went and its output is at most as long as its write low mark.
    ///
    /// NotLive comes first, then Spent where a length would not fit a usize. Refused for want of memory, there may be more room in
    /// the input of the other half, and nothing else has changed. Takes memory; linear in the length and in what goes on.
    ///
    /// Libevent: event2/bufferevent.h, `bufferevent_write`; "Bufferevents: advanced topics", paired bufferevents.
    pub fn write(&mut self, id: BevId, bytes: &[u8]) -> Result<(), WorldFault>
        ensures answer { AnswersOr Memory result (write_refusal self.old id.0 (length bytes.now)) }
        ensures ok { OnOk result (WrittenTo (other_half self.old id.0) self.old id.0 bytes.now self.new) }
        ensures err { OnErr result (Roomier (other_half self.old id.0) self.old self.new) }
        ensures went { Went self.old self.new }
    {
        let at = self.find(id)?;
        match self.other_half(at) {
            Some(other) => self.write_half(at, other, bytes),
            None => self.write_at(at, bytes),
        }
    }

    /// Moves out the first bytes of the input, as many as are there and fit, and answers how many. Of a half whose other half is
    /// live then as many bytes come as the pair lets go, as of `write` at the other half.
    ///
    /// NotLive comes first, then Spent where the length of the input would not fit a usize. Takes memory only where bytes
    /// come from another half for which there was less room before; linear in what it moves.
    ///
    /// Libevent: event2/bufferevent.h, `bufferevent_read`; "Bufferevents: advanced topics", paired bufferevents.
    pub fn take(&mut self, id: BevId, into: &mut [u8]) -> Result<usize, WorldFault>
        ensures answer { AnswersOr Memory result (take_refusal self.old id.0 (length into.old)) }
        ensures there { IfSome (other_half self.old id.0)
            (λ other. count_without self.old other id.0 (min (length into.old) (length (bev_at self.old id.0).input.bytes)) ≤
            (bev_at self.old id.0).input.spare) → fault_of result ≡ take_refusal self.old id.0 (length into.old) }
        ensures count { IfOk result (λ n. n ≡ min (length into.old) (length (bev_at self.old id.0).input.bytes)) }
        ensures copied { IfOk result (λ n. into.new ≡ take n (bev_at self.old id.0).input.bytes ++ drop n into.old) }
        ensures ok { IfOk result (λ n. TakenFrom (other_half self.old id.0) self.old id.0 n self.new) }
        ensures err { OnErr result (self.new ≡ self.old) }
        ensures into_err { OnErr result (into.new ≡ into.old) }
        ensures went { Went self.old self.new }
    {
        let at = self.find(id)?;
        match self.other_half(at) {
            Some(other) => self.take_half(at, other, into),
            None => Ok(self.take_first(at, into)),
        }
    }

    fn write_half(&mut self, at: usize, other: usize, bytes: &[u8]) -> Result<(), WorldFault>
        requires there { at < length self.old.slots }
        requires other_there { other < length self.old.slots }
        requires apart { at ≢ other }
        requires live { is_live self.old at ≡ true }
        requires other_live { is_live self.old other ≡ true }
        ensures answer { AnswersOr Memory result (half_refusal self.old at other (length bytes.now)) }
        ensures ok { OnOk result (WrittenTo (Some other) self.old at bytes.now self.new) }
        ensures err { OnErr result (Roomier (Some other) self.old self.new) }
    {
        let n = self.count_after_write(at, other, bytes.len())?;
        let blank = self.blank()?;
        self.reserve_at(other, n)?;
        self.write_at(at, bytes)?;
        self.pass_on(blank, at, other, n);
        Ok(())
    }

    fn take_half(&mut self, at: usize, other: usize, into: &mut [u8]) -> Result<usize, WorldFault>
        requires there { at < length self.old.slots }
        requires other_there { other < length self.old.slots }
        requires apart { at ≢ other }
        requires live { is_live self.old at ≡ true }
        requires other_live { is_live self.old other ≡ true }
        ensures answer { AnswersOr Memory result
            (back_refusal (Some other) self.old at (min (length into.old) (length (bev_at self.old at).input.bytes))) }
        ensures there { count_without self.old other at (min (length into.old) (length (bev_at self.old at).input.bytes)) ≤
            (bev_at self.old at).input.spare → fault_of result
            ≡ back_refusal (Some other) self.old at (min (length into.old) (length (bev_at self.old at).input.bytes)) }
        ensures count { IfOk result (λ n. n ≡ min (length into.old) (length (bev_at self.old at).input.bytes)) }
        ensures copied { IfOk result (λ n. into.new ≡ take n (bev_at self.old at).input.bytes ++ drop n into.old) }
        ensures ok { IfOk result (λ n. TakenFrom (Some other) self.old at n self.new) }
        ensures err { OnErr result (self.new ≡ self.old) }
        ensures into_err { OnErr result (into.new ≡ into.old) }
    {
        let n = self.count_after_take(at, other, into.len())?;
        let blank = self.blank()?;
        self.reserve_at(at, n)?;
        let taken = self.take_first(at, into);
        self.pass_on(blank, other, at, n);
        Ok(taken)
    }

    // The other half of a half, where it is live.
    fn other_half(&self, at: usize) -> Option<usize>
        requires { at < length self.now.slots }
        ensures other { result ≡ other_half self.now at }
        ensures there { IfSome result (λ other. (other < length self.now.slots) × (at ≢ other) × (is_live self.now other ≡ true)) }
    {
        match self.slots[at].kind {
            Kind::Half(other) if self.is_live(BevId(other)) => Some(other as usize),
            _ => None,
        }
    }

    // How many bytes go on once so many were written.
    fn count_after_write(&self, at: usize, other: usize, more: usize) -> Result<usize, WorldFault>
        requires there { at < length self.now.slots }
        requires other_there { other < length self.now.slots }
        ensures answer { fault_of result ≡ half_refusal self.now at other more }
        ensures count { IfOk result (λ n. n ≡ count_with self.now at other more) }
    {
        let (mut writer, reader) = (self.slots[at].bev.state(), self.slots[other].bev.state());
        writer.output = (writer.output as usize)
            .checked_add(more)
            .ok_or(WorldFault::Spent)? as u64;
        let n = count(&writer, &reader, Mode::Normal);
        fits(reader.input as usize, n)
    }

    // How many bytes come from the other half once as many as fit into so many were taken.
    fn count_after_take(&self, at: usize, other: usize, most: usize) -> Result<usize, WorldFault>
        requires there { at < length self.now.slots }
        requires other_there { other < length self.now.slots }
        ensures answer { fault_of result ≡ back_refusal (Some other) self.now at (min most (length (bev_at self.now at).input.bytes)) }
        ensures count { IfOk result (λ n. n ≡ count_without self.now other at (min most (length (bev_at self.now at).input.bytes))) }
    {
        let (writer, mut reader) = (self.slots[other].bev.state(), self.slots[at].bev.state());
        reader.input -= reader.input.min(most as u64);
        let n = count(&writer, &reader, Mode::Normal);
        fits(reader.input as usize, n)
    }

    // A new bufferevent, which stands beside the world.
    pub(super) fn blank(&self) -> Result<Bev, WorldFault>
        ensures answer { fault_of result ≡ None }
        ensures bev { IfOk result (λ bev. bev ≡ new_bev) }
    {
        Ok(Bev::new(self.alloc)?)
    }

    // Makes room for n more bytes in an input.
    fn reserve_at(&mut self, at: usize, n: usize) -> Result<(), WorldFault>
        requires there { at < length self.old.slots }
        requires live { is_live self.old at ≡ true }
        ensures answer { AnswersOr Memory result None }
        ensures sure { n ≤ (bev_at self.old at).input.spare → fault_of result ≡ None }
        ensures stays { self.new ≡ with_spare self.old at (bev_at self.new at).input.spare }
        ensures room { OnOk result (n ≤ (bev_at self.new at).input.spare) }
        ensures kept { (bev_at self.old at).input.spare ≤ (bev_at self.new at).input.spare }
        ensures err { OnErr result (self.new ≡ self.old) }
    {
        Ok(self.slots[at].bev.reserve_input(n)?)
    }

    // Copies bytes to the end of an output.
    fn write_at(&mut self, at: usize, bytes: &[u8]) -> Result<(), WorldFault>
        requires there { at < length self.old.slots }
        requires live { is_live self.old at ≡ true }
        ensures answer { AnswersOr Memory result (length_fault (length (bev_at self.old at).output.bytes) (length bytes.now)) }
        ensures ok { OnOk result (self.new ≡ appended self.old at bytes.now (bev_at self.new at).output.spare) }
        ensures err { OnErr result (self.new ≡ self.old) }
    {
        Ok(self.slots[at].bev.write(bytes)?)
    }

    // Moves out the first bytes of an input.
    fn take_first(&mut self, at: usize, into: &mut [u8]) -> usize
        requires { at < length self.old.slots }
        ensures count { result ≡ min (length into.old) (length (bev_at self.old at).input.bytes) }
        ensures copied { into.new ≡ take result (bev_at self.old at).input.bytes ++ drop result into.old }
        ensures after { self.new ≡ shortened self.old at result (bev_at self.new at).input.spare }
        ensures spare { (bev_at self.old at).input.spare ≤ (bev_at self.new at).input.spare }
    {
        let bev = &mut self.slots[at].bev;
        let n = bev.peek(into);
        bev.drain(Dir::Read, n);
        n
    }

    // The first n bytes of an output go to the end of an input, in room that was made before.
    fn pass_on(&mut self, blank: Bev, from: usize, to: usize, n: usize)
        requires there { from < length self.old.slots }
        requires to_there { to < length self.old.slots }
        requires apart { from ≢ to }
        requires room { n ≤ (bev_at self.old to).input.spare }
        ensures { self.new ≡ passed_on self.old from to n (bev_at self.new from).output.spare (bev_at self.new to).input.spare }
    {
        let mut writer = mem::replace(&mut self.slots[from].bev, blank);
        let reader = &mut self.slots[to];
        writer.pour(Dir::Write, &mut reader.bev, n);
        reader.room = reader.room.saturating_sub(n);
        let reads = is_due(&reader.bev, n, Dir::Read);
        let writes = is_due(&writer, n, Dir::Write);
        self.slots[from].bev = writer;
        self.raise_if(reads, to, Why::Read);
        self.raise_if(writes, from, Why::Write);
    }
}

// Bytes moved, and the length calls for the callback.
fn is_due(bev: &Bev, n: usize, dir: Dir) -> bool
    ensures { result ≡ (nat_lt 0 n && reaches_low bev.now dir) }
{
    n > 0 && bev.reaches_low(dir)
}

// So many more bytes than a length, where that fits.
fn fits(len: usize, more: usize) -> Result<usize, WorldFault>
    ensures answer { fault_of result ≡ length_fault len more }
    ensures same { IfOk result (λ n. n ≡ more) }
{
    if more > usize::MAX - len {
        return Err(WorldFault::Spent);
    }
    Ok(more)
}
