// A buffer whose bytes may lie in several chunks, so that all of them go behind those of another without taking memory.
ghost use Rattle.std.specs.Prelude.{◌≡◌, ◌≤◌, ◌<◌, ◌+◌, ◌-◌, ◌^◌, ◌++◌, [], length, drop, take, min};
ghost use Rattle.std.specs.Prelude.{OnOk, OnErr, IfSome, IsOk};
ghost use Rattle.byte_queue.specs.QueuedBytes.{most_spare};
ghost use Rattle.bev_core.specs.BevValue.{nothing};
ghost use Rattle.bev_core.specs.Steps.{more, less, without_room};

use ev_types::NoMemory;
use evbuf_chain::Chain;
use std::alloc::Global;
use std::marker::Model;
use std::mem;

/// Bytes in order, and how many more fit without taking memory. The chain is made when there is room for the first.
///
/// Own.
#[derive(Drop)]
pub(crate) struct Chained {
    alloc: Global,
    chain: Option<Box<Chain>>,
}

impl Model for Chained {
    ghost use Rattle.bev_core.specs.BevValue.{Held};
    ghost use Rattle.bev_core.specs.ChainedView.{chained};

    ghost Value = { Held };

    ghost view = { λ own. chained own.chain };
}

impl Chained {
    pub(crate) fn new(alloc: Global) -> Chained
        ensures { result ≡ nothing }
    {
        Chained { alloc, chain: None }
    }

    pub(crate) fn allocator(&self) -> Global {
        self.alloc
    }

    pub(crate) fn len(&self) -> usize
        ensures len { result ≡ length self.now.bytes }
        ensures fits { length self.now.bytes + self.now.spare < 2 ^ 64 }
    {
        match &self.chain {
            Some(chain) => chain.len(),
            None => 0,
        }
    }

    /// All bytes in one piece, or None where they lie in several chunks.
    pub(crate) fn piece(&self) -> Option<&[u8]>
        ensures { IfSome result (λ piece. piece.now ≡ self.now.bytes) }
    {
        match &self.chain {
            Some(chain) => chain.piece(),
            None => Some(&[]),
        }
    }

    pub(crate) fn copy_out(&self, into: &mut [u8]) -> usize
        ensures count { result ≡ min (length into.old) (length self.now.bytes) }
        ensures copied { into.new ≡ take result self.now.bytes ++ drop result into.old }
    {
        match &self.chain {
            Some(chain) => chain.copy_out(0, into),
            None => 0,
        }
    }

    /// Makes room for at least n more. Takes memory only where there is less.
    pub(crate) fn reserve(&mut self, n: usize) -> Result<(), NoMemory>
        ensures bytes { self.new.bytes ≡ self.old.bytes }
        ensures room { OnOk result (n ≤ self.new.spare) }
        ensures kept { self.old.spare ≤ self.new.spare }
        ensures most { self.new.spare ≤ most_spare self.old.spare n (length self.old.bytes) }
        ensures there { n ≤ self.old.spare → IsOk result }
        ensures still { n ≤ self.old.spare → self.new ≡ self.old }
        ensures err { OnErr result (self.new ≡ self.old) }
    {
        match &mut self.chain {
            Some(chain) => {
                if chain.reserve(n).is_err() {
                    return Err(NoMemory);
                }
            }
            None => {
                let mut chain = Chain::new(self.alloc);
                if n > 0 {
                    if chain.reserve(n).is_err() {
                        return Err(NoMemory);
                    }
                    self.chain = Some(Box::new(self.alloc, chain)?);
                }
            }
        }
        Ok(())
    }

    /// Appends in room that was made before. Takes no memory.
    pub(crate) fn push(&mut self, bytes: &[u8])
        requires { length bytes.now ≤ self.old.spare }
        ensures { self.new ≡ more self.old bytes.now (self.old.spare - length bytes.now) }
    {
        if let Some(chain) = &mut self.chain {
            chain.push_reserved(bytes);
        }
    }

    /// Appends, in the room that is there or in room that it makes.
    pub(crate) fn append(&mut self, bytes: &[u8]) -> Result<(), NoMemory>
        requires { length self.old.bytes + length bytes.now < 2 ^ 64 }
        ensures there { length bytes.now ≤ self.old.spare → IsOk result }
        ensures ok { OnOk result (self.new ≡ more self.old bytes.now self.new.spare) }
        ensures used { length bytes.now ≤ self.old.spare → self.new.spare + length bytes.now ≡ self.old.spare }
        ensures err { OnErr result (self.new ≡ self.old) }
    {
        match &mut self.chain {
            Some(chain) => {
                if chain.push_copy(bytes).is_err() {
                    return Err(NoMemory);
                }
            }
            None => {
                let mut chain = Chain::new(self.alloc);
                if !bytes.is_empty() {
                    if chain.push_copy(bytes).is_err() {
                        return Err(NoMemory);
                    }
                    self.chain = Some(Box::new(self.alloc, chain)?);
                }
            }
        }
        Ok(())
    }

    /// Takes off the first n, or all where there are fewer. Takes no memory.
    pub(crate) fn drain(&mut self, n: usize)
        ensures { self.new ≡ less self.old n self.old.spare }
    {
        if let Some(chain) = &mut self.chain {
            chain.drain(n);
        }
    }

    /// Frees the chain where there is no byte. Takes no memory.
    pub(crate) fn give_up(&mut self)
        ensures { self.new ≡ without_room self.old }
    {
        if self.len() == 0 {
            self.chain = None;
        }
    }

    /// Moves all bytes to the end of another, chunk by chunk. Takes no memory.
    pub(crate) fn move_all(&mut self, to: &mut Chained)
        requires { length to.old.bytes + length self.old.bytes < 2 ^ 64 }
        ensures left { self.new.bytes ≡ [] }
        ensures given { to.new.bytes ≡ to.old.bytes ++ self.old.bytes }
    {
        let Some(chain) = &mut self.chain else {
            return;
        };
        match &mut to.chain {
            Some(behind) => behind.append_all(chain),
            None => mem::swap(&mut self.chain, &mut to.chain),
        }
    }

    /// Moves the first n bytes, or all where there are fewer, to the end of another in room that was made before. Takes no memory.
    pub(crate) fn pour(&mut self, n: usize, to: &mut Chained)
        requires { min n (length self.old.bytes) ≤ to.old.spare }
        ensures left { self.new ≡ less self.old n self.old.spare }
        ensures given { to.new ≡ more to.old (take n self.old.bytes) (to.old.spare - length (take n self.old.bytes)) }
    {
        let n = n.min(self.len());
        if let Some(chain) = &mut self.chain
            && let Some(behind) = &mut to.chain
        {
            chain.pour(n, behind);
        }
    }
}
