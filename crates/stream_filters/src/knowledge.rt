// What a running filter keeps of its input.
ghost use Rattle.std.specs.Prelude.{◌≡◌, ◌+◌, ◌<◌, ◌^◌, length, Some, None, true, false};
ghost use Rattle.std.specs.List.{last_or};

/// All that a running filter knows.
///
/// Own.
#[derive(Clone, Copy, Debug, PartialEq, Eq)]
pub(crate) struct Knowledge {
    /// How many bytes it used.
    pub(crate) used: u64,
    /// The last of them.
    pub(crate) last: Option<u8>,
    pub(crate) finished: bool,
    /// The bad place at which it stopped.
    pub(crate) stopped: Option<u64>,
}

impl Knowledge {
    pub(crate) fn new() -> Knowledge
        ensures { result ≡ record { used = 0; last = None; finished = false; stopped = None } }
    {
        Knowledge {
            used: 0,
            last: None,
            finished: false,
            stopped: None,
        }
    }

    /// The last byte that it will have used behind these.
    pub(crate) fn last_behind(&self, bytes: &[u8]) -> Option<u8>
        ensures { result ≡ last_or self.now.last bytes.now }
    {
        bytes.last().copied().or(self.last)
    }

    /// Takes note of bytes that were used.
    pub(crate) fn use_bytes(&mut self, bytes: &[u8])
        requires { self.old.used + length bytes.now < 2 ^ 64 }
        ensures { self.new ≡ record self.old { used = self.old.used + length bytes.now; last = last_or self.old.last bytes.now } }
    {
        self.used += bytes.len() as u64;
        self.last = self.last_behind(bytes);
    }
}
