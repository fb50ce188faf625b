// Where text comes from, and where it goes. A fault is told only where a count rose.
ghost use Rattle.std.specs.Prelude.{◌≡◌, ◌<◌, ℕ, List, [], Option, length, IfSome};
ghost use Rattle.ev_port.specs.FaultCounts.{Counted};
ghost use Rattle.ev_port.specs.StreamBytes.{Gave, TookOn};
ghost use Rattle.ev_port.specs.Stream.{bytes_got, GotWithin, is_read_fault, bytes_taken, TookWithin, is_write_fault};

/// What one read of a source gave. `Got` carries how many bytes, at least 1.
///
/// Own.
#[derive(Clone, Copy, Debug, PartialEq, Eq)]
pub enum Taken {
    Got(usize),
    Ended,
    Failed,
}

/// What one write to a sink did. `Took` carries how many bytes, at least 1.
///
/// Own.
#[derive(Clone, Copy, Debug, PartialEq, Eq)]
pub enum Given {
    Took(usize),
    Failed,
}

/// Where text comes from.
///
/// Own.
pub trait Source {
    /// The bytes that are left to give, where it tells.
    ghost left: { Self → Option (List ℕ) };

    /// How often a read failed, up to the end of a u64.
    ghost faults: { Self → ℕ };

    /// Puts the next bytes in front of `into`, at most as many as it has room for. The end is answered only where
    /// nothing is left.
    fn read(&mut self, into: &mut [u8]) -> Taken
        requires { 0 < length into.old }
        ensures count { GotWithin result (length into.new) }
        ensures bytes { Gave (left self.old) (left self.new) (bytes_got result into.new) }
        ensures ended { result ≡ Taken.Ended → IfSome (left self.old) (λ bytes. bytes ≡ []) }
        ensures cause { Counted (faults self.old) (faults self.new) (is_read_fault result) };
}

/// Where text goes.
///
/// Own.
pub trait Sink {
    /// The bytes that it took, where it tells.
    ghost taken: { Self → Option (List ℕ) };

    /// How often a write failed, up to the end of a u64.
    ghost faults: { Self → ℕ };

    /// Takes the first bytes of `from`, at most all of them.
    fn write(&mut self, from: &[u8]) -> Given
        requires { 0 < length from.now }
        ensures count { TookWithin result (length from.now) }
        ensures bytes { TookOn (taken self.old) (taken self.new) (bytes_taken result from.now) }
        ensures cause { Counted (faults self.old) (faults self.new) (is_write_fault result) };
}
