//! The two ends of a program: a [`Source`] of bytes and a [`Sink`] for bytes, each with a count of its faults.
ghost use Rattle.std.specs.Prelude.{Option, List, ℕ};
ghost use Rattle.std.specs.Io.{ReadsAtMost, WritesAtMost};
ghost use Rattle.std.specs.Io.KnownBytes.{ReadConsumes, WriteAppends};
ghost use Rattle.sig_base.specs.Stream.{Hands, HasCause, Moves};

use thiserror::Error;

/// A read or a write failed. It comes only where the count of faults rose in that call, or was at its greatest
/// value.
#[derive(Clone, Copy, Debug, PartialEq, Eq, Error)]
#[error("Failed")]
pub struct Failed;

/// Gives bytes, a piece at a time.
pub trait Source {
    /// The bytes that are left, where the source tells them.
    ghost left: { Self → Option (List ℕ) };

    /// How many faults there were so far.
    ghost faults: { Self → ℕ };

    /// Reads into the front of `buf`, and returns how many bytes. They are the first that were left, and are then
    /// gone; 0 for a buffer that is not empty is returned if and only if nothing is left. `Failed` leaves the bytes
    /// left as they were.
    fn read(&mut self, buf: &mut [u8]) -> Result<usize, Failed>
        ensures bound { ReadsAtMost result buf.new }
        ensures bytes { ReadConsumes (left self.old) (left self.new) result buf.new }
        ensures cause { HasCause (faults self.old) (faults self.new) result };
}

/// Takes bytes, a piece at a time.
pub trait Sink {
    /// The bytes that were taken so far, where the sink tells them.
    ghost taken: { Self → Option (List ℕ) };

    /// The pieces that were given so far, in order, where the sink tells them.
    ghost handed: { Self → Option (List (List ℕ)) };

    /// How many faults there were so far.
    ghost faults: { Self → ℕ };

    /// Takes bytes from the front of `buf`, and returns how many; 0 only for an empty `buf`. `Failed` takes nothing.
    fn write(&mut self, buf: &[u8]) -> Result<usize, Failed>
        ensures bound { WritesAtMost result buf.now }
        ensures moves { Moves result buf.now }
        ensures bytes { WriteAppends (taken self.old) (taken self.new) result buf.now }
        ensures piece { Hands (handed self.old) (handed self.new) buf.now }
        ensures cause { HasCause (faults self.old) (faults self.new) result };
}
