//! Reads and writes, one call at a time. A call that a signal interrupted is made again, and no other.
ghost use Rattle.std.specs.Prelude.{◌≡◌, ◌↔◌, IsTrue, List, None, Option, ℕ};
ghost use Rattle.std.specs.Io.{ReadsAtMost, WritesAtMost};
ghost use Rattle.std.specs.Io.KnownBytes.{ReadConsumes, WriteAppends};
ghost use Rattle.std.specs.IoError.{error_kind};
ghost use Rattle.std.specs.declared.io.ErrorKind.TheVariants.{Interrupted};
ghost use Rattle.sigverify.specs.Calls.{AreMadeUntil, Outcome, Tells, outcome_of};

use std::io::{self, ErrorKind, Read, Write};

/// Reads, a call at a time.
pub trait ReadCalls {
    /// The bytes that calls will give from here on, where they are known.
    ghost remaining: { Self → Option (List ℕ) };

    /// The outcome of each call so far, if it is known.
    ghost calls: { Self → Option (List Outcome) };

    /// Makes one call.
    fn read_call(&mut self, buf: &mut [u8]) -> io::Result<usize>
        ensures bound { ReadsAtMost result buf.new }
        ensures bytes { ReadConsumes (remaining self.old) (remaining self.new) result buf.new }
        ensures told { Tells (calls self.old) (calls self.new) (outcome_of result) };
}

/// Writes, a call at a time.
pub trait WriteCalls {
    /// The bytes that calls wrote so far, where they are known.
    ghost contents: { Self → Option (List ℕ) };

    /// The outcome of each call so far, if it is known.
    ghost calls: { Self → Option (List Outcome) };

    /// Makes one call.
    fn write_call(&mut self, buf: &[u8]) -> io::Result<usize>
        ensures bound { WritesAtMost result buf.now }
        ensures bytes { WriteAppends (contents self.old) (contents self.new) result buf.now }
        ensures told { Tells (calls self.old) (calls self.new) (outcome_of result) };
}

/// The calls of a reader or a writer of `std`, which does not report them.
#[derive(Drop)]
pub struct Calls<T: Drop> {
    pub inner: T,
}

impl<R: Read + Drop> ReadCalls for Calls<R> {
    ghost remaining = { λ c. R.remaining c.inner };

    ghost calls = { λ _. None };

    fn read_call(&mut self, buf: &mut [u8]) -> io::Result<usize> {
        self.inner.read(buf)
    }
}

impl<W: Write + Drop> WriteCalls for Calls<W> {
    ghost contents = { λ c. W.contents c.inner };

    ghost calls = { λ _. None };

    fn write_call(&mut self, buf: &[u8]) -> io::Result<usize> {
        self.inner.write(buf)
    }
}

/// Makes calls until one is not interrupted, and returns what that one returned. Of 2^64 - 1 calls each may be
/// interrupted; then the error is of that kind.
pub fn read_once<R: ReadCalls>(reader: &mut R, buf: &mut [u8]) -> io::Result<usize>
    ensures bound { ReadsAtMost result buf.new }
    ensures bytes { ReadConsumes (R.remaining reader.old) (R.remaining reader.new) result buf.new }
    ensures calls { AreMadeUntil (R.calls reader.old) (R.calls reader.new) (outcome_of result) }
{
    'calls: for _count in 0..u64::MAX {
        match reader.read_call(buf) {
            Ok(count) => return Ok(count),
            Err(error) if is_interrupted(&error) => {}
            Err(error) => return Err(error),
        }
    }
    Err(io::Error::from(ErrorKind::Interrupted))
}

/// Whether a signal interrupted the call, which then moved nothing.
fn is_interrupted(error: &io::Error) -> bool
    ensures { IsTrue result ↔ (error_kind error.now ≡ Interrupted) }
{
    error.kind() == ErrorKind::Interrupted
}

/// Makes calls until one is not interrupted, and returns what that one returned, as `read_once`.
pub fn write_once<W: WriteCalls>(writer: &mut W, buf: &[u8]) -> io::Result<usize>
    ensures bound { WritesAtMost result buf.now }
    ensures bytes { WriteAppends (W.contents writer.old) (W.contents writer.new) result buf.now }
    ensures calls { AreMadeUntil (W.calls writer.old) (W.calls writer.new) (outcome_of result) }
{
    'calls: for _count in 0..u64::MAX {
        match writer.write_call(buf) {
            Ok(count) => return Ok(count),
            Err(fault) if is_interrupted(&fault) => {}
            Err(fault) => return Err(fault),
        }
    }
    Err(io::Error::from(ErrorKind::Interrupted))
}
