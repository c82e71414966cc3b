//! Standard input and output as a source and a sink. Their contracts do not give the bytes: what the system gives and
//! takes is outside every proof.
ghost use Rattle.std.specs.Prelude.{◌≡◌, None};

use crate::calls::{Calls, read_once, write_once};
use sig_base::{Failed, Sink, Source};
use std::io::{Read, Write};

/// A reader as a source. A call that a signal interrupted is made again. Its count of faults rises at each other
/// error, and stays at the greatest `u64`, where `Failed` may come without a rise.
#[derive(Drop)]
pub struct StdSource<R: Read + Drop> {
    inner: Calls<R>,
    faults: u64,
}

impl<R: Read + Drop> StdSource<R> {
    /// A source of what the reader gives, without a fault so far.
    pub fn new(inner: R) -> StdSource<R>
        ensures { result ≡ record { inner = record { inner = inner }; faults = 0 } }
    {
        StdSource {
            inner: Calls { inner },
            faults: 0,
        }
    }
}

impl<R: Read + Drop> Source for StdSource<R> {
    ghost left = { λ s. R.remaining s.inner.inner };

    ghost faults = { λ s. s.faults };

    fn read(&mut self, buf: &mut [u8]) -> Result<usize, Failed> {
        match read_once(&mut self.inner, buf) {
            Ok(count) => Ok(count),
            Err(_) => {
                self.faults = self.faults.saturating_add(1);
                Err(Failed)
            }
        }
    }
}

/// A writer as a sink. A call that a signal interrupted is made again. Its count of faults rises at each other error,
/// and where nothing was taken of a piece that is not empty; it stays at the greatest `u64`, where `Failed` may come
/// without a rise.
#[derive(Drop)]
pub struct StdSink<W: Write + Drop> {
    inner: Calls<W>,
    faults: u64,
}

impl<W: Write + Drop> StdSink<W> {
    /// A sink into the writer, without a fault so far.
    pub fn new(inner: W) -> StdSink<W>
        ensures { result ≡ record { inner = record { inner = inner }; faults = 0 } }
    {
        StdSink {
            inner: Calls { inner },
            faults: 0,
        }
    }
}

impl<W: Write + Drop> Sink for StdSink<W> {
    ghost taken = { λ s. W.contents s.inner.inner };

    ghost handed = { λ _. None };

    ghost faults = { λ s. s.faults };

    fn write(&mut self, buf: &[u8]) -> Result<usize, Failed> {
        match write_once(&mut self.inner, buf) {
            Ok(count) if count > 0 || buf.is_empty() => Ok(count),
            _ => {
                self.faults = self.faults.saturating_add(1);
                Err(Failed)
            }
        }
    }
}
