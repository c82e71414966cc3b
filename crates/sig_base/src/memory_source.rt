//! `MemorySource`: a source over bytes in memory, whose calls can be made to fail.
ghost use Rattle.std.specs.Prelude.{◌≡◌, ℕ, ◌≤◌, ◌↔◌, Some, min, length, IsErr, IfOk, OnOk, OnErr};
ghost use Rattle.std.specs.Io.{ReadsAtMost};
ghost use Rattle.std.specs.Io.KnownBytes.{ReadConsumes};
ghost use Rattle.sig_base.specs.Stream.{HasCause};
ghost use Rattle.sig_base.specs.MemoryStream.{FailsAt, one_more};

use crate::bytes::Bytes;
use crate::owned_list::Numbers;
use crate::stream::{Failed, Source};
use std::marker::Model;

/// A source over bytes in memory. Contracts see a `Supply`: what is left, the greatest count of one call, which calls
/// fail, and the counts of calls and of faults, which both stay at the greatest `u64`.
#[derive(Drop)]
pub struct MemorySource {
    held: Bytes,
    at: usize,
    piece: usize,
    failing: Numbers,
    calls: usize,
    faults: u64,
}

impl Model for MemorySource {
    ghost use Rattle.std.specs.Prelude.{◌≤◌, length, drop};
    ghost use Rattle.sig_base.specs.MemoryStream.{Supply};

    ghost Value = { Supply };

    ghost view = { λ s. record {
      left = drop s.at s.held;
      piece = s.piece;
      failing = s.failing;
      calls = s.calls;
      faults = s.faults;
    } };

    ghost invariant = { λ s. (s.at ≤ length s.held) × (1 ≤ s.piece) };
}

impl MemorySource {
    /// A source of these bytes, of which each call gives at most `piece`; the calls with these numbers, counted from
    /// 0, fail.
    pub fn new(held: Bytes, piece: usize, failing: Numbers) -> MemorySource
        requires { 1 ≤ piece }
        ensures { result ≡ record { left = held; piece = piece; failing = failing; calls = 0; faults = 0 } }
    {
        MemorySource {
            held,
            at: 0,
            piece,
            failing,
            calls: 0,
            faults: 0,
        }
    }
}

impl Source for MemorySource {
    ghost left = { λ s. Some s.left };

    ghost faults = { λ s. s.faults };

    /// Fails exactly at the calls whose numbers were given, and then changes nothing but the two counts.
    fn read(&mut self, buf: &mut [u8]) -> Result<usize, Failed>
        ensures bound { ReadsAtMost result buf.new }
        ensures bytes { ReadConsumes (Some self.old.left) (Some self.new.left) result buf.new }
        ensures cause { HasCause self.old.faults self.new.faults result }
        ensures fails { IsErr result ↔ FailsAt self.old.failing self.old.calls }
        ensures count { IfOk result (λ n. n ≡ min (min (length self.old.left) (length buf.old)) self.old.piece) }
        ensures moved { OnOk result (self.new ≡ record self.old {
          left = self.new.left;
          calls = one_more self.old.calls;
        }) }
        ensures failed { OnErr result (self.new ≡ record self.old {
          calls = one_more self.old.calls;
          faults = one_more self.old.faults;
        }) }
    {
        let call = self.calls;
        self.calls = call.saturating_add(1);
        if call < usize::MAX && self.failing.as_slice().contains(&call) {
            self.faults = self.faults.saturating_add(1);
            return Err(Failed);
        }
        let (_, rest) = self.held.as_slice().split_at(self.at);
        let count = rest.len().min(buf.len()).min(self.piece);
        let (front, _) = rest.split_at(count);
        buf[..count].copy_from_slice(front);
        self.at += count;
        Ok(count)
    }
}
