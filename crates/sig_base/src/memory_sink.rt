//! `MemorySink`: a sink over memory of a fixed size, whose calls can be made to fail.
ghost use Rattle.std.specs.Prelude.{◌≡◌, ◌⊎◌, ℕ, ◌+◌, ◌≤◌, ◌<◌, ◌↔◌, Some, None, [], min, length, IsErr, IfOk, OnOk};
ghost use Rattle.std.specs.Prelude.{OnErr};
ghost use Rattle.std.specs.Io.{WritesAtMost};
ghost use Rattle.std.specs.Io.KnownBytes.{WriteAppends};
ghost use Rattle.sig_base.specs.Stream.{Hands, HasCause, Moves};
ghost use Rattle.sig_base.specs.MemoryStream.{FailsAt, one_more};

use crate::memory::OutOfMemory;
use crate::owned_list::Numbers;
use crate::stream::{Failed, Sink};
use std::alloc::Global;
use std::marker::Model;

/// A sink over memory of a fixed size. Contracts see a `Store`: what was taken, the room that is left, the greatest
/// count of one call, which calls fail, and the counts of calls and of faults, which both stay at the greatest `u64`.
#[derive(Drop)]
pub struct MemorySink {
    held: Vec<u8>,
    end: usize,
    piece: usize,
    failing: Numbers,
    calls: usize,
    faults: u64,
}

impl Model for MemorySink {
    ghost use Rattle.std.specs.Prelude.{◌≤◌, ◌-◌, length, take};
    ghost use Rattle.sig_base.specs.MemoryStream.{Store};

    ghost Value = { Store };

    ghost view = { λ s. record {
      taken = take s.end s.held.items;
      room = length s.held.items - s.end;
      piece = s.piece;
      failing = s.failing;
      calls = s.calls;
      faults = s.faults;
    } };

    ghost invariant = { λ s. (s.end ≤ length s.held.items) × (1 ≤ s.piece) };
}

impl MemorySink {
    /// A sink with room for `room` bytes, which it takes here and not in a write. Each call takes at most `piece`; the
    /// calls with these numbers, counted from 0, fail. Fails only if out of memory.
    pub fn new(
        alloc: Global,
        room: usize,
        piece: usize,
        failing: Numbers,
    ) -> Result<MemorySink, OutOfMemory>
        requires { 1 ≤ piece }
        ensures { IfOk result (λ s. s ≡ record {
          taken = [];
          room = room;
          piece = piece;
          failing = failing;
          calls = 0;
          faults = 0;
        }) }
    {
        let held = vec![in alloc; 0; room]?;
        Ok(MemorySink {
            held,
            end: 0,
            piece,
            failing,
            calls: 0,
            faults: 0,
        })
    }

    /// The bytes that were taken so far.
    pub fn taken(&self) -> &[u8]
        ensures { result.now ≡ self.now.taken }
    {
        let (taken, _) = self.held.as_slice().split_at(self.end);
        taken
    }
}

impl Sink for MemorySink {
    ghost taken = { λ s. Some s.taken };

    ghost handed = { λ _. None };

    ghost faults = { λ s. s.faults };

    /// Fails exactly at the calls whose numbers were given, and where `buf` is not empty and no room is left. It then
    /// changes nothing but the two counts.
    fn write(&mut self, buf: &[u8]) -> Result<usize, Failed>
        ensures bound { WritesAtMost result buf.now }
        ensures moves { Moves result buf.now }
        ensures bytes { WriteAppends (Some self.old.taken) (Some self.new.taken) result buf.now }
        ensures piece { Hands None None buf.now }
        ensures cause { HasCause self.old.faults self.new.faults result }
        ensures fails { IsErr result ↔ (FailsAt self.old.failing self.old.calls
            ⊎ ((self.old.room ≡ 0) × (0 < length buf.now))) }
        ensures count { IfOk result (λ n. n ≡ min (min self.old.room (length buf.now)) self.old.piece) }
        ensures moved { OnOk result (self.new ≡ record self.old {
          taken = self.new.taken;
          room = self.new.room;
          calls = one_more self.old.calls;
        }) }
        ensures room { IfOk result (λ n. self.new.room + n ≡ self.old.room) }
        ensures failed { OnErr result (self.new ≡ record self.old {
          calls = one_more self.old.calls;
          faults = one_more self.old.faults;
        }) }
    {
        let call = self.calls;
        self.calls = call.saturating_add(1);
        let room = self.held.len() - self.end;
        let told = call < usize::MAX && self.failing.as_slice().contains(&call);
        if told || (room == 0 && !buf.is_empty()) {
            self.faults = self.faults.saturating_add(1);
            return Err(Failed);
        }
        let count = room.min(buf.len()).min(self.piece);
        let (front, _) = buf.split_at(count);
        let end = self.end + count;
        self.held[self.end..end].copy_from_slice(front);
        self.end = end;
        Ok(count)
    }
}
