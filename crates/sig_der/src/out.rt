//! `DerOut`: an element whose content is written piece by piece.

ghost use Rattle.std.specs.Prelude.{◌≡◌, ◌≢◌, ◌%◌, ◌^◌, ◌≤◌, [], ◌++◌, ◌↔◌, length, IfOk, OnOk, OnErr, IsErrOf};
ghost use Rattle.sig_der.specs.Element.{IsElement};

use crate::write::{DerWriteError, write_element};
use sig_base::{Bytes, OutOfMemory};
use std::alloc::Global;
use std::marker::Model;

/// The content of an element to be written. Contracts see the list of its bytes.
#[derive(Drop)]
pub struct DerOut {
    alloc: Global,
    content: Vec<u8>,
}

impl Model for DerOut {
    ghost use Rattle.std.specs.Prelude.{ℕ, List};

    ghost Value = { List ℕ };

    ghost view = { λ o. o.content.items };
}

impl DerOut {
    /// Returns an element without content. Takes no memory.
    pub fn new(alloc: Global) -> DerOut
        ensures { result ≡ [] }
    {
        DerOut {
            alloc,
            content: Vec::new(alloc),
        }
    }

    /// Appends the bytes to the content. Fails only if out of memory, and then changes nothing.
    pub fn push(&mut self, bytes: &[u8]) -> Result<(), OutOfMemory>
        ensures ok { OnOk result (self.new ≡ self.old ++ bytes.now) }
        ensures err { OnErr result (self.new ≡ self.old) }
    {
        self.content.extend_from_slice(bytes)?;
        Ok(())
    }

    /// Returns the element of this tag and of the content. Fails with `TooLong` if and only if the content has 2^32
    /// bytes or more, and with `OutOfMemory`.
    ///
    /// The low five bits of the tag are not all ones.
    pub fn close(self, tag: u8) -> Result<Bytes, DerWriteError>
        requires { tag % 32 ≢ 31 }
        ensures ok { IfOk result (λ t. IsElement t tag self) }
        ensures too_long { IsErrOf result DerWriteError.TooLong ↔ (2 ^ 32 ≤ length self) }
    {
        write_element(self.alloc, tag, &self.content)
    }
}
