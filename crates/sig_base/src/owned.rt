//! `Owned`: a value that owns a copy of what was borrowed, as `Bytes` of `&[u8]` and `Text` of `&str`.
ghost use Rattle.std.specs.Prelude.{◌≡◌, IfOk};

use crate::bytes::Bytes;
use crate::memory::OutOfMemory;
use crate::text::Text;
use std::alloc::Global;

/// A value that owns a copy of what was borrowed, which can be borrowed again.
pub trait Owned<'a>: Drop {
    /// What is copied, and what is borrowed: `&[u8]`, `&str`.
    type Borrowed;

    /// The value that owns a copy of this.
    ghost owned: { Self.Borrowed → Self };

    /// Returns a value that owns a copy of what is borrowed. Fails only if out of memory.
    fn own(alloc: Global, borrowed: Self::Borrowed) -> Result<Self, OutOfMemory>
        ensures { IfOk result (λ value. value ≡ owned borrowed) };

    /// Returns what the value owns.
    fn lend(&'a self) -> Self::Borrowed
        ensures { owned result ≡ self.now };
}

impl<'a> Owned<'a> for Bytes {
    type Borrowed = &'a [u8];

    ghost owned = { λ bytes. bytes.now };

    fn own(alloc: Global, borrowed: &'a [u8]) -> Result<Bytes, OutOfMemory> {
        Bytes::copy_of(alloc, borrowed)
    }

    fn lend(&'a self) -> &'a [u8] {
        self.as_slice()
    }
}

impl<'a> Owned<'a> for Text {
    type Borrowed = &'a str;

    ghost owned = { λ text. text.now };

    fn own(alloc: Global, borrowed: &'a str) -> Result<Text, OutOfMemory> {
        Text::copy_of(alloc, borrowed)
    }

    fn lend(&'a self) -> &'a str {
        self.as_str()
    }
}
