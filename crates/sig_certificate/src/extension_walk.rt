//! `Extensions`: a walk over the extensions of a certificate, RFC 5280 section 4.1.
ghost use Rattle.std.specs.Prelude.{length};
ghost use Rattle.std.specs.List.{All};
ghost use Rattle.sig_certificate.specs.Places.{AreSpans};

use crate::extensions::ExtensionPlaces;
use crate::lookup::{ExtensionRef, lend};

/// The extensions of a certificate in order, borrowed from it.
#[derive(Drop)]
pub struct Extensions<'a> {
    pub(crate) bytes: &'a [u8],
    pub(crate) left: &'a [ExtensionPlaces],
    ghost within: { All (AreSpans (length bytes.now)) left.now },
}

impl<'a> Iterator for Extensions<'a> {
    ghost use Rattle.std.specs.Iterator.{YieldsFirstBy, item_count};
    ghost use Rattle.sig_certificate.specs.ExtensionsLeft.{extensions_left};
    ghost use Rattle.sig_certificate.specs.Lookups.{borrowed_extension};

    type Item = ExtensionRef<'a>;

    ghost next_gives = { YieldsFirstBy borrowed_extension extensions_left };

    ghost remaining = { item_count extensions_left };

    fn next(&mut self) -> Option<ExtensionRef<'a>> {
        let (first, rest) = self.left.split_first()?;
        self.left = rest;
        Some(lend(self.bytes, first))
    }
}
