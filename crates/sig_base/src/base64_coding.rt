//! Bytes as text in base64: the standard alphabet, with padding and without stray bits (RFC 4648 section 4).
ghost use Rattle.std.specs.Prelude.{◌≡◌, Some, IfOk};
ghost use Rattle.base64.specs.GeneralPurpose.{IsBytes};
ghost use Rattle.sig_base.specs.Base64.{base64_bytes, base64_text};

use crate::bytes::Bytes;
use crate::memory::OutOfMemory;
use crate::text::Text;
use base64::DecodeAllocError;
use base64::engine::general_purpose::STANDARD;
use std::alloc::Global;

impl Bytes {
    /// Returns the bytes of a base64 text, or `None` if it is not one: other letters, line ends, padding that is
    /// missing or too much, stray bits. The empty text is that of no bytes. Fails only if out of memory.
    #[tactic(auto, unfolding(crate::specs::Base64::base64_bytes))]
    pub fn of_base64(alloc: Global, text: &[u8]) -> Result<Option<Bytes>, OutOfMemory>
        ensures { IfOk result (λ found. found ≡ base64_bytes text.now) }
    {
        match STANDARD.decode(alloc, text) {
            Ok(bytes) => Ok(Some(Bytes::from(bytes))),
            Err(DecodeAllocError::DecodeError(_)) => Ok(None),
            Err(DecodeAllocError::OutOfMemory) => Err(OutOfMemory),
        }
    }
}

impl Text {
    /// Returns bytes in base64. Fails only if out of memory.
    #[tactic(auto, unfolding(crate::specs::Base64::base64_text, crate::specs::Base64::base64_bytes))]
    pub fn in_base64(alloc: Global, bytes: &[u8]) -> Result<Text, OutOfMemory>
        ensures text { IfOk result (λ text. text ≡ base64_text bytes.now) }
        ensures back { IfOk result (λ text. base64_bytes text ≡ Some bytes.now) }
        ensures bytes { IsBytes bytes.now }
    {
        let text = STANDARD.encode(alloc, bytes)?;
        Ok(Text::from(text))
    }
}
