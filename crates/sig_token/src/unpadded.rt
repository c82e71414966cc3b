//! Base64 of the standard alphabet without padding (RFC 4648 sections 3.2 and 4).
ghost use Rattle.std.specs.Prelude.{◌≡◌, IfOk};
ghost use Rattle.sig_token.specs.Unpadded.{unpadded_bytes};

use base64::DecodeAllocError;
use base64::engine::general_purpose::STANDARD_NO_PAD;
use sig_base::{Bytes, OutOfMemory};
use std::alloc::Global;

/// The bytes of a text in unpadded base64, or `None` if it is not one: other letters, padding, stray bits, a letter
/// too many. The empty text is that of no bytes. Fails only if out of memory.
#[tactic(auto, unfolding(crate::specs::Unpadded::unpadded_bytes))]
pub(crate) fn decode_unpadded(alloc: Global, text: &str) -> Result<Option<Bytes>, OutOfMemory>
    ensures { IfOk result (λ found. found ≡ unpadded_bytes text.now) }
{
    match STANDARD_NO_PAD.decode(alloc, text.as_bytes()) {
        Ok(bytes) => Ok(Some(Bytes::from(bytes))),
        Err(DecodeAllocError::DecodeError(_)) => Ok(None),
        Err(DecodeAllocError::OutOfMemory) => Err(OutOfMemory),
    }
}
