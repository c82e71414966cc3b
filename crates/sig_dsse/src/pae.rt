//! The pre-authentication encoding: the bytes that a signature of an envelope is over (DSSE protocol, "Signature
//! Definition").
ghost use Rattle.std.specs.Prelude.{◌≡◌, IfOk};
ghost use Rattle.sig_dsse.specs.Pae.{pae};

use sig_base::{Bytes, OutOfMemory};
use std::alloc::Global;

/// `DSSEv1`, the length of the type in bytes, the type, the length of the payload in bytes and the payload, a space
/// between each two. Fails only if out of memory.
#[tactic(auto, unfolding(crate::specs::Pae::pae))]
pub fn compute_pae(alloc: Global, payload_type: &str, payload: &[u8]) -> Result<Bytes, OutOfMemory>
    ensures { IfOk result (λ bytes. bytes ≡ pae payload_type.now payload.now) }
{
    let (type_len, payload_len) = (payload_type.len(), payload.len());
    let head = format!(in alloc; "DSSEv1 {type_len} {payload_type} {payload_len} ")?;
    let mut bytes = head.into_bytes();
    bytes.extend_from_slice(payload)?;
    Ok(Bytes::from(bytes))
}
