//! `GateRequest`: the request of `gate`, a manifest.
ghost use Rattle.std.specs.Prelude.{IfOk};
ghost use Rattle.sig_gate_command.specs.Request.{IsReadFrom};

use sig_base::{OutOfMemory, TableChecker};
use sig_manifest::{Manifest, ManifestError, read_manifest};
use sig_request::MOST_BYTES;
use std::alloc::Global;

/// The members of a request of `gate`.
#[derive(Drop)]
pub struct GateRequest {
    /// The manifest, except for `accepted`.
    pub manifest: Manifest,
    /// The signatures that are accepted as genuine.
    pub accepted: TableChecker,
}

impl GateRequest {
    /// Reads a request; `None` if and only if the text has more than 2^24 bytes, or is not a manifest. Fails only if
    /// out of memory.
    #[tactic(auto, using(crate::proofs::Requests::requests))]
    pub fn read(alloc: Global, text: &[u8]) -> Result<Option<GateRequest>, OutOfMemory>
        ensures { IfOk result (IsReadFrom text.now) }
    {
        if text.len() > MOST_BYTES {
            return Ok(None);
        }
        match read_manifest(alloc, text) {
            Ok((manifest, accepted)) => Ok(Some(GateRequest { manifest, accepted })),
            Err(
                ManifestError::NotJson
                | ManifestError::Float
                | ManifestError::Member
                | ManifestError::UnknownRoot(_)
                | ManifestError::UnknownPolicy(_),
            ) => Ok(None),
            Err(ManifestError::OutOfMemory) => Err(OutOfMemory),
        }
    }
}
