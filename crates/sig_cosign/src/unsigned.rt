//! Layers that are to be signed.
ghost use Rattle.std.specs.Prelude.{◌≡◌, IfOk, IsOkUnless};
ghost use Rattle.sig_base.specs.declared.error.SigstoreError.TheVariants.{OutOfMemory as Memory};
ghost use Rattle.sig_cosign.specs.Layer.{seen_layer};
ghost use Rattle.sig_cosign.specs.Unsigned.{digest_of, unsigned_layer, unsigned_text};

use crate::signature_layer::SignatureLayer;
use sig_base::{Bytes, OutOfMemory, Result, Text, sha256};
use sig_json_text::quoted;
use sig_payload::SimpleSigning;
use std::alloc::Global;

impl SignatureLayer {
    /// Returns a layer without a signature: the payload of an image with this reference and this digest of its manifest,
    /// with its JSON as raw data, and the digest of that. Fails only if out of memory.
    pub fn new_unsigned(
        alloc: Global,
        image_ref: &str,
        manifest_digest: &str,
    ) -> Result<SignatureLayer>
        ensures layer { IfOk result (λ layer. seen_layer layer ≡ unsigned_layer image_ref.now manifest_digest.now) }
        ensures only_memory { IsOkUnless result Memory }
    {
        let text = unsigned_text(alloc, image_ref, manifest_digest)?;
        let raw_data = Bytes::copy_of(alloc, text.as_str().as_bytes())?;
        let oci_digest = digest_of(alloc, raw_data.as_slice())?;
        Ok(SignatureLayer {
            simple_signing: SimpleSigning::new(alloc, image_ref, manifest_digest)?,
            oci_digest,
            certificate_signature: None,
            bundle: None,
            signature: None,
            raw_data,
        })
    }
}

/// The text of a payload. Fails only if out of memory.
#[tactic(auto, unfolding(crate::specs::Unsigned::unsigned_text))]
fn unsigned_text(
    alloc: Global,
    image_ref: &str,
    manifest_digest: &str,
) -> std::result::Result<Text, OutOfMemory>
    ensures { IfOk result (λ text. text ≡ unsigned_text image_ref.now manifest_digest.now) }
{
    let reference = quoted(alloc, image_ref)?;
    let digest = quoted(alloc, manifest_digest)?;
    let (reference, digest) = (reference.as_str(), digest.as_str());
    let text = format!(in alloc;
        "{{\"critical\":{{\"identity\":{{\"docker-reference\":{reference}}},\"image\":{{\"docker-manifest-digest\":{digest}}},\"type\":\"cosign container image signature\"}},\"optional\":null}}"
    )?;
    Ok(Text::from(text))
}

/// The digest of some bytes, as registries write it. Fails only if out of memory.
pub(crate) fn digest_of(alloc: Global, bytes: &[u8]) -> std::result::Result<Text, OutOfMemory>
    ensures { IfOk result (λ digest. digest ≡ digest_of bytes.now) }
{
    let digits = hex::encode(alloc, &sha256(bytes))?;
    Ok(Text::from(format!(in alloc; "sha256:{digits}")?))
}
