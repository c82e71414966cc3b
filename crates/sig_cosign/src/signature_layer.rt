//! `SignatureLayer`: a signature over an image, with all that is known of it.
ghost use Rattle.std.specs.Prelude.{◌≡◌, ◌↔◌, IsTrue, IfOk, IsOkUnless};
ghost use Rattle.sig_base.specs.declared.error.SigstoreError.TheVariants.{OutOfMemory as Memory};
ghost use Rattle.sig_cosign.specs.Layer.{seen_layer};
ghost use Rattle.sig_cosign.specs.Signed.{IsSignedBy, is_signed_by};

use crate::bundle_content::BundleContent;
use sig_base::{Bytes, Result, SignatureChecker, SigstoreError, Text};
use sig_key::{CosignVerificationKey, Signature};
use sig_payload::SimpleSigning;
use sig_signer::CertificateSignature;
use std::alloc::Global;

/// A signature over an image, with all that is known of it. Nothing ties its certificate, what a log says and its
/// signature together, and the signature itself is checked only by [`SignatureLayer::is_signed_by_key`].
#[derive(Drop)]
pub struct SignatureLayer {
    /// What is signed about the image.
    pub simple_signing: SimpleSigning,
    /// The digest of the layer in its registry.
    pub oci_digest: Text,
    /// The signer that a certificate names.
    pub certificate_signature: Option<CertificateSignature>,
    /// What a log says of the signature.
    pub bundle: Option<BundleContent>,
    /// The signature, in base64.
    pub signature: Option<Text>,
    /// The bytes that the signature has to be over.
    pub raw_data: Bytes,
}

impl SignatureLayer {
    /// Whether the layer has a signature, and the checker accepts it over the layer's raw data as this key's. False
    /// also if the signature is not base64, as [`Signature::decode_bytes`] says. Fails only if out of memory.
    pub fn is_signed_by_key<C: SignatureChecker>(
        &self,
        alloc: Global,
        verification_key: &CosignVerificationKey,
        checker: &C,
    ) -> Result<bool>
        // True if and only if there is a signature, it is the base64 of bytes, and the checker accepts these.
        ensures signed { IfOk result (λ signed. IsTrue signed
            ↔ IsSignedBy (C.spki_accepts checker.now) verification_key.now (seen_layer self.now)) }
        // The same in one equation.
        ensures answer { IfOk result (λ signed. signed
            ≡ is_signed_by (C.spki_accepts checker.now) verification_key.now (seen_layer self.now)) }
        ensures only_memory { IsOkUnless result Memory }
    {
        self.check_signed(alloc, verification_key, checker)
    }

    /// The same in one equation.
    fn check_signed<C: SignatureChecker>(
        &self,
        alloc: Global,
        key: &CosignVerificationKey,
        checker: &C,
    ) -> Result<bool>
        ensures answer { IfOk result (λ signed. signed
            ≡ is_signed_by (C.spki_accepts checker.now) key.now (seen_layer self.now)) }
        ensures only_memory { IsOkUnless result Memory }
    {
        let Some(text) = &self.signature else {
            return Ok(false);
        };
        let signature = Signature::Base64Encoded(text.as_str().as_bytes());
        match key.verify_signature(alloc, signature, self.raw_data.as_slice(), checker) {
            Ok(()) => Ok(true),
            Err(SigstoreError::OutOfMemory) => Err(SigstoreError::OutOfMemory),
            Err(_) => Ok(false),
        }
    }
}
