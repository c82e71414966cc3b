//! The layer of a Sigstore bundle.
ghost use Rattle.std.specs.Prelude.{◌≡◌, ◌++◌, Ok, Err, IfOk, IfErr, IsOkUnless, codes, option_map, Result as result_type};
ghost use Rattle.sig_base.specs.Answers.{Answers, OrMemory};
ghost use Rattle.sig_base.specs.declared.error.SigstoreError.{SigstoreError as refusal_type};
ghost use Rattle.sig_base.specs.declared.error.SigstoreError.TheVariants.{OutOfMemory as Memory};
ghost use Rattle.sig_cosign.specs.BundleLayer.{IsBundleLayerOf, IsBundleLayerWith, bundle_layer, place_of};
ghost use Rattle.sig_cosign.specs.Layer.{Layer as layer_type, seen_layer};
ghost use Rattle.sig_cosign.specs.Trust.{trust_in};
ghost use Rattle.sig_signer.specs.Signer.{seen_signer};

use crate::bundle_content::BundleContent;
use crate::signature_layer::SignatureLayer;
use crate::signers::signer_in;
use sig_attestation::{Attestation, read_attestation};
use sig_base::{OutOfMemory, Result, SignatureChecker, SigstoreError, Text};
use sig_key::VerificationKeys;
use sig_payload::{Critical, Identity, Image, SimpleSigning};
use sig_signer::CertificateSignature;
use sig_x509::CertificatePool;
use std::alloc::Global;

impl SignatureLayer {
    /// Returns the layer of a Sigstore bundle that `cosign` made of the image whose manifest has the digest
    /// `source_image_digest`, with or without `sha256:` at its front, at `now` in seconds since 1970. Its raw data is
    /// the pre-authentication encoding of the bundle's envelope, its signature the envelope's. The signer is in it if
    /// and only if a pool is given, and
    /// [`CertificateSignature::from_der_certificate`](crate::CertificateSignature::from_der_certificate) returns it at
    /// the time of the entry. **No signature over the layer is checked here**, only what the log says of it.
    ///
    /// Errors: those of [`read_attestation`](sig_attestation::read_attestation), the first that applies.
    pub fn from_sigstore_bundle<C: SignatureChecker>(
        alloc: Global,
        bundle: &[u8],
        layer_digest: &str,
        source_image_digest: &str,
        source_image_ref: &str,
        fulcio_cert_pool: Option<&CertificatePool>,
        rekor_pub_keys: Option<&VerificationKeys>,
        now: i64,
        checker: &C,
    ) -> Result<SignatureLayer>
        // A layer is the one of the bundle, and an error has its cause, unless memory ran out.
        ensures found { IfOk result (λ made. IsBundleLayerOf
            (trust_in (C.spki_accepts checker.now) (C.cert_accepts checker.now) (option_map (λ k. k.now) rekor_pub_keys.entry)
            (option_map (λ p. p.now) fulcio_cert_pool.entry) now)
            (place_of layer_digest.now source_image_ref.now) source_image_digest.now bundle.now (Ok (seen_layer made))) }
        ensures err { IfErr result (λ e. OrMemory Memory e (IsBundleLayerOf
            (trust_in (C.spki_accepts checker.now) (C.cert_accepts checker.now) (option_map (λ k. k.now) rekor_pub_keys.entry)
            (option_map (λ p. p.now) fulcio_cert_pool.entry) now)
            (place_of layer_digest.now source_image_ref.now) source_image_digest.now bundle.now (Err e))) }
        // The result is this one, unless memory ran out.
        ensures only { (meant : result_type layer_type refusal_type) → IsBundleLayerOf
            (trust_in (C.spki_accepts checker.now) (C.cert_accepts checker.now) (option_map (λ k. k.now) rekor_pub_keys.entry)
            (option_map (λ p. p.now) fulcio_cert_pool.entry) now)
            (place_of layer_digest.now source_image_ref.now) source_image_digest.now bundle.now meant
            → Answers Memory seen_layer result meant }
    {
        match read_attestation(alloc, bundle, source_image_digest, rekor_pub_keys, checker) {
            Ok(attestation) => attested(
                alloc,
                attestation,
                layer_digest,
                source_image_ref,
                fulcio_cert_pool,
                now,
                checker,
            ),
            Err(error) => Err(error),
        }
    }
}

/// The layer of what is attested, with the signer. Fails only if out of memory.
fn attested<C: SignatureChecker>(
    alloc: Global,
    attestation: Attestation,
    digest: &str,
    reference: &str,
    pool: Option<&CertificatePool>,
    now: i64,
    checker: &C,
) -> Result<SignatureLayer>
    ensures found { IfOk result (λ made. IsBundleLayerWith (C.cert_accepts checker.now)
        (option_map (λ p. p.now) pool.entry) now (place_of digest.now reference.now) attestation (seen_layer made)) }
    ensures only { (meant : layer_type) → IsBundleLayerWith (C.cert_accepts checker.now)
        (option_map (λ p. p.now) pool.entry) now (place_of digest.now reference.now) attestation meant
        → IfOk result (λ made. seen_layer made ≡ meant) }
    ensures only_memory { IsOkUnless result Memory }
{
    match signer_in(
        alloc,
        attestation.certificate.as_slice(),
        pool,
        attestation.entry.integrated_time,
        now,
        checker,
    ) {
        Ok(signer) => attested_by(alloc, attestation, digest, reference, signer),
        Err(_) => {
            drop(attestation);
            Err(SigstoreError::OutOfMemory)
        }
    }
}

/// The layer of what is attested, by this signer. Fails only if out of memory.
fn attested_by(
    alloc: Global,
    attestation: Attestation,
    digest: &str,
    reference: &str,
    signer: Option<CertificateSignature>,
) -> Result<SignatureLayer>
    ensures made { IfOk result (λ made. seen_layer made
        ≡ bundle_layer (place_of digest.now reference.now) attestation (option_map seen_signer signer)) }
    ensures only_memory { IsOkUnless result Memory }
{
    match texts_of(alloc, &attestation.sha256, digest, reference) {
        Ok(texts) => Ok(with_texts(attestation, texts, signer)),
        Err(_) => {
            drop(attestation);
            drop(signer);
            Err(SigstoreError::OutOfMemory)
        }
    }
}

/// The texts that the bundle does not have.
#[derive(Drop)]
struct Texts {
    manifest_digest: Text,
    digest: Text,
    reference: Text,
}

/// The texts. Fails only if out of memory.
fn texts_of(
    alloc: Global,
    sha256: &Text,
    digest: &str,
    reference: &str,
) -> std::result::Result<Texts, OutOfMemory>
    ensures { IfOk result (λ texts. texts ≡ record {
      manifest_digest = codes "sha256:" ++ sha256.now;
      digest = digest.now;
      reference = reference.now;
    }) }
{
    let sha256 = sha256.as_str();
    let manifest_digest = Text::from(format!(in alloc; "sha256:{sha256}")?);
    Ok(Texts {
        manifest_digest,
        digest: Text::copy_of(alloc, digest)?,
        reference: Text::copy_of(alloc, reference)?,
    })
}

/// The layer of all its parts.
fn with_texts(
    attestation: Attestation,
    texts: Texts,
    signer: Option<CertificateSignature>,
) -> SignatureLayer
    requires { texts.manifest_digest ≡ codes "sha256:" ++ attestation.sha256 }
    ensures { seen_layer result
        ≡ bundle_layer (place_of texts.digest texts.reference) attestation (option_map seen_signer signer) }
{
    SignatureLayer {
        simple_signing: SimpleSigning {
            critical: Critical {
                identity: Identity {
                    docker_reference: texts.reference,
                },
                image: Image {
                    docker_manifest_digest: texts.manifest_digest,
                },
                type_name: attestation.predicate_type,
            },
            optional: None,
        },
        oci_digest: texts.digest,
        certificate_signature: signer,
        bundle: Some(BundleContent::SigstoreBundle(attestation.entry)),
        signature: Some(attestation.signature),
        raw_data: attestation.signed,
    }
}
