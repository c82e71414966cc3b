//! The layer of a descriptor and its bytes.
ghost use Rattle.std.specs.Prelude.{◌≡◌, Ok, Err, IfOk, IfErr, IsOkUnless, option_map, Result as result_type};
ghost use Rattle.sig_base.specs.Answers.{Answers, OrMemory};
ghost use Rattle.sig_base.specs.declared.error.SigstoreError.{SigstoreError as refusal_type};
ghost use Rattle.sig_base.specs.declared.error.SigstoreError.TheVariants.{OutOfMemory as Memory};
ghost use Rattle.sig_cosign.specs.Layer.{Layer as layer_type, seen_layer};
ghost use Rattle.sig_base.specs.ByText.{text_lookup};
ghost use Rattle.sig_cosign.specs.OciLayer.{IsLayerOf, IsLayerWith, bundle_name, digested, layer_of, noted_answer};
ghost use Rattle.sig_cosign.specs.OciLayer.{parts_answer, payload_answer, promised, signature_answer, typed};
ghost use Rattle.sig_cosign.specs.Seen.{seen_parts};
ghost use Rattle.sig_payload.specs.Signing.{seen_signing};
ghost use Rattle.sig_signer.specs.Signer.{seen_signer};
ghost use Rattle.sig_cosign.specs.Trust.{trust_in};

use crate::bundle_content::BundleContent;
use crate::signature_layer::SignatureLayer;
use crate::signers::signer_among;
use crate::source::{ImageLayer, OciDescriptor};
use crate::unsigned::digest_of;
use sig_base::{Bytes, OutOfMemory, Result, SignatureChecker, SigstoreError, Text, UnexpectedKind};
use sig_key::VerificationKeys;
use sig_payload::{Bundle, SimpleSigning, read_signing};
use sig_signer::CertificateSignature;
use sig_x509::CertificatePool;
use std::alloc::Global;

/// The media type of a payload that `cosign` signed.
const SIGNING_TYPE: &str = "application/vnd.dev.cosign.simplesigning.v1+json";

/// The annotation of the signature.
const SIGNATURE_NAME: &str = "dev.cosignproject.cosign/signature";

/// The annotation of what Rekor promised.
const BUNDLE_NAME: &str = "dev.sigstore.cosign/bundle";

impl SignatureLayer {
    /// Returns the layer of a descriptor and its bytes, of the image whose manifest has the digest
    /// `source_image_digest`, at `now` in seconds since 1970. What Rekor promised is in it if and only if it is noted
    /// and keys of logs are given. The signer is in it if and only if certificate, pool and what Rekor promised are
    /// there, and [`CertificateSignature::from_der_certificate`](crate::CertificateSignature::from_der_certificate)
    /// returns it at the time of the entry. **Nothing ties the three together**, and no signature over the layer is
    /// checked here.
    ///
    /// Errors, the first that applies:
    /// - `SigstoreMediaTypeNotFoundError`: one of the two media types is not
    ///   `application/vnd.dev.cosign.simplesigning.v1+json`;
    /// - `SigstoreLayerDigestMismatchError`: the descriptor's digest is not `sha256:` and the SHA-256 of the bytes in
    ///   lower-case hexadecimal;
    /// - `UnexpectedError` of `LayerUnreadable`: the bytes are not a payload, as [`sig_payload::read_signing`] says;
    /// - `UnexpectedError` of `ImageDigest`: the payload is of another image;
    /// - `SigstoreAnnotationNotFoundError`: there is no annotation `dev.cosignproject.cosign/signature`;
    /// - those of [`Bundle::new_verified`](crate::Bundle::new_verified) for the annotation
    ///   `dev.sigstore.cosign/bundle`, if keys are given;
    /// - `OutOfMemory`.
    pub fn new<C: SignatureChecker>(
        alloc: Global,
        descriptor: &OciDescriptor,
        layer: &ImageLayer,
        source_image_digest: &str,
        rekor_pub_keys: Option<&VerificationKeys>,
        fulcio_cert_pool: Option<&CertificatePool>,
        now: i64,
        checker: &C,
    ) -> Result<SignatureLayer>
        // A layer is the one of the descriptor and its bytes, and an error has its cause, unless memory ran out.
        ensures found { IfOk result (λ made. IsLayerOf
            (trust_in (C.spki_accepts checker.now) (C.cert_accepts checker.now) (option_map (λ k. k.now) rekor_pub_keys.entry)
            (option_map (λ p. p.now) fulcio_cert_pool.entry) now)
            descriptor.now layer.now source_image_digest.now (Ok (seen_layer made))) }
        ensures err { IfErr result (λ e. OrMemory Memory e (IsLayerOf
            (trust_in (C.spki_accepts checker.now) (C.cert_accepts checker.now) (option_map (λ k. k.now) rekor_pub_keys.entry)
            (option_map (λ p. p.now) fulcio_cert_pool.entry) now)
            descriptor.now layer.now source_image_digest.now (Err e))) }
        // The result is this one, unless memory ran out.
        ensures only { (meant : result_type layer_type refusal_type) → IsLayerOf
            (trust_in (C.spki_accepts checker.now) (C.cert_accepts checker.now) (option_map (λ k. k.now) rekor_pub_keys.entry)
            (option_map (λ p. p.now) fulcio_cert_pool.entry) now)
            descriptor.now layer.now source_image_digest.now meant
            → Answers Memory seen_layer result meant }
    {
        match gather_parts(
            alloc,
            descriptor,
            layer,
            source_image_digest,
            rekor_pub_keys,
            checker,
        ) {
            Ok(parts) => with_signer(
                alloc,
                descriptor,
                layer,
                parts,
                fulcio_cert_pool,
                now,
                checker,
            ),
            Err(error) => Err(error),
        }
    }
}

/// What goes into a layer, except for the certificate.
#[derive(Drop)]
struct Parts {
    signing: SimpleSigning,
    signature: Text,
    bundle: Option<BundleContent>,
}

/// What goes into the layer of a descriptor and its bytes, except for the certificate.
#[tactic(auto, unfolding(crate::specs::OciLayer::parts_answer))]
fn gather_parts<C: SignatureChecker>(
    alloc: Global,
    descriptor: &OciDescriptor,
    layer: &ImageLayer,
    source: &str,
    keys: Option<&VerificationKeys>,
    checker: &C,
) -> Result<Parts>
    ensures { Answers Memory seen_parts result (parts_answer (C.spki_accepts checker.now)
        (option_map (λ k. k.now) keys.entry) descriptor.now layer.now source.now) }
{
    check_types(descriptor, layer)?;
    check_digest(alloc, descriptor, layer)?;
    let signing = payload(alloc, source, layer)?;
    match read_noted(alloc, descriptor, keys, checker) {
        Ok(noted) => Ok(Parts {
            signing,
            signature: noted.signature,
            bundle: noted.bundle,
        }),
        Err(error) => {
            drop(signing);
            Err(error)
        }
    }
}

/// Fails with `SigstoreMediaTypeNotFoundError` unless both media types are those of a payload.
fn check_types(descriptor: &OciDescriptor, layer: &ImageLayer) -> Result<()>
    ensures { result ≡ typed descriptor.now layer.now }
{
    if descriptor.media_type.as_str() == SIGNING_TYPE && layer.media_type.as_str() == SIGNING_TYPE {
        Ok(())
    } else {
        Err(SigstoreError::SigstoreMediaTypeNotFoundError)
    }
}

/// Fails with `SigstoreLayerDigestMismatchError` unless the bytes have the descriptor's digest.
fn check_digest(alloc: Global, descriptor: &OciDescriptor, layer: &ImageLayer) -> Result<()>
    ensures { Answers Memory (λ done. done) result (digested descriptor.now layer.now) }
{
    let digest = digest_of(alloc, layer.bytes.as_slice())?;
    if descriptor.digest.as_str() == digest.as_str() {
        Ok(())
    } else {
        Err(SigstoreError::SigstoreLayerDigestMismatchError)
    }
}

/// The payload that the bytes are. Fails with `LayerUnreadable` if they are not one, and with `ImageDigest` if it is
/// of another image.
fn payload(alloc: Global, source: &str, layer: &ImageLayer) -> Result<SimpleSigning>
    ensures { Answers Memory seen_signing result (payload_answer source.now layer.now) }
{
    let signing = read_signing(alloc, layer.bytes.as_slice())?;
    if signing.satisfies_manifest_digest(source) {
        Ok(signing)
    } else {
        drop(signing);
        Err(SigstoreError::UnexpectedError(UnexpectedKind::ImageDigest))
    }
}

/// What is noted beside a layer.
#[derive(Drop)]
struct Noted {
    signature: Text,
    bundle: Option<BundleContent>,
}

/// The signature, and what Rekor promised about it.
fn read_noted<C: SignatureChecker>(
    alloc: Global,
    descriptor: &OciDescriptor,
    keys: Option<&VerificationKeys>,
    checker: &C,
) -> Result<Noted>
    ensures { Answers Memory (λ noted. noted) result (noted_answer (C.spki_accepts checker.now)
        (option_map (λ k. k.now) keys.entry) descriptor.now) }
{
    let signature = signature(alloc, descriptor)?;
    match promised(alloc, descriptor, keys, checker) {
        Ok(bundle) => Ok(Noted { signature, bundle }),
        Err(error) => {
            drop(signature);
            Err(error)
        }
    }
}

/// The text of the signature. Fails with `SigstoreAnnotationNotFoundError` if there is none.
fn signature(alloc: Global, descriptor: &OciDescriptor) -> Result<Text>
    ensures { Answers Memory (λ text. text) result (signature_answer descriptor.now) }
{
    match descriptor.annotations.get(SIGNATURE_NAME) {
        Some(text) => Ok(Text::copy_of(alloc, text)?),
        None => Err(SigstoreError::SigstoreAnnotationNotFoundError),
    }
}

/// What Rekor promised, if it is noted and keys of logs are given.
fn promised<C: SignatureChecker>(
    alloc: Global,
    descriptor: &OciDescriptor,
    keys: Option<&VerificationKeys>,
    checker: &C,
) -> Result<Option<BundleContent>>
    ensures { Answers Memory (λ b. b) result (promised (C.spki_accepts checker.now)
        (option_map (λ k. k.now) keys.entry) (text_lookup bundle_name descriptor.now.annotations)) }
{
    let Some(text) = descriptor.annotations.get(BUNDLE_NAME) else {
        return Ok(None);
    };
    let Some(keys) = keys else {
        return Ok(None);
    };
    let bundle = Bundle::new_verified(alloc, text, keys, checker)?;
    Ok(Some(BundleContent::RekorBundle(bundle)))
}

/// The layer of these parts, with the signer.
fn with_signer<C: SignatureChecker>(
    alloc: Global,
    descriptor: &OciDescriptor,
    layer: &ImageLayer,
    parts: Parts,
    pool: Option<&CertificatePool>,
    now: i64,
    checker: &C,
) -> Result<SignatureLayer>
    ensures found { IfOk result (λ made. IsLayerWith (C.cert_accepts checker.now)
        (option_map (λ p. p.now) pool.entry) now descriptor.now layer.now (seen_parts parts) (seen_layer made)) }
    ensures only { (meant : layer_type) → IsLayerWith (C.cert_accepts checker.now)
        (option_map (λ p. p.now) pool.entry) now descriptor.now layer.now (seen_parts parts) meant
        → IfOk result (λ made. seen_layer made ≡ meant) }
    ensures only_memory { IsOkUnless result Memory }
{
    match signer_among(
        alloc,
        &descriptor.certificate_der,
        pool,
        &parts.bundle,
        now,
        checker,
    ) {
        Ok(signer) => assembled(alloc, descriptor, layer, parts, signer),
        Err(_) => {
            drop(parts);
            Err(SigstoreError::OutOfMemory)
        }
    }
}

/// The layer of these parts. Fails only if out of memory.
fn assembled(
    alloc: Global,
    descriptor: &OciDescriptor,
    layer: &ImageLayer,
    parts: Parts,
    signer: Option<CertificateSignature>,
) -> Result<SignatureLayer>
    ensures made { IfOk result (λ made. seen_layer made
        ≡ layer_of descriptor.now layer.now (seen_parts parts) (option_map seen_signer signer)) }
    ensures only_memory { IsOkUnless result Memory }
{
    match copy_parts(alloc, descriptor, layer) {
        Ok(copies) => Ok(SignatureLayer {
            simple_signing: parts.signing,
            oci_digest: copies.digest,
            certificate_signature: signer,
            bundle: parts.bundle,
            signature: Some(parts.signature),
            raw_data: copies.raw_data,
        }),
        Err(_) => {
            drop(parts);
            drop(signer);
            Err(SigstoreError::OutOfMemory)
        }
    }
}

/// The parts of a descriptor and its bytes that its layer has too.
#[derive(Drop)]
struct Copies {
    digest: Text,
    raw_data: Bytes,
}

/// The copies. Fails only if out of memory.
fn copy_parts(
    alloc: Global,
    descriptor: &OciDescriptor,
    layer: &ImageLayer,
) -> std::result::Result<Copies, OutOfMemory>
    ensures { IfOk result (λ copies. copies ≡ record { digest = descriptor.now.digest; raw_data = layer.now.bytes }) }
{
    Ok(Copies {
        digest: descriptor.digest.copy(alloc)?,
        raw_data: layer.bytes.copy(alloc)?,
    })
}
