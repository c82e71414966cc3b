//! `build_signature_layers`: the layers of a manifest.
ghost use Rattle.std.specs.Prelude.{◌≡◌, Option as option_type, Result as result_type, List as list_type, ℕ, Ok, Err};
ghost use Rattle.std.specs.Prelude.{IfOk, IfErr, map, option_map};
ghost use Rattle.sig_base.specs.Answers.{Answers, OrMemory};
ghost use Rattle.sig_base.specs.ByText.{text_lookup};
ghost use Rattle.sig_base.specs.declared.error.SigstoreError.{SigstoreError as refusal_type};
ghost use Rattle.sig_base.specs.declared.error.SigstoreError.TheVariants.{OutOfMemory as Memory};
ghost use Rattle.sig_cosign.specs.Layer.{Layer as layer_type, seen_layer};
ghost use Rattle.sig_cosign.specs.Manifest.{AreLayersOf, IsBuiltOf, IsLayerIf, IsLayerIn, first_with, or_none};
ghost use Rattle.sig_cosign.specs.Trust.{trust_in};

use crate::signature_layer::SignatureLayer;
use crate::signers::none_unless;
use crate::source::{ImageLayer, OciDescriptor};
use crate::unsigned::digest_of;
use sig_base::{ByText, OutOfMemory, OwnedList, SignatureChecker, SigstoreError};
use sig_key::VerificationKeys;
use sig_x509::CertificatePool;
use std::alloc::Global;

/// Layers in order.
pub type Layers = OwnedList<SignatureLayer>;

/// Returns the layers of a manifest's descriptors, in their order, of the image whose manifest has the digest
/// `source_image_digest`, at `now` in seconds since 1970. The layer of a descriptor is the first of the fetched layers
/// whose bytes have its digest, `sha256:` and lower-case hexadecimal digits; what [`SignatureLayer::new`] makes of both
/// is in the list, unless it fails. A descriptor without such a layer is left out, and so is one from which no layer is
/// made, whatever the error: a caller that has to know it calls [`SignatureLayer::new`]. The layers are found by an
/// index, and each descriptor costs what [`SignatureLayer::new`] costs: a layer that many descriptors name is read, and
/// copied, for each of them.
///
/// Errors:
/// - `SigstoreNoVerifiedLayer` if and only if no layer is made, also if there are no descriptors;
/// - `OutOfMemory`.
pub fn build_signature_layers<C: SignatureChecker>(
    alloc: Global,
    manifest_layers: &[OciDescriptor],
    source_image_digest: &str,
    layers: &[ImageLayer],
    rekor_pub_keys: Option<&VerificationKeys>,
    fulcio_cert_pool: Option<&CertificatePool>,
    now: i64,
    checker: &C,
) -> sig_base::Result<Layers>
    // The layers are those of the descriptors, and the error says that there are no layers, unless memory ran out.
    ensures found { IfOk result (λ made. IsBuiltOf
        (trust_in (C.spki_accepts checker.now) (C.cert_accepts checker.now) (option_map (λ k. k.now) rekor_pub_keys.entry)
        (option_map (λ p. p.now) fulcio_cert_pool.entry) now)
        source_image_digest.now layers.now manifest_layers.now (Ok (map seen_layer made))) }
    ensures err { IfErr result (λ e. OrMemory Memory e (IsBuiltOf
        (trust_in (C.spki_accepts checker.now) (C.cert_accepts checker.now) (option_map (λ k. k.now) rekor_pub_keys.entry)
        (option_map (λ p. p.now) fulcio_cert_pool.entry) now)
        source_image_digest.now layers.now manifest_layers.now (Err e))) }
    // The result is this one, unless memory ran out.
    ensures only { (meant : result_type (list_type layer_type) refusal_type) → IsBuiltOf
        (trust_in (C.spki_accepts checker.now) (C.cert_accepts checker.now) (option_map (λ k. k.now) rekor_pub_keys.entry)
        (option_map (λ p. p.now) fulcio_cert_pool.entry) now)
        source_image_digest.now layers.now manifest_layers.now meant
        → Answers Memory (λ made. map seen_layer made) result meant }
{
    match made_layers(
        alloc,
        manifest_layers,
        source_image_digest,
        layers,
        rekor_pub_keys,
        fulcio_cert_pool,
        now,
        checker,
    ) {
        Ok(made) => unless_empty(made),
        Err(_) => Err(SigstoreError::OutOfMemory),
    }
}

/// The layers of the descriptors, in their order. Fails only if out of memory.
fn made_layers<C: SignatureChecker>(
    alloc: Global,
    descriptors: &[OciDescriptor],
    source: &str,
    layers: &[ImageLayer],
    keys: Option<&VerificationKeys>,
    pool: Option<&CertificatePool>,
    now: i64,
    checker: &C,
) -> Result<Layers, OutOfMemory>
    ensures found { IfOk result (λ made. AreLayersOf
        (trust_in (C.spki_accepts checker.now) (C.cert_accepts checker.now) (option_map (λ k. k.now) keys.entry)
        (option_map (λ p. p.now) pool.entry) now)
        source.now layers.now descriptors.now (map seen_layer made)) }
    ensures only { (meant : list_type layer_type) → AreLayersOf
        (trust_in (C.spki_accepts checker.now) (C.cert_accepts checker.now) (option_map (λ k. k.now) keys.entry)
        (option_map (λ p. p.now) pool.entry) now)
        source.now layers.now descriptors.now meant → IfOk result (λ made. map seen_layer made ≡ meant) }
{
    let firsts = first_layers(alloc, layers)?;
    let mut made = Layers::new(alloc);
    'descriptors: for descriptor in descriptors {
        let layer = firsts.get(descriptor.digest.as_str()).copied();
        let one = layer_in(alloc, descriptor, layer, source, keys, pool, now, checker)?;
        if let Some(one) = one {
            made.push(one)?;
        }
    }
    Ok(made)
}

/// The first layer of each digest. Fails only if out of memory.
fn first_layers<'a>(
    alloc: Global,
    layers: &'a [ImageLayer],
) -> Result<ByText<&'a ImageLayer>, OutOfMemory>
    ensures { IfOk result (λ firsts. (digest : list_type ℕ)
        → option_map (λ l. l.now) (text_lookup digest firsts) ≡ first_with digest layers.now) }
{
    let mut firsts = ByText::new(alloc);
    'layers: for layer in layers {
        let digest = digest_of(alloc, layer.bytes.as_slice())?;
        if firsts.get(digest.as_str()).is_none() {
            firsts.insert(digest.as_str(), layer)?;
        }
    }
    Ok(firsts)
}

/// The layer of a descriptor and its bytes; `None` if there are no bytes, or that has an error. Fails only if out of
/// memory.
fn layer_in<C: SignatureChecker>(
    alloc: Global,
    descriptor: &OciDescriptor,
    layer: Option<&ImageLayer>,
    source: &str,
    keys: Option<&VerificationKeys>,
    pool: Option<&CertificatePool>,
    now: i64,
    checker: &C,
) -> Result<Option<SignatureLayer>, OutOfMemory>
    ensures found { IfOk result (λ one. IsLayerIn
        (trust_in (C.spki_accepts checker.now) (C.cert_accepts checker.now) (option_map (λ k. k.now) keys.entry)
        (option_map (λ p. p.now) pool.entry) now)
        source.now descriptor.now (option_map (λ l. l.now) layer.entry) (option_map seen_layer one)) }
    ensures only { (meant : option_type layer_type) → IsLayerIn
        (trust_in (C.spki_accepts checker.now) (C.cert_accepts checker.now) (option_map (λ k. k.now) keys.entry)
        (option_map (λ p. p.now) pool.entry) now)
        source.now descriptor.now (option_map (λ l. l.now) layer.entry) meant
        → IfOk result (λ one. option_map seen_layer one ≡ meant) }
{
    match layer {
        Some(layer) => layer_if(alloc, descriptor, layer, source, keys, pool, now, checker),
        None => Ok(None),
    }
}

/// The layer of a descriptor and its bytes; `None` if that has an error. Fails only if out of memory.
fn layer_if<C: SignatureChecker>(
    alloc: Global,
    descriptor: &OciDescriptor,
    layer: &ImageLayer,
    source: &str,
    keys: Option<&VerificationKeys>,
    pool: Option<&CertificatePool>,
    now: i64,
    checker: &C,
) -> Result<Option<SignatureLayer>, OutOfMemory>
    ensures found { IfOk result (λ one. IsLayerIf
        (trust_in (C.spki_accepts checker.now) (C.cert_accepts checker.now) (option_map (λ k. k.now) keys.entry)
        (option_map (λ p. p.now) pool.entry) now)
        source.now descriptor.now layer.now (option_map seen_layer one)) }
    ensures only { (meant : option_type layer_type) → IsLayerIf
        (trust_in (C.spki_accepts checker.now) (C.cert_accepts checker.now) (option_map (λ k. k.now) keys.entry)
        (option_map (λ p. p.now) pool.entry) now)
        source.now descriptor.now layer.now meant → IfOk result (λ one. option_map seen_layer one ≡ meant) }
{
    match SignatureLayer::new(alloc, descriptor, layer, source, keys, pool, now, checker) {
        Ok(made) => Ok(Some(made)),
        Err(error) => none_unless(error),
    }
}

/// The layers. Fails with `SigstoreNoVerifiedLayer` if there are none.
fn unless_empty(made: Layers) -> sig_base::Result<Layers>
    ensures { result ≡ or_none made }
{
    if made.len() == 0 {
        return Err(SigstoreError::SigstoreNoVerifiedLayer);
    }
    Ok(made)
}
