//! The signing certificate of a bundle: the first of its certificates, which has to be a leaf, and after which there
//! is not a root. The further ones are at most 16. No signature by any of their keys is checked here.

ghost use Rattle.std.specs.Prelude.{◌≡◌, IfOk, IfErr, option_map};
ghost use Rattle.std.specs.List.{list_any};
ghost use Rattle.sig_bundle.specs.AnswersOnly.{AnswersOnly};
ghost use Rattle.sig_checked_bundle.specs.SeenValues.{AreUnreadAfter, IsUnreadAt};
ghost use Rattle.sig_checked_bundle.specs.SigningCertificate.{IsSigningCertificate, encodings_in, is_root};
ghost use Rattle.sig_certificate.specs.Certificate.{IsCertificate};
ghost use Rattle.sig_certificate.specs.Certificates.{AreCertificates};

use crate::bundle_error::BundleErrorKind;
use sig_base::{Bytes, OwnedList};
use sig_bundle::MaterialContent;
use sig_certificate::laws::certificates;
use sig_certificate::{Certificate, X509ReadError, is_leaf, is_root_ca};
use std::alloc::Global;
use std::slice;

/// The greatest number of certificates of a chain: the signing one, and 16 further ones.
const MOST_CERTIFICATES: usize = 17;

/// The signing certificate, and the further ones in order.
#[derive(Drop)]
pub(crate) struct SigningChain {
    /// The signing certificate.
    pub(crate) certificate: Certificate,
    /// The certificates after it.
    pub(crate) further: OwnedList<Certificate>,
}

/// The links `material`, `certificate`, `leaf` and `root-in-chain`, in order. Returns the signing certificate with the
/// further ones.
///
/// Fails with `VerificationMaterialContentUnsupported` if and only if the material holds no certificates: no content,
/// or a hint at a key; then with `TooManyCertificates` and their number if there are more than 17, and none of them is
/// read; with `CertificateMalformed` and the index of the first that cannot be read, `CertificatesMissing` if a chain
/// is empty, `NoLeaf` if the first is not a leaf, and `RootInChain` if a further one is a root.
pub(crate) fn check_certificates(
    alloc: Global,
    content: &Option<MaterialContent>,
) -> Result<SigningChain, BundleErrorKind>
    ensures { AnswersOnly BundleErrorKind.OutOfMemory (IsSigningCertificate content.now) result }
{
    // Bytes are at most one certificate.
    certificates();
    // The link `material`.
    let Some(ders) = encodings(content) else {
        return Err(BundleErrorKind::VerificationMaterialContentUnsupported);
    };
    // The link `certificate`.
    if ders.len() > MOST_CERTIFICATES {
        return Err(BundleErrorKind::TooManyCertificates(ders.len()));
    }
    let Some((first, others)) = ders.split_first() else {
        return Err(BundleErrorKind::CertificatesMissing);
    };
    let certificate = read_certificate(alloc, 0, first.as_slice())?;
    let further = read_further(alloc, others)?;
    // The link `leaf`.
    if let Err(refusal) = is_leaf(&certificate) {
        return Err(BundleErrorKind::NoLeaf(refusal));
    }
    // The link `root-in-chain`.
    if has_root(further.as_slice()) {
        return Err(BundleErrorKind::RootInChain);
    }
    Ok(SigningChain {
        certificate,
        further,
    })
}

/// The encodings (DER) of the certificates, the signing one first. `None` if and only if there are none to read: no
/// content, or a hint at a key.
fn encodings(content: &Option<MaterialContent>) -> Option<&[Bytes]>
    ensures { option_map (λ ders. ders.now) result ≡ encodings_in content.now }
{
    match content {
        Some(MaterialContent::Certificate(der)) => Some(slice::from_ref(der)),
        Some(MaterialContent::X509CertificateChain(ders)) => Some(ders.as_slice()),
        Some(MaterialContent::PublicKey) | None => None,
    }
}

/// The certificate at this index. Fails with `CertificateMalformed` and the index if it cannot be read.
fn read_certificate(alloc: Global, index: usize, der: &[u8]) -> Result<Certificate, BundleErrorKind>
    ensures found { IfOk result (IsCertificate der.now) }
    ensures refused { IfErr result (IsUnreadAt index der.now) }
{
    match Certificate::try_from_der(alloc, der) {
        Ok(certificate) => Ok(certificate),
        Err(X509ReadError::Der) => Err(BundleErrorKind::CertificateMalformed(index)),
        Err(X509ReadError::OutOfMemory) => Err(BundleErrorKind::OutOfMemory),
    }
}

/// The further certificates, of these encodings after the first. Fails with `CertificateMalformed` and the index of the
/// first that cannot be read.
fn read_further(alloc: Global, ders: &[Bytes]) -> Result<OwnedList<Certificate>, BundleErrorKind>
    ensures found { IfOk result (AreCertificates ders.now) }
    ensures refused { IfErr result (AreUnreadAfter ders.now) }
{
    let mut further = OwnedList::new(alloc);
    'ders: for (index, der) in ders.iter().enumerate() {
        let certificate = read_certificate(alloc, index + 1, der.as_slice())?;
        further.push(certificate)?;
    }
    Ok(further)
}

/// Whether any is a root.
fn has_root(certificates: &[Certificate]) -> bool
    ensures { result ≡ list_any is_root certificates.now }
{
    certificates.iter().any(|certificate| is_root(certificate))
}

fn is_root(certificate: &Certificate) -> bool
    ensures { result ≡ is_root certificate.now }
{
    is_root_ca(certificate).is_ok()
}
