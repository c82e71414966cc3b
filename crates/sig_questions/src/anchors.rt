//! The trust anchors of a root.
ghost use Rattle.std.specs.Prelude.{IfOk};
ghost use Rattle.std.specs.List.{AllByRecursion};
ghost use Rattle.sig_certificate.specs.Certificate.{IsCertificate};
ghost use Rattle.sig_certificate.specs.Certificates.{AreCertificates};
ghost use Rattle.sig_verify.specs.RootLinks.{IsSomeAnchor};

use sig_base::{Entries, OutOfMemory, OwnedList};
use sig_certificate::{Certificate, X509ReadError};
use sig_x509::TrustAnchors;
use std::alloc::Global;

/// Reads the certificates of trust anchors. Fails only if out of memory.
pub(crate) fn read_anchors(alloc: Global, ders: &Entries) -> Result<TrustAnchors, OutOfMemory>
    requires { AllByRecursion IsSomeAnchor ders.now }
    ensures { IfOk result (AreCertificates ders.now) }
{
    let mut anchors = OwnedList::new(alloc);
    'ders: for der in ders.as_slice() {
        let anchor = read_anchor(alloc, der.as_slice())?;
        anchors.push(anchor)?;
    }
    TrustAnchors::new(alloc, anchors)
}

/// Reads the certificate of a trust anchor.
fn read_anchor(alloc: Global, der: &[u8]) -> Result<Certificate, OutOfMemory>
    requires { IsSomeAnchor der.now }
    ensures { IfOk result (IsCertificate der.now) }
{
    match Certificate::try_from_der(alloc, der) {
        Ok(anchor) => Ok(anchor),
        Err(X509ReadError::OutOfMemory) => Err(OutOfMemory),
        Err(X509ReadError::Der) => unreachable!(),
    }
}
