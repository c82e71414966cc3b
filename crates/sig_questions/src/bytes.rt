//! What is read of a certificate whose DER is bytes.
ghost use Rattle.sig_verify.specs.LinkLaws.{IsReadCertificate};

use sig_base::laws::are_bytes;
use sig_checked_bundle::CheckedBundle;

/// The key of a bundle's certificate is bytes, and the reader of SCTs says what the certificate has. Its call does
/// nothing.
pub(crate) fn is_read_certificate(bundle: &CheckedBundle)
    ensures { IsReadCertificate bundle.now }
{
    let certificate = bundle.certificate();
    // What was read of a certificate is of its DER.
    certificate.is_certificate();
    are_bytes(certificate.der());
}
