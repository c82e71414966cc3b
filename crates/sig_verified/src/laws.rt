//! What the definitions mean. Its calls do nothing.
ghost use Rattle.sig_verified.specs.Certificate.{ShowsSerial};

use sig_certificate::Certificate;

/// A certificate has one serial number, the INTEGER after the version (RFC 5280 section 4.1.2.2), and it is the one that
/// is shown.
#[tactic(auto, using(crate::proofs::SerialNumbers::shows_serial))]
pub fn serial_numbers(certificate: &Certificate)
    ensures { ShowsSerial certificate.now }
{
    certificate.is_certificate();
}
