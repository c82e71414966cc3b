//! What it means that a bundle passes its own checks, and that it does not.
ghost use Rattle.std.specs.Prelude.{◌↔◌, Ok};
ghost use Rattle.sig_bundle.specs.declared.bundle.Bundle.{Bundle};
ghost use Rattle.sig_checked_bundle.specs.Checked.{Checked, IsChecked};
ghost use Rattle.sig_checked_bundle.specs.LoggedArtifact.{ArtifactsAreLogged};
ghost use Rattle.sig_checked_bundle.specs.LoggedEnvelope.{EnvelopesAreLogged};
ghost use Rattle.sig_checked_bundle.specs.OfBytes.{HasCertificateOfBytes, IsFirstOfBytes};
ghost use Rattle.sig_checked_bundle.specs.Passed.{IsPassed};
ghost use Rattle.sig_checked_bundle.specs.Refusals.{RefusalsHaveTheirCause};

use sig_base::Entries;
use sig_base::laws::{are_bytes, are_owned_bytes};
use sig_bundle::{Bundle, MaterialContent};

/// A bundle passes its own checks if and only if it has all that the format requires of a signature, over an artifact
/// or a statement, with certificates and one log entry, under its version. It has no code.
pub fn passed_bundles()
    ensures { (bundle : Bundle) (c : Checked) → IsChecked bundle (Ok c) ↔ IsPassed bundle c }
{}

/// Each error of a bundle's own checks comes if and only if it has its cause in the words of the bundle: the rules
/// before it hold, and this one does not. It has no code.
pub fn causes_of_refusals()
    ensures { RefusalsHaveTheirCause }
{}

/// The body of the log entry of a checked bundle is accepted if and only if it has these members. For a signature over
/// an artifact: the artifact's SHA-256 in hexadecimal, the base64 of the bundle's signature, and the base64 of the PEM
/// of the bundle's certificate, each under its name, and no other member. For an envelope: the SHA-256 of the
/// envelope's text and of the payload, each under its name, and as the first signature the envelope's, beside the PEM
/// of the certificate that verifies it. It has no code.
pub fn log_bodies()
    ensures artifacts { ArtifactsAreLogged }
    ensures envelopes { EnvelopesAreLogged }
{}

/// The DER of a bundle's first certificate is bytes. Its call does nothing.
pub fn is_certificate_bytes(bundle: &Bundle)
    ensures { HasCertificateOfBytes bundle.now }
{
    match &bundle.verification_material {
        Some(material) => match &material.content {
            Some(MaterialContent::Certificate(der)) => are_owned_bytes(der),
            Some(MaterialContent::X509CertificateChain(ders)) => is_first_of_bytes(ders),
            _ => (),
        },
        None => (),
    }
}

/// The first of byte strings is bytes.
fn is_first_of_bytes(entries: &Entries)
    ensures { IsFirstOfBytes entries.now }
{
    match entries.get(0) {
        Some(first) => are_bytes(first),
        None => (),
    }
}
