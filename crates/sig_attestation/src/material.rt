//! What a bundle brings beside its envelope: one signature, one certificate and one log entry.
ghost use Rattle.std.specs.Prelude.{◌≡◌};
ghost use Rattle.sig_attestation.specs.Material.{certificate_in, entry_in, material_in, signature_in};
ghost use Rattle.sig_attestation.specs.BorrowedResults.{borrowed_now};

use crate::refusal::unexpected;
use sig_base::{Bytes, Result, UnexpectedKind};
use sig_bundle::{
    Bundle, DsseSignature, DsseSignatures, LogEntries, MaterialContent, TransparencyLogEntry,
    VerificationMaterial,
};

/// The envelope's signature. Fails with `SignatureCount` if there is not exactly one.
pub(crate) fn only_signature(signatures: &DsseSignatures) -> Result<&DsseSignature>
    ensures { borrowed_now result ≡ signature_in signatures.now }
{
    match signatures.only() {
        Some(signature) => Ok(signature),
        None => Err(unexpected(UnexpectedKind::SignatureCount(signatures.len()))),
    }
}

/// The bundle's material. Fails with `MaterialMissing` if there is none.
pub(crate) fn material_of(bundle: &Bundle) -> Result<&VerificationMaterial>
    ensures { borrowed_now result ≡ material_in bundle.now.verification_material }
{
    match &bundle.verification_material {
        Some(material) => Ok(material),
        None => Err(unexpected(UnexpectedKind::MaterialMissing)),
    }
}

/// The certificate (DER). Fails with `MaterialMissing` if the material does not name a signer, and with
/// `MaterialNotCertificate` if it is not a single certificate.
pub(crate) fn certificate_of(content: &Option<MaterialContent>) -> Result<&Bytes>
    ensures { borrowed_now result ≡ certificate_in content.now }
{
    match content {
        Some(MaterialContent::Certificate(der)) => Ok(der),
        Some(MaterialContent::X509CertificateChain(_) | MaterialContent::PublicKey) => Err(
            unexpected(UnexpectedKind::MaterialNotCertificate),
        ),
        None => Err(unexpected(UnexpectedKind::MaterialMissing)),
    }
}

/// The log entry. Fails with `EntryCount` if there is not exactly one.
pub(crate) fn only_entry(entries: &LogEntries) -> Result<&TransparencyLogEntry>
    ensures { borrowed_now result ≡ entry_in entries.now }
{
    match entries.only() {
        Some(entry) => Ok(entry),
        None => Err(unexpected(UnexpectedKind::EntryCount(entries.len()))),
    }
}
