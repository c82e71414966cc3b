//! `SigningArtifact`: what was signed, the signature, and what shows its signer.
ghost use Rattle.std.specs.Prelude.{◌≡◌, IfOk, [], ◌∷◌, Some};
ghost use Rattle.sig_checked_bundle.specs.Version.{media_type};
ghost use Rattle.sig_checked_bundle.specs.declared.version.Version.TheVariants.{Bundle0_2};
ghost use Rattle.sig_signing.specs.Artifact.{bundle_of, material_of};

use sig_base::{Bytes, Entries, OutOfMemory, OwnedList, Text};
use sig_bundle::{
    Bundle, Content, LogEntries, MaterialContent, MessageSignature, TransparencyLogEntry,
    VerificationMaterial,
};
use sig_checked_bundle::Version;
use std::alloc::Global;
use std::marker::Model;

/// A signature over an artifact, with what shows its signer. Contracts see its four parts. Nothing is checked of
/// them.
#[derive(Drop)]
pub struct SigningArtifact {
    input_digest: Bytes,
    cert: Bytes,
    signature: Bytes,
    log_entry: TransparencyLogEntry,
}

impl Model for SigningArtifact {
    ghost use Rattle.sig_signing.specs.Signed.{Signed};

    ghost Value = { Signed };

    ghost view = { λ a. record {
      input_digest = a.input_digest;
      cert = a.cert;
      signature = a.signature;
      log_entry = a.log_entry;
    } };
}

impl SigningArtifact {
    /// The artifact of these parts: the SHA-256 digest of what was signed, the signing certificate (DER), the
    /// signature, and the entry of the log that has it.
    pub fn from_parts(
        input_digest: Bytes,
        cert: Bytes,
        signature: Bytes,
        log_entry: TransparencyLogEntry,
    ) -> SigningArtifact
        ensures { result ≡ record {
          input_digest = input_digest;
          cert = cert;
          signature = signature;
          log_entry = log_entry;
        } }
    {
        SigningArtifact {
            input_digest,
            cert,
            signature,
            log_entry,
        }
    }

    /// Returns the bundle of these parts, of media type 0.2: a chain of the one certificate, the log entry, and the
    /// signature over an artifact of the digest. `bundle_text` writes it, and what it writes is read back as this
    /// bundle. Fails only if out of memory.
    pub fn to_bundle(self, alloc: Global) -> Result<Bundle, OutOfMemory>
        ensures { IfOk result (λ bundle. bundle ≡ bundle_of self) }
    {
        let media_type = media_type(alloc)?;
        let verification_material = material(alloc, self.cert, self.log_entry)?;
        Ok(Bundle {
            media_type,
            verification_material: Some(verification_material),
            content: Some(Content::MessageSignature(MessageSignature {
                signature: self.signature,
                message_digest: Some(self.input_digest),
            })),
        })
    }
}

/// The media type of a bundle of version 0.2.
fn media_type(alloc: Global) -> Result<Text, OutOfMemory>
    ensures { IfOk result (λ text. text ≡ media_type Bundle0_2) }
{
    let version = Version::Bundle0_2;
    Ok(Text::from(format!(in alloc; "{version}")?))
}

/// A chain of only this certificate, and only this log entry.
fn material(
    alloc: Global,
    cert: Bytes,
    log_entry: TransparencyLogEntry,
) -> Result<VerificationMaterial, OutOfMemory>
    ensures { IfOk result (λ material. material ≡ material_of cert log_entry) }
{
    let mut tlog_entries = LogEntries::new(alloc);
    tlog_entries.push(log_entry)?;
    let mut chain = OwnedList::new(alloc);
    chain.push(cert)?;
    Ok(VerificationMaterial {
        content: Some(MaterialContent::X509CertificateChain(Entries::of(alloc, chain))),
        tlog_entries,
    })
}
