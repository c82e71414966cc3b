//! `Bundle`: a signature with all that is needed to check it without a network (Sigstore bundle format).

use crate::material::VerificationMaterial;
use sig_base::{Bytes, Text};
use sig_dsse::DsseEnvelope;

/// What a bundle's text says. Only the kinds of its members are checked.
#[derive(Drop, PartialEq, Eq)]
pub struct Bundle {
    /// The media type, which names the profile that the bundle has to meet.
    pub media_type: Text,
    /// Certificates and log entries.
    pub verification_material: Option<VerificationMaterial>,
    /// The signature, and what it claims to be over.
    pub content: Option<Content>,
}

/// A signature, and what it claims to be over.
#[derive(Drop, PartialEq, Eq)]
pub enum Content {
    /// A signature over an artifact.
    MessageSignature(MessageSignature),
    /// An envelope, whose payload is to be a statement about artifacts.
    DsseEnvelope(DsseEnvelope),
}

/// A signature over an artifact.
#[derive(Drop, PartialEq, Eq)]
pub struct MessageSignature {
    /// The signature itself, not its base64.
    pub signature: Bytes,
    /// The digest that the bundle says the artifact has.
    pub message_digest: Option<Bytes>,
}
