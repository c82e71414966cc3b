//! `DsseEnvelope`: a payload with a type, and signatures over both (DSSE protocol).

use crate::signatures::DsseSignatures;
use sig_base::{Bytes, Text};

/// A payload, its type, and the signatures over both.
#[derive(Drop, PartialEq, Eq)]
pub struct DsseEnvelope {
    /// What is signed.
    pub payload: Bytes,
    /// What kind of bytes the payload is: its media type.
    pub payload_type: Text,
    /// The signatures, each over the pre-authentication encoding of type and payload.
    pub signatures: DsseSignatures,
}

/// A signature of an envelope.
#[derive(Drop, PartialEq, Eq)]
pub struct DsseSignature {
    /// The signature over the pre-authentication encoding, not its base64.
    pub sig: Bytes,
    /// A hint at the key that signed; it need not be true.
    pub keyid: Text,
}
