//! The small errors that more than one crate names: each variant is one cause.
use crate::memory::OutOfMemory;
use thiserror::Error;

/// Why bytes are not a DER element, or not a value of the wanted kind. Its reader takes no memory.
#[derive(Clone, Copy, Debug, PartialEq, Eq, Error)]
pub enum DerError {
    /// Bytes are missing.
    #[error("Truncated")]
    Truncated,
    /// The tag's low five bits are all ones: it would continue in further bytes.
    #[error("LongTag")]
    LongTag,
    /// The length is indefinite, longer than four bytes, or not minimal.
    #[error("Length")]
    Length,
    /// Bytes follow the element.
    #[error("Trailing")]
    Trailing,
    /// The element has another tag.
    #[error("WrongTag")]
    WrongTag,
    /// The content is not a value of the element's type.
    #[error("Value")]
    Value,
}

/// Why a text is not a signed checkpoint: the rule of the checkpoint format that is broken first.
#[derive(Clone, Copy, Debug, PartialEq, Eq, Error)]
pub enum CheckpointFault {
    /// No empty line ends a note text.
    #[error("Format")]
    Format,
    /// A signature does not start with an em dash (U+2014).
    #[error("NoDash")]
    NoDash,
    /// A signature does not have three parts between single spaces.
    #[error("SignatureFormat")]
    SignatureFormat,
    /// A signature's third part is not base64.
    #[error("SignatureBase64")]
    SignatureBase64,
    /// A signature has fewer than four bytes.
    #[error("SignatureLength")]
    SignatureLength,
    /// The note has fewer than three lines.
    #[error("NoteFormat")]
    NoteFormat,
    /// The origin is only white space.
    #[error("EmptyOrigin")]
    EmptyOrigin,
    /// The size is not a decimal below 2^64.
    #[error("Size")]
    Size,
    /// The hash is not base64.
    #[error("HashBase64")]
    HashBase64,
    /// The hash does not have 32 bytes.
    #[error("HashLength")]
    HashLength,
}

/// Why a pool has no issuer of a certificate, or could not be made.
#[derive(Clone, Copy, Debug, PartialEq, Eq, Error)]
pub enum PoolError {
    /// The number of intermediates, which is above 1024.
    #[error("TooMany")]
    TooMany(usize),
    /// The certificate at this index of the list is not a trust anchor.
    #[error("Anchor")]
    Anchor(usize),
    /// The leaf does not meet the certificate profile, or its bytes are not a certificate.
    #[error("Malformed")]
    Malformed,
    /// No path leads from the leaf to a trust anchor.
    #[error("VerificationFailed")]
    VerificationFailed,
    /// Out of memory.
    #[error("OutOfMemory")]
    OutOfMemory,
}

impl From<OutOfMemory> for PoolError {
    ghost use Rattle.std.specs.Prelude.{◌≡◌};
    ghost use Rattle.sig_base.specs.declared.fault.PoolError.TheVariants.{OutOfMemory as Memory};

    ghost from_gives = { λ _ e. e ≡ Memory };

    fn from(_error: OutOfMemory) -> PoolError {
        PoolError::OutOfMemory
    }
}

/// Why a text is not an identity token of Sigstore.
#[derive(Clone, Copy, Debug, PartialEq, Eq, Error)]
pub enum TokenFault {
    /// The text is not three parts joined by points.
    #[error("NotThreeParts")]
    NotThreeParts,
    /// The second part is not unpadded base64.
    #[error("ClaimsBase64")]
    ClaimsBase64,
    /// The second part's bytes are not an object of claims.
    #[error("ClaimsJson")]
    ClaimsJson,
    /// The audience is not `sigstore`.
    #[error("NotSigstore")]
    NotSigstore,
}

/// Why a client's trust configuration could not be used.
#[derive(Clone, Copy, Debug, PartialEq, Eq, Error)]
pub enum PkiFault {
    /// The bytes are not a client configuration.
    #[error("NotReadable")]
    NotReadable,
    /// The configuration has no trusted root.
    #[error("TrustedRootMissing")]
    TrustedRootMissing,
}

/// The part of a trusted root that has nothing valid at the time asked.
#[derive(Clone, Copy, Debug, PartialEq, Eq, Error)]
pub enum TrustPart {
    /// No certificate authority.
    #[error("Fulcio")]
    Fulcio,
    /// No Certificate Transparency log.
    #[error("Ctfe")]
    Ctfe,
}
