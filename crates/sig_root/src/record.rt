//! `TrustedRoot`: what the text of a trusted root says (Sigstore trusted root format).

use crate::sparse::{SparseAuthority, SparseInstance};
use sig_base::{Bytes, Entries, OwnedList};

/// The authorities and logs that are trusted. Only the kinds of the members are checked.
#[derive(Drop)]
pub struct TrustedRoot {
    /// Those that issue certificates.
    pub certificate_authorities: OwnedList<SparseAuthority>,
    /// The logs of signatures.
    pub tlogs: OwnedList<SparseInstance>,
    /// The Certificate Transparency logs.
    pub ctlogs: OwnedList<SparseInstance>,
}

/// An authority that issues certificates.
#[derive(Drop)]
pub struct CertificateAuthority {
    /// Its certificates (DER).
    pub cert_chain: Option<Entries>,
    /// When it issued certificates.
    pub valid_for: Option<TimeRange>,
}

/// A log, for as long as it has one key.
#[derive(Drop)]
pub struct TransparencyLogInstance {
    /// The key that it signs with.
    pub public_key: Option<PublicKey>,
    /// The id by which its entries and SCTs name it.
    pub log_id: Option<Bytes>,
}

/// The key of a log.
#[derive(Drop)]
pub struct PublicKey {
    /// Its SubjectPublicKeyInfo (DER).
    pub raw_bytes: Option<Bytes>,
    /// When the log signs with it.
    pub valid_for: Option<TimeRange>,
}

/// A range of time, in whole seconds since 1970, both ends included.
#[derive(Clone, Copy, Drop)]
pub struct TimeRange {
    /// The first second; without it the range has no first and no last second.
    pub start: Option<i64>,
    /// The last second.
    pub end: Option<i64>,
}
