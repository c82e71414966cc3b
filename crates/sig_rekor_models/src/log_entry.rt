//! `LogEntry`: an entry of Rekor as its API returns it.
use crate::body::Body;
use sig_base::Text;
use sig_rekor::RekorInclusionProof;

/// An entry as Rekor's API returns it, with what the log says of it.
#[derive(Drop, PartialEq, Eq)]
pub struct LogEntry {
    /// The entry's identifier.
    pub uuid: Option<Text>,
    /// What Rekor keeps for the entry beside the log.
    pub attestation: Option<Attestation>,
    /// What is logged.
    pub body: Body,
    /// When the entry was logged, in seconds since 1970.
    pub integrated_time: i64,
    /// The log's id: the SHA-256 of its key, in hexadecimal.
    pub log_i_d: Text,
    /// The index of the entry over all shards of the log.
    pub log_index: i64,
    /// What the log proves and promises of the entry.
    pub verification: Verification,
}

/// What Rekor keeps for an entry beside the log. None of its members is known here.
#[derive(Drop, PartialEq, Eq)]
pub struct Attestation {
    /// A text in place of such members.
    pub dummy: Option<Text>,
}

/// What a log proves and promises of an entry.
#[derive(Drop, PartialEq, Eq)]
pub struct Verification {
    /// A proof that the entry is included in the log.
    pub inclusion_proof: Option<RekorInclusionProof>,
    /// The log's promise to include the entry, in base64.
    pub signed_entry_timestamp: Text,
}
