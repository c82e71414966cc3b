//! What an envelope signs: DSSE envelopes (DSSE protocol), and the in-toto statements in them (in-toto attestation
//! framework).
//!
//! An envelope; statement.rt shows a statement:
//!
//! ```text
//! {"payload":"aGVsbG8gd29ybGQ=","payloadType":"application/vnd.in-toto+json","signatures":[{"sig":"c2lnLWRzc2U="}]}
//! ```
//!
//! The layer above uses three facts. The pre-authentication encoding is that of the DSSE protocol, and no two pairs of
//! type and payload have the same. A payload is read as a statement if and only if its members are those of a
//! statement. The digests that are taken of a statement are those that its subjects have under `sha256` and `sha512`,
//! in order, or it is reported which rule is broken first.
#![tactic(auto)]

mod artifact_digest;
mod digest_reader;
mod envelope;
mod envelope_text;
pub mod laws;
mod pae;
mod payload;
mod recognized;
mod signatures;
mod statement;
mod statement_reader;
mod subject_digests;

pub use artifact_digest::{ArtifactDigest, Digests};
pub use envelope::{DsseEnvelope, DsseSignature};
pub use envelope_text::envelope_json;
pub use pae::compute_pae;
pub use payload::{PayloadFault, payload_digests};
pub use recognized::{DigestName, SubjectFault, recognized_digests};
pub use signatures::{DsseSignatures, SparseSignature};
pub use statement::{InTotoStatementV1, Subject, Subjects};
pub use subject_digests::SubjectDigests;
