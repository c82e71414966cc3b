//! Sigstore bundles: read and written.
//!
//! A bundle, long texts cut short:
//!
//! ```text
//! {"mediaType":"application/vnd.dev.sigstore.bundle.v0.3+json",
//!  "verificationMaterial":{
//!    "certificate":{"rawBytes":"MIIB.."},
//!    "tlogEntries":[{
//!      "logIndex":"900","logId":{"keyId":"RERE.."},"integratedTime":"1702446700",
//!      "inclusionPromise":{"signedEntryTimestamp":"c2lnLXNldA=="},
//!      "inclusionProof":{"logIndex":"2","rootHash":"q7Qx..","treeSize":"5","hashes":["mL0P.."],
//!        "checkpoint":{"envelope":"fixture.log\n5\nq7Qx..\n\n— fixture.log AAAABHNpZy1ub3Rl\n"}},
//!      "canonicalizedBody":"eyJhcGlWZXJzaW9uIjoiMC4wLjEi.."}]},
//!  "dsseEnvelope":{
//!    "payload":"eyJfdHlwZSI6..","payloadType":"application/vnd.in-toto+json",
//!    "signatures":[{"sig":"c2lnLWRzc2U=","keyid":""}]}}
//! ```
//!
//! The layer above uses four facts. A text is read as the bundle that its members are, if and only if they fit the
//! table of the format. The text of a bundle is read back as that bundle. The members of an inclusion proof are taken
//! for a proof if and only if they are one, and else the first wrong one is named. The text of a log's promise is the
//! template of Rekor's signed entry timestamp. `laws` says what equality of bundles and of their parts is.
#![tactic(auto)]

mod bundle;
mod copy;
pub mod laws;
mod log_entries;
mod material;
mod promise;
mod proof;
mod proof_error;
mod read;
mod read_content;
mod read_entry;
mod read_material;
mod write;
mod write_content;
mod write_entry;
mod write_material;

pub use bundle::{Bundle, Content, MessageSignature};
pub use log_entries::LogEntries;
pub use material::{
    KindVersion, MaterialContent, ProofFields, TransparencyLogEntry, VerificationMaterial,
};
pub use promise::promise_text;
pub use proof_error::ProofFieldsError;
pub use read::read_bundle;
pub use sig_dsse::{
    ArtifactDigest, DigestName, Digests, DsseEnvelope, DsseSignature, DsseSignatures,
    InTotoStatementV1,
};
pub use write::bundle_text;
