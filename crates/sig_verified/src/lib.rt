//! What was verified for a bundle, as JSON: what an explanation says if every link of the chain of trust holds.
//!
//! ```text
//! {"certificate":{..},"digest":{"sha256":".."},"envelope":{..},"issuedBy":{"anchor":"1"},"policy":{..},
//!  "sct":{..},"tlogEntry":{..}}
//! ```
//!
//! The layer above uses one fact. [`verified`] makes the object of a bundle, of the issuer of its certificate, of the
//! proof of its log entry, of the digest and of the policy, a total function of these; that they were verified is the
//! caller's word. Of the bundle itself only the payload of an envelope is needed, whose SHA-256 is shown.
#![tactic(auto)]

mod certificate;
mod entry;
mod envelope;
pub mod laws;
mod names;
mod run;
mod statement;

pub use names::MOST_NAMES;
pub use run::{VerifiedRun, verified};
pub use statement::{MOST_DIGESTS, MOST_SUBJECTS};
