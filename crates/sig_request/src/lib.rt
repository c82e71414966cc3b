//! The requests of all commands: the bytes of one, taken from a source up to their limit, and the JSON document that
//! they are, read by the table of its members, with its accepted signatures row by row.
//!
//! A request of `log`; request.rt, verify_request.rt, consistency_request.rt and audit_request.rt show whole ones:
//!
//! ```text
//! { "entry": "TDEyMzQ1Ng==", "logIndex": 0, "treeSize": 1, "rootHash": "395aa064..", "hashes": [],
//!   "checkpoint": "log.example\n1\nOVqgZKpM..TVY=\n\n\u2014 log.example AAAAAXNpZw==\n",
//!   "scheme": "ECDSA_P256_SHA256_ASN1", "key": "a2V5", "accepted": [] }
//! ```
//!
//! The layer above uses two facts. A text is read as a request if and only if it is one, of at most 2^24 bytes. And
//! [`read_request`] takes all that a source has left, or one byte more than a request may have.
#![tactic(auto)]

mod audit_request;
mod brief_policy;
mod consistency_request;
mod digest_text;
mod head_members;
pub mod laws;
mod policy_rule;
mod read;
mod request;
mod request_text;
mod row;
mod verify_request;

pub use audit_request::{AuditRequest, HeadText};
pub use brief_policy::BriefPolicy;
pub use consistency_request::ConsistencyRequest;
pub use digest_text::ArtifactDigestReader;
pub use head_members::ClaimedHead;
pub use policy_rule::read_policy;
pub use read::{MOST_BYTES, REQUEST_LIMIT, ReadFault, read_request};
pub use request::LogRequest;
pub use row::{RowReader, SchemeReader, read_accepted};
pub use verify_request::VerifyRequest;
