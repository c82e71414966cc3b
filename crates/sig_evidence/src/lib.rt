//! What the links of the chain of trust compare, as members of JSON: parts of a bundle, of a trusted root and of the
//! accepted signatures. An explanation shows them beside what failed or what was verified.
//!
//! ```text
//! {"integratedTime":{"seconds":"1700000000","utc":"2023-11-14T22:13:20Z"},
//!  "notAfter":{"seconds":"1700000600","utc":"2023-11-14T22:23:20Z"},"notBefore":{..}}
//! ```
//!
//! The layer above uses one fact of each call: it returns the object with members that a definition gives of what it is
//! given, `times_rows` or `sct_rows` for instance, unless memory runs out. Lists are shown to a stated length, beside
//! which a member says how long they are.
#![tactic(auto)]

mod accepted;
mod authorities;
mod body;
mod checks;
mod fault;
mod issuer;
mod logs;
mod sct;
mod trees;

pub use accepted::{MOST_KEY_BYTES, MOST_SIGNATURES, with_accepted, with_accepted_note};
pub use authorities::{MOST_AUTHORITIES, with_authorities};
pub use body::{MOST_COMPARED, with_body};
pub use checks::{MOST_DIGESTS, with_subjects, with_times, with_validity};
pub use fault::with_document_fault;
pub use issuer::{MOST_ANCHORS, with_issuer};
pub use logs::{MOST_LOGS, logs_document, with_log_id};
pub use sct::with_sct;
pub use trees::{note_document, with_proof, with_trees};
