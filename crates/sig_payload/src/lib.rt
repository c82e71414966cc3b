//! What `cosign` signs about a container image, and what Rekor promised about a signature, as `cosign` stores both.
//!
//! A payload (simple signing format, containers/image), and what Rekor promised:
//!
//! ```text
//! {"critical":{"identity":{"docker-reference":"registry.example/image"},
//!    "image":{"docker-manifest-digest":"sha256:ba78.."},"type":"cosign container image signature"},
//!  "optional":{"creator":"someone","timestamp":1702446656,"env":"prod"}}
//!
//! {"SignedEntryTimestamp":"MEUCIQ==","Payload":{"body":"eyJraW5k..","integratedTime":1702446656,
//!   "logIndex":56111,"logID":"dd3d306a.."}}
//! ```
//!
//! The layer above uses three facts. A text is read as the payload, or as what Rekor promised, that its members are, if
//! and only if they fit the table of the format. A payload has the required annotations if and only if each is a member
//! with that value. What Rekor promised is returned if and only if the log of its id signed it, and else the first
//! broken rule is the error.
#![tactic(auto)]

mod annotations;
mod bundle;
mod bundle_reader;
pub mod laws;
mod promise;
mod show;
mod signing_reader;
mod simple_signing;

pub use bundle::{Bundle, Payload, SignedArtifactBundle};
pub use signing_reader::read_signing;
pub use simple_signing::{CRITICAL_TYPE_NAME, Critical, Identity, Image, Optional, SimpleSigning};
