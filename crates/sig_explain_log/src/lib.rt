//! Why a request of `log` or `consistency` is refused, or what was verified for it, as JSON; and what the explanations
//! of other commands over a log's checkpoints share with these.
//!
//! ```text
//! {"cause":["Member"],"link":"request","path":"rootHash","why":"Absent"}
//! {"accepted":["key"],"cause":["CheckpointSignatureVerificationError"],"keySha256":"..","link":"note-key",
//!  "messageSha256":"..","scheme":"ED25519"}
//! {"entrySha256":"..","note":{..},"proof":{"logIndex":"2","rootHash":"..","treeSize":"5"}}
//! ```
//!
//! What the layers above use:
//!
//! - [`log_explanation`] and [`consistency_explanation`] make the document of a request and of the link that fails, if
//!   one does: its tree is a total function of both, `log_tree` or `consistency_tree`. The caller says which link is
//!   the first that fails; for a link that holds no cause is shown.
//! - [`request_explanation`] makes that of a text that is not a request: `request_tree` of what is wrong with it.
//! - Each other call returns the object with members that a definition gives for its arguments.
#![tactic(auto)]

mod accepted;
mod consistency;
mod log;
mod proof;
mod reading;
mod request;
mod tree;
mod unread;

pub use accepted::with_unsigned;
pub use consistency::consistency_explanation;
pub use log::log_explanation;
pub use proof::{with_consistency, with_consistency_error, with_inclusion, with_inclusion_error};
pub use request::request_explanation;
pub use tree::{head_document, with_entry, with_head, with_note};
pub use unread::{with_checkpoint_fault, with_unread};
