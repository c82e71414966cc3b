//! The texts that replies of several commands have: refusals, second lines, and lists of signatures.
//!
//! ```text
//! refused note-key 3
//! other list
//! collision 00ab.. 00cd..
//! [{"key":"a2V5","message":"bG9n..YPQo=","operation":"message","scheme":"ED25519","signature":"c2ln"}]
//! ```
//!
//! The layer above uses two facts. Each text is the one that is defined, unless memory runs out. And a list of
//! signatures that is written is read back as these, and fits one request with the request that it is beside.
#![tactic(auto)]

mod note;
mod reply;
mod rows_text;
mod second_line;

pub use note::note_row;
pub use reply::Reply;
pub use rows_text::{add_row, room_beside, rows_document};
pub use second_line::{collision_text, other_text};
