//! Values as an explanation shows them: members of an object of JSON (RFC 8259) that is being written.
//!
//! ```text
//! {"count":"17",                                                        a number, as a text
//!  "mediaType":"application/..", "mediaTypeLength":"9000",              a text that is cut, with its length in bytes
//!  "notBefore":{"seconds":"1700000000","utc":"2023-11-14T22:13:20Z"},   a time in both forms
//!  "digest":{"sha256":"ba78..15ad"}}                                    a digest
//! ```
//!
//! What the layers above use:
//!
//! - Each call returns the object with its members set, by a definition of the value's tree: `count_tree`,
//!   `integer_tree`, `shown_rows`, `sha256_tree`, `time_tree`, `digest_tree`, and `list_tree` of the tree of an element.
//! - A text is shown whole if it has at most [`MOST_SHOWN`] bytes, and is else cut between two characters.
//! - The text of a time (RFC 3339 section 5.6) names an instant of the second that it stands for, and is there if and only
//!   if the year is one of 1 to 9999.
#![tactic(auto)]

mod digest;
mod list;
mod time;
mod utc;
mod values;

pub use digest::{ShownDigest, with_digest};
pub use list::{Shown, ShownCount, ShownText, first, with_list};
pub use time::with_time;
pub use values::{MOST_SHOWN, with_count, with_integer, with_sha256, with_shown, with_some};
