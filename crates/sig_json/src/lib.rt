//! JSON documents (RFC 8259) without floats: one way in, a view of the tree, readers of the members that the formats
//! of Sigstore have, and writers of objects.
//!
//! The grammar of RFC 8259, as far as it has a value here, white space left out:
//!
//! ```text
//! value  = "null" / "true" / "false" / number / string / array / object
//! object = "{" [ member *( "," member ) ] "}"
//! member = string ":" value
//! array  = "[" [ value *( "," value ) ] "]"
//! number = "0" / [ "-" ] digit1-9 *digit            ; no fraction, no exponent, no "-0"
//! ```
//!
//! A number is an integer from -2^63 to 2^64 - 1; a text whose tree holds any other fails with `Float`. Arrays and
//! objects nest to 127 at most. Of members with the same name the last counts.
//!
//! What the layer above uses:
//!
//! - `Document::read` returns the tree of a text if and only if the text has one without floats. A document that is
//!   built is the tree that was asked for. In both, an object has each name once. Documents, and views of them, are
//!   equal if and only if their trees are.
//! - A `BorrowedDocument` is the same tree for a caller that drops it before the text: its names and texts are borrowed.
//!   Records are read from such trees.
//! - A document that is read for the members of some names is the whole one without the others, and fails as the whole
//!   one does. No tree is made of the others. A list beside them is read element by element, and no tree is made of the
//!   list. The text is gone through once.
//! - `Json`, a view, shows what the tree is; the members of an object come in the byte order of their names. What
//!   writes the whole tree takes it as a `Tree`, level by level.
//! - A reader returns what the member means by its row of a table, and fails with `Member` if and only if the member
//!   breaks that row. The records that a bundle and a trusted root both have are read so too.
//! - An `Object`, which is written member by member, has the members that were set. What an `ElementWriter` writes is
//!   read back by the reader that it names, and so is a list of it.
//!
//! `laws` says what the definitions mean.
#![tactic(auto)]

mod any;
mod borrowed_document;
mod build;
mod change;
mod closed;
mod common;
mod copy;
mod document;
mod element;
mod equality;
mod error;
mod floats;
mod integer;
mod kept;
mod kind;
pub mod laws;
mod member;
mod members;
mod members_and_list;
mod notes;
mod number;
mod number_kind;
mod object;
mod order;
mod owned;
mod part;
mod read;
mod record;
mod room;
mod skip;
mod sort;
mod stream;
mod tree;
mod view;
mod words;
mod write_value;

pub use any::AnyReader;
pub use borrowed_document::BorrowedDocument;
pub use common::{CertificateReader, ChainReader, LogIdReader};
pub use document::Document;
pub use element::{ElementReader, optional, optional_list, read_list, required, required_list};
pub use error::{DocumentError, JsonError, MemberError};
pub use json::Scratch;
pub use kind::{BytesReader, HashReader, TextBytesReader, TextMapReader, TextReader};
pub use member::{
    read_bytes, read_i64, read_text, read_u64, required_bytes, required_hash, required_i64,
    required_text, required_u64,
};
pub use members::Members;
pub use number_kind::{I64NumberReader, U64NumberReader};
pub use object::Object;
pub use record::{read_record, read_record_with};
pub use tree::{Entry, Tree};
pub use view::Json;
pub use words::Words;
pub use write_value::{BytesWriter, ElementWriter};
