//! Member tables, and the first member of a document that breaks one.
//!
//! The readers of sig_json say that a member breaks its row of a table, and not which. This crate finds it, for a
//! caller that reports it:
//!
//! ```text
//! verificationMaterial.tlogEntries[0].inclusionProof.rootHash
//! ```
//!
//! A table is what a value has to be: of one kind, a list whose elements keep to a table, or an object whose members
//! keep to the rows of a table, in an order. A row is a required member, an optional one, or some members of which at
//! most one is there. Null is the same as absent, and members that no row names are ignored.
//!
//! What the layer above uses:
//!
//! - A `MemberTable` checks a value. It returns the first fault if and only if the value breaks the table: the rows
//!   before it hold, this one does not, and inside its member likewise. `laws` says this both ways.
//! - The check of a record is a chain: `object`, and then a call for each row, in the order of the table.
//! - A fault has a path, of names and indices, and a cause: the member is absent, of another kind, an integer outside
//!   the range of its kind, or beside another of which only one may be there.
//! - Where each row of a table is that of a step by which sig_json reads a record, the table is that of the record: a
//!   tree keeps to it if and only if it is read (proofs/RecordTables.antt).
#![tactic(auto)]

mod fault;
mod find;
mod integer;
mod kind;
pub mod laws;
mod list;
mod path;
mod rows;
mod table;

pub use fault::{Cause, DocumentFault, MemberFault, TableError};
pub use find::{document_fault, first_fault};
pub use integer::{optional_i64, required_below, required_i64, required_u64};
pub use kind::{AnyObject, BytesTable, HashTable, Nothing, ReadBy, TextTable};
pub use list::{ListOf, length_between, not_empty};
pub use path::{MemberPath, Step};
pub use rows::{at_most_one, member, object, optional, required};
pub use table::{MemberTable, after_index, after_name, fault_here};
