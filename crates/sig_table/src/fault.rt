//! `MemberFault`: which member of a document breaks a table, and why.
use crate::path::MemberPath;
use sig_base::OutOfMemory;

/// Why a member breaks its row of a table.
#[derive(Clone, Copy, Debug, PartialEq, Eq)]
pub enum Cause {
    /// The member is required, and absent or null.
    Absent,
    /// The value is not of the kind.
    OtherKind,
    /// The value is an integer outside the range of the kind, or a list of more or fewer elements than it may have.
    BeyondRange,
    /// An earlier member is there that excludes this one.
    NotAlone,
}

/// The first member of a document that breaks a table.
#[derive(Drop)]
pub struct MemberFault {
    /// Where it is, or would be.
    pub path: MemberPath,
    /// What is wrong with it.
    pub cause: Cause,
}

/// Why a document is not known to keep to a table.
#[derive(Drop)]
pub enum TableError {
    /// A member breaks the table.
    Fault(MemberFault),
    /// Out of memory.
    OutOfMemory,
}

/// Why a text is not a document of a table.
#[derive(Drop)]
pub enum DocumentFault {
    /// The text is not JSON.
    NotJson,
    /// A number of the tree is a float.
    Float,
    /// A member breaks the table.
    Member(MemberFault),
}
