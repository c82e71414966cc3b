//! The links of `audit`.

/// A link of an audit; that of a head or of a watched entry with its index.
#[derive(Clone, Copy, PartialEq, Eq)]
pub enum AuditLink {
    /// The text is a request of `audit`.
    Request,
    /// The text of the head is a checkpoint.
    Checkpoint(usize),
    /// One of the head's signatures is the log's.
    NoteKey(usize),
    /// The head has the origin of the first one.
    Origin(usize),
    /// The head's hashes show that its tree has that of the head before it as its first leaves.
    Consistency(usize),
    /// The hashes of the watched entry lead from it to the root of its head.
    Inclusion(usize),
}
