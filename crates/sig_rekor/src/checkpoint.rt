//! A checkpoint, also known as a signed tree head: what a log says of its tree, and the signatures over it.

use sig_base::{Bytes, OwnedList, Text};
use std::fmt;

/// A note and the signatures over it.
#[derive(Drop, PartialEq, Eq)]
pub struct SignedCheckpoint {
    /// What the log says.
    pub note: Checkpoint,
    /// The signatures, of which any may be the log's.
    pub signatures: CheckpointSignatures,
}

/// What a checkpoint says of the log's tree.
#[derive(Drop, PartialEq, Eq)]
pub struct Checkpoint {
    /// The name of the log.
    pub origin: Text,
    /// How many leaves the tree has.
    pub size: u64,
    /// The root hash of the tree (RFC 6962 section 2.1).
    pub hash: [u8; 32],
    /// The lines after the hash.
    pub other_content: OtherContents,
}

/// One signature over a note.
#[derive(Drop, PartialEq, Eq)]
pub struct CheckpointSignature {
    /// The first four bytes of the hash of the key that signed.
    pub key_fingerprint: [u8; 4],
    /// The bytes after the fingerprint: the signature itself.
    pub raw: Bytes,
    /// The name of the key that signed.
    pub name: Text,
}

/// A line of a note after the hash.
#[derive(Drop, PartialEq, Eq)]
pub enum OtherContent {
    /// A line `KEY: VALUE`, split at the first colon and space.
    KeyValue(Text, Text),
    /// Any other line.
    Value(Text),
}

/// Signatures in order.
pub type CheckpointSignatures = OwnedList<CheckpointSignature>;

/// Lines of a note in order.
pub type OtherContents = OwnedList<OtherContent>;

/// Shows the line: key, colon, space and value, or the text as it is.
impl fmt::Display for OtherContent {
    ghost use Rattle.std.specs.Prelude.{Some};
    ghost use Rattle.sig_rekor.specs.NoteText.{content_text};

    ghost output = { λ content. Some (content_text content) };

    fn fmt<W: fmt::Write>(&self, f: &mut fmt::Formatter<W>) -> fmt::Result {
        match self {
            OtherContent::KeyValue(key, value) => {
                write!(f, "{}: {}", key.as_str(), value.as_str())
            }
            OtherContent::Value(value) => f.write_str(value.as_str()),
        }
    }
}
