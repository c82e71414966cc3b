//! Why the check of a proof in an RFC 6962 tree fails.
ghost use Rattle.std.specs.Prelude.{◌≡◌, ◌<◌, Some, slice_index};
ghost use Rattle.sig_base.specs.Hex.{digits, hex};

use std::fmt;
use thiserror::Error;

/// Why the check of an inclusion or a consistency proof fails (RFC 6962 sections 2.1.1 and 2.1.2).
///
/// Its text is the name of its variant; what it keeps is in its fields.
#[derive(Clone, Copy, Debug, PartialEq, Eq, Error)]
pub enum MerkleProofError {
    /// The root that the proof leads to, `expected`, is not the given root, `got`.
    #[error("MismatchedRoot")]
    MismatchedRoot { expected: RootHex, got: RootHex },
    /// The index is not below the size of the tree.
    #[error("IndexGtTreeSize")]
    IndexGtTreeSize,
    /// The trees leave nothing to prove, and the proof has hashes.
    #[error("UnexpectedNonEmptyProof")]
    UnexpectedNonEmptyProof,
    /// The trees differ, and the proof has no hash.
    #[error("UnexpectedEmptyProof")]
    UnexpectedEmptyProof,
    /// The new tree has fewer leaves than the old.
    #[error("NewTreeSmaller")]
    NewTreeSmaller { new: u64, old: u64 },
    /// The proof has `got` hashes, but a proof for these sizes has `want`.
    #[error("WrongProofSize")]
    WrongProofSize { got: u64, want: u64 },
    /// The old tree is empty, and its root is not the hash of nothing.
    #[error("WrongEmptyTreeHash")]
    WrongEmptyTreeHash,
}

/// A root as an error shows it: 64 lower case hexadecimal digits.
#[derive(Clone, Copy, Debug, PartialEq, Eq)]
pub struct RootHex {
    /// The 32 bytes of the root.
    pub root: [u8; 32],
}

impl fmt::Display for RootHex {
    ghost output = { λ shown. Some (hex shown.root) };

    fn fmt<W: fmt::Write>(&self, f: &mut fmt::Formatter<W>) -> fmt::Result {
        for byte in self.root {
            f.write_char(digit(byte / 16))?;
            f.write_char(digit(byte % 16))?;
        }
        Ok(())
    }
}

/// The hexadecimal digit of a number below 16, in lower case.
fn digit(value: u8) -> char
    requires { value < 16 }
    ensures value { result ≡ slice_index digits value }
    ensures ascii { result < 128 }
{
    char::from(b"0123456789abcdef"[usize::from(value)])
}
