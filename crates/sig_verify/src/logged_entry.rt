//! `LoggedEntry`: what is known of a bundle that was verified.

use sig_base::Bytes;
use sig_rekor::InclusionProof;

/// The entry that a log vouches for.
#[derive(Drop)]
pub struct LoggedEntry {
    /// The entry itself, whose hash is the leaf of the log's tree.
    pub body: Bytes,
    /// The proof that it is in the tree, with the checkpoint that the log signed.
    pub proof: InclusionProof,
}

/// What offline verification returns.
pub type Offline = LoggedEntry;
