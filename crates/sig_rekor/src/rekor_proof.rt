//! `RekorInclusionProof`: an inclusion proof as Rekor's API returns it.
//!
//! ```text
//! {"hashes":["810320ec3029914695826d60133c67021f66ee0cfb09a6f79eb267ed9f55de2c"],"logIndex":0,
//!  "rootHash":"67e9d9f66f0ad388f7e1a20991e9a2ae3efad5cbf281e8b3d2aaf1ef99a4618c","treeSize":2,
//!  "checkpoint":"log.example\n2\nZ+nZ9m8K04j34aIJkemirj761cvygeiz0qrx75mkYYw=\n\n\u2014 log.example AAAAAXNpZw==\n"}
//! ```
ghost use Rattle.std.specs.Prelude.{◌≡◌};
ghost use Rattle.sig_base.specs.Answers.{Answers};
ghost use Rattle.sig_base.specs.declared.error.SigstoreError.TheVariants.{OutOfMemory as Memory};
ghost use Rattle.sig_rekor.specs.RekorProof.{checkpoint_or_none, inclusion_proof_from_rekor};

use crate::checkpoint::SignedCheckpoint;
use crate::hash_text::{decode_hash, decode_hashes};
use crate::inclusion_proof::InclusionProof;
use sig_base::{Entries, Result, Text, UnexpectedKind};
use std::alloc::Global;

/// An inclusion proof as Rekor's API returns it: the hashes are texts in hexadecimal.
#[derive(Drop, PartialEq, Eq)]
pub struct RekorInclusionProof {
    /// The hashes of the path in hexadecimal, from the leaf to the root.
    pub hashes: Entries,
    /// The index of the leaf in the tree.
    pub log_index: i64,
    /// The root hash of the tree in hexadecimal.
    pub root_hash: Text,
    /// How many leaves the tree has.
    pub tree_size: u64,
    /// The text of a signed checkpoint, empty if there is none.
    pub checkpoint: Text,
}

impl InclusionProof {
    /// Returns the proof that the API's object is. It does not check whether the proof holds, or whether the index is
    /// in the tree. An empty text means no checkpoint.
    ///
    /// Errors, the first that applies:
    /// - `HexDecodeError`, or `UnexpectedError` of `HashLength` with its index: for the first hash that is not 64
    ///   hexadecimal digits, as for [`decode_hash`];
    /// - `HexDecodeError`, or `UnexpectedError` of `RootLength`: the same for the root hash;
    /// - `ParseCheckpointError`: the fault of [`SignedCheckpoint::decode`].
    ///
    /// `laws::api_proofs` says when each comes.
    #[tactic(auto, unfolding(crate::specs::RekorProof::inclusion_proof_from_rekor))]
    pub fn try_from_rekor(alloc: Global, api: &RekorInclusionProof) -> Result<InclusionProof>
        ensures { Answers Memory (λ proof. proof) result (inclusion_proof_from_rekor api.now) }
    {
        let hashes = decode_hashes(alloc, &api.hashes)?;
        let root_hash = decode_hash(
            api.root_hash.as_str().as_bytes(),
            UnexpectedKind::RootLength,
        )?;
        let checkpoint = decode_checkpoint(alloc, api.checkpoint.as_str())?;
        Ok(InclusionProof {
            log_index: api.log_index,
            root_hash,
            tree_size: api.tree_size,
            hashes,
            checkpoint,
        })
    }
}

/// Returns the checkpoint of a text, `None` if it is empty.
#[tactic(auto, unfolding(crate::specs::RekorProof::checkpoint_or_none))]
fn decode_checkpoint(alloc: Global, text: &str) -> Result<Option<SignedCheckpoint>>
    ensures { Answers Memory (λ checkpoint. checkpoint) result (checkpoint_or_none text.now) }
{
    if text.is_empty() {
        return Ok(None);
    }
    Ok(Some(SignedCheckpoint::decode(alloc, text)?))
}
