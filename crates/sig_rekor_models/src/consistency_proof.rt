//! `ConsistencyProof`: that a log's tree has an older one as its first leaves.
//!
//! ```text
//! {"rootHash":"effa4fa4575f72829016a64e584441203de533212f9470d63a56d1992e73465d",
//!  "hashes":["810320ec3029914695826d60133c67021f66ee0cfb09a6f79eb267ed9f55de2c"]}
//! ```
ghost use Rattle.std.specs.Prelude.{◌≡◌, ◌↔◌, IsOk, option_map};
ghost use Rattle.sig_base.specs.Answers.{Answers};
ghost use Rattle.sig_base.specs.declared.error.SigstoreError.TheVariants.{OutOfMemory as Memory};
ghost use Rattle.sig_merkle.specs.ConsistencyAnswer.{IsConsistent, consistency_answer};
ghost use Rattle.sig_rekor_models.specs.Consistency.{as_consistency, given_or, consistency_proof_from_rekor};

use sig_base::{Entries, Hashes, Result, SigstoreError, Text, UnexpectedKind};
use sig_merkle::uncounted;
use sig_rekor::{decode_hash, decode_hashes};
use std::alloc::Global;

/// A consistency proof between two trees of a log (RFC 6962 section 2.1.2).
#[derive(Drop, PartialEq, Eq)]
pub struct ConsistencyProof {
    /// The root hash of the tree at the time of the proof.
    pub root_hash: [u8; 32],
    /// The hashes of the proof.
    pub hashes: Hashes,
}

/// A consistency proof as Rekor's API returns it: the hashes are texts in hexadecimal.
#[derive(Drop, PartialEq, Eq)]
pub struct RekorConsistencyProof {
    /// The root hash of the tree at the time of the proof, in hexadecimal.
    pub root_hash: Text,
    /// The hashes of the proof in hexadecimal.
    pub hashes: Entries,
}

impl ConsistencyProof {
    /// The proof of these parts.
    pub fn new(root_hash: [u8; 32], hashes: Hashes) -> ConsistencyProof
        ensures { result ≡ record { root_hash = root_hash; hashes = hashes } }
    {
        ConsistencyProof { root_hash, hashes }
    }

    /// Returns the proof that the API's object is. It does not check whether the proof holds.
    ///
    /// Errors, the first that applies:
    /// - `HexDecodeError`, or `UnexpectedError` of `RootLength`: the root hash is not 64 hexadecimal digits, as of
    ///   [`decode_hash`];
    /// - `HexDecodeError`, or `UnexpectedError` of `HashLength` with its index: the same for the first hash that is
    ///   not.
    ///
    /// `laws::api_consistency_proofs` says when each comes.
    #[tactic(auto, unfolding(crate::specs::Consistency::consistency_proof_from_rekor))]
    pub fn try_from_rekor(alloc: Global, raw: &RekorConsistencyProof) -> Result<ConsistencyProof>
        ensures { Answers Memory (λ proof. proof) result (consistency_proof_from_rekor raw.now) }
    {
        let root_hash = decode_hash(
            raw.root_hash.as_str().as_bytes(),
            UnexpectedKind::RootLength,
        )?;
        let hashes = decode_hashes(alloc, &raw.hashes)?;
        Ok(ConsistencyProof { root_hash, hashes })
    }

    /// Checks that the tree of the new size and root has the tree of the old size and root as its first leaves. The
    /// new root is the proof's own where none is given. It takes no memory.
    ///
    /// Errors, each a `ConsistencyProofError`, are those of [`sig_merkle::verify_consistency`], in its order.
    pub fn verify(
        &self,
        old_size: u64,
        old_root: &[u8; 32],
        new_size: u64,
        new_root: Option<&[u8; 32]>,
    ) -> Result<()>
        ensures answer { result ≡ as_consistency (consistency_answer old_size new_size self.now.hashes
            old_root.now (given_or self.now.root_hash (option_map (λ root. root.now) new_root.entry))) }
        ensures ok { IsOk result ↔ IsConsistent old_size new_size self.now.hashes
            old_root.now (given_or self.now.root_hash (option_map (λ root. root.now) new_root.entry)) }
    {
        let new_root = match new_root {
            Some(root) => root,
            None => &self.root_hash,
        };
        uncounted::verify_consistency(
            old_size,
            new_size,
            self.hashes.as_slice(),
            old_root,
            new_root,
        )
        .map_err(SigstoreError::ConsistencyProofError)
    }
}
