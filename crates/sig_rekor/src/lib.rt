//! Models of the transparency log Rekor: signed checkpoints, and inclusion proofs that carry one.
//!
//! The layer above uses two facts. [`SignedNote::decode`] returns the checkpoint that its text means, or the first rule
//! that the text breaks; [`SignedCheckpoint::decode`] returns the same in memory of its own. [`InclusionProof::verify`]
//! fails with the first condition that does not hold, in this order: a checkpoint, an accepted signature, a note of the
//! same tree, inclusion.
//!
//! The format is transparency-dev's checkpoint (C2SP tlog-checkpoint) in a signed note (C2SP signed-note):
//!
//! ```text
//! log.example                                       origin
//! 1                                                 size, in decimal
//! OVqgZKpMKfcBCs/j8l25SFu9S5GJe2rXrVR2OSUrTVY=      root hash, base64 of 32 bytes
//! Timestamp: 1689748607                             other content, any number of lines
//!                                                   an empty line ends the note
//! — log.example AAAAAXNpZw==                        em dash, name, base64 of fingerprint (4 bytes) and signature
//! ```
#![tactic(auto)]

mod checkpoint;
mod coding;
mod contents;
mod cuts;
mod different;
mod fault;
mod hash_text;
mod inclusion_proof;
pub mod laws;
mod marshal;
mod note;
mod rekor_proof;
mod signature;
mod signed;
mod signed_note;
mod verify;

pub use checkpoint::{
    Checkpoint, CheckpointSignature, CheckpointSignatures, OtherContent, OtherContents,
    SignedCheckpoint,
};
pub use fault::ParseCheckpointError;
pub use hash_text::{decode_hash, decode_hashes};
pub use inclusion_proof::InclusionProof;
pub use note::Note;
pub use rekor_proof::RekorInclusionProof;
pub use signed_note::SignedNote;
