//! Proofs over trees that do not hold, and a note of another tree than a proof's.
//!
//! ```text
//! {"cause":["InclusionProofError","WrongProofSize"],"got":"3","want":"2",..}
//! ```
ghost use Rattle.std.specs.Prelude.{◌≡◌, IfOk};
ghost use Rattle.sig_json.specs.Writing.{members, members_into};
ghost use Rattle.sig_explain_log.specs.Refusals.{consistency_error_rows, consistency_rows, inclusion_error_rows};
ghost use Rattle.sig_explain_log.specs.Refusals.{inclusion_rows, mismatch_rows};
ghost use Rattle.sig_rekor.specs.CheckpointText.{checkpoint_of};

use crate::reading::read_note;
use sig_base::{MerkleProofError, OutOfMemory, SigstoreError};
use sig_explanation::{merkle_name, with_inner_cause, with_merkle};
use sig_json::Object;
use std::alloc::Global;

/// The object with why a tree does not have the older one as its first leaves: `cause`, a list of
/// `ConsistencyProofError` and the name of the error; and what the error keeps, as [`with_merkle`]. Fails only if out
/// of memory.
pub fn with_consistency_error(
    object: Object,
    alloc: Global,
    error: &MerkleProofError,
) -> Result<Object, OutOfMemory>
    ensures { IfOk result (λ made. members made
        ≡ members_into (members object) (consistency_error_rows error.now)) }
{
    let object = with_inner_cause(object, alloc, "ConsistencyProofError", merkle_name(error))?;
    with_merkle(object, alloc, error)
}

/// The object with why an entry is not in a tree: `cause`, a list of `InclusionProofError` and the name of the error;
/// and what the error keeps, as [`with_merkle`]. Fails only if out of memory.
pub fn with_inclusion_error(
    object: Object,
    alloc: Global,
    error: &MerkleProofError,
) -> Result<Object, OutOfMemory>
    ensures { IfOk result (λ made. members made
        ≡ members_into (members object) (inclusion_error_rows error.now)) }
{
    let object = with_inner_cause(object, alloc, "InclusionProofError", merkle_name(error))?;
    with_merkle(object, alloc, error)
}

/// The same as [`with_consistency_error`], for the result of a check. If the check succeeds, the object stays as it is.
/// Fails only if out of memory.
pub fn with_consistency(
    object: Object,
    alloc: Global,
    answer: &Result<(), MerkleProofError>,
) -> Result<Object, OutOfMemory>
    ensures { IfOk result (λ made. members made ≡ members_into (members object) (consistency_rows answer.now)) }
{
    match answer {
        Ok(()) => Ok(object),
        Err(error) => with_consistency_error(object, alloc, error),
    }
}

/// The same as [`with_inclusion_error`], for the result of a check. If the check succeeds, the object stays as it is.
/// Fails only if out of memory.
pub fn with_inclusion(
    object: Object,
    alloc: Global,
    answer: &Result<(), MerkleProofError>,
) -> Result<Object, OutOfMemory>
    ensures { IfOk result (λ made. members made ≡ members_into (members object) (inclusion_rows answer.now)) }
{
    match answer {
        Ok(()) => Ok(object),
        Err(error) => with_inclusion_error(object, alloc, error),
    }
}

/// The object with why the note of a text is not one of the tree of this size and root. Of a note of this tree, and of
/// a text that is not a checkpoint, the object stays as it is.
pub(crate) fn with_mismatch(
    object: Object,
    alloc: Global,
    text: &str,
    size: u64,
    root: &[u8; 32],
) -> Result<Object, OutOfMemory>
    ensures { IfOk result (λ made. members made
        ≡ members_into (members object) (mismatch_rows size root.now (checkpoint_of text.now))) }
{
    let Ok(checkpoint) = read_note(alloc, text)? else {
        return Ok(object);
    };
    match checkpoint.is_valid_for_proof(root, size) {
        Err(SigstoreError::ConsistencyProofError(error)) => {
            with_consistency_error(object, alloc, &error)
        }
        _ => Ok(object),
    }
}
