//! The links on the tree head that a request gives: its checkpoint has to vouch for the size and root of its tree.
ghost use Rattle.std.specs.Prelude.{◌≡◌, ◌↔◌, IfOk, IsTrue};
ghost use Rattle.sig_base.specs.Scheme.{scheme_of};
ghost use Rattle.sig_key.specs.Key.{key_info, key_scheme};
ghost use Rattle.sig_program.specs.Head.{IsHeadVerdict, IsHeadVerdictUnder, IsMatched, HasAcceptedSignature};

use sig_base::{OutOfMemory, SigstoreError};
use sig_key::CosignVerificationKey;
use sig_rekor::{ParseCheckpointError, SignedNote};
use sig_request::ClaimedHead;
use sig_verify::Link;
use std::alloc::Global;

/// Returns the first link of a tree head of this size and root that fails, or `None`.
pub fn failing_link_of(
    alloc: Global,
    head: &ClaimedHead,
    size: u64,
    root: &[u8; 32],
) -> Result<Option<Link>, OutOfMemory>
    ensures { IfOk result (IsHeadVerdict head.now size root.now) }
{
    match SignedNote::decode(alloc, head.checkpoint.as_str()) {
        Ok(checkpoint) => {
            let link = failing_link_under(alloc, head, size, root, &checkpoint);
            drop(checkpoint);
            link
        }
        Err(ParseCheckpointError::DecodeError(_)) => Ok(Some(Link::Checkpoint)),
        Err(ParseCheckpointError::OutOfMemory) => Err(OutOfMemory),
    }
}

/// Returns the first link after the checkpoint that fails, or `None`.
fn failing_link_under(
    alloc: Global,
    head: &ClaimedHead,
    size: u64,
    root: &[u8; 32],
    checkpoint: &SignedNote<'_>,
) -> Result<Option<Link>, OutOfMemory>
    ensures { IfOk result (IsHeadVerdictUnder head.now size root.now checkpoint.now) }
{
    if !has_accepted_signature(alloc, head, checkpoint)? {
        return Ok(Some(Link::NoteKey));
    }
    if !is_matched(size, root, checkpoint) {
        return Ok(Some(Link::NoteMatch));
    }
    Ok(None)
}

/// Whether one of the checkpoint's signatures over its note is accepted under the log's scheme and key.
fn has_accepted_signature(
    alloc: Global,
    head: &ClaimedHead,
    checkpoint: &SignedNote<'_>,
) -> Result<bool, OutOfMemory>
    ensures { IfOk result (λ signed. IsTrue signed ↔ HasAcceptedSignature head.now checkpoint.now) }
{
    let key = head_key(alloc, head)?;
    let answer = checkpoint.verify_signature(alloc, &key, &head.accepted);
    drop(key);
    match answer {
        Ok(()) => Ok(true),
        Err(SigstoreError::CheckpointSignatureVerificationError) => Ok(false),
        Err(SigstoreError::OutOfMemory) => Err(OutOfMemory),
        // `verify_signature` has no other error.
        Err(_) => unreachable!(),
    }
}

/// The log's key under its scheme.
fn head_key(alloc: Global, head: &ClaimedHead) -> Result<CosignVerificationKey, OutOfMemory>
    ensures scheme { IfOk result (λ key. key_scheme key ≡ scheme_of head.now.scheme) }
    ensures info { IfOk result (λ key. key_info key ≡ head.now.key) }
{
    match CosignVerificationKey::from_der(alloc, head.key.as_slice(), &head.scheme) {
        Ok(key) => Ok(key),
        Err(SigstoreError::OutOfMemory) => Err(OutOfMemory),
        Err(_) => unreachable!(),
    }
}

/// Whether the checkpoint's note is of a tree of this size and root.
fn is_matched(size: u64, root: &[u8; 32], checkpoint: &SignedNote<'_>) -> bool
    ensures { IsTrue result ↔ IsMatched size root.now checkpoint.now }
{
    checkpoint.is_valid_for_proof(root, size).is_ok()
}
