//! Whether a checkpoint is a log's next head.
ghost use Rattle.std.specs.Prelude.{◌≡◌, IfOk, Ok};
ghost use Rattle.sig_audit.specs.Chained.{AreChained};
ghost use Rattle.sig_base.specs.Answers.{Answers};
ghost use Rattle.sig_key.specs.Key.{key_accepts};
ghost use Rattle.sig_rekor.specs.Verify.{has_accepted_signature};
ghost use Rattle.sig_witness.specs.Answer.{chain_answer, log_answer};
ghost use Rattle.sig_witness.specs.Updates.{head_of, update_of};

use crate::error::WitnessError;
use crate::kept_log::KeptLog;
use sig_audit::ChainHead;
use sig_base::{Hashes, OutOfMemory, SignatureChecker, SigstoreError};
use sig_key::CosignVerificationKey;
use sig_merkle::uncounted;
use sig_rekor::SignedCheckpoint;
use std::alloc::Global;

/// The greatest number of heads that are kept of a log.
pub const MOST_HEADS: usize = 4096;

/// Checks that a checkpoint can be the next head of a log.
#[tactic(auto, unfolding(crate::specs::Answer::log_answer))]
pub(crate) fn check<C: SignatureChecker>(
    alloc: Global,
    log: &KeptLog,
    checkpoint: &SignedCheckpoint,
    old_size: u64,
    hashes: &[[u8; 32]],
    checker: &C,
) -> Result<(), WitnessError>
    requires { AreChained log.now.chain }
    ensures { Answers WitnessError.OutOfMemory (λ x. x) result (log_answer
        (key_accepts (C.spki_accepts checker.now) log.now.key) log.now (update_of checkpoint.now old_size hashes.now)) }
{
    if !is_signed(alloc, checkpoint, &log.key, checker)? {
        return Err(WitnessError::NoteKey);
    }
    check_growth(log.chain.as_slice(), checkpoint, old_size, hashes)
}

/// Whether the checker accepts one of the signatures under the key.
fn is_signed<C: SignatureChecker>(
    alloc: Global,
    checkpoint: &SignedCheckpoint,
    key: &CosignVerificationKey,
    checker: &C,
) -> Result<bool, WitnessError>
    ensures { Answers WitnessError.OutOfMemory (λ x. x) result
        (Ok (has_accepted_signature (key_accepts (C.spki_accepts checker.now) key.now) checkpoint.now)) }
{
    match checkpoint.verify_signature(alloc, key, checker) {
        Ok(()) => Ok(true),
        Err(SigstoreError::OutOfMemory) => Err(WitnessError::OutOfMemory),
        Err(_) => Ok(false),
    }
}

/// Checks the old size and the hashes against the last of these heads, and that there is room for one more.
fn check_growth(
    heads: &[ChainHead],
    checkpoint: &SignedCheckpoint,
    old_size: u64,
    hashes: &[[u8; 32]],
) -> Result<(), WitnessError>
    requires { AreChained heads.now }
    ensures { result ≡ chain_answer heads.now (update_of checkpoint.now old_size hashes.now) }
{
    let Some(last) = heads.last() else {
        unreachable!()
    };
    if last.size != old_size {
        return Err(WitnessError::OldSize(last.size));
    }
    let note = &checkpoint.note;
    match uncounted::verify_consistency(last.size, note.size, hashes, &last.hash, &note.hash) {
        Ok(()) => {}
        Err(cause) => return Err(WitnessError::Consistency(cause)),
    }
    if heads.len() < MOST_HEADS {
        Ok(())
    } else {
        Err(WitnessError::Full)
    }
}

/// Returns the head of a checkpoint, with copies of its hashes. Fails only if out of memory.
pub(crate) fn own_head(
    alloc: Global,
    checkpoint: &SignedCheckpoint,
    hashes: &[[u8; 32]],
) -> Result<ChainHead, OutOfMemory>
    ensures { IfOk result (λ head. head ≡ head_of checkpoint.now hashes.now) }
{
    let note = &checkpoint.note;
    Ok(ChainHead {
        size: note.size,
        hash: note.hash,
        hashes: own_hashes(alloc, hashes)?,
    })
}

/// Returns copies of hashes. Fails only if out of memory.
#[tactic(auto, using(std::proofs::lemmas::List::take_more))]
fn own_hashes(alloc: Global, hashes: &[[u8; 32]]) -> Result<Hashes, OutOfMemory>
    ensures { IfOk result (λ owned. owned ≡ hashes.now) }
{
    let mut owned = Hashes::new(alloc);
    for hash in hashes {
        owned.push(*hash)?;
    }
    Ok(owned)
}
