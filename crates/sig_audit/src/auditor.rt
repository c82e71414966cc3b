//! The audit of signed heads and watched entries.
ghost use Rattle.std.specs.Prelude.{◌≡◌, ℕ, None, Result, Ok, option_map, slice_get};
ghost use Rattle.sig_audit.specs.Answer.{audit_answer, first_error, growth_answer, head_answer, latest_size};
ghost use Rattle.sig_audit.specs.Answer.{path_answer, watch_answer};
ghost use Rattle.sig_audit.specs.Faults.{IsAuditAnswer};
ghost use Rattle.sig_audit.specs.declared.error.AuditError.{AuditError as audit_error};
ghost use Rattle.sig_base.specs.Answers.{Answers, UnlessMemory};
ghost use Rattle.sig_key.specs.Key.{key_accepts};
ghost use Rattle.sig_rekor.specs.Verify.{has_accepted_signature};

use crate::error::AuditError;
use crate::heads::{AuditHead, Heads, Watch, WatchList};
use sig_base::{SignatureChecker, SigstoreError};
use sig_key::CosignVerificationKey;
use sig_merkle::{hash_leaf, uncounted};
use std::alloc::Global;

/// Checks that the heads are of one log over time, and that it has the watched entries; returns the size of the last
/// head.
///
/// Each head has to be signed by the log, of the first head's origin, and its hashes have to show that its tree has
/// that of the head before it as its first leaves; the hashes of the first head are not checked. The hashes of each
/// watch have to lead from its entry to the root of its head.
///
/// Errors, the first that applies, for the heads in order and then for the watches in order; each keeps an index:
/// - `Empty`: there is no head;
/// - `NoteKey`: the checker does not accept any of the head's signatures under the key;
/// - `Origin`: the head's origin is not that of the first head;
/// - `Consistency`: the head's hashes are not a consistency proof from the head before it, with the error of
///   [`sig_merkle::verify_consistency`];
/// - `Head`: the watch's head is not the index of a head;
/// - `Inclusion`: the hashes of the watch are not an audit path of its entry under its head, with the error of
///   [`sig_merkle::verify_inclusion`];
/// - `OutOfMemory`.
///
/// Two heads of size 0 are consistent under any equal hashes, also the first two.
#[tactic(auto, using(crate::proofs::AuditAnswers::audit_answers))]
pub fn audit<C: SignatureChecker>(
    alloc: Global,
    heads: &Heads,
    watched: &WatchList,
    key: &CosignVerificationKey,
    checker: &C,
) -> Result<u64, AuditError>
    ensures found { UnlessMemory AuditError.OutOfMemory result
        (IsAuditAnswer (key_accepts (C.spki_accepts checker.now) key.now) heads.now watched.now result) }
    ensures only { (answer : Result ℕ audit_error)
        → IsAuditAnswer (key_accepts (C.spki_accepts checker.now) key.now) heads.now watched.now answer
        → Answers AuditError.OutOfMemory (λ size. size) result answer }
{
    judge(alloc, heads.as_slice(), watched.as_slice(), key, checker)
}

#[tactic(auto, unfolding(crate::specs::Answer::audit_answer))]
fn judge<C: SignatureChecker>(
    alloc: Global,
    heads: &[AuditHead],
    watched: &[Watch],
    key: &CosignVerificationKey,
    checker: &C,
) -> Result<u64, AuditError>
    ensures { Answers AuditError.OutOfMemory (λ size. size) result
        (audit_answer (key_accepts (C.spki_accepts checker.now) key.now) heads.now watched.now) }
{
    let Some((first, later)) = heads.split_first() else {
        return Err(AuditError::Empty);
    };
    check_heads(alloc, first, heads, key, checker)?;
    check_watches(heads, watched)?;
    Ok(size_of_last(first, later))
}

/// Checks each head, under the origin of the first.
#[tactic(auto, using(crate::proofs::FirstErrors::first_errors))]
fn check_heads<C: SignatureChecker>(
    alloc: Global,
    first: &AuditHead,
    heads: &[AuditHead],
    key: &CosignVerificationKey,
    checker: &C,
) -> Result<(), AuditError>
    ensures { Answers AuditError.OutOfMemory (λ x. x) result
        (first_error (head_answer (key_accepts (C.spki_accepts checker.now) key.now) first.now) None 0 heads.now) }
{
    let mut before = None;
    'heads: for (place, head) in heads.iter().enumerate() {
        check_head(alloc, first, before, place, head, key, checker)?;
        before = Some(head);
    }
    Ok(())
}

/// Checks the head at an index: its signatures, its origin, and its hashes if there is a head before it.
#[tactic(auto, unfolding(crate::specs::Answer::head_answer))]
fn check_head<C: SignatureChecker>(
    alloc: Global,
    first: &AuditHead,
    before: Option<&AuditHead>,
    place: usize,
    head: &AuditHead,
    key: &CosignVerificationKey,
    checker: &C,
) -> Result<(), AuditError>
    ensures { Answers AuditError.OutOfMemory (λ x. x) result
        (head_answer (key_accepts (C.spki_accepts checker.now) key.now) first.now (option_map (λ h. h.now) before.entry)
        place head.now) }
{
    if !is_signed(alloc, head, key, checker)? {
        return Err(AuditError::NoteKey(place));
    }
    if head.checkpoint.note.origin != first.checkpoint.note.origin {
        return Err(AuditError::Origin(place));
    }
    check_growth(before, place, head)
}

/// Whether the checker accepts one of the head's signatures.
fn is_signed<C: SignatureChecker>(
    alloc: Global,
    head: &AuditHead,
    key: &CosignVerificationKey,
    checker: &C,
) -> Result<bool, AuditError>
    ensures { Answers AuditError.OutOfMemory (λ x. x) result
        (Ok (has_accepted_signature (key_accepts (C.spki_accepts checker.now) key.now) head.now.checkpoint)) }
{
    match head.checkpoint.verify_signature(alloc, key, checker) {
        Ok(()) => Ok(true),
        Err(SigstoreError::OutOfMemory) => Err(AuditError::OutOfMemory),
        Err(_) => Ok(false),
    }
}

/// Checks the head's hashes from the head before it.
fn check_growth(
    before: Option<&AuditHead>,
    place: usize,
    head: &AuditHead,
) -> Result<(), AuditError>
    ensures { result ≡ growth_answer (option_map (λ h. h.now) before.entry) place head.now }
{
    let Some(older) = before else {
        return Ok(());
    };
    let old = &older.checkpoint.note;
    let new = &head.checkpoint.note;
    match uncounted::verify_consistency(
        old.size,
        new.size,
        head.hashes.as_slice(),
        &old.hash,
        &new.hash,
    ) {
        Ok(()) => Ok(()),
        Err(e) => Err(AuditError::Consistency(place, e)),
    }
}

#[tactic(auto, using(crate::proofs::FirstErrors::watch_errors))]
fn check_watches(heads: &[AuditHead], watched: &[Watch]) -> Result<(), AuditError>
    ensures { result ≡ first_error (watch_answer heads.now) None 0 watched.now }
{
    'watches: for (place, watch) in watched.iter().enumerate() {
        check_watch(heads, place, watch)?;
    }
    Ok(())
}

/// Checks the watch at an index: its head, and its audit path.
fn check_watch(heads: &[AuditHead], place: usize, watch: &Watch) -> Result<(), AuditError>
    ensures { result ≡ path_answer place watch.now (slice_get heads.now watch.now.head) }
{
    let Some(head) = heads.get(watch.head) else {
        return Err(AuditError::Head(place));
    };
    let note = &head.checkpoint.note;
    match uncounted::verify_inclusion(
        watch.index,
        &hash_leaf(watch.entry.as_slice()),
        note.size,
        watch.hashes.as_slice(),
        &note.hash,
    ) {
        Ok(()) => Ok(()),
        Err(e) => Err(AuditError::Inclusion(place, e)),
    }
}

/// The size of the last of these heads.
fn size_of_last(first: &AuditHead, later: &[AuditHead]) -> u64
    ensures { result ≡ latest_size first.now later.now }
{
    match later.last() {
        Some(last) => last.checkpoint.note.size,
        None => first.checkpoint.note.size,
    }
}
