//! Whether a log vouches for an entry.
ghost use Rattle.std.specs.Prelude.{◌≡◌, IfOk, IsSome, OnOk};
ghost use Rattle.sig_base.specs.Answers.{Answers, UnlessMemory};
ghost use Rattle.sig_key.specs.Key.{key_accepts};
ghost use Rattle.sig_key.specs.Kind.{key_parts};
ghost use Rattle.sig_verify.specs.EntryLinks.{HasKeyOfBytes, HoldsOfEntry, entry_links};
ghost use Rattle.sig_verify.specs.Judged.{Judged};
ghost use Rattle.sig_verify.specs.LinkLaws.{IsKept};
ghost use Rattle.sig_verify.specs.LogEntry.{borrowed_id, fields_answer, id_answer, log_entry_answer, log_key_answer};
ghost use Rattle.sig_verify.specs.LogEntry.{audit_path_answer, note_key_answer, note_match_answer};
ghost use Rattle.sig_verify.specs.LogEntry.{promise_answer, read_key, vouched};

use crate::logged_entry::LoggedEntry;
use crate::offline_error::{OfflineError, proof_error};
use sig_base::laws::{are_bytes, are_optional_bytes, are_owned_bytes};
use sig_base::{Bytes, KeyMap, SignatureChecker, SigstoreError, Text};
use sig_bundle::laws::{proof_faults, proofs};
use sig_bundle::{ProofFields, TransparencyLogEntry, promise_text};
use sig_key::CosignVerificationKey;
use sig_rekor::{InclusionProof, SignedCheckpoint};
use std::alloc::Global;

/// What the links of a log's entry need beside a key of the log: memory, the entry and the checker of signatures.
#[derive(Drop)]
struct EntryInputs<'a, C> {
    alloc: Global,
    entry: &'a TransparencyLogEntry,
    checker: &'a C,
}

/// Checks that a log vouches for an entry, by a promise and by a proof, under the key of its log id among these.
/// Returns the entry's body and its proof with the decoded checkpoint. Errors, the first that applies:
///
/// - `LogIdMissing`: the entry does not name a log;
/// - `RekorPublicKeyNotFoundError` with the log id in lower-case hexadecimal: there is no key of this id;
/// - `KeyParsingError`: the key is not a SubjectPublicKeyInfo (RFC 5280 section 4.1.2.7);
/// - `PublicKeyUnsupportedAlgorithmError`: it is of a kind that is not supported;
/// - `PromiseMissing`: the entry has no promise;
/// - `PromiseInteger`: its time or its index is outside plus or minus 2^53 - 1;
/// - `Promise`: the key did not sign the promise;
/// - `ProofMissing`: the entry has no inclusion proof;
/// - `RootLength`, `HashLength`, `TreeSize`, `CheckpointMissing`, `ParseCheckpointError`: the proof cannot be read, as
///   [`ProofFields::to_proof`] says;
/// - `CheckpointSignatureVerificationError`: the key did not sign the checkpoint;
/// - `ConsistencyProofError`: the checkpoint is of another tree;
/// - `InclusionProofError`: the audit path does not lead from the entry to the root (RFC 6962 section 2.1.1);
/// - `OutOfMemory`.
///
/// [`causes_of_entry_errors`](crate::laws::causes_of_entry_errors) says each in the words of the entry.
pub fn verify_log_entry<C: SignatureChecker>(
    alloc: Global,
    entry: &TransparencyLogEntry,
    log_keys: &KeyMap,
    checker: &C,
) -> Result<LoggedEntry, OfflineError>
    // There is a value only if the links `log-key` to `inclusion` hold, and an error is that of the first that does
    // not.
    ensures links { UnlessMemory OfflineError.OutOfMemory result
        (Judged (HoldsOfEntry (C.spki_accepts checker.now) log_keys.now entry.now) entry_links result) }
    // The value is the entry's body, with the proof that its members are.
    ensures kept { IfOk result (IsKept entry.now) }
    // The same in one equation.
    ensures answer { Answers OfflineError.OutOfMemory (λ offline. offline) result
        (log_entry_answer (C.spki_accepts checker.now) log_keys.now entry.now) }
{
    // Which members an inclusion proof has, and which others are rejected; body and log id are bytes.
    proofs();
    proof_faults();
    are_owned_bytes(&entry.canonicalized_body);
    are_optional_bytes(&entry.log_id);
    let inputs = EntryInputs {
        alloc,
        entry,
        checker,
    };
    judge_entry(&inputs, log_keys)
}

/// Checks that a log vouches for an entry, under this key of the log: the links after `log-key`, for a caller that has
/// keys of its own. Returns what [`verify_log_entry`] returns, with its errors from `PromiseMissing` on.
pub fn vouched<C: SignatureChecker>(
    alloc: Global,
    entry: &TransparencyLogEntry,
    key: &CosignVerificationKey,
    checker: &C,
) -> Result<LoggedEntry, OfflineError>
    requires { IsSome entry.now.log_id }
    ensures { Answers OfflineError.OutOfMemory (λ offline. offline) result
        (vouched (key_accepts (C.spki_accepts checker.now) key.now) entry.now) }
{
    let inputs = EntryInputs {
        alloc,
        entry,
        checker,
    };
    check_promise(&inputs, key)?;
    let proof = check_proof_and_checkpoint(alloc, &entry.inclusion_proof)?;
    let Some(checkpoint) = &proof.checkpoint else {
        unreachable!()
    };
    check_note_key(&inputs, checkpoint, key)?;
    check_note_match(checkpoint, &proof)?;
    check_inclusion(entry, &proof)?;
    let body = entry.canonicalized_body.copy(alloc)?;
    Ok(LoggedEntry { body, proof })
}

/// The links `log-key` to `inclusion`, in order.
fn judge_entry<C: SignatureChecker>(
    inputs: &EntryInputs<'_, C>,
    log_keys: &KeyMap,
) -> Result<LoggedEntry, OfflineError>
    ensures answer { Answers OfflineError.OutOfMemory (λ offline. offline) result
        (log_entry_answer (C.spki_accepts inputs.now.checker.now) log_keys.now inputs.now.entry.now) }
    ensures bytes { UnlessMemory OfflineError.OutOfMemory result (HasKeyOfBytes log_keys.now inputs.now.entry.now) }
{
    let key = check_log_key(inputs.alloc, inputs.entry, log_keys)?;
    // The links after it.
    vouched(inputs.alloc, inputs.entry, &key, inputs.checker)
}

/// The link `log-key`: the key of the entry's log.
pub(crate) fn check_log_key(
    alloc: Global,
    entry: &TransparencyLogEntry,
    log_keys: &KeyMap,
) -> Result<CosignVerificationKey, OfflineError>
    ensures key { Answers OfflineError.OutOfMemory key_parts result (log_key_answer log_keys.now entry.now.log_id) }
    ensures named { OnOk result (IsSome entry.now.log_id) }
    ensures bytes { UnlessMemory OfflineError.OutOfMemory result (HasKeyOfBytes log_keys.now entry.now) }
{
    let id = id_of(&entry.log_id)?;
    let name = Text::from(hex::encode(alloc, id.as_slice())?);
    match log_keys.get(name.as_str()) {
        Some(der) => {
            // The key is bytes.
            are_bytes(der);
            key_of(alloc, der)
        }
        None => Err(OfflineError::RekorPublicKeyNotFoundError(name)),
    }
}

/// The id of the entry's log.
fn id_of(id: &Option<Bytes>) -> Result<&Bytes, OfflineError>
    ensures { borrowed_id result ≡ id_answer id.now }
{
    match id {
        Some(id) => Ok(id),
        None => Err(OfflineError::LogIdMissing),
    }
}

/// The key that these bytes are.
fn key_of(alloc: Global, der: &[u8]) -> Result<CosignVerificationKey, OfflineError>
    ensures { Answers OfflineError.OutOfMemory key_parts result (read_key der.now) }
{
    match CosignVerificationKey::try_from_der(alloc, der) {
        Ok(key) => Ok(key),
        Err(SigstoreError::OutOfMemory) => Err(OfflineError::OutOfMemory),
        Err(SigstoreError::KeyParsingError) => Err(OfflineError::KeyParsingError),
        Err(_) => Err(OfflineError::PublicKeyUnsupportedAlgorithmError),
    }
}

/// The link `promise`: whether the key signed a promise to include the entry.
fn check_promise<C: SignatureChecker>(
    inputs: &EntryInputs<'_, C>,
    key: &CosignVerificationKey,
) -> Result<(), OfflineError>
    requires { IsSome inputs.now.entry.now.log_id }
    ensures { Answers OfflineError.OutOfMemory (λ done. done) result
        (promise_answer (key_accepts (C.spki_accepts inputs.now.checker.now) key.now) inputs.now.entry.now) }
{
    let Some(promise) = &inputs.entry.inclusion_promise else {
        return Err(OfflineError::PromiseMissing);
    };
    let text = promise_text(inputs.alloc, inputs.entry)?;
    if key.accepts(promise.as_slice(), text.as_str().as_bytes(), inputs.checker) {
        Ok(())
    } else {
        Err(OfflineError::Promise)
    }
}

/// The links `proof` and `checkpoint`: the entry's proof. It is one call, since reading a proof reads its checkpoint.
fn check_proof_and_checkpoint(
    alloc: Global,
    fields: &Option<ProofFields>,
) -> Result<InclusionProof, OfflineError>
    ensures answer { Answers OfflineError.OutOfMemory (λ proof. proof) result (fields_answer fields.now) }
    ensures carried { IfOk result (λ proof. IsSome proof.checkpoint) }
{
    match fields {
        Some(fields) => Ok(fields.to_proof(alloc)?),
        None => Err(OfflineError::ProofMissing),
    }
}

/// The link `note-key`: whether the key signed the checkpoint.
fn check_note_key<C: SignatureChecker>(
    inputs: &EntryInputs<'_, C>,
    checkpoint: &SignedCheckpoint,
    key: &CosignVerificationKey,
) -> Result<(), OfflineError>
    ensures { Answers OfflineError.OutOfMemory (λ done. done) result
        (note_key_answer (key_accepts (C.spki_accepts inputs.now.checker.now) key.now) checkpoint.now) }
{
    match checkpoint.verify_signature(inputs.alloc, key, inputs.checker) {
        Ok(()) => Ok(()),
        Err(error) => Err(proof_error(error)),
    }
}

/// The link `note-match`: whether the checkpoint is of the proof's tree.
fn check_note_match(
    checkpoint: &SignedCheckpoint,
    proof: &InclusionProof,
) -> Result<(), OfflineError>
    ensures { result ≡ note_match_answer checkpoint.now proof.now }
{
    match checkpoint.is_valid_for_proof(&proof.root_hash, proof.tree_size) {
        Ok(()) => Ok(()),
        Err(error) => Err(proof_error(error)),
    }
}

/// The link `inclusion`: whether the audit path leads from the entry's body to the proof's root. The index is the
/// proof's own.
fn check_inclusion(entry: &TransparencyLogEntry, proof: &InclusionProof) -> Result<(), OfflineError>
    ensures { result ≡ audit_path_answer entry.now.canonicalized_body proof.now }
{
    match proof.verify_audit_path(entry.canonicalized_body.as_slice()) {
        Ok(()) => Ok(()),
        Err(error) => Err(proof_error(error)),
    }
}
