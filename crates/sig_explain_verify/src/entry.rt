//! What a link compares of the log entry of a bundle.
ghost use Rattle.std.specs.Prelude.{◌≡◌, IfOk, IfSome, IsSome, option_map};
ghost use Rattle.sig_json.specs.Writing.{members, members_into};
ghost use Rattle.sig_evidence.specs.Accepted.{asked_note_rows};
ghost use Rattle.sig_evidence.specs.Trees.{trees_rows};
ghost use Rattle.sig_explain_verify.specs.Evidence.{entry_rows, if_there, log_key_in, noted_rows, promised_rows};
ghost use Rattle.sig_explain_verify.specs.Inputs.{inputs_of};
ghost use Rattle.sig_explain_verify.specs.Parts.{checkpoint_of, proof_of, promise_text_of};
ghost use Rattle.sig_explain_verify.specs.ShownRoot.{IsShownRoot};
ghost use Rattle.sig_rekor.specs.NoteText.{note_text};

use crate::bundle::read_proof;
use crate::checked::with_tlogs;
use crate::inputs::VerifyInputs;
use crate::key::{AskedKey, log_key};
use crate::root::ShownRoot;
use sig_base::{OutOfMemory, Text};
use sig_bundle::{TransparencyLogEntry, promise_text};
use sig_evidence::{with_accepted, with_accepted_note, with_log_id, with_trees};
use sig_json::Object;
use sig_json_text::CanonicalError;
use sig_rekor::SignedCheckpoint;
use sig_verify::Link;
use std::alloc::Global;

/// The object with what a link compares of the log entry of a bundle.
pub(crate) fn with_entry(
    object: Object,
    alloc: Global,
    inputs: &VerifyInputs<'_>,
    root: &ShownRoot,
    link: Link,
    entry: &TransparencyLogEntry,
) -> Result<Object, OutOfMemory>
    requires { IsShownRoot inputs.now.trusted_root.now inputs.now.now root.now }
    ensures { IfOk result (λ made. members made
        ≡ members_into (members object) (entry_rows (inputs_of inputs.entry.now) link entry.now)) }
{
    match link {
        Link::LogKey => {
            let object = with_log_id(object, alloc, &entry.log_id)?;
            with_tlogs(object, alloc, inputs, root)
        }
        Link::Promise => with_promise(object, alloc, inputs, root, entry),
        Link::NoteKey => with_note(object, alloc, inputs, root, entry),
        Link::NoteMatch | Link::Inclusion => with_proof(object, alloc, entry),
        _ => Ok(object),
    }
}

/// The object with the promise, as it was asked about under the key of the log.
fn with_promise(
    object: Object,
    alloc: Global,
    inputs: &VerifyInputs<'_>,
    root: &ShownRoot,
    entry: &TransparencyLogEntry,
) -> Result<Object, OutOfMemory>
    requires { IsShownRoot inputs.now.trusted_root.now inputs.now.now root.now }
    ensures { IfOk result (λ made. members made ≡ members_into (members object)
        (if_there (promised_rows (inputs_of inputs.entry.now) entry.now) (log_key_in (inputs_of inputs.entry.now) entry.now))) }
{
    match entry_key(alloc, inputs, root, entry)? {
        Some(key) => with_promised(object, alloc, inputs, entry, key),
        None => Ok(object),
    }
}

/// The key of the entry's log.
fn entry_key<'a>(
    alloc: Global,
    inputs: &VerifyInputs<'_>,
    root: &'a ShownRoot,
    entry: &TransparencyLogEntry,
) -> Result<Option<AskedKey<'a>>, OutOfMemory>
    requires { IsShownRoot inputs.now.trusted_root.now inputs.now.now root.now }
    ensures key { IfOk result (λ found. option_map (λ key. (key.scheme, key.spki.now)) found
        ≡ log_key_in (inputs_of inputs.entry.now) entry.now) }
    ensures named { IfOk result (λ found. IfSome found (λ _. IsSome entry.now.log_id)) }
{
    match &root.trust {
        Some(parts) => log_key(alloc, &parts.log_keys, &entry.log_id),
        None => Ok(None),
    }
}

/// The object with the promise, as it was asked about under this key.
fn with_promised(
    object: Object,
    alloc: Global,
    inputs: &VerifyInputs<'_>,
    entry: &TransparencyLogEntry,
    key: AskedKey<'_>,
) -> Result<Object, OutOfMemory>
    requires { IsSome entry.now.log_id }
    ensures { IfOk result (λ made. members made ≡ members_into (members object)
        (promised_rows (inputs_of inputs.entry.now) entry.now (key.entry.scheme, key.entry.spki.now))) }
{
    let Some(promise) = &entry.inclusion_promise else {
        return Ok(object);
    };
    match promise_text_of(alloc, entry)? {
        Some(text) => {
            let made = with_accepted(
                object,
                alloc,
                inputs.accepted,
                key.scheme,
                key.spki,
                text.as_str().as_bytes(),
                promise.as_slice(),
            );
            drop(text);
            made
        }
        None => Ok(object),
    }
}

/// The text of the entry's promise; `None` if its integers have no canonical text.
fn promise_text_of(alloc: Global, entry: &TransparencyLogEntry) -> Result<Option<Text>, OutOfMemory>
    requires { IsSome entry.now.log_id }
    ensures { IfOk result (λ text. text ≡ promise_text_of entry.now) }
{
    match promise_text(alloc, entry) {
        Ok(text) => Ok(Some(text)),
        Err(CanonicalError::IntegerTooLarge) => Ok(None),
        Err(CanonicalError::OutOfMemory) => Err(OutOfMemory),
    }
}

/// The object with the note, as it was asked about under the key of the log.
fn with_note(
    object: Object,
    alloc: Global,
    inputs: &VerifyInputs<'_>,
    root: &ShownRoot,
    entry: &TransparencyLogEntry,
) -> Result<Object, OutOfMemory>
    requires { IsShownRoot inputs.now.trusted_root.now inputs.now.now root.now }
    ensures { IfOk result (λ made. members made ≡ members_into (members object)
        (if_there (noted_rows (inputs_of inputs.entry.now) entry.now) (log_key_in (inputs_of inputs.entry.now) entry.now))) }
{
    match entry_key(alloc, inputs, root, entry)? {
        Some(key) => with_noted(object, alloc, inputs, entry, key),
        None => Ok(object),
    }
}

/// The object with the note, as it was asked about under this key.
fn with_noted(
    object: Object,
    alloc: Global,
    inputs: &VerifyInputs<'_>,
    entry: &TransparencyLogEntry,
    key: AskedKey<'_>,
) -> Result<Object, OutOfMemory>
    ensures { IfOk result (λ made. members made ≡ members_into (members object)
        (noted_rows (inputs_of inputs.entry.now) entry.now (key.entry.scheme, key.entry.spki.now))) }
{
    match read_checkpoint(alloc, entry)? {
        Some(checkpoint) => {
            let made = with_signatures(object, alloc, inputs, &checkpoint, key);
            drop(checkpoint);
            made
        }
        None => Ok(object),
    }
}

/// The checkpoint of the entry's proof.
fn read_checkpoint(
    alloc: Global,
    entry: &TransparencyLogEntry,
) -> Result<Option<SignedCheckpoint>, OutOfMemory>
    ensures { IfOk result (λ found. found ≡ checkpoint_of entry.now) }
{
    match read_proof(alloc, entry)? {
        Some(proof) => Ok(proof.checkpoint),
        None => Ok(None),
    }
}

/// The object with the signatures of a note, as they were asked about under this key.
fn with_signatures(
    object: Object,
    alloc: Global,
    inputs: &VerifyInputs<'_>,
    checkpoint: &SignedCheckpoint,
    key: AskedKey<'_>,
) -> Result<Object, OutOfMemory>
    ensures { IfOk result (λ made. members made ≡ members_into (members object) (asked_note_rows inputs.entry.now.accepted.now
        key.entry.scheme key.entry.spki.now (note_text checkpoint.now.note) checkpoint.now.signatures)) }
{
    let note = checkpoint.note.marshal(alloc)?;
    with_accepted_note(
        object,
        alloc,
        inputs.accepted,
        key.scheme,
        key.spki,
        note.as_str().as_bytes(),
        checkpoint.signatures.as_slice(),
    )
}

/// The object with what the proof and the note say of the tree.
fn with_proof(
    object: Object,
    alloc: Global,
    entry: &TransparencyLogEntry,
) -> Result<Object, OutOfMemory>
    ensures { IfOk result (λ made. members made
        ≡ members_into (members object) (if_there trees_rows (proof_of entry.now))) }
{
    match read_proof(alloc, entry)? {
        Some(proof) => {
            let made = with_trees(object, alloc, &proof);
            drop(proof);
            made
        }
        None => Ok(object),
    }
}
