//! The signatures of the log: over the promise and over the checkpoint of the entry.
ghost use Rattle.std.specs.Prelude.{◌≡◌, flat_map, option_map, IsSome, OnOk, Some};
ghost use Rattle.sig_verify.specs.EntryLinks.{IsOfBytes};
ghost use Rattle.sig_questions.specs.Lists.{entry_questions, entry_questions_under, note_questions};
ghost use Rattle.sig_questions.specs.Lists.{note_questions_of, promise_questions};
ghost use Rattle.sig_questions.specs.Lists.{note_question, text_of_proof};
ghost use Rattle.sig_questions.specs.Written.{AddsRows};

use crate::listing::NoQuestions;
use crate::rows::{RowParts, Rows};
use sig_base::laws::{are_bytes, are_optional_bytes, are_owned_bytes};
use sig_base::{KeyMap, Operation, Text, VerifyScheme};
use sig_bundle::{TransparencyLogEntry, promise_text};
use sig_json_text::CanonicalError;
use sig_key::{KeyKind, key_kind};
use sig_rekor::{CheckpointSignature, ParseCheckpointError, SignedNote};
use std::alloc::Global;

/// The key of an entry's log: its scheme, and its SubjectPublicKeyInfo (DER).
#[derive(Clone, Copy)]
struct LogKey<'a> {
    scheme: VerifyScheme,
    spki: &'a [u8],
}

/// The rows of the promise and of the note, if the entry's log has a key of a scheme.
pub(crate) fn push_entry(
    rows: &mut Rows,
    alloc: Global,
    entry: &TransparencyLogEntry,
    keys: &KeyMap,
) -> Result<(), NoQuestions>
    ensures written { AddsRows rows.old (entry_questions keys.now entry.now) result rows.new }
    ensures bytes { OnOk result (IsOfBytes keys.now entry.now) }
{
    // Body and log id are bytes, so that they are read back from the promise.
    are_owned_bytes(&entry.canonicalized_body);
    are_optional_bytes(&entry.log_id);
    let Some(id) = &entry.log_id else {
        return Ok(());
    };
    let name = Text::from(hex::encode(alloc, id.as_slice())?);
    match keys.get(name.as_str()) {
        Some(spki) => {
            // The key is bytes.
            are_bytes(spki);
            push_under(rows, alloc, entry, spki)
        }
        None => Ok(()),
    }
}

/// The rows of the promise and of the note, if the key is of a scheme.
fn push_under(
    rows: &mut Rows,
    alloc: Global,
    entry: &TransparencyLogEntry,
    spki: &[u8],
) -> Result<(), NoQuestions>
    requires { IsSome entry.now.log_id }
    ensures { AddsRows rows.old (entry_questions_under entry.now (Some spki.now)) result rows.new }
{
    match key_kind(spki) {
        KeyKind::Scheme(scheme) => {
            let key = LogKey { scheme, spki };
            push_promise(rows, alloc, entry, &key)?;
            push_note(rows, alloc, entry, &key)
        }
        KeyKind::Unsupported => Ok(()),
        KeyKind::NoKeyInfo => Ok(()),
    }
}

/// The row of the promise, if the entry has one and its integers have a canonical text.
fn push_promise(
    rows: &mut Rows,
    alloc: Global,
    entry: &TransparencyLogEntry,
    key: &LogKey<'_>,
) -> Result<(), NoQuestions>
    requires { IsSome entry.now.log_id }
    ensures { AddsRows rows.old (promise_questions key.now.scheme key.now.spki.now entry.now) result rows.new }
{
    let Some(promise) = &entry.inclusion_promise else {
        return Ok(());
    };
    match promise_text(alloc, entry) {
        Ok(text) => rows.push(
            alloc,
            &RowParts {
                operation: Operation::Message,
                scheme: key.scheme.name().as_bytes(),
                key: key.spki,
                message: text.as_str().as_bytes(),
                signature: promise.as_slice(),
            },
        ),
        Err(CanonicalError::IntegerTooLarge) => Ok(()),
        Err(CanonicalError::OutOfMemory) => Err(NoQuestions::OutOfMemory),
    }
}

/// The rows of the note, if the entry's proof has a text of a checkpoint that can be read.
fn push_note(
    rows: &mut Rows,
    alloc: Global,
    entry: &TransparencyLogEntry,
    key: &LogKey<'_>,
) -> Result<(), NoQuestions>
    ensures { AddsRows rows.old (note_questions key.now.scheme key.now.spki.now entry.now) result rows.new }
{
    let Some(text) = text_of(entry) else {
        return Ok(());
    };
    match SignedNote::decode(alloc, text) {
        Ok(checkpoint) => push_checkpoint(rows, alloc, &checkpoint, key),
        Err(ParseCheckpointError::DecodeError(_)) => Ok(()),
        Err(ParseCheckpointError::OutOfMemory) => Err(NoQuestions::OutOfMemory),
    }
}

/// The text of the checkpoint.
fn text_of(entry: &TransparencyLogEntry) -> Option<&str>
    ensures { option_map (λ text. text.now) result ≡ text_of_proof entry.now }
{
    match &entry.inclusion_proof {
        Some(proof) => match &proof.checkpoint {
            Some(text) => Some(text.as_str()),
            None => None,
        },
        None => None,
    }
}

/// The row of each signature, over the note.
fn push_checkpoint(
    rows: &mut Rows,
    alloc: Global,
    checkpoint: &SignedNote<'_>,
    key: &LogKey<'_>,
) -> Result<(), NoQuestions>
    ensures { AddsRows rows.old (note_questions_of key.now.scheme key.now.spki.now checkpoint.now) result rows.new }
{
    let note = checkpoint.marshal(alloc)?;
    push_signatures(
        rows,
        alloc,
        note.as_str().as_bytes(),
        checkpoint.signatures(),
        key,
    )
}

/// The row of each signature, over these bytes.
fn push_signatures(
    rows: &mut Rows,
    alloc: Global,
    message: &[u8],
    signatures: &[CheckpointSignature],
    key: &LogKey<'_>,
) -> Result<(), NoQuestions>
    ensures { AddsRows rows.old (flat_map (note_question key.now.scheme key.now.spki.now message.now) signatures.now)
        result rows.new }
{
    'signatures: for signature in signatures {
        push_signature(rows, alloc, message, signature, key)?;
    }
    Ok(())
}

/// The row of a signature.
fn push_signature(
    rows: &mut Rows,
    alloc: Global,
    message: &[u8],
    signature: &CheckpointSignature,
    key: &LogKey<'_>,
) -> Result<(), NoQuestions>
    ensures { AddsRows rows.old (note_question key.now.scheme key.now.spki.now message.now signature.now) result
        rows.new }
{
    rows.push(
        alloc,
        &RowParts {
            operation: Operation::Message,
            scheme: key.scheme.name().as_bytes(),
            key: key.spki,
            message,
            signature: signature.raw.as_slice(),
        },
    )
}
