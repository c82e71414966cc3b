//! What the accepted signatures share with one that was asked about.
ghost use Rattle.std.specs.Prelude.{◌≡◌, ◌++◌, IfOk, OnOk};
ghost use Rattle.sig_json.specs.Writing.{members, members_into, put_some};
ghost use Rattle.sig_evidence.specs.Accepted.{asked_about, asked_note_rows, asked_rows, found_names, has_one_of, key_row};
ghost use Rattle.sig_evidence.specs.Accepted.{named_if};

use sig_base::{OutOfMemory, OwnedList, RowPart, TableChecker, Text, VerifyScheme};
use sig_json::Object;
use sig_rekor::CheckpointSignature;
use sig_shown::{ShownText, first, with_count, with_list, with_sha256};
use std::alloc::Global;

/// The greatest number of a note's signatures that are sought among the accepted ones.
pub const MOST_SIGNATURES: usize = 16;

/// The greatest length in bytes of a key whose SHA-256 is shown: a log has one key for all bundles that are explained.
pub const MOST_KEY_BYTES: usize = 65536;

/// The object with what the accepted signatures share with one that was asked about and is not accepted: `scheme`, the
/// name of the scheme under which it was asked about; `keySha256` and `messageSha256`, the SHA-256 of the key and of
/// the message, and for a key of more than [`MOST_KEY_BYTES`], `keyLength`, the number of its bytes, in place of the
/// hash; and `accepted`, a list of those of `key`, `message` and `signature` that some row has. So a row for another
/// key, another message and another signature can be distinguished. Fails only if out of memory.
pub fn with_accepted(
    object: Object,
    alloc: Global,
    accepted: &TableChecker,
    scheme: VerifyScheme,
    key: &[u8],
    message: &[u8],
    signature: &[u8],
) -> Result<Object, OutOfMemory>
    ensures { IfOk result (λ made. members made
        ≡ members_into (members object) (asked_rows accepted.now scheme key.now message.now signature.now)) }
{
    let signed = accepted.has(RowPart::Signature, signature);
    with_asked(object, alloc, accepted, scheme, key, message, signed)
}

/// The object with what the accepted signatures share with those of a note, if none is accepted: the members of
/// [`with_accepted`], where `signature` is in `accepted` if some row has one of the first [`MOST_SIGNATURES`]
/// signatures of the note. Fails only if out of memory.
pub fn with_accepted_note(
    object: Object,
    alloc: Global,
    accepted: &TableChecker,
    scheme: VerifyScheme,
    key: &[u8],
    note: &[u8],
    signatures: &[CheckpointSignature],
) -> Result<Object, OutOfMemory>
    ensures { IfOk result (λ made. members made
        ≡ members_into (members object) (asked_note_rows accepted.now scheme key.now note.now signatures.now)) }
{
    let signed = has_one_of(accepted, first(signatures, MOST_SIGNATURES));
    with_asked(object, alloc, accepted, scheme, key, note, signed)
}

/// Whether some row has one of the signatures of a note.
fn has_one_of(accepted: &TableChecker, signatures: &[CheckpointSignature]) -> bool
    ensures { result ≡ has_one_of accepted.now signatures.now }
{
    signatures
        .iter()
        .any(|it| accepted.has(RowPart::Signature, it.raw.as_slice()))
}

/// The object with what was asked about, and whether some row has the signature.
fn with_asked(
    object: Object,
    alloc: Global,
    accepted: &TableChecker,
    scheme: VerifyScheme,
    key: &[u8],
    message: &[u8],
    signed: bool,
) -> Result<Object, OutOfMemory>
    ensures { IfOk result (λ made. members made
        ≡ members_into (members object) (asked_about accepted.now scheme key.now message.now signed)) }
{
    let object = object.with_text(alloc, "scheme", scheme.name())?;
    let object = with_key(object, alloc, key)?;
    let object = with_sha256(object, alloc, "messageSha256", message)?;
    let has_key = accepted.has(RowPart::Key, key);
    let has_message = accepted.has(RowPart::Message, message);
    let names = found_names(alloc, has_key, has_message, signed)?;
    with_list::<ShownText>(object, alloc, "accepted", names.as_slice())
}

/// The object with the SHA-256 of a key, or with the length of a long one.
fn with_key(object: Object, alloc: Global, key: &[u8]) -> Result<Object, OutOfMemory>
    ensures { IfOk result (λ made. members made ≡ put_some (key_row key.now).0 (key_row key.now).1 (members object)) }
{
    if key.len() <= MOST_KEY_BYTES {
        return with_sha256(object, alloc, "keySha256", key);
    }
    with_count(object, alloc, "keyLength", key.len() as u64)
}

/// The names of those of the three that some row has.
fn found_names(
    alloc: Global,
    key: bool,
    message: bool,
    signature: bool,
) -> Result<OwnedList<Text>, OutOfMemory>
    ensures { IfOk result (λ names. names ≡ found_names key message signature) }
{
    let mut names = OwnedList::new(alloc);
    push_if(alloc, &mut names, key, "key")?;
    push_if(alloc, &mut names, message, "message")?;
    push_if(alloc, &mut names, signature, "signature")?;
    Ok(names)
}

/// Adds a name at the end, if it was found.
fn push_if(
    alloc: Global,
    names: &mut OwnedList<Text>,
    found: bool,
    name: &str,
) -> Result<(), OutOfMemory>
    ensures { OnOk result (names.new ≡ names.old ++ named_if found name.now) }
{
    if found {
        names.push(Text::copy_of(alloc, name)?)?;
    }
    Ok(())
}
