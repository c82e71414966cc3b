//! The text of a log's promise to include an entry, which the signed entry timestamp of Rekor is over.
//!
//! ```text
//! {"body":"eyJhcGlWZXJzaW9uIjoiMC4wLjEifQ==","integratedTime":1702446656,"logID":"dd3d306a","logIndex":56111}
//! ```
ghost use Rattle.std.specs.Prelude.{◌≡◌, [], IsSome, IfOk, Err, unwrap_or};
ghost use Rattle.sig_base.specs.Answers.{Answers, ComesWhere};
ghost use Rattle.sig_bundle.specs.Promise.{IsExactEntry, promise_of_entry, promise_tree_of};
ghost use Rattle.sig_json_text.specs.Canonical.{canonical_of};
ghost use Rattle.sig_json.specs.Tree.{document_tree};

use crate::material::TransparencyLogEntry;
use sig_base::laws::{are_optional_bytes, are_owned_bytes};
use sig_base::{Bytes, OutOfMemory, Text};
use sig_json::{Document, Object};
use sig_json_text::{CanonicalError, canonical};
use std::alloc::Global;

/// Returns the text that a log signs to promise that it includes the entry: the canonical text (RFC 8785) of an object
/// with the members `body`, in base64, `integratedTime`, `logID`, in lower-case hexadecimal, and `logIndex`.
///
/// Fails with `IntegerTooLarge` if and only if the integrated time or the log index is outside plus or minus 2^53 - 1.
pub fn promise_text(alloc: Global, entry: &TransparencyLogEntry) -> Result<Text, CanonicalError>
    requires { IsSome entry.now.log_id }
    // The text is the one with these four members, letter by letter, and both integers are within the bounds.
    ensures text { IfOk result (λ text. (text ≡ promise_of_entry entry.now) × IsExactEntry entry.now) }
    // `IntegerTooLarge` comes if and only if one is outside.
    ensures too_large { ComesWhere CanonicalError.OutOfMemory result (Err CanonicalError.IntegerTooLarge)
        (¬ IsExactEntry entry.now) }
    // The same in one equation, by RFC 8785.
    ensures answer { Answers CanonicalError.OutOfMemory (λ text. text) result
        (canonical_of (promise_tree_of entry.now)) }
{
    // Body and log id are bytes.
    are_owned_bytes(&entry.canonicalized_body);
    are_optional_bytes(&entry.log_id);
    write_promise(alloc, entry)
}

/// Writes the canonical JSON of a promise (RFC 8785).
fn write_promise(alloc: Global, entry: &TransparencyLogEntry) -> Result<Text, CanonicalError>
    ensures { Answers CanonicalError.OutOfMemory (λ text. text) result
        (canonical_of (promise_tree_of entry.now)) }
{
    let object = promise_object(alloc, entry)?;
    canonical(alloc, object.view())
}

/// The object of a promise. Fails only if out of memory.
#[tactic(auto, unfolding(crate::specs::Promise::promise_tree_of, sig_json::specs::Writing::bytes_tree))]
fn promise_object(alloc: Global, entry: &TransparencyLogEntry) -> Result<Document, OutOfMemory>
    ensures { IfOk result (λ document. document_tree document ≡ promise_tree_of entry.now) }
{
    let object = Object::new(alloc)
        .with_bytes(alloc, "body", entry.canonicalized_body.as_slice())?
        .with_number(alloc, "integratedTime", entry.integrated_time)?
        .with_hex(alloc, "logID", id_bytes(&entry.log_id))?
        .with_number(alloc, "logIndex", entry.log_index)?;
    Ok(object.into_document())
}

/// Returns the id of a log, empty if it is absent.
fn id_bytes(id: &Option<Bytes>) -> &[u8]
    ensures { result.now ≡ unwrap_or id.now [] }
{
    match id {
        Some(id) => id.as_slice(),
        None => &[],
    }
}
