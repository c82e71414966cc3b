//! A note that the log did not sign: what the accepted signatures share with it.
//!
//! ```text
//! {"accepted":["key"],"cause":["CheckpointSignatureVerificationError"],"keySha256":"..","messageSha256":"..",
//!  "scheme":"ED25519",..}
//! ```
ghost use Rattle.std.specs.Prelude.{◌≡◌, IfOk};
ghost use Rattle.sig_json.specs.Writing.{members, members_into};
ghost use Rattle.sig_explain_log.specs.Head.{head_unsigned_rows};
ghost use Rattle.sig_explain_log.specs.Refusals.{note_key_rows, unsigned_rows};
ghost use Rattle.sig_rekor.specs.CheckpointText.{checkpoint_of};

use crate::reading::read_note;
use sig_base::{OutOfMemory, TableChecker, VerifyScheme};
use sig_evidence::with_accepted_note;
use sig_explanation::with_cause;
use sig_json::Object;
use sig_rekor::SignedNote;
use sig_request::ClaimedHead;
use std::alloc::Global;

/// The object with what a note lacks that the log did not sign: `cause`, a list of
/// `CheckpointSignatureVerificationError`; and `scheme`, `keySha256`, `messageSha256` and `accepted` as by
/// [`with_accepted_note`]. The object stays as it is for a text that is not a checkpoint. Fails only if out of memory.
pub fn with_unsigned(
    object: Object,
    alloc: Global,
    scheme: VerifyScheme,
    key: &[u8],
    accepted: &TableChecker,
    text: &str,
) -> Result<Object, OutOfMemory>
    ensures { IfOk result (λ made. members made
        ≡ members_into (members object) (unsigned_rows scheme key.now accepted.now (checkpoint_of text.now))) }
{
    match read_note(alloc, text)? {
        Ok(checkpoint) => with_note_key(object, alloc, scheme, key, accepted, &checkpoint),
        Err(_) => Ok(object),
    }
}

/// The object with what the accepted signatures share with a checkpoint that is read.
fn with_note_key(
    object: Object,
    alloc: Global,
    scheme: VerifyScheme,
    key: &[u8],
    accepted: &TableChecker,
    checkpoint: &SignedNote<'_>,
) -> Result<Object, OutOfMemory>
    ensures { IfOk result (λ made. members made
        ≡ members_into (members object) (note_key_rows scheme key.now accepted.now checkpoint.now)) }
{
    let note = checkpoint.marshal(alloc)?;
    let object = with_cause(object, alloc, "CheckpointSignatureVerificationError")?;
    with_accepted_note(
        object,
        alloc,
        accepted,
        scheme,
        key,
        note.as_str().as_bytes(),
        checkpoint.signatures(),
    )
}

/// The same for a request's tree head.
pub(crate) fn with_unsigned_head(
    object: Object,
    alloc: Global,
    head: &ClaimedHead,
) -> Result<Object, OutOfMemory>
    ensures { IfOk result (λ made. members made ≡ members_into (members object) (head_unsigned_rows head.now)) }
{
    let scheme = head.scheme.scheme();
    let text = head.checkpoint.as_str();
    with_unsigned(
        object,
        alloc,
        scheme,
        head.key.as_slice(),
        &head.accepted,
        text,
    )
}
