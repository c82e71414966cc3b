//! A text that is not a checkpoint.
//!
//! ```text
//! {"cause":["ParseCheckpointError","NoteFormat"],..}
//! ```
ghost use Rattle.std.specs.Prelude.{◌≡◌, IfOk};
ghost use Rattle.sig_json.specs.Writing.{members, members_into};
ghost use Rattle.sig_explain_log.specs.Refusals.{checkpoint_fault_rows, unread_rows};
ghost use Rattle.sig_rekor.specs.CheckpointText.{checkpoint_of};

use crate::reading::read_note;
use sig_base::{CheckpointFault, OutOfMemory};
use sig_explanation::{checkpoint_name, with_inner_cause};
use sig_json::Object;
use std::alloc::Global;

/// The object with why a text is not a checkpoint: `cause`, a list of `ParseCheckpointError` and the rule that the
/// text breaks first. Fails only if out of memory.
pub fn with_checkpoint_fault(
    object: Object,
    alloc: Global,
    fault: &CheckpointFault,
) -> Result<Object, OutOfMemory>
    ensures { IfOk result (λ made. members made
        ≡ members_into (members object) (checkpoint_fault_rows fault.now)) }
{
    with_inner_cause(
        object,
        alloc,
        "ParseCheckpointError",
        checkpoint_name(fault),
    )
}

/// The same for a text. The object stays as it is for a checkpoint. Fails only if out of memory.
pub fn with_unread(object: Object, alloc: Global, text: &str) -> Result<Object, OutOfMemory>
    ensures { IfOk result (λ made. members made
        ≡ members_into (members object) (unread_rows (checkpoint_of text.now))) }
{
    match read_note(alloc, text)? {
        Ok(_) => Ok(object),
        Err(fault) => with_checkpoint_fault(object, alloc, &fault),
    }
}
