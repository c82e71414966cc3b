//! A signed checkpoint as text, read into memory of its own and written.
ghost use Rattle.std.specs.Prelude.{◌≡◌, ◌++◌, Ok, IfOk, OnOk, string_bytes};
ghost use Rattle.std.specs.List.{AllByRecursion, join_by, flat_map};
ghost use Rattle.sig_rekor.specs.declared.checkpoint.SignedCheckpoint.{SignedCheckpoint as Signed};
ghost use Rattle.sig_base.specs.Answers.{Answers};
ghost use Rattle.sig_rekor.specs.Reading.{as_error};
ghost use Rattle.sig_rekor.specs.NoteText.{newline};
ghost use Rattle.sig_rekor.specs.SignatureText.{signature_text};
ghost use Rattle.sig_rekor.specs.CheckpointText.{checkpoint_of, checkpoint_text, IsCheckpoint};
ghost use Rattle.sig_rekor.specs.ReadBack.{IsNoteValue, IsSignatureValue, ReadsBack};

use crate::checkpoint::{CheckpointSignature, SignedCheckpoint};
use crate::fault::ParseCheckpointError;
use crate::signed_note::SignedNote;
use sig_base::{OutOfMemory, Text};
use std::alloc::Global;

impl SignedCheckpoint {
    /// Reads a signed checkpoint, in memory of its own. Fails as [`SignedNote::decode`].
    pub fn decode(alloc: Global, s: &str) -> Result<SignedCheckpoint, ParseCheckpointError>
        ensures found { IfOk result (λ checkpoint. IsCheckpoint s.now checkpoint) }
        ensures only { (checkpoint : Signed) → IsCheckpoint s.now checkpoint →
            Answers ParseCheckpointError.OutOfMemory (λ x. x) result (Ok checkpoint) }
        ensures exact { Answers ParseCheckpointError.OutOfMemory (λ x. x) result (as_error (checkpoint_of s.now)) }
    {
        read_checkpoint(alloc, s)
    }

    /// Writes the checkpoint: the note, two newlines, and the signatures with a newline between each two. It is read
    /// back if `ReadsBack` holds. Fails only if out of memory.
    pub fn encode(&self, alloc: Global) -> Result<Text, OutOfMemory>
        ensures text { IfOk result (λ text. text ≡ checkpoint_text self.now) }
        ensures reads_back { ReadsBack self.now → IfOk result (λ text. checkpoint_of text ≡ Ok self.now) }
    {
        self.write(alloc)
    }

    /// The checkpoint's text.
    #[tactic(auto, using(crate::proofs::Steps::appended), unfolding(crate::specs::CheckpointText::checkpoint_text))]
    fn write(&self, alloc: Global) -> Result<Text, OutOfMemory>
        ensures text { IfOk result (λ text. text ≡ checkpoint_text self.now) }
        ensures note { OnOk result (IsNoteValue self.now.note) }
        ensures signatures { OnOk result (AllByRecursion IsSignatureValue self.now.signatures) }
    {
        let mut text = self.note.write(alloc)?;
        text.push_str("\n\n")?;
        push_signatures(alloc, &mut text, self.signatures.as_slice())?;
        Ok(Text::from(text))
    }
}

fn read_checkpoint(alloc: Global, text: &str) -> Result<SignedCheckpoint, ParseCheckpointError>
    ensures { Answers ParseCheckpointError.OutOfMemory (λ x. x) result (as_error (checkpoint_of text.now)) }
{
    let note = SignedNote::decode(alloc, text)?;
    Ok(note.copy(alloc)?)
}

/// Writes signatures with a newline between each two.
#[tactic(auto, using(crate::proofs::Steps::appended))]
fn push_signatures(
    alloc: Global,
    text: &mut String,
    signatures: &[CheckpointSignature],
) -> Result<(), OutOfMemory>
    ensures text { OnOk result (string_bytes text.new ≡ string_bytes text.old ++ join_by signature_text newline
        signatures.now) }
    ensures values { OnOk result (AllByRecursion IsSignatureValue signatures.now) }
{
    let Some((first, others)) = signatures.split_first() else {
        return Ok(());
    };
    let line = first.write(alloc)?;
    text.push_str(line.as_str())?;
    push_others(alloc, text, others)
}

/// Writes signatures with a newline before each.
#[tactic(auto, using(crate::proofs::Steps::appended, crate::proofs::Steps::all_push))]
fn push_others(
    alloc: Global,
    text: &mut String,
    signatures: &[CheckpointSignature],
) -> Result<(), OutOfMemory>
    ensures text { OnOk result (string_bytes text.new ≡ string_bytes text.old ++ flat_map
        (λ s. newline ++ signature_text s) signatures.now) }
    ensures values { OnOk result (AllByRecursion IsSignatureValue signatures.now) }
{
    for signature in signatures {
        let line = signature.write(alloc)?;
        text.push('\n')?;
        text.push_str(line.as_str())?;
    }
    Ok(())
}
