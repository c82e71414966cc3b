//! `SignedNote`: a signed checkpoint as it is in a text: a note, an empty line, and signatures between empty lines.
//!
//! ```text
//! log.example
//! 1
//! OVqgZKpMKfcBCs/j8l25SFu9S5GJe2rXrVR2OSUrTVY=
//!
//! — log.example AAAAAXNpZw==
//! ```
ghost use Rattle.std.specs.Prelude.{◌≡◌, ◌∷◌, [], Ok, IfOk};
ghost use Rattle.sig_rekor.specs.declared.checkpoint.SignedCheckpoint.{SignedCheckpoint as Signed};
ghost use Rattle.sig_rekor.specs.TextCuts.{parts_between};
ghost use Rattle.sig_base.specs.Answers.{Answers};
ghost use Rattle.sig_rekor.specs.Reading.{as_error};
ghost use Rattle.sig_rekor.specs.NoteText.{note_text};
ghost use Rattle.sig_rekor.specs.CheckpointText.{empty_line, signatures_by, signatures_on, checkpoint_of, IsCheckpoint};

use crate::checkpoint::{CheckpointSignature, CheckpointSignatures, SignedCheckpoint};
use crate::cuts::{cut, is_blank, trimmed};
use crate::fault::ParseCheckpointError;
use crate::note::Note;
use sig_base::{CheckpointFault, OutOfMemory, Text};
use std::alloc::Global;
use std::marker::Model;

/// A signed checkpoint whose note is borrowed from its text. Contracts see the [`SignedCheckpoint`] that it is.
#[derive(Drop)]
pub struct SignedNote<'a> {
    pub(crate) note: Note<'a>,
    pub(crate) signatures: CheckpointSignatures,
}

impl<'a> Model for SignedNote<'a> {
    ghost use Rattle.sig_rekor.specs.declared.checkpoint.SignedCheckpoint.{SignedCheckpoint};

    ghost Value = { SignedCheckpoint };

    ghost view = { λ s. record { note = s.note; signatures = s.signatures } };
}

impl<'a> SignedNote<'a> {
    /// Reads a signed checkpoint. Quotation marks at both ends are dropped, and so is what is between two empty lines
    /// and only white space.
    ///
    /// Errors, the first whose rule is broken: `Format` where no empty line ends a note, then those of
    /// [`CheckpointSignature::decode`] for the signatures from the left, then those of [`Note::read`] for the note.
    pub fn decode(alloc: Global, s: &'a str) -> Result<SignedNote<'a>, ParseCheckpointError>
        ensures found { IfOk result (λ checkpoint. IsCheckpoint s.now checkpoint) }
        ensures only { (checkpoint : Signed) → IsCheckpoint s.now checkpoint →
            Answers ParseCheckpointError.OutOfMemory (λ x. x) result (Ok checkpoint) }
        ensures exact { Answers ParseCheckpointError.OutOfMemory (λ x. x) result (as_error (checkpoint_of s.now)) }
    {
        read_signed_note(alloc, s)
    }

    /// Writes the note, as [`Note::marshal`]: the text that is signed. Fails only if out of memory.
    pub fn marshal(&self, alloc: Global) -> Result<Text, OutOfMemory>
        ensures { IfOk result (λ text. text ≡ note_text self.now.note) }
    {
        self.note.marshal(alloc)
    }

    /// The signatures, of which any may be the log's.
    pub fn signatures(&self) -> &[CheckpointSignature]
        ensures { result.now ≡ self.now.signatures }
    {
        self.signatures.as_slice()
    }

    /// Returns the same checkpoint in memory of its own. Fails only if out of memory.
    pub fn copy(self, alloc: Global) -> Result<SignedCheckpoint, OutOfMemory>
        ensures { IfOk result (λ checkpoint. checkpoint ≡ self.entry) }
    {
        Ok(SignedCheckpoint {
            note: self.note.copy(alloc)?,
            signatures: self.signatures,
        })
    }
}

#[tactic(auto, unfolding(crate::specs::CheckpointText::checkpoint_of))]
fn read_signed_note(alloc: Global, text: &str) -> Result<SignedNote<'_>, ParseCheckpointError>
    ensures { Answers ParseCheckpointError.OutOfMemory (λ x. x) result (as_error (checkpoint_of text.now)) }
{
    let Some((note, rest)) = cut(trimmed(text, '"'), "\n\n") else {
        return Err(ParseCheckpointError::DecodeError(CheckpointFault::Format));
    };
    let signatures = read_signatures(alloc, rest)?;
    let note = Note::read(alloc, note)?;
    Ok(SignedNote { note, signatures })
}

#[tactic(auto, using(crate::proofs::Signatures::all_signatures))]
fn read_signatures(alloc: Global, text: &str) -> Result<CheckpointSignatures, ParseCheckpointError>
    ensures { Answers ParseCheckpointError.OutOfMemory (λ x. x) result
        (as_error (signatures_by (parts_between empty_line text.now))) }
{
    let mut signatures = CheckpointSignatures::new(alloc);
    let mut rest = text;
    'pieces: while let Some((piece, after)) = cut(rest, "\n\n") {
        add_signature(alloc, piece, &mut signatures)?;
        rest = after;
    }
    add_signature(alloc, rest, &mut signatures)?;
    Ok(signatures)
}

/// Adds the signature of a piece, unless the piece is only white space.
#[tactic(auto, using(crate::proofs::Signatures::one_signature))]
fn add_signature(
    alloc: Global,
    piece: &str,
    signatures: &mut CheckpointSignatures,
) -> Result<(), ParseCheckpointError>
    ensures { Answers ParseCheckpointError.OutOfMemory (λ _. signatures.new) result
        (as_error (signatures_on signatures.old (piece.now ∷ []))) }
{
    if is_blank(piece) {
        return Ok(());
    }
    let signature = CheckpointSignature::decode(alloc, piece)?;
    signatures.push(signature)?;
    Ok(())
}
