//! A note as text, read into memory of its own and written.
ghost use Rattle.std.specs.Prelude.{◌≡◌, IfOk, OnOk, Ok, string_bytes};
ghost use Rattle.sig_rekor.specs.declared.checkpoint.Checkpoint.{Checkpoint as Note};
ghost use Rattle.sig_base.specs.Answers.{Answers};
ghost use Rattle.sig_rekor.specs.Reading.{as_error};
ghost use Rattle.sig_rekor.specs.NoteText.{note_of, note_text, IsNote};
ghost use Rattle.sig_rekor.specs.ReadBack.{IsNoteValue};

use crate::checkpoint::Checkpoint;
use crate::contents::push_contents;
use crate::fault::ParseCheckpointError;
use crate::note::{Note, write_head};
use sig_base::{OutOfMemory, Text};
use std::alloc::Global;

impl Checkpoint {
    /// Reads a note, in memory of its own. Fails as [`Note::read`].
    pub fn unmarshal(alloc: Global, s: &str) -> Result<Checkpoint, ParseCheckpointError>
        ensures found { IfOk result (λ note. IsNote s.now note) }
        ensures only { (note : Note) → IsNote s.now note →
            Answers ParseCheckpointError.OutOfMemory (λ n. n) result (Ok note) }
        ensures exact { Answers ParseCheckpointError.OutOfMemory (λ n. n) result (as_error (note_of s.now)) }
    {
        read_note(alloc, s)
    }

    /// Writes the note, as [`Note::marshal`]. Fails only if out of memory.
    pub fn marshal(&self, alloc: Global) -> Result<Text, OutOfMemory>
        ensures { IfOk result (λ text. text ≡ note_text self.now) }
    {
        Ok(Text::from(self.write(alloc)?))
    }

    /// Returns the note's text, to which more is appended.
    #[tactic(auto, using(crate::proofs::Steps::appended), unfolding(crate::specs::NoteText::note_text))]
    pub(crate) fn write(&self, alloc: Global) -> Result<String, OutOfMemory>
        ensures text { IfOk result (λ text. string_bytes text ≡ note_text self.now) }
        ensures value { OnOk result (IsNoteValue self.now) }
    {
        let mut text = write_head(alloc, self.origin.as_str(), self.size, &self.hash)?;
        push_contents(&mut text, self.other_content.as_slice())?;
        Ok(text)
    }
}

fn read_note(alloc: Global, text: &str) -> Result<Checkpoint, ParseCheckpointError>
    ensures { Answers ParseCheckpointError.OutOfMemory (λ n. n) result (as_error (note_of text.now)) }
{
    let note = Note::read(alloc, text)?;
    Ok(note.copy(alloc)?)
}
