//! `Note`: the note of a checkpoint as it is in a text: origin, size, root hash and further contents, a line each.
//!
//! ```text
//! log.example
//! 1
//! OVqgZKpMKfcBCs/j8l25SFu9S5GJe2rXrVR2OSUrTVY=
//! Timestamp: 1689748607
//! ```
ghost use Rattle.std.specs.Prelude.{◌≡◌, ◌++◌, ◌∷◌, IfOk, OnOk, Err, MatchOption, string_bytes, decimal};
ghost use Rattle.base64.specs.GeneralPurpose.{IsBytes};
ghost use Rattle.sig_base.specs.Base64.{base64_text};
ghost use Rattle.sig_base.specs.declared.fault.CheckpointFault.TheVariants.{NoteFormat};
ghost use Rattle.sig_rekor.specs.TextCuts.{parts_between};
ghost use Rattle.sig_base.specs.Answers.{Answers};
ghost use Rattle.sig_rekor.specs.Reading.{as_error};
ghost use Rattle.sig_rekor.specs.NoteText.{newline, origin_of, tree_size_of, root_hash_of, note_by, note_of, note_text};

use crate::checkpoint::Checkpoint;
use crate::coding::decode_base64;
use crate::contents::{push_lines, read_contents};
use crate::cuts::{cut, is_blank};
use crate::fault::ParseCheckpointError;
use sig_base::{CheckpointFault, OutOfMemory, Text};
use std::alloc::Global;
use std::marker::Model;

/// A note, borrowed from its text: its lines after the hash take no memory. Contracts see the [`Checkpoint`] that it
/// is.
#[derive(Drop)]
pub struct Note<'a> {
    pub(crate) origin: &'a str,
    pub(crate) size: u64,
    pub(crate) hash: [u8; 32],
    /// The lines after the hash, also empty ones.
    pub(crate) others: &'a str,
}

impl<'a> Model for Note<'a> {
    ghost use Rattle.sig_rekor.specs.declared.checkpoint.Checkpoint.{Checkpoint};

    ghost Value = { Checkpoint };

    ghost use Rattle.sig_rekor.specs.BorrowedNote.{note_in};

    ghost view = { note_in };
}

impl<'a> Note<'a> {
    /// Reads a note: lines for the origin, the size and the root hash, and each further line that is not empty as a
    /// content. It takes memory only for the hash.
    ///
    /// Errors, the first whose rule is broken:
    /// - `NoteFormat`: fewer than three lines;
    /// - `EmptyOrigin`: the origin is only white space;
    /// - `Size`: the second line is not digits of a number below 2^64 after an optional plus sign;
    /// - `HashBase64`: the third line is not base64;
    /// - `HashLength`: it is not 32 bytes.
    pub fn read(alloc: Global, s: &'a str) -> Result<Note<'a>, ParseCheckpointError>
        ensures { Answers ParseCheckpointError.OutOfMemory (λ n. n) result (as_error (note_of s.now)) }
    {
        let Some(lines) = lines_of(s) else {
            return Err(ParseCheckpointError::DecodeError(CheckpointFault::NoteFormat));
        };
        let origin = read_origin(lines.origin)?;
        let size = read_size(lines.size)?;
        let hash = read_hash(alloc, lines.hash)?;
        Ok(Note {
            origin,
            size,
            hash,
            others: lines.others,
        })
    }

    /// Writes the note: origin, size in decimal, base64 of the hash and the contents, each ended by a newline.
    /// Fails only if out of memory.
    #[tactic(auto, using(crate::proofs::Steps::appended), unfolding(crate::specs::NoteText::note_text))]
    pub fn marshal(&self, alloc: Global) -> Result<Text, OutOfMemory>
        ensures { IfOk result (λ text. text ≡ note_text self.now) }
    {
        let mut text = write_head(alloc, self.origin, self.size, &self.hash)?;
        push_lines(alloc, &mut text, self.others)?;
        Ok(Text::from(text))
    }

    /// Returns the same note in memory of its own. Fails only if out of memory.
    pub fn copy(&self, alloc: Global) -> Result<Checkpoint, OutOfMemory>
        ensures { IfOk result (λ note. note ≡ self.now) }
    {
        Ok(Checkpoint {
            origin: Text::copy_of(alloc, self.origin)?,
            size: self.size,
            hash: self.hash,
            other_content: read_contents(alloc, self.others)?,
        })
    }
}

/// Returns the first three lines of a note, and what follows them.
#[derive(Drop)]
struct Lines<'a> {
    origin: &'a str,
    size: &'a str,
    hash: &'a str,
    others: &'a str,
}

#[tactic(auto, using(crate::proofs::Notes::all_lines))]
fn lines_of(text: &str) -> Option<Lines<'_>>
    ensures { MatchOption result (note_of text.now ≡ Err NoteFormat)
        (λ lines. note_of text.now ≡ note_by (lines.origin.now ∷ lines.size.now ∷ lines.hash.now ∷ parts_between
        newline
        lines.others.now)) }
{
    let (origin, rest) = cut(text, "\n")?;
    let (size, rest) = cut(rest, "\n")?;
    let (hash, others) = match cut(rest, "\n") {
        Some(ended) => ended,
        None => (rest, ""),
    };
    Some(Lines {
        origin,
        size,
        hash,
        others,
    })
}

#[tactic(auto, unfolding(crate::specs::NoteText::origin_of))]
fn read_origin(line: &str) -> Result<&str, ParseCheckpointError>
    ensures { Answers ParseCheckpointError.OutOfMemory (λ t. t.now) result (as_error (origin_of line.now)) }
{
    if is_blank(line) {
        return Err(ParseCheckpointError::DecodeError(CheckpointFault::EmptyOrigin));
    }
    Ok(line)
}

#[tactic(auto, unfolding(crate::specs::NoteText::tree_size_of))]
fn read_size(line: &str) -> Result<u64, ParseCheckpointError>
    ensures { Answers ParseCheckpointError.OutOfMemory (λ n. n) result (as_error (tree_size_of line.now)) }
{
    match line.parse::<u64>() {
        Ok(size) => Ok(size),
        Err(_) => Err(ParseCheckpointError::DecodeError(CheckpointFault::Size)),
    }
}

#[tactic(auto, unfolding(crate::specs::NoteText::root_hash_of))]
fn read_hash(alloc: Global, line: &str) -> Result<[u8; 32], ParseCheckpointError>
    ensures { Answers ParseCheckpointError.OutOfMemory (λ h. h) result (as_error (root_hash_of line.now)) }
{
    let bytes = decode_base64(alloc, line, CheckpointFault::HashBase64)?;
    match <[u8; 32]>::try_from(bytes.as_slice()) {
        Ok(hash) => Ok(hash),
        Err(_) => Err(ParseCheckpointError::DecodeError(CheckpointFault::HashLength)),
    }
}

/// Returns the first three lines of a note's text, to which the rest is appended.
#[tactic(auto, using(crate::proofs::Steps::appended))]
pub(crate) fn write_head(
    alloc: Global,
    origin: &str,
    size: u64,
    hash: &[u8; 32],
) -> Result<String, OutOfMemory>
    ensures text { IfOk result (λ text. string_bytes text ≡
        origin.now ++ (newline ++ (decimal size ++ (newline ++ (base64_text hash.now ++ newline))))) }
    ensures bytes { OnOk result (IsBytes hash.now) }
{
    let hash = Text::in_base64(alloc, hash)?;
    let text = format!(in alloc; "{origin}\n{size}\n{}\n", hash.as_str())?;
    Ok(text)
}
