//! The lines of a note after its hash.
ghost use Rattle.std.specs.Prelude.{◌≡◌, ◌++◌, [], ◌∷◌, true, IfOk, OnOk, string_bytes};
ghost use Rattle.std.specs.List.{flat_map};
ghost use Rattle.sig_rekor.specs.WrittenLines.{AreWritten};
ghost use Rattle.sig_rekor.specs.TextCuts.{parts_between};
ghost use Rattle.sig_rekor.specs.NoteText.{newline, other_content_of, contents_of, content_line};

use crate::checkpoint::{OtherContent, OtherContents};
use crate::cuts::{cut, trimmed};
use sig_base::{OutOfMemory, Text};
use std::alloc::Global;

/// Writes the contents of a text. Lines without an empty one are written as they are, so they are copied at once.
#[tactic(auto, using(crate::proofs::WrittenLines::lines_written))]
pub(crate) fn push_lines(alloc: Global, text: &mut String, lines: &str) -> Result<(), OutOfMemory>
    ensures { OnOk result (string_bytes text.new ≡ string_bytes text.old ++ flat_map content_line
        (contents_of (parts_between newline lines.now))) }
{
    if are_written(lines) {
        text.push_str(lines)?;
        text.push('\n')?;
        return Ok(());
    }
    let contents = read_contents(alloc, lines)?;
    push_contents(text, contents.as_slice())
}

/// Whether no line of a text is empty.
fn are_written(lines: &str) -> bool
    ensures { result ≡ true → AreWritten lines.now }
{
    if lines.is_empty() || trimmed(lines, '\n').len() < lines.len() {
        return false;
    }
    cut(lines, "\n\n").is_none()
}

/// The contents of a text: what each line that is not empty says.
#[tactic(auto, using(crate::proofs::Notes::all_contents))]
pub(crate) fn read_contents(alloc: Global, text: &str) -> Result<OtherContents, OutOfMemory>
    ensures { IfOk result (λ contents. contents ≡ contents_of (parts_between newline text.now)) }
{
    let mut contents = OtherContents::new(alloc);
    let mut rest = text;
    'lines: while let Some((line, after)) = cut(rest, "\n") {
        add_content(alloc, line, &mut contents)?;
        rest = after;
    }
    add_content(alloc, rest, &mut contents)?;
    Ok(contents)
}

/// Adds what a line says, unless it is empty.
#[tactic(auto, using(crate::proofs::Notes::one_content))]
fn add_content(alloc: Global, line: &str, contents: &mut OtherContents) -> Result<(), OutOfMemory>
    ensures { OnOk result (contents.new ≡ contents.old ++ contents_of (line.now ∷ [])) }
{
    if line.is_empty() {
        return Ok(());
    }
    let content = read_content(alloc, line)?;
    contents.push(content)
}

#[tactic(auto, unfolding(crate::specs::NoteText::other_content_of))]
fn read_content(alloc: Global, line: &str) -> Result<OtherContent, OutOfMemory>
    ensures { IfOk result (λ content. content ≡ other_content_of line.now) }
{
    match cut(line, ": ") {
        Some((key, value)) => Ok(OtherContent::KeyValue(
            Text::copy_of(alloc, key)?,
            Text::copy_of(alloc, value)?,
        )),
        None => Ok(OtherContent::Value(Text::copy_of(alloc, line)?)),
    }
}

/// Writes contents, each ended by a newline.
#[tactic(auto, using(crate::proofs::Steps::appended))]
pub(crate) fn push_contents(text: &mut String, contents: &[OtherContent]) -> Result<(), OutOfMemory>
    ensures { OnOk result (string_bytes text.new ≡ string_bytes text.old ++ flat_map content_line contents.now) }
{
    for content in contents {
        push_content(text, content)?;
    }
    Ok(())
}

fn push_content(text: &mut String, content: &OtherContent) -> Result<(), OutOfMemory>
    ensures { OnOk result (string_bytes text.new ≡ string_bytes text.old ++ content_line content.now) }
{
    match content {
        OtherContent::KeyValue(key, value) => {
            text.push_str(key.as_str())?;
            text.push_str(": ")?;
            text.push_str(value.as_str())?;
        }
        OtherContent::Value(value) => text.push_str(value.as_str())?,
    }
    text.push('\n')?;
    Ok(())
}
