//! `RowList`: a list of signatures as it is made, each once.
ghost use Rattle.std.specs.Prelude.{◌≡◌, ◌+◌, ◌≤◌, ◌∷◌, [], IfOk};
ghost use Rattle.sig_gate_command.specs.RowList.{HasRoom, IsEmptyList, IsPut};
ghost use Rattle.sig_questions.specs.Rows.{row_bytes};
ghost use Rattle.sig_reply.specs.RowsText.{IsDocumentOf, IsSchemeUnder};

use crate::questions::MOST_ASKED;
use sig_base::{AcceptedRow, ByText, OutOfMemory, Text};
use sig_json::Document;
use sig_json_text::compact;
use sig_reply::add_row;
use std::alloc::Global;

/// A list of signatures, which takes `size` bytes except for its closing bracket, of at most `most`.
#[derive(Drop)]
pub struct RowList {
    /// The list, with one object for each signature.
    pub list: Document,
    /// How many bytes it takes.
    pub size: usize,
    /// How many bytes it may take.
    pub most: usize,
    /// How many bytes the signatures may have that are still to be added, each counted as often as it is.
    pub left: usize,
    /// The listed signatures, each by the document of only this signature.
    pub names: ByText<usize>,
}

impl RowList {
    /// Returns the list without signatures. It takes no memory.
    pub fn new(alloc: Global, most: usize) -> RowList
        ensures { IsEmptyList most result }
    {
        RowList {
            list: Document::list(alloc),
            size: 0,
            most,
            left: MOST_ASKED,
            names: ByText::new(alloc),
        }
    }

    /// Adds a signature unless it is listed; `false` if the list would have more than `most` bytes. Fails only if out
    /// of memory.
    pub fn add(&mut self, alloc: Global, row: &AcceptedRow) -> Result<bool, OutOfMemory>
        requires room { HasRoom self.old }
        requires left { row_bytes row.now ≤ self.old.left }
        requires scheme { IsSchemeUnder row.now.operation row.now.scheme }
        ensures { IfOk result (IsPut row.now self.old self.new) }
    {
        self.left = left_after(self.left, row);
        let Some(name) = text_alone(alloc, row, self.most)? else {
            return Ok(false);
        };
        if self.names.get(name.as_str()).is_some() {
            return Ok(true);
        }
        let Some(size) = add_row(alloc, &mut self.list, self.size, self.most, row)? else {
            return Ok(false);
        };
        self.size = size;
        self.names.insert(name.as_str(), size)?;
        Ok(true)
    }
}

/// Returns what is left of this many bytes after those of a signature.
fn left_after(left: usize, row: &AcceptedRow) -> usize
    requires { row_bytes row.now ≤ left }
    ensures { result + row_bytes row.now ≡ left }
{
    let left = left - row.scheme.as_slice().len();
    let left = left - row.key.as_slice().len();
    let left = left - row.message.as_slice().len();
    left - row.signature.as_slice().len()
}

/// Returns the document of a list of only this signature; `None` if it would have more than `most` bytes. Fails only if
/// out of memory.
fn text_alone(alloc: Global, row: &AcceptedRow, most: usize) -> Result<Option<Text>, OutOfMemory>
    requires least { 2 ≤ most }
    requires scheme { IsSchemeUnder row.now.operation row.now.scheme }
    ensures { IfOk result (IsDocumentOf most (row.now ∷ [])) }
{
    let mut list = Document::list(alloc);
    let Some(_) = add_row(alloc, &mut list, 0, most, row)? else {
        drop(list);
        return Ok(None);
    };
    let text = compact(alloc, list.view());
    drop(list);
    Ok(Some(text?))
}
