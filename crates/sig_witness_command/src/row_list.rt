//! `RowList`: a list of signatures as it is made, each once.
ghost use Rattle.std.specs.Prelude.{◌≡◌, ◌<◌, ◌≤◌, IfOk, OnErr, codes, decimal};
ghost use Rattle.sig_base.specs.Base64.{base64_text};
ghost use Rattle.sig_json.specs.Tree.{document_tree};
ghost use Rattle.sig_witness_command.specs.Questions.{key_row};
ghost use Rattle.sig_witness_command.specs.RowList.{HasRoom, IsCoded, IsEmptyList, IsMarked, IsNumbered, IsPut, pair_name};

use sig_base::{ByText, Bytes, OutOfMemory, Text};
use sig_json::Document;
use sig_key::CosignVerificationKey;
use sig_reply::{add_row, note_row};
use std::alloc::Global;

/// A list of signatures over notes, which takes `size` bytes except for its closing bracket, of at most `most`. Each
/// note has a number, so that a signature is sought among those that are listed without its note's text.
#[derive(Drop)]
pub struct RowList {
    /// The list, with one object for each signature.
    pub list: Document,
    /// How many bytes it takes.
    pub size: usize,
    /// How many bytes it may take.
    pub most: usize,
    /// The number of each note's text.
    pub notes: ByText<usize>,
    /// Which signatures are listed: by the number of the note, and the signature in base64.
    pub pairs: ByText<usize>,
}

impl RowList {
    /// Returns the list without signatures. It takes no memory.
    pub fn new(alloc: Global, most: usize) -> RowList
        ensures { IsEmptyList most result }
    {
        RowList {
            list: Document::list(alloc),
            size: 0,
            most,
            notes: ByText::new(alloc),
            pairs: ByText::new(alloc),
        }
    }

    /// Returns the number of a note's text, which is this one if the note had none. Fails only if out of memory.
    pub fn number_of(&mut self, note: &str, number: usize) -> Result<usize, OutOfMemory>
        ensures { IfOk result (λ given. IsNumbered self.old note.now number given self.new) }
    {
        if let Some(given) = self.notes.get(note) {
            return Ok(*given);
        }
        self.notes.insert(note, number)?;
        Ok(number)
    }

    /// Adds a signature under this key over the note of this number, whose text this is, unless it is listed; `false` if
    /// the list would have more than `most` bytes. Fails only if out of memory.
    pub fn add(
        &mut self,
        alloc: Global,
        key: &CosignVerificationKey,
        note: &Text,
        number: usize,
        signature: &Bytes,
    ) -> Result<bool, OutOfMemory>
        requires { HasRoom self.old }
        ensures put { IfOk result (IsPut (key_row key.now note.now signature.now) number signature.now self.old self.new) }
        ensures coded { IfOk result (λ _. IsCoded signature.now) }
    {
        let code = Text::in_base64(alloc, signature.as_slice())?;
        let name = pair_name(alloc, number, &code)?;
        if self.pairs.get(name.as_str()).is_some() {
            return Ok(true);
        }
        let row = note_row(
            alloc,
            key.scheme(),
            key.spki(),
            note.as_str(),
            signature.as_slice(),
        )?;
        let Some(size) = add_row(alloc, &mut self.list, self.size, self.most, &row)? else {
            return Ok(false);
        };
        self.size = size;
        self.pairs.insert(name.as_str(), number)?;
        Ok(true)
    }
}

/// A number and a signature in base64 as one text.
fn pair_name(alloc: Global, number: usize, code: &Text) -> Result<Text, OutOfMemory>
    ensures { IfOk result (λ name. name ≡ pair_name number code.now) }
{
    Ok(Text::from(format!(in alloc; "{number} {}", code.as_str())?))
}
