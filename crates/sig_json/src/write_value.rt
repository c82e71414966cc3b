//! `ElementWriter`: writers of one kind of value, and the one writer of lists over them.
ghost use Rattle.std.specs.Prelude.{◌≡◌, IfOk, Option};
ghost use Rattle.serde_json.specs.Data.{Data};
ghost use Rattle.sig_json.specs.Writing.{IsReadAs, bytes_tree, integer_tree, list_tree};
ghost use Rattle.sig_json.specs.Kinds.{bytes_of, i64_of};
ghost use Rattle.sig_json.specs.Member.{list_each};
ghost use Rattle.sig_json.specs.Tree.{document_tree};

use crate::document::Document;
use sig_base::{Bytes, OutOfMemory, Text};
use std::alloc::Global;

/// A writer of one kind of value.
pub trait ElementWriter {
    /// What is written.
    type Item;

    // The tree that is written of a value.
    ghost written: { Self.Item → Data };

    // What a reader takes a tree for.
    ghost meaning: { Data → Option Self.Item };

    /// Writes a value, which its reader reads back. Fails only if out of memory.
    fn write(alloc: Global, item: &Self::Item) -> Result<Document, OutOfMemory>
        ensures tree { IfOk result (λ document. document_tree document ≡ written item.now) }
        ensures back { IfOk result (λ _. IsReadAs meaning (written item.now) item.now) };
}

/// Writes a list. Fails only if out of memory.
#[tactic(auto, using(crate::proofs::WrittenLists::lists))]
pub(crate) fn write_list<T: ElementWriter>(
    alloc: Global,
    items: &[T::Item],
) -> Result<Document, OutOfMemory>
    ensures tree { IfOk result (λ document. document_tree document
        ≡ list_tree T.written items.now) }
    ensures back { IfOk result (λ _. IsReadAs (list_each T.meaning)
        (list_tree T.written items.now) items.now) }
{
    let mut list = Document::list(alloc);
    for item in items {
        list.push(T::write(alloc, item)?)?;
    }
    Ok(list)
}

/// Writes an integer, as a text. The integer is passed by reference, so that the clauses name it as the field that
/// it is.
#[tactic(auto, using(crate::proofs::WrittenValues::values), unfolding(crate::specs::Writing::integer_tree))]
pub(crate) fn write_integer(alloc: Global, integer: &i64) -> Result<Document, OutOfMemory>
    ensures tree { IfOk result (λ document. document_tree document ≡ integer_tree integer.now) }
    ensures back { IfOk result (λ _. IsReadAs i64_of (integer_tree integer.now) integer.now) }
{
    let integer = *integer;
    let text = format!(in alloc; "{integer}")?;
    Document::of_text(alloc, text.as_str())
}

/// Writes bytes in base64.
pub enum BytesWriter {}

impl ElementWriter for BytesWriter {
    type Item = Bytes;

    ghost written = { bytes_tree };

    ghost meaning = { bytes_of };

    fn write(alloc: Global, item: &Bytes) -> Result<Document, OutOfMemory> {
        write_bytes(alloc, item.as_slice())
    }
}

/// Writes bytes in base64.
#[tactic(auto, using(crate::proofs::WrittenValues::values), unfolding(crate::specs::Writing::bytes_tree))]
pub(crate) fn write_bytes(alloc: Global, bytes: &[u8]) -> Result<Document, OutOfMemory>
    ensures tree { IfOk result (λ document. document_tree document ≡ bytes_tree bytes.now) }
    ensures back { IfOk result (λ _. IsReadAs bytes_of (bytes_tree bytes.now) bytes.now) }
{
    let text = Text::in_base64(alloc, bytes)?;
    Document::of_text(alloc, text.as_str())
}
