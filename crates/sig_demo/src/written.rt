//! The values of the request's document.
ghost use Rattle.std.specs.Prelude.{◌≡◌, ◌≤◌, IfOk, pos};
ghost use Rattle.sig_json.specs.Writing.{IsReadAs, bytes_tree, list_tree};
ghost use Rattle.sig_json.specs.Data.{number};
ghost use Rattle.sig_json.specs.Find.{of_integer};
ghost use Rattle.sig_json.specs.Kinds.{bytes_of, hash_of};
ghost use Rattle.sig_json.specs.Member.{list_each};
ghost use Rattle.sig_json.specs.Tree.{document_tree};
ghost use Rattle.sig_demo.specs.Request.{hash_tree};

use sig_base::{Bytes, OutOfMemory, Text};
use sig_json::Document;
use std::alloc::Global;

/// A small number.
pub(crate) fn natural_document(natural: u64) -> Document
    requires { natural ≤ 4096 }
    ensures { document_tree result ≡ number (of_integer (pos natural)) }
{
    Document::of_integer(natural as i64)
}

/// A list of byte strings. Fails only if out of memory.
pub(crate) fn entries_document(alloc: Global, entries: &[Bytes]) -> Result<Document, OutOfMemory>
    ensures tree { IfOk result (λ document. document_tree document ≡ list_tree bytes_tree entries.now) }
    ensures back { IfOk result (λ _. IsReadAs (list_each bytes_of) (list_tree bytes_tree entries.now) entries.now) }
{
    let mut list = Document::list(alloc);
    'entries: for entry in entries {
        list.push(bytes_document(alloc, entry)?)?;
    }
    Ok(list)
}

/// Bytes in base64. Fails only if out of memory.
#[tactic(auto, using(sig_json::proofs::WrittenValues::values), unfolding(sig_json::specs::Writing::bytes_tree))]
fn bytes_document(alloc: Global, bytes: &Bytes) -> Result<Document, OutOfMemory>
    ensures tree { IfOk result (λ document. document_tree document ≡ bytes_tree bytes.now) }
    ensures back { IfOk result (λ _. IsReadAs bytes_of (bytes_tree bytes.now) bytes.now) }
{
    let text = Text::in_base64(alloc, bytes.as_slice())?;
    Document::of_text(alloc, text.as_str())
}

/// A list of hashes. Fails only if out of memory.
pub(crate) fn hashes_document(alloc: Global, hashes: &[[u8; 32]]) -> Result<Document, OutOfMemory>
    ensures tree { IfOk result (λ document. document_tree document ≡ list_tree hash_tree hashes.now) }
    ensures back { IfOk result (λ _. IsReadAs (list_each hash_of) (list_tree hash_tree hashes.now) hashes.now) }
{
    let mut list = Document::list(alloc);
    'hashes: for hash in hashes {
        list.push(hash_document(alloc, hash)?)?;
    }
    Ok(list)
}

/// A hash as lower-case hexadecimal digits. Fails only if out of memory.
#[tactic(auto, using(crate::proofs::Values::values))]
pub(crate) fn hash_document(alloc: Global, hash: &[u8; 32]) -> Result<Document, OutOfMemory>
    ensures tree { IfOk result (λ document. document_tree document ≡ hash_tree hash.now) }
    ensures back { IfOk result (λ _. IsReadAs hash_of (hash_tree hash.now) hash.now) }
{
    let digits = hex::encode(alloc, hash.as_slice())?;
    Document::of_text(alloc, digits.as_str())
}
