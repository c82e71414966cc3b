//! The first fault of a value, and of a text.
ghost use Rattle.std.specs.Prelude.{◌≡◌, IfOk};
ghost use Rattle.sig_json.specs.Document.{document_of};
ghost use Rattle.sig_json.specs.Tree.{tree};
ghost use Rattle.sig_table.specs.DocumentFault.{IsFaultIn, fault_in};
ghost use Rattle.sig_table.specs.Fault.{fault_of};
ghost use Rattle.sig_table.specs.First.{IsFaultOf};

use crate::fault::{DocumentFault, MemberFault, TableError};
use crate::table::MemberTable;
use sig_base::OutOfMemory;
use sig_json::{BorrowedDocument, DocumentError, Json, Scratch};
use std::alloc::Global;

/// Returns the first member of a value that breaks a table, in the order of the table, or `None` if the value keeps to
/// it. Fails only if out of memory.
pub fn first_fault<T: MemberTable>(
    alloc: Global,
    json: Json<'_, '_>,
) -> Result<Option<MemberFault>, OutOfMemory>
    ensures value { IfOk result (λ found. found ≡ fault_of T.table (tree json.entry)) }
    // The same in words.
    ensures first { IfOk result (IsFaultOf T.table (tree json.entry)) }
{
    match T::check(alloc, json) {
        Ok(()) => Ok(None),
        Err(TableError::Fault(fault)) => Ok(Some(fault)),
        Err(TableError::OutOfMemory) => Err(OutOfMemory),
    }
}

/// Returns what is wrong with a text that has to be a document of a table, or `None` if it is one: that it is not JSON,
/// or has a float, and then the first member that breaks the table. Fails only if out of memory.
#[tactic(auto, using(crate::proofs::TextFaults::in_words))]
pub fn document_fault<T: MemberTable>(
    alloc: Global,
    text: &[u8],
) -> Result<Option<DocumentFault>, OutOfMemory>
    ensures value { IfOk result (λ found. found ≡ fault_in T.table text.now) }
    // The same in words.
    ensures first { IfOk result (IsFaultIn T.table (document_of text.now)) }
{
    find::<T>(alloc, text)
}

#[tactic(auto, unfolding(crate::specs::DocumentFault::fault_in))]
fn find<T: MemberTable>(alloc: Global, text: &[u8]) -> Result<Option<DocumentFault>, OutOfMemory>
    ensures { IfOk result (λ found. found ≡ fault_in T.table text.now) }
{
    let mut scratch = Scratch::new(alloc);
    let document = match BorrowedDocument::read(alloc, text, &mut scratch) {
        Ok(document) => document,
        Err(DocumentError::NotJson) => return Ok(Some(DocumentFault::NotJson)),
        Err(DocumentError::Float) => return Ok(Some(DocumentFault::Float)),
        Err(DocumentError::OutOfMemory) => return Err(OutOfMemory),
    };
    let found = first_fault::<T>(alloc, document.view());
    drop(document);
    match found? {
        Some(fault) => Ok(Some(DocumentFault::Member(fault))),
        None => Ok(None),
    }
}
