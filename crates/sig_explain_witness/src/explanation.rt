//! The explanation of a run of a witness.
ghost use Rattle.std.specs.Prelude.{◌≡◌, IfOk};
ghost use Rattle.sig_explain_witness.specs.WitnessExplanation.{IsRequestTree, IsUpdatesTree, IsWitnessExplanation};
ghost use Rattle.sig_explain_witness.specs.WitnessExplanation.{updates_tree};
ghost use Rattle.sig_json.specs.Tree.{document_tree};
ghost use Rattle.sig_request.specs.ReadFrom.{IsRequestOf};
ghost use Rattle.sig_witness_command.specs.Request.{witness_request};
ghost use Rattle.sig_witness_command.specs.declared.request.WitnessRequest.{WitnessRequest as request_type};

use crate::refused::MOST_UNSIGNED;
use crate::start::{no_start_document, read_start};
use crate::walk::update_each;
use sig_base::OutOfMemory;
use sig_explain_log::request_explanation;
use sig_json::{Document, Object};
use sig_shown::with_count;
use sig_witness::Witness;
use sig_witness_command::request::WitnessRequest;
use sig_witness_fault::witness_request_fault;
use std::alloc::Global;

/// Explains what `witness` says of a request's text: what is wrong with it, if it is not a request, its state is not
/// one, or an origin cannot be added; else for each update in order the origin and the size of the new head, or the
/// first link that fails, with its cause and what it compares. docs/LINKS.md lists the members. Fails only if out of
/// memory.
pub fn witness_explanation(alloc: Global, text: &[u8]) -> Result<Document, OutOfMemory>
    ensures { IfOk result (λ document. IsWitnessExplanation text.now (document_tree document)) }
{
    let Some(request) = WitnessRequest::read(alloc, text)? else {
        return request_fault_document(alloc, text);
    };
    let document = request_document(alloc, &request);
    drop(request);
    document
}

/// What is wrong with a text that is not a request.
fn request_fault_document(alloc: Global, text: &[u8]) -> Result<Document, OutOfMemory>
    requires { (request : request_type) → ¬ IsRequestOf witness_request text.now request }
    ensures { IfOk result (λ document. IsWitnessExplanation text.now (document_tree document)) }
{
    let Some(fault) = witness_request_fault(alloc, text)? else {
        // A text with which nothing is wrong is a request.
        unreachable!()
    };
    let document = request_explanation(alloc, &fault);
    drop(fault);
    document
}

/// The explanation of a request.
fn request_document(alloc: Global, request: &WitnessRequest) -> Result<Document, OutOfMemory>
    ensures { IfOk result (λ document. IsRequestTree request.now (document_tree document)) }
{
    match read_start(alloc, request)? {
        Ok(mut witness) => {
            let document = updates_document(alloc, &mut witness, request);
            drop(witness);
            document
        }
        Err(why) => no_start_document(alloc, &why),
    }
}

/// The explanation of a request that starts from this witness.
fn updates_document(
    alloc: Global,
    witness: &mut Witness,
    request: &WitnessRequest,
) -> Result<Document, OutOfMemory>
    ensures { IfOk result (λ document. IsUpdatesTree request.now witness.old (document_tree document)) }
{
    let mut left = MOST_UNSIGNED;
    let texts = request.updates.as_slice();
    let list = update_each(alloc, witness, &mut left, texts, &request.accepted)?;
    counted(alloc, request, list)
}

/// How many updates there are, and the list of what is shown of each.
#[tactic(auto, unfolding(crate::specs::WitnessExplanation::updates_tree))]
fn counted(alloc: Global, request: &WitnessRequest, list: Document) -> Result<Document, OutOfMemory>
    ensures { IfOk result (λ document. document_tree document
        ≡ updates_tree request.now.updates (document_tree list)) }
{
    let object = Object::new(alloc);
    let object = with_count(object, alloc, "updateCount", request.updates.len() as u64)?;
    let object = object.with(alloc, "updates", list)?;
    Ok(object.into_document())
}
