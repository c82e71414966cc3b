//! What is wrong with bundles and trusted roots.

use sig_base::OutOfMemory;
use sig_cases::{Answer, Arguments};
use sig_document_fault::{bundle_fault, root_fault};
use sig_table::DocumentFault;

/// `bundle_fault TEXT`: `ok` if the text is a bundle, or what is wrong with it: for a member the cause and the path.
pub(crate) fn bundle(arguments: &mut Arguments<'_>, answer: &mut Answer) {
    let text = arguments.rest();
    told(answer, bundle_fault(arguments.alloc(), text.as_bytes()));
}

/// `root_fault TEXT`: the same of a trusted root.
pub(crate) fn root(arguments: &mut Arguments<'_>, answer: &mut Answer) {
    let text = arguments.rest();
    told(answer, root_fault(arguments.alloc(), text.as_bytes()));
}

fn told(answer: &mut Answer, found: Result<Option<DocumentFault>, OutOfMemory>) {
    match found {
        Ok(None) => answer.ok(),
        Ok(Some(DocumentFault::NotJson)) => answer.value(&"NotJson"),
        Ok(Some(DocumentFault::Float)) => answer.value(&"Float"),
        Ok(Some(DocumentFault::Member(fault))) => {
            answer.debug(&fault.cause);
            answer.value(&fault.path);
            drop(fault);
        }
        Err(OutOfMemory) => answer.out_of_memory(),
    }
}
