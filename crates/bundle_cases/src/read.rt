//! Bundles as texts.

use sig_base::Text;
use sig_bundle::{
    Bundle, ProofFields, TransparencyLogEntry, bundle_text, promise_text, read_bundle,
};
use sig_cases::{Answer, Arguments};
use std::alloc::Global;
use std::fmt::{Debug, Display};

/// `read_bundle TEXT`: the text that is written for the bundle.
pub(crate) fn written(arguments: &mut Arguments<'_>, answer: &mut Answer) {
    match read_bundle(arguments.alloc(), arguments.rest().as_bytes()) {
        Ok(bundle) => {
            text(answer, bundle_text(arguments.alloc(), &bundle));
            drop(bundle);
        }
        Err(error) => answer.error(error),
    }
}

/// The line for a text that is made.
pub(crate) fn text<E: Debug + Display + Drop>(answer: &mut Answer, made: Result<Text, E>) {
    match made {
        Ok(text) => {
            answer.ok();
            answer.value(&text.as_str());
        }
        Err(error) => answer.error(error),
    }
}

/// The members of the inclusion proof of the first log entry.
pub(crate) fn proof_fields(bundle: &Bundle) -> Option<&ProofFields> {
    entry(bundle)?.inclusion_proof.as_ref()
}

/// The first log entry of a bundle.
pub(crate) fn entry(bundle: &Bundle) -> Option<&TransparencyLogEntry> {
    bundle.verification_material.as_ref()?.tlog_entries.get(0)
}

/// `copied_entry TEXT`: whether a copy of the first log entry is equal to it.
pub(crate) fn copied(arguments: &mut Arguments<'_>, answer: &mut Answer) {
    let bundle = bundle(arguments.rest(), arguments, answer);
    match entry(&bundle) {
        Some(entry) => {
            answer.ok();
            add_copied(answer, arguments.alloc(), entry);
        }
        None => arguments.refuse(),
    }
    drop(bundle);
}

/// The bundle that a text is. If it is not one, an empty bundle, and the line is a `bad line`.
pub(crate) fn bundle(text: &str, arguments: &mut Arguments<'_>, answer: &mut Answer) -> Bundle {
    match read_bundle(arguments.alloc(), text.as_bytes()) {
        Ok(bundle) => bundle,
        Err(error) => {
            answer.error(error);
            arguments.refuse();
            no_bundle(arguments.alloc())
        }
    }
}

fn no_bundle(alloc: Global) -> Bundle {
    Bundle {
        media_type: Text::from(String::new(alloc)),
        verification_material: None,
        content: None,
    }
}

/// Adds whether a copy of a log entry is equal to it.
pub(crate) fn add_copied(answer: &mut Answer, alloc: Global, entry: &TransparencyLogEntry) {
    match entry.copy(alloc) {
        Ok(copied) => {
            answer.value(&(copied == *entry));
            drop(copied);
        }
        Err(_) => answer.out_of_memory(),
    }
}

/// `promise_text TEXT`: the text that the log signed to promise that it includes the first log entry. The line is a
/// bad one where the entry has no log id.
pub(crate) fn promise(arguments: &mut Arguments<'_>, answer: &mut Answer) {
    let bundle = bundle(arguments.rest(), arguments, answer);
    match entry(&bundle) {
        Some(entry) if entry.log_id.is_some() => {
            text(answer, promise_text(arguments.alloc(), entry));
        }
        _ => arguments.refuse(),
    }
    drop(bundle);
}
