//! What a client signed: the log's entry, and the bundle.

use sig_base::Text;
use sig_bundle::{
    Bundle, LogEntries, TransparencyLogEntry, VerificationMaterial, bundle_text, read_bundle,
};
use sig_cases::{Answer, Arguments};
use sig_json::JsonError;
use sig_rekor_models::LogEntry;
use sig_signing::{SigningArtifact, try_from_log_entry};
use std::alloc::Global;

/// `to_bundle DIGEST CERT SIGNATURE ENTRY`, the entry as Rekor's API returns it: the text of the bundle, and whether it
/// is read back as the bundle. The line is a `bad line` if the entry is not one or is not converted.
pub(crate) fn bundle(arguments: &mut Arguments<'_>, answer: &mut Answer) {
    let digest = arguments.bytes();
    let certificate = arguments.bytes();
    let signature = arguments.bytes();
    match entry(arguments) {
        Some(log_entry) => {
            let artifact = SigningArtifact::from_parts(digest, certificate, signature, log_entry);
            add_artifact(answer, arguments.alloc(), artifact);
        }
        None => arguments.refuse(),
    }
}

/// The next argument, an entry as Rekor's API returns it, as an entry of a bundle.
fn entry(arguments: &mut Arguments<'_>) -> Option<TransparencyLogEntry> {
    let alloc = arguments.alloc();
    match LogEntry::from_json_text(alloc, arguments.text().as_str()) {
        Ok(entry) => try_from_log_entry(alloc, &entry).ok(),
        Err(error) => {
            drop(error);
            None
        }
    }
}

/// `ok`, the text of the artifact's bundle, and whether it is read back as the bundle.
fn add_artifact(answer: &mut Answer, alloc: Global, artifact: SigningArtifact) {
    match artifact.to_bundle(alloc) {
        Ok(bundle) => {
            answer.ok();
            add_bundle(answer, alloc, &bundle);
            drop(bundle);
        }
        Err(_) => answer.out_of_memory(),
    }
}

/// Adds the text of a bundle, and whether it is read back as the bundle.
fn add_bundle(answer: &mut Answer, alloc: Global, bundle: &Bundle) {
    match bundle_text(alloc, bundle) {
        Ok(text) => {
            answer.value(&text.as_str());
            add_read_back(answer, alloc, &text, bundle);
        }
        Err(_) => answer.out_of_memory(),
    }
}

/// Adds whether the text is read as this bundle.
fn add_read_back(answer: &mut Answer, alloc: Global, text: &Text, bundle: &Bundle) {
    match read_bundle(alloc, text.as_str().as_bytes()) {
        Ok(read) => {
            answer.value(&(read == *bundle));
            drop(read);
        }
        Err(JsonError::OutOfMemory) => answer.out_of_memory(),
        Err(_) => answer.value(&false),
    }
}

/// `try_from_log_entry ENTRY`, the entry as Rekor's API returns it: the text of a bundle that has the converted entry
/// alone, and whether it is read back. The line is a bad one where the text is not an entry.
pub(crate) fn converted(arguments: &mut Arguments<'_>, answer: &mut Answer) {
    let alloc = arguments.alloc();
    match LogEntry::from_json_text(alloc, arguments.text().as_str()) {
        Ok(entry) => {
            add_converted(answer, alloc, &entry);
            drop(entry);
        }
        Err(error) => {
            drop(error);
            arguments.refuse();
        }
    }
}

/// `ok`, and the bundle of the converted entry; or the error.
fn add_converted(answer: &mut Answer, alloc: Global, entry: &LogEntry) {
    match try_from_log_entry(alloc, entry) {
        Ok(converted) => add_entry(answer, alloc, converted),
        Err(error) => answer.error(error),
    }
}

/// `ok`, and a bundle of only this entry.
fn add_entry(answer: &mut Answer, alloc: Global, entry: TransparencyLogEntry) {
    let mut tlog_entries = LogEntries::new(alloc);
    match tlog_entries.push(entry) {
        Ok(()) => {
            let bundle = of_entries(alloc, tlog_entries);
            answer.ok();
            add_bundle(answer, alloc, &bundle);
            drop(bundle);
        }
        Err(_) => {
            drop(tlog_entries);
            answer.out_of_memory();
        }
    }
}

/// The bundle of only these entries.
fn of_entries(alloc: Global, tlog_entries: LogEntries) -> Bundle {
    Bundle {
        media_type: Text::from(String::new(alloc)),
        verification_material: Some(VerificationMaterial {
            content: None,
            tlog_entries,
        }),
        content: None,
    }
}
