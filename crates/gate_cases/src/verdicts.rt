//! What a gate finds.
ghost use Rattle.std.specs.Prelude.{◌≡◌, length};
ghost use Rattle.sig_manifest.specs.Manifest.{manifest_view};
ghost use Rattle.sig_manifest.specs.Unknown.{AreNamed};

use sig_base::{OutOfMemory, TableChecker, sha256};
use sig_cases::{Answer, Arguments};
use sig_gate::{BundleVerdict, Verdict, Verdicts, all_admitted, gate, report};
use sig_manifest::{Manifest, read_manifest};
use sig_verify::LoggedEntry;
use std::alloc::Global;

/// `gate TEXT`: `ok`; for each artifact whether it is admitted, and how many bundles it has, and for each of these `verified`
/// and what is kept of its log entry, or `refused` and the link; whether all are admitted; and the report.
pub(crate) fn judge(arguments: &mut Arguments<'_>, answer: &mut Answer) {
    let alloc = arguments.alloc();
    match read_manifest(alloc, arguments.rest().as_bytes()) {
        Ok((manifest, accepted)) => {
            judged(alloc, &manifest, &accepted, answer);
            drop(manifest);
            drop(accepted);
        }
        Err(error) => answer.error(error),
    }
}

fn judged(alloc: Global, manifest: &Manifest, accepted: &TableChecker, answer: &mut Answer)
    requires { AreNamed (manifest_view manifest.now) }
{
    match gate(alloc, manifest, accepted) {
        Ok(verdicts) => {
            show(alloc, manifest, &verdicts, answer);
            drop(verdicts);
        }
        Err(OutOfMemory) => answer.out_of_memory(),
    }
}

fn show(alloc: Global, manifest: &Manifest, verdicts: &Verdicts, answer: &mut Answer)
    requires { length verdicts.now ≡ length manifest.now.artifacts }
{
    answer.ok();
    for verdict in verdicts.as_slice() {
        show_verdict(verdict, answer);
    }
    answer.value(&all_admitted(verdicts));
    match report(alloc, manifest, verdicts) {
        Ok(text) => {
            answer.debug(&text.as_str());
            drop(text);
        }
        Err(OutOfMemory) => answer.out_of_memory(),
    }
}

fn show_verdict(verdict: &Verdict, answer: &mut Answer) {
    answer.value(&verdict.admitted);
    answer.value(&verdict.bundles.len());
    for bundle in verdict.bundles.as_slice() {
        match bundle {
            BundleVerdict::Verified(entry) => show_entry(entry, answer),
            BundleVerdict::Refused(link) => {
                answer.value(&"refused");
                answer.value(&link.name());
            }
        }
    }
}

/// The SHA-256 of the log body; of the proof its index and tree size, the root hash, how many hashes it has, and the origin of its
/// checkpoint.
fn show_entry(entry: &LoggedEntry, answer: &mut Answer) {
    answer.value(&"verified");
    answer.hex(&sha256(entry.body.as_slice()));
    answer.value(&entry.proof.log_index);
    answer.value(&entry.proof.tree_size);
    answer.hex(&entry.proof.root_hash);
    answer.value(&entry.proof.hashes.len());
    if let Some(checkpoint) = &entry.proof.checkpoint {
        answer.hex(checkpoint.note.origin.as_str().as_bytes());
    }
}
