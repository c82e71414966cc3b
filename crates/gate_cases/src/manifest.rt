//! Manifests that are read.

use sig_base::{Entries, Operation, TableChecker};
use sig_cases::{Answer, Arguments};
use sig_manifest::{Artifact, Manifest, Rule, Rules, read_manifest};

/// `manifest TEXT`: what the manifest has, in the order of the members: the time, names and texts of the trusted roots,
/// the names of the policies, the artifacts, and whether it accepts the signature `sig` over `message` under the ED25519 key
/// `key`.
pub(crate) fn read(arguments: &mut Arguments<'_>, answer: &mut Answer) {
    match read_manifest(arguments.alloc(), arguments.rest().as_bytes()) {
        Ok((manifest, accepted)) => {
            answer.ok();
            show(answer, &manifest, &accepted);
            drop(manifest);
            drop(accepted);
        }
        Err(error) => answer.error(error),
    }
}

fn show(answer: &mut Answer, manifest: &Manifest, accepted: &TableChecker) {
    answer.value(&manifest.now);
    answer.value(&manifest.roots.len());
    for (name, text) in manifest.roots.iter() {
        answer.hex(name.as_bytes());
        answer.hex(text.as_bytes());
    }
    answer.value(&manifest.policies.len());
    for (name, _) in manifest.policies.iter() {
        answer.hex(name.as_bytes());
    }
    answer.value(&manifest.artifacts.len());
    for artifact in manifest.artifacts.as_slice() {
        show_artifact(answer, artifact);
    }
    answer.value(&accepted.accepts(Operation::Message, b"ED25519", b"key", b"message", b"sig"));
}

fn show_artifact(answer: &mut Answer, artifact: &Artifact) {
    answer.value(&artifact.name.as_str());
    answer.value(&artifact.digest.algorithm());
    answer.hex(artifact.digest.as_bytes());
    answer.hex(artifact.root.as_str().as_bytes());
    answer.hex(artifact.policy.as_str().as_bytes());
    show_bundles(answer, &artifact.bundles);
    show_rule(answer, &artifact.rule);
}

fn show_bundles(answer: &mut Answer, bundles: &Entries) {
    answer.value(&bundles.len());
    for bundle in bundles.as_slice() {
        answer.hex(bundle.as_slice());
    }
}

#[cycle(rules)]
fn show_rule(answer: &mut Answer, rule: &Rule) {
    match rule {
        Rule::Least(least) => {
            answer.value(&"least");
            answer.value(least);
        }
        Rule::Origin(origin) => {
            answer.value(&"origin");
            answer.hex(origin.as_str().as_bytes());
        }
        Rule::Size(size) => {
            answer.value(&"size");
            answer.value(size);
        }
        Rule::All(rules) => {
            answer.value(&"all");
            show_rules(answer, rules);
        }
        Rule::Any(rules) => {
            answer.value(&"any");
            show_rules(answer, rules);
        }
        Rule::Not(inner) => {
            answer.value(&"not");
            show_rule(answer, inner);
        }
    }
}

#[cycle(rules)]
fn show_rules(answer: &mut Answer, rules: &Rules) {
    answer.value(&rules.len());
    for rule in rules.as_slice() {
        show_rule(answer, rule);
    }
}
