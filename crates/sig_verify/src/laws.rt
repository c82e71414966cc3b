//! What the definitions mean: the chain of trust, and what the result of each check says about its links. Each law
//! holds unless memory runs out, and the calls in it, if any, are laws.
ghost use Rattle.sig_verify.specs.EntryCauses.{EntryErrorsHaveTheirCause};
ghost use Rattle.sig_verify.specs.LinkLaws.{BundlesAreJudged, CheckedAreJudged, ContentsAreJudged};
ghost use Rattle.sig_verify.specs.LinkLaws.{EntriesAreJudged, EntriesAreKept, IssuersAreJudged, TimesAreJudged};
ghost use Rattle.sig_verify.specs.LinkLaws.{RootsAreJudged, VerdictsAreJudged};
ghost use Rattle.sig_verify.specs.LongerChains.{LongerChainsStayValid};
ghost use Rattle.sig_verify.specs.OfflineCauses.{OfflineErrorsHaveTheirCause};
ghost use Rattle.sig_verify.specs.OfflineLaws.{HasEntryOfBytes, OutcomesAreJudged};
ghost use Rattle.sig_verify.specs.TrustChain.{AllLinksAreTheTrustChain};

use crate::chain::only_entry_of;
use sig_base::laws::{are_optional_bytes, are_owned_bytes};
use sig_bundle::Bundle;
use sig_bundle::laws::{proof_faults, proofs};
use sig_certificate::laws::certificates;
use sig_checked_bundle::laws::{causes_of_refusals, passed_bundles};

/// Every link holds if and only if the inputs are valid and the chain of trust holds.
pub fn trust_chain()
    ensures { AllLinksAreTheTrustChain }
{}

/// If a trust anchor issued the certificate itself, the chain of trust holds whatever further certificates the bundle
/// has, and its issuer is that trust anchor; without further certificates there is no other issuer.
pub fn longer_chains()
    ensures { LongerChainsStayValid }
{}

/// What `verify_log_entry` returns is a value if and only if the links `log-key` to `inclusion` hold, and else the
/// error of the first that does not. The value is the entry's body with its proof.
pub fn entries()
    ensures links { EntriesAreJudged }
    ensures kept { EntriesAreKept }
{
    // Which members an inclusion proof has, and which others are rejected.
    proofs();
    proof_faults();
}

/// Each error of `verify_log_entry` comes if and only if it has its cause in the words of the entry: the links and
/// rules before it hold, and its own rule does not.
pub fn causes_of_entry_errors()
    ensures { EntryErrorsHaveTheirCause }
{
    // Which members an inclusion proof has, and which others are rejected.
    proofs();
    proof_faults();
}

/// A bundle's own checks pass if and only if the links `material` to `profile` hold, and else return the error of the
/// first that does not.
pub fn bundles()
    ensures { BundlesAreJudged }
{
    // Bytes are at most one certificate; what a bundle's own checks require, and the cause of each refusal.
    certificates();
    passed_bundles();
    causes_of_refusals();
}

/// The check of a certificate's key returns `Ok` if and only if the links `key`, `signature` and `subject` hold, and
/// that of the time if and only if the link `time` does. Else each returns the error of the first that does not.
pub fn contents()
    ensures signed { ContentsAreJudged }
    ensures timely { TimesAreJudged }
{}

/// The check of a certificate's issuer and SCT returns `Ok` if and only if the links `issuance`, `issuer` and `sct`
/// hold, and else the error of the first that does not.
pub fn issuers()
    ensures { IssuersAreJudged }
{}

/// A verifier's result for a bundle that passed its own checks is `Ok` if and only if the links `issuance` to `time`
/// hold, and else the error of the first that does not.
pub fn checked_bundles()
    ensures { CheckedAreJudged }
{}

/// A verifier's result for a bundle is `Ok` if and only if the links `material` to `time` hold, and else the error of
/// the first that does not.
pub fn verified_bundles()
    ensures { VerdictsAreJudged }
{
    // Bytes are at most one certificate; what a bundle's own checks require, and say of the links.
    certificates();
    passed_bundles();
    bundles();
}

/// A trusted root gives a verifier only if the links `fulcio`, `anchor` and `ctfe` hold, and an error is that of the
/// first that does not.
pub fn roots()
    ensures { RootsAreJudged }
{}

/// What `verify_offline` returns is a value if and only if every link holds, and else the error of the first that
/// does not, unless memory runs out. The value is the body of the bundle's log entry with its proof.
pub fn outcomes()
    ensures { OutcomesAreJudged }
{
    // Bytes are at most one certificate; what a bundle's own checks require, and say of the links; what the check of a
    // trusted root says of them; and the members of an inclusion proof.
    certificates();
    passed_bundles();
    bundles();
    roots();
    proofs();
    proof_faults();
}

/// Each error of `verify_offline` comes only with its cause: what it says beside its link, which is the first that does
/// not hold, is true of the inputs.
pub fn causes_of_errors()
    ensures { OfflineErrorsHaveTheirCause }
{
    // Bytes are at most one certificate; what a bundle's own checks require, the cause of each refusal, and what they
    // say of the links; what the check of a trusted root says of them; and the members of an inclusion proof.
    certificates();
    passed_bundles();
    causes_of_refusals();
    bundles();
    roots();
    proofs();
    proof_faults();
}

/// Body and log id of a bundle's only log entry are bytes. Its call does nothing.
pub fn is_entry_bytes(bundle: &Bundle)
    ensures { HasEntryOfBytes bundle.now }
{
    match only_entry_of(bundle) {
        Some(entry) => {
            // Both are bytes.
            are_owned_bytes(&entry.canonicalized_body);
            are_optional_bytes(&entry.log_id);
        }
        None => (),
    }
}
