//! The links before the first that asks a checker.
ghost use Rattle.std.specs.Prelude.{◌≡◌};
ghost use Rattle.sig_verify.specs.OfflineErrors.{link_of, of_verification};
ghost use Rattle.sig_questions.specs.Front.{IsFrontTold, front_result, unread};

use crate::listing::NoQuestions;
use sig_base::TableChecker;
use sig_bundle::{ArtifactDigest, Bundle};
use sig_certificate::Certificate;
use sig_json::JsonError;
use sig_policy::{PolicyResult, VerificationPolicy};
use sig_verify::{Link, OfflineError, VerificationError, Verifier};
use std::alloc::Global;

/// A policy that holds of every certificate.
#[derive(Drop)]
struct AnyCertificate;

impl VerificationPolicy for AnyCertificate {
    ghost use Rattle.std.specs.Prelude.{true};
    ghost use Rattle.sig_policy.specs.Refusals.{Refusal, not_found};

    ghost holds = { λ _ _. true };

    ghost refusal = { λ _ _. not_found };

    fn verify(&self, _alloc: Global, _cert: &Certificate) -> PolicyResult {
        Ok(())
    }
}

/// Checks the links `material` to `issuance` of a bundle, which no checker is asked about: those before the first that
/// fails under a checker that accepts nothing. Fails with the first of them that fails, or with `OutOfMemory`.
pub(crate) fn check_front(
    alloc: Global,
    verifier: &Verifier,
    digest: &ArtifactDigest,
    bundle: &Bundle,
) -> Result<(), NoQuestions>
    ensures { IsFrontTold verifier.now digest.now bundle.now result }
{
    let nothing = TableChecker::new(alloc);
    match verifier.verify_digest_with(alloc, digest, bundle, &AnyCertificate, true, &nothing) {
        Err(error) => front_result(failed_link(error)),
        // The link `issuer` does not hold under a checker that accepts nothing.
        Ok(()) => unreachable!(),
    }
}

/// The link that a verifier's error is of; `None` if memory ran out.
fn failed_link(error: VerificationError) -> Option<Link>
    ensures { result ≡ link_of (of_verification error) }
{
    let error = offline_error(error);
    let link = error.link();
    drop(error);
    link
}

/// The error of the chain of trust that a verifier's error is. No artifact is read for a digest.
fn offline_error(error: VerificationError) -> OfflineError
    ensures { result ≡ of_verification error }
{
    match error {
        VerificationError::Bundle(kind) => OfflineError::Bundle(kind),
        VerificationError::Certificate(kind) => OfflineError::Certificate(kind),
        VerificationError::Signature(kind) => OfflineError::Signature(kind),
        VerificationError::Policy(error) => OfflineError::Policy(error),
        VerificationError::Input(_) | VerificationError::OutOfMemory => OfflineError::OutOfMemory,
    }
}

/// What the first link that fails under a checker that accepts nothing says of those before `issuer`; without one
/// memory ran out.
fn front_result(link: Option<Link>) -> Result<(), NoQuestions>
    ensures { result ≡ front_result link }
{
    match link {
        Some(Link::Issuer) => Ok(()),
        Some(link) => Err(NoQuestions::Link(link)),
        None => Err(NoQuestions::OutOfMemory),
    }
}

/// Why there are no questions, if the text of this link was not read.
pub(crate) fn unread(link: Link, error: JsonError) -> NoQuestions
    ensures { result ≡ unread link error }
{
    match error {
        JsonError::OutOfMemory => NoQuestions::OutOfMemory,
        _ => NoQuestions::Link(link),
    }
}
