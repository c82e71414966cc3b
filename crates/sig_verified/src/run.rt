//! What was verified, as an object.
ghost use Rattle.std.specs.Prelude.{◌≡◌, IfOk};
ghost use Rattle.sig_json.specs.Writing.{members, members_into};
ghost use Rattle.sig_json.specs.Data.{no_members, put};
ghost use Rattle.sig_json.specs.Tree.{document_tree};
ghost use Rattle.sig_verified.specs.Verified.{issuer_tree, verified_rows};

use crate::certificate::with_certificate;
use crate::entry::{with_entry, with_sct_of};
use crate::envelope::with_envelope;
use sig_base::OutOfMemory;
use sig_bundle::{ArtifactDigest, Bundle};
use sig_checked_bundle::CheckedBundle;
use sig_explanation::with_policy_rules;
use sig_json::{Document, Object};
use sig_policy::RequestPolicy;
use sig_rekor::InclusionProof;
use sig_shown::{with_count, with_digest};
use sig_x509::Issuer;
use std::alloc::Global;

/// What was verified.
#[derive(Clone, Copy)]
pub struct VerifiedRun<'a> {
    /// The bundle as it was read.
    pub bundle: &'a Bundle,
    /// The same as it was checked.
    pub checked: &'a CheckedBundle,
    /// The issuer of its certificate.
    pub issuer: Issuer,
    /// The proof of its log entry.
    pub proof: &'a InclusionProof,
    /// The digest of the artifact.
    pub digest: &'a ArtifactDigest,
    /// The policy that holds of its certificate.
    pub policy: &'a RequestPolicy,
}

/// The object of what was verified. Its members are
///
/// - `certificate`: its `names`, `serialNumber`, `sha256`, `notBefore` and `notAfter`, and what Fulcio's extensions
///   say;
/// - `issuedBy`: `anchor` or `further`, the index of the trust anchor, or of the further certificate of the bundle,
///   that issued it;
/// - `sct`: the `logId`, the `timestamp` and the `time` of its SCT;
/// - `tlogEntry`: the `logId`, the `logIndex` and the `integratedTime` of the log's entry, and its `inclusionProof`;
/// - `digest`: that of the artifact;
/// - `envelope`, unless the signature is over the artifact: the `payloadType`, the `payloadSha256`, and of the
///   statement the `predicateType`, the `subjects` and the `subjectCount`;
/// - `policy`: which of its rules hold.
///
/// Fails only if out of memory.
pub fn verified(alloc: Global, run: &VerifiedRun<'_>) -> Result<Object, OutOfMemory>
    ensures { IfOk result (λ made. members made ≡ members_into no_members (verified_rows run.now)) }
{
    let certificate = run.checked.certificate();
    let object = with_certificate(Object::new(alloc), alloc, "certificate", certificate)?;
    let object = with_issuer(object, alloc, "issuedBy", run.issuer)?;
    let object = with_sct_of(object, alloc, "sct", certificate)?;
    let object = with_entry(object, alloc, "tlogEntry", run.checked.entry(), run.proof)?;
    let object = with_digest(object, alloc, "digest", run.digest)?;
    let object = with_envelope(object, alloc, "envelope", &run.bundle.content)?;
    with_policy_rules(object, alloc, "policy", run.policy, certificate)
}

/// The object with the issuer of a certificate as a member.
fn with_issuer(
    object: Object,
    alloc: Global,
    name: &str,
    issuer: Issuer,
) -> Result<Object, OutOfMemory>
    ensures { IfOk result (λ made. members made ≡ put name.now (issuer_tree issuer) (members object)) }
{
    let value = issuer_document(alloc, issuer)?;
    object.with(alloc, name, value)
}

/// Returns the issuer of a certificate as an object.
#[tactic(auto, unfolding(crate::specs::Verified::issuer_tree))]
fn issuer_document(alloc: Global, issuer: Issuer) -> Result<Document, OutOfMemory>
    ensures { IfOk result (λ document. document_tree document ≡ issuer_tree issuer) }
{
    let object = match issuer {
        Issuer::Anchor(place) => with_count(Object::new(alloc), alloc, "anchor", place as u64)?,
        Issuer::Intermediate(place) => {
            with_count(Object::new(alloc), alloc, "further", place as u64)?
        }
    };
    Ok(object.into_document())
}
