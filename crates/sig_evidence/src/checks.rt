//! What a bundle has of the links `time` and `subject`.
ghost use Rattle.std.specs.Prelude.{◌≡◌, IfOk};
ghost use Rattle.sig_json.specs.Writing.{members, members_into};
ghost use Rattle.sig_evidence.specs.Checks.{content_rows, digests_rows, subject_rows, times_rows, validity_rows};

use sig_base::OutOfMemory;
use sig_bundle::ArtifactDigest;
use sig_certificate::Certificate;
use sig_checked_bundle::{CheckedBundle, CheckedContent};
use sig_json::Object;
use sig_shown::{ShownDigest, first, with_count, with_digest, with_list, with_time};
use std::alloc::Global;

/// The greatest number of digests of a statement that are shown.
pub const MOST_DIGESTS: usize = 256;

/// The object with the validity of a certificate: `notBefore` and `notAfter`, the first and the last second of it.
/// Fails only if out of memory.
pub fn with_validity(
    object: Object,
    alloc: Global,
    certificate: &Certificate,
) -> Result<Object, OutOfMemory>
    ensures { IfOk result (λ made. members made
        ≡ members_into (members object) (validity_rows certificate.now)) }
{
    let not_before = certificate.not_before();
    let object = with_time(object, alloc, "notBefore", &not_before)?;
    let not_after = certificate.not_after();
    with_time(object, alloc, "notAfter", &not_after)
}

/// The object with what the link `time` compares: `integratedTime`, when the log took the entry, and the validity of
/// the certificate. Fails only if out of memory.
pub fn with_times(
    object: Object,
    alloc: Global,
    bundle: &CheckedBundle,
) -> Result<Object, OutOfMemory>
    ensures { IfOk result (λ made. members made ≡ members_into (members object) (times_rows bundle.now)) }
{
    let entry = bundle.entry();
    let object = with_time(object, alloc, "integratedTime", &entry.integrated_time)?;
    with_validity(object, alloc, bundle.certificate())
}

/// The object with what the link `subject` compares: `digest`, that of the artifact, and for a statement
/// `subjectDigests`, the first [`MOST_DIGESTS`] SHA-256 and SHA-512 digests of its subjects in order, and
/// `subjectDigestCount`, how many there are. Fails only if out of memory.
pub fn with_subjects(
    object: Object,
    alloc: Global,
    bundle: &CheckedBundle,
    digest: &ArtifactDigest,
) -> Result<Object, OutOfMemory>
    ensures { IfOk result (λ made. members made
        ≡ members_into (members object) (subject_rows bundle.now digest.now)) }
{
    let object = with_digest(object, alloc, "digest", digest)?;
    with_content(object, alloc, bundle.content())
}

/// The object with the digests that a statement's subjects have.
fn with_content(
    object: Object,
    alloc: Global,
    content: &CheckedContent,
) -> Result<Object, OutOfMemory>
    ensures { IfOk result (λ made. members made ≡ members_into (members object) (content_rows content.now)) }
{
    match content {
        CheckedContent::MessageSignature => Ok(object),
        CheckedContent::Dsse {
            subject_digests,
            ..
        } => with_digests(object, alloc, subject_digests.as_slice()),
    }
}

/// The object with the first of these digests, and how many there are.
fn with_digests(
    object: Object,
    alloc: Global,
    digests: &[ArtifactDigest],
) -> Result<Object, OutOfMemory>
    ensures { IfOk result (λ made. members made ≡ members_into (members object) (digests_rows digests.now)) }
{
    let shown = first(digests, MOST_DIGESTS);
    let object = with_list::<ShownDigest>(object, alloc, "subjectDigests", shown)?;
    with_count(object, alloc, "subjectDigestCount", digests.len() as u64)
}
