//! The digests of a statement that an artifact can be compared with.
ghost use Rattle.std.specs.Prelude.{◌≡◌, ◌≢◌, ◌++◌, [], ◌∷◌, List};
ghost use Rattle.sig_base.specs.Answers.{Answers, ComesWhere};
ghost use Rattle.sig_dsse.specs.Collecting.{AddsDigests, listing};
ghost use Rattle.sig_dsse.specs.Faults.{IsCauseOf};
ghost use Rattle.sig_dsse.specs.NamedDigest.{AreTaken};
ghost use Rattle.sig_dsse.specs.declared.artifact_digest.ArtifactDigest.{ArtifactDigest as digest_type};
ghost use Rattle.sig_dsse.specs.declared.recognized.SubjectFault.{SubjectFault as fault_type};
ghost use Rattle.sig_dsse.specs.Recognized.{digests_or_fault, digests_of_maps, digests_of_each, map_digests};
ghost use Rattle.sig_dsse.specs.Recognized.{entry_digest};
ghost use Rattle.sig_dsse.specs.Seen.{seen};

use crate::artifact_digest::{ArtifactDigest, Digests};
use crate::statement::InTotoStatementV1;
use crate::subject_digests::SubjectDigests;
use hex::FromHex;
use sig_base::{OutOfMemory, TextMap};
use std::alloc::Global;
use thiserror::Error;

/// The greatest number of subjects of a statement that are read.
const MOST_SUBJECTS: usize = 1024;

/// The greatest number of digests of a subject that are read.
const MOST_DIGESTS: usize = 32;

/// The name of a digest that an artifact can be compared with.
#[derive(Clone, Copy, Debug, PartialEq, Eq)]
pub enum DigestName {
    /// `sha256`, of 32 bytes.
    Sha256,
    /// `sha512`, of 64 bytes.
    Sha512,
}

/// Why the digests of a statement cannot be taken.
#[derive(Clone, Copy, Debug, PartialEq, Eq, Error)]
pub enum SubjectFault {
    /// The number of subjects, which is more than 1024.
    #[error("TooManySubjects")]
    TooManySubjects(usize),
    /// The number of digests of a subject, which is more than 32.
    #[error("TooManyDigests")]
    TooManyDigests(usize),
    /// A digest of this name is not hexadecimal digits of as many bytes as the algorithm gives.
    #[error("Malformed")]
    Malformed(DigestName),
    /// No subject has a digest named `sha256` or `sha512`.
    #[error("NoneRecognized")]
    NoneRecognized,
    /// Out of memory.
    #[error("OutOfMemory")]
    OutOfMemory,
}

impl From<OutOfMemory> for SubjectFault {
    ghost use Rattle.std.specs.Prelude.{◌≡◌};
    ghost use Rattle.sig_dsse.specs.declared.recognized.SubjectFault.TheVariants.{OutOfMemory};

    ghost from_gives = { λ _ e. e ≡ OutOfMemory };

    fn from(_error: OutOfMemory) -> SubjectFault {
        SubjectFault::OutOfMemory
    }
}

/// The digests of a statement that are named exactly `sha256` or `sha512`, over all subjects in order and names in
/// byte order.
///
/// Fails with `TooManySubjects` where there are more than 1024 subjects. Then, subject by subject, with
/// `TooManyDigests` where it has more than 32 digests, and, name by name, with `Malformed` where a `sha256` is not
/// hexadecimal digits, in either case, of 32 bytes or a `sha512` of 64. Then with `NoneRecognized` where there is no
/// such digest.
pub fn recognized_digests(
    alloc: Global,
    statement: &InTotoStatementV1,
) -> Result<Digests, SubjectFault>
    ensures taken { (digests : List digest_type) → ComesWhere SubjectFault.OutOfMemory result (Ok digests)
        (AreTaken (seen statement.now) digests) }
    ensures refused { (fault : fault_type) → fault ≢ SubjectFault.OutOfMemory → ComesWhere SubjectFault.OutOfMemory
        result (Err fault) (IsCauseOf fault (seen statement.now)) }
    // The same in one equation.
    ensures answer { Answers SubjectFault.OutOfMemory (λ digests. digests) result
        (digests_or_fault (seen statement.now)) }
{
    recognize(alloc, statement)
}

/// The same in one equation.
#[tactic(auto, using(crate::proofs::CollectedDigests::statement_seen))]
fn recognize(alloc: Global, statement: &InTotoStatementV1) -> Result<Digests, SubjectFault>
    ensures { Answers SubjectFault.OutOfMemory (λ digests. digests) result (digests_or_fault (seen statement.now)) }
{
    digests_of_maps(alloc, statement.subject_digests())
}

/// The digests of subjects, by the rules of [`recognized_digests`].
#[tactic(auto, using(crate::proofs::CollectedDigests::recognized))]
pub(crate) fn digests_of_maps(
    alloc: Global,
    subjects: SubjectDigests<'_>,
) -> Result<Digests, SubjectFault>
    ensures { Answers SubjectFault.OutOfMemory (λ digests. digests) result (digests_of_maps subjects.entry) }
{
    let count = subjects.len();
    if count > MOST_SUBJECTS {
        return Err(SubjectFault::TooManySubjects(count));
    }
    match digests_of_subjects(alloc, subjects) {
        Ok(digests) if digests.len() == 0 => Err(SubjectFault::NoneRecognized),
        answer => answer,
    }
}

/// The digests of each map one after another.
#[tactic(auto, using(crate::proofs::CollectedDigests::collected))]
fn digests_of_subjects(alloc: Global, subjects: SubjectDigests<'_>) -> Result<Digests, SubjectFault>
    ensures { Answers SubjectFault.OutOfMemory (λ digests. digests) result
        (digests_of_each map_digests subjects.entry) }
{
    let mut digests = Digests::new(alloc);
    'subjects: for digest in subjects {
        push_digests(digest, &mut digests)?;
    }
    Ok(digests)
}

/// Adds the digests of a subject.
#[tactic(auto, unfolding(crate::specs::Recognized::map_digests))]
fn push_digests(digest: &TextMap, digests: &mut Digests) -> Result<(), SubjectFault>
    ensures { AddsDigests digests.old digests.new result (map_digests digest.now) }
{
    let count = digest.len();
    if count > MOST_DIGESTS {
        return Err(SubjectFault::TooManyDigests(count));
    }
    push_entries(digest, digests)
}

#[tactic(auto, using(crate::proofs::CollectedDigests::collected))]
fn push_entries(digest: &TextMap, digests: &mut Digests) -> Result<(), SubjectFault>
    ensures { AddsDigests digests.old digests.new result (digests_of_each entry_digest digest.now) }
{
    'entries: for (name, text) in digest.iter() {
        push_entry(name, text, digests)?;
    }
    Ok(())
}

fn push_entry(name: &str, text: &str, digests: &mut Digests) -> Result<(), SubjectFault>
    ensures { AddsDigests digests.old digests.new result (entry_digest (name.now, text.now)) }
{
    if let Some(digest) = read_digest(name, text)? {
        digests.push(digest)?;
    }
    Ok(())
}

/// Returns the digest of an entry; `None` under a name that is not known.
#[tactic(auto, unfolding(crate::specs::Recognized::entry_digest))]
fn read_digest(name: &str, text: &str) -> Result<Option<ArtifactDigest>, SubjectFault>
    ensures { listing result ≡ entry_digest (name.now, text.now) }
{
    match name {
        "sha256" => match <[u8; 32] as FromHex>::from_hex(text) {
            Ok(bytes) => Ok(Some(ArtifactDigest::Sha256(bytes))),
            Err(_) => Err(SubjectFault::Malformed(DigestName::Sha256)),
        },
        "sha512" => match <[u8; 64] as FromHex>::from_hex(text) {
            Ok(bytes) => Ok(Some(ArtifactDigest::Sha512(bytes))),
            Err(_) => Err(SubjectFault::Malformed(DigestName::Sha512)),
        },
        _ => Ok(None),
    }
}
