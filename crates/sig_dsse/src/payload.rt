//! The digests of the statement that a payload is, read without the rest of it.
ghost use Rattle.std.specs.Prelude.{List};
ghost use Rattle.sig_base.specs.Answers.{Answers, ComesWhere};
ghost use Rattle.sig_json.specs.Record.{record_in};
ghost use Rattle.sig_dsse.specs.DigestsAlone.{digest_maps_in, digest_maps_of};
ghost use Rattle.sig_dsse.specs.Faults.{ArePayloadDigests, IsPayloadCauseOf};
ghost use Rattle.sig_dsse.specs.Payload.{digests_of_payload};
ghost use Rattle.sig_dsse.specs.StatementText.{IsNoStatement};
ghost use Rattle.sig_dsse.specs.declared.artifact_digest.ArtifactDigest.{ArtifactDigest as digest_type};
ghost use Rattle.sig_dsse.specs.declared.recognized.SubjectFault.{SubjectFault as fault_type};

use crate::artifact_digest::Digests;
use crate::digest_reader::DigestMapsReader;
use crate::recognized::{SubjectFault, digests_of_maps};
use crate::subject_digests::{Left, SubjectDigests};
use sig_base::{OwnedList, TextMap};
use sig_json::{JsonError, read_record_with};
use std::alloc::Global;
use thiserror::Error;

/// The names of the members that the digests are read of. No tree is made of the predicate.
const MEMBERS: [&str; 3] = ["_type", "subject", "predicateType"];

/// Why the digests of a payload's statement cannot be taken.
#[derive(Clone, Copy, Debug, PartialEq, Eq, Error)]
pub enum PayloadFault {
    /// The payload is not a statement.
    #[error("NoStatement")]
    NoStatement,
    /// Its subjects have this fault, which is never out of memory.
    #[error("Subjects")]
    Subjects(SubjectFault),
    /// Out of memory.
    #[error("OutOfMemory")]
    OutOfMemory,
}

impl From<SubjectFault> for PayloadFault {
    ghost use Rattle.std.specs.Prelude.{◌≡◌};
    ghost use Rattle.sig_dsse.specs.Payload.{payload_fault};

    ghost from_gives = { λ fault e. e ≡ payload_fault fault };

    fn from(fault: SubjectFault) -> PayloadFault {
        match fault {
            SubjectFault::OutOfMemory => PayloadFault::OutOfMemory,
            fault => PayloadFault::Subjects(fault),
        }
    }
}

/// The digests of the statement that a payload is, as [`recognized_digests`](crate::recognized_digests) takes them.
/// Only the digests of the statement's subjects are copied.
///
/// Fails with `NoStatement` if and only if [`InTotoStatementV1::from_json`](crate::InTotoStatementV1::from_json) fails
/// on the payload, then with `Subjects` and the fault that `recognized_digests` has.
pub fn payload_digests(alloc: Global, payload: &[u8]) -> Result<Digests, PayloadFault>
    ensures taken { (digests : List digest_type) → ComesWhere PayloadFault.OutOfMemory result (Ok digests)
        (ArePayloadDigests payload.now digests) }
    ensures no_statement { ComesWhere PayloadFault.OutOfMemory result (Err PayloadFault.NoStatement)
        (IsNoStatement payload.now) }
    ensures refused { (fault : fault_type) → ComesWhere PayloadFault.OutOfMemory result
        (Err (PayloadFault.Subjects fault)) (IsPayloadCauseOf fault payload.now) }
    // The same in one equation.
    ensures answer { Answers PayloadFault.OutOfMemory (λ digests. digests) result (digests_of_payload payload.now) }
{
    take(alloc, payload)
}

/// The same in one equation.
#[tactic(auto, using(crate::proofs::DigestsAlone::of_payload))]
fn take(alloc: Global, payload: &[u8]) -> Result<Digests, PayloadFault>
    ensures { Answers PayloadFault.OutOfMemory (λ digests. digests) result (digests_of_payload payload.now) }
{
    let maps = read_maps(alloc, payload)?;
    let subjects = SubjectDigests {
        left: Left::Maps(maps.as_slice()),
    };
    Ok(digests_of_maps(alloc, subjects)?)
}

/// The digests of each subject of the statement that a payload is. Fails with `NoStatement` where it is not one.
#[tactic(auto, using(crate::proofs::DigestsAlone::of_record))]
fn read_maps(alloc: Global, payload: &[u8]) -> Result<OwnedList<TextMap>, PayloadFault>
    ensures { Answers PayloadFault.OutOfMemory (λ maps. maps) result (digest_maps_of payload.now) }
{
    match read_digest_record(alloc, payload) {
        Ok(maps) => Ok(maps),
        Err(JsonError::NotJson | JsonError::Float | JsonError::Member) => Err(
            PayloadFault::NoStatement,
        ),
        Err(JsonError::OutOfMemory) => Err(PayloadFault::OutOfMemory),
    }
}

/// The same by the error of a record, as if the whole payload were read: `MEMBERS` has every name except `predicate`,
/// of which nothing is required.
fn read_digest_record(alloc: Global, payload: &[u8]) -> Result<OwnedList<TextMap>, JsonError>
    ensures { Answers JsonError.OutOfMemory (λ maps. maps) result (record_in digest_maps_in payload.now) }
{
    read_record_with::<DigestMapsReader>(alloc, payload, &MEMBERS)
}
