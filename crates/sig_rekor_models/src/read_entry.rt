//! Readers of log entries.
ghost use Rattle.std.specs.Prelude.{Option};
ghost use Rattle.sig_base.specs.Answers.{Answers};
ghost use Rattle.sig_base.specs.declared.error.SigstoreError.TheVariants.{OutOfMemory as Memory};
ghost use Rattle.sig_json.specs.Data.{Data};
ghost use Rattle.sig_json.specs.OrMember.{or_member};
ghost use Rattle.sig_json.specs.SeenAs.{value_by};
ghost use Rattle.sig_json.specs.Tree.{tree};
ghost use Rattle.sig_rekor_models.specs.LogEntry.{attestation_of, beside_of, entry_members_of, log_entry_of};
ghost use Rattle.sig_rekor_models.specs.LogEntry.{entry_or_error, logged_of};
ghost use Rattle.sig_rekor_models.specs.LogEntry.{placed_of, rekor_proof_of, seen_entry, verification_of};

use crate::log_entry::{Attestation, LogEntry, Verification};
use crate::read_body::CodedBodyReader;
use sig_base::{Entries, SigstoreError, Text};
use sig_json::{
    ElementReader, I64NumberReader, Json, JsonError, MemberError, TextBytesReader, TextReader,
    U64NumberReader, optional, read_record, required, required_list, required_text,
};
use sig_rekor::RekorInclusionProof;
use std::alloc::Global;

/// Reads inclusion proofs.
enum RekorProofReader {}

impl ElementReader for RekorProofReader {
    type Item = RekorInclusionProof;

    ghost meaning = { rekor_proof_of };

    #[tactic(auto, unfolding(crate::specs::LogEntry::rekor_proof_of))]
    fn read(alloc: Global, json: Json<'_, '_>) -> Result<RekorInclusionProof, MemberError> {
        Ok(RekorInclusionProof {
            hashes: Entries::of(
                alloc,
                required_list::<TextBytesReader>(alloc, json, "hashes")?,
            ),
            log_index: required::<I64NumberReader>(alloc, json, "logIndex")?,
            root_hash: required_text(alloc, json, "rootHash")?,
            tree_size: required::<U64NumberReader>(alloc, json, "treeSize")?,
            checkpoint: required_text(alloc, json, "checkpoint")?,
        })
    }
}

/// Reads what a log proves and promises.
enum VerificationReader {}

impl ElementReader for VerificationReader {
    type Item = Verification;

    ghost meaning = { verification_of };

    #[tactic(auto, unfolding(crate::specs::LogEntry::verification_of))]
    fn read(alloc: Global, json: Json<'_, '_>) -> Result<Verification, MemberError> {
        Ok(Verification {
            inclusion_proof: optional::<RekorProofReader>(alloc, json, "inclusionProof")?,
            signed_entry_timestamp: required_text(alloc, json, "signedEntryTimestamp")?,
        })
    }
}

/// Reads what is kept beside a log.
enum AttestationReader {}

impl ElementReader for AttestationReader {
    type Item = Attestation;

    ghost meaning = { attestation_of };

    #[tactic(auto, unfolding(crate::specs::LogEntry::attestation_of))]
    fn read(alloc: Global, json: Json<'_, '_>) -> Result<Attestation, MemberError> {
        Ok(Attestation {
            dummy: optional::<TextReader>(alloc, json, "dummy")?,
        })
    }
}

/// When an entry was logged, and by which log.
#[derive(Drop)]
struct Logged {
    integrated_time: i64,
    log_i_d: Text,
}

/// Reads when an entry was logged, and by which log.
enum LoggedReader {}

impl ElementReader for LoggedReader {
    type Item = Logged;

    ghost meaning = { logged_of };

    #[tactic(auto, unfolding(crate::specs::LogEntry::logged_of))]
    fn read(alloc: Global, json: Json<'_, '_>) -> Result<Logged, MemberError> {
        Ok(Logged {
            integrated_time: required::<I64NumberReader>(alloc, json, "integratedTime")?,
            log_i_d: required_text(alloc, json, "logID")?,
        })
    }
}

/// Where an entry is in the log, and what the log proves and promises of it.
#[derive(Drop)]
struct Placed {
    log_index: i64,
    verification: Verification,
}

/// Reads where an entry is in the log, and what the log proves and promises of it.
enum PlacedReader {}

impl ElementReader for PlacedReader {
    type Item = Placed;

    ghost meaning = { placed_of };

    #[tactic(auto, unfolding(crate::specs::LogEntry::placed_of))]
    fn read(alloc: Global, json: Json<'_, '_>) -> Result<Placed, MemberError> {
        Ok(Placed {
            log_index: required::<I64NumberReader>(alloc, json, "logIndex")?,
            verification: required::<VerificationReader>(alloc, json, "verification")?,
        })
    }
}

/// What Rekor returns for an entry beside the log.
#[derive(Drop)]
struct Beside {
    uuid: Option<Text>,
    attestation: Option<Attestation>,
}

/// Reads what Rekor returns for an entry beside the log.
enum BesideReader {}

impl ElementReader for BesideReader {
    type Item = Beside;

    ghost meaning = { beside_of };

    #[tactic(auto, unfolding(crate::specs::LogEntry::beside_of))]
    fn read(alloc: Global, json: Json<'_, '_>) -> Result<Beside, MemberError> {
        Ok(Beside {
            uuid: optional::<TextReader>(alloc, json, "uuid")?,
            attestation: optional::<AttestationReader>(alloc, json, "attestation")?,
        })
    }
}

/// The names of the members that an entry may have.
const MEMBERS: [&str; 7] = [
    "uuid",
    "attestation",
    "body",
    "integratedTime",
    "logID",
    "logIndex",
    "verification",
];

pub(crate) enum LogEntryReader {}

impl ElementReader for LogEntryReader {
    type Item = LogEntry;

    ghost seen_as = { value_by seen_entry };

    ghost meaning = { log_entry_of };

    #[tactic(auto, unfolding(crate::specs::LogEntry::log_entry_of))]
    fn read(alloc: Global, json: Json<'_, '_>) -> Result<LogEntry, MemberError> {
        if !json.has_only(&MEMBERS) {
            return Err(MemberError::Member);
        }
        read_members(alloc, json)
    }
}

/// The entry of these members.
#[tactic(auto, unfolding(crate::specs::LogEntry::entry_members_of))]
fn read_members(alloc: Global, json: Json<'_, '_>) -> Result<LogEntry, MemberError>
    ensures { Answers MemberError.OutOfMemory seen_entry result (or_member (entry_members_of (tree json.entry))) }
{
    let logged = LoggedReader::read(alloc, json)?;
    let placed = PlacedReader::read(alloc, json)?;
    let beside = BesideReader::read(alloc, json)?;
    let body = required::<CodedBodyReader>(alloc, json, "body")?;
    Ok(LogEntry {
        uuid: beside.uuid,
        attestation: beside.attestation,
        body,
        integrated_time: logged.integrated_time,
        log_i_d: logged.log_i_d,
        log_index: placed.log_index,
        verification: placed.verification,
    })
}

impl LogEntry {
    /// Reads an entry as Rekor's API returns it. Fails with `SerdeJsonError` if and only if the text is not a JSON
    /// document without floats, or a member is not as it has to be: `body` a text in padded standard base64 of a JSON
    /// object without floats that has one of the nine kinds as `kind`, a text `apiVersion` and a `spec`; `logID` a
    /// text; `integratedTime` and `logIndex` numbers from -2^63 to 2^63 - 1; `verification` an object with a text
    /// `signedEntryTimestamp` and an optional `inclusionProof`, of `hashes` (a list of texts), `logIndex`, `rootHash`
    /// (a text), `treeSize` (a number from 0 to 2^64 - 1) and `checkpoint` (a text); `uuid` a text or absent;
    /// `attestation` an object with an optional text `dummy`, or absent. Null means absent, but not inside a list. The
    /// entry itself may have no other members; those of the objects in it are ignored. `laws::entry_members` says it
    /// member by member.
    #[tactic(auto, unfolding(crate::specs::LogEntry::entry_in))]
    pub fn from_json_text(alloc: Global, text: &str) -> sig_base::Result<LogEntry>
        ensures { Answers Memory seen_entry result (entry_or_error text.now) }
    {
        match read_record::<LogEntryReader>(alloc, text.as_bytes()) {
            Ok(entry) => Ok(entry),
            Err(JsonError::NotJson | JsonError::Float | JsonError::Member) => {
                Err(SigstoreError::SerdeJsonError)
            }
            Err(JsonError::OutOfMemory) => Err(SigstoreError::OutOfMemory),
        }
    }
}
