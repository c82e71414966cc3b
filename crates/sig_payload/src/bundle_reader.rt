//! What Rekor promised, read from the text that `cosign` stores.
ghost use Rattle.sig_base.specs.Answers.{Answers};
ghost use Rattle.sig_base.specs.declared.error.SigstoreError.TheVariants.{OutOfMemory as Memory};
ghost use Rattle.sig_payload.specs.BundleRecord.{artifact_bundle_in, bundle_in, logged_in, payload_in, placed_in};
ghost use Rattle.sig_payload.specs.Bundles.{readable};
ghost use Rattle.sig_payload.specs.Bundles.{artifact_bundle_of, bundle_of};

use crate::bundle::{Bundle, Payload, SignedArtifactBundle};
use sig_base::{SigstoreError, Text, UnexpectedKind};
use sig_json::{
    ElementReader, I64NumberReader, Json, JsonError, MemberError, read_record, required,
    required_text,
};
use std::alloc::Global;

/// An entry, and when the log took it.
#[derive(Drop)]
struct Logged {
    integrated_time: i64,
    body: Text,
}

/// Reads entries, and when the log took them.
enum LoggedReader {}

impl ElementReader for LoggedReader {
    type Item = Logged;

    ghost meaning = { logged_in };

    #[tactic(auto, unfolding(crate::specs::BundleRecord::logged_in))]
    fn read(alloc: Global, json: Json<'_, '_>) -> Result<Logged, MemberError> {
        Ok(Logged {
            integrated_time: required::<I64NumberReader>(alloc, json, "integratedTime")?,
            body: required_text(alloc, json, "body")?,
        })
    }
}

/// Where an entry is, and in which log.
#[derive(Drop)]
struct Placed {
    log_index: i64,
    log_id: Text,
}

/// Reads where an entry is, and in which log.
enum PlacedReader {}

impl ElementReader for PlacedReader {
    type Item = Placed;

    ghost meaning = { placed_in };

    #[tactic(auto, unfolding(crate::specs::BundleRecord::placed_in))]
    fn read(alloc: Global, json: Json<'_, '_>) -> Result<Placed, MemberError> {
        Ok(Placed {
            log_index: required::<I64NumberReader>(alloc, json, "logIndex")?,
            log_id: required_text(alloc, json, "logID")?,
        })
    }
}

/// Reads what a log promised.
enum PayloadReader {}

impl ElementReader for PayloadReader {
    type Item = Payload;

    ghost meaning = { payload_in };

    #[tactic(auto, unfolding(crate::specs::BundleRecord::payload_in))]
    fn read(alloc: Global, json: Json<'_, '_>) -> Result<Payload, MemberError> {
        let logged = LoggedReader::read(alloc, json)?;
        let placed = PlacedReader::read(alloc, json)?;
        Ok(Payload {
            body: logged.body,
            integrated_time: logged.integrated_time,
            log_index: placed.log_index,
            log_id: placed.log_id,
        })
    }
}

/// Reads what a log promised, with its signature.
enum BundleReader {}

impl ElementReader for BundleReader {
    type Item = Bundle;

    ghost meaning = { bundle_in };

    #[tactic(auto, unfolding(crate::specs::BundleRecord::bundle_in))]
    fn read(alloc: Global, json: Json<'_, '_>) -> Result<Bundle, MemberError> {
        Ok(Bundle {
            signed_entry_timestamp: required_text(alloc, json, "SignedEntryTimestamp")?,
            payload: required::<PayloadReader>(alloc, json, "Payload")?,
        })
    }
}

/// Reads signatures over artifacts, with what a log promised of them.
enum ArtifactBundleReader {}

impl ElementReader for ArtifactBundleReader {
    type Item = SignedArtifactBundle;

    ghost meaning = { artifact_bundle_in };

    #[tactic(auto, unfolding(crate::specs::BundleRecord::artifact_bundle_in))]
    fn read(alloc: Global, json: Json<'_, '_>) -> Result<SignedArtifactBundle, MemberError> {
        Ok(SignedArtifactBundle {
            base64_signature: required_text(alloc, json, "base64Signature")?,
            cert: required_text(alloc, json, "cert")?,
            rekor_bundle: required::<BundleReader>(alloc, json, "rekorBundle")?,
        })
    }
}

/// What a log promised, by this text.
#[tactic(auto, unfolding(crate::specs::Bundles::bundle_of))]
pub(crate) fn read_rekor_bundle(alloc: Global, raw: &str) -> sig_base::Result<Bundle>
    ensures { Answers Memory (λ bundle. bundle) result (readable (bundle_of raw.now)) }
{
    match read_record::<BundleReader>(alloc, raw.as_bytes()) {
        Ok(bundle) => Ok(bundle),
        Err(JsonError::NotJson | JsonError::Float | JsonError::Member) => Err(
            SigstoreError::UnexpectedError(UnexpectedKind::BundleUnreadable),
        ),
        Err(JsonError::OutOfMemory) => Err(SigstoreError::OutOfMemory),
    }
}

/// The signature of this text, with what a log promised.
#[tactic(auto, unfolding(crate::specs::Bundles::artifact_bundle_of))]
pub(crate) fn read_artifact_bundle(
    alloc: Global,
    raw: &str,
) -> sig_base::Result<SignedArtifactBundle>
    ensures { Answers Memory (λ bundle. bundle) result (readable (artifact_bundle_of raw.now)) }
{
    match read_record::<ArtifactBundleReader>(alloc, raw.as_bytes()) {
        Ok(bundle) => Ok(bundle),
        Err(JsonError::NotJson | JsonError::Float | JsonError::Member) => Err(
            SigstoreError::UnexpectedError(UnexpectedKind::BundleUnreadable),
        ),
        Err(JsonError::OutOfMemory) => Err(SigstoreError::OutOfMemory),
    }
}
