//! `Bundle`: what Rekor promised of a signature, as `cosign` stores it.
//!
//! ```text
//! {"SignedEntryTimestamp":"MEUCIQ==","Payload":{"body":"eyJraW5kIjoiaGFzaGVkcmVrb3JkIn0=",
//!   "integratedTime":1702446656,"logIndex":56111,"logID":"dd3d306a"}}
//! ```
ghost use Rattle.std.specs.Prelude.{◌≡◌, Ok, Err, IfOk, IfErr};
ghost use Rattle.sig_base.specs.Answers.{Answers, OrMemory, UnlessMemory};
ghost use Rattle.sig_base.specs.declared.error.SigstoreError.{SigstoreError as refusal_type};
ghost use Rattle.sig_base.specs.declared.error.SigstoreError.TheVariants.{OutOfMemory as Memory};
ghost use Rattle.sig_payload.specs.Bundles.{artifact_bundle_answer, bundle_answer};
ghost use Rattle.sig_payload.specs.Promised.{IsArtifactFault, IsBundleFault, IsPromisedArtifact, IsPromisedBundle};
ghost use Rattle.sig_payload.specs.declared.bundle.Bundle.{Bundle as bundle_type};
ghost use Rattle.sig_payload.specs.declared.bundle.SignedArtifactBundle.{SignedArtifactBundle as artifact_type};

use crate::bundle_reader::{read_artifact_bundle, read_rekor_bundle};
use crate::promise::check_promise;
use sig_base::{Result, SignatureChecker, Text};
use sig_key::VerificationKeys;
use std::alloc::Global;

/// What Rekor promised to include, in its own members.
#[derive(Drop, PartialEq, Eq)]
pub struct Payload {
    /// The entry's body, in base64. It is not read.
    pub body: Text,
    /// When the log took the entry, in seconds since 1970.
    pub integrated_time: i64,
    /// The index of the entry in the whole log, over all shards.
    pub log_index: i64,
    /// The log's id: the SHA-256 of its key, in hexadecimal.
    pub log_id: Text,
}

/// What Rekor promised, with its signature.
#[derive(Drop, PartialEq, Eq)]
pub struct Bundle {
    /// The log's signature over the payload, in base64.
    pub signed_entry_timestamp: Text,
    /// What is signed.
    pub payload: Payload,
}

/// A signature over an artifact, with what Rekor promised about it.
#[derive(Drop, PartialEq, Eq)]
pub struct SignedArtifactBundle {
    /// The signature, in base64. It is not checked here.
    pub base64_signature: Text,
    /// The certificate (PEM). It is not read here.
    pub cert: Text,
    /// What Rekor promised.
    pub rekor_bundle: Bundle,
}

impl Bundle {
    /// Reads what Rekor promised, and checks that the log of its id signed it. Whether it promised anything of a
    /// certain signature is not checked: the body is not read.
    ///
    /// Errors, the first that applies:
    /// - `UnexpectedError` of `BundleUnreadable`: the text is not a JSON document without floats, an object of the text
    ///   `SignedEntryTimestamp` and the object `Payload` of the texts `body` and `logID` and of the numbers
    ///   `integratedTime` and `logIndex` from -2^63 to 2^63 - 1; other members are ignored;
    /// - `UnexpectedError` of `PromiseInteger`: one of the two numbers is outside plus or minus 2^53 - 1;
    /// - `RekorPublicKeyNotFoundError` with the payload's log id: there is no key of this id;
    /// - `Base64DecodeError`: the signature is not base64, as [`sig_key::Signature::decode_bytes`] says;
    /// - `PublicKeyVerificationError`: the checker does not accept it over the canonical JSON (RFC 8785) of the
    ///   payload's four members;
    /// - `OutOfMemory`.
    pub fn new_verified<C: SignatureChecker>(
        alloc: Global,
        raw: &str,
        rekor_pub_keys: &VerificationKeys,
        checker: &C,
    ) -> Result<Bundle>
        // A bundle is returned if and only if it is the text's, and the log promised it, unless memory ran out.
        ensures found { IfOk result (IsPromisedBundle (C.spki_accepts checker.now) rekor_pub_keys.now raw.now) }
        ensures only { (bundle : bundle_type) → IsPromisedBundle (C.spki_accepts checker.now) rekor_pub_keys.now raw.now bundle
            → UnlessMemory Memory result (result ≡ Ok bundle) }
        // An error comes if and only if the rules before its own hold, and its own does not hold.
        ensures err { IfErr result (λ e. OrMemory Memory e
            (IsBundleFault (C.spki_accepts checker.now) rekor_pub_keys.now raw.now e)) }
        ensures refused { (e : refusal_type) → IsBundleFault (C.spki_accepts checker.now) rekor_pub_keys.now raw.now e
            → UnlessMemory Memory result (result ≡ Err e) }
        // The same in one equation.
        ensures answer { Answers Memory (λ bundle. bundle) result
            (bundle_answer (C.spki_accepts checker.now) rekor_pub_keys.now raw.now) }
    {
        verified_bundle(alloc, raw, rekor_pub_keys, checker)
    }
}

#[tactic(auto, unfolding(crate::specs::Bundles::bundle_answer))]
fn verified_bundle<C: SignatureChecker>(
    alloc: Global,
    raw: &str,
    keys: &VerificationKeys,
    checker: &C,
) -> Result<Bundle>
    ensures { Answers Memory (λ bundle. bundle) result
        (bundle_answer (C.spki_accepts checker.now) keys.now raw.now) }
{
    let bundle = read_rekor_bundle(alloc, raw)?;
    match check_promise(alloc, &bundle, keys, checker) {
        Ok(()) => Ok(bundle),
        Err(error) => {
            drop(bundle);
            Err(error)
        }
    }
}

impl SignedArtifactBundle {
    /// Reads a signature with what Rekor promised about it, and checks that the log signed the promise, as
    /// [`Bundle::new_verified`]. It reads neither the signature nor the certificate.
    ///
    /// Errors, the first that applies:
    /// - `UnexpectedError` of `BundleUnreadable`: the text is not a JSON document without floats, an object of the
    ///   texts `base64Signature` and `cert` and of the object `rekorBundle` that a [`Bundle`] is read from;
    /// - the others of [`Bundle::new_verified`], for that object.
    pub fn new_verified<C: SignatureChecker>(
        alloc: Global,
        raw: &str,
        rekor_pub_keys: &VerificationKeys,
        checker: &C,
    ) -> Result<SignedArtifactBundle>
        // A bundle is returned if and only if it is the text's, and the log promised it, unless memory ran out.
        ensures found { IfOk result (IsPromisedArtifact (C.spki_accepts checker.now) rekor_pub_keys.now raw.now) }
        ensures only { (bundle : artifact_type) → IsPromisedArtifact (C.spki_accepts checker.now) rekor_pub_keys.now raw.now bundle
            → UnlessMemory Memory result (result ≡ Ok bundle) }
        // An error comes if and only if the rules before its own hold, and its own does not hold.
        ensures err { IfErr result (λ e. OrMemory Memory e
            (IsArtifactFault (C.spki_accepts checker.now) rekor_pub_keys.now raw.now e)) }
        ensures refused { (e : refusal_type) → IsArtifactFault (C.spki_accepts checker.now) rekor_pub_keys.now raw.now e
            → UnlessMemory Memory result (result ≡ Err e) }
        // The same in one equation.
        ensures answer { Answers Memory (λ bundle. bundle) result
            (artifact_bundle_answer (C.spki_accepts checker.now) rekor_pub_keys.now raw.now) }
    {
        verified_artifact(alloc, raw, rekor_pub_keys, checker)
    }
}

#[tactic(auto, unfolding(crate::specs::Bundles::artifact_bundle_answer))]
fn verified_artifact<C: SignatureChecker>(
    alloc: Global,
    raw: &str,
    keys: &VerificationKeys,
    checker: &C,
) -> Result<SignedArtifactBundle>
    ensures { Answers Memory (λ bundle. bundle) result
        (artifact_bundle_answer (C.spki_accepts checker.now) keys.now raw.now) }
{
    let bundle = read_artifact_bundle(alloc, raw)?;
    match check_promise(alloc, &bundle.rekor_bundle, keys, checker) {
        Ok(()) => Ok(bundle),
        Err(error) => {
            drop(bundle);
            Err(error)
        }
    }
}
