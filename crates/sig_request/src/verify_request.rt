//! `VerifyRequest`: the request of `verify`, a JSON document.
//!
//! ```text
//! {
//!   "trustedRoot": "{\"mediaType\":\"application/vnd.dev.sigstore.trustedroot+json;version=0.1\", ...}",
//!   "bundle": "{\"mediaType\":\"application/vnd.dev.sigstore.bundle.v0.3+json\", ...}",
//!   "now": 1702500000,
//!   "digest": "sha256:e3b0c44298fc1c149afbf4c8996fb92427ae41e4649b934ca495991b7852b855",
//!   "policy": { "all": [ { "identity": "https://example.com/workflow", "issuer": "https://issuer.example" } ] },
//!   "accepted": [],
//!   "entries": null
//! }
//! ```
ghost use Rattle.std.specs.Prelude.{◌≡◌, IfOk};

use crate::digest_text::ArtifactDigestReader;
use crate::policy_rule::PolicyReader;
use crate::request_text::{RequestReader, request_from_text};
use crate::row::EntriesReader;
use sig_base::{Entries, OutOfMemory, TableChecker, Text};
use sig_dsse::ArtifactDigest;
use sig_json::{Json, MemberError, optional, required, required_i64, required_text};
use sig_policy::RequestPolicy;
use std::alloc::Global;

/// The members of a request of `verify`.
#[derive(Drop)]
pub struct VerifyRequest {
    /// The text of the trusted root.
    pub trusted_root: Text,
    /// The text of the bundle.
    pub bundle: Text,
    /// The time of the verification, in seconds since 1970.
    pub now: i64,
    /// The digest of the artifact.
    pub digest: ArtifactDigest,
    /// What has to hold of the signing certificate.
    pub policy: RequestPolicy,
    /// The signatures that are accepted as genuine.
    pub accepted: TableChecker,
    /// All entries of the log, if they are given.
    pub entries: Option<Entries>,
}

/// The names of the members that a request may have; `accepted` is read beside them, row by row. A member of another
/// name is ignored: no tree is made of it.
const MEMBERS: [&str; 6] = [
    "trustedRoot",
    "bundle",
    "now",
    "digest",
    "policy",
    "entries",
];

enum VerifyRequestReader {}

impl RequestReader for VerifyRequestReader {
    ghost use Rattle.sig_request.specs.VerifyRequest.{verify_members};

    type Item = VerifyRequest;

    ghost meaning = { verify_members };

    #[tactic(auto, unfolding(crate::specs::VerifyRequest::verify_members))]
    fn read(
        alloc: Global,
        json: Json<'_, '_>,
        accepted: TableChecker,
    ) -> Result<VerifyRequest, MemberError> {
        Ok(VerifyRequest {
            trusted_root: required_text(alloc, json, "trustedRoot")?,
            bundle: required_text(alloc, json, "bundle")?,
            now: required_i64(json, "now")?,
            digest: required::<ArtifactDigestReader>(alloc, json, "digest")?,
            policy: required::<PolicyReader>(alloc, json, "policy")?,
            accepted,
            entries: optional::<EntriesReader>(alloc, json, "entries")?,
        })
    }
}

impl VerifyRequest {
    ghost use Rattle.sig_request.specs.ReadFrom.{IsReadFrom};
    ghost use Rattle.sig_request.specs.VerifyRequest.{verify_request};

    /// Reads a request; `None` if and only if the text has more than 2^24 bytes, is not a JSON document without floats,
    /// or does not have the members of a request. Its policy has in each rule exactly one of the sets of members that a
    /// rule may have, as [`policies`](crate::laws::policies) says. Fails only if out of memory.
    pub fn read(alloc: Global, text: &[u8]) -> Result<Option<VerifyRequest>, OutOfMemory>
        ensures { IfOk result (IsReadFrom verify_request text.now) }
    {
        request_from_text::<VerifyRequestReader>(alloc, text, &MEMBERS)
    }

    /// The bytes of the trusted root.
    pub fn trusted_root(&self) -> &[u8]
        ensures { result.now ≡ self.entry.now.trusted_root }
    {
        self.trusted_root.as_str().as_bytes()
    }

    /// The bytes of the bundle.
    pub fn bundle(&self) -> &[u8]
        ensures { result.now ≡ self.entry.now.bundle }
    {
        self.bundle.as_str().as_bytes()
    }

    /// The time of the verification, in whole seconds since 1970.
    pub fn now(&self) -> i64
        ensures { result ≡ self.entry.now.now }
    {
        self.now
    }
}
