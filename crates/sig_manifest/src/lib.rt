//! The manifest of a gate: which artifacts are to be admitted, by which trusted roots, policies and rules.
//!
//! ```text
//! { "now": 1702500000,
//!   "roots": { "sigstore": "{\"mediaType\":\"application/vnd.dev.sigstore.trustedroot+json;version=0.1\", ...}" },
//!   "policies": { "release": { "all": [ { "issuer": "https://issuer.example" } ] } },
//!   "accepted": [],
//!   "artifacts": [
//!     { "name": "tool-1.0.tar.gz", "digest": "sha256:e3b0c442..b855", "root": "sigstore", "policy": "release",
//!       "bundles": [ "{\"mediaType\":\"application/vnd.dev.sigstore.bundle.v0.3+json\", ...}" ],
//!       "rule": { "all": [ { "least": 1 }, { "not": { "origin": "test.example" } } ] } }
//!   ] }
//! ```
//!
//! The layer above uses two facts. A text is read as a manifest if and only if it is one, and each error comes exactly
//! when its cause is the first. And the trusted root and the policy that each of its artifacts names are there.
#![tactic(auto)]

mod artifact;
mod error;
mod manifest;
mod policies;
mod read_rule;
mod reading;
mod rule;
mod size;
mod unknown;

pub use artifact::{
    Artifact, ArtifactReader, Artifacts, MOST_ARTIFACTS, MOST_BUNDLES, MOST_NAME, NameReader,
};
pub use error::ManifestError;
pub use manifest::{Manifest, is_within};
pub use policies::Policies;
pub use read_rule::{Form, RuleReader, form_of};
pub use reading::read_manifest;
pub use rule::{MOST_LEAST, MOST_NODES, Rule, Rules};
