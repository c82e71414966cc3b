//! `Artifact`: one artifact of a manifest.
ghost use Rattle.std.specs.Prelude.{◌≡◌};
ghost use Rattle.sig_json.specs.SeenAs.{value_by};
ghost use Rattle.sig_manifest.specs.Artifact.{are_graphic, artifact_of, artifact_view, is_name, name_kind};

use crate::read_rule::RuleReader;
use crate::rule::Rule;
use sig_base::{Entries, OwnedList, Text};
use sig_dsse::ArtifactDigest;
use sig_json::{
    ElementReader, Json, MemberError, TextBytesReader, TextReader, optional_list, required,
    required_text,
};
use sig_request::ArtifactDigestReader;
use std::alloc::Global;

/// The greatest number of artifacts of a manifest, which has at least one.
pub const MOST_ARTIFACTS: usize = 256;

/// The greatest number of bundles of all artifacts of a manifest.
pub const MOST_BUNDLES: usize = 256;

/// The greatest number of bytes of an artifact's name, which has at least one.
pub const MOST_NAME: usize = 256;

/// An artifact, with what decides its admission.
#[derive(Drop)]
pub struct Artifact {
    /// Its name in the report: 1 to 256 characters of ASCII from `!` to `~`, if it was read.
    pub name: Text,
    /// The SHA-256 or the SHA-512 of the artifact, which its bundles have to be about.
    pub digest: ArtifactDigest,
    /// The name of the trusted root.
    pub root: Text,
    /// The name of the policy.
    pub policy: Text,
    /// The texts of its bundles.
    pub bundles: Entries,
    /// What the verified bundles have to show.
    pub rule: Rule,
}

/// Artifacts in order.
pub type Artifacts = OwnedList<Artifact>;

/// Reads names of artifacts.
pub enum NameReader {}

impl ElementReader for NameReader {
    type Item = Text;

    ghost meaning = { name_kind };

    #[tactic(auto, unfolding(crate::specs::Artifact::name_kind, sig_json::specs::Kinds::text_of))]
    fn read(alloc: Global, json: Json<'_, '_>) -> Result<Text, MemberError> {
        match json.text() {
            Some(text) if is_name(text) => Ok(Text::copy_of(alloc, text)?),
            _ => Err(MemberError::Member),
        }
    }
}

/// Whether a text is the name of an artifact: 1 to 256 bytes, each from 21 hex to 7e hex.
fn is_name(text: &str) -> bool
    ensures { result ≡ is_name text.now }
{
    let bytes = text.as_bytes();
    0 < bytes.len() && bytes.len() < MOST_NAME + 1 && are_graphic(bytes)
}

/// Whether each byte is from 21 hex to 7e hex.
fn are_graphic(bytes: &[u8]) -> bool
    ensures { result ≡ are_graphic bytes.now }
{
    bytes.iter().all(|byte| 0x20 < *byte && *byte < 0x7f)
}

/// Reads artifacts.
pub enum ArtifactReader {}

impl ElementReader for ArtifactReader {
    type Item = Artifact;

    ghost seen_as = { value_by artifact_view };

    ghost meaning = { artifact_of };

    #[tactic(auto, unfolding(crate::specs::Artifact::artifact_of))]
    fn read(alloc: Global, json: Json<'_, '_>) -> Result<Artifact, MemberError> {
        Ok(Artifact {
            name: required::<NameReader>(alloc, json, "name")?,
            digest: required::<ArtifactDigestReader>(alloc, json, "digest")?,
            root: required_text(alloc, json, "root")?,
            policy: required_text(alloc, json, "policy")?,
            bundles: Entries::of(
                alloc,
                optional_list::<TextBytesReader>(alloc, json, "bundles")?,
            ),
            rule: required::<RuleReader>(alloc, json, "rule")?,
        })
    }
}
