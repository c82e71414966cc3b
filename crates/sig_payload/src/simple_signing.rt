//! `SimpleSigning`: what `cosign` signs about a container image, the payload of the simple signing format.
//!
//! ```text
//! {"critical":{"identity":{"docker-reference":"registry.example/image"},
//!    "image":{"docker-manifest-digest":
//!      "sha256:ba7816bf8f01cfea414140de5dae2223b00361a396177a9cb410ff61f20015ad"},
//!    "type":"cosign container image signature"},
//!  "optional":{"creator":"someone","timestamp":1702446656,"env":"prod"}}
//! ```
ghost use Rattle.std.specs.Prelude.{◌≡◌, ◌↔◌, IsTrue, IfOk, IsOkUnless};
ghost use Rattle.sig_base.specs.declared.error.SigstoreError.TheVariants.{OutOfMemory as Memory};
ghost use Rattle.sig_payload.specs.Signing.{plain_signing, seen_signing};

use sig_base::{Result, Text};
use sig_json::Document;
use std::alloc::Global;

/// The type of the payloads that `cosign` signs.
pub const CRITICAL_TYPE_NAME: &str = "cosign container image signature";

/// A payload: what is signed about an image, and what the signer adds.
#[derive(Drop)]
pub struct SimpleSigning {
    /// What a verifier has to look at.
    pub critical: Critical,
    /// What the signer adds; `None` if it is absent or null.
    pub optional: Option<Optional>,
}

/// What a verifier has to look at.
#[derive(Drop)]
pub struct Critical {
    /// Under which name the image was signed.
    pub identity: Identity,
    /// Which image was signed.
    pub image: Image,
    /// The member `type`: which kind of payload it is. It need not be [`CRITICAL_TYPE_NAME`].
    pub type_name: Text,
}

/// Which image was signed.
#[derive(Drop)]
pub struct Image {
    /// The digest of the image's manifest, such as `sha256:` and 64 hexadecimal digits.
    pub docker_manifest_digest: Text,
}

/// Under which name an image was signed.
#[derive(Drop)]
pub struct Identity {
    /// The reference of the image, such as `registry.example/image`.
    pub docker_reference: Text,
}

/// What a signer says beside the image: annotations.
#[derive(Drop)]
pub struct Optional {
    /// What made the signature.
    pub creator: Option<Text>,
    /// When it was made, in seconds since 1970, as the signer states.
    pub timestamp: Option<i64>,
    /// The annotations of other names, an object.
    pub extra: Document,
}

impl SimpleSigning {
    /// Returns the payload of an image with this reference and this digest of its manifest, without annotations. Fails
    /// only if out of memory.
    pub fn new(alloc: Global, image_ref: &str, manifest_digest: &str) -> Result<SimpleSigning>
        ensures signing { IfOk result (λ s. seen_signing s ≡ plain_signing image_ref.now manifest_digest.now) }
        ensures only_memory { IsOkUnless result Memory }
    {
        Ok(SimpleSigning {
            critical: Critical {
                identity: Identity {
                    docker_reference: Text::copy_of(alloc, image_ref)?,
                },
                image: Image {
                    docker_manifest_digest: Text::copy_of(alloc, manifest_digest)?,
                },
                type_name: Text::copy_of(alloc, CRITICAL_TYPE_NAME)?,
            },
            optional: None,
        })
    }

    /// Whether the payload is about the image whose manifest has this digest. The texts are compared byte for byte.
    pub fn satisfies_manifest_digest(&self, expected_digest: &str) -> bool
        ensures { IsTrue result ↔ (self.now.critical.image.docker_manifest_digest ≡ expected_digest.now) }
    {
        self.critical.image.docker_manifest_digest.as_str() == expected_digest
    }
}
