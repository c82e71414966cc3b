//! Digests of artifacts.
//!
//! ```text
//! {"sha256":"ba7816bf8f01cfea414140de5dae2223b00361a396177a9cb410ff61f20015ad"}
//! ```
ghost use Rattle.std.specs.Prelude.{◌≡◌, IfOk};
ghost use Rattle.sig_json.specs.Writing.{members};
ghost use Rattle.sig_json.specs.Data.{Data, put};
ghost use Rattle.sig_json.specs.Tree.{document_tree};
ghost use Rattle.sig_shown.specs.ShownValues.{digest_tree};

use crate::list::Shown;
use sig_base::OutOfMemory;
use sig_bundle::ArtifactDigest;
use sig_json::{Document, Object};
use std::alloc::Global;

/// Shows digests, each under the name of its algorithm.
pub enum ShownDigest {}

impl Shown for ShownDigest {
    type Item = ArtifactDigest;

    ghost tree = { digest_tree };

    #[tactic(auto, unfolding(crate::specs::ShownValues::digest_tree))]
    fn show(alloc: Global, item: &ArtifactDigest) -> Result<Document, OutOfMemory> {
        let object = Object::new(alloc).with_hex(alloc, item.algorithm(), item.as_bytes())?;
        Ok(object.into_document())
    }
}

/// The object with a digest as a member. Fails only if out of memory.
pub fn with_digest(
    object: Object,
    alloc: Global,
    name: &str,
    digest: &ArtifactDigest,
) -> Result<Object, OutOfMemory>
    ensures { IfOk result (λ made. members made ≡ put name.now (digest_tree digest.now) (members object)) }
{
    let value = ShownDigest::show(alloc, digest)?;
    object.with(alloc, name, value)
}
