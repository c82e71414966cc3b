//! `AnnotationVerifier`: annotations that a layer has to have.

ghost use Rattle.std.specs.Prelude.{IsOkUnless};
ghost use Rattle.sig_base.specs.declared.error.SigstoreError.TheVariants.{OutOfMemory as Memory};
ghost use Rattle.sig_payload.specs.Annotations.{satisfies};
ghost use Rattle.sig_cosign.specs.Layer.{seen_layer};
ghost use Rattle.sig_constraint.specs.CallResults.{IsVerdict};

use crate::constraint::VerificationConstraint;
use sig_base::{Result, TextMap};
use sig_cosign::SignatureLayer;
use std::alloc::Global;

/// Requires that a layer's payload has these annotations. It does not check a signature: who wrote the payload is
/// checked by [`PublicKeyVerifier`](crate::PublicKeyVerifier) for the same layer.
#[derive(Drop)]
pub struct AnnotationVerifier {
    /// The annotations: names with their values, a number or a truth value as it is written.
    pub annotations: TextMap,
}

impl VerificationConstraint for AnnotationVerifier {
    ghost holds = { λ v l. satisfies l.simple_signing v.annotations };

    /// Whether the payload has each of the annotations, as the payload's `satisfies_annotations` says: the name is
    /// there, with the same text, or with a number or a truth value of that spelling. Never fails.
    fn verify(&self, alloc: Global, signature_layer: &SignatureLayer) -> Result<bool>
        ensures verdict { IsVerdict (satisfies (seen_layer signature_layer.now).simple_signing self.now.annotations)
            result }
        ensures only_memory { IsOkUnless result Memory }
    {
        let _alloc = alloc;
        Ok(
            signature_layer
                .simple_signing
                .satisfies_annotations(&self.annotations),
        )
    }
}
