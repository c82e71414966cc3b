//! What a constraint is: a predicate of layers, or what is added to a layer before it is signed.

ghost use Rattle.std.specs.Prelude.{Bool, Option};
ghost use Rattle.sig_cosign.specs.Layer.{Layer, seen_layer};
ghost use Rattle.sig_constraint.specs.CallResults.{IsVerdict, IsApplied};

use sig_base::Result;
use sig_cosign::SignatureLayer;
use std::alloc::Global;

/// Boxed constraints that are applied to a layer before it is signed.
pub type SignConstraintVec = Vec<Box<dyn Constraint>>;

/// Boxed constraints that layers have to satisfy.
pub type VerificationConstraintVec = Vec<Box<dyn VerificationConstraint>>;

/// A predicate of layers. A caller may implement it: what [`verify_constraints`](crate::verify_constraints) promises
/// holds of every implementation.
pub trait VerificationConstraint: Drop {
    // The layers that satisfy the constraint.
    ghost holds: { Self → Layer → Bool };

    /// Whether the layer satisfies the constraint. An error, except `OutOfMemory`, comes only if it does not.
    fn verify(&self, alloc: Global, signature_layer: &SignatureLayer) -> Result<bool>
        ensures { IsVerdict (holds self.now (seen_layer signature_layer.now)) result };
}

/// What is added to a layer before it is signed. A caller may implement it: what
/// [`apply_constraints`](crate::apply_constraints) promises holds of every implementation.
pub trait Constraint: Drop {
    // The layer that the constraint makes of one, if it applies to it.
    ghost gives: { Self → Layer → Option Layer };

    /// Returns `true` if and only if the constraint applies, and leaves the layer that it then gives. After `false` and
    /// after an error the layer is unchanged. An error, except `OutOfMemory`, comes only if it does not apply.
    fn add_constraint(&self, alloc: Global, signature_layer: &mut SignatureLayer) -> Result<bool>
        ensures { IsApplied (gives self.now (seen_layer signature_layer.old)) signature_layer.old
            signature_layer.new result };
}
