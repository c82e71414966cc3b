//! A boxed constraint is the constraint in the box.

use crate::constraint::{Constraint, VerificationConstraint};
use sig_base::Result;
use sig_cosign::SignatureLayer;
use std::alloc::Global;

impl VerificationConstraint for Box<dyn VerificationConstraint> {
    ghost holds = { λ b l. (VerificationConstraint-box b).holds b.value l };

    fn verify(&self, alloc: Global, signature_layer: &SignatureLayer) -> Result<bool> {
        (**self).verify(alloc, signature_layer)
    }
}

impl Constraint for Box<dyn Constraint> {
    ghost gives = { λ b l. (Constraint-box b).gives b.value l };

    fn add_constraint(&self, alloc: Global, signature_layer: &mut SignatureLayer) -> Result<bool> {
        (**self).add_constraint(alloc, signature_layer)
    }
}
