//! Constraints of this program, which the library knows only through their traits.

ghost use Rattle.constraint_cases.specs.Own.{own_gives, own_holds};

use sig_base::{Result, SigstoreError, Text};
use sig_constraint::{Constraint, VerificationConstraint};
use sig_cosign::SignatureLayer;
use std::alloc::Global;

/// A constraint of this program.
#[derive(Drop)]
pub(crate) enum Own {
    /// Each layer satisfies it, and it changes none.
    Always,
    /// No layer satisfies it, and it does not apply to any.
    Never,
    /// Its calls fail.
    Fails,
    /// A layer with this signature satisfies it, and it gives one to a layer that has none.
    Signed(Text),
}

impl VerificationConstraint for Own {
    ghost holds = { own_holds };

    fn verify(&self, alloc: Global, signature_layer: &SignatureLayer) -> Result<bool> {
        match self {
            Own::Always => Ok(true),
            Own::Never => Ok(false),
            Own::Fails => Err(SigstoreError::VerificationConstraintError(Text::copy_of(
                alloc, "fails",
            )?)),
            Own::Signed(asked) => match &signature_layer.signature {
                Some(text) => Ok(text.as_str() == asked.as_str()),
                None => Ok(false),
            },
        }
    }
}

impl Constraint for Own {
    ghost gives = { own_gives };

    fn add_constraint(&self, alloc: Global, signature_layer: &mut SignatureLayer) -> Result<bool> {
        match self {
            Own::Always => Ok(true),
            Own::Never => Ok(false),
            Own::Fails => Err(SigstoreError::ApplyConstraintError(Text::copy_of(alloc, "fails")?)),
            Own::Signed(text) => {
                if signature_layer.signature.is_some() {
                    return Ok(false);
                }
                signature_layer.signature = Some(text.copy(alloc)?);
                Ok(true)
            }
        }
    }
}
