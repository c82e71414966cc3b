//! `verify_constraints`: which constraints no layer satisfies.

ghost use Rattle.std.specs.Prelude.{◌≡◌, IfOk, IfErr, Ok};
ghost use Rattle.sig_base.specs.Answers.{Answers, ComesWhere};
ghost use Rattle.sig_cosign.specs.Layer.{seen_layer};
ghost use Rattle.sig_constraint.specs.Satisfied.{AreSatisfied, AreUnsatisfied, IfUnsatisfied, is_satisfied};
ghost use Rattle.sig_constraint.specs.Satisfied.{satisfaction, unsatisfied};
ghost use Rattle.sig_constraint.specs.declared.verify.SigstoreVerifyConstraintsError.TheVariants.{OutOfMemory as Memory};

use crate::constraint::VerificationConstraint;
use sig_base::{Numbers, OutOfMemory, SigstoreError};
use sig_cosign::SignatureLayer;
use std::alloc::Global;
use std::fmt;
use thiserror::Error;

/// Why layers do not satisfy constraints, or that memory ran out.
#[derive(Drop, Error)]
pub enum SigstoreVerifyConstraintsError {
    /// No layer satisfies the constraints at these indices, which ascend.
    #[error("Unsatisfied")]
    Unsatisfied(Numbers),
    /// Out of memory.
    #[error("OutOfMemory")]
    OutOfMemory,
}

impl fmt::Debug for SigstoreVerifyConstraintsError {
    fn fmt<W: fmt::Write>(&self, f: &mut fmt::Formatter<W>) -> fmt::Result {
        match self {
            SigstoreVerifyConstraintsError::Unsatisfied(indices) => {
                f.write_str("Unsatisfied(")?;
                fmt::Debug::fmt(indices.as_slice(), f)?;
                f.write_str(")")
            }
            SigstoreVerifyConstraintsError::OutOfMemory => f.write_str("OutOfMemory"),
        }
    }
}

impl From<OutOfMemory> for SigstoreVerifyConstraintsError {
    ghost use Rattle.std.specs.Prelude.{◌≡◌};
    ghost use Rattle.sig_constraint.specs.declared.verify.SigstoreVerifyConstraintsError.TheVariants.{OutOfMemory as Memory};

    ghost from_gives = { λ _ e. e ≡ Memory };

    fn from(_error: OutOfMemory) -> SigstoreVerifyConstraintsError {
        SigstoreVerifyConstraintsError::OutOfMemory
    }
}

/// Checks that each constraint is satisfied by at least one layer, maybe each by a different one. It asks each
/// constraint of each layer up to the first that satisfies it: the time is that of these calls. Errors:
///
/// - `Unsatisfied` with the ascending indices of the constraints that no layer satisfies, if there are any; a
///   constraint whose call fails, except with `OutOfMemory`, is not satisfied by that layer;
/// - `OutOfMemory`.
pub fn verify_constraints(
    alloc: Global,
    signature_layers: &[SignatureLayer],
    constraints: &[Box<dyn VerificationConstraint>],
) -> Result<(), SigstoreVerifyConstraintsError>
    // Each constraint is satisfied by at least one layer.
    ensures satisfied { ComesWhere Memory result (Ok tt)
        (AreSatisfied (λ b l. holds b l) signature_layers.now constraints.now) }
    // The indices are those of the constraints that no layer satisfies.
    ensures unsatisfied { IfErr result (IfUnsatisfied
        (AreUnsatisfied (λ b l. holds b l) signature_layers.now constraints.now)) }
    // The same in one equation.
    ensures answer { Answers Memory (λ done. done) result
        (satisfaction (unsatisfied (λ b l. holds b l) signature_layers.now constraints.now)) }
{
    judged(alloc, signature_layers, constraints)
}

fn judged<V: VerificationConstraint>(
    alloc: Global,
    layers: &[SignatureLayer],
    constraints: &[V],
) -> Result<(), SigstoreVerifyConstraintsError>
    ensures satisfied { ComesWhere Memory result (Ok tt)
        (AreSatisfied (λ c l. V.holds c l) layers.now constraints.now) }
    ensures unsatisfied { IfErr result (IfUnsatisfied
        (AreUnsatisfied (λ c l. V.holds c l) layers.now constraints.now)) }
    ensures answer { Answers Memory (λ done. done) result
        (satisfaction (unsatisfied (λ c l. V.holds c l) layers.now constraints.now)) }
{
    checked(alloc, layers, constraints)
}

fn checked<V: VerificationConstraint>(
    alloc: Global,
    layers: &[SignatureLayer],
    constraints: &[V],
) -> Result<(), SigstoreVerifyConstraintsError>
    ensures { Answers Memory (λ done. done) result
        (satisfaction (unsatisfied (λ c l. V.holds c l) layers.now constraints.now)) }
{
    let indices = unsatisfied(alloc, layers, constraints)?;
    if indices.len() == 0 {
        return Ok(());
    }
    Err(SigstoreVerifyConstraintsError::Unsatisfied(indices))
}

/// The indices of the constraints that no layer satisfies. Fails only if out of memory.
fn unsatisfied<V: VerificationConstraint>(
    alloc: Global,
    layers: &[SignatureLayer],
    constraints: &[V],
) -> Result<Numbers, OutOfMemory>
    ensures { IfOk result (λ ns. ns ≡ unsatisfied (λ c l. V.holds c l) layers.now constraints.now) }
{
    let mut indices = Numbers::new(alloc);
    'constraints: for (index, constraint) in constraints.iter().enumerate() {
        if !is_satisfied(alloc, layers, constraint)? {
            indices.push(index)?;
        }
    }
    Ok(indices)
}

/// Whether at least one layer satisfies the constraint. Fails only if out of memory.
fn is_satisfied<V: VerificationConstraint>(
    alloc: Global,
    layers: &[SignatureLayer],
    constraint: &V,
) -> Result<bool, OutOfMemory>
    ensures { IfOk result (λ b. b ≡ is_satisfied (λ c l. V.holds c l) layers.now constraint.now) }
{
    for layer in layers {
        if holds(alloc, constraint, layer)? {
            return Ok(true);
        }
    }
    Ok(false)
}

/// Whether the layer satisfies the constraint. Fails only if out of memory.
fn holds<V: VerificationConstraint>(
    alloc: Global,
    constraint: &V,
    layer: &SignatureLayer,
) -> Result<bool, OutOfMemory>
    ensures { IfOk result (λ b. b ≡ V.holds constraint.now (seen_layer layer.now)) }
{
    match constraint.verify(alloc, layer) {
        Ok(holds) => Ok(holds),
        Err(SigstoreError::OutOfMemory) => Err(OutOfMemory),
        Err(error) => {
            drop(error);
            Ok(false)
        }
    }
}
