//! `apply_constraints`: constraints that are applied to a layer one after another.

ghost use Rattle.std.specs.Prelude.{◌≡◌, IfOk, OnOk, OnErr, is_some};
ghost use Rattle.sig_cosign.specs.Layer.{seen_layer};
ghost use Rattle.sig_constraint.specs.Applied.{IsApplication, IsAppliedUpTo, after, applied, unapplied_from};

use crate::constraint::Constraint;
use sig_base::{Numbers, OutOfMemory, SigstoreError};
use sig_cosign::SignatureLayer;
use std::alloc::Global;
use std::fmt;
use thiserror::Error;

/// Why constraints were not all applied, or that memory ran out.
#[derive(Drop, Error)]
pub enum SigstoreApplicationConstraintsError {
    /// The constraints at these indices, which ascend, did not apply.
    #[error("Unapplied")]
    Unapplied(Numbers),
    /// Out of memory.
    #[error("OutOfMemory")]
    OutOfMemory,
}

impl fmt::Debug for SigstoreApplicationConstraintsError {
    fn fmt<W: fmt::Write>(&self, f: &mut fmt::Formatter<W>) -> fmt::Result {
        match self {
            SigstoreApplicationConstraintsError::Unapplied(indices) => {
                f.write_str("Unapplied(")?;
                fmt::Debug::fmt(indices.as_slice(), f)?;
                f.write_str(")")
            }
            SigstoreApplicationConstraintsError::OutOfMemory => f.write_str("OutOfMemory"),
        }
    }
}

impl From<OutOfMemory> for SigstoreApplicationConstraintsError {
    ghost use Rattle.std.specs.Prelude.{◌≡◌};
    ghost use Rattle.sig_constraint.specs.declared.apply.SigstoreApplicationConstraintsError.TheVariants.{OutOfMemory as Memory};

    ghost from_gives = { λ _ e. e ≡ Memory };

    fn from(_error: OutOfMemory) -> SigstoreApplicationConstraintsError {
        SigstoreApplicationConstraintsError::OutOfMemory
    }
}

/// Applies the constraints in order, each to the layer that those before it left. Errors:
///
/// - `Unapplied` with the ascending indices of those that did not apply, if there are any; the layer is what the others
///   left. A constraint whose call fails, except with `OutOfMemory`, did not apply;
/// - `OutOfMemory`: the layer is what the constraints before the failing one left.
pub fn apply_constraints(
    alloc: Global,
    signature_layer: &mut SignatureLayer,
    constraints: &[Box<dyn Constraint>],
) -> Result<(), SigstoreApplicationConstraintsError>
    ensures { IsApplication (λ b l. gives b l) constraints.now (seen_layer signature_layer.old)
        (seen_layer signature_layer.new) result }
{
    apply_all(alloc, signature_layer, constraints)
}

fn apply_all<K: Constraint>(
    alloc: Global,
    layer: &mut SignatureLayer,
    constraints: &[K],
) -> Result<(), SigstoreApplicationConstraintsError>
    ensures { IsApplication (λ c l. K.gives c l) constraints.now (seen_layer layer.old) (seen_layer layer.new)
        result }
{
    let indices = apply_each(alloc, layer, constraints)?;
    if indices.len() == 0 {
        return Ok(());
    }
    Err(SigstoreApplicationConstraintsError::Unapplied(indices))
}

/// Applies each constraint, and returns the indices of those that did not apply. Fails only if out of memory.
fn apply_each<K: Constraint>(
    alloc: Global,
    layer: &mut SignatureLayer,
    constraints: &[K],
) -> Result<Numbers, OutOfMemory>
    ensures indices { IfOk result (λ ns. ns
        ≡ unapplied_from (λ c l. K.gives c l) 0 (seen_layer layer.old) constraints.now) }
    ensures after { OnOk result (seen_layer layer.new
        ≡ applied (λ c l. K.gives c l) (seen_layer layer.old) constraints.now) }
    ensures so_far { OnErr result (IsAppliedUpTo (λ c l. K.gives c l) (seen_layer layer.old) constraints.now
        (seen_layer layer.new)) }
{
    let mut indices = Numbers::new(alloc);
    'constraints: for (index, constraint) in constraints.iter().enumerate() {
        if !apply_one(alloc, layer, constraint)? {
            indices.push(index)?;
        }
    }
    Ok(indices)
}

/// Applies a constraint: whether it applies. Fails only if out of memory, and the layer is then unchanged.
fn apply_one<K: Constraint>(
    alloc: Global,
    layer: &mut SignatureLayer,
    constraint: &K,
) -> Result<bool, OutOfMemory>
    ensures given { IfOk result (λ b. b ≡ is_some (K.gives constraint.now (seen_layer layer.old))) }
    ensures after { OnOk result (seen_layer layer.new
        ≡ after (seen_layer layer.old) (K.gives constraint.now (seen_layer layer.old))) }
    ensures unchanged { OnErr result (seen_layer layer.new ≡ seen_layer layer.old) }
{
    match constraint.add_constraint(alloc, layer) {
        Ok(applies) => Ok(applies),
        Err(SigstoreError::OutOfMemory) => Err(OutOfMemory),
        Err(error) => {
            drop(error);
            Ok(false)
        }
    }
}
