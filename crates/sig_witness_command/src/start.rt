//! The witness that a request starts from: its state, to which its origins are added.
ghost use Rattle.std.specs.Prelude.{◌≡◌, IfOk, MatchOption};
ghost use Rattle.sig_base.specs.Scheme.{scheme_of};
ghost use Rattle.sig_key.specs.Key.{key_info, key_scheme};
ghost use Rattle.sig_witness_command.specs.Start.{AreAdding, HasNoStart, IsAdding, IsStart};

use crate::request::{OriginKey, WitnessRequest};
use sig_base::{OutOfMemory, SigstoreError};
use sig_key::CosignVerificationKey;
use sig_witness::{StateError, Witness, WitnessError};
use std::alloc::Global;

/// Returns the witness of a request's state, to which each origin was added in order; `None` if and only if the state
/// is not one, or an origin is not a line or is there already. Fails only if out of memory.
pub fn start_of(alloc: Global, request: &WitnessRequest) -> Result<Option<Witness>, OutOfMemory>
    ensures { IfOk result (λ found. MatchOption found (HasNoStart request.now) (IsStart request.now)) }
{
    let mut witness = match Witness::decode(alloc, request.state.as_str()) {
        Ok(witness) => witness,
        Err(StateError::OutOfMemory) => return Err(OutOfMemory),
        Err(_) => return Ok(None),
    };
    if add_all(alloc, &mut witness, request.origins.as_slice())? {
        return Ok(Some(witness));
    }
    drop(witness);
    Ok(None)
}

/// Adds origins one after another; `false` if and only if one cannot be added. Fails only if out of memory.
#[tactic(auto, using(crate::proofs::Starts::adding))]
fn add_all(alloc: Global, witness: &mut Witness, origins: &[OriginKey]) -> Result<bool, OutOfMemory>
    ensures { IfOk result (AreAdding witness.old origins.now witness.new) }
{
    'origins: for one in origins {
        if !add_one(alloc, witness, one)? {
            return Ok(false);
        }
    }
    Ok(true)
}

/// Adds an origin with its key; `false` if and only if it cannot be added. Fails only if out of memory.
pub fn add_one(alloc: Global, witness: &mut Witness, one: &OriginKey) -> Result<bool, OutOfMemory>
    ensures { IfOk result (IsAdding witness.old one.now witness.new) }
{
    let key = key_of(alloc, one)?;
    match witness.add_origin(one.origin.as_str(), key) {
        Ok(()) => Ok(true),
        Err(WitnessError::OutOfMemory) => Err(OutOfMemory),
        Err(_) => Ok(false),
    }
}

/// The log's key under its scheme.
fn key_of(alloc: Global, one: &OriginKey) -> Result<CosignVerificationKey, OutOfMemory>
    ensures scheme { IfOk result (λ key. key_scheme key ≡ scheme_of one.now.scheme) }
    ensures info { IfOk result (λ key. key_info key ≡ one.now.key) }
{
    match CosignVerificationKey::from_der(alloc, one.key.as_slice(), &one.scheme) {
        Ok(key) => Ok(key),
        Err(SigstoreError::OutOfMemory) => Err(OutOfMemory),
        Err(_) => unreachable!(),
    }
}
