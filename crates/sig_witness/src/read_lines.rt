//! What the lines of an origin say.
ghost use Rattle.std.specs.Prelude.{◌≡◌, ◌≢◌, ◌<◌, ◌^◌, ℕ, None, IfOk, IfErr, length, decimal};
ghost use Rattle.std.specs.Cmp.Lexicographic.{slice_cmp};
ghost use Rattle.std.specs.Ordering.{nat_cmp};
ghost use Rattle.sig_base.specs.Answers.{OrMemory};
ghost use Rattle.sig_base.specs.Base64.{base64_bytes};
ghost use Rattle.sig_base.specs.Scheme.{name_of, scheme_of};
ghost use Rattle.sig_base.specs.declared.scheme.VerifyScheme.{VerifyScheme as Verify};
ghost use Rattle.sig_witness.specs.StateCauses.{IsHashLine, IsLinesFault};
ghost use Rattle.sig_witness.specs.StateRead.{IsBase64Of, IsHeadFault, IsHeadOf, IsKeyFault, IsKeyOf, IsLogOf};

use crate::kept_log::KeptLog;
use crate::state_error::StateError;
use crate::state_lines::StateLines;
use itoa::Buffer;
use sig_audit::{Chain, ChainHead};
use sig_base::laws::{are_bytes, are_owned_bytes};
use sig_base::{Bytes, Hashes, SigningScheme};
use sig_key::CosignVerificationKey;
use sig_merkle::empty_root;
use std::alloc::Global;
use std::cmp::Ordering;

/// Returns the log that lines say, after those of the origin `before`. Fails with the first condition that does not
/// hold, or with `OutOfMemory`.
#[tactic(auto, using(crate::proofs::ReadLines::log_faults))]
pub(crate) fn read_log(
    alloc: Global,
    before: &[u8],
    lines: &StateLines<'_>,
) -> Result<KeptLog, StateError>
    ensures ok { IfOk result (λ log. IsLogOf before.now lines.now log) }
    ensures err { IfErr result (λ e. OrMemory StateError.OutOfMemory e (IsLinesFault before.now lines.now e)) }
{
    let Ordering::Less = order(before, lines) else {
        return Err(StateError::Origin);
    };
    let key = read_key(alloc, lines)?;
    let head = read_head(alloc, lines)?;
    let mut chain = Chain::new(alloc);
    chain.push(head)?;
    Ok(KeptLog { key, chain })
}

/// Compares bytes with those of an origin.
fn order(before: &[u8], lines: &StateLines<'_>) -> Ordering
    ensures { result ≡ slice_cmp nat_cmp before.now lines.now.origin }
{
    before.cmp(lines.origin.as_bytes())
}

/// Returns the key that the second and the third line say.
fn read_key(alloc: Global, lines: &StateLines<'_>) -> Result<CosignVerificationKey, StateError>
    ensures ok { IfOk result (IsKeyOf lines.now) }
    ensures err { IfErr result (λ e. OrMemory StateError.OutOfMemory e (IsKeyFault lines.now e)) }
{
    let scheme = read_scheme(lines.scheme)?;
    let bytes = read_base64(alloc, lines.key, StateError::Key)?;
    match CosignVerificationKey::from_der(alloc, bytes.as_slice(), &scheme) {
        Ok(key) => Ok(key),
        Err(_) => Err(StateError::OutOfMemory),
    }
}

/// Returns the scheme of a name.
fn read_scheme(line: &str) -> Result<SigningScheme, StateError>
    ensures ok { IfOk result (λ scheme. name_of (scheme_of scheme) ≡ line.now) }
    ensures err { IfErr result (λ e. (e ≡ StateError.Scheme) × ((scheme : Verify) → name_of scheme ≢ line.now)) }
{
    match SigningScheme::try_from(line) {
        Ok(scheme) => Ok(scheme),
        Err(_) => Err(StateError::Scheme),
    }
}

/// Returns the bytes of a line in base64.
fn read_base64(alloc: Global, line: &str, cause: StateError) -> Result<Bytes, StateError>
    ensures ok { IfOk result (λ bytes. IsBase64Of line.now bytes) }
    ensures err { IfErr result (λ e. OrMemory StateError.OutOfMemory e ((e ≡ cause) × (base64_bytes line.now ≡ None))) }
{
    are_bytes(line.as_bytes());
    match Bytes::of_base64(alloc, line.as_bytes())? {
        Some(bytes) => {
            // So is what it decodes to.
            are_owned_bytes(&bytes);
            Ok(bytes)
        }
        None => Err(cause),
    }
}

/// Returns the head that the fourth and the fifth line say, without hashes.
fn read_head(alloc: Global, lines: &StateLines<'_>) -> Result<ChainHead, StateError>
    ensures ok { IfOk result (λ head. IsHeadOf lines.now head) }
    ensures err { IfErr result (λ e. OrMemory StateError.OutOfMemory e (IsHeadFault lines.now e)) }
{
    let size = read_size(lines.size)?;
    let hash = read_hash(alloc, lines.hash)?;
    if size == 0 && hash != empty_root() {
        return Err(StateError::Root);
    }
    Ok(ChainHead {
        size,
        hash,
        hashes: Hashes::new(alloc),
    })
}

/// Returns the number that a line is in decimal, without leading zeros.
fn read_size(line: &str) -> Result<u64, StateError>
    ensures ok { IfOk result (λ size. (size < 2 ^ 64) × (line.now ≡ decimal size)) }
    ensures err { IfErr result (λ e. (e ≡ StateError.Size) × ((size : ℕ) → size < 2 ^ 64 → line.now ≢ decimal size)) }
{
    let Ok(size) = line.parse::<u64>() else {
        return Err(StateError::Size);
    };
    if Buffer::new().format(size) != line {
        return Err(StateError::Size);
    }
    Ok(size)
}

/// Returns the 32 bytes of a line in base64.
fn read_hash(alloc: Global, line: &str) -> Result<[u8; 32], StateError>
    ensures ok { IfOk result (λ hash. IsBase64Of line.now hash × (length hash ≡ 32)) }
    ensures err { IfErr result (λ e. OrMemory StateError.OutOfMemory e ((e ≡ StateError.Hash) × ¬ IsHashLine line.now)) }
{
    let bytes = read_base64(alloc, line, StateError::Hash)?;
    match <[u8; 32]>::try_from(bytes.as_slice()) {
        Ok(hash) => Ok(hash),
        Err(_) => Err(StateError::Hash),
    }
}
