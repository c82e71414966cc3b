//! Whether a log vouches for an entry, under a key of the caller's.
ghost use Rattle.std.specs.Prelude.{◌≡◌, option_map};
ghost use Rattle.hex.specs.Hex.{encode_lower};
ghost use Rattle.sig_base.specs.Answers.{Answers};
ghost use Rattle.sig_payload.specs.Bundles.{key_named};
ghost use Rattle.sig_attestation.specs.Vouching.{entry_answer, vouched_under};
ghost use Rattle.sig_key.specs.Key.{key_accepts};
ghost use Rattle.std.specs.Prelude.{IsSome};

use crate::refusal::{log_refusal, unexpected};
use sig_base::{Bytes, Result, SignatureChecker, SigstoreError, Text, UnexpectedKind};
use sig_bundle::TransparencyLogEntry;
use sig_key::{CosignVerificationKey, VerificationKeys};
use sig_verify::vouched;
use std::alloc::Global;

/// Checks that the log of the entry's id vouches for it. Errors, the first that applies: `KeysMissing`, `LogIdMissing`,
/// `RekorPublicKeyNotFoundError`, those of [`vouched`].
pub(crate) fn check_entry<C: SignatureChecker>(
    alloc: Global,
    entry: &TransparencyLogEntry,
    keys: Option<&VerificationKeys>,
    checker: &C,
) -> Result<()>
    ensures { Answers SigstoreError.OutOfMemory (λ done. done) result
        (entry_answer (C.spki_accepts checker.now) (option_map (λ k. k.now) keys.entry) entry.now) }
{
    let Some(keys) = keys else {
        return Err(unexpected(UnexpectedKind::KeysMissing));
    };
    let Some(id) = &entry.log_id else {
        return Err(unexpected(UnexpectedKind::LogIdMissing));
    };
    let key = log_key(alloc, keys, id)?;
    check_vouched(alloc, entry, key, checker)
}

/// The key of the log of this id. Fails with `RekorPublicKeyNotFoundError` and the id in lower-case hexadecimal if
/// there is not one.
fn log_key<'k>(
    alloc: Global,
    keys: &'k VerificationKeys,
    id: &Bytes,
) -> Result<&'k CosignVerificationKey>
    ensures { Answers SigstoreError.OutOfMemory (λ key. key.now) result (key_named keys.now (encode_lower id.now)) }
{
    let name = Text::from(hex::encode(alloc, id.as_slice())?);
    match keys.get(name.as_str()) {
        Some(key) => {
            drop(name);
            Ok(key)
        }
        None => Err(SigstoreError::RekorPublicKeyNotFoundError(name)),
    }
}

/// Checks that the log of this key vouches for the entry, as [`vouched`].
fn check_vouched<C: SignatureChecker>(
    alloc: Global,
    entry: &TransparencyLogEntry,
    key: &CosignVerificationKey,
    checker: &C,
) -> Result<()>
    requires { IsSome entry.now.log_id }
    ensures { Answers SigstoreError.OutOfMemory (λ done. done) result
        (vouched_under (key_accepts (C.spki_accepts checker.now) key.now) entry.now) }
{
    match vouched(alloc, entry, key, checker) {
        Ok(logged) => {
            drop(logged);
            Ok(())
        }
        Err(error) => Err(log_refusal(error)),
    }
}
