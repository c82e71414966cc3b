//! The audit of a request's heads and watched entries under the request's own key and table of accepted signatures.
ghost use Rattle.std.specs.Prelude.{◌≡◌, IfErr, IfOk};
ghost use Rattle.sig_audit.specs.Faults.{IsAuditAnswer};
ghost use Rattle.sig_audit_command.specs.Heads.{accepts};
ghost use Rattle.sig_base.specs.Answers.{UnlessMemory};
ghost use Rattle.sig_base.specs.Scheme.{scheme_of};
ghost use Rattle.sig_key.specs.Key.{key_info, key_scheme};

use sig_audit::{AuditError, Heads, audit};
use sig_base::{OutOfMemory, SigstoreError};
use sig_key::CosignVerificationKey;
use sig_request::AuditRequest;
use std::alloc::Global;

/// The size of the last head, or the first fault of the audit.
pub fn audit_of(alloc: Global, request: &AuditRequest, heads: &Heads) -> Result<u64, AuditError>
    ensures { UnlessMemory AuditError.OutOfMemory result
        (IsAuditAnswer (accepts request.now) heads.now request.now.watched result) }
{
    let key = key_of(alloc, request)?;
    let answer = audit(alloc, heads, &request.watched, &key, &request.accepted);
    drop(key);
    answer
}

/// The log's key under its scheme.
fn key_of(alloc: Global, request: &AuditRequest) -> Result<CosignVerificationKey, OutOfMemory>
    ensures scheme { IfOk result (λ key. key_scheme key ≡ scheme_of request.now.scheme) }
    ensures info { IfOk result (λ key. key_info key ≡ request.now.key) }
{
    match CosignVerificationKey::from_der(alloc, request.key.as_slice(), &request.scheme) {
        Ok(key) => Ok(key),
        Err(SigstoreError::OutOfMemory) => Err(OutOfMemory),
        Err(_) => unreachable!(),
    }
}
