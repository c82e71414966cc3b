//! The search for an issuer, for a caller that counts no questions.

ghost use Rattle.std.specs.Prelude.{◌≡◌, ◌<◌, ◌≤◌, length, Ok, Err};
ghost use Rattle.sig_base.specs.Answers.{Answers, ComesWhere};
ghost use Rattle.sig_certificate.specs.Certificate.{Cert, IsCertificate};
ghost use Rattle.sig_x509.specs.Issuance.{Accepts};
ghost use Rattle.sig_x509.specs.Issued.{HasProfile};
ghost use Rattle.sig_x509.specs.Path.{IsFirstInPath, HasNoPath, AgreeOnPaths};
ghost use Rattle.sig_x509.specs.PathSearch.{path_issuer};
ghost use Rattle.sig_x509.specs.PathText.{HasNoProfile, IsIssuedText, IsJudgedText, IsUnissuedText};
ghost use Rattle.sig_x509.specs.Pool.{with_further};
ghost use Rattle.sig_x509.specs.declared.issuer.Issuer.{Issuer};

use crate::issuer::Issuer;
use crate::pool::CertificatePool;
use sig_base::{PoolError, SignatureChecker, Steps};
use sig_certificate::Certificate;
use std::alloc::Global;
use std::marker::Brand;
use std::sync::ledger::{Blank, Ledger};

/// Returns what the method `verify_cert_with_chain` of the pool returns, with the same errors.
pub fn verify_cert_with_chain<C: SignatureChecker>(
    pool: &CertificatePool,
    alloc: Global,
    leaf: &Certificate,
    further: &[Certificate],
    verification_time: i64,
    checker: &C,
) -> Result<Issuer, PoolError>
    requires few { length further.now ≤ 16 }
    ensures issued { (issuer : Issuer) → ComesWhere PoolError.OutOfMemory result (Ok issuer)
        (HasProfile leaf.now × IsFirstInPath (C.cert_accepts checker.now) (with_further pool.now further.now) leaf.now verification_time issuer) }
    ensures malformed { ComesWhere PoolError.OutOfMemory result (Err PoolError.Malformed) (HasProfile leaf.now → ⊥) }
    ensures none { ComesWhere PoolError.OutOfMemory result (Err PoolError.VerificationFailed)
        (HasProfile leaf.now × HasNoPath (C.cert_accepts checker.now) (with_further pool.now further.now) leaf.now verification_time) }
    ensures asked { (other : Accepts) → AgreeOnPaths (C.cert_accepts checker.now) other (with_further pool.now further.now) leaf.now verification_time
        → Answers PoolError.OutOfMemory (λ issuer. issuer) result
        (path_issuer other (with_further pool.now further.now) leaf.now verification_time) }
    ensures exact { Answers PoolError.OutOfMemory (λ issuer. issuer) result
        (path_issuer (C.cert_accepts checker.now) (with_further pool.now further.now) leaf.now verification_time) }
{
    let blank = Blank::new(1);
    chain_on::<C, Brand>(
        blank,
        pool,
        alloc,
        leaf,
        further,
        verification_time,
        checker,
    )
}

/// The search over a ledger of its own.
fn chain_on<C: SignatureChecker, L: Ledger>(
    blank: Blank,
    pool: &CertificatePool,
    alloc: Global,
    leaf: &Certificate,
    further: &[Certificate],
    verification_time: i64,
    checker: &C,
) -> Result<Issuer, PoolError>
    requires name { blank.name ≡ L.name }
    requires parts { blank.parts ≡ L.parts }
    requires some { 0 < blank.parts }
    ensures exact { Answers PoolError.OutOfMemory (λ issuer. issuer) result
        (path_issuer (C.cert_accepts checker.now) (with_further pool.now further.now) leaf.now verification_time) }
{
    let mut steps = Steps::<L>::new(blank);
    pool.find_issuer(alloc, leaf, further, verification_time, checker, &mut steps)
}

/// Returns what the method `verify_cert_with_time` of the pool returns, with the same errors.
pub fn verify_cert_with_time<C: SignatureChecker>(
    pool: &CertificatePool,
    alloc: Global,
    leaf: &Certificate,
    verification_time: i64,
    checker: &C,
) -> Result<Issuer, PoolError>
    ensures issued { (issuer : Issuer) → ComesWhere PoolError.OutOfMemory result (Ok issuer)
        (HasProfile leaf.now × IsFirstInPath (C.cert_accepts checker.now) pool.now leaf.now verification_time issuer) }
    ensures malformed { ComesWhere PoolError.OutOfMemory result (Err PoolError.Malformed) (HasProfile leaf.now → ⊥) }
    ensures none { ComesWhere PoolError.OutOfMemory result (Err PoolError.VerificationFailed)
        (HasProfile leaf.now × HasNoPath (C.cert_accepts checker.now) pool.now leaf.now verification_time) }
    ensures asked { (other : Accepts) → AgreeOnPaths (C.cert_accepts checker.now) other pool.now leaf.now verification_time
        → Answers PoolError.OutOfMemory (λ issuer. issuer) result
        (path_issuer other pool.now leaf.now verification_time) }
    ensures exact { Answers PoolError.OutOfMemory (λ issuer. issuer) result
        (path_issuer (C.cert_accepts checker.now) pool.now leaf.now verification_time) }
{
    let blank = Blank::new(1);
    time_on::<C, Brand>(blank, pool, alloc, leaf, verification_time, checker)
}

/// The search over a ledger of its own.
fn time_on<C: SignatureChecker, L: Ledger>(
    blank: Blank,
    pool: &CertificatePool,
    alloc: Global,
    leaf: &Certificate,
    verification_time: i64,
    checker: &C,
) -> Result<Issuer, PoolError>
    requires name { blank.name ≡ L.name }
    requires parts { blank.parts ≡ L.parts }
    requires some { 0 < blank.parts }
    ensures exact { Answers PoolError.OutOfMemory (λ issuer. issuer) result
        (path_issuer (C.cert_accepts checker.now) pool.now leaf.now verification_time) }
{
    let mut steps = Steps::<L>::new(blank);
    pool.verify_cert_with_time(alloc, leaf, verification_time, checker, &mut steps)
}

/// Returns what the method `verify_der_cert` of the pool returns, with the same errors.
pub fn verify_der_cert<C: SignatureChecker>(
    pool: &CertificatePool,
    alloc: Global,
    der: &[u8],
    verification_time: i64,
    checker: &C,
) -> Result<Issuer, PoolError>
    ensures issued { (issuer : Issuer) → ComesWhere PoolError.OutOfMemory result (Ok issuer)
        (IsIssuedText (C.cert_accepts checker.now) pool.now der.now verification_time issuer) }
    ensures malformed { ComesWhere PoolError.OutOfMemory result (Err PoolError.Malformed) (HasNoProfile der.now) }
    ensures none { ComesWhere PoolError.OutOfMemory result (Err PoolError.VerificationFailed)
        (IsUnissuedText (C.cert_accepts checker.now) pool.now der.now verification_time) }
    ensures asked { (other : Accepts) (c : Cert) → IsCertificate der.now c
        → AgreeOnPaths (C.cert_accepts checker.now) other pool.now c verification_time
        → Answers PoolError.OutOfMemory (λ issuer. issuer) result (path_issuer other pool.now c verification_time) }
    ensures certificate { (c : Cert) → IsCertificate der.now c
        → Answers PoolError.OutOfMemory (λ issuer. issuer) result
        (path_issuer (C.cert_accepts checker.now) pool.now c verification_time) }
{
    let blank = Blank::new(1);
    der_on::<C, Brand>(blank, pool, alloc, der, verification_time, checker)
}

/// The search over a ledger of its own.
fn der_on<C: SignatureChecker, L: Ledger>(
    blank: Blank,
    pool: &CertificatePool,
    alloc: Global,
    der: &[u8],
    verification_time: i64,
    checker: &C,
) -> Result<Issuer, PoolError>
    requires name { blank.name ≡ L.name }
    requires parts { blank.parts ≡ L.parts }
    requires some { 0 < blank.parts }
    ensures judged { IsJudgedText (C.cert_accepts checker.now) pool.now der.now verification_time result }
{
    let mut steps = Steps::<L>::new(blank);
    pool.check_der(alloc, der, verification_time, checker, &mut steps)
}
