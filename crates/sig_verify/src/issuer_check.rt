//! Whether a certification path leads from a bundle's certificate to a trust anchor, and whether a Certificate
//! Transparency log vouches for the certificate.
ghost use Rattle.std.specs.Prelude.{◌≡◌, ◌≤◌, [], length};
ghost use Rattle.sig_base.specs.Answers.{Answers};
ghost use Rattle.sig_verify.specs.IssuerCheck.{from_sct, issuer_key_hash, key_hash_of, path_start, sct_answer_with};
ghost use Rattle.sig_verify.specs.Verifier.{key_hashes_of};
ghost use Rattle.sig_x509.specs.Pool.{pool_over};

use crate::error::{VerificationError, VerificationResult};
use crate::link_inputs::LinkInputs;
use crate::verifier::Verifier;
use sig_base::{SignatureChecker, sha256};
use sig_checked_bundle::CheckedBundle;
use sig_x509::uncounted::verify_cert_with_chain;
use sig_x509::{
    Certificate, CertificateEmbeddedSCT, CertificatePool, DigitallySigned, Issuer, Keyring,
    SCTError, verify_sct,
};
use std::alloc::Global;

impl Verifier {
    /// The links `issuance` and `issuer`: whether the certificate has the profile of one that is issued, and a
    /// certification path leads from it over the further ones to a trust anchor. Returns the SHA-256 of the
    /// SubjectPublicKeyInfo of the first issuer in such a path. It is one call, since the search for a path checks the
    /// profile first.
    pub(crate) fn check_issuance_and_issuer<P, C: SignatureChecker>(
        &self,
        bundle: &CheckedBundle,
        inputs: &LinkInputs<'_, P, C>,
    ) -> Result<[u8; 32], VerificationError>
        requires few { length bundle.now.further ≤ 16 }
        ensures { Answers VerificationError.OutOfMemory (λ hash. hash) result (issuer_key_hash
            (C.cert_accepts inputs.now.checker.now) (pool_over self.now.anchors bundle.now.further)
            bundle.now.certificate) }
    {
        let leaf = bundle.certificate();
        let further = bundle.further();
        let hashes = self.key_hashes.as_slice();
        issuer_key_hash(
            inputs.alloc,
            &self.pool,
            hashes,
            leaf,
            further,
            inputs.checker,
        )
    }

    /// The link `sct`: whether a Certificate Transparency log vouches for the certificate, whose issuer has a
    /// SubjectPublicKeyInfo of this SHA-256.
    pub(crate) fn check_sct<P, C: SignatureChecker>(
        &self,
        bundle: &CheckedBundle,
        issuer_key_hash: [u8; 32],
        inputs: &LinkInputs<'_, P, C>,
    ) -> VerificationResult
        ensures { Answers VerificationError.OutOfMemory (λ done. done) result (from_sct (sct_answer_with
            (C.point_accepts inputs.now.checker.now) self.now.ring bundle.now.certificate issuer_key_hash)) }
    {
        let leaf = bundle.certificate();
        // A `match`, not `?`: the proof needs what each arm says.
        match judge_sct(
            inputs.alloc,
            leaf,
            issuer_key_hash,
            &self.keyring,
            inputs.checker,
        ) {
            Ok(()) => Ok(()),
            Err(error) => Err(VerificationError::from(error)),
        }
    }
}

/// The SHA-256 of the SubjectPublicKeyInfo of the first issuer in a certification path. The pool has no intermediates
/// of its own, and the hashes are those of its trust anchors.
fn issuer_key_hash<C: SignatureChecker>(
    alloc: Global,
    pool: &CertificatePool,
    hashes: &[[u8; 32]],
    leaf: &Certificate,
    further: &[Certificate],
    checker: &C,
) -> Result<[u8; 32], VerificationError>
    requires alone { pool.now.intermediates ≡ [] }
    requires hashed { hashes.now ≡ key_hashes_of pool.now.anchors }
    requires few { length further.now ≤ 16 }
    ensures { Answers VerificationError.OutOfMemory (λ hash. hash) result
        (issuer_key_hash (C.cert_accepts checker.now) (pool_over pool.now.anchors further.now) leaf.now) }
{
    let issuer = path_start(alloc, pool, leaf, further, checker)?;
    match key_hash_of(hashes, further, issuer) {
        Some(hash) => Ok(hash),
        None => unreachable!(),
    }
}

/// The first issuer in a certification path from the certificate, at the first second of its validity, over the further
/// ones to a trust anchor. The pool has no intermediates of its own.
fn path_start<C: SignatureChecker>(
    alloc: Global,
    pool: &CertificatePool,
    leaf: &Certificate,
    further: &[Certificate],
    checker: &C,
) -> Result<Issuer, VerificationError>
    requires alone { pool.now.intermediates ≡ [] }
    requires few { length further.now ≤ 16 }
    ensures { Answers VerificationError.OutOfMemory (λ issuer. issuer) result
        (path_start (C.cert_accepts checker.now) (pool_over pool.now.anchors further.now) leaf.now) }
{
    let time = leaf.not_before();
    // A `match`, not `?`: the proof needs what each arm says.
    match verify_cert_with_chain(pool, alloc, leaf, further, time, checker) {
        Ok(issuer) => Ok(issuer),
        Err(error) => Err(VerificationError::from(error)),
    }
}

/// The SHA-256 of the SubjectPublicKeyInfo of a trust anchor, by the hashes of all, or of a further certificate.
fn key_hash_of(hashes: &[[u8; 32]], further: &[Certificate], issuer: Issuer) -> Option<[u8; 32]>
    ensures { result ≡ key_hash_of hashes.now further.now issuer }
{
    match issuer {
        Issuer::Anchor(index) => hashes.get(index).copied(),
        Issuer::Intermediate(index) => match further.get(index) {
            Some(certificate) => Some(sha256(certificate.spki())),
            None => None,
        },
    }
}

/// Whether the log of the certificate's SCT vouches for it, if its issuer has a SubjectPublicKeyInfo of this SHA-256.
fn judge_sct<C: SignatureChecker>(
    alloc: Global,
    leaf: &Certificate,
    issuer_key_hash: [u8; 32],
    keyring: &Keyring,
    checker: &C,
) -> Result<(), SCTError>
    ensures { Answers SCTError.OutOfMemory (λ done. done) result
        (sct_answer_with (C.point_accepts checker.now) keyring.now leaf.now issuer_key_hash) }
{
    let embedded = CertificateEmbeddedSCT::new_with_issuer_key_hash(alloc, leaf, issuer_key_hash)?;
    let signed = DigitallySigned::from_embedded(alloc, &embedded)?;
    verify_sct(alloc, &signed, keyring, checker)
}
