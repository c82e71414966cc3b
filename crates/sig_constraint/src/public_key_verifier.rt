//! `PublicKeyVerifier`: the key that a layer has to be signed by.

ghost use Rattle.std.specs.Prelude.{◌≡◌, IfOk, IsOk, IsOkUnless, Err};
ghost use Rattle.sig_base.specs.Answers.{ComesWhere, UnlessMemory};
ghost use Rattle.sig_base.specs.Scheme.{scheme_of};
ghost use Rattle.sig_base.specs.declared.error.SigstoreError.TheVariants.{KeyParsingError, OutOfMemory as Memory};
ghost use Rattle.sig_base.specs.declared.error.SigstoreError.TheVariants.{PublicKeyUnsupportedAlgorithmError};
ghost use Rattle.sig_base.specs.declared.scheme.VerifyScheme.{VerifyScheme as Scheme};
ghost use Rattle.sig_key.specs.Spki.{IsKeyOf, IsNoKeyInfo, IsUnsupported};
ghost use Rattle.sig_cosign.specs.Layer.{Layer, seen_layer};
ghost use Rattle.sig_cosign.specs.Signed.{is_signed_by};
ghost use Rattle.sig_constraint.specs.Keyed.{IsKeyVerifier, IsSpkiVerifier};
ghost use Rattle.sig_constraint.specs.CallResults.{IsVerdict};

use crate::constraint::VerificationConstraint;
use sig_base::{Result, SignatureChecker, SigningScheme};
use sig_cosign::SignatureLayer;
use sig_key::CosignVerificationKey;
use std::alloc::Global;

/// Requires that a layer is signed by a key.
#[derive(Drop)]
pub struct PublicKeyVerifier<C> {
    key: CosignVerificationKey,
    checker: C,
}

impl<C: SignatureChecker + Drop> PublicKeyVerifier<C> {
    /// Returns the constraint that a layer is signed by the key of this scheme with this DER, whatever it holds. Fails
    /// only if out of memory.
    pub fn new(
        alloc: Global,
        key_der: &[u8],
        signing_scheme: &SigningScheme,
        checker: C,
    ) -> Result<PublicKeyVerifier<C>>
        ensures made { IfOk result (λ v. IsKeyVerifier (C.spki_accepts checker) (scheme_of signing_scheme.now)
            key_der.now (⟦<PublicKeyVerifier<C> as VerificationConstraint>⟧.holds v)) }
        ensures only_memory { IsOkUnless result Memory }
    {
        let key = CosignVerificationKey::from_der(alloc, key_der, signing_scheme)?;
        Ok(PublicKeyVerifier { key, checker })
    }

    /// Returns the constraint that a layer is signed by the key of this SPKI (DER). Errors, those of
    /// [`CosignVerificationKey::try_from_der`]:
    ///
    /// - `KeyParsingError` if and only if the bytes are not an SPKI;
    /// - `PublicKeyUnsupportedAlgorithmError` if and only if they are one, and its algorithm is not supported;
    /// - `OutOfMemory`.
    pub fn try_from_der(alloc: Global, key_der: &[u8], checker: C) -> Result<PublicKeyVerifier<C>>
        ensures made { IfOk result (λ v. IsSpkiVerifier (C.spki_accepts checker) key_der.now
            (⟦<PublicKeyVerifier<C> as VerificationConstraint>⟧.holds v)) }
        ensures supported { (scheme : Scheme) → IsKeyOf key_der.now scheme → UnlessMemory Memory result (IsOk result) }
        ensures malformed { ComesWhere Memory result (Err KeyParsingError) (IsNoKeyInfo key_der.now) }
        ensures unsupported { ComesWhere Memory result (Err PublicKeyUnsupportedAlgorithmError)
            (IsUnsupported key_der.now) }
    {
        let key = CosignVerificationKey::try_from_der(alloc, key_der)?;
        Ok(PublicKeyVerifier { key, checker })
    }
}

impl<C: SignatureChecker + Drop> VerificationConstraint for PublicKeyVerifier<C> {
    ghost holds = { λ v l. is_signed_by (C.spki_accepts v.checker) v.key l };

    /// Whether the layer is signed by the key, as [`SignatureLayer::is_signed_by_key`] says. Fails only if out of
    /// memory.
    fn verify(&self, alloc: Global, signature_layer: &SignatureLayer) -> Result<bool>
        ensures verdict { IsVerdict (is_signed_by (C.spki_accepts self.now.checker) self.now.key
            (seen_layer signature_layer.now)) result }
        ensures only_memory { IsOkUnless result Memory }
    {
        signature_layer.is_signed_by_key(alloc, &self.key, &self.checker)
    }
}
