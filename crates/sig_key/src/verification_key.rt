//! `CosignVerificationKey`: a key that checks signatures.
ghost use Rattle.std.specs.Prelude.{◌≡◌, IfOk, IsOkUnless, Ok, Err};
ghost use Rattle.sig_base.specs.Answers.{Answers, ComesWhere};
ghost use Rattle.sig_base.specs.Scheme.{scheme_of};
ghost use Rattle.sig_base.specs.declared.error.SigstoreError.TheVariants.{KeyParsingError, OutOfMemory as Memory};
ghost use Rattle.sig_base.specs.declared.error.SigstoreError.TheVariants.{PublicKeyUnsupportedAlgorithmError};
ghost use Rattle.sig_base.specs.declared.scheme.VerifyScheme.{VerifyScheme as Scheme};
ghost use Rattle.sig_key.specs.Key.{key_scheme, key_info, key_accepts, check_answer};
ghost use Rattle.sig_key.specs.Signature.{signature_bytes, text_bytes, IsRaw};
ghost use Rattle.sig_key.specs.declared.kind.KeyKind.{KeyKind as Kind};
ghost use Rattle.sig_key.specs.Kind.{key_kind, key_parts, kind_answer, IsKind};
ghost use Rattle.sig_key.specs.Spki.{IsKeyOf, IsNoKeyInfo, IsUnsupported};

use crate::kind::{KeyKind, key_kind};
use crate::signature::{Signature, decode_text};
use sig_base::{Bytes, Result, SignatureChecker, SigningScheme, SigstoreError, VerifyScheme};
use std::alloc::Global;

/// A key that checks signatures: the scheme, over the DER of its SubjectPublicKeyInfo (SPKI, RFC 5280 section
/// 4.1.2.7).
#[allow(non_camel_case_types)]
#[derive(Drop)]
pub enum CosignVerificationKey {
    /// RSA with PSS padding and SHA-256.
    RSA_PSS_SHA256(Bytes),
    /// RSA with PKCS1 padding and SHA-256.
    RSA_PKCS1_SHA256(Bytes),
    /// ECDSA over P-256 with SHA-256, signatures in DER.
    ECDSA_P256_SHA256_ASN1(Bytes),
    /// ECDSA over P-384 with SHA-384, signatures in DER.
    ECDSA_P384_SHA384_ASN1(Bytes),
    /// ECDSA over P-521 with SHA-512, signatures in DER.
    ECDSA_P521_SHA512_ASN1(Bytes),
    /// Ed25519.
    ED25519(Bytes),
}

impl CosignVerificationKey {
    /// Returns the key of this scheme with a copy of this DER, whatever it holds. Fails only if out of memory.
    pub fn from_der(
        alloc: Global,
        der: &[u8],
        signing_scheme: &SigningScheme,
    ) -> Result<CosignVerificationKey>
        ensures scheme { IfOk result (λ key. key_scheme key ≡ scheme_of signing_scheme.now) }
        ensures info { IfOk result (λ key. key_info key ≡ der.now) }
        ensures only_memory { IsOkUnless result Memory }
    {
        let spki = Bytes::copy_of(alloc, der)?;
        Ok(CosignVerificationKey::with_scheme(spki, signing_scheme.scheme()))
    }

    /// Returns the key of an SPKI, by its kind ([`key_kind`]). Errors:
    /// - `KeyParsingError` if and only if the bytes are not an SPKI;
    /// - `PublicKeyUnsupportedAlgorithmError` if and only if they are one, and its algorithm is neither RSA nor
    ///   Ed25519, nor id-ecPublicKey with the object identifier of P-256, P-384 or P-521 as its parameters;
    /// - `OutOfMemory`.
    pub fn try_from_der(alloc: Global, der: &[u8]) -> Result<CosignVerificationKey>
        // A key of the scheme that the algorithm, and for an elliptic curve key its curve, is of; and no other.
        ensures found { IfOk result (λ key. IsKeyOf der.now (key_scheme key) × (key_info key ≡ der.now)) }
        ensures supported { (scheme : Scheme) → IsKeyOf der.now scheme → Answers Memory key_parts result
            (Ok (scheme, der.now)) }
        ensures malformed { ComesWhere Memory result (Err KeyParsingError) (IsNoKeyInfo der.now) }
        ensures unsupported { ComesWhere Memory result (Err PublicKeyUnsupportedAlgorithmError)
            (IsUnsupported der.now) }
        // The same by the kind.
        ensures answer { Answers Memory key_parts result (kind_answer der.now (key_kind der.now)) }
        ensures kind { IsKind der.now (key_kind der.now) }
        ensures only { (kind : Kind) → IsKind der.now kind → kind ≡ key_kind der.now }
    {
        CosignVerificationKey::of_kind(alloc, der)
    }

    /// Returns the key of an SPKI by its kind.
    fn of_kind(alloc: Global, der: &[u8]) -> Result<CosignVerificationKey>
        ensures answer { Answers Memory key_parts result (kind_answer der.now (key_kind der.now)) }
        ensures kind { IsKind der.now (key_kind der.now) }
        ensures only { (kind : Kind) → IsKind der.now kind → kind ≡ key_kind der.now }
    {
        match key_kind(der) {
            KeyKind::NoKeyInfo => Err(SigstoreError::KeyParsingError),
            KeyKind::Unsupported => Err(SigstoreError::PublicKeyUnsupportedAlgorithmError),
            KeyKind::Scheme(scheme) => {
                let spki = Bytes::copy_of(alloc, der)?;
                Ok(CosignVerificationKey::with_scheme(spki, scheme))
            }
        }
    }

    /// The same as [`CosignVerificationKey::try_from_der`], as the crate names it for the SPKI of a certificate.
    pub fn try_from_spki(alloc: Global, spki: &[u8]) -> Result<CosignVerificationKey>
        // A key of the scheme that the algorithm, and for an elliptic curve key its curve, is of; and no other.
        ensures found { IfOk result (λ key. IsKeyOf spki.now (key_scheme key) × (key_info key ≡ spki.now)) }
        ensures supported { (scheme : Scheme) → IsKeyOf spki.now scheme → Answers Memory key_parts result
            (Ok (scheme, spki.now)) }
        ensures malformed { ComesWhere Memory result (Err KeyParsingError) (IsNoKeyInfo spki.now) }
        ensures unsupported { ComesWhere Memory result (Err PublicKeyUnsupportedAlgorithmError)
            (IsUnsupported spki.now) }
        // The same by the kind.
        ensures answer { Answers Memory key_parts result (kind_answer spki.now (key_kind spki.now)) }
        ensures kind { IsKind spki.now (key_kind spki.now) }
        ensures only { (kind : Kind) → IsKind spki.now kind → kind ≡ key_kind spki.now }
    {
        CosignVerificationKey::try_from_der(alloc, spki)
    }

    /// Returns the key of this scheme over the DER.
    fn with_scheme(spki: Bytes, scheme: VerifyScheme) -> CosignVerificationKey
        ensures scheme { key_scheme result ≡ scheme }
        ensures info { key_info result ≡ spki }
    {
        match scheme {
            VerifyScheme::RSA_PSS_SHA256 => CosignVerificationKey::RSA_PSS_SHA256(spki),
            VerifyScheme::RSA_PKCS1_SHA256 => CosignVerificationKey::RSA_PKCS1_SHA256(spki),
            VerifyScheme::ECDSA_P256_SHA256_ASN1 => CosignVerificationKey::ECDSA_P256_SHA256_ASN1(
                spki,
            ),
            VerifyScheme::ECDSA_P384_SHA384_ASN1 => CosignVerificationKey::ECDSA_P384_SHA384_ASN1(
                spki,
            ),
            VerifyScheme::ECDSA_P521_SHA512_ASN1 => CosignVerificationKey::ECDSA_P521_SHA512_ASN1(
                spki,
            ),
            VerifyScheme::ED25519 => CosignVerificationKey::ED25519(spki),
        }
    }

    /// Returns the scheme that signatures are checked under.
    pub fn scheme(&self) -> VerifyScheme
        ensures { result ≡ key_scheme self.now }
    {
        match self {
            CosignVerificationKey::RSA_PSS_SHA256(_) => VerifyScheme::RSA_PSS_SHA256,
            CosignVerificationKey::RSA_PKCS1_SHA256(_) => VerifyScheme::RSA_PKCS1_SHA256,
            CosignVerificationKey::ECDSA_P256_SHA256_ASN1(_) =>
                VerifyScheme::ECDSA_P256_SHA256_ASN1,
            CosignVerificationKey::ECDSA_P384_SHA384_ASN1(_) =>
                VerifyScheme::ECDSA_P384_SHA384_ASN1,
            CosignVerificationKey::ECDSA_P521_SHA512_ASN1(_) =>
                VerifyScheme::ECDSA_P521_SHA512_ASN1,
            CosignVerificationKey::ED25519(_) => VerifyScheme::ED25519,
        }
    }

    /// Returns the DER of the SPKI.
    pub fn spki(&self) -> &[u8]
        ensures { result.now ≡ key_info self.now }
    {
        match self {
            CosignVerificationKey::RSA_PSS_SHA256(spki) => spki.as_slice(),
            CosignVerificationKey::RSA_PKCS1_SHA256(spki) => spki.as_slice(),
            CosignVerificationKey::ECDSA_P256_SHA256_ASN1(spki) => spki.as_slice(),
            CosignVerificationKey::ECDSA_P384_SHA384_ASN1(spki) => spki.as_slice(),
            CosignVerificationKey::ECDSA_P521_SHA512_ASN1(spki) => spki.as_slice(),
            CosignVerificationKey::ED25519(spki) => spki.as_slice(),
        }
    }

    /// Whether the checker accepts `signature` over `msg` as this key's. It takes no memory. The checker is asked
    /// once: one that hashes the message hashes it in each call.
    pub fn accepts<C: SignatureChecker>(&self, signature: &[u8], msg: &[u8], checker: &C) -> bool
        ensures { result ≡ key_accepts (C.spki_accepts checker.now) self.now msg.now signature.now }
    {
        checker.verify_spki(self.scheme(), self.spki(), msg, signature)
    }

    /// Checks that `signature` over `msg` is this key's. A raw signature is checked in place, without memory. A
    /// checker that hashes the message hashes it in each call: for many signatures over one long message,
    /// [`CosignVerificationKey::verify_prehash`] takes its digest. Errors:
    /// - `Base64DecodeError`: the signature's text has no bytes, as [`Signature::decode_bytes`] says;
    /// - `PublicKeyVerificationError`: the checker does not accept them;
    /// - `OutOfMemory`, only for a text.
    pub fn verify_signature<C: SignatureChecker>(
        &self,
        alloc: Global,
        signature: Signature<'_>,
        msg: &[u8],
        checker: &C,
    ) -> Result<()>
        ensures answer { Answers Memory (λ x. x) result
            (check_answer (key_accepts (C.spki_accepts checker.now) self.now msg.now)
            (signature_bytes signature.entry)) }
        ensures raw { IsRaw signature.entry → result
            ≡ check_answer (key_accepts (C.spki_accepts checker.now) self.now msg.now)
            (signature_bytes signature.entry) }
    {
        match signature {
            Signature::Raw(bytes) => self.check(bytes, msg, checker),
            Signature::Base64Encoded(text) => {
                let bytes = decode_text(alloc, text)?;
                self.check(bytes.as_slice(), msg, checker)
            }
        }
    }

    /// Checks that `signature` over the message of the digest `msg` is this key's. A raw signature is checked in
    /// place, without memory. Errors:
    /// - `Base64DecodeError`: the signature's text has no bytes, as [`Signature::decode_bytes`] says;
    /// - `PublicKeyVerificationError`: the checker does not accept them;
    /// - `OutOfMemory`, only for a text.
    pub fn verify_prehash<C: SignatureChecker>(
        &self,
        alloc: Global,
        signature: Signature<'_>,
        msg: &[u8],
        checker: &C,
    ) -> Result<()>
        ensures answer { Answers Memory (λ x. x) result
            (check_answer (key_accepts (C.prehash_accepts checker.now) self.now msg.now)
            (signature_bytes signature.entry)) }
        ensures raw { IsRaw signature.entry → result
            ≡ check_answer (key_accepts (C.prehash_accepts checker.now) self.now msg.now)
            (signature_bytes signature.entry) }
    {
        match signature {
            Signature::Raw(bytes) => self.check_prehash(bytes, msg, checker),
            Signature::Base64Encoded(text) => {
                let bytes = decode_text(alloc, text)?;
                self.check_prehash(bytes.as_slice(), msg, checker)
            }
        }
    }

    /// Checks the bytes of a signature over the message of a digest.
    fn check_prehash<C: SignatureChecker>(
        &self,
        signature: &[u8],
        digest: &[u8],
        checker: &C,
    ) -> Result<()>
        ensures { result ≡ check_answer (key_accepts (C.prehash_accepts checker.now) self.now digest.now)
            (Some signature.now) }
    {
        if checker.verify_spki_prehash(self.scheme(), self.spki(), digest, signature) {
            Ok(())
        } else {
            Err(SigstoreError::PublicKeyVerificationError)
        }
    }

    /// Checks the bytes of a signature.
    fn check<C: SignatureChecker>(&self, signature: &[u8], msg: &[u8], checker: &C) -> Result<()>
        ensures { result ≡ check_answer (key_accepts (C.spki_accepts checker.now) self.now msg.now)
            (Some signature.now) }
    {
        if self.accepts(signature, msg, checker) {
            Ok(())
        } else {
            Err(SigstoreError::PublicKeyVerificationError)
        }
    }
}
