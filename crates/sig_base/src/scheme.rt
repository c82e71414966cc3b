//! The signature schemes: as a key is made for one ([`SigningScheme`]), and as a checker is asked for one
//! ([`VerifyScheme`]).
ghost use Rattle.std.specs.Prelude.{◌≡◌, Some, None};
ghost use Rattle.sig_base.specs.Scheme.{name_of, scheme_of, IsReadOf};

use std::fmt;
use thiserror::Error;

/// The size of an RSA key, in bits, if only a scheme's name is known.
pub const DEFAULT_KEY_SIZE: usize = 2048;

/// The scheme that a signature is checked under: one of the six of [`SigningScheme`], without the size of the key.
#[allow(non_camel_case_types)]
#[derive(Clone, Copy, PartialEq, Eq)]
pub enum VerifyScheme {
    /// RSASSA-PSS with SHA-256 (RFC 8017 section 8.1).
    RSA_PSS_SHA256,
    /// RSASSA-PKCS1-v1_5 with SHA-256 (RFC 8017 section 8.2).
    RSA_PKCS1_SHA256,
    /// ECDSA over P-256 with SHA-256, the signature in DER (FIPS 186-5 section 6, RFC 3279 section 2.2.3).
    ECDSA_P256_SHA256_ASN1,
    /// ECDSA over P-384 with SHA-384, the signature in DER.
    ECDSA_P384_SHA384_ASN1,
    /// ECDSA over P-521 with SHA-512, the signature in DER.
    ECDSA_P521_SHA512_ASN1,
    /// Ed25519 (RFC 8032 section 5.1).
    ED25519,
}

impl VerifyScheme {
    /// The variant's name.
    pub fn name(self) -> &'static str
        ensures { result.now ≡ name_of self }
    {
        match self {
            VerifyScheme::RSA_PSS_SHA256 => "RSA_PSS_SHA256",
            VerifyScheme::RSA_PKCS1_SHA256 => "RSA_PKCS1_SHA256",
            VerifyScheme::ECDSA_P256_SHA256_ASN1 => "ECDSA_P256_SHA256_ASN1",
            VerifyScheme::ECDSA_P384_SHA384_ASN1 => "ECDSA_P384_SHA384_ASN1",
            VerifyScheme::ECDSA_P521_SHA512_ASN1 => "ECDSA_P521_SHA512_ASN1",
            VerifyScheme::ED25519 => "ED25519",
        }
    }
}

/// A signature scheme. The two RSA schemes hold the size of the key, in bits.
#[allow(non_camel_case_types)]
#[derive(Clone, Copy, Debug, PartialEq, Eq)]
pub enum SigningScheme {
    /// RSASSA-PSS with SHA-256 (RFC 8017 section 8.1), and the size of the key in bits.
    RSA_PSS_SHA256(usize),
    /// RSASSA-PKCS1-v1_5 with SHA-256 (RFC 8017 section 8.2), and the size of the key in bits.
    RSA_PKCS1_SHA256(usize),
    /// ECDSA over P-256 with SHA-256, the signature in DER (FIPS 186-5 section 6, RFC 3279 section 2.2.3).
    ECDSA_P256_SHA256_ASN1,
    /// ECDSA over P-384 with SHA-384, the signature in DER.
    ECDSA_P384_SHA384_ASN1,
    /// ECDSA over P-521 with SHA-512, the signature in DER.
    ECDSA_P521_SHA512_ASN1,
    /// Ed25519 (RFC 8032 section 5.1).
    ED25519,
}

impl SigningScheme {
    /// The scheme that signatures are checked under: this one, without the size of the key.
    pub fn scheme(&self) -> VerifyScheme
        ensures { result ≡ scheme_of self.now }
    {
        match self {
            SigningScheme::RSA_PSS_SHA256(_) => VerifyScheme::RSA_PSS_SHA256,
            SigningScheme::RSA_PKCS1_SHA256(_) => VerifyScheme::RSA_PKCS1_SHA256,
            SigningScheme::ECDSA_P256_SHA256_ASN1 => VerifyScheme::ECDSA_P256_SHA256_ASN1,
            SigningScheme::ECDSA_P384_SHA384_ASN1 => VerifyScheme::ECDSA_P384_SHA384_ASN1,
            SigningScheme::ECDSA_P521_SHA512_ASN1 => VerifyScheme::ECDSA_P521_SHA512_ASN1,
            SigningScheme::ED25519 => VerifyScheme::ED25519,
        }
    }
}

/// Shows the variant's name, without the size of the key.
impl fmt::Display for SigningScheme {
    ghost output = { λ scheme. Some (name_of (scheme_of scheme)) };

    fn fmt<W: fmt::Write>(&self, f: &mut fmt::Formatter<W>) -> fmt::Result {
        f.write_str(self.scheme().name())
    }
}

/// The default is `ECDSA_P256_SHA256_ASN1`.
impl Default for SigningScheme {
    ghost use Rattle.sig_base.specs.declared.scheme.SigningScheme.TheVariants.{ECDSA_P256_SHA256_ASN1};

    ghost is_default = { λ scheme. scheme ≡ ECDSA_P256_SHA256_ASN1 };

    fn default() -> SigningScheme {
        SigningScheme::ECDSA_P256_SHA256_ASN1
    }
}

/// No signature scheme has this name.
#[derive(Clone, Copy, Debug, Error)]
#[error("UnknownScheme")]
pub struct UnknownScheme;

/// Reads a scheme's name; an RSA key's size is then [`DEFAULT_KEY_SIZE`]. Fails if and only if the text is not one of
/// the six names.
impl TryFrom<&str> for SigningScheme {
    type Error = UnknownScheme;

    ghost try_from_gives = { λ text read. IsReadOf text.now read };

    #[tactic(auto, using(crate::proofs::Schemes::unnamed))]
    fn try_from(text: &str) -> Result<SigningScheme, UnknownScheme> {
        match text {
            "RSA_PSS_SHA256" => Ok(SigningScheme::RSA_PSS_SHA256(DEFAULT_KEY_SIZE)),
            "RSA_PKCS1_SHA256" => Ok(SigningScheme::RSA_PKCS1_SHA256(DEFAULT_KEY_SIZE)),
            "ECDSA_P256_SHA256_ASN1" => Ok(SigningScheme::ECDSA_P256_SHA256_ASN1),
            "ECDSA_P384_SHA384_ASN1" => Ok(SigningScheme::ECDSA_P384_SHA384_ASN1),
            "ECDSA_P521_SHA512_ASN1" => Ok(SigningScheme::ECDSA_P521_SHA512_ASN1),
            "ED25519" => Ok(SigningScheme::ED25519),
            _ => Err(UnknownScheme),
        }
    }
}
