//! What the definitions of this crate mean, in the words of RFC 5280. No function here does anything: each states
//! laws, and its proof is that they hold.

ghost use Rattle.std.specs.Prelude.{◌≡◌, ◌↔◌, ℕ, ℤ, List, Some, None};
ghost use Rattle.sig_base.specs.declared.error.SigstoreError.{SigstoreError};
ghost use Rattle.sig_certificate.specs.declared.profile_error.CertificateValidationError.{CertificateValidationError};
ghost use Rattle.sig_certificate.specs.declared.values.KeyUsage.{KeyUsage};
ghost use Rattle.sig_certificate.specs.declared.values.BasicConstraints.{BasicConstraints};
ghost use Rattle.sig_certificate.specs.Certificate.{Cert, IsCertificate};
ghost use Rattle.sig_certificate.specs.Pem.{lines_of, IsWrappedBase64};
ghost use Rattle.sig_certificate.specs.Values.{key_usage_of, purposes_of, basic_constraints_of};
ghost use Rattle.sig_certificate.specs.ExtensionValues.{IsKeyUsageValue, ArePurposes, AreBasicConstraints};
ghost use Rattle.sig_certificate.specs.Names.{Name, general_names_of};
ghost use Rattle.sig_certificate.specs.AlternativeNames.{AreNames};
ghost use Rattle.sig_certificate.specs.Profile.{ca_refusal, root_refusal, leaf_refusal};
ghost use Rattle.sig_certificate.specs.Trust.{usages_refusal, names_refusal, validity_refusal, expiration_refusal};
ghost use Rattle.sig_certificate.specs.Trust.{trust_refusal};
ghost use Rattle.sig_certificate.specs.Faults.{IsAuthority, IsAuthorityFault, IsRootFault, IsLeafFault, IsUsagesFault};
ghost use Rattle.sig_certificate.specs.Faults.{IsNamesFault, IsValidityFault, IsExpirationFault, IsTrustFault};

/// Bytes are at most one certificate (RFC 5280 section 4.1).
pub fn certificates()
    ensures { (text : List ℕ) (c d : Cert) → IsCertificate text c → IsCertificate text d → c ≡ d }
{}

/// A value says this key usage if and only if it is its BIT STRING (RFC 5280 section 4.2.1.3).
pub fn key_usages(value: &[u8])
    ensures takes { (usage : KeyUsage) → key_usage_of value.now ≡ Some usage → IsKeyUsageValue value.now usage }
    ensures again { (usage : KeyUsage) → IsKeyUsageValue value.now usage → key_usage_of value.now ≡ Some usage }
{
    let _value = value;
}

/// A value has these purposes if and only if it is the SEQUENCE of their object identifiers (RFC 5280 section
/// 4.2.1.12).
pub fn extended_key_usages(value: &[u8])
    ensures takes { (purposes : List (List ℕ)) → purposes_of value.now ≡ Some purposes
        → ArePurposes value.now purposes }
    ensures again { (purposes : List (List ℕ)) → ArePurposes value.now purposes
        → purposes_of value.now ≡ Some purposes }
{
    let _value = value;
}

/// A value says these basic constraints if and only if it is their SEQUENCE (RFC 5280 section 4.2.1.9).
pub fn basic_constraints(value: &[u8])
    ensures takes { (b : BasicConstraints) → basic_constraints_of value.now ≡ Some b
        → AreBasicConstraints value.now b }
    ensures again { (b : BasicConstraints) → AreBasicConstraints value.now b
        → basic_constraints_of value.now ≡ Some b }
{
    let _value = value;
}

/// A value has these alternative names if and only if it is the SEQUENCE of them (RFC 5280 section 4.2.1.6).
pub fn subject_alternative_names(value: &[u8])
    ensures takes { (names : List Name) → general_names_of value.now ≡ Some names → AreNames value.now names }
    ensures again { (names : List Name) → AreNames value.now names → general_names_of value.now ≡ Some names }
{
    let _value = value;
}

/// The lines of a certificate in PEM are the base64 of all its bytes, of 64 characters each except for the last (RFC
/// 7468 section 2).
pub fn pem_lines()
    ensures { (der : List ℕ) → IsWrappedBase64 der (lines_of der) }
{}

/// A fault of a profile comes if and only if the rules before its own hold and its own does not hold.
pub fn profile_faults()
    ensures authority { (c : Cert) → (ca_refusal c ≡ None) ↔ IsAuthority c }
    ensures no_authority { (c : Cert) (e : CertificateValidationError) → (ca_refusal c ≡ Some e)
        ↔ IsAuthorityFault c e }
    ensures no_root { (c : Cert) (e : CertificateValidationError) → (root_refusal c ≡ Some e) ↔ IsRootFault c e }
    ensures no_leaf { (c : Cert) (e : CertificateValidationError) → (leaf_refusal c ≡ Some e) ↔ IsLeafFault c e }
{}

/// A fault of a check of trust comes if and only if the checks before its own pass and its own does not pass.
pub fn trust_faults()
    ensures usages { (c : Cert) (e : SigstoreError) → (usages_refusal c ≡ Some e) ↔ IsUsagesFault c e }
    ensures names { (c : Cert) (e : SigstoreError) → (names_refusal c ≡ Some e) ↔ IsNamesFault c e }
    ensures validity { (c : Cert) (now : ℤ) (e : SigstoreError) → (validity_refusal c now ≡ Some e)
        ↔ IsValidityFault c now e }
    ensures expiration { (c : Cert) (at : ℤ) (e : SigstoreError) → (expiration_refusal c at ≡ Some e)
        ↔ IsExpirationFault c at e }
    ensures all { (c : Cert) (at now : ℤ) (e : SigstoreError) → (trust_refusal c at now ≡ Some e)
        ↔ IsTrustFault c at now e }
{}
