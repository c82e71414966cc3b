//! `DigitallySigned`: what an SCT signs, and whether a keyring vouches for it (RFC 6962 section 3.2).
//!
//! ```text
//! digitally-signed struct {
//!     Version sct_version;                                        // v1(0)
//!     SignatureType signature_type = certificate_timestamp;       // 0
//!     uint64 timestamp;
//!     LogEntryType entry_type;                                    // precert_entry(1), in two bytes
//!     opaque issuer_key_hash[32];
//!     opaque TBSCertificate<1..2^24-1>;
//!     opaque CtExtensions<0..2^16-1>;
//! };
//! ```

ghost use Rattle.std.specs.Prelude.{◌≡◌, ℕ, List, ◌∷◌, ◌++◌, true, false, Ok, Err, IfOk, OnOk};
ghost use Rattle.sig_base.specs.Answers.{Answers, ComesWhere};
ghost use Rattle.sig_timestamp.specs.Numbers.{v1, certificate_timestamp, precert_entry};
ghost use Rattle.sig_timestamp.specs.Vectors.{uint16_bytes, vector, long_vector, IsShort, IsLong};
ghost use Rattle.sig_timestamp.specs.SctList.{eight_bytes};
ghost use Rattle.sig_timestamp.specs.SctBytes.{judged, signed_bytes};
ghost use Rattle.sig_timestamp.specs.SignedStruct.{IsSignedStruct};
ghost use Rattle.sig_timestamp.specs.Vouched.{HasBytes, IsSignedByLog, IsOfUnknownLog};

use crate::keyring::Keyring;
use crate::keyring_error::KeyringError;
use crate::laws::signed_structs;
use crate::sct_error::SCTError;
use crate::sct_list::SCT_V1;
use sig_base::{Bytes, OutOfMemory, SignatureChecker};
use std::alloc::{AllocError, Global};

/// `SignatureType` (RFC 6962 section 3.2).
const CERTIFICATE_TIMESTAMP: u8 = 0;
/// `LogEntryType` (RFC 6962 section 3.1).
const PRECERT_ENTRY: u16 = 1;
/// The length of the longest `TBSCertificate<1..2^24-1>`.
pub const TBS_CERTIFICATE_MAX: usize = 0xff_ffff;
/// The length of the longest `CtExtensions<0..2^16-1>`.
pub const CT_EXTENSIONS_MAX: usize = 0xffff;

/// What the SCT of a certificate signs, and its signature.
#[derive(Drop)]
pub struct DigitallySigned {
    /// Milliseconds since 1970.
    pub timestamp: u64,
    /// The SHA-256 of the issuer's SubjectPublicKeyInfo.
    pub issuer_key_hash: [u8; 32],
    /// The TBSCertificate without the extensions that list SCTs.
    pub tbs_certificate: Bytes,
    /// The extensions of the SCT.
    pub extensions: Bytes,
    /// The SHA-256 of the log's SubjectPublicKeyInfo.
    pub log_id: [u8; 32],
    /// The signature, without the two bytes of its algorithm.
    pub signature: Bytes,
}

/// Whether the keyring vouches for the SCT: whether the key of its log's id accepts its signature over what it signs
/// (RFC 6962 section 3.2), which `laws::signed_structs` and `laws::precertificates` say field by field. The first of
/// these errors that applies, or `OutOfMemory`:
///
/// - `Serialization` if and only if the TBSCertificate is longer than 2^24 - 1 bytes or the extensions are longer than
///   2^16 - 1;
/// - `Verification(KeyNotFound)` if and only if the keyring has no key of the log's id;
/// - `Verification(VerificationFailed)` if and only if the checker does not accept the signature under that key.
pub fn verify_sct<C: SignatureChecker>(
    alloc: Global,
    sct: &DigitallySigned,
    keyring: &Keyring,
    checker: &C,
) -> Result<(), SCTError>
    // The key of the log's id accepts the signature.
    ensures accepted { ComesWhere SCTError.OutOfMemory result (Ok tt)
        (IsSignedByLog (C.point_accepts checker.now) sct.now keyring.now true) }
    // What it signs cannot be written.
    ensures serialization { ComesWhere SCTError.OutOfMemory result (Err SCTError.Serialization) (¬ HasBytes sct.now) }
    // It can be written, and there is no key of the log's id.
    ensures key_not_found { ComesWhere SCTError.OutOfMemory result
        (Err (SCTError.Verification KeyringError.KeyNotFound)) (IsOfUnknownLog sct.now keyring.now) }
    // It can be written, there is such a key, and it does not accept the signature.
    ensures verification_failed { ComesWhere SCTError.OutOfMemory result (Err
        (SCTError.Verification KeyringError.VerificationFailed))
        (IsSignedByLog (C.point_accepts checker.now) sct.now keyring.now false) }
    // The same in one equation.
    ensures exact { Answers SCTError.OutOfMemory (λ done. done) result
        (judged (C.point_accepts checker.now) sct.now keyring.now) }
{
    check(alloc, sct, keyring, checker)
}

fn check<C: SignatureChecker>(
    alloc: Global,
    sct: &DigitallySigned,
    keyring: &Keyring,
    checker: &C,
) -> Result<(), SCTError>
    ensures { Answers SCTError.OutOfMemory (λ done. done) result (judged
        (C.point_accepts checker.now) sct.now keyring.now) }
{
    if sct.tbs_certificate.as_slice().len() > TBS_CERTIFICATE_MAX {
        return Err(SCTError::Serialization);
    }
    if sct.extensions.as_slice().len() > CT_EXTENSIONS_MAX {
        return Err(SCTError::Serialization);
    }
    let message = spell(alloc, sct)?;
    keyring.verify(&sct.log_id, sct.signature.as_slice(), &message, checker)?;
    Ok(())
}

/// The bytes that the SCT's signature is over (RFC 6962 section 3.2). They exist only for a TBSCertificate of at most
/// 2^24 - 1 bytes and extensions of at most 2^16 - 1. Fails only if out of memory.
pub fn signed_bytes(alloc: Global, sct: &DigitallySigned) -> Result<Vec<u8>, OutOfMemory>
    requires tbs { IsLong sct.now.tbs_certificate }
    requires extensions { IsShort sct.now.extensions }
    // They are the struct of these fields.
    ensures fields { IfOk result (λ v. IsSignedStruct sct.now v.items) }
    // No other bytes are the struct.
    ensures only { (bytes : List ℕ) → IsSignedStruct sct.now bytes → IfOk result (λ v. v.items ≡ bytes) }
    // The same in one equation.
    ensures exact { IfOk result (λ v. v.items ≡ signed_bytes sct.now) }
{
    // The bytes that the SCT signs are exactly those of the struct of its fields.
    signed_structs(sct);
    spell(alloc, sct)
}

fn spell(alloc: Global, sct: &DigitallySigned) -> Result<Vec<u8>, OutOfMemory>
    requires tbs { IsLong sct.now.tbs_certificate }
    requires extensions { IsShort sct.now.extensions }
    ensures { IfOk result (λ v. v.items ≡ signed_bytes sct.now) }
{
    let mut message = Vec::new(alloc);
    push_time(&mut message, sct.timestamp)?;
    push_issuer(&mut message, &sct.issuer_key_hash)?;
    push_tbs(&mut message, sct.tbs_certificate.as_slice())?;
    push_extensions(&mut message, sct.extensions.as_slice())?;
    Ok(message)
}

/// Version v1, the signature type certificate_timestamp, and the time.
fn push_time(message: &mut Vec<u8>, timestamp: u64) -> Result<(), AllocError>
    ensures { OnOk result
        (message.new.items ≡ message.old.items ++ (v1 ∷ certificate_timestamp ∷ eight_bytes timestamp)) }
{
    message.extend_from_slice(&[SCT_V1, CERTIFICATE_TIMESTAMP])?;
    message.extend_from_slice(&timestamp.to_be_bytes())
}

/// The entry type precert_entry, and the SHA-256 of the issuer's SPKI.
fn push_issuer(message: &mut Vec<u8>, issuer_key_hash: &[u8; 32]) -> Result<(), AllocError>
    ensures { OnOk result (message.new.items ≡ message.old.items ++
        (uint16_bytes precert_entry ++ issuer_key_hash.now)) }
{
    message.extend_from_slice(&PRECERT_ENTRY.to_be_bytes())?;
    message.extend_from_slice(issuer_key_hash)
}

/// The TBSCertificate after its length in three bytes.
fn push_tbs(message: &mut Vec<u8>, tbs: &[u8]) -> Result<(), AllocError>
    requires { IsLong tbs.now }
    ensures { OnOk result (message.new.items ≡ message.old.items ++ long_vector tbs.now) }
{
    let len = tbs.len();
    message.extend_from_slice(&[
        (len / 65536) as u8,
        (len / 256 % 256) as u8,
        (len % 256) as u8,
    ])?;
    message.extend_from_slice(tbs)
}

/// The extensions after their length in two bytes.
fn push_extensions(message: &mut Vec<u8>, extensions: &[u8]) -> Result<(), AllocError>
    requires { IsShort extensions.now }
    ensures { OnOk result (message.new.items ≡ message.old.items ++ vector extensions.now) }
{
    let len = extensions.len();
    message.extend_from_slice(&[(len / 256) as u8, (len % 256) as u8])?;
    message.extend_from_slice(extensions)
}
