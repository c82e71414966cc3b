//! `CertificateEmbeddedSCT`: the SCT that a certificate carries (RFC 6962 section 3.3).

ghost use Rattle.std.specs.Prelude.{◌≡◌, ◌↔◌, IfOk, IsSome, IsErrOf, Ok, Err, None};
ghost use Rattle.sig_base.specs.Answers.{Answers, ComesWhere};
ghost use Rattle.sig_timestamp.specs.SctBytes.{signed_with};
ghost use Rattle.sig_timestamp.specs.Timestamps.{LacksSct, HasBadSct, only_one, sct_in, sct_of, sct_of_value};
ghost use Rattle.sig_der.specs.FrontReaders.{many_at};
ghost use Rattle.sig_timestamp.specs.Vectors.{vector_at};
ghost use Rattle.sig_timestamp.specs.Embedded.{issuer_in_chain, ready_with, IsEmbedded, IsEmbeddedUnder, IsEmbeddedWith};
ghost use Rattle.sig_timestamp.specs.Embedded.{IsSaidOf, IsSaidOfValue};
ghost use Rattle.sig_timestamp.specs.BorrowedScts.{sct_result, sct_now};

use crate::issuer::find_issuer;
use crate::precert::precert_tbs_der;
use crate::sct_error::{CertificateErrorKind, SCTError};
use crate::sct_list::{BorrowedSct, list_in, only_one, sct_at};
use crate::signed::DigitallySigned;
use sig_base::{Bytes, OutOfMemory, sha256};
use sig_certificate::{Certificate, Lookup};
use sig_der::oid::SCT_LIST;
use std::alloc::Global;
use std::marker::Model;

/// The one SCT that a certificate carries, with the TBSCertificate of its precertificate and the SHA-256 of its
/// issuer's SPKI. Contracts see what it signs.
#[derive(Drop)]
pub struct CertificateEmbeddedSCT {
    signed: DigitallySigned,
}

impl Model for CertificateEmbeddedSCT {
    ghost use Rattle.sig_timestamp.specs.declared.signed.DigitallySigned.{DigitallySigned};

    ghost Value = { DigitallySigned };

    ghost view = { λ e. e.signed };
}

impl CertificateEmbeddedSCT {
    /// Returns the SCT of a certificate whose issuer the chain begins with: its first certificate, or its second if
    /// the first has the purpose of precertificate signing (RFC 6962 section 3.1).
    ///
    /// Fails with `Parsing(IssuerMissing)` if and only if that certificate is not there or `is_ca` rejects it; else
    /// with what [`CertificateEmbeddedSCT::new_with_verified_path`] fails with for its SPKI.
    pub fn new(
        alloc: Global,
        leaf: &Certificate,
        chain: &[Certificate],
    ) -> Result<CertificateEmbeddedSCT, SCTError>
        // The one SCT is returned, prepared for the check under the issuer's key.
        ensures embedded { IsEmbeddedUnder leaf.now (issuer_in_chain chain.now) result }
        // The chain does not begin with an issuer.
        ensures issuer { IsErrOf result (SCTError.Parsing CertificateErrorKind.IssuerMissing)
            ↔ (issuer_in_chain chain.now ≡ None) }
        // It begins with one, and there is not exactly one extension that lists SCTs, or it does not list exactly one.
        ensures missing { ComesWhere SCTError.OutOfMemory result (Err
            (SCTError.Parsing CertificateErrorKind.LeafSCTMissing)) (IsSome
            (issuer_in_chain chain.now) × LacksSct leaf.now) }
        // It begins with one, and the one list of SCTs is malformed, or the only SCT in it.
        ensures malformed { ComesWhere SCTError.OutOfMemory result (Err
            (SCTError.Parsing CertificateErrorKind.LeafSCTMalformed)) (IsSome
            (issuer_in_chain chain.now) × HasBadSct leaf.now) }
    {
        embed_under(alloc, leaf, chain)
    }

    /// Returns the SCT of a certificate whose issuer has this SubjectPublicKeyInfo (DER). Fails with `Parsing` of the
    /// first of these that applies, or with `OutOfMemory`:
    ///
    /// - `LeafSCTMissing` if not exactly one extension lists SCTs;
    /// - `LeafSCTMalformed` if the list is malformed;
    /// - `LeafSCTMissing` if it does not list exactly one;
    /// - `LeafSCTMalformed` if that one is malformed.
    pub fn new_with_verified_path(
        alloc: Global,
        leaf: &Certificate,
        issuer_spki: &[u8],
    ) -> Result<CertificateEmbeddedSCT, SCTError>
        // The one SCT is returned, prepared for the check under the issuer's key.
        ensures embedded { IsEmbedded leaf.now issuer_spki.now result }
        // There is not exactly one extension that lists SCTs, or it does not list exactly one.
        ensures missing { ComesWhere SCTError.OutOfMemory result (Err
            (SCTError.Parsing CertificateErrorKind.LeafSCTMissing)) (LacksSct leaf.now) }
        // The one list of SCTs is malformed, or the only SCT in it.
        ensures malformed { ComesWhere SCTError.OutOfMemory result (Err
            (SCTError.Parsing CertificateErrorKind.LeafSCTMalformed)) (HasBadSct leaf.now) }
    {
        CertificateEmbeddedSCT::new_with_issuer_key_hash(alloc, leaf, sha256(issuer_spki))
    }

    /// Returns what [`CertificateEmbeddedSCT::new_with_verified_path`] returns for an issuer whose SubjectPublicKeyInfo
    /// (DER) has this SHA-256, with the same errors: a caller that has many certificates of one issuer hashes it once.
    pub fn new_with_issuer_key_hash(
        alloc: Global,
        leaf: &Certificate,
        issuer_key_hash: [u8; 32],
    ) -> Result<CertificateEmbeddedSCT, SCTError>
        // The one SCT is returned, prepared for the check under the issuer's key.
        ensures embedded { IsEmbeddedWith leaf.now issuer_key_hash result }
        // There is not exactly one extension that lists SCTs, or it does not list exactly one.
        ensures missing { ComesWhere SCTError.OutOfMemory result (Err
            (SCTError.Parsing CertificateErrorKind.LeafSCTMissing)) (LacksSct leaf.now) }
        // The one list of SCTs is malformed, or the only SCT in it.
        ensures malformed { ComesWhere SCTError.OutOfMemory result (Err
            (SCTError.Parsing CertificateErrorKind.LeafSCTMalformed)) (HasBadSct leaf.now) }
    {
        embed(alloc, leaf, issuer_key_hash)
    }
}

impl DigitallySigned {
    /// Returns what the SCT signs, in memory of its own. Fails only if out of memory.
    pub fn from_embedded(
        alloc: Global,
        value: &CertificateEmbeddedSCT,
    ) -> Result<DigitallySigned, OutOfMemory>
        ensures { IfOk result (λ d. d ≡ value.now) }
    {
        let signed = &value.signed;
        Ok(DigitallySigned {
            timestamp: signed.timestamp,
            issuer_key_hash: signed.issuer_key_hash,
            tbs_certificate: signed.tbs_certificate.copy(alloc)?,
            extensions: signed.extensions.copy(alloc)?,
            log_id: signed.log_id,
            signature: signed.signature.copy(alloc)?,
        })
    }
}

/// Returns the SCT of a certificate under the issuer that the chain begins with.
fn embed_under(
    alloc: Global,
    leaf: &Certificate,
    chain: &[Certificate],
) -> Result<CertificateEmbeddedSCT, SCTError>
    ensures { IsEmbeddedUnder leaf.now (issuer_in_chain chain.now) result }
{
    match find_issuer(chain) {
        None => Err(SCTError::Parsing(CertificateErrorKind::IssuerMissing)),
        Some(issuer) => CertificateEmbeddedSCT::new_with_verified_path(alloc, leaf, issuer.spki()),
    }
}

/// Returns the SCT of a certificate.
fn embed(
    alloc: Global,
    leaf: &Certificate,
    issuer_key_hash: [u8; 32],
) -> Result<CertificateEmbeddedSCT, SCTError>
    ensures read { Answers SCTError.OutOfMemory (λ d. d) result (ready_with leaf.now issuer_key_hash (sct_of leaf.now)) }
    ensures said { IsSaidOf leaf.now (sct_of leaf.now) }
{
    let sct = sct_of(leaf)?;
    let signed = sign(alloc, leaf, issuer_key_hash, sct)?;
    Ok(CertificateEmbeddedSCT { signed })
}

/// Returns the one SCT of the certificate.
fn sct_of(leaf: &Certificate) -> Result<BorrowedSct<'_>, CertificateErrorKind>
    ensures read { sct_result result ≡ sct_of leaf.now }
    ensures said { IsSaidOf leaf.now (sct_result result) }
{
    match leaf.extension(SCT_LIST) {
        Lookup::Absent => Err(CertificateErrorKind::LeafSCTMissing),
        Lookup::Several => Err(CertificateErrorKind::LeafSCTMissing),
        Lookup::One(extension) => sct_of_value(extension.value),
    }
}

/// Returns the one SCT that an extension of this value lists.
fn sct_of_value(value: &[u8]) -> Result<BorrowedSct<'_>, CertificateErrorKind>
    ensures read { sct_result result ≡ sct_of_value value.now }
    ensures said { IsSaidOfValue value.now (sct_result result) }
{
    read_value(value)
}

#[tactic(auto, unfolding(crate::specs::Timestamps::sct_of_value, crate::specs::SctList::sct_list_at))]
fn read_value(value: &[u8]) -> Result<BorrowedSct<'_>, CertificateErrorKind>
    ensures { sct_result result ≡ sct_of_value value.now }
{
    match list_in(value) {
        None => Err(CertificateErrorKind::LeafSCTMalformed),
        Some(list) => read_only(list),
    }
}

/// Returns the one SCT of a list.
fn read_only(list: &[u8]) -> Result<BorrowedSct<'_>, CertificateErrorKind>
    ensures { sct_result result ≡ sct_in (only_one (many_at vector_at list.now)) }
{
    let sct = only_one(list)?;
    sct_at(sct).ok_or(CertificateErrorKind::LeafSCTMalformed)
}

/// Returns what the SCT of the certificate signs.
fn sign(
    alloc: Global,
    leaf: &Certificate,
    issuer_key_hash: [u8; 32],
    sct: BorrowedSct<'_>,
) -> Result<DigitallySigned, OutOfMemory>
    ensures { IfOk result (λ d. d ≡ signed_with leaf.now issuer_key_hash (sct_now sct.entry)) }
{
    Ok(DigitallySigned {
        timestamp: sct.timestamp,
        issuer_key_hash,
        tbs_certificate: precert_tbs_der(alloc, leaf)?,
        extensions: Bytes::copy_of(alloc, sct.extensions)?,
        log_id: *sct.log_id,
        signature: Bytes::copy_of(alloc, sct.signature)?,
    })
}
