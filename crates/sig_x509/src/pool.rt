//! `CertificatePool`: the trust anchors that may have issued a certificate, and the intermediates that may lead to
//! them.

ghost use Rattle.std.specs.Prelude.{◌≡◌, ℕ, ◌+◌, ◌<◌, ◌≤◌, length, Ok, Err, option_map, IfOk, IfErr};
ghost use Rattle.sig_base.specs.Answers.{Answers, ComesWhere};
ghost use Rattle.sig_certificate.specs.Certificate.{Cert, IsCertificate};
ghost use Rattle.sig_x509.specs.Issuance.{Accepts, AreAnchors, AreRefused, IsAnchor, IsFirstNoAnchor, IsRefusedAt};
ghost use Rattle.sig_x509.specs.Issued.{HasProfile};
ghost use Rattle.sig_x509.specs.Path.{IsFirstInPath, HasNoPath, AgreeOnPaths};
ghost use Rattle.sig_x509.specs.PathSearch.{most_questions, path_issuer};
ghost use Rattle.sig_x509.specs.PathText.{HasNoProfile, IsIssuedText, IsJudgedText, IsUnissuedText};
ghost use Rattle.sig_x509.specs.Pool.{AreReadAs, IsPoolRefusal, IsReadAs, certificate_of, most_intermediates};
ghost use Rattle.sig_x509.specs.Pool.{with_further};
ghost use Rattle.sig_x509.specs.declared.issuer.Issuer.{Issuer};

use crate::asked::asked_of;
use crate::issuance::is_unconstrained;
use crate::issuer::Issuer;
use crate::key_order::KeyOrder;
use sig_base::{Entries, OutOfMemory, OwnedList, PoolError, SignatureChecker, Steps};
use sig_certificate::{Certificate, X509ReadError};
use std::alloc::Global;
use std::marker::Model;
use std::sync::ledger::Ledger;

/// The greatest number of intermediates of a pool.
const MOST_INTERMEDIATES: usize = 1024;

/// Trust anchors, in order: certificates that are trusted by themselves, and have no name constraints; and the
/// intermediates that may lead to them, in order, which are not trusted. Contracts see both lists; an intermediate
/// whose bytes are not a certificate has its index, and is absent. Beside them are the trust anchors that a checker is
/// asked about: their indices in order, and in that of their keys and subjects with copies of the keys.
#[derive(Drop)]
pub struct CertificatePool {
    pub(crate) anchors: OwnedList<Certificate>,
    pub(crate) asked: Vec<usize>,
    pub(crate) by_key: KeyOrder,
    pub(crate) intermediates: OwnedList<Option<Certificate>>,
}

impl Model for CertificatePool {
    ghost use Rattle.sig_x509.specs.Pool.{Pool};

    ghost Value = { Pool };

    ghost view = { λ p. record { anchors = p.anchors; intermediates = p.intermediates } };

    ghost use Rattle.sig_x509.specs.AskedAnchors.{AreFewAsked};
    ghost use Rattle.sig_x509.specs.KeyOrder.{HoldsKeys};

    ghost invariant = { λ p. AreFewAsked p.anchors p.asked.items × HoldsKeys p.anchors p.by_key };
}

impl CertificatePool {
    /// Returns the pool of these trust anchors and intermediates (DER). An intermediate that is not a certificate keeps
    /// its index, and issued nothing. Errors, the first that applies:
    ///
    /// - `TooMany` with the number of intermediates, which is above 1024;
    /// - `Anchor` with the index of the first trust anchor that is not a certificate or has name constraints;
    /// - `OutOfMemory`.
    pub fn from_certificates(
        alloc: Global,
        trusted_roots: &Entries,
        untrusted_intermediates: &Entries,
    ) -> Result<CertificatePool, PoolError>
        // The anchors are those of the DERs, one by one.
        ensures anchors { IfOk result (λ p. AreAnchors trusted_roots.now p.anchors) }
        // The intermediates are too; one that is not a certificate is absent.
        ensures intermediates { IfOk result (λ p. AreReadAs untrusted_intermediates.now p.intermediates) }
        // An error has its cause, unless memory ran out.
        ensures err { IfErr result (IsPoolRefusal trusted_roots.now untrusted_intermediates.now) }
        // `TooMany` is returned if and only if there are more than 1024 intermediates, with their number, unless memory
        // ran out.
        ensures too_many { (count : ℕ) → ComesWhere PoolError.OutOfMemory result (Err (PoolError.TooMany count))
            ((count ≡ length untrusted_intermediates.now)
            × (most_intermediates < length untrusted_intermediates.now)) }
        // `Anchor` is returned with an index if and only if there are no more, and the DER there is the first that is
        // not an anchor, unless memory ran out.
        ensures anchor { (index : ℕ) → ComesWhere PoolError.OutOfMemory result (Err (PoolError.Anchor index))
            ((length untrusted_intermediates.now ≤ most_intermediates)
            × IsFirstNoAnchor trusted_roots.now index) }
    {
        CertificatePool::read(alloc, trusted_roots, untrusted_intermediates)
    }

    fn read(
        alloc: Global,
        trusted_roots: &Entries,
        untrusted_intermediates: &Entries,
    ) -> Result<CertificatePool, PoolError>
        ensures anchors { IfOk result (λ p. AreAnchors trusted_roots.now p.anchors) }
        ensures intermediates { IfOk result (λ p. AreReadAs untrusted_intermediates.now p.intermediates) }
        ensures few { IfOk result (λ p. length untrusted_intermediates.now ≤ most_intermediates) }
        ensures err { IfErr result (IsPoolRefusal trusted_roots.now untrusted_intermediates.now) }
    {
        let count = untrusted_intermediates.len();
        if count > MOST_INTERMEDIATES {
            return Err(PoolError::TooMany(count));
        }
        // A `match`, not `?`: the proof needs what the error says of the bytes.
        match read_anchors(alloc, trusted_roots) {
            Err(error) => Err(error),
            Ok(anchors) => {
                let asked = asked_of(alloc, anchors.as_slice())?;
                let by_key = KeyOrder::new(alloc, anchors.as_slice(), &asked)?;
                let intermediates = read_intermediates(alloc, untrusted_intermediates)?;
                Ok(CertificatePool {
                    anchors,
                    asked,
                    by_key,
                    intermediates,
                })
            }
        }
    }

    /// Returns the issuer of the leaf in the first certification path (RFC 5280 section 6.1) from it to a trust anchor,
    /// at the time, in seconds since 1970: the first trust anchor that issued the leaf; or else the first intermediate
    /// that did and that at most five others connect to a trust anchor, each signed by the next. `further` are
    /// intermediates that come with the leaf; their indices follow those of the pool.
    ///
    /// A step is a signature that the checker is asked about. It is asked only where the issuer of one certificate is
    /// the subject of the other, and once for each two. Errors:
    ///
    /// - `Malformed` if and only if the leaf does not have the profile: version 3, two equal algorithms, no duplicate
    ///   extension, no critical extensions except key usage, alternative names, basic constraints and extended key
    ///   usage, no name constraints, and basic constraints that are absent, or well formed and not cA;
    /// - `VerificationFailed` if and only if it has the profile, and no path leads from it to a trust anchor;
    /// - `OutOfMemory`.
    pub fn verify_cert_with_chain<C: SignatureChecker, L: Ledger>(
        &self,
        alloc: Global,
        leaf: &Certificate,
        further: &[Certificate],
        verification_time: i64,
        checker: &C,
        steps: &mut Steps<L>,
    ) -> Result<Issuer, PoolError>
        requires few { length further.now ≤ 16 }
        // An issuer is returned if and only if the leaf has the profile, this is its issuer in a path to a trust
        // anchor, and none before it is, unless memory ran out.
        ensures issued { (issuer : Issuer) → ComesWhere PoolError.OutOfMemory result (Ok issuer)
            (HasProfile leaf.now × IsFirstInPath (C.cert_accepts checker.now) (with_further self.now further.now)
            leaf.now verification_time issuer) }
        // `Malformed` is returned if and only if it does not have the profile, unless memory ran out.
        ensures malformed { ComesWhere PoolError.OutOfMemory result (Err PoolError.Malformed)
            (HasProfile leaf.now → ⊥) }
        // `VerificationFailed` is returned if and only if it has the profile, and no path leads to a trust anchor,
        // unless memory ran out.
        ensures none { ComesWhere PoolError.OutOfMemory result (Err PoolError.VerificationFailed)
            (HasProfile leaf.now × HasNoPath (C.cert_accepts checker.now) (with_further self.now further.now)
            leaf.now verification_time) }
        // The number of questions is bounded.
        ensures steps { steps.new ≤ steps.old + most_questions (with_further self.now further.now) }
        // The checker's results matter only for the signatures of paths that would hold if each were genuine: another
        // checker that agrees on these has the same result.
        ensures asked { (other : Accepts) → AgreeOnPaths
            (C.cert_accepts checker.now) other (with_further self.now further.now) leaf.now verification_time
            → Answers PoolError.OutOfMemory (λ issuer. issuer) result
            (path_issuer other (with_further self.now further.now) leaf.now verification_time) }
        // The same in one equation.
        ensures exact { Answers PoolError.OutOfMemory (λ issuer. issuer) result (path_issuer
            (C.cert_accepts checker.now) (with_further self.now further.now) leaf.now verification_time) }
    {
        self.find_issuer(alloc, leaf, further, verification_time, checker, steps)
    }

    /// Returns what `verify_cert_with_chain` returns for a leaf without further certificates, with the same errors.
    pub fn verify_cert_with_time<C: SignatureChecker, L: Ledger>(
        &self,
        alloc: Global,
        leaf: &Certificate,
        verification_time: i64,
        checker: &C,
        steps: &mut Steps<L>,
    ) -> Result<Issuer, PoolError>
        // An issuer is returned if and only if the leaf has the profile, this is its issuer in a path to a trust
        // anchor, and none before it is, unless memory ran out.
        ensures issued { (issuer : Issuer) → ComesWhere PoolError.OutOfMemory result (Ok issuer)
            (HasProfile leaf.now × IsFirstInPath (C.cert_accepts checker.now) self.now leaf.now verification_time
            issuer) }
        // `Malformed` is returned if and only if it does not have the profile, unless memory ran out.
        ensures malformed { ComesWhere PoolError.OutOfMemory result (Err PoolError.Malformed)
            (HasProfile leaf.now → ⊥) }
        // `VerificationFailed` is returned if and only if it has the profile, and no path leads to a trust anchor,
        // unless memory ran out.
        ensures none { ComesWhere PoolError.OutOfMemory result (Err PoolError.VerificationFailed)
            (HasProfile leaf.now × HasNoPath (C.cert_accepts checker.now) self.now leaf.now verification_time) }
        // The number of questions is bounded.
        ensures steps { steps.new ≤ steps.old + most_questions self.now }
        // The checker's results matter only for the signatures of paths that would hold if each were genuine.
        ensures asked { (other : Accepts) → AgreeOnPaths
            (C.cert_accepts checker.now) other self.now leaf.now verification_time
            → Answers PoolError.OutOfMemory (λ issuer. issuer) result
            (path_issuer other self.now leaf.now verification_time) }
        // The same in one equation.
        ensures exact { Answers PoolError.OutOfMemory (λ issuer. issuer) result
            (path_issuer (C.cert_accepts checker.now) self.now leaf.now verification_time) }
    {
        self.find_issuer(alloc, leaf, &[], verification_time, checker, steps)
    }

    /// Returns the result for the certificate that the bytes are.
    pub(crate) fn check_der<C: SignatureChecker, L: Ledger>(
        &self,
        alloc: Global,
        der: &[u8],
        time: i64,
        checker: &C,
        steps: &mut Steps<L>,
    ) -> Result<Issuer, PoolError>
        ensures judged { IsJudgedText (C.cert_accepts checker.now) self.now der.now time result }
        ensures steps { steps.new ≤ steps.old + most_questions self.now }
    {
        match Certificate::try_from_der(alloc, der) {
            Ok(leaf) => self.find_issuer(alloc, &leaf, &[], time, checker, steps),
            Err(X509ReadError::Der) => Err(PoolError::Malformed),
            Err(X509ReadError::OutOfMemory) => Err(PoolError::OutOfMemory),
        }
    }

    /// Returns what `verify_cert_with_time` returns for the certificate that the bytes are, with the same errors, and
    /// `Malformed` also if they are not a certificate.
    pub fn verify_der_cert<C: SignatureChecker, L: Ledger>(
        &self,
        alloc: Global,
        der: &[u8],
        verification_time: i64,
        checker: &C,
        steps: &mut Steps<L>,
    ) -> Result<Issuer, PoolError>
        // An issuer is returned if and only if the bytes are a certificate with the profile, this is its issuer in a
        // path to a trust anchor, and none before it is, unless memory ran out.
        ensures issued { (issuer : Issuer) → ComesWhere PoolError.OutOfMemory result (Ok issuer)
            (IsIssuedText (C.cert_accepts checker.now) self.now der.now verification_time issuer) }
        // `Malformed` is returned if and only if the bytes are not a certificate with the profile, unless memory ran
        // out.
        ensures malformed { ComesWhere PoolError.OutOfMemory result (Err PoolError.Malformed) (HasNoProfile der.now) }
        // `VerificationFailed` is returned if and only if they are one, and no path leads to a trust anchor, unless
        // memory ran out.
        ensures none { ComesWhere PoolError.OutOfMemory result (Err PoolError.VerificationFailed)
            (IsUnissuedText (C.cert_accepts checker.now) self.now der.now verification_time) }
        // The number of questions is bounded.
        ensures steps { steps.new ≤ steps.old + most_questions self.now }
        // The checker's result for a certificate depends only on the signatures of paths that would hold if each were
        // genuine.
        ensures asked { (other : Accepts) (c : Cert) → IsCertificate der.now c
            → AgreeOnPaths (C.cert_accepts checker.now) other self.now c verification_time
            → Answers PoolError.OutOfMemory (λ issuer. issuer) result (path_issuer other self.now c verification_time) }
        // The result for a certificate is that of its record.
        ensures certificate { (c : Cert) → IsCertificate der.now c
            → Answers PoolError.OutOfMemory (λ issuer. issuer) result
            (path_issuer (C.cert_accepts checker.now) self.now c verification_time) }
    {
        self.check_der(alloc, der, verification_time, checker, steps)
    }

    /// Returns the trust anchors, in order.
    pub fn anchors(&self) -> &[Certificate]
        ensures { result.now ≡ self.now.anchors }
    {
        self.anchors.as_slice()
    }

    /// Returns the SubjectPublicKeyInfo (DER) of this trust anchor or intermediate of the pool. `None` if and only if
    /// there is none at its index, or the intermediate there is not a certificate.
    pub fn issuer_spki(&self, issuer: Issuer) -> Option<&[u8]>
        ensures { option_map (λ s. s.now) result ≡ option_map (λ c. c.spki) (certificate_of self.now issuer) }
    {
        match issuer {
            Issuer::Anchor(index) => match self.anchors.get(index) {
                Some(anchor) => Some(anchor.spki()),
                None => None,
            },
            Issuer::Intermediate(index) => match self.intermediates.get(index) {
                Some(Some(intermediate)) => Some(intermediate.spki()),
                Some(None) => None,
                None => None,
            },
        }
    }
}

/// Returns the trust anchors, one by one. Fails with `Anchor` and the index of the first that is not one.
fn read_anchors(alloc: Global, ders: &Entries) -> Result<OwnedList<Certificate>, PoolError>
    ensures anchors { IfOk result (AreAnchors ders.now) }
    ensures refused { IfErr result (AreRefused ders.now) }
{
    let mut anchors = OwnedList::new(alloc);
    'ders: for (index, der) in ders.as_slice().iter().enumerate() {
        let anchor = read_anchor(alloc, index, der.as_slice())?;
        anchors.push(anchor)?;
    }
    Ok(anchors)
}

/// Returns the trust anchor that the bytes at this index are. Fails with `Anchor` and the index if and only if they
/// are none, unless out of memory.
fn read_anchor(alloc: Global, index: usize, der: &[u8]) -> Result<Certificate, PoolError>
    ensures found { IfOk result (IsAnchor der.now) }
    ensures refused { IfErr result (IsRefusedAt der.now index) }
{
    match Certificate::try_from_der(alloc, der) {
        Ok(anchor) => {
            if is_unconstrained(&anchor) {
                Ok(anchor)
            } else {
                Err(PoolError::Anchor(index))
            }
        }
        Err(X509ReadError::Der) => Err(PoolError::Anchor(index)),
        Err(X509ReadError::OutOfMemory) => Err(PoolError::OutOfMemory),
    }
}

/// Returns the intermediates, one by one. Fails only if out of memory.
fn read_intermediates(
    alloc: Global,
    ders: &Entries,
) -> Result<OwnedList<Option<Certificate>>, OutOfMemory>
    ensures { IfOk result (AreReadAs ders.now) }
{
    let mut intermediates = OwnedList::new(alloc);
    'ders: for der in ders.as_slice() {
        let intermediate = read_intermediate(alloc, der.as_slice())?;
        intermediates.push(intermediate)?;
    }
    Ok(intermediates)
}

/// Returns the certificate that the bytes are, `None` if they are not one. Fails only if out of memory.
fn read_intermediate(alloc: Global, der: &[u8]) -> Result<Option<Certificate>, OutOfMemory>
    ensures { IfOk result (IsReadAs der.now) }
{
    match Certificate::try_from_der(alloc, der) {
        Ok(certificate) => Ok(Some(certificate)),
        Err(X509ReadError::Der) => Ok(None),
        Err(X509ReadError::OutOfMemory) => Err(OutOfMemory),
    }
}
