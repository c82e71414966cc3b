//! The signers of each intermediate.

ghost use Rattle.std.specs.Prelude.{◌≡◌, ◌+◌, ◌*◌, ◌≤◌, length, slice_get, IfOk, IsTrue};
ghost use Rattle.sig_certificate.specs.Profile.{constraints};
ghost use Rattle.sig_x509.specs.Candidates.{AreSigners, IsIndexOf, all_seen, is_signer, seen};
ghost use Rattle.sig_x509.specs.PathSearch.{is_rooted, most_between};
ghost use Rattle.sig_x509.specs.Pool.{intermediate_in};
ghost use Rattle.sig_x509.specs.Rows.{AreLinksOf, AreRooted, AsksAlike};

use crate::issuance::{is_signed_by, may_be_signed};
use crate::pool::CertificatePool;
use crate::subjects::SubjectIndex;
use sig_base::{OutOfMemory, SignatureChecker, Steps};
use sig_certificate::{Certificate, basic_constraints};
use std::alloc::Global;
use std::collections::BTreeMap;
use std::sync::ledger::Ledger;

/// An intermediate in the table: how many others may come between it and the leaf, if that is limited, whether a trust
/// anchor signed it, and the indices of the intermediates that did.
#[derive(Drop)]
pub(crate) struct Link {
    pub(crate) path_len: Option<u32>,
    pub(crate) rooted: bool,
    pub(crate) signers: Vec<usize>,
}

/// Returns what the table needs of each intermediate. Fails only if out of memory.
pub(crate) fn links_of<C: SignatureChecker, L: Ledger>(
    alloc: Global,
    pool: &CertificatePool,
    listed: &[Option<&Certificate>],
    index: &SubjectIndex<'_>,
    checker: &C,
    steps: &mut Steps<L>,
) -> Result<Vec<Link>, OutOfMemory>
    requires index { IsIndexOf (all_seen listed.now) (length listed.now) index.now.last index.now.earlier.items }
    ensures links { IfOk result (λ v. AreLinksOf (C.cert_accepts checker.now) pool.now (all_seen listed.now) v.items) }
    ensures steps { steps.new ≤ steps.old + length listed.now * (length listed.now + length pool.now.anchors) }
{
    let mut same = BTreeMap::new(alloc);
    let mut links = Vec::new(alloc);
    'candidates: for (place, candidate) in listed.iter().enumerate() {
        let link = match candidate {
            Some(certificate) => {
                let before = same.insert(certificate.der(), place)?;
                let rooted = is_rooted(pool, certificate, listed, &links, before, checker, steps);
                Link {
                    path_len: most_between(certificate),
                    rooted,
                    signers: signers_of(alloc, certificate, listed, index, checker, steps)?,
                }
            }
            None => Link {
                path_len: None,
                rooted: false,
                signers: Vec::new(alloc),
            },
        };
        links.push(link)?;
    }
    Ok(links)
}

/// Whether a trust anchor signed the certificate. It is not asked again where it is known of the candidate at the index
/// `before`, which comes before and is the same certificate.
fn is_rooted<C: SignatureChecker, L: Ledger>(
    pool: &CertificatePool,
    certificate: &Certificate,
    listed: &[Option<&Certificate>],
    links: &[Link],
    before: Option<usize>,
    checker: &C,
    steps: &mut Steps<L>,
) -> bool
    requires known { AreRooted (C.cert_accepts checker.now) pool.now (all_seen listed.now) links.now }
    ensures rooted { result ≡ is_rooted (C.cert_accepts checker.now) pool.now certificate.now }
    ensures steps { steps.new ≤ steps.old + length pool.now.anchors }
{
    if let Some(place) = before {
        if let (Some(other), Some(link)) = (candidate_at(listed, place), links.get(place)) {
            if asks_alike(other, certificate) {
                return link.rooted;
            }
        }
    }
    pool.first_anchor(certificate, checker, steps).is_some()
}

/// The candidate at an index.
#[tactic(auto, using(crate::proofs::SeenCandidates::candidate_laws))]
fn candidate_at<'a>(listed: &[Option<&'a Certificate>], place: usize) -> Option<&'a Certificate>
    ensures { seen result ≡ intermediate_in (slice_get (all_seen listed.now) place) }
{
    match listed.get(place) {
        Some(Some(candidate)) => Some(candidate),
        Some(None) => None,
        None => None,
    }
}

/// Whether a checker gets the same question about the two, under any key.
fn asks_alike(one: &Certificate, other: &Certificate) -> bool
    ensures { IsTrue result → AsksAlike one.now other.now }
{
    one.issuer() == other.issuer()
        && one.algorithm() == other.algorithm()
        && one.tbs() == other.tbs()
        && one.signature() == other.signature()
}

/// Returns how many others may come between the intermediate and the leaf, `None` if that is not limited (RFC 5280
/// section 4.2.1.9).
pub(crate) fn most_between(certificate: &Certificate) -> Option<u32>
    ensures { result ≡ most_between (constraints certificate.now) }
{
    match basic_constraints(certificate) {
        Ok(Some((_, found))) => found.path_len,
        Ok(None) => None,
        Err(_) => None,
    }
}

/// Returns the indices of the candidates that signed the certificate: of those that have the name of its issuer, the
/// checker is asked about each once, and about none if it lists no key for the signature. Fails only if out of memory.
fn signers_of<C: SignatureChecker, L: Ledger>(
    alloc: Global,
    certificate: &Certificate,
    listed: &[Option<&Certificate>],
    index: &SubjectIndex<'_>,
    checker: &C,
    steps: &mut Steps<L>,
) -> Result<Vec<usize>, OutOfMemory>
    requires index { IsIndexOf (all_seen listed.now) (length listed.now) index.now.last index.now.earlier.items }
    ensures signers { IfOk result (λ v. AreSigners (C.cert_accepts checker.now) certificate.now
        (all_seen listed.now) v.items) }
    ensures steps { steps.new ≤ steps.old + length listed.now }
{
    let mut signers = Vec::new(alloc);
    if !may_be_signed(certificate, checker) {
        return Ok(signers);
    }
    let mut next = index.last_of(certificate.issuer());
    'named: while let Some(place) = next {
        if has_signed(certificate, listed, place, checker, steps) {
            signers.push(place)?;
        }
        next = index.before(place);
    }
    Ok(signers)
}

/// Whether the candidate at the index signed the certificate.
#[tactic(auto, using(crate::proofs::SeenCandidates::signer_laws))]
pub(crate) fn has_signed<C: SignatureChecker, L: Ledger>(
    certificate: &Certificate,
    listed: &[Option<&Certificate>],
    place: usize,
    checker: &C,
    steps: &mut Steps<L>,
) -> bool
    ensures signed { result ≡ is_signer (C.cert_accepts checker.now) certificate.now (all_seen listed.now) place }
    ensures steps { steps.new ≤ steps.old + 1 }
{
    match candidate_at(listed, place) {
        Some(candidate) => is_signed_by(certificate, candidate, checker, steps),
        None => false,
    }
}
