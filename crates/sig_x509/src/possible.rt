//! The signatures of certificates on a path that would hold if every signature were genuine. The result of a search
//! does not depend on what the checker says of any other.

ghost use Rattle.std.specs.Prelude.{◌≡◌, ◌<◌, map, IfOk};
ghost use Rattle.sig_x509.specs.Possible.{anchor_signer, any_below, below, down_at, further_signed, further_signer};
ghost use Rattle.sig_x509.specs.Possible.{may_sign, meets_at, node_of, seen_signed, seen_signer, seen_under};
ghost use Rattle.sig_x509.specs.Possible.{signed_under, signers_with, the_leaf, under_all, up_at};

use crate::issuance::signs_code_at;
use crate::reach::{bit, column, down_rows, is_named, nodes_of, up_rows};
use crate::trust_anchors::TrustAnchors;
use sig_base::{OutOfMemory, OwnedList};
use sig_certificate::Certificate;
use std::alloc::Global;

/// A certificate whose signature may be asked about, the leaf or an intermediate, and those under whose keys: trust
/// anchors, and then intermediates.
#[derive(Drop)]
pub struct PossibleSigners<'a> {
    pub certificate: &'a Certificate,
    pub signers: Vec<&'a Certificate>,
}

/// The signatures that may be asked about: the leaf's, and those of the intermediates in order.
#[derive(Drop)]
pub struct PossiblePaths<'a> {
    pub leaf: PossibleSigners<'a>,
    pub further: Vec<PossibleSigners<'a>>,
}

/// A certificate whose signature may be asked about, and for each number of others before its signer whether one can be
/// there.
#[derive(Drop)]
pub(crate) struct Signed<'a> {
    pub(crate) certificate: &'a Certificate,
    pub(crate) next: OwnedList<bool>,
}

/// An intermediate, and for each number of places left whether it leads to a trust anchor.
#[derive(Drop)]
pub(crate) struct Signer<'a> {
    pub(crate) certificate: &'a Certificate,
    pub(crate) up: OwnedList<bool>,
}

/// Returns whose signatures may be asked about in a search for a path from the leaf over these intermediates to a trust
/// anchor, at the time in seconds since 1970: the leaf's, and those of the intermediates in order; and of each under
/// whose keys: those of the trust anchors, and then those of the intermediates, that may have signed it in a path which
/// would hold if every signature were genuine. Fails only if out of memory.
pub fn possible_paths<'a>(
    alloc: Global,
    leaf: &'a Certificate,
    anchors: &'a TrustAnchors,
    further: &'a [Certificate],
    time: i64,
) -> Result<PossiblePaths<'a>, OutOfMemory>
    ensures leaf { IfOk result (λ p. seen_under p.leaf ≡ under_all anchors.now further.now time (the_leaf leaf.now time)) }
    ensures further { IfOk result (λ p. map seen_under p.further.items
        ≡ map (λ z. under_all anchors.now further.now time (further_signed further.now leaf.now time z)) further.now) }
{
    let nodes = nodes_of(alloc, leaf, anchors, further, time)?;
    let downs = down_rows(alloc, nodes.as_slice())?;
    let ups = up_rows(alloc, nodes.as_slice())?;
    let first = the_leaf(alloc, leaf, time)?;
    let signed = further_signed(alloc, leaf, anchors, further, time, downs.as_slice())?;
    let signers = further_signers(alloc, leaf, anchors, further, time, ups.as_slice())?;
    Ok(PossiblePaths {
        leaf: signed_under(alloc, anchors, &signers, &first)?,
        further: each_under(alloc, anchors, &signers, &signed)?,
    })
}

/// The leaf. Fails only if out of memory.
fn the_leaf<'a>(alloc: Global, leaf: &'a Certificate, time: i64) -> Result<Signed<'a>, OutOfMemory>
    ensures { IfOk result (λ signed. seen_signed signed ≡ the_leaf leaf.now time) }
{
    let mut next = OwnedList::new(alloc);
    next.push(signs_code_at(leaf, time))?;
    Ok(Signed {
        certificate: leaf,
        next,
    })
}

/// Each intermediate, as one that was signed. Fails only if out of memory.
fn further_signed<'a>(
    alloc: Global,
    leaf: &Certificate,
    anchors: &TrustAnchors,
    further: &'a [Certificate],
    time: i64,
    rows: &[OwnedList<bool>],
) -> Result<Vec<Signed<'a>>, OutOfMemory>
    requires rows { rows.now ≡ map (down_at (map (node_of anchors.now further.now leaf.now time) further.now)) (below 7) }
    ensures { IfOk result (λ v. map seen_signed v.items ≡ map (further_signed further.now leaf.now time) further.now) }
{
    let mut signed = Vec::new(alloc);
    'further: for (place, certificate) in further.iter().enumerate() {
        let next = column(alloc, rows, place)?;
        signed.push(Signed { certificate, next })?;
    }
    Ok(signed)
}

/// Each intermediate, as one that signs. Fails only if out of memory.
fn further_signers<'a>(
    alloc: Global,
    leaf: &Certificate,
    anchors: &TrustAnchors,
    further: &'a [Certificate],
    time: i64,
    rows: &[OwnedList<bool>],
) -> Result<Vec<Signer<'a>>, OutOfMemory>
    requires rows { rows.now ≡ map (up_at (map (node_of anchors.now further.now leaf.now time) further.now)) (below 7) }
    ensures { IfOk result (λ v. map seen_signer v.items ≡ map (further_signer anchors.now further.now time) further.now) }
{
    let mut signers = Vec::new(alloc);
    'further: for (place, certificate) in further.iter().enumerate() {
        let up = column(alloc, rows, place)?;
        signers.push(Signer { certificate, up })?;
    }
    Ok(signers)
}

/// The certificate with those who may have signed it: the trust anchors that are named, and then of the intermediates.
/// Fails only if out of memory.
fn signed_under<'a>(
    alloc: Global,
    anchors: &'a TrustAnchors,
    signers: &[Signer<'a>],
    signed: &Signed<'a>,
) -> Result<PossibleSigners<'a>, OutOfMemory>
    ensures { IfOk result (λ p. seen_under p ≡ signed_under (signers_with anchors.now signers.now) (seen_signed signed.now)) }
{
    let mut found = anchors_of(alloc, anchors, signed)?;
    'signers: for signer in signers {
        if may_sign(signed, signer) {
            found.push(signer.certificate)?;
        }
    }
    Ok(PossibleSigners {
        certificate: signed.certificate,
        signers: found,
    })
}

/// The trust anchors that may have signed the certificate: those of its issuer's name, if a signer can be anywhere.
/// Fails only if out of memory.
fn anchors_of<'a>(
    alloc: Global,
    anchors: &'a TrustAnchors,
    signed: &Signed<'_>,
) -> Result<Vec<&'a Certificate>, OutOfMemory>
    ensures { IfOk result (λ v. map (λ x. x.now) v.items
        ≡ (signed_under (map anchor_signer anchors.now) (seen_signed signed.now)).signers) }
{
    if meets(signed.next.as_slice(), true, &[]) {
        anchors.named(alloc, signed.certificate.issuer())
    } else {
        Ok(Vec::new(alloc))
    }
}

/// Whether the signature of the one under the key of the other lies on a path that would hold if every signature were
/// genuine.
fn may_sign(signed: &Signed<'_>, signer: &Signer<'_>) -> bool
    ensures { result ≡ may_sign (seen_signed signed.now) (seen_signer signer.now) }
{
    is_named(signed.certificate, signer.certificate)
        && meets(signed.next.as_slice(), false, signer.up.as_slice())
}

/// Whether both can be at one place.
#[tactic(auto, using(crate::proofs::Bits::bit_steps))]
fn meets(next: &[bool], trusted: bool, up: &[bool]) -> bool
    ensures { result ≡ any_below 7 (meets_at next.now trusted up.now) }
{
    'levels: for others in 0..7 {
        if meets_at(next, trusted, up, others) {
            return true;
        }
    }
    false
}

/// Whether the signer of a certificate, and a certificate, can both be at the place with this number of others before
/// it.
fn meets_at(next: &[bool], trusted: bool, up: &[bool], others: usize) -> bool
    requires { others < 7 }
    ensures { result ≡ meets_at next.now trusted up.now others }
{
    bit(next, others) && (trusted || bit(up, 6 - others))
}

/// Returns each of these certificates with those that may have signed it. Fails only if out of memory.
fn each_under<'a>(
    alloc: Global,
    anchors: &'a TrustAnchors,
    signers: &[Signer<'a>],
    signed: &[Signed<'a>],
) -> Result<Vec<PossibleSigners<'a>>, OutOfMemory>
    ensures { IfOk result (λ v. map seen_under v.items
        ≡ map (λ y. signed_under (signers_with anchors.now signers.now) (seen_signed y)) signed.now) }
{
    let mut all = Vec::new(alloc);
    'signed: for certificate in signed {
        let under = signed_under(alloc, anchors, signers, certificate)?;
        all.push(under)?;
    }
    Ok(all)
}
