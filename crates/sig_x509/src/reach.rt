//! Which intermediates can be at which place of a path that would hold if every signature were genuine.

ghost use Rattle.std.specs.Prelude.{◌≡◌, ◌≤◌, ◌<◌, map, false, IfOk};
ghost use Rattle.std.specs.List.{list_any};
ghost use Rattle.sig_certificate.specs.Profile.{constraints};
ghost use Rattle.sig_x509.specs.Path.{every_signature};
ghost use Rattle.sig_x509.specs.PathSearch.{is_rooted};
ghost use Rattle.sig_x509.specs.Possible.{any_both, below, bit, column, down_at, is_named, node_leads, node_of};
ghost use Rattle.sig_x509.specs.Possible.{node_reached, node_stands, up_at};

use crate::issuance::{may_issue, signs_code_at};
use crate::links::most_between;
use crate::table::allows;
use crate::trust_anchors::TrustAnchors;
use sig_base::{OutOfMemory, OwnedList};
use sig_certificate::Certificate;
use std::alloc::Global;

/// What the tables need of an intermediate: whether it may issue, how many others may come between it and the leaf,
/// whether a trust anchor has the name of its issuer, whether it may have issued the leaf, and which intermediates have
/// the name of its issuer, and of which it has the name of the issuer.
#[derive(Drop)]
pub(crate) struct Node {
    pub(crate) passes: bool,
    pub(crate) most: Option<u32>,
    pub(crate) rooted: bool,
    pub(crate) issues: bool,
    pub(crate) signers: OwnedList<bool>,
    pub(crate) signed: OwnedList<bool>,
}

/// Returns what the tables need of each intermediate. Fails only if out of memory.
pub(crate) fn nodes_of(
    alloc: Global,
    leaf: &Certificate,
    anchors: &TrustAnchors,
    further: &[Certificate],
    time: i64,
) -> Result<OwnedList<Node>, OutOfMemory>
    ensures { IfOk result (λ nodes. nodes ≡ map (node_of anchors.now further.now leaf.now time) further.now) }
{
    let mut nodes = OwnedList::new(alloc);
    'further: for certificate in further {
        let node = node_of(alloc, leaf, anchors, further, time, certificate)?;
        nodes.push(node)?;
    }
    Ok(nodes)
}

/// Returns what the tables need of one intermediate. Fails only if out of memory.
fn node_of(
    alloc: Global,
    leaf: &Certificate,
    anchors: &TrustAnchors,
    further: &[Certificate],
    time: i64,
    certificate: &Certificate,
) -> Result<Node, OutOfMemory>
    ensures { IfOk result (λ node. node ≡ node_of anchors.now further.now leaf.now time certificate.now) }
{
    let signers = signers_of(alloc, certificate, further)?;
    let signed = signed_by(alloc, certificate, further)?;
    Ok(Node {
        passes: may_issue(certificate, time),
        most: most_between(certificate),
        rooted: is_rooted(certificate, anchors),
        issues: signs_code_at(leaf, time) && is_named(leaf, certificate),
        signers,
        signed,
    })
}

/// Which of the intermediates have the name of the issuer. Fails only if out of memory.
fn signers_of(
    alloc: Global,
    certificate: &Certificate,
    further: &[Certificate],
) -> Result<OwnedList<bool>, OutOfMemory>
    ensures { IfOk result (λ row. row ≡ map (is_named certificate.now) further.now) }
{
    let mut row = OwnedList::new(alloc);
    'further: for other in further {
        row.push(is_named(certificate, other))?;
    }
    Ok(row)
}

/// Whether the second certificate has the name of the issuer of the first.
pub(crate) fn is_named(certificate: &Certificate, signer: &Certificate) -> bool
    ensures { result ≡ is_named certificate.now signer.now }
{
    certificate.issuer() == signer.subject()
}

/// Returns the intermediates whose name is that of the certificate's issuer. Fails only if out of memory.
fn signed_by(
    alloc: Global,
    certificate: &Certificate,
    further: &[Certificate],
) -> Result<OwnedList<bool>, OutOfMemory>
    ensures { IfOk result (λ row. row ≡ map (λ y. is_named y certificate.now) further.now) }
{
    let mut row = OwnedList::new(alloc);
    'further: for other in further {
        row.push(is_named(other, certificate))?;
    }
    Ok(row)
}

/// Whether a trust anchor has the name of the issuer.
#[tactic(auto, using(crate::proofs::SignerLists::any_named))]
fn is_rooted(certificate: &Certificate, anchors: &TrustAnchors) -> bool
    ensures { result ≡ list_any (is_named certificate.now) anchors.now }
{
    anchors.has_named(certificate.issuer())
}

/// For each number of places left which intermediates lead to a trust anchor. Fails only if out of memory.
pub(crate) fn up_rows(
    alloc: Global,
    nodes: &[Node],
) -> Result<OwnedList<OwnedList<bool>>, OutOfMemory>
    ensures { IfOk result (λ rows. rows ≡ map (up_at nodes.now) (below 7)) }
{
    let mut rows = OwnedList::new(alloc);
    let mut row = no_row(alloc, nodes)?;
    let mut left: u32 = 0;
    'levels: while left < 6 {
        let next = up_row(alloc, nodes, 5 - left, row.as_slice())?;
        rows.push(row)?;
        row = next;
        left += 1;
    }
    rows.push(row)?;
    Ok(rows)
}

/// The row of nothing.
fn no_row(alloc: Global, nodes: &[Node]) -> Result<OwnedList<bool>, OutOfMemory>
    ensures { IfOk result (λ row. row ≡ map (λ node. false) nodes.now) }
{
    let mut row = OwnedList::new(alloc);
    'nodes: for _ in nodes {
        row.push(false)?;
    }
    Ok(row)
}

/// The row of `node_leads`.
fn up_row(
    alloc: Global,
    nodes: &[Node],
    others: u32,
    next: &[bool],
) -> Result<OwnedList<bool>, OutOfMemory>
    ensures { IfOk result (λ row. row ≡ map (node_leads others next.now) nodes.now) }
{
    let mut row = OwnedList::new(alloc);
    'nodes: for node in nodes {
        row.push(node_leads(node, others, next))?;
    }
    Ok(row)
}

/// Whether it leads to a trust anchor from the place with `others` before it; the row is that of the next place.
fn node_leads(node: &Node, others: u32, next: &[bool]) -> bool
    ensures { result ≡ node_leads others next.now node.now }
{
    node_stands(node, others) && (node.rooted || any_both(node.signers.as_slice(), next))
}

/// Whether the intermediate can be in a path, at the place with `others` before it.
fn node_stands(node: &Node, others: u32) -> bool
    ensures { result ≡ node_stands others node.now }
{
    node.passes && allows(node.most, others)
}

/// Whether both rows have a bit at one place.
#[tactic(auto, using(crate::proofs::Bits::bit_steps))]
fn any_both(one: &[bool], other: &[bool]) -> bool
    ensures { result ≡ any_both one.now other.now }
{
    'places: for place in 0..one.len() {
        if bit(one, place) && bit(other, place) {
            return true;
        }
    }
    false
}

/// The bit at a place.
pub(crate) fn bit(row: &[bool], place: usize) -> bool
    ensures { result ≡ bit row.now place }
{
    match row.get(place) {
        Some(set) => *set,
        None => false,
    }
}

/// For each number of others before a signer which intermediates can be below it. Fails only if out of memory.
pub(crate) fn down_rows(
    alloc: Global,
    nodes: &[Node],
) -> Result<OwnedList<OwnedList<bool>>, OutOfMemory>
    ensures { IfOk result (λ rows. rows ≡ map (down_at nodes.now) (below 7)) }
{
    let mut rows = OwnedList::new(alloc);
    let mut row = no_row(alloc, nodes)?;
    let mut others: u32 = 0;
    'levels: while others < 6 {
        let next = down_row(alloc, nodes, others, row.as_slice())?;
        rows.push(row)?;
        row = next;
        others += 1;
    }
    rows.push(row)?;
    Ok(rows)
}

/// The row of `node_reached`.
fn down_row(
    alloc: Global,
    nodes: &[Node],
    others: u32,
    previous: &[bool],
) -> Result<OwnedList<bool>, OutOfMemory>
    ensures { IfOk result (λ row. row ≡ map (node_reached others previous.now) nodes.now) }
{
    let mut row = OwnedList::new(alloc);
    'nodes: for node in nodes {
        row.push(node_reached(node, others, previous))?;
    }
    Ok(row)
}

/// Whether it is reached from the leaf at the place with `others` before it; the row is that of the place before.
fn node_reached(node: &Node, others: u32, previous: &[bool]) -> bool
    ensures { result ≡ node_reached others previous.now node.now }
{
    if others == 0 {
        return node_stands(node, 0) && node.issues;
    }
    node_stands(node, others) && any_both(node.signed.as_slice(), previous)
}

/// The bits of the rows at one place. Fails only if out of memory.
pub(crate) fn column(
    alloc: Global,
    rows: &[OwnedList<bool>],
    place: usize,
) -> Result<OwnedList<bool>, OutOfMemory>
    ensures { IfOk result (λ bits. bits ≡ column rows.now place) }
{
    let mut bits = OwnedList::new(alloc);
    'rows: for row in rows {
        bits.push(bit(row.as_slice(), place))?;
    }
    Ok(bits)
}
