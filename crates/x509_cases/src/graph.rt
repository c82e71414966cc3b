//! Pools whose certificates are spelled by a few letters each.

use crate::node::Node;
use crate::pool::place;
use sig_base::{Entries, OutOfMemory, PoolError, SignatureChecker, VerifyScheme};
use sig_cases::{Answer, Arguments};
use sig_x509::{Certificate, CertificatePool, X509ReadError, uncounted};
use std::alloc::Global;
use std::cell::Cell;

/// A second of the validity of the leaf.
const TIME: i64 = 1702446655;

/// Accepts a signature whose bits are the SPKI, and counts how often it is asked.
#[derive(Drop)]
struct KeyChecker {
    asked: Cell<u64>,
}

impl SignatureChecker for KeyChecker {
    ghost use Rattle.std.specs.Prelude.{false};
    ghost use Rattle.std.specs.Str.{bytes_eq};

    ghost spki_accepts = { λ checker scheme spki message signature. false };

    ghost prehash_accepts = { λ checker scheme spki digest signature. false };

    ghost point_accepts = { λ checker point message signature. false };

    ghost cert_accepts = { λ checker issuer algorithm tbs signature. bytes_eq issuer signature };

    fn verify_spki(
        &self,
        _scheme: VerifyScheme,
        _spki: &[u8],
        _message: &[u8],
        _signature: &[u8],
    ) -> bool {
        false
    }

    fn verify_spki_prehash(
        &self,
        _scheme: VerifyScheme,
        _spki: &[u8],
        _digest: &[u8],
        _signature: &[u8],
    ) -> bool {
        false
    }

    fn verify_p256_point(&self, _point: &[u8], _message: &[u8], _signature: &[u8]) -> bool {
        false
    }

    fn verify_cert_signature(
        &self,
        issuer_spki: &[u8],
        _algorithm: &[u8],
        _tbs: &[u8],
        signature: &[u8],
    ) -> bool {
        self.asked.set(self.asked.get().saturating_add(1));
        issuer_spki == signature
    }
}

/// Why there is no graph: the line does not have one, or memory ran out.
#[derive(Drop)]
enum NoGraph {
    BadLine,
    OutOfMemory,
}

impl From<OutOfMemory> for NoGraph {
    fn from(_: OutOfMemory) -> NoGraph {
        NoGraph::OutOfMemory
    }
}

/// The certificates of a line.
#[derive(Drop)]
struct Graph {
    leaf: Certificate,
    pool: CertificatePool,
    further: Vec<Certificate>,
}

/// `graph LEAF ANCHOR,.. INTERMEDIATE,.. FURTHER,..`: what `verify_cert_with_chain` returns of certificates that are
/// spelled, and how many questions the checker is asked.
pub(crate) fn issuer(arguments: &mut Arguments<'_>, answer: &mut Answer) {
    match graph_of(arguments) {
        Ok(graph) => search(&graph, arguments.alloc(), answer),
        Err(NoGraph::BadLine) => arguments.refuse(),
        Err(NoGraph::OutOfMemory) => answer.out_of_memory(),
    }
}

/// The graph of the next four arguments.
fn graph_of(arguments: &mut Arguments<'_>) -> Result<Graph, NoGraph> {
    let alloc = arguments.alloc();
    let leaf = read(alloc, arguments.word())?;
    let anchors = arguments.word();
    let pool = pool_of(alloc, anchors, arguments.word())?;
    let further = further_of(alloc, arguments.word())?;
    Ok(Graph {
        leaf,
        pool,
        further,
    })
}

fn read(alloc: Global, word: &str) -> Result<Certificate, NoGraph> {
    let der = der_of(alloc, word)?;
    certificate_of(alloc, &der)
}

/// The DER of a word: that of the certificate that its letters spell, or, for `?`, bytes that are not one.
fn der_of(alloc: Global, word: &str) -> Result<Vec<u8>, NoGraph> {
    match Node::spelled(word.as_bytes()) {
        Some(node) => Ok(node.certificate(alloc)?),
        None if word == "?" => Ok(Vec::new(alloc)),
        None => Err(NoGraph::BadLine),
    }
}

fn certificate_of(alloc: Global, der: &[u8]) -> Result<Certificate, NoGraph> {
    match Certificate::try_from_der(alloc, der) {
        Ok(certificate) => Ok(certificate),
        Err(X509ReadError::Der) => Err(NoGraph::BadLine),
        Err(X509ReadError::OutOfMemory) => Err(NoGraph::OutOfMemory),
    }
}

fn pool_of(alloc: Global, anchors: &str, intermediates: &str) -> Result<CertificatePool, NoGraph> {
    let roots = ders_of(alloc, anchors)?;
    let others = ders_of(alloc, intermediates)?;
    match CertificatePool::from_certificates(alloc, &roots, &others) {
        Ok(pool) => Ok(pool),
        Err(PoolError::OutOfMemory) => Err(NoGraph::OutOfMemory),
        Err(_) => Err(NoGraph::BadLine),
    }
}

/// The DERs of a list of words, divided by commas; `-` is the empty list.
fn ders_of(alloc: Global, list: &str) -> Result<Entries, NoGraph> {
    let mut entries = Entries::new(alloc);
    if list != "-" {
        for word in list.split(',') {
            let der = der_of(alloc, word)?;
            entries.push(&der)?;
        }
    }
    Ok(entries)
}

fn further_of(alloc: Global, list: &str) -> Result<Vec<Certificate>, NoGraph> {
    let ders = ders_of(alloc, list)?;
    let mut further = Vec::new(alloc);
    for der in ders.as_slice() {
        let certificate = certificate_of(alloc, der.as_slice())?;
        if further.push(certificate).is_err() {
            return Err(NoGraph::OutOfMemory);
        }
    }
    Ok(further)
}

/// Adds what `verify_cert_with_chain` returns, and how many questions the checker was asked.
fn search(graph: &Graph, alloc: Global, answer: &mut Answer) {
    let checker = KeyChecker {
        asked: Cell::new(0),
    };
    if graph.further.len() <= 16 {
        let further = graph.further.as_slice();
        place(
            answer,
            uncounted::verify_cert_with_chain(
                &graph.pool,
                alloc,
                &graph.leaf,
                further,
                TIME,
                &checker,
            ),
        );
        answer.value(&"asked");
        answer.value(&checker.asked.get());
    }
}

/// `spelled WORD`: the DER of the certificate of these letters.
pub(crate) fn spelled(arguments: &mut Arguments<'_>, answer: &mut Answer) {
    match der_of(arguments.alloc(), arguments.word()) {
        Ok(der) => {
            answer.ok();
            answer.hex(&der);
        }
        Err(NoGraph::BadLine) => arguments.refuse(),
        Err(NoGraph::OutOfMemory) => answer.out_of_memory(),
    }
}
