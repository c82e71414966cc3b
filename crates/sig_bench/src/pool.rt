//! Pools whose certificates all have one name.

use sig_base::{Entries, PoolError, SignatureChecker, VerifyScheme};
use sig_certificate::Certificate;
use sig_x509::{CertificatePool, uncounted};
use std::alloc::Global;
use std::cell::Cell;

/// A second of the validity of the certificates.
const TIME: i64 = 1702446655;

/// Accepts nothing, and counts the questions.
#[derive(Drop)]
struct Refusing {
    asked: Cell<u64>,
}

impl SignatureChecker for Refusing {
    ghost use Rattle.std.specs.Prelude.{false};

    ghost spki_accepts = { λ checker scheme spki message signature. false };

    ghost prehash_accepts = { λ checker scheme spki digest signature. false };

    ghost point_accepts = { λ checker point message signature. false };

    ghost cert_accepts = { λ checker issuer algorithm tbs signature. false };

    fn verify_spki(
        &self,
        _scheme: VerifyScheme,
        _spki: &[u8],
        _message: &[u8],
        _signature: &[u8],
    ) -> bool {
        false
    }

    fn verify_spki_prehash(
        &self,
        _scheme: VerifyScheme,
        _spki: &[u8],
        _digest: &[u8],
        _signature: &[u8],
    ) -> bool {
        false
    }

    fn verify_p256_point(&self, _point: &[u8], _message: &[u8], _signature: &[u8]) -> bool {
        false
    }

    fn verify_cert_signature(
        &self,
        _issuer_spki: &[u8],
        _algorithm: &[u8],
        _tbs: &[u8],
        _signature: &[u8],
    ) -> bool {
        self.asked.set(self.asked.get().saturating_add(1));
        false
    }
}

/// Returns how many questions are asked about the leaf, the first certificate of the input, by a pool of the next
/// `count` as trust anchors and of the rest, an equal number, as intermediates. `None` if there is no such pool, or an
/// issuer.
pub fn questions(alloc: Global, input: &[u8], count: u64) -> Option<u64> {
    let (leaf, rest) = cut(input)?;
    let (anchors, rest) = cut_list(alloc, rest, count)?;
    let (intermediates, _) = cut_list(alloc, rest, count)?;
    let Ok(pool) = CertificatePool::from_certificates(alloc, &anchors, &intermediates) else {
        return None;
    };
    let Ok(leaf) = Certificate::try_from_der(alloc, leaf) else {
        return None;
    };
    let checker = Refusing {
        asked: Cell::new(0),
    };
    match uncounted::verify_cert_with_time(&pool, alloc, &leaf, TIME, &checker) {
        Err(PoolError::VerificationFailed) => Some(checker.asked.get()),
        _ => None,
    }
}

/// Cuts off the first certificate, whose length is in the two bytes before it.
fn cut(input: &[u8]) -> Option<(&[u8], &[u8])> {
    if input.len() < 2 {
        return None;
    }
    let size = usize::from(input[0]) * 256 + usize::from(input[1]);
    let (_, rest) = input.split_at(2);
    if rest.len() < size {
        return None;
    }
    Some(rest.split_at(size))
}

/// The first `count` certificates of the input, and the rest of it.
fn cut_list(alloc: Global, input: &[u8], count: u64) -> Option<(Entries, &[u8])> {
    let mut listed = Entries::new(alloc);
    let mut rest = input;
    for _ in 0..count {
        let (der, after) = cut(rest)?;
        if listed.push(der).is_err() {
            return None;
        }
        rest = after;
    }
    Some((listed, rest))
}
