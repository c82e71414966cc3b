//! Pools of trust anchors and intermediates.

use crate::certificate::certificate_of;
use sig_base::PoolError;
use sig_cases::{Answer, Arguments};
use sig_part_cases::pool;
use sig_x509::{CertificatePool, Issuer, uncounted};

/// `from_certificates ANCHOR,.. INTERMEDIATE,..`: whether there is a pool of them.
pub(crate) fn made(arguments: &mut Arguments<'_>, answer: &mut Answer) {
    let roots = arguments.entries();
    let intermediates = arguments.entries();
    match CertificatePool::from_certificates(arguments.alloc(), &roots, &intermediates) {
        Ok(_) => answer.ok(),
        Err(refusal) => answer.error(refusal),
    }
}

/// `issuer_spki anchor|intermediate PLACE ANCHOR,.. INTERMEDIATE,..`: the SPKI of the trust anchor or intermediate at
/// the index.
pub(crate) fn spki(arguments: &mut Arguments<'_>, answer: &mut Answer) {
    let is_anchor = arguments.word() == "anchor";
    let place = arguments.natural() as usize;
    let Some(pool) = pool(arguments, answer) else {
        return;
    };
    let issuer = if is_anchor {
        Issuer::Anchor(place)
    } else {
        Issuer::Intermediate(place)
    };
    match pool.issuer_spki(issuer) {
        Some(spki) => {
            answer.ok();
            answer.hex(spki);
        }
        None => answer.value(&"none"),
    }
}

/// `verify_der_cert TIME LEAF ANCHOR,.. INTERMEDIATE,.. ROW ..`: the leaf's issuer. `verify_cert_with_time` has to say
/// the same for a leaf that is a certificate; if it does not, its result follows.
pub(crate) fn issuer(arguments: &mut Arguments<'_>, answer: &mut Answer) {
    let time = arguments.integer();
    let leaf = arguments.hex();
    if let Some(pool) = pool(arguments, answer) {
        issuer_in(&pool, &leaf, time, arguments, answer);
    }
}

/// `ROW ..`: the leaf's issuer in this pool.
fn issuer_in(
    pool: &CertificatePool,
    leaf: &[u8],
    time: i64,
    arguments: &mut Arguments<'_>,
    answer: &mut Answer,
) {
    let checker = arguments.checker();
    let found = uncounted::verify_der_cert(pool, arguments.alloc(), leaf, time, &checker);
    place(answer, found);
    if let Some(read) = certificate_of(arguments.alloc(), answer, leaf) {
        let other = uncounted::verify_cert_with_time(
            pool,
            arguments.alloc(),
            &read,
            time,
            &checker,
        );
        if other != found {
            place(answer, other);
        }
    }
    drop(checker);
}

/// Adds an issuer, or why there is no issuer.
pub(crate) fn place(answer: &mut Answer, found: Result<Issuer, PoolError>) {
    match found {
        Ok(Issuer::Anchor(place)) => {
            answer.ok();
            answer.value(&"anchor");
            answer.value(&place);
        }
        Ok(Issuer::Intermediate(place)) => {
            answer.ok();
            answer.value(&"intermediate");
            answer.value(&place);
        }
        Err(refusal) => answer.error(refusal),
    }
}
