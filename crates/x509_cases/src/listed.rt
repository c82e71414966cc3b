//! How many questions a pool spares a checker that lists the keys of a signature.

use crate::certificate::certificate;
use crate::pool::place;
use sig_base::{KeyList, SignatureChecker, TableChecker, VerifyScheme};
use sig_cases::{Answer, Arguments};
use sig_part_cases::pool;
use sig_x509::uncounted;
use std::cell::Cell;

/// A table of accepted rows that counts how often it is asked about the signature of a certificate under a key. It
/// lists the keys of a signature, which is not counted.
#[derive(Drop)]
struct Lister {
    table: TableChecker,
    asked: Cell<u64>,
}

impl SignatureChecker for Lister {
    ghost use Rattle.sig_base.specs.Checker.{accepted};
    ghost use Rattle.sig_base.specs.Scheme.{name_of};
    ghost use Rattle.sig_base.specs.declared.checker.Operation.TheVariants.{Message, Prehash, Point, Certificate};
    ghost use Rattle.std.specs.Prelude.{[]};

    ghost spki_accepts = { λ lister scheme spki message signature. accepted lister.table Message
        (name_of scheme) spki message signature };

    ghost prehash_accepts = { λ lister scheme spki digest signature. accepted lister.table Prehash
        (name_of scheme) spki digest signature };

    ghost point_accepts = { λ lister point message signature. accepted lister.table Point [] point message
        signature };

    ghost cert_accepts = { λ lister issuer algorithm tbs signature. accepted lister.table Certificate algorithm
        issuer tbs signature };

    fn verify_spki(
        &self,
        scheme: VerifyScheme,
        spki: &[u8],
        message: &[u8],
        signature: &[u8],
    ) -> bool {
        self.table.verify_spki(scheme, spki, message, signature)
    }

    fn verify_spki_prehash(
        &self,
        scheme: VerifyScheme,
        spki: &[u8],
        digest: &[u8],
        signature: &[u8],
    ) -> bool {
        self.table
            .verify_spki_prehash(scheme, spki, digest, signature)
    }

    fn verify_p256_point(&self, point: &[u8], message: &[u8], signature: &[u8]) -> bool {
        self.table.verify_p256_point(point, message, signature)
    }

    fn verify_cert_signature(
        &self,
        issuer_spki: &[u8],
        algorithm: &[u8],
        tbs: &[u8],
        signature: &[u8],
    ) -> bool {
        self.asked.set(self.asked.get().saturating_add(1));
        self.table
            .verify_cert_signature(issuer_spki, algorithm, tbs, signature)
    }

    fn cert_keys(&self, algorithm: &[u8], tbs: &[u8], signature: &[u8]) -> Option<KeyList<'_>> {
        self.table.cert_keys(algorithm, tbs, signature)
    }
}

/// `listed TIME LEAF ANCHOR,.. INTERMEDIATE,.. ROW ..`: what `verify_cert_with_time` returns, and how many signatures the
/// checker was asked about, which lists the keys of a signature by the table of the rows.
pub(crate) fn listed(arguments: &mut Arguments<'_>, answer: &mut Answer) {
    let time = arguments.integer();
    let leaf = certificate(arguments, answer);
    let pool = pool(arguments, answer);
    let lister = Lister {
        table: arguments.checker(),
        asked: Cell::new(0),
    };
    if let (Some(leaf), Some(pool)) = (&leaf, &pool) {
        place(
            answer,
            uncounted::verify_cert_with_time(pool, arguments.alloc(), leaf, time, &lister),
        );
    }
    answer.value(&"asked");
    answer.value(&lister.asked.get());
}
