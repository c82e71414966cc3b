//! What says whether a signature is genuine: a [`SignatureChecker`]; the one of this program is a table of accepted
//! rows.
ghost use Rattle.std.specs.Prelude.{◌≡◌, ◌↔◌, Bool, List, ℕ, [], ◌∷◌, ◌++◌, IfOk, IfSome, OnOk, OnErr};
ghost use Rattle.std.specs.Prelude.{IsTrue, Contains};
ghost use Rattle.sig_base.specs.Checker.{AreKeysOf};
ghost use Rattle.sig_base.specs.PartOrder.{has_part};
ghost use Rattle.sig_base.specs.declared.scheme.VerifyScheme.{VerifyScheme as scheme_type};

use crate::bytes::Bytes;
use crate::key_list::KeyList;
use crate::memory::OutOfMemory;
use crate::owned_list::OwnedList;
use crate::part_order::{PartOrders, RowPart, some_row_has};
use crate::row_order::{RowParts, group_of, order_of, order_to, put_in_order};
use crate::scheme::VerifyScheme;
use std::alloc::Global;
use std::marker::Model;

/// Decides whether signatures are genuine. Each of its four checks returns exactly its predicate of the listed bytes: a
/// checker has no faults.
/// What this project proves is relative to these four predicates.
///
/// A checker is asked for each different signature of a signed note until it accepts one, with the whole text of the
/// note as message; and of a certificate for each different key of trust anchors of the issuer's name until it accepts
/// one, with the whole TBSCertificate. One that hashes the message in each call hashes signatures, or keys, times text:
/// keep the digest of the last message, or check the lengths of signatures first.
///
/// A checker that can list the keys under which the signature of a certificate is genuine, as a table can, is spared
/// these questions: [`cert_keys`](SignatureChecker::cert_keys).
pub trait SignatureChecker {
    /// The signatures over messages that are genuine under a scheme and an SPKI (DER).
    ghost spki_accepts: { Self → scheme_type → List ℕ → List ℕ → List ℕ → Bool };

    /// The signatures over digests that are genuine under a scheme and an SPKI (DER).
    ghost prehash_accepts: { Self → scheme_type → List ℕ → List ℕ → List ℕ → Bool };

    /// The signatures over messages that are genuine under a point of P-256.
    ghost point_accepts: { Self → List ℕ → List ℕ → List ℕ → Bool };

    /// The signatures over TBSCertificates that are genuine under an SPKI and an algorithm (both DER).
    ghost cert_accepts: { Self → List ℕ → List ℕ → List ℕ → List ℕ → Bool };

    /// Whether `signature` over `message` is genuine under `scheme` and the SPKI `spki` (DER).
    fn verify_spki(
        &self,
        scheme: VerifyScheme,
        spki: &[u8],
        message: &[u8],
        signature: &[u8],
    ) -> bool
        ensures { result ≡ spki_accepts self.now scheme spki.now message.now signature.now };

    /// Whether `signature` over the message of this `digest` is genuine under `scheme` and the SPKI `spki` (DER).
    fn verify_spki_prehash(
        &self,
        scheme: VerifyScheme,
        spki: &[u8],
        digest: &[u8],
        signature: &[u8],
    ) -> bool
        ensures { result ≡ prehash_accepts self.now scheme spki.now digest.now signature.now };

    /// Whether `signature` over `message` is genuine under the point `point` of P-256.
    fn verify_p256_point(&self, point: &[u8], message: &[u8], signature: &[u8]) -> bool
        ensures { result ≡ point_accepts self.now point.now message.now signature.now };

    /// Whether `signature` over the TBSCertificate `tbs` is genuine under the issuer's SPKI and `algorithm` (all DER).
    fn verify_cert_signature(
        &self,
        issuer_spki: &[u8],
        algorithm: &[u8],
        tbs: &[u8],
        signature: &[u8],
    ) -> bool
        ensures { result ≡ cert_accepts self.now issuer_spki.now algorithm.now tbs.now signature.now };

    /// Returns the keys (SPKI, DER) under which `signature` over the TBSCertificate `tbs` is genuine under the
    /// `algorithm` (all DER), each of them and no other; `None` if the checker cannot list them, as this body says. The
    /// list only spares questions: no decision depends on whether there is one.
    fn cert_keys(&self, algorithm: &[u8], tbs: &[u8], signature: &[u8]) -> Option<KeyList<'_>>
        ensures { IfSome result (AreKeysOf (λ spki. cert_accepts self.now spki algorithm.now tbs.now signature.now)) }
    {
        None
    }
}

/// The four questions that a checker is asked.
#[derive(Clone, Copy, PartialEq, Eq)]
pub enum Operation {
    /// A signature over a message, under a scheme and an SPKI.
    Message,
    /// A signature over a digest, under a scheme and an SPKI.
    Prehash,
    /// A signature over a message, under a point of P-256.
    Point,
    /// A signature over a TBSCertificate, under an algorithm element.
    Certificate,
}

/// A signature that the table accepts as genuine.
#[derive(Drop)]
pub struct AcceptedRow {
    /// The question that the row is for.
    pub operation: Operation,
    /// The scheme's name; empty for a point; the algorithm element's DER for a certificate.
    pub scheme: Bytes,
    /// The SPKI's DER; the point's bytes for a point; the issuer's SPKI's DER for a certificate.
    pub key: Bytes,
    /// The message that is signed; its digest for a prehash; the TBSCertificate's DER for a certificate.
    pub message: Bytes,
    /// The signature, byte for byte as the checker is asked for it.
    pub signature: Bytes,
}

/// A checker that accepts exactly the rows of a table.
#[derive(Drop)]
pub struct TableChecker {
    rows: OwnedList<AcceptedRow>,
    order: Vec<usize>,
    /// The orders in which `has` searches, once `order_parts` made them.
    parts: Option<PartOrders>,
}

impl Model for TableChecker {
    ghost use Rattle.std.specs.Prelude.{List};
    ghost use Rattle.sig_base.specs.declared.checker.AcceptedRow.{AcceptedRow};

    ghost Value = { List AcceptedRow };

    ghost view = { λ t. t.rows };

    ghost use Rattle.std.specs.Prelude.{IfSome};
    ghost use Rattle.sig_base.specs.PartOrder.{AreOrders};
    ghost use Rattle.sig_base.specs.RowOrder.{IsOrderOf};

    ghost invariant = { λ t. IsOrderOf t.rows t.order.items × IfSome t.parts (AreOrders t.rows) };
}

impl TableChecker {
    ghost use Rattle.sig_base.specs.Checker.{accepted};

    /// Returns the empty table, which accepts nothing.
    pub fn new(alloc: Global) -> TableChecker
        ensures { result ≡ [] }
    {
        TableChecker {
            rows: OwnedList::new(alloc),
            order: Vec::new(alloc),
            parts: None,
        }
    }

    /// Returns the table of these rows, which it sorts once. Fails only if out of memory.
    pub fn from_rows(
        alloc: Global,
        rows: OwnedList<AcceptedRow>,
    ) -> Result<TableChecker, OutOfMemory>
        ensures { IfOk result (λ table. table ≡ rows) }
    {
        let order = order_of(alloc, rows.as_slice())?;
        Ok(TableChecker {
            rows,
            order,
            parts: None,
        })
    }

    /// The rows, in the order in which they were given.
    pub fn rows(&self) -> &[AcceptedRow]
        ensures { result.now ≡ self.now }
    {
        self.rows.as_slice()
    }

    /// Sorts the rows by each of their parts too, so that [`has`](TableChecker::has) is a binary search until a row is
    /// added: for a table that is asked many times. Fails only if out of memory.
    pub fn order_parts(&mut self, alloc: Global) -> Result<(), OutOfMemory>
        ensures { self.new ≡ self.old }
    {
        self.parts = Some(PartOrders::of(alloc, self.rows.as_slice())?);
        Ok(())
    }

    /// Whether some row of the table has these bytes as this part, whatever else it has. It goes over all rows, unless
    /// they were sorted by [`order_parts`](TableChecker::order_parts).
    pub fn has(&self, part: RowPart, bytes: &[u8]) -> bool
        ensures { result ≡ has_part part self.now bytes.now }
    {
        let rows = self.rows.as_slice();
        match &self.parts {
            Some(orders) => orders.has(rows, part, bytes),
            None => some_row_has(rows, part, bytes),
        }
    }

    /// Adds a row at the end. It sorts the table anew, so make a table of many rows by `from_rows`. Fails only if out
    /// of memory; the table is then unchanged.
    pub fn push(&mut self, row: AcceptedRow) -> Result<(), OutOfMemory>
        ensures ok { OnOk result (self.new ≡ self.old ++ row ∷ []) }
        ensures err { OnErr result (self.new ≡ self.old) }
    {
        let index = self.rows.len();
        self.order.reserve(1)?;
        self.parts = None;
        self.rows.push(row)?;
        self.order.push(index)?;
        put_in_order(self.rows.as_slice(), &mut self.order);
        Ok(())
    }

    /// Whether a row of the table equals all five parts. A binary search: it compares about as many rows as the number
    /// of rows has binary digits. It compares whole messages only with a row that equals all other parts (for a
    /// certificate, all except the key).
    pub fn accepts(
        &self,
        operation: Operation,
        scheme: &[u8],
        key: &[u8],
        message: &[u8],
        signature: &[u8],
    ) -> bool
        ensures value { result ≡ accepted self.now operation scheme.now key.now message.now signature.now }
        ensures exact { IsTrue result ↔ Contains self.now (record {
          operation = operation;
          scheme = scheme.now;
          key = key.now;
          message = message.now;
          signature = signature.now;
        }) }
    {
        let sought = RowParts {
            operation,
            scheme,
            key,
            message,
            signature,
        };
        let rows = self.rows.as_slice();
        let found = self
            .order
            .as_slice()
            .binary_search_by(|index| order_to(rows, *index, &sought));
        found.is_ok()
    }
}

impl SignatureChecker for TableChecker {
    ghost use Rattle.sig_base.specs.Checker.{accepted};
    ghost use Rattle.sig_base.specs.Scheme.{name_of};
    ghost use Rattle.sig_base.specs.declared.checker.Operation.TheVariants.{Message, Prehash, Point, Certificate};

    ghost spki_accepts = { λ rows scheme spki message signature. accepted rows Message
        (name_of scheme) spki message signature };

    ghost prehash_accepts = { λ rows scheme spki digest signature. accepted rows Prehash
        (name_of scheme) spki digest signature };

    ghost point_accepts = { λ rows point message signature. accepted rows Point [] point message signature };

    ghost cert_accepts = { λ rows issuer algorithm tbs signature. accepted rows Certificate algorithm issuer tbs
        signature };

    fn verify_spki(
        &self,
        scheme: VerifyScheme,
        spki: &[u8],
        message: &[u8],
        signature: &[u8],
    ) -> bool {
        self.accepts(
            Operation::Message,
            scheme.name().as_bytes(),
            spki,
            message,
            signature,
        )
    }

    fn verify_spki_prehash(
        &self,
        scheme: VerifyScheme,
        spki: &[u8],
        digest: &[u8],
        signature: &[u8],
    ) -> bool {
        self.accepts(
            Operation::Prehash,
            scheme.name().as_bytes(),
            spki,
            digest,
            signature,
        )
    }

    fn verify_p256_point(&self, point: &[u8], message: &[u8], signature: &[u8]) -> bool {
        self.accepts(Operation::Point, &[], point, message, signature)
    }

    fn verify_cert_signature(
        &self,
        issuer_spki: &[u8],
        algorithm: &[u8],
        tbs: &[u8],
        signature: &[u8],
    ) -> bool {
        self.accepts(
            Operation::Certificate,
            algorithm,
            issuer_spki,
            tbs,
            signature,
        )
    }

    /// Returns the keys of the rows of this signature: two binary searches. A table can always list them.
    fn cert_keys(&self, algorithm: &[u8], tbs: &[u8], signature: &[u8]) -> Option<KeyList<'_>> {
        let sought = RowParts {
            operation: Operation::Certificate,
            scheme: algorithm,
            key: &[],
            message: tbs,
            signature,
        };
        let rows = self.rows.as_slice();
        Some(KeyList::new(rows, group_of(rows, self.order.as_slice(), &sought)))
    }
}
