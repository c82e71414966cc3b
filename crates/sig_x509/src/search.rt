//! The search for the issuer of a leaf.

ghost use Rattle.std.specs.Prelude.{◌≡◌, ◌+◌, ◌≤◌, length, IfOk, position, true};
ghost use Rattle.sig_base.specs.Answers.{Answers};
ghost use Rattle.sig_x509.specs.Candidates.{IsFirstPlace, all_seen, candidates_of, is_leading};
ghost use Rattle.sig_x509.specs.Issuance.{is_signed_by, signs_code_at};
ghost use Rattle.sig_x509.specs.PathSearch.{leads_from, most_questions, path_issuer};
ghost use Rattle.sig_x509.specs.Pool.{with_further};

use crate::asked::first_signer_of;
use crate::by_key::first_of_keys;
use crate::candidates::{push_further, push_intermediates};
use crate::issuance::{is_profiled, listed_keys, may_be_signed, signs_code_at};
use crate::issuer::Issuer;
use crate::links::{has_signed, links_of};
use crate::pool::CertificatePool;
use crate::subjects::index_subjects;
use crate::table::{first_row, leads_next};
use sig_base::{OutOfMemory, PoolError, SignatureChecker, Steps};
use sig_certificate::Certificate;
use std::alloc::Global;
use std::sync::ledger::Ledger;

impl CertificatePool {
    /// Returns the index of the first trust anchor that signed the certificate. A checker that lists the keys of a
    /// signature is asked for them, and another at most once for each different subject and SPKI.
    pub(crate) fn first_anchor<C: SignatureChecker, L: Ledger>(
        &self,
        certificate: &Certificate,
        checker: &C,
        steps: &mut Steps<L>,
    ) -> Option<usize>
        ensures found { result ≡ position (is_signed_by (C.cert_accepts checker.now) certificate.now) self.now.anchors }
        ensures steps { steps.new ≤ steps.old + length self.now.anchors }
    {
        let anchors = self.anchors.as_slice();
        match listed_keys(certificate, checker) {
            Some(keys) => first_of_keys(anchors, &self.by_key, certificate.issuer(), &keys),
            None => first_signer_of(certificate, anchors, &self.asked, checker, steps),
        }
    }

    /// Returns the issuer of the leaf in the first path, or why there is none. The checker is not asked about any key
    /// if it lists none for the leaf's signature.
    pub(crate) fn find_issuer<C: SignatureChecker, L: Ledger>(
        &self,
        alloc: Global,
        leaf: &Certificate,
        further: &[Certificate],
        time: i64,
        checker: &C,
        steps: &mut Steps<L>,
    ) -> Result<Issuer, PoolError>
        ensures exact { Answers PoolError.OutOfMemory (λ issuer. issuer) result (path_issuer
            (C.cert_accepts checker.now) (with_further self.now further.now) leaf.now time) }
        ensures steps { steps.new ≤ steps.old + most_questions (with_further self.now further.now) }
    {
        if !is_profiled(leaf) {
            return Err(PoolError::Malformed);
        }
        if !signs_code_at(leaf, time) {
            return Err(PoolError::VerificationFailed);
        }
        if !may_be_signed(leaf, checker) {
            return Err(PoolError::VerificationFailed);
        }
        if let Some(index) = self.first_anchor(leaf, checker, steps) {
            return Ok(Issuer::Anchor(index));
        }
        match self.first_intermediate(alloc, leaf, further, time, checker, steps)? {
            Some(index) => Ok(Issuer::Intermediate(index)),
            None => Err(PoolError::VerificationFailed),
        }
    }

    /// Returns the index of the first intermediate that issued the leaf, which signs code at the time, and leads to a
    /// trust anchor. Fails only if out of memory.
    fn first_intermediate<C: SignatureChecker, L: Ledger>(
        &self,
        alloc: Global,
        leaf: &Certificate,
        further: &[Certificate],
        time: i64,
        checker: &C,
        steps: &mut Steps<L>,
    ) -> Result<Option<usize>, OutOfMemory>
        requires signs { signs_code_at leaf.now time ≡ true }
        ensures found { IfOk result (λ o. o ≡ position
            (leads_from (C.cert_accepts checker.now) (with_further self.now further.now) leaf.now time)
            (with_further self.now further.now).intermediates) }
        ensures steps { steps.new + length self.now.anchors
            ≤ steps.old + most_questions (with_further self.now further.now) }
    {
        let listed = self.candidates(alloc, further, time)?;
        let index = index_subjects(alloc, &listed)?;
        let links = links_of(alloc, self, &listed, &index, checker, steps)?;
        let row = first_row(alloc, &links)?;
        Ok(first_leading(leaf, &listed, &row, checker, steps))
    }

    /// Returns the intermediates that may have signed a certificate of a path. Fails only if out of memory.
    fn candidates<'a>(
        &'a self,
        alloc: Global,
        further: &'a [Certificate],
        time: i64,
    ) -> Result<Vec<Option<&'a Certificate>>, OutOfMemory>
        ensures { IfOk result (λ v. all_seen v.items ≡ candidates_of (with_further self.now further.now) time) }
    {
        let mut listed = Vec::new(alloc);
        push_intermediates(&mut listed, self.intermediates.as_slice(), time)?;
        push_further(&mut listed, further, time)?;
        Ok(listed)
    }
}

/// Returns the index of the first intermediate that signed the leaf and of which the row holds.
fn first_leading<C: SignatureChecker, L: Ledger>(
    leaf: &Certificate,
    intermediates: &[Option<&Certificate>],
    row: &[bool],
    checker: &C,
    steps: &mut Steps<L>,
) -> Option<usize>
    ensures first { IsFirstPlace (is_leading (C.cert_accepts checker.now) leaf.now (all_seen intermediates.now) row.now)
        (length intermediates.now) result }
    ensures steps { steps.new ≤ steps.old + length intermediates.now }
{
    'intermediates: for index in 0..intermediates.len() {
        if is_leading(leaf, intermediates, row, index, checker, steps) {
            return Some(index);
        }
    }
    None
}

/// Whether the intermediate at the index has the row's bit and signed the leaf; the checker is asked only if the bit is
/// set.
fn is_leading<C: SignatureChecker, L: Ledger>(
    leaf: &Certificate,
    intermediates: &[Option<&Certificate>],
    row: &[bool],
    index: usize,
    checker: &C,
    steps: &mut Steps<L>,
) -> bool
    ensures leading { result ≡ is_leading (C.cert_accepts checker.now) leaf.now (all_seen intermediates.now) row.now
        index }
    ensures steps { steps.new ≤ steps.old + 1 }
{
    leads_next(row, index) && has_signed(leaf, intermediates, index, checker, steps)
}
