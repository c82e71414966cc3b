//! Which trust anchors a checker is asked about: only the first of those with one subject and one key.

ghost use Rattle.std.specs.Prelude.{◌≡◌, ◌+◌, ◌≤◌, length, IfOk};
ghost use Rattle.std.specs.List.{find};
ghost use Rattle.sig_x509.specs.AskedAnchors.{AreFewAsked, is_signed_at};

use crate::issuance::is_signed_by;
use sig_base::{OutOfMemory, SignatureChecker, Steps};
use sig_certificate::Certificate;
use std::alloc::Global;
use std::collections::BTreeSet;
use std::sync::ledger::Ledger;

/// Returns the indices, ascending, of the trust anchors whose subject and SPKI no anchor before them has. Fails only
/// if out of memory.
pub(crate) fn asked_of(alloc: Global, anchors: &[Certificate]) -> Result<Vec<usize>, OutOfMemory>
    ensures { IfOk result (λ asked. AreFewAsked anchors.now asked.items) }
{
    let mut seen = BTreeSet::new(alloc);
    let mut asked = Vec::new(alloc);
    'anchors: for (index, anchor) in anchors.iter().enumerate() {
        if seen.insert((anchor.subject(), anchor.spki()))? {
            asked.push(index)?;
        }
    }
    Ok(asked)
}

/// Returns the first of these indices whose trust anchor signed the leaf.
pub(crate) fn first_signer_of<C: SignatureChecker, L: Ledger>(
    leaf: &Certificate,
    anchors: &[Certificate],
    asked: &[usize],
    checker: &C,
    steps: &mut Steps<L>,
) -> Option<usize>
    ensures found { result ≡ find (is_signed_at (C.cert_accepts checker.now) leaf.now anchors.now) asked.now }
    ensures steps { steps.new ≤ steps.old + length asked.now }
{
    'asked: for index in asked {
        if is_signed_at(leaf, anchors, *index, checker, steps) {
            return Some(*index);
        }
    }
    None
}

/// Whether the trust anchor at the index signed the leaf.
fn is_signed_at<C: SignatureChecker, L: Ledger>(
    leaf: &Certificate,
    anchors: &[Certificate],
    index: usize,
    checker: &C,
    steps: &mut Steps<L>,
) -> bool
    ensures signed { result ≡ is_signed_at (C.cert_accepts checker.now) leaf.now anchors.now index }
    ensures steps { steps.new ≤ steps.old + 1 }
{
    match anchors.get(index) {
        Some(anchor) => is_signed_by(leaf, anchor, checker, steps),
        None => false,
    }
}
