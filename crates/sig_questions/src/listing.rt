//! The questions of a chain of trust, listed.
ghost use Rattle.std.specs.Prelude.{◌≡◌, ◌↔◌, ◌++◌, ℕ, ℤ, Contains, IfOk, List, OnOk};
ghost use Rattle.sig_base.specs.Answers.{UnlessMemory};
ghost use Rattle.sig_base.specs.declared.checker.AcceptedRow.{AcceptedRow as row_type};
ghost use Rattle.sig_verify.specs.EntryLinks.{IsOfBytes};
ghost use Rattle.sig_verify.specs.LinkLaws.{IsReadCertificate};
ghost use Rattle.sig_verify.specs.Outcome.{inputs_of};
ghost use Rattle.sig_questions.specs.Asked.{IsAskedBy};
ghost use Rattle.sig_questions.specs.AskedRoot.{IsAnsweredIn, IsAnsweredOf, IsAnsweredUnder, IsAskedRootOf};
ghost use Rattle.sig_questions.specs.Few.{AreFewQuestions};
ghost use Rattle.sig_questions.specs.Front.{IsPassedBundle};
ghost use Rattle.sig_questions.specs.Listed.{AreListed, AreListedAs, AreListedUnder, trust_in};
ghost use Rattle.sig_questions.specs.Lists.{content_questions, entry_questions};
ghost use Rattle.sig_questions.specs.Order.{AreInOrder, IsAskedAt};
ghost use Rattle.sig_questions.specs.Questions.{AreQuestions, IsDecided, Suffices};
ghost use Rattle.sig_questions.specs.Written.{AddsRows, rows_after, rows_of_paths};

use crate::asked_root::{AskedRoot, AskedTrust};
use crate::bytes::is_read_certificate;
use crate::content::push_content;
use crate::entry::push_entry;
use crate::front::{check_front, unread};
use crate::laws::{listed_texts, questions_suffice};
use crate::paths::push_certificates;
use crate::points::push_points;
use crate::rows::Rows;
use crate::trust::TrustParts;
use sig_base::{AcceptedRow, KeyMap, OutOfMemory, OwnedList};
use sig_bundle::{ArtifactDigest, Bundle, read_bundle};
use sig_certificate::laws::certificates;
use sig_checked_bundle::laws::passed_bundles;
use sig_checked_bundle::{BundleErrorKind, CheckedBundle};
use sig_verify::Link;
use sig_x509::{PossiblePaths, possible_paths};
use std::alloc::{AllocError, Global};
use std::fmt;
use thiserror::Error;

/// Why there are no questions.
#[derive(Clone, Copy, PartialEq, Eq, Error)]
pub enum NoQuestions {
    /// This link is the first that fails, whatever the checker and the policy say.
    #[error("Link")]
    Link(Link),
    /// The rows have more bytes than they may.
    #[error("TooLong")]
    TooLong,
    /// Out of memory.
    #[error("OutOfMemory")]
    OutOfMemory,
}

impl fmt::Debug for NoQuestions {
    fn fmt<W: fmt::Write>(&self, f: &mut fmt::Formatter<W>) -> fmt::Result {
        fmt::Display::fmt(self, f)
    }
}

impl From<OutOfMemory> for NoQuestions {
    ghost use Rattle.std.specs.Prelude.{◌≡◌};
    ghost use Rattle.sig_questions.specs.declared.listing.NoQuestions.TheVariants.{OutOfMemory as Memory};

    ghost from_gives = { λ _ e. e ≡ Memory };

    fn from(_error: OutOfMemory) -> NoQuestions {
        NoQuestions::OutOfMemory
    }
}

impl From<AllocError> for NoQuestions {
    ghost use Rattle.std.specs.Prelude.{◌≡◌};
    ghost use Rattle.sig_questions.specs.declared.listing.NoQuestions.TheVariants.{OutOfMemory as Memory};

    ghost from_gives = { λ _ e. e ≡ Memory };

    fn from(_error: AllocError) -> NoQuestions {
        NoQuestions::OutOfMemory
    }
}

/// Lists the signatures that the chain of trust of a bundle can depend on, as rows of a table of accepted signatures. A
/// caller asks its cryptography of each row whether the signature is genuine, makes a
/// [`TableChecker`](sig_base::TableChecker) of the rows that are, and calls
/// [`verify_offline`](sig_verify::verify_offline) with it: no other row matters, whatever the policy.
///
/// `trusted_root` and `bundle` are the texts of a Sigstore trusted root and of a bundle, `now` is in seconds since
/// 1970, `digest` is that of the artifact, and `most` is how many bytes all parts of all rows may have together. The
/// rows come in the order in which the links ask:
///
/// - the certificate, and then each further one of the bundle, under the keys of the trust anchors and then of the
///   further certificates: those of two that come one after the other in a path from the certificate to a trust anchor
///   that would hold if every signature were genuine (RFC 5280 section 6.1);
/// - what its SCT signs, under the point of the SCT's log, as issued under each of these keys in such a path (RFC 6962
///   section 3.2);
/// - the encoding of the envelope (DSSE protocol), or the SHA-256 digest of the artifact, under the certificate's key;
/// - the text of the log's promise (Rekor's signed entry timestamp), under the key of the entry's log;
/// - the note of the entry's checkpoint, with each of its signatures, under that key.
///
/// A part that is not there, or that no checker is asked about, has no row. Errors:
///
/// - `Link`: this link is the first that fails, whatever is accepted: one of those up to `issuance`, or `issuer` if no
///   path would lead to a trust anchor;
/// - `TooLong`: no link is, and the rows have more than `most` bytes. A row for which there is no room is not copied;
/// - `OutOfMemory`.
pub fn questions(
    alloc: Global,
    trusted_root: &[u8],
    now: i64,
    digest: &ArtifactDigest,
    bundle: &[u8],
    most: usize,
) -> Result<OwnedList<AcceptedRow>, NoQuestions>
    // A row is listed if and only if a link asks it.
    ensures asked { IfOk result (λ rows. (row : row_type) → Contains rows row ↔ IsAskedBy
        (record { root = trusted_root.now; now = now; digest = digest.now; bundle = bundle.now }) row) }
    // Nothing else matters: checkers that agree on each row have the same links that hold, under each policy.
    ensures suffice { IfOk result (λ rows. Suffices (Contains rows)
        (record { root = trusted_root.now; now = now; digest = digest.now; bundle = bundle.now })) }
    // The rows are those of each group of links, one after the other.
    ensures order { IfOk result (AreQuestions
        (record { root = trusted_root.now; now = now; digest = digest.now; bundle = bundle.now })) }
    // The smaller of two positions is that of an earlier link, or of the same link and an earlier place: of the
    // certificates that were signed and of those that signed, or of the signatures of the note.
    ensures places { IfOk result (AreInOrder (IsAskedAt
        (record { root = trusted_root.now; now = now; digest = digest.now; bundle = bundle.now }))) }
    // For n trust anchors at most 17 * (16 + n) rows are of signatures of certificates, and at most 16 + n of the SCT.
    ensures few { IfOk result (AreFewQuestions
        (record { root = trusted_root.now; now = now; digest = digest.now; bundle = bundle.now })) }
    // A link is refused if and only if it is the first of those up to `issuer` that fails whatever the checker and the
    // policy say; where none is, the rows are returned if and only if they have at most `most` bytes.
    ensures decided { IsDecided
        (record { root = trusted_root.now; now = now; digest = digest.now; bundle = bundle.now }) most result }
{
    match AskedRoot::read(alloc, trusted_root, now) {
        Ok(root) => {
            let listed = root.questions(alloc, digest, bundle, most);
            drop(root);
            listed
        }
        Err(error) => Err(error),
    }
}

impl AskedRoot {
    /// Returns what [`questions`] returns for the text and the time that this root was made from, and for this digest
    /// and bundle; the root is not read again.
    pub fn questions(
        &self,
        alloc: Global,
        digest: &ArtifactDigest,
        bundle: &[u8],
        most: usize,
    ) -> Result<OwnedList<AcceptedRow>, NoQuestions>
        // A row is listed if and only if a link asks it.
        ensures asked { (root : List ℕ) (now : ℤ) → IsAskedRootOf root now self.now → IfOk result
            (λ rows. (row : row_type) → Contains rows row ↔ IsAskedBy (inputs_of root now digest.now bundle.now) row) }
        // Nothing else matters.
        ensures suffice { (root : List ℕ) (now : ℤ) → IsAskedRootOf root now self.now → IfOk result
            (λ rows. Suffices (Contains rows) (inputs_of root now digest.now bundle.now)) }
        // The rows are those of each group of links, one after the other.
        ensures order { (root : List ℕ) (now : ℤ) → IsAskedRootOf root now self.now
            → IfOk result (AreQuestions (inputs_of root now digest.now bundle.now)) }
        // The smaller of two positions is that of an earlier link, or of the same link and an earlier place.
        ensures places { (root : List ℕ) (now : ℤ) → IsAskedRootOf root now self.now
            → IfOk result (AreInOrder (IsAskedAt (inputs_of root now digest.now bundle.now))) }
        // The number of trust anchors bounds the number of rows.
        ensures few { (root : List ℕ) (now : ℤ) → IsAskedRootOf root now self.now
            → IfOk result (AreFewQuestions (inputs_of root now digest.now bundle.now)) }
        // A link is refused if and only if it is the first that fails whatever the checker and the policy say; where
        // none is, the rows are returned if and only if they have at most `most` bytes.
        ensures decided { (root : List ℕ) (now : ℤ) → IsAskedRootOf root now self.now
            → IsDecided (inputs_of root now digest.now bundle.now) most result }
    {
        // The signatures that are asked for decide which links hold.
        questions_suffice();
        self.list_text(alloc, digest, bundle, most)
    }

    /// The rows of a bundle's text, which is read once. Its link comes before those of the root that are kept.
    fn list_text(
        &self,
        alloc: Global,
        digest: &ArtifactDigest,
        bundle: &[u8],
        most: usize,
    ) -> Result<OwnedList<AcceptedRow>, NoQuestions>
        ensures { IsAnsweredIn self.now digest.now bundle.now most result }
    {
        match read_bundle(alloc, bundle) {
            Ok(bundle) => {
                let listed = self.list_bundle(alloc, digest, &bundle, most);
                drop(bundle);
                listed
            }
            Err(error) => Err(unread(Link::BundleJson, error)),
        }
    }

    /// The rows of a bundle that was read.
    fn list_bundle(
        &self,
        alloc: Global,
        digest: &ArtifactDigest,
        bundle: &Bundle,
        most: usize,
    ) -> Result<OwnedList<AcceptedRow>, NoQuestions>
        ensures { IsAnsweredOf self.now digest.now bundle.now most result }
    {
        match &self.trust {
            Ok(trust) => list_under(alloc, trust, digest, bundle, most),
            Err(link) => Err(NoQuestions::Link(*link)),
        }
    }
}

/// The rows of a bundle under what a trusted root gives.
fn list_under(
    alloc: Global,
    trust: &AskedTrust,
    digest: &ArtifactDigest,
    bundle: &Bundle,
    most: usize,
) -> Result<OwnedList<AcceptedRow>, NoQuestions>
    ensures { IsAnsweredUnder trust.now digest.now bundle.now most result }
{
    // Bytes are at most one certificate; and what is listed for texts that were read is the result for them.
    certificates();
    listed_texts();
    match check_front(alloc, &trust.verifier, digest, bundle) {
        Ok(()) => list_checked(alloc, &trust.parts, digest, bundle, most),
        Err(error) => Err(error),
    }
}

/// The rows of a bundle of which the links up to `issuance` hold. Fails otherwise only as they do not fit, or as no
/// path would lead to a trust anchor.
fn list_checked(
    alloc: Global,
    trust: &TrustParts,
    digest: &ArtifactDigest,
    bundle: &Bundle,
    most: usize,
) -> Result<OwnedList<AcceptedRow>, NoQuestions>
    requires { IsPassedBundle bundle.now }
    ensures { UnlessMemory NoQuestions.OutOfMemory result (AreListedUnder trust.now digest.now bundle.now most result) }
{
    // What a bundle has that passes its own checks.
    passed_bundles();
    match CheckedBundle::try_from_bundle(alloc, bundle) {
        Ok(checked) => list(alloc, trust, digest, &checked, most),
        Err(error) => Err(memory_of(error)),
    }
}

/// The rows of a bundle that passed its own checks, certificates first. Paths are looked for at the time from which the
/// leaf is valid.
fn list(
    alloc: Global,
    trust: &TrustParts,
    digest: &ArtifactDigest,
    bundle: &CheckedBundle,
    most: usize,
) -> Result<OwnedList<AcceptedRow>, NoQuestions>
    ensures listed { AreListed digest.now (trust_in trust.now) trust.now.log_keys bundle.now most result }
    ensures read { OnOk result (IsReadCertificate bundle.now) }
    ensures bytes { OnOk result (IsOfBytes trust.now.log_keys bundle.now.entry) }
{
    // The key of the certificate is bytes, and its SCTs are what the reader of SCTs says.
    is_read_certificate(bundle);
    let leaf = bundle.certificate();
    let time = leaf.not_before();
    let paths = possible_paths(alloc, leaf, &trust.anchors, bundle.further(), time)?;
    list_paths(alloc, &paths, trust, digest, bundle, most)
}

/// The rows of the signatures of these paths, and those after them.
fn list_paths(
    alloc: Global,
    paths: &PossiblePaths<'_>,
    trust: &TrustParts,
    digest: &ArtifactDigest,
    bundle: &CheckedBundle,
    most: usize,
) -> Result<OwnedList<AcceptedRow>, NoQuestions>
    ensures listed { AreListedAs (rows_of_paths paths.now) (rows_of_paths paths.now ++ rows_after paths.now trust.now
        digest.now bundle.now) most result }
    ensures bytes { OnOk result (IsOfBytes trust.now.log_keys bundle.now.entry) }
{
    let mut rows = Rows {
        rows: OwnedList::new(alloc),
        room: most,
    };
    push_certificates(&mut rows, alloc, paths)?;
    if rows.rows.len() == 0 {
        return Err(NoQuestions::Link(Link::Issuer));
    }
    push_after(&mut rows, alloc, paths, trust, digest, bundle)?;
    Ok(rows.rows)
}

/// The rows after those of the certificate.
fn push_after(
    rows: &mut Rows,
    alloc: Global,
    paths: &PossiblePaths<'_>,
    trust: &TrustParts,
    digest: &ArtifactDigest,
    bundle: &CheckedBundle,
) -> Result<(), NoQuestions>
    ensures written { AddsRows rows.old (rows_after paths.now trust.now digest.now bundle.now) result rows.new }
    ensures bytes { OnOk result (IsOfBytes trust.now.log_keys bundle.now.entry) }
{
    push_points(rows, alloc, &paths.leaf, &trust.keyring)?;
    push_last(rows, alloc, &trust.log_keys, digest, bundle)
}

/// The rows of the content and of the log entry.
fn push_last(
    rows: &mut Rows,
    alloc: Global,
    log_keys: &KeyMap,
    digest: &ArtifactDigest,
    bundle: &CheckedBundle,
) -> Result<(), NoQuestions>
    ensures written { AddsRows rows.old (content_questions digest.now bundle.now
        ++ entry_questions log_keys.now bundle.now.entry) result rows.new }
    ensures bytes { OnOk result (IsOfBytes log_keys.now bundle.now.entry) }
{
    push_content(rows, alloc, bundle, digest)?;
    push_entry(rows, alloc, bundle.entry(), log_keys)
}

/// Out of memory, which is the only error of a bundle that passes its own checks.
fn memory_of(error: BundleErrorKind) -> NoQuestions
    requires { error ≡ BundleErrorKind.OutOfMemory }
    ensures { result ≡ NoQuestions.OutOfMemory }
{
    match error {
        BundleErrorKind::OutOfMemory => NoQuestions::OutOfMemory,
        _ => unreachable!(),
    }
}
