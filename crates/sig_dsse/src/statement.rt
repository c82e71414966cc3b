//! `InTotoStatementV1`: what a payload says of its subjects (in-toto attestation framework, "Statement layer
//! specification v1").
//!
//! ```text
//! {"_type":"https://in-toto.io/Statement/v1",
//!  "subject":[{"name":"image",
//!    "digest":{"sha256":"ba7816bf8f01cfea414140de5dae2223b00361a396177a9cb410ff61f20015ad"}}],
//!  "predicateType":"https://sigstore.dev/cosign/sign/v1","predicate":{}}
//! ```
ghost use Rattle.std.specs.Prelude.{◌≡◌};
ghost use Rattle.sig_base.specs.declared.error.SigstoreError.TheVariants.{UnexpectedError};

use crate::subject_digests::{Left, SubjectDigests};
use sig_base::{OwnedList, Result, SigstoreError, Text, TextMap, UnexpectedKind};
use sig_json::Document;
use std::alloc::Global;

/// A statement: that the predicate holds of the subjects.
#[derive(Drop)]
pub struct InTotoStatementV1 {
    /// The member `_type`: which version of statements it is.
    pub statement_type: Text,
    /// What the statement is about.
    pub subject: Subjects,
    /// The member `predicateType`: which kind of predicate it is.
    pub predicate_type: Text,
    /// What is claimed, in any form; `None` if it is absent or null.
    pub predicate: Option<Document>,
}

/// A thing that a statement is about, known by its digests.
#[derive(Drop)]
pub struct Subject {
    /// What it is called.
    pub name: Option<Text>,
    /// Its digests by the names of their algorithms.
    pub digest: TextMap,
    /// Annotations of it, in any form; `None` if they are absent or null.
    pub annotations: Option<Document>,
}

/// Subjects in order.
pub type Subjects = OwnedList<Subject>;

/// The version of statements that is read here.
const STATEMENT_V1: &str = "https://in-toto.io/Statement/v1";

/// The predicate of a signature by `cosign`.
const COSIGN_SIGN_V1: &str = "https://sigstore.dev/cosign/sign/v1";

impl InTotoStatementV1 {
    ghost use Rattle.std.specs.Prelude.{◌≡◌, ◌⊎◌, ◌↔◌, ℕ, List, [], map};
    ghost use Rattle.sig_base.specs.Answers.{Answers, ComesWhere};
    ghost use Rattle.sig_base.specs.declared.unexpected.UnexpectedKind.{UnexpectedKind as kind_type};
    ghost use Rattle.sig_base.specs.declared.unexpected.UnexpectedKind.TheVariants.{FirstSubjectWithoutSha256};
    ghost use Rattle.sig_dsse.specs.CosignStatement.{cosign_fault, sha256_or_fault, unless_fault};
    ghost use Rattle.sig_dsse.specs.Faults.{FirstHasSha256, FirstLacksSha256, IsCosignCauseOf, IsCosignStatement};
    ghost use Rattle.sig_dsse.specs.Seen.{seen};

    /// Checks that it is a statement as `cosign` signs it. Fails with `UnexpectedError`, the first of these:
    /// `StatementType` where `_type` is not `https://in-toto.io/Statement/v1`, `PredicateType` where the predicate's
    /// type is not `https://sigstore.dev/cosign/sign/v1`, `NoSubjects` where there is no subject,
    /// `FirstSubjectWithoutSha256` where the first subject has no digest named `sha256`. It takes no memory.
    pub fn validate_cosign_v1(&self) -> Result<()>
        ensures accepted { (result ≡ Ok tt) ↔ IsCosignStatement (seen self.now) }
        ensures refused { (kind : kind_type)
            → (result ≡ Err (UnexpectedError kind)) ↔ IsCosignCauseOf kind (seen self.now) }
        // The same in one equation.
        ensures answer { result ≡ unless_fault (cosign_fault (seen self.now)) }
    {
        self.check_cosign()
    }

    /// The same in one equation.
    #[tactic(auto, unfolding(crate::specs::CosignStatement::cosign_fault))]
    fn check_cosign(&self) -> Result<()>
        ensures { result ≡ unless_fault (cosign_fault (seen self.now)) }
    {
        if self.statement_type.as_str() != STATEMENT_V1 {
            return Err(unexpected(UnexpectedKind::StatementType));
        }
        if self.predicate_type.as_str() != COSIGN_SIGN_V1 {
            return Err(unexpected(UnexpectedKind::PredicateType));
        }
        match self.subject.as_slice().first() {
            None => Err(unexpected(UnexpectedKind::NoSubjects)),
            Some(first) if first.digest.get("sha256").is_none() => {
                Err(unexpected(UnexpectedKind::FirstSubjectWithoutSha256))
            }
            Some(_) => Ok(()),
        }
    }

    /// The digests of each subject, in the order of the subjects. It takes no memory.
    pub fn subject_digests(&self) -> SubjectDigests<'_>
        ensures { result ≡ map (λ subject. subject.digest) self.now.subject }
    {
        SubjectDigests {
            left: Left::Subjects(self.subject.as_slice()),
        }
    }

    /// The text of the first subject's digest named `sha256`. Fails with `UnexpectedError` of
    /// `FirstSubjectWithoutSha256` where the first subject has no such digest, or there is no subject.
    pub fn subject_sha256_digest(&self, alloc: Global) -> Result<Text>
        ensures found { (text : List ℕ) → ComesWhere SigstoreError.OutOfMemory result (Ok text)
            (FirstHasSha256 text (seen self.now).subject) }
        ensures missing { ComesWhere SigstoreError.OutOfMemory result
            (Err (UnexpectedError FirstSubjectWithoutSha256))
            (((seen self.now).subject ≡ []) ⊎ FirstLacksSha256 (seen self.now).subject) }
        // The same in one equation.
        ensures answer { Answers SigstoreError.OutOfMemory (λ text. text) result (sha256_or_fault (seen self.now)) }
    {
        self.first_sha256(alloc)
    }

    /// The same in one equation.
    #[tactic(auto, unfolding(crate::specs::CosignStatement::sha256_or_fault))]
    fn first_sha256(&self, alloc: Global) -> Result<Text>
        ensures { Answers SigstoreError.OutOfMemory (λ text. text) result (sha256_or_fault (seen self.now)) }
    {
        let first = self.subject.as_slice().first();
        match first.and_then(|first| first.digest.get("sha256")) {
            Some(digest) => Ok(Text::copy_of(alloc, digest)?),
            None => Err(unexpected(UnexpectedKind::FirstSubjectWithoutSha256)),
        }
    }
}

/// The error for a statement that does not have the wanted form.
fn unexpected(kind: UnexpectedKind) -> SigstoreError
    ensures { result ≡ UnexpectedError kind }
{
    SigstoreError::UnexpectedError(kind)
}
