//! Statements read from their text.
ghost use Rattle.std.specs.Prelude.{◌≡◌, IfOk, IsOkAnd};
ghost use Rattle.sig_base.specs.Answers.{Answers, ComesWhere, UnlessMemory};
ghost use Rattle.sig_base.specs.declared.error.SigstoreError.TheVariants.{UnexpectedError};
ghost use Rattle.sig_base.specs.declared.unexpected.UnexpectedKind.TheVariants.{Statement as NoStatement};
ghost use Rattle.sig_json.specs.SeenAs.{value_by};
ghost use Rattle.sig_dsse.specs.CosignStatement.{statement_or_fault};
ghost use Rattle.sig_dsse.specs.Seen.{seen, seen_subject};
ghost use Rattle.sig_dsse.specs.Statement.{Statement as statement_type, statement_in, subject_of};
ghost use Rattle.sig_dsse.specs.StatementText.{IsNoStatement, IsStatement};

use crate::statement::{InTotoStatementV1, Subject};
use sig_base::{SigstoreError, UnexpectedKind};
use sig_json::{
    AnyReader, ElementReader, Json, JsonError, MemberError, TextMapReader, TextReader, optional,
    read_record, required, required_list, required_text,
};
use std::alloc::Global;

enum SubjectReader {}

impl ElementReader for SubjectReader {
    type Item = Subject;

    ghost seen_as = { value_by seen_subject };

    ghost meaning = { subject_of };

    #[tactic(auto, unfolding(crate::specs::Statement::subject_of))]
    fn read(alloc: Global, json: Json<'_, '_>) -> Result<Subject, MemberError> {
        Ok(Subject {
            name: optional::<TextReader>(alloc, json, "name")?,
            digest: required::<TextMapReader>(alloc, json, "digest")?,
            annotations: optional::<AnyReader>(alloc, json, "annotations")?,
        })
    }
}

pub(crate) enum StatementReader {}

impl ElementReader for StatementReader {
    type Item = InTotoStatementV1;

    ghost seen_as = { value_by seen };

    ghost meaning = { statement_in };

    #[tactic(auto, unfolding(crate::specs::Statement::statement_in))]
    fn read(alloc: Global, json: Json<'_, '_>) -> Result<InTotoStatementV1, MemberError> {
        Ok(InTotoStatementV1 {
            statement_type: required_text(alloc, json, "_type")?,
            subject: required_list::<SubjectReader>(alloc, json, "subject")?,
            predicate_type: required_text(alloc, json, "predicateType")?,
            predicate: optional::<AnyReader>(alloc, json, "predicate")?,
        })
    }
}

impl InTotoStatementV1 {
    /// The statement that a payload is. Fails with `UnexpectedError` of `Statement` if and only if the bytes are not a
    /// JSON document without floats, or a member is not as it has to be: `_type` and `predicateType` texts, `subject`
    /// a list, `predicate` anything or absent; in a subject `digest` an object of texts, `name` a text or absent,
    /// `annotations` anything or absent. Null means absent, but not inside a list or a digest; other members are
    /// ignored.
    pub fn from_json(alloc: Global, bytes: &[u8]) -> sig_base::Result<InTotoStatementV1>
        ensures found { IfOk result (λ statement. IsStatement bytes.now (seen statement)) }
        ensures only { (statement : statement_type) → IsStatement bytes.now statement
            → UnlessMemory SigstoreError.OutOfMemory result (IsOkAnd result (λ read. seen read ≡ statement)) }
        ensures refused { ComesWhere SigstoreError.OutOfMemory result (Err (UnexpectedError NoStatement))
            (IsNoStatement bytes.now) }
        // The same in one equation.
        ensures answer { Answers SigstoreError.OutOfMemory seen result (statement_or_fault bytes.now) }
    {
        read_statement(alloc, bytes)
    }
}

/// The same in one equation.
#[tactic(auto, unfolding(crate::specs::Statement::statement_of))]
fn read_statement(alloc: Global, bytes: &[u8]) -> sig_base::Result<InTotoStatementV1>
    ensures { Answers SigstoreError.OutOfMemory seen result (statement_or_fault bytes.now) }
{
    match read_record::<StatementReader>(alloc, bytes) {
        Ok(statement) => Ok(statement),
        Err(JsonError::NotJson | JsonError::Float | JsonError::Member) => Err(
            SigstoreError::UnexpectedError(UnexpectedKind::Statement),
        ),
        Err(JsonError::OutOfMemory) => Err(SigstoreError::OutOfMemory),
    }
}
