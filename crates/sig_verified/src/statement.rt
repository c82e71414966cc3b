//! The statement in an envelope, as far as it is shown. No tree is made of its predicate.
ghost use Rattle.std.specs.Prelude.{◌≡◌, IfOk, Option, codes};
ghost use Rattle.sig_json.specs.Writing.{members, members_into};
ghost use Rattle.sig_json.specs.Data.{Data};
ghost use Rattle.sig_json.specs.Tree.{document_tree, tree};
ghost use Rattle.sig_shown.specs.ShownValues.{some_rows};
ghost use Rattle.sig_verified.specs.Statement.{named_digest_tree, named_digests_tree, statement_in, statement_of};
ghost use Rattle.sig_verified.specs.Statement.{brief_rows, statement_rows, subject_of, subject_tree, subjects_rows};

use sig_base::{OutOfMemory, OwnedList, Text, TextMap};
use sig_json::{
    Document, ElementReader, Json, JsonError, MemberError, Object, TextMapReader, TextReader,
    optional, read_record_with, required, required_list, required_text,
};
use sig_shown::{Shown, first, with_count, with_list, with_shown};
use std::alloc::Global;

/// The greatest number of digests of a subject that are shown.
pub const MOST_DIGESTS: usize = 32;

/// How many subjects are shown at most.
pub const MOST_SUBJECTS: usize = 1024;

/// The members of a statement that are read.
const MEMBERS: [&str; 2] = ["subject", "predicateType"];

/// A subject of a statement.
#[derive(Drop)]
pub(crate) struct BriefSubject {
    /// What it is called.
    pub(crate) name: Option<Text>,
    /// Its digests by the names of their algorithms.
    pub(crate) digest: TextMap,
}

/// What is shown of a statement.
#[derive(Drop)]
pub(crate) struct BriefStatement {
    /// What it is about.
    pub(crate) subject: OwnedList<BriefSubject>,
    /// Which kind of predicate it has.
    pub(crate) predicate_type: Text,
}

enum SubjectReader {}

impl ElementReader for SubjectReader {
    type Item = BriefSubject;

    ghost meaning = { subject_of };

    #[tactic(auto, unfolding(crate::specs::Statement::subject_of))]
    fn read(alloc: Global, json: Json<'_, '_>) -> Result<BriefSubject, MemberError> {
        Ok(BriefSubject {
            name: optional::<TextReader>(alloc, json, "name")?,
            digest: required::<TextMapReader>(alloc, json, "digest")?,
        })
    }
}

enum StatementReader {}

impl ElementReader for StatementReader {
    type Item = BriefStatement;

    ghost meaning = { statement_of };

    #[tactic(auto, unfolding(crate::specs::Statement::statement_of))]
    fn read(alloc: Global, json: Json<'_, '_>) -> Result<BriefStatement, MemberError> {
        Ok(BriefStatement {
            subject: required_list::<SubjectReader>(alloc, json, "subject")?,
            predicate_type: required_text(alloc, json, "predicateType")?,
        })
    }
}

enum ShownSubject {}

impl Shown for ShownSubject {
    type Item = BriefSubject;

    ghost tree = { subject_tree };

    #[tactic(auto, unfolding(crate::specs::Statement::subject_tree))]
    fn show(alloc: Global, item: &BriefSubject) -> Result<Document, OutOfMemory> {
        let object = with_subject_name(Object::new(alloc), alloc, &item.name)?;
        let digests = named_digests_document(alloc, &item.digest)?;
        let object = object.with(alloc, "digests", digests)?;
        Ok(object.into_document())
    }
}

/// The object with the name of a subject, if it has one.
fn with_subject_name(
    object: Object,
    alloc: Global,
    name: &Option<Text>,
) -> Result<Object, OutOfMemory>
    ensures { IfOk result (λ made. members made
        ≡ members_into (members object) (some_rows (codes "name") (codes "nameLength") name.now)) }
{
    match name {
        Some(name) => with_shown(object, alloc, "name", "nameLength", name.as_str()),
        None => Ok(object),
    }
}

/// The first [`MOST_DIGESTS`] digests of a subject, by the names of their algorithms.
fn named_digests_document(alloc: Global, digests: &TextMap) -> Result<Document, OutOfMemory>
    ensures { IfOk result (λ document. document_tree document ≡ named_digests_tree digests.now) }
{
    let mut list = Document::list(alloc);
    'digests: for place in 0..digests.len().min(MOST_DIGESTS) {
        let Some((name, value)) = digests.at(place) else {
            unreachable!()
        };
        list.push(named_digest_document(alloc, name, value)?)?;
    }
    Ok(list)
}

/// A digest with the name of its algorithm.
#[tactic(auto, unfolding(crate::specs::Statement::named_digest_tree))]
fn named_digest_document(alloc: Global, name: &str, value: &str) -> Result<Document, OutOfMemory>
    ensures { IfOk result (λ document. document_tree document ≡ named_digest_tree (name.now, value.now)) }
{
    let object = with_shown(
        Object::new(alloc),
        alloc,
        "algorithm",
        "algorithmLength",
        name,
    )?;
    let object = with_shown(object, alloc, "value", "valueLength", value)?;
    Ok(object.into_document())
}

/// The object with what is shown of the statement that a payload is: `predicateType`, `subjects` and `subjectCount`; of
/// a subject its `name` and its `digests`. Without more if the payload is not a statement. Fails only if out of memory.
pub(crate) fn with_statement(
    object: Object,
    alloc: Global,
    payload: &[u8],
) -> Result<Object, OutOfMemory>
    ensures { IfOk result (λ made. members made
        ≡ members_into (members object) (statement_rows (statement_in payload.now))) }
{
    match statement_in(alloc, payload)? {
        Some(statement) => {
            let made = with_brief(object, alloc, &statement);
            drop(statement);
            made
        }
        None => Ok(object),
    }
}

/// What is shown of the statement that a payload is; `None` if it is not one.
fn statement_in(alloc: Global, payload: &[u8]) -> Result<Option<BriefStatement>, OutOfMemory>
    ensures { IfOk result (λ found. found ≡ statement_in payload.now) }
{
    match read_record_with::<StatementReader>(alloc, payload, &MEMBERS) {
        Ok(statement) => Ok(Some(statement)),
        Err(JsonError::OutOfMemory) => Err(OutOfMemory),
        Err(_) => Ok(None),
    }
}

/// The object with what is shown of a statement.
fn with_brief(
    object: Object,
    alloc: Global,
    statement: &BriefStatement,
) -> Result<Object, OutOfMemory>
    ensures { IfOk result (λ made. members made
        ≡ members_into (members object) (brief_rows statement.now)) }
{
    let predicate = statement.predicate_type.as_str();
    let object = with_shown(
        object,
        alloc,
        "predicateType",
        "predicateTypeLength",
        predicate,
    )?;
    with_subjects(object, alloc, statement.subject.as_slice())
}

/// The object with the first [`MOST_SUBJECTS`] subjects, and how many there are.
fn with_subjects(
    object: Object,
    alloc: Global,
    subjects: &[BriefSubject],
) -> Result<Object, OutOfMemory>
    ensures { IfOk result (λ made. members made
        ≡ members_into (members object) (subjects_rows subjects.now)) }
{
    let shown = first(subjects, MOST_SUBJECTS);
    let object = with_list::<ShownSubject>(object, alloc, "subjects", shown)?;
    with_count(object, alloc, "subjectCount", subjects.len() as u64)
}
