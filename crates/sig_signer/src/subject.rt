//! `CertificateSubject`: the subject that a certificate names.
ghost use Rattle.std.specs.Prelude.{◌≡◌, ◌↔◌, IsTrue, Ok, Err, IfOk, option_map};
ghost use Rattle.std.specs.Option.{ok_or};
ghost use Rattle.sig_base.specs.Answers.{Answers, ComesWhere};
ghost use Rattle.sig_base.specs.declared.error.SigstoreError.TheVariants.{OutOfMemory as Memory};
ghost use Rattle.sig_base.specs.declared.error.SigstoreError.TheVariants.{CertificateParsingError};
ghost use Rattle.sig_base.specs.declared.error.SigstoreError.TheVariants.{CertificateWithIncompleteSubjectAlternativeName};
ghost use Rattle.sig_certificate.specs.BorrowedNames.{borrowed_name, names_left};
ghost use Rattle.sig_policy.specs.Texts.{utf8_text};
ghost use Rattle.sig_signer.specs.Subject.{first_subject, subject_answer, subject_in};
ghost use Rattle.sig_signer.specs.NamedSubject.{HasSubject, HasNoNames, NamesNobody};
ghost use Rattle.sig_signer.specs.declared.subject.CertificateSubject.{CertificateSubject as subject_type};

use crate::claims::utf8_text;
use sig_base::{OutOfMemory, Result, SigstoreError, Text};
use sig_certificate::{AlternativeNames, Certificate, GeneralName, Lookup, alternative_names};
use sig_der::oid;
use std::alloc::Global;

/// Whom a certificate names.
#[derive(Drop, PartialEq, Eq)]
pub enum CertificateSubject {
    /// An email address.
    Email(Text),
    /// A URI, such as that of a workflow.
    Uri(Text),
}

impl CertificateSubject {
    /// Returns the first email or URI of the certificate's subject alternative name (RFC 5280 section 4.2.1.6). Errors:
    ///
    /// - `CertificateParsingError` if and only if there is not exactly one such extension, or it is malformed;
    /// - `CertificateWithIncompleteSubjectAlternativeName` if and only if there is, and it has neither an email nor a
    ///   URI;
    /// - `OutOfMemory`.
    pub fn from_certificate(alloc: Global, certificate: &Certificate) -> Result<CertificateSubject>
        // It is the first email or URI.
        ensures found { (subject : subject_type) → ComesWhere Memory result (Ok subject)
            (HasSubject certificate.now subject) }
        // There is not one well-formed extension.
        ensures malformed { ComesWhere Memory result (Err CertificateParsingError) (HasNoNames certificate.now) }
        // There is one, and none of its names is an email or a URI.
        ensures incomplete { ComesWhere Memory result (Err CertificateWithIncompleteSubjectAlternativeName)
            (NamesNobody certificate.now) }
        // The same in one equation.
        ensures answer { Answers Memory (λ subject. subject) result (subject_answer certificate.now) }
    {
        subject_of(alloc, certificate)
    }
}

/// The same in one equation.
fn subject_of(alloc: Global, certificate: &Certificate) -> Result<CertificateSubject>
    ensures { Answers Memory (λ subject. subject) result (subject_answer certificate.now) }
{
    match certificate.extension(oid::SUBJECT_ALTERNATIVE_NAME) {
        Lookup::One(extension) => match alternative_names(extension.value) {
            Some(names) => first_subject(alloc, names),
            None => Err(SigstoreError::CertificateParsingError),
        },
        _ => Err(SigstoreError::CertificateParsingError),
    }
}

/// The first email or URI of the names.
fn first_subject(alloc: Global, names: AlternativeNames<'_>) -> Result<CertificateSubject>
    ensures { Answers Memory (λ subject. subject) result
        (ok_or (first_subject (names_left names.entry)) CertificateWithIncompleteSubjectAlternativeName) }
{
    'names: for name in names {
        let found = subject_in(alloc, name)?;
        if let Some(subject) = found {
            return Ok(subject);
        }
    }
    Err(SigstoreError::CertificateWithIncompleteSubjectAlternativeName)
}

/// The subject that a name is. Fails only if out of memory.
fn subject_in(
    alloc: Global,
    name: GeneralName<'_>,
) -> std::result::Result<Option<CertificateSubject>, OutOfMemory>
    ensures { IfOk result (λ found. found ≡ subject_in (borrowed_name name.entry)) }
{
    match name {
        GeneralName::Email(bytes) => match utf8_text(bytes) {
            Some(text) => Ok(Some(CertificateSubject::Email(Text::copy_of(alloc, text)?))),
            None => Ok(None),
        },
        GeneralName::Uri(bytes) => match utf8_text(bytes) {
            Some(text) => Ok(Some(CertificateSubject::Uri(Text::copy_of(alloc, text)?))),
            None => Ok(None),
        },
        GeneralName::Other(_, _) | GeneralName::Unread => Ok(None),
    }
}
