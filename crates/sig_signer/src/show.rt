//! What is shown of a signer.
//!
//! ```text
//! CertificateSignature
//! - issuer: Some("https://issuer.example")
//! - subject: Email("a@example.com")
//! - GitHub Workflow trigger: None
//! ..
//! ---
//! ```
ghost use Rattle.std.specs.Fmt.{WritesOnOk};
ghost use Rattle.std.specs.Prelude.{Some};
ghost use Rattle.sig_signer.specs.ShownSigner.{claim_text, line_text, named_text, person_text, signer_text};
ghost use Rattle.sig_signer.specs.ShownSigner.{source_text};
ghost use Rattle.sig_signer.specs.ShownSigner.{subject_text, trigger_text};
ghost use Rattle.sig_signer.specs.Signer.{seen_signer};

use crate::certificate_signature::CertificateSignature;
use crate::subject::CertificateSubject;
use sig_base::Text;
use std::fmt;

/// Shows the text in quotation marks, unescaped, after the name of the kind.
impl fmt::Display for CertificateSubject {
    ghost output = { λ subject. Some (subject_text subject) };

    fn fmt<W: fmt::Write>(&self, f: &mut fmt::Formatter<W>) -> fmt::Result {
        match self {
            CertificateSubject::Email(text) => write_named(f, "Email", text.as_str()),
            CertificateSubject::Uri(text) => write_named(f, "Uri", text.as_str()),
        }
    }
}

/// Shows a line for each claim and for the subject. Texts are shown unescaped, so a claim can look like several lines:
/// it is not for programs to read.
impl fmt::Display for CertificateSignature {
    ghost output = { λ s. Some (signer_text (seen_signer s)) };

    fn fmt<W: fmt::Write>(&self, f: &mut fmt::Formatter<W>) -> fmt::Result {
        f.write_str("CertificateSignature\n")?;
        write_person(f, self)?;
        write_trigger(f, self)?;
        write_source(f, self)?;
        f.write_str("---")
    }
}

/// A text in quotation marks, unescaped, after the name of its kind.
fn write_named<W: fmt::Write>(f: &mut fmt::Formatter<W>, kind: &str, text: &str) -> fmt::Result
    ensures { WritesOnOk W.write_str_gives f.old result (named_text kind.now text.now) f.new }
{
    f.write_str(kind)?;
    f.write_str("(\"")?;
    f.write_str(text)?;
    f.write_str("\")")
}

/// Writes the named subject and issuer.
fn write_person<W: fmt::Write>(
    f: &mut fmt::Formatter<W>,
    signer: &CertificateSignature,
) -> fmt::Result
    ensures { WritesOnOk W.write_str_gives f.old result (person_text (seen_signer signer.now)) f.new }
{
    write_claim_line(f, "issuer", &signer.issuer)?;
    f.write_str("- subject: ")?;
    fmt::Display::fmt(&signer.subject, f)?;
    f.write_str("\n")
}

/// What started the workflow, and at which commit.
fn write_trigger<W: fmt::Write>(
    f: &mut fmt::Formatter<W>,
    signer: &CertificateSignature,
) -> fmt::Result
    ensures { WritesOnOk W.write_str_gives f.old result (trigger_text (seen_signer signer.now)) f.new }
{
    write_claim_line(
        f,
        "GitHub Workflow trigger",
        &signer.github_workflow_trigger,
    )?;
    write_claim_line(f, "GitHub Workflow SHA", &signer.github_workflow_sha)
}

/// Which workflow it is.
fn write_source<W: fmt::Write>(
    f: &mut fmt::Formatter<W>,
    signer: &CertificateSignature,
) -> fmt::Result
    ensures { WritesOnOk W.write_str_gives f.old result (source_text (seen_signer signer.now)) f.new }
{
    write_claim_line(f, "GitHub Workflow name", &signer.github_workflow_name)?;
    write_claim_line(
        f,
        "GitHub Workflow repository",
        &signer.github_workflow_repository,
    )?;
    write_claim_line(f, "GitHub Workflow ref", &signer.github_workflow_ref)
}

fn write_claim_line<W: fmt::Write>(
    f: &mut fmt::Formatter<W>,
    label: &str,
    value: &Option<Text>,
) -> fmt::Result
    ensures { WritesOnOk W.write_str_gives f.old result (line_text label.now (claim_text value.now)) f.new }
{
    f.write_str("- ")?;
    f.write_str(label)?;
    f.write_str(": ")?;
    write_claim(f, value)?;
    f.write_str("\n")
}

fn write_claim<W: fmt::Write>(f: &mut fmt::Formatter<W>, value: &Option<Text>) -> fmt::Result
    ensures { WritesOnOk W.write_str_gives f.old result (claim_text value.now) f.new }
{
    match value {
        Some(text) => write_named(f, "Some", text.as_str()),
        None => f.write_str("None"),
    }
}
