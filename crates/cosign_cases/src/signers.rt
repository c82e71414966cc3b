//! The signers that certificates name.

use sig_base::Text;
use sig_cases::{Answer, Arguments};
use sig_cosign::{CertificateSignature, CertificateSubject};
use sig_part_cases::pool;
use sig_x509::Certificate;

/// `subject DER`: the subject that the certificate names.
pub(crate) fn subject(arguments: &mut Arguments<'_>, answer: &mut Answer) {
    let alloc = arguments.alloc();
    let der = arguments.hex();
    match Certificate::try_from_der(alloc, &der) {
        Ok(certificate) => {
            match CertificateSubject::from_certificate(alloc, &certificate) {
                Ok(subject) => {
                    answer.ok();
                    show_subject(answer, &subject);
                    drop(subject);
                }
                Err(error) => answer.error(error),
            }
            drop(certificate);
        }
        Err(_) => arguments.refuse(),
    }
}

/// `signer DER ANCHOR,.. INTERMEDIATE,.. TIME NOW ROWS`: the signer that the certificate names.
pub(crate) fn signer(arguments: &mut Arguments<'_>, answer: &mut Answer) {
    let alloc = arguments.alloc();
    let der = arguments.hex();
    let Some(pool) = pool(arguments, answer) else {
        return;
    };
    let time = arguments.integer();
    let now = arguments.integer();
    let checker = arguments.checker();
    match CertificateSignature::from_der_certificate(alloc, &der, &pool, time, now, &checker) {
        Ok(signer) => {
            answer.ok();
            show_signer(answer, &signer);
            drop(signer);
        }
        Err(error) => answer.error(error),
    }
    drop(checker);
    drop(pool);
}

/// The text of a subject after the name of its kind.
pub(crate) fn show_subject(answer: &mut Answer, subject: &CertificateSubject) {
    match subject {
        CertificateSubject::Email(text) => {
            answer.value(&"Email");
            answer.debug(text);
        }
        CertificateSubject::Uri(text) => {
            answer.value(&"Uri");
            answer.debug(text);
        }
    }
}

/// Scheme and key, subject, and each claim.
pub(crate) fn show_signer(answer: &mut Answer, signer: &CertificateSignature) {
    answer.value(&signer.verification_key.scheme().name());
    answer.hex(signer.verification_key.spki());
    show_subject(answer, &signer.subject);
    show_claim(answer, &signer.issuer);
    show_claim(answer, &signer.github_workflow_trigger);
    show_claim(answer, &signer.github_workflow_sha);
    show_claim(answer, &signer.github_workflow_name);
    show_claim(answer, &signer.github_workflow_repository);
    show_claim(answer, &signer.github_workflow_ref);
}

fn show_claim(answer: &mut Answer, claim: &Option<Text>) {
    match claim {
        Some(text) => answer.debug(text),
        None => answer.value(&"-"),
    }
}
