//! Errors inside errors: each shows the name of its variant.

use sig_cases::{Answer, Arguments};
use sig_der::DerWriteError;
use sig_x509::{
    CertificateErrorKind, ExtensionErrorKind, KeyringError, NotCAErrorKind, NotLeafErrorKind,
    PartName, PolicyError, SCTError, X509ReadError,
};

/// `shown NAME`: the error of this name.
pub(crate) fn shown(arguments: &mut Arguments<'_>, answer: &mut Answer) {
    match arguments.word() {
        "IsCA" => answer.error(NotLeafErrorKind::IsCA),
        "NotCA" => answer.error(NotCAErrorKind::NotCA),
        "NotRootCA" => answer.error(NotCAErrorKind::NotRootCA),
        "Invalid" => {
            let (ca, key_cert_sign) = (true, false);
            answer.error(NotCAErrorKind::Invalid { ca, key_cert_sign });
        }
        "Missing" => answer.error(ExtensionErrorKind::Missing(PartName::KeyUsage)),
        "NotCritical" => {
            answer.error(ExtensionErrorKind::NotCritical(PartName::BasicConstraints));
        }
        "BitUnset" => {
            answer.error(ExtensionErrorKind::BitUnset(PartName::KeyUsageDigitalSignature));
        }
        name => shown_of_sct(name, arguments, answer),
    }
}

/// The same of an SCT or a keyring.
fn shown_of_sct(name: &str, arguments: &mut Arguments<'_>, answer: &mut Answer) {
    match name {
        "LeafSCTMissing" => answer.error(CertificateErrorKind::LeafSCTMissing),
        "LeafSCTMalformed" => answer.error(CertificateErrorKind::LeafSCTMalformed),
        "IssuerMissing" => answer.error(CertificateErrorKind::IssuerMissing),
        "KeyNotFound" => answer.error(KeyringError::KeyNotFound),
        "VerificationFailed" => answer.error(KeyringError::VerificationFailed),
        "TooLong" => answer.error(DerWriteError::TooLong),
        "OutOfMemory" => shown_out_of_memory(answer),
        _ => arguments.refuse(),
    }
}

/// What each type's error for memory shows, after `ok`, since by itself it would end the program.
fn shown_out_of_memory(answer: &mut Answer) {
    answer.ok();
    answer.value(&X509ReadError::OutOfMemory);
    answer.value(&DerWriteError::OutOfMemory);
    answer.value(&KeyringError::OutOfMemory);
    answer.value(&SCTError::OutOfMemory);
    answer.value(&PolicyError::OutOfMemory);
}
