//! Profiles of certificates, and the checks of a certificate that signed what a log has recorded.

use crate::certificate::certificate;
use sig_cases::{Answer, Arguments};
use sig_x509::{
    Certificate, is_ca, is_leaf, is_root_ca, is_trusted, verify_expiration, verify_has_san,
    verify_key_usages, verify_validity,
};
use std::fmt::{Debug, Display};

/// `CALL DER`: whether the certificate passes the check of this name.
pub(crate) fn judged(call: &str, arguments: &mut Arguments<'_>, answer: &mut Answer) {
    if let Some(read) = certificate(arguments, answer) {
        judge(call, &read, arguments, answer);
    }
}

fn judge(call: &str, read: &Certificate, arguments: &mut Arguments<'_>, answer: &mut Answer) {
    match call {
        "is_leaf" => checked(answer, is_leaf(read)),
        "is_ca" => checked(answer, is_ca(read)),
        "is_root_ca" => checked(answer, is_root_ca(read)),
        "verify_key_usages" => checked(answer, verify_key_usages(read)),
        "verify_has_san" => checked(answer, verify_has_san(read)),
        _ => arguments.refuse(),
    }
}

/// Adds the result of a check.
pub(crate) fn checked<E>(answer: &mut Answer, found: Result<(), E>)
where
    E: Debug + Display + Drop,
{
    match found {
        Ok(()) => answer.ok(),
        Err(refusal) => answer.error(refusal),
    }
}

/// `verify_validity NOW DER`.
pub(crate) fn validity(arguments: &mut Arguments<'_>, answer: &mut Answer) {
    let now = arguments.integer();
    if let Some(read) = certificate(arguments, answer) {
        checked(answer, verify_validity(&read, now));
    }
}

/// `verify_expiration INTEGRATED DER`.
pub(crate) fn expiration(arguments: &mut Arguments<'_>, answer: &mut Answer) {
    let integrated_time = arguments.integer();
    if let Some(read) = certificate(arguments, answer) {
        checked(answer, verify_expiration(&read, integrated_time));
    }
}

/// `is_trusted INTEGRATED NOW DER`.
pub(crate) fn trusted(arguments: &mut Arguments<'_>, answer: &mut Answer) {
    let integrated_time = arguments.integer();
    let now = arguments.integer();
    if let Some(read) = certificate(arguments, answer) {
        checked(answer, is_trusted(&read, integrated_time, now));
    }
}
