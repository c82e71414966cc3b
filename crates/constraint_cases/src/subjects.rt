//! The verifiers of subjects.

use crate::layers::{layer, show_verdict, text};
use regex::Regex;
use sig_base::Text;
use sig_cases::{Answer, Arguments};
use sig_constraint::{
    CertSubjectEmailVerifier, CertSubjectUrlVerifier, StringVerifier, VerificationConstraint,
};

/// `string ACCEPTED`: how the texts that are accepted are shown.
pub(crate) fn string(arguments: &mut Arguments<'_>, answer: &mut Answer) {
    match accepted(arguments) {
        Some(accepted) => {
            answer.ok();
            answer.value(&accepted);
            drop(accepted);
        }
        None => arguments.refuse(),
    }
}

/// The next argument as the texts that are accepted: `exact:TEXT` or `regex:PATTERN`, in percent-encoding. `None` if it
/// is `-`.
fn accepted(arguments: &mut Arguments<'_>) -> Option<StringVerifier> {
    let word = arguments.text();
    match word.as_str().split_once(':') {
        Some(("exact", exact)) => match Text::copy_of(arguments.alloc(), exact) {
            Ok(exact) => Some(StringVerifier::ExactMatch(exact)),
            Err(_) => {
                arguments.refuse();
                None
            }
        },
        Some(("regex", pattern)) => match Regex::new(arguments.alloc(), pattern) {
            Ok(pattern) => Some(StringVerifier::Regex(pattern)),
            Err(error) => {
                drop(error);
                arguments.refuse();
                None
            }
        },
        _ => {
            if !word.is_empty() {
                arguments.refuse();
            }
            None
        }
    }
}

/// `email LAYER EMAIL ISSUER`: whether the layer is of an email that is accepted.
pub(crate) fn email(arguments: &mut Arguments<'_>, answer: &mut Answer) {
    let Some(layer) = layer(arguments, answer) else {
        return;
    };
    let email = accepted(arguments);
    let issuer = accepted(arguments);
    match email {
        Some(email) => {
            let verifier = CertSubjectEmailVerifier { email, issuer };
            show_verdict(answer, verifier.verify(arguments.alloc(), &layer));
            drop(verifier);
        }
        None => {
            drop(issuer);
            arguments.refuse();
        }
    }
    drop(layer);
}

/// `url LAYER URL ISSUER`: whether the layer is of this URI.
pub(crate) fn url(arguments: &mut Arguments<'_>, answer: &mut Answer) {
    let Some(layer) = layer(arguments, answer) else {
        return;
    };
    let url = text(arguments);
    let issuer = text(arguments);
    let verifier = CertSubjectUrlVerifier { url, issuer };
    show_verdict(answer, verifier.verify(arguments.alloc(), &layer));
    drop(verifier);
    drop(layer);
}
