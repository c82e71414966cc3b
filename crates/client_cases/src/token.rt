//! Identity tokens.

use sig_cases::{Answer, Arguments};
use sig_token::{IdentityToken, UnverifiedClaims};
use std::alloc::Global;

/// `token TEXT`: the audience, the expiration, the start and the address of the token, and how the token is shown.
pub(crate) fn read(arguments: &mut Arguments<'_>, answer: &mut Answer) {
    match IdentityToken::try_from_text(arguments.alloc(), arguments.text().as_str()) {
        Ok(token) => {
            answer.ok();
            add_claims(answer, token.unverified_claims());
            add_shown(answer, arguments.alloc(), &token);
            drop(token);
        }
        Err(error) => answer.error(error),
    }
}

/// Adds what a token says.
fn add_claims(answer: &mut Answer, claims: &UnverifiedClaims) {
    answer.debug(&claims.aud);
    answer.value(&claims.exp);
    match claims.nbf {
        Some(start) => answer.value(&start),
        None => answer.value(&"-"),
    }
    answer.debug(&claims.email);
}

/// Adds how a token is shown, in quotation marks.
fn add_shown(answer: &mut Answer, alloc: Global, token: &IdentityToken) {
    match format!(in alloc; "{token}") {
        Ok(shown) => answer.debug(&shown),
        Err(_) => answer.out_of_memory(),
    }
}

/// `period NOW TEXT`: whether the token is in its period at this time. The line is a bad one where the text is not a
/// token.
pub(crate) fn period(arguments: &mut Arguments<'_>, answer: &mut Answer) {
    let now = arguments.integer();
    match IdentityToken::try_from_text(arguments.alloc(), arguments.text().as_str()) {
        Ok(token) => {
            answer.ok();
            answer.value(&token.in_validity_period(now));
            drop(token);
        }
        Err(error) => {
            drop(error);
            arguments.refuse();
        }
    }
}
