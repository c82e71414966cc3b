//! `IdentityToken`: a token that names a signer.
ghost use Rattle.std.specs.Prelude.{◌≡◌, ◌↔◌, Some, Ok, Err, IfOk, IsTrue};
ghost use Rattle.sig_base.specs.Answers.{Answers, ComesWhere, UnlessMemory};
ghost use Rattle.sig_base.specs.declared.error.SigstoreError.TheVariants.{OutOfMemory as Memory};
ghost use Rattle.sig_base.specs.declared.error.SigstoreError.TheVariants.{IdentityTokenError as Refusal};
ghost use Rattle.sig_base.specs.declared.fault.TokenFault.{TokenFault as fault_type};
ghost use Rattle.sig_token.specs.Period.{IsInPeriod};
ghost use Rattle.sig_token.specs.Token.{IsToken, IsTokenFault, claims_or_fault, token_of};
ghost use Rattle.sig_token.specs.Claims.{claims_in};
ghost use Rattle.sig_token.specs.declared.claims.Claims.{Claims as claims_type};

use crate::claims::{Claims, UnverifiedClaims, read_claims};
use crate::compact::payload;
use crate::unpadded::decode_unpadded;
use sig_base::{Result, SigstoreError, Text, TokenFault};
use sig_json::JsonError;
use std::alloc::Global;
use std::fmt;
use std::marker::Model;

/// A token that names a signer. Its signature is not checked, so nothing that it says is trusted. Contracts see its
/// text and its claims.
#[derive(Drop)]
pub struct IdentityToken {
    original_token: Text,
    claims: Claims,
}

impl Model for IdentityToken {
    ghost use Rattle.sig_token.specs.Seen.{Token};

    ghost Value = { Token };

    ghost view = { λ t. record { text = t.original_token; claims = t.claims } };
}

impl IdentityToken {
    /// Reads a token of Sigstore. Neither its issuer nor its signature is checked.
    ///
    /// Errors, each an `IdentityTokenError`, the first that applies:
    /// - `NotThreeParts`: the text is not three parts with a point between each two (RFC 7515 section 7.1); a part may
    ///   be empty;
    /// - `ClaimsBase64`: the second part is not base64 of the standard alphabet without padding (RFC 4648 section 4);
    /// - `ClaimsJson`: its bytes are not a JSON object without floats that has the texts `aud` and `email`, the number
    ///   `exp` from -2^63 to 2^63 - 1 and, unless it is absent or null, such a number `nbf`;
    /// - `NotSigstore`: `aud` is not `sigstore`.
    pub fn try_from_text(alloc: Global, value: &str) -> Result<IdentityToken>
        ensures found { IfOk result (λ token. (token.text ≡ value.now) × IsToken value.now token.claims) }
        ensures only { (claims : claims_type) → IsToken value.now claims → UnlessMemory Memory result
            (result ≡ Ok (record { text = value.now; claims = claims })) }
        // Each error comes if and only if the rules before its own hold, and its own does not hold.
        ensures refused { (fault : fault_type)
            → ComesWhere Memory result (Err (Refusal fault)) (IsTokenFault value.now fault) }
        // The same in one equation.
        ensures answer { Answers Memory (λ token. token) result (token_of value.now) }
    {
        read_token(alloc, value)
    }

    /// Returns what the token says. Nothing of it was checked, so no decision is to rest on it.
    pub fn unverified_claims(&self) -> &UnverifiedClaims
        ensures { result.now ≡ self.now.claims }
    {
        &self.claims
    }

    /// Whether the token counts at this second since 1970 as it states it: from `nbf`, if it is there, to the second
    /// before `exp`.
    pub fn in_validity_period(&self, now: i64) -> bool
        ensures { IsTrue result ↔ IsInPeriod self.now.claims now }
    {
        self.claims.hold_at(now)
    }
}

/// Shows the text that the token was read from.
impl fmt::Display for IdentityToken {
    ghost output = { λ token. Some token.text };

    fn fmt<W: fmt::Write>(&self, f: &mut fmt::Formatter<W>) -> fmt::Result {
        f.write_str(self.original_token.as_str())
    }
}

#[tactic(auto, unfolding(crate::specs::Token::token_of))]
fn read_token(alloc: Global, text: &str) -> Result<IdentityToken>
    ensures { Answers Memory (λ token. token) result (token_of text.now) }
{
    let Some(payload) = payload(text) else {
        return Err(SigstoreError::IdentityTokenError(TokenFault::NotThreeParts));
    };
    let Some(bytes) = decode_unpadded(alloc, payload)? else {
        return Err(SigstoreError::IdentityTokenError(TokenFault::ClaimsBase64));
    };
    let claims = claims_of_payload(alloc, bytes.as_slice())?;
    if claims.aud.as_str() != "sigstore" {
        return Err(SigstoreError::IdentityTokenError(TokenFault::NotSigstore));
    }
    let original_token = Text::copy_of(alloc, text)?;
    Ok(IdentityToken {
        original_token,
        claims,
    })
}

fn claims_of_payload(alloc: Global, bytes: &[u8]) -> Result<Claims>
    ensures { Answers Memory (λ claims. claims) result (claims_or_fault (claims_in bytes.now)) }
{
    match read_claims(alloc, bytes) {
        Ok(claims) => Ok(claims),
        Err(JsonError::OutOfMemory) => Err(SigstoreError::OutOfMemory),
        Err(JsonError::NotJson | JsonError::Float | JsonError::Member) => Err(
            SigstoreError::IdentityTokenError(TokenFault::ClaimsJson),
        ),
    }
}
