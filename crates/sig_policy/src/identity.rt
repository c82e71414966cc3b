//! The policy of one identity.

ghost use Rattle.std.specs.Prelude.{◌≡◌, Some, option_map, map, codes, IfOk};
ghost use Rattle.std.specs.List.{list_any, join_by};
ghost use Rattle.std.specs.Str.{bytes_eq};
ghost use Rattle.sig_policy.specs.Identities.{identities, is_among_identities, name_refusal, identity_holds};
ghost use Rattle.sig_policy.specs.Identities.{identity_refusal};
ghost use Rattle.sig_policy.specs.Verdict.{IsPolicyResult};

use crate::failure::PolicyError;
use crate::fulcio::OIDCIssuer;
use crate::identities::identities_of;
use crate::policy::{PolicyResult, VerificationPolicy};
use crate::single::{SingleX509ExtPolicy, check_failed};
use sig_base::{OutOfMemory, Text};
use sig_certificate::{Certificate, Lookup};
use sig_der::oid;
use std::alloc::Global;
use std::marker::Model;

/// The policy that a certificate was issued for this identity, by this issuer. Contracts see both texts.
#[derive(Debug, Drop)]
pub struct Identity {
    identity: Text,
    issuer: OIDCIssuer,
}

impl Model for Identity {
    ghost use Rattle.sig_policy.specs.Claim.{Claim};

    ghost Value = { Claim };

    ghost view = { λ p. record { identity = p.identity; issuer = p.issuer.0 } };
}

impl Identity {
    /// Returns the policy that asks for this identity and this issuer. Fails only if out of memory.
    pub fn new(alloc: Global, identity: &str, issuer: &str) -> Result<Identity, OutOfMemory>
        ensures { IfOk result (λ p. p ≡ record { identity = identity.now; issuer = issuer.now }) }
    {
        let identity = Text::copy_of(alloc, identity)?;
        let issuer = OIDCIssuer::new(alloc, issuer)?;
        Ok(Identity { identity, issuer })
    }

    pub(crate) fn identity(&self) -> &str
        ensures { result.now ≡ self.now.identity }
    {
        self.identity.as_str()
    }

    /// Returns the policy of the issuer.
    pub(crate) fn issuer(&self) -> &OIDCIssuer
        ensures { result.now.0 ≡ self.now.issuer }
    {
        &self.issuer
    }
}

impl VerificationPolicy for Identity {
    ghost holds = { identity_holds };

    ghost refusal = { identity_refusal };

    /// Returns `Ok` if and only if the issuer's policy holds, the certificate has exactly one subject alternative
    /// name, it is well formed, and one of its emails, URIs or names of Fulcio's kind is the identity. The first of
    /// these errors that applies, or `OutOfMemory`:
    ///
    /// - the issuer's refusal;
    /// - `ExtensionNotFound` if there is no subject alternative name, if there are several, and if it is malformed;
    /// - `ExtensionCheckFailed` with the identities that it gives, joined by a comma and a space.
    fn verify(&self, alloc: Global, cert: &Certificate) -> PolicyResult {
        self.issuer.verify(alloc, cert)?;
        verify_name(alloc, self.identity.as_str(), cert)
    }
}

fn verify_name(alloc: Global, identity: &str, cert: &Certificate) -> PolicyResult
    ensures { IsPolicyResult
        (is_among_identities identity.now (identities cert.now))
        (name_refusal identity.now (identities cert.now))
        result }
{
    let texts = identities(alloc, cert)?;
    judge_name(alloc, identity, &texts)
}

/// Returns the identities that the certificate names. `None` if it does not have exactly one well-formed subject
/// alternative name. Fails only if out of memory.
pub(crate) fn identities(
    alloc: Global,
    cert: &Certificate,
) -> Result<Option<Vec<&str>>, OutOfMemory>
    ensures { IfOk result (λ o. option_map (λ v. map (λ t. t.now) v.items) o ≡ identities cert.now) }
{
    match cert.extension(oid::SUBJECT_ALTERNATIVE_NAME) {
        Lookup::One(extension) => identities_of(alloc, extension.value),
        _ => Ok(None),
    }
}

/// Returns what the policy returns, if its issuer is the certificate's and the certificate names these identities.
pub(crate) fn judge_name(alloc: Global, identity: &str, texts: &Option<Vec<&str>>) -> PolicyResult
    ensures { IsPolicyResult
        (is_among_identities identity.now (option_map (λ v. map (λ t. t.now) v.items) texts.now))
        (name_refusal identity.now (option_map (λ v. map (λ t. t.now) v.items) texts.now))
        result }
{
    match texts {
        None => Err(PolicyError::ExtensionNotFound),
        Some(texts) => verify_among(alloc, identity, texts.as_slice()),
    }
}

fn verify_among(alloc: Global, identity: &str, texts: &[&str]) -> PolicyResult
    ensures { IsPolicyResult
        (is_among_identities identity.now (Some (map (λ t. t.now) texts.now)))
        (name_refusal identity.now (Some (map (λ t. t.now) texts.now)))
        result }
{
    if contains(texts, identity) {
        return Ok(());
    }
    let actual = joined(alloc, texts)?;
    Err(check_failed(alloc, "SubjectAltName", identity, actual.as_str())?)
}

#[tactic(auto, using(sig_base::proofs::SeenTexts::list_any_seen))]
fn contains(texts: &[&str], text: &str) -> bool
    ensures { result ≡ list_any (λ t. bytes_eq t text.now) (map (λ t. t.now) texts.now) }
{
    texts.contains(&text)
}

/// Returns the texts with a comma and a space between each two. Fails only if out of memory.
#[tactic(auto, using(crate::proofs::IdentityLaws::join_by_seen))]
fn joined(alloc: Global, texts: &[&str]) -> Result<Text, OutOfMemory>
    ensures { IfOk result (λ s. s ≡ join_by (λ t. t) (codes ", ") (map (λ t. t.now) texts.now)) }
{
    let joined = texts.join(alloc, ", ")?;
    Ok(Text::from(joined))
}
