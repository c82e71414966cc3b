//! Policies: what has to hold of a certificate besides its issuance. They ask for the values of Fulcio's extensions
//! (https://github.com/sigstore/fulcio/blob/main/docs/oid-info.md), for one of the subject's alternative names (RFC
//! 5280 section 4.2.1.6), or for all or any of several policies.
//!
//! The alternative names that a policy asks for:
//!
//! ```text
//! SubjectAltName ::= SEQUENCE OF GeneralName      -- RFC 5280 section 4.2.1.6
//!      rfc822Name                [1]  an email
//!      uniformResourceIdentifier [6]  a URI
//!      otherName                 [0]  of the type-id 1.3.6.1.4.1.57264.1.7, whose value is a text
//! ```
//!
//! The layers above use one fact. A policy is a predicate of certificates, with one refusal for each certificate of
//! which it does not hold: `verify` returns `Ok` if and only if it holds, else the error of that refusal, unless
//! memory ran out.
#![tactic(auto)]

mod asked_identities;
mod asked_texts;
mod boxed;
mod failure;
mod fulcio;
mod held_policy;
mod identities;
mod identity;
mod identity_set;
mod laws;
mod policy;
mod request;
mod said;
mod single;
mod subject;
mod text_sets;
mod utf8;

pub use boxed::{AllOf, AnyOf};
pub use failure::{PolicyError, PolicyErrors};
pub use fulcio::{
    GitHubWorkflowName, GitHubWorkflowRef, GitHubWorkflowRepository, GitHubWorkflowSHA,
    GitHubWorkflowTrigger, OIDCIssuer,
};
pub use held_policy::HeldPolicy;
pub use identity::Identity;
pub use laws::{identity_laws, refusal_laws, rule_laws};
pub use policy::{PolicyResult, VerificationPolicy};
pub use request::{LeafPolicies, LeafPolicy, RequestPolicy};
pub use single::{SingleX509ExtPolicy, verify_single};
