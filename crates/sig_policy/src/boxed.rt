//! Lists of boxed policies, of which each or at least one has to hold.

ghost use Rattle.std.specs.Prelude.{◌≡◌, ◌↔◌, [], length, None, IfSome};
ghost use Rattle.std.specs.List.{list_all, list_any};
ghost use Rattle.sig_certificate.specs.Certificate.{Cert};
ghost use Rattle.sig_policy.specs.Refusals.{any_of};
ghost use Rattle.sig_policy.specs.Requests.{all_refusal};

use crate::policy::{PolicyResult, VerificationPolicy};
use crate::request::{verify_all, verify_any};
use sig_certificate::Certificate;
use std::alloc::Global;

impl VerificationPolicy for Box<dyn VerificationPolicy> {
    ghost holds = { λ b c. (VerificationPolicy-box b).holds b.value c };

    ghost refusal = { λ b c. (VerificationPolicy-box b).refusal b.value c };

    fn verify(&self, alloc: Global, cert: &Certificate) -> PolicyResult {
        (**self).verify(alloc, cert)
    }
}

/// A policy that holds if and only if at least one of its children does; so one without children does not hold.
#[derive(Drop)]
pub struct AnyOf {
    children: Vec<Box<dyn VerificationPolicy>>,
}

/// A policy that holds if and only if each of its children does. It has at least one child.
#[derive(Drop)]
pub struct AllOf {
    children: Vec<Box<dyn VerificationPolicy>>,
}

impl VerificationPolicy for AnyOf {
    ghost holds = { λ p c. list_any (λ b. (VerificationPolicy-box b).holds b.value c) p.children.items };

    ghost refusal = { λ p c. any_of (length p.children.items) };

    /// Returns `Ok` if and only if at least one child holds; else `AnyOf` with the number of children. It takes the
    /// time of the children's own calls, and drops each refusal before it calls the next child.
    fn verify(&self, alloc: Global, cert: &Certificate) -> PolicyResult {
        verify_any(alloc, self.children.as_slice(), cert)
    }
}

impl VerificationPolicy for AllOf {
    ghost holds = { λ p c. list_all (λ b. (VerificationPolicy-box b).holds b.value c) p.children.items };

    ghost refusal = { λ p c. all_refusal
        (λ b. (VerificationPolicy-box b).holds b.value c)
        (λ b. (VerificationPolicy-box b).refusal b.value c)
        p.children.items };

    /// Returns `Ok` if and only if each child holds; else `AllOf` with the number of children and the refusals of
    /// those that do not hold, in order. Each refusal may have a copy of what the certificate says.
    fn verify(&self, alloc: Global, cert: &Certificate) -> PolicyResult {
        verify_all(alloc, self.children.as_slice(), cert)
    }
}

impl AnyOf {
    /// Returns the policy of these children.
    pub fn new(children: Vec<Box<dyn VerificationPolicy>>) -> AnyOf
        ensures holds { (c : Cert) → ⟦<AnyOf as VerificationPolicy>⟧.holds result c ≡ list_any
            (λ b. holds b c) children.items }
        ensures refusal { (c : Cert) → ⟦<AnyOf as VerificationPolicy>⟧.refusal result c ≡ any_of
            (length children.items) }
    {
        AnyOf { children }
    }
}

impl AllOf {
    /// Returns the policy of these children. `None` if and only if there is none.
    pub fn new(children: Vec<Box<dyn VerificationPolicy>>) -> Option<AllOf>
        ensures empty { (result ≡ None) ↔ (children.items ≡ []) }
        ensures holds { IfSome result (λ p. (c : Cert) → ⟦<AllOf as VerificationPolicy>⟧.holds p c ≡ list_all
            (λ b. holds b c) children.items) }
        ensures refusal { IfSome result (λ p. (c : Cert) → ⟦<AllOf as VerificationPolicy>⟧.refusal p c
            ≡ all_refusal (λ b. holds b c) (λ b. refusal b c) children.items) }
    {
        if children.is_empty() {
            None
        } else {
            Some(AllOf { children })
        }
    }
}
