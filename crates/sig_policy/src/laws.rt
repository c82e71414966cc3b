//! What follows from the definitions of refusals, of the identity's policy and of the rules of a request. No function
//! here does anything: each states laws, and its proof is that they hold.

ghost use Rattle.std.specs.Prelude.{◌≡◌, ◌↔◌, ℕ, List, Some, true, false};
ghost use Rattle.sig_certificate.specs.Certificate.{Cert};
ghost use Rattle.sig_certificate.specs.Names.{Name};
ghost use Rattle.sig_der.specs.ObjectIdentifiers.{fulcio};
ghost use Rattle.sig_policy.specs.Claim.{Claim};
ghost use Rattle.sig_policy.specs.CertificateWords.{GivesIdentity, HasText, HasIdentity, IsNamed, WhyNot, refusal_for};
ghost use Rattle.sig_policy.specs.Identities.{identity_of, identity_holds, identity_refusal};
ghost use Rattle.sig_policy.specs.MetRule.{IsMet, IsMetBy};
ghost use Rattle.sig_policy.specs.Refusals.{Refusal, IsRefusal};
ghost use Rattle.sig_policy.specs.Requests.{leaf_holds, request_holds};
ghost use Rattle.sig_policy.specs.declared.failure.PolicyError.{PolicyError};
ghost use Rattle.sig_policy.specs.declared.request.LeafPolicy.{LeafPolicy};
ghost use Rattle.sig_policy.specs.declared.request.RequestPolicy.{RequestPolicy};

use crate::failure::PolicyError;

/// An error says at most one refusal, so that exactly one error of a policy says its refusal of a certificate; and
/// `OutOfMemory` does not say one.
pub fn refusal_laws()
    ensures one { (r s : Refusal) (e : PolicyError) → IsRefusal r e → IsRefusal s e → r ≡ s }
    ensures memory { (r : Refusal) → ¬ IsRefusal r PolicyError.OutOfMemory }
{}

/// The policy of an identity holds if and only if the certificate has the issuer's text, and one of its subject
/// alternative names gives the identity: an email, a URI, or Fulcio's other name. If not, its refusal is that of the
/// first rule that is broken, and no other.
pub fn identity_laws()
    ensures held { (p : Claim) (c : Cert) → (identity_holds p c ≡ true)
        ↔ (HasText (fulcio 1) c p.issuer × HasIdentity c p.identity) }
    ensures caused { (p : Claim) (c : Cert) (w : WhyNot p c)
        → (identity_holds p c ≡ false) × (identity_refusal p c ≡ refusal_for p c w) }
    ensures cause { (p : Claim) (c : Cert) → identity_holds p c ≡ false
        → (w : WhyNot p c) × (identity_refusal p c ≡ refusal_for p c w) }
    ensures named { (p : Claim) (c : Cert) → (identity_holds p c ≡ true)
        ↔ (HasText (fulcio 1) c p.issuer × IsNamed c p.identity) }
    ensures given { (name : Name) (identity : List ℕ) → (identity_of name ≡ Some identity)
        ↔ GivesIdentity name identity }
{}

/// A rule of a request holds if and only if the certificate has the one extension that the rule compares, by its
/// number, with the rule's text; a policy if and only if each of its rules does, or at least one.
pub fn rule_laws()
    ensures rule { (rule : LeafPolicy) (c : Cert) → (leaf_holds rule c ≡ true) ↔ IsMet c rule }
    ensures policy { (policy : RequestPolicy) (c : Cert) → (request_holds policy c ≡ true) ↔ IsMetBy policy c }
{}
