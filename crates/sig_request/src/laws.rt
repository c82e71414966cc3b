//! What the members of a request's policy mean, and how long the lists of an audit are. Its calls do nothing: each states laws, and its proof is that they
//! hold.
ghost use Rattle.std.specs.Prelude.{◌≡◌, ◌↔◌, ℕ, List, Some};
ghost use Rattle.sig_json.specs.Data.{Data};
ghost use Rattle.sig_policy.specs.declared.request.LeafPolicy.{LeafPolicy};
ghost use Rattle.sig_policy.specs.declared.request.RequestPolicy.{RequestPolicy};
ghost use Rattle.sig_request.specs.AuditRequest.{AreWithin, audit_request};
ghost use Rattle.sig_request.specs.Policy.{request_policy_of, rule_of};
ghost use Rattle.sig_request.specs.ReadFrom.{IsRequestOf};
ghost use Rattle.sig_request.specs.Rules.{HasPolicy, IsPolicy, IsRule};
ghost use Rattle.sig_request.specs.VerifyRequest.{verify_request};
ghost use Rattle.sig_request.specs.declared.audit_request.AuditRequest.{AuditRequest};
ghost use Rattle.sig_request.specs.declared.verify_request.VerifyRequest.{VerifyRequest};

/// A value is read as a rule if and only if it is an object that has exactly one of these sets of members: `identity`
/// with `issuer`, or one of `issuer`, `trigger`, `sha`, `name`, `repository` and `ref`. It is read as a policy if and
/// only if it has such rules, at least one, under `all` and nothing under `any`, or the other way round. The policy of
/// a request of `verify` is the one that the member `policy` of its document is.
pub fn policies()
    ensures rule { (d : Data) (rule : LeafPolicy) → (rule_of d ≡ Some rule) ↔ IsRule d rule }
    ensures policy { (d : Data) (policy : RequestPolicy) → (request_policy_of d ≡ Some policy) ↔ IsPolicy d policy }
    ensures request { (text : List ℕ) (request : VerifyRequest) → IsRequestOf verify_request text request
        → HasPolicy text request.policy }
{}

/// A request of `audit` has from 1 to 256 heads and at most 4,096 watched entries, and each of these names one of the
/// heads by its index.
pub fn audit_requests()
    ensures { (text : List ℕ) (request : AuditRequest) → IsRequestOf audit_request text request
        → AreWithin request.heads request.watched }
{}
