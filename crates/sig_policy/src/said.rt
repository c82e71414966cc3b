//! What a certificate says to the policies of a request. Each extension is looked up once, and each identity is found
//! without going over the others, however many policies there are. Whether a policy holds costs no more than its own
//! text, except for the logarithm of the number of names; the refusal of one that does not hold costs what the
//! certificate says.

ghost use Rattle.std.specs.Prelude.{◌≡◌, IfOk};
ghost use Rattle.sig_policy.specs.Requests.{holds_by, refusal_by};
ghost use Rattle.sig_policy.specs.Said.{said_values, extension_values_of};

use crate::identity::{identities, judge_name};
use crate::identity_set::IdentitySet;
use crate::policy::PolicyResult;
use crate::request::LeafPolicy;
use crate::single::{extension_text, is_asked_text, judge_text};
use crate::subject::PolicySubject;
use sig_base::OutOfMemory;
use sig_certificate::Certificate;
use sig_der::oid;
use std::alloc::Global;

/// The text of each of Fulcio's extensions, and the identities that the subject alternative name gives, borrowed from
/// the certificate.
#[derive(Drop)]
pub(crate) struct Said<'a> {
    pub(crate) issuer: Option<&'a str>,
    pub(crate) trigger: Option<&'a str>,
    pub(crate) sha: Option<&'a str>,
    pub(crate) name: Option<&'a str>,
    pub(crate) repository: Option<&'a str>,
    pub(crate) git_ref: Option<&'a str>,
    pub(crate) identities: IdentitySet<'a>,
}

/// Returns what the certificate says. Fails only if out of memory.
pub(crate) fn said_by(alloc: Global, cert: &Certificate) -> Result<Said<'_>, OutOfMemory>
    ensures { IfOk result (λ s. said_values s ≡ extension_values_of cert.now) }
{
    let texts = identities(alloc, cert)?;
    let identities = IdentitySet::new(alloc, texts)?;
    Ok(Said {
        issuer: extension_text(cert, oid::FULCIO_ISSUER),
        trigger: extension_text(cert, oid::FULCIO_TRIGGER),
        sha: extension_text(cert, oid::FULCIO_SHA),
        name: extension_text(cert, oid::FULCIO_NAME),
        repository: extension_text(cert, oid::FULCIO_REPOSITORY),
        git_ref: extension_text(cert, oid::FULCIO_REF),
        identities,
    })
}

impl PolicySubject<LeafPolicy> for Said<'_> {
    ghost holds = { λ s p. holds_by p (said_values s) };

    ghost refusal = { λ s p. refusal_by p (said_values s) };

    fn judge(&self, alloc: Global, policy: &LeafPolicy) -> PolicyResult {
        match policy {
            LeafPolicy::OIDCIssuer(policy) => judge_text(alloc, policy, self.issuer),
            LeafPolicy::GitHubWorkflowTrigger(policy) => judge_text(alloc, policy, self.trigger),
            LeafPolicy::GitHubWorkflowSHA(policy) => judge_text(alloc, policy, self.sha),
            LeafPolicy::GitHubWorkflowName(policy) => judge_text(alloc, policy, self.name),
            LeafPolicy::GitHubWorkflowRepository(policy) => {
                judge_text(alloc, policy, self.repository)
            }
            LeafPolicy::GitHubWorkflowRef(policy) => judge_text(alloc, policy, self.git_ref),
            LeafPolicy::Identity(policy) => {
                judge_text(alloc, policy.issuer(), self.issuer)?;
                if self.identities.has(policy.identity()) {
                    return Ok(());
                }
                judge_name(alloc, policy.identity(), &self.identities.texts)
            }
        }
    }

    /// Takes no memory.
    fn meets(&self, _alloc: Global, policy: &LeafPolicy) -> Result<bool, OutOfMemory> {
        Ok(match policy {
            LeafPolicy::OIDCIssuer(policy) => is_asked_text(policy, self.issuer),
            LeafPolicy::GitHubWorkflowTrigger(policy) => is_asked_text(policy, self.trigger),
            LeafPolicy::GitHubWorkflowSHA(policy) => is_asked_text(policy, self.sha),
            LeafPolicy::GitHubWorkflowName(policy) => is_asked_text(policy, self.name),
            LeafPolicy::GitHubWorkflowRepository(policy) => is_asked_text(policy, self.repository),
            LeafPolicy::GitHubWorkflowRef(policy) => is_asked_text(policy, self.git_ref),
            LeafPolicy::Identity(policy) => {
                is_asked_text(policy.issuer(), self.issuer)
                    && self.identities.has(policy.identity())
            }
        })
    }
}
