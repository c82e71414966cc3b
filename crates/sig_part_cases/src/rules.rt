//! Rules of policies.
use sig_base::Text;
use sig_cases::Arguments;
use sig_x509::{
    GitHubWorkflowName, GitHubWorkflowRef, GitHubWorkflowRepository, GitHubWorkflowSHA,
    GitHubWorkflowTrigger, LeafPolicy, OIDCIssuer,
};

/// The rule of this name that asks for this text.
pub fn rule_named(arguments: &mut Arguments<'_>, name: &str, text: Text) -> LeafPolicy {
    match name {
        "OIDCIssuer" => LeafPolicy::OIDCIssuer(OIDCIssuer(text)),
        "GitHubWorkflowTrigger" => LeafPolicy::GitHubWorkflowTrigger(GitHubWorkflowTrigger(text)),
        "GitHubWorkflowSHA" => LeafPolicy::GitHubWorkflowSHA(GitHubWorkflowSHA(text)),
        "GitHubWorkflowName" => LeafPolicy::GitHubWorkflowName(GitHubWorkflowName(text)),
        "GitHubWorkflowRepository" => {
            LeafPolicy::GitHubWorkflowRepository(GitHubWorkflowRepository(text))
        }
        "GitHubWorkflowRef" => LeafPolicy::GitHubWorkflowRef(GitHubWorkflowRef(text)),
        _ => {
            arguments.refuse();
            LeafPolicy::OIDCIssuer(OIDCIssuer(text))
        }
    }
}
