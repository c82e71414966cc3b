//! What the list of `questions audit` means. It has no code.
ghost use Rattle.sig_audit_command.specs.Suffice.{AuditListsAreGivenBack, AuditQuestionsSuffice};

/// Nothing but the signatures that are asked for decides the reply of `audit`, and a list that is written fits one
/// request with the request that it is for.
pub fn audit_lists()
    ensures suffice { AuditQuestionsSuffice }
    ensures given_back { AuditListsAreGivenBack }
{}
