//! What the list of `questions gate` means. It has no code.
ghost use Rattle.sig_gate_command.specs.Suffice.{GateListsAreGivenBack, GateQuestionsSuffice, GateRowsAreEachOnce};

use sig_questions::laws::questions_suffice;

/// Nothing but the signatures that are asked for decides the reply of `gate`, each signature that a bundle asks for is
/// listed, once, and a list that is written fits one request with the manifest that it is for.
pub fn gate_lists()
    ensures suffice { GateQuestionsSuffice }
    ensures once { GateRowsAreEachOnce }
    ensures given_back { GateListsAreGivenBack }
{
    // The signatures that a bundle asks for decide which of its links hold.
    questions_suffice();
}
