//! What the lists of `questions` mean. It has no code.
ghost use Rattle.sig_audit_command.specs.Suffice.{AuditQuestionsSuffice};
ghost use Rattle.sig_gate_command.specs.Suffice.{GateQuestionsSuffice};
ghost use Rattle.sig_program.specs.GivenBack.{ListsAreGivenBack};
ghost use Rattle.sig_program.specs.Suffice.{ConsistencyQuestionsSuffice, LogQuestionsSuffice, VerifyQuestionsSuffice};
ghost use Rattle.sig_program.specs.VerifyQuestions.{RefusesForAll};
ghost use Rattle.sig_program.specs.declared.command.Command.TheVariants.{AuditQuestions, ConsistencyQuestions, GateQuestions, LogQuestions, VerifyQuestions, WitnessQuestions};
ghost use Rattle.sig_witness_command.specs.Suffice.{WitnessQuestionsSuffice};

use sig_audit_command::laws::audit_lists;
use sig_gate_command::laws::gate_lists;
use sig_questions::laws::{questions_suffice, refusals};
use sig_witness_command::laws::witness_lists;

/// Nothing but the signatures that are asked for decides the reply of `log`, of `verify`, of `consistency`, of `audit`,
/// of `witness` and of `gate`, also where no list of them is written; a link that `questions verify` names is the first
/// that fails in `verify`, whatever is accepted; and a list that is written fits one request with the request that it
/// is for.
pub fn lists()
    ensures log { LogQuestionsSuffice }
    ensures verify { VerifyQuestionsSuffice }
    ensures consistency { ConsistencyQuestionsSuffice }
    ensures audit { AuditQuestionsSuffice }
    ensures witness { WitnessQuestionsSuffice }
    ensures gate { GateQuestionsSuffice }
    ensures refusals { RefusesForAll }
    ensures given_back { ListsAreGivenBack LogQuestions × ListsAreGivenBack VerifyQuestions
        × ListsAreGivenBack ConsistencyQuestions × ListsAreGivenBack AuditQuestions
        × ListsAreGivenBack WitnessQuestions × ListsAreGivenBack GateQuestions }
{
    // The same for `audit`, `witness` and `gate`, and what the questions of `verify` decide.
    audit_lists();
    witness_lists();
    gate_lists();
    questions_suffice();
    refusals();
}
