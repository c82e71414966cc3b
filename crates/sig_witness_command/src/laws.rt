//! What the list of `questions witness` means. It has no code.
ghost use Rattle.sig_witness_command.specs.Suffice.{WitnessListsAreGivenBack, WitnessQuestionsSuffice, WitnessRowsAreEachOnce};

/// Nothing but the signatures that are asked for decides the reply of `witness`, each signature of an update under the
/// key of its origin is listed, once, and a list that is written fits one request with the request that it is for.
pub fn witness_lists()
    ensures suffice { WitnessQuestionsSuffice }
    ensures once { WitnessRowsAreEachOnce }
    ensures given_back { WitnessListsAreGivenBack }
{}
