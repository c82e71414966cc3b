//! What the definitions of a gate mean. Their calls do nothing.
ghost use Rattle.sig_gate.specs.Laws.{VerdictsAreExact, VerdictsAreOfOffline};

/// The verdict on a bundle is `Verified` if and only if every link holds, and `Refused` with a link if and only if that
/// link is the first that fails.
pub fn exact_verdicts()
    ensures { VerdictsAreExact }
{}

/// Whatever `verify_offline` returns for the inputs of a bundle, unless memory runs out, the verdict on the bundle says the
/// same: the entry that it returns, or the link of its error.
pub fn offline_verdicts()
    ensures { VerdictsAreOfOffline }
{}
