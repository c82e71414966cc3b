//! What the definitions mean. Its calls do nothing.
ghost use Rattle.sig_explain_verify.specs.OneTree.{ResultsHaveOneTree};

use sig_certificate::laws::certificates;

/// Whatever `verify_offline` returns for the same inputs, unless memory runs out, it is shown as one tree: that of the
/// error with what its link compares, or of what was verified.
pub fn results()
    ensures { ResultsHaveOneTree }
{
    // Bytes are at most one certificate.
    certificates();
}
