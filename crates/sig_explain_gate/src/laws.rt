//! What the definitions mean. Its calls do nothing.
ghost use Rattle.sig_explain_gate.specs.OneTree.{TextsHaveOneTree};

use sig_bundle::laws::proofs;
use sig_explain_verify::laws::results;

/// A text has one explanation by `gate`.
pub fn texts()
    ensures { TextsHaveOneTree }
{
    // What is shown of a bundle is unique, and so is the proof of its log entry.
    results();
    proofs();
}
