//! A witness as text: five lines for each origin.
//!
//! ```text
//! log.example
//! ECDSA_P256_SHA256_ASN1
//! a2V5
//! 1
//! OVqgZKpMKfcBCs/j8l25SFu9S5GJe2rXrVR2OSUrTVY=
//! ```
ghost use Rattle.std.specs.Prelude.{◌≡◌, ◌++◌, [], IfOk, OnOk, string_bytes};
ghost use Rattle.base64.specs.GeneralPurpose.{IsBytes};
ghost use Rattle.sig_audit.specs.Chained.{AreChained};
ghost use Rattle.sig_key.specs.Key.{key_info};
ghost use Rattle.sig_witness.specs.StateText.{IsHeadValue, IsStateOf, cut_logs, kept_head, lines_before, lines_of};
ghost use Rattle.sig_witness.specs.StateText.{state_text};

use crate::kept_log::KeptLog;
use crate::witness::Witness;
use sig_base::{OutOfMemory, Text};
use std::alloc::Global;

impl Witness {
    /// Writes for each origin in byte order five lines: the origin, the name of the key's scheme, the key in base64,
    /// and the size of the kept head in decimal and its root hash in base64. [`Witness::decode`] reads the same witness
    /// with each chain cut to its last head, without that head's hashes. Fails only if out of memory.
    #[tactic(auto, using(crate::proofs::StateWrites::writing))]
    pub fn encode(&self, alloc: Global) -> Result<Text, OutOfMemory>
        ensures text { IfOk result (λ text. text ≡ state_text self.now) }
        ensures back { IfOk result (λ text. IsStateOf text (cut_logs self.now)) }
    {
        let mut text = String::new(alloc);
        'logs: for (origin, log) in self.logs.iter() {
            push_lines(alloc, &mut text, origin, log)?;
        }
        Ok(Text::from(text))
    }
}

/// Writes the lines of an origin after a text. Fails only if out of memory.
fn push_lines(
    alloc: Global,
    text: &mut String,
    origin: &str,
    log: &KeptLog,
) -> Result<(), OutOfMemory>
    requires { AreChained log.now.chain }
    ensures text { OnOk result (string_bytes text.new ≡ string_bytes text.old
        ++ lines_before (lines_of (origin.now, log.now)) []) }
    ensures key { OnOk result (IsBytes (key_info log.now.key)) }
    ensures head { OnOk result (IsHeadValue (kept_head log.now)) }
{
    let Some(head) = log.chain.as_slice().last() else {
        unreachable!()
    };
    let scheme = log.key.scheme().name();
    let key = Text::in_base64(alloc, log.key.spki())?;
    let size = head.size;
    let hash = Text::in_base64(alloc, &head.hash)?;
    let lines = format!(in alloc;
        "{origin}\n{scheme}\n{}\n{size}\n{}\n",
        key.as_str(),
        hash.as_str()
    )?;
    text.push_str(lines.as_str())?;
    Ok(())
}
