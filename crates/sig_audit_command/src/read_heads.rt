//! Reading the heads of a request: each checkpoint's text.
ghost use Rattle.std.specs.Prelude.{IfErr, IfOk, MatchOption};
ghost use Rattle.sig_audit_command.specs.Heads.{AreHeads, HasReading, IsHead, IsNoHeads};

use sig_audit::{AuditHead, Heads};
use sig_base::OutOfMemory;
use sig_rekor::{ParseCheckpointError, SignedCheckpoint};
use sig_request::HeadText;
use std::alloc::Global;

/// Why there are no heads.
#[derive(Clone, Copy)]
pub enum NoHeads {
    /// The text of the head at this index is not a checkpoint, and it is the first such head.
    Checkpoint(usize),
    /// Out of memory.
    OutOfMemory,
}

impl From<OutOfMemory> for NoHeads {
    ghost use Rattle.std.specs.Prelude.{◌≡◌};
    ghost use Rattle.sig_audit_command.specs.declared.read_heads.NoHeads.TheVariants.{OutOfMemory};

    ghost from_gives = { λ _ e. e ≡ OutOfMemory };

    fn from(_error: OutOfMemory) -> NoHeads {
        NoHeads::OutOfMemory
    }
}

/// Returns the heads of a request. Fails if the text of one is not a checkpoint, with the index of the first, or if out
/// of memory.
#[tactic(auto, using(crate::proofs::Heads::heads_read))]
pub fn read_heads(alloc: Global, texts: &[HeadText]) -> Result<Heads, NoHeads>
    ensures ok { IfOk result (AreHeads texts.now) }
    ensures err { IfErr result (IsNoHeads texts.now) }
{
    let mut heads = Heads::new(alloc);
    'texts: for (place, text) in texts.iter().enumerate() {
        match read_head(alloc, text)? {
            Some(head) => heads.push(head)?,
            None => {
                drop(heads);
                return Err(NoHeads::Checkpoint(place));
            }
        }
    }
    Ok(heads)
}

/// The head of a text; `None` if and only if the text is not a checkpoint.
fn read_head(alloc: Global, text: &HeadText) -> Result<Option<AuditHead>, OutOfMemory>
    ensures { IfOk result (λ found. MatchOption found (¬ HasReading text.now) (IsHead text.now)) }
{
    match SignedCheckpoint::decode(alloc, text.checkpoint.as_str()) {
        Ok(checkpoint) => Ok(Some(AuditHead {
            checkpoint,
            hashes: text.hashes.copy(alloc)?,
        })),
        Err(ParseCheckpointError::DecodeError(_)) => Ok(None),
        Err(ParseCheckpointError::OutOfMemory) => Err(OutOfMemory),
    }
}
