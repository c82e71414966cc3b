//! The SHA-256 digest of an artifact whose bytes a source gives.
ghost use Rattle.std.specs.Prelude.{◌≡◌, ◌⊎◌, ◌+◌, ◌≤◌, Err, IfOk, IsErrOf};
ghost use Rattle.sig_base.specs.Sha256.{sha256};
ghost use Rattle.sig_base.specs.Stream.{Rose, TookAtMost, TookCount};
ghost use Rattle.sig_verify.specs.Artifact.{OfRest, most_artifact_bytes};

use sha2::{Digest, Sha256};
use sig_base::{Failed, Source};
use thiserror::Error;

/// The number of bytes that are taken at most, 2^40 + 1: one more than an artifact may have, to see that it is too
/// long.
const ARTIFACT_LIMIT: u64 = 1_099_511_627_777;

/// How many bytes one call of the source may give.
const ARTIFACT_PIECE: usize = 65_536;

/// Why an artifact could not be read.
#[derive(Clone, Copy, Debug, PartialEq, Eq, Error)]
pub enum InputFault {
    /// A read failed; the source's count of faults rose.
    #[error("Fault")]
    Fault,
    /// More than 2^40 bytes were left: 2^40 + 1 of them were taken.
    #[error("TooLong")]
    TooLong,
}

impl From<Failed> for InputFault {
    ghost use Rattle.std.specs.Prelude.{◌≡◌};
    ghost use Rattle.sig_verify.specs.declared.artifact.InputFault.TheVariants.{Fault as IsFault};

    ghost from_gives = { λ _ fault. fault ≡ IsFault };

    fn from(_failed: Failed) -> InputFault {
        InputFault::Fault
    }
}

/// SHA-256 (FIPS 180-4 section 6.2) of all bytes that the source has left, if they are at most 2^40. They are hashed
/// as they are read, and none is kept. Each turn takes at least one byte, so that it ends for every source.
///
/// Errors: `TooLong` if and only if 2^40 + 1 bytes were taken; `Fault` only if the source's count of faults rose.
pub(crate) fn sha256_of_rest<S: Source>(source: &mut S) -> Result<[u8; 32], InputFault>
    ensures ok { IfOk result (λ digest. OfRest (S.left source.old) (S.left source.new)
        (λ bytes. digest ≡ sha256 bytes)) }
    ensures long { IsErrOf result InputFault.TooLong → TookCount (S.left source.old) (S.left source.new)
        (most_artifact_bytes + 1) }
    ensures short { (result ≡ Err InputFault.TooLong)
        ⊎ TookAtMost most_artifact_bytes (S.left source.old) (S.left source.new) }
    ensures fault { IsErrOf result InputFault.Fault → Rose (S.faults source.old) (S.faults source.new) }
    ensures later { S.faults source.old ≤ S.faults source.new }
{
    let mut hasher = Sha256::new();
    let mut taken = 0;
    let mut buf = [0; ARTIFACT_PIECE];
    'turns: while taken < ARTIFACT_LIMIT {
        let room = (ARTIFACT_LIMIT - taken).min(ARTIFACT_PIECE as u64) as usize;
        let count = source.read(&mut buf[..room])?;
        if count == 0 {
            return Ok(hasher.finalize());
        }
        hasher.update(&buf[..count]);
        taken += count as u64;
    }
    Err(InputFault::TooLong)
}
