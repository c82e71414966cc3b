//! Reading a request.
ghost use Rattle.std.specs.Prelude.{◌≡◌, ◌+◌, ◌<◌, ◌≤◌, length, IfOk, IsErrOf};
ghost use Rattle.sig_base.specs.Stream.{HandsOver, TookCount, Rose, TookAtMost};
ghost use Rattle.sig_request.specs.Limit.{most_bytes};

use sig_base::{Bytes, Failed, Source};
use std::alloc::{AllocError, Global};

/// A request has at most this many bytes, 2^24.
pub const MOST_BYTES: usize = 16_777_216;

/// The number of bytes that are taken at most: one more than a request may have, to see that it is too long.
pub const REQUEST_LIMIT: usize = 16_777_217;

/// How many bytes one call of the source may give.
const REQUEST_PIECE: usize = 16_384;

/// Why a request could not be read.
#[derive(Clone, Copy, PartialEq, Eq)]
pub enum ReadFault {
    /// A read failed; the source's count of faults rose.
    Failed,
    /// More than 2^24 bytes were left: 2^24 + 1 of them were taken.
    TooLong,
    /// Memory ran out.
    OutOfMemory,
}

impl From<Failed> for ReadFault {
    ghost use Rattle.std.specs.Prelude.{◌≡◌};
    ghost use Rattle.sig_request.specs.declared.read.ReadFault.TheVariants.{Failed as failed};

    ghost from_gives = { λ _ fault. fault ≡ failed };

    fn from(_failed: Failed) -> ReadFault {
        ReadFault::Failed
    }
}

impl From<AllocError> for ReadFault {
    ghost use Rattle.std.specs.Prelude.{◌≡◌};
    ghost use Rattle.sig_request.specs.declared.read.ReadFault.TheVariants.{OutOfMemory};

    ghost from_gives = { λ _ fault. fault ≡ OutOfMemory };

    fn from(_error: AllocError) -> ReadFault {
        ReadFault::OutOfMemory
    }
}

/// Reads all that the source has left, if that is at most 2^24 bytes. Each turn takes a byte, so that it ends for
/// every source.
///
/// Errors: `TooLong` if and only if 2^24 + 1 bytes were taken; `Failed` only if the source's count of faults rose; out
/// of memory.
#[tactic(auto, using(crate::proofs::SourceReads::turns))]
pub fn read_request<S: Source>(alloc: Global, source: &mut S) -> Result<Bytes, ReadFault>
    ensures ok { IfOk result (λ bytes. HandsOver (S.left source.old) (S.left source.new) bytes) }
    ensures short { IfOk result (λ bytes. length bytes < most_bytes + 1) }
    ensures long { IsErrOf result ReadFault.TooLong → TookCount (S.left source.old) (S.left source.new)
        (most_bytes + 1) }
    ensures failed { IsErrOf result ReadFault.Failed → Rose (S.faults source.old) (S.faults source.new) }
    ensures most { TookAtMost (most_bytes + 1) (S.left source.old) (S.left source.new) }
    ensures later { S.faults source.old ≤ S.faults source.new }
{
    let mut bytes = Vec::new(alloc);
    let mut buf = [0; REQUEST_PIECE];
    'turns: while bytes.len() < REQUEST_LIMIT {
        let room = (REQUEST_LIMIT - bytes.len()).min(REQUEST_PIECE);
        let count = source.read(&mut buf[..room])?;
        if count == 0 {
            return Ok(Bytes::from(bytes));
        }
        bytes.extend_from_slice(&buf[..count])?;
    }
    Err(ReadFault::TooLong)
}
