//! Errors under their names for a caller of `cosign`'s layers.
ghost use Rattle.std.specs.Prelude.{◌≡◌};
ghost use Rattle.sig_base.specs.declared.error.SigstoreError.TheVariants.{UnexpectedError};
ghost use Rattle.sig_attestation.specs.Vouching.{IsLogRefusal, log_refusal};

use sig_base::{SigstoreError, UnexpectedKind};
use sig_verify::OfflineError;

/// The error for an entry that a log does not vouch for; there are no other errors.
pub(crate) fn log_refusal(error: OfflineError) -> SigstoreError
    requires { IsLogRefusal error }
    ensures { result ≡ log_refusal error }
{
    match error {
        OfflineError::PromiseMissing => unexpected(UnexpectedKind::PromiseMissing),
        OfflineError::PromiseInteger => unexpected(UnexpectedKind::PromiseInteger),
        OfflineError::Promise => unexpected(UnexpectedKind::Promise),
        OfflineError::ProofMissing => unexpected(UnexpectedKind::ProofMissing),
        OfflineError::RootLength => unexpected(UnexpectedKind::RootLength),
        OfflineError::HashLength(index) => unexpected(UnexpectedKind::HashLength(index)),
        OfflineError::TreeSize => unexpected(UnexpectedKind::TreeSize),
        OfflineError::CheckpointMissing => unexpected(UnexpectedKind::CheckpointMissing),
        OfflineError::ParseCheckpointError(fault) => SigstoreError::ParseCheckpointError(fault),
        OfflineError::CheckpointSignatureVerificationError => {
            SigstoreError::CheckpointSignatureVerificationError
        }
        OfflineError::ConsistencyProofError(error) => SigstoreError::ConsistencyProofError(error),
        OfflineError::InclusionProofError(error) => SigstoreError::InclusionProofError(error),
        OfflineError::OutOfMemory => SigstoreError::OutOfMemory,
        _ => unreachable!(),
    }
}

/// The error for what is not as it has to be.
pub(crate) fn unexpected(kind: UnexpectedKind) -> SigstoreError
    ensures { result ≡ UnexpectedError kind }
{
    SigstoreError::UnexpectedError(kind)
}
