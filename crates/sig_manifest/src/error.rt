//! `ManifestError`: why a text is not a manifest.
use sig_base::OutOfMemory;
use sig_json::JsonError;
use thiserror::Error;

/// Why a text is not a manifest: the first cause. A number is the index of an artifact.
#[derive(Clone, Copy, Debug, PartialEq, Eq, Error)]
pub enum ManifestError {
    /// The text is not JSON.
    #[error("NotJson")]
    NotJson,
    /// A number of the tree is a float.
    #[error("Float")]
    Float,
    /// A member is not what it has to be.
    #[error("Member")]
    Member,
    /// The artifact names a trusted root that is not there; each artifact before it names a trusted root and a policy
    /// that are there.
    #[error("UnknownRoot")]
    UnknownRoot(usize),
    /// The artifact names a policy that is not there, and a trusted root that is; each artifact before it names a trusted
    /// root and a policy that are there.
    #[error("UnknownPolicy")]
    UnknownPolicy(usize),
    /// Out of memory.
    #[error("OutOfMemory")]
    OutOfMemory,
}

impl From<JsonError> for ManifestError {
    ghost use Rattle.std.specs.Prelude.{◌≡◌};
    ghost use Rattle.sig_manifest.specs.Errors.{of_json};

    ghost from_gives = { λ error e. e ≡ of_json error };

    fn from(error: JsonError) -> ManifestError {
        match error {
            JsonError::NotJson => ManifestError::NotJson,
            JsonError::Float => ManifestError::Float,
            JsonError::Member => ManifestError::Member,
            JsonError::OutOfMemory => ManifestError::OutOfMemory,
        }
    }
}
