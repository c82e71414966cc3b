//! Why a text is not a document, and why a member is not what it has to be.
use json::Invalid;
use sig_base::OutOfMemory;
use std::alloc::AllocError;
use thiserror::Error;

/// Why a text is not a document.
#[derive(Clone, Copy, Debug, PartialEq, Eq, Error)]
pub enum DocumentError {
    /// The text is not UTF-8, or has no reading as JSON of at most 127 nested lists and objects.
    #[error("NotJson")]
    NotJson,
    /// The tree holds a number with a point or an exponent, `-0`, or an integer outside -2^63 to 2^64 - 1.
    #[error("Float")]
    Float,
    /// Out of memory.
    #[error("OutOfMemory")]
    OutOfMemory,
}

/// Why a text has no tree.
#[derive(Clone, Copy, Drop)]
pub(crate) enum ReadError {
    NotJson,
    OutOfMemory,
}

/// Why a member could not be read.
#[derive(Clone, Copy, Debug, PartialEq, Eq, Error)]
pub enum MemberError {
    /// The value is not an object, or the member breaks its row of the table.
    #[error("Member")]
    Member,
    /// Out of memory.
    #[error("OutOfMemory")]
    OutOfMemory,
}

/// Why a text is not a record of a table.
#[derive(Clone, Copy, Debug, PartialEq, Eq, Error)]
pub enum JsonError {
    /// The text is not JSON.
    #[error("NotJson")]
    NotJson,
    /// A number of the tree is a float.
    #[error("Float")]
    Float,
    /// A member breaks its row of the table.
    #[error("Member")]
    Member,
    /// Out of memory.
    #[error("OutOfMemory")]
    OutOfMemory,
}

impl From<OutOfMemory> for ReadError {
    ghost use Rattle.std.specs.Prelude.{◌≡◌};
    ghost use Rattle.sig_json.specs.declared.error.ReadError.TheVariants.{OutOfMemory};

    ghost from_gives = { λ _ e. e ≡ OutOfMemory };

    fn from(_error: OutOfMemory) -> ReadError {
        ReadError::OutOfMemory
    }
}

impl From<AllocError> for ReadError {
    ghost use Rattle.std.specs.Prelude.{◌≡◌};
    ghost use Rattle.sig_json.specs.declared.error.ReadError.TheVariants.{OutOfMemory};

    ghost from_gives = { λ _ e. e ≡ OutOfMemory };

    fn from(_error: AllocError) -> ReadError {
        ReadError::OutOfMemory
    }
}

impl From<Invalid> for ReadError {
    ghost use Rattle.std.specs.Prelude.{◌≡◌};
    ghost use Rattle.sig_json.specs.declared.error.ReadError.TheVariants.{NotJson};

    ghost from_gives = { λ _ e. e ≡ NotJson };

    fn from(_error: Invalid) -> ReadError {
        ReadError::NotJson
    }
}

impl From<ReadError> for DocumentError {
    ghost use Rattle.std.specs.Prelude.{◌≡◌};
    ghost use Rattle.sig_json.specs.Causes.{cause_of_reading};

    ghost from_gives = { λ cause e. e ≡ cause_of_reading cause };

    fn from(error: ReadError) -> DocumentError {
        match error {
            ReadError::NotJson => DocumentError::NotJson,
            ReadError::OutOfMemory => DocumentError::OutOfMemory,
        }
    }
}

impl From<OutOfMemory> for DocumentError {
    ghost use Rattle.std.specs.Prelude.{◌≡◌};
    ghost use Rattle.sig_json.specs.declared.error.DocumentError.TheVariants.{OutOfMemory};

    ghost from_gives = { λ _ e. e ≡ OutOfMemory };

    fn from(_error: OutOfMemory) -> DocumentError {
        DocumentError::OutOfMemory
    }
}

impl From<OutOfMemory> for MemberError {
    ghost use Rattle.std.specs.Prelude.{◌≡◌};
    ghost use Rattle.sig_json.specs.declared.error.MemberError.TheVariants.{OutOfMemory};

    ghost from_gives = { λ _ e. e ≡ OutOfMemory };

    fn from(_error: OutOfMemory) -> MemberError {
        MemberError::OutOfMemory
    }
}

impl From<OutOfMemory> for JsonError {
    ghost use Rattle.std.specs.Prelude.{◌≡◌};
    ghost use Rattle.sig_json.specs.declared.error.JsonError.TheVariants.{OutOfMemory};

    ghost from_gives = { λ _ e. e ≡ OutOfMemory };

    fn from(_error: OutOfMemory) -> JsonError {
        JsonError::OutOfMemory
    }
}

impl From<DocumentError> for JsonError {
    ghost use Rattle.std.specs.Prelude.{◌≡◌};
    ghost use Rattle.sig_json.specs.Causes.{cause_of_document};

    ghost from_gives = { λ cause e. e ≡ cause_of_document cause };

    fn from(error: DocumentError) -> JsonError {
        match error {
            DocumentError::NotJson => JsonError::NotJson,
            DocumentError::Float => JsonError::Float,
            DocumentError::OutOfMemory => JsonError::OutOfMemory,
        }
    }
}

impl From<MemberError> for JsonError {
    ghost use Rattle.std.specs.Prelude.{◌≡◌};
    ghost use Rattle.sig_json.specs.Causes.{cause_of_member};

    ghost from_gives = { λ cause e. e ≡ cause_of_member cause };

    fn from(error: MemberError) -> JsonError {
        match error {
            MemberError::Member => JsonError::Member,
            MemberError::OutOfMemory => JsonError::OutOfMemory,
        }
    }
}
