//! Why a policy does not hold of a certificate.

ghost use Rattle.std.specs.Prelude.{◌≡◌, ◌++◌, [], ◌∷◌, length, slice_get, OnOk, OnErr};
ghost use Rattle.std.specs.Option.{option_copied};
ghost use Rattle.sig_policy.specs.declared.failure.PolicyError.TheVariants.{OutOfMemory as Memory};
ghost use Rattle.sig_policy.specs.Failures.{failures, IsAllOf};

use sig_base::{OutOfMemory, Text};
use std::alloc::{AllocError, AllocFailed, Global};
use thiserror::Error;

/// Why a policy does not hold of a certificate, or that memory ran out.
#[cycle(policy_error)]
#[derive(Debug, Drop, Error)]
pub enum PolicyError {
    /// The certificate does not have exactly one extension of the policy's, or its value does not have the form that it
    /// must have.
    #[error("ExtensionNotFound")]
    ExtensionNotFound,
    /// The extension does not say what the policy requires.
    #[error("ExtensionCheckFailed")]
    ExtensionCheckFailed {
        /// The policy's name, or the extension's.
        extension: Text,
        /// What the policy asks for.
        expected: Text,
        /// What the extension says.
        actual: Text,
    },
    /// In a list of which each policy has to hold, some do not.
    #[error("AllOf")]
    AllOf {
        /// The number of policies in the list.
        total: usize,
        /// The refusals of those that do not hold, in order.
        errors: PolicyErrors,
    },
    /// In a list of which one policy has to hold, none does.
    #[error("AnyOf")]
    AnyOf {
        /// The number of policies in the list.
        total: usize,
    },
    /// Out of memory.
    #[error("OutOfMemory")]
    OutOfMemory,
}

/// Refusals in order.
#[cycle(policy_error)]
#[derive(Debug, Drop)]
pub struct PolicyErrors {
    items: Vec<PolicyError>,
}

impl PolicyErrors {
    pub(crate) fn new(alloc: Global) -> PolicyErrors
        ensures { failures result ≡ [] }
    {
        PolicyErrors {
            items: Vec::new(alloc),
        }
    }

    /// Adds a refusal at the end. Fails only if out of memory; the list is then as before.
    pub(crate) fn push(&mut self, error: PolicyError) -> Result<(), OutOfMemory>
        ensures ok { OnOk result (failures self.new ≡ failures self.old ++ error ∷ []) }
        ensures err { OnErr result (failures self.new ≡ failures self.old) }
    {
        self.items.push(error)?;
        Ok(())
    }

    /// Returns the number of refusals.
    pub fn len(&self) -> usize
        ensures { result ≡ length (failures self.now) }
    {
        self.items.len()
    }

    /// Returns the refusal at an index. `None` if the index is not below the length.
    pub fn get(&self, index: usize) -> Option<&PolicyError>
        ensures { option_copied result ≡ slice_get (failures self.now) index }
    {
        self.items.as_slice().get(index)
    }
}

/// Returns the refusal of a list of policies of which each has to hold.
pub(crate) fn all_of(total: usize, errors: PolicyErrors) -> PolicyError
    ensures { IsAllOf total (failures errors) result }
{
    PolicyError::AllOf { total, errors }
}

impl From<OutOfMemory> for PolicyError {
    ghost from_gives = { λ _ e. e ≡ Memory };

    fn from(_error: OutOfMemory) -> PolicyError {
        PolicyError::OutOfMemory
    }
}

impl From<AllocError> for PolicyError {
    ghost from_gives = { λ _ e. e ≡ Memory };

    fn from(_error: AllocError) -> PolicyError {
        PolicyError::OutOfMemory
    }
}

impl<T: Drop> From<AllocFailed<T>> for PolicyError {
    ghost from_gives = { λ _ e. e ≡ Memory };

    fn from(_error: AllocFailed<T>) -> PolicyError {
        PolicyError::OutOfMemory
    }
}
