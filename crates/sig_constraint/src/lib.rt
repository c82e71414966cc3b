//! A caller's constraints over the layers that `cosign` stores beside a container image: which of them a layer
//! satisfies, and what is added to a layer before it is signed.
//!
//! ```text
//! let mut constraints: VerificationConstraintVec = Vec::new(alloc);
//! constraints.push(Box::new(alloc, PublicKeyVerifier::try_from_der(alloc, key, checker)?)?)?;
//! constraints.push(Box::new(alloc, AnnotationVerifier { annotations })?)?;
//! for layer in layers.as_slice().chunks(1) {
//!     if verify_constraints(alloc, layer, constraints.as_slice()).is_ok() { .. }   // this layer satisfies both
//! }
//! ```
//!
//! The layer above uses three facts. A verification constraint is a predicate of layers, and `verify_constraints`
//! returns `Ok` if and only if each constraint is satisfied by at least one layer, else the ascending indices of those
//! that no layer satisfies. A constraint makes a layer of one to which it applies, and `apply_constraints` leaves what
//! the constraints give one after another. Both are proved for every implementation of the two traits.
//!
//! **Each constraint may be satisfied by another layer**: give one layer at a time if all of them are to hold of the
//! same one. **Only [`PublicKeyVerifier`] and [`CertificateVerifier`] check a signature over the layer**: a layer that
//! anybody made can have a genuine certificate of somebody else: [`CertSubjectEmailVerifier`] and
//! [`CertSubjectUrlVerifier`] hold of it.
#![tactic(auto)]

mod annotation_marker;
mod annotation_verifier;
mod apply;
mod boxed;
mod certificate_chain;
mod certificate_verifier;
mod constraint;
mod email_verifier;
pub mod laws;
mod public_key_verifier;
mod string_verifier;
mod url_verifier;
mod verify;

pub use annotation_marker::AnnotationMarker;
pub use annotation_verifier::AnnotationVerifier;
pub use apply::{SigstoreApplicationConstraintsError, apply_constraints};
pub use certificate_verifier::CertificateVerifier;
pub use constraint::{
    Constraint, SignConstraintVec, VerificationConstraint, VerificationConstraintVec,
};
pub use email_verifier::CertSubjectEmailVerifier;
pub use public_key_verifier::PublicKeyVerifier;
pub use string_verifier::StringVerifier;
pub use url_verifier::CertSubjectUrlVerifier;
pub use verify::{SigstoreVerifyConstraintsError, verify_constraints};
