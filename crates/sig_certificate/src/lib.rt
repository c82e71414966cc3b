//! Certificates of RFC 5280 in the profile of Sigstore: read exactly, with every field borrowed from one buffer; the
//! values of the extensions that decide what a certificate may be used for; the profiles of leaf, authority and root,
//! and the checks of trust.
//!
//! ```text
//! Certificate ::= SEQUENCE {
//!      tbsCertificate       TBSCertificate,           -- parts.rt reads its fields
//!      signatureAlgorithm   AlgorithmIdentifier,
//!      signatureValue       BIT STRING }
//! ```
//!
//! The layers above use four facts. Bytes are read if and only if they are a certificate, and each borrowed field is
//! that part of it. A look-up returns the one extension of an object identifier, that there is none, or that there are
//! several. A value of an extension says what its definition reads in it. A profile returns `Ok`, or the first of its
//! faults that has its cause.
//!
//! Other crates also use: sig_timestamp takes `front`, `is_listed`, `extensions`, `is_certificate` and
//! `read_purpose`, sig_policy the names of a value, sig_x509 `extensions`, `are_single`, `basic_constraints` and
//! `may_sign_code`, and sig_questions `may_sign_code`.
#![tactic(auto)]

mod certificate;
mod error;
mod extension_walk;
mod extensions;
mod general_name;
mod general_names;
pub mod laws;
mod listed;
mod lookup;
mod parts;
mod pem;
mod profile;
mod profile_error;
mod reading;
mod seconds;
mod span;
mod trust;
mod values;
mod walks;

pub use certificate::Certificate;
pub use error::X509ReadError;
pub use extension_walk::Extensions;
pub use general_name::GeneralName;
pub use general_names::{AlternativeNames, alternative_names};
pub use lookup::{ExtensionRef, Lookup};
pub use pem::der_to_pem;
pub use profile::{basic_constraints, is_ca, is_leaf, is_root_ca};
pub use profile_error::{
    CertificateValidationError, ExtensionErrorKind, NotCAErrorKind, NotLeafErrorKind, PartName,
};
pub use trust::{
    is_trusted, may_sign_code, verify_expiration, verify_has_san, verify_key_usages,
    verify_validity,
};
pub use values::{BasicConstraints, KeyUsage};
pub use walks::read_purpose;
