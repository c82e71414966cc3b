//! Signed certificate timestamps (SCTs) of Certificate Transparency logs (RFC 6962): the keys of the logs, the one SCT
//! that a certificate carries, and the TBSCertificate of the precertificate that it was issued for.
//!
//! ```text
//! struct { Version sct_version; LogID id; uint64 timestamp; CtExtensions extensions;    -- sct_list.rt
//!          digitally-signed struct { .. }; } SignedCertificateTimestamp;                -- signed.rt: over these bytes
//! SignedCertificateTimestampList ::= OCTET STRING    -- the value of the certificate's extension: a list of them
//! ```
//!
//! The layers above use three facts. A keyring has the last key of an id among those that it was made of. The SCT of a
//! certificate is the only one in its only list, or an error says why there is not exactly one. `verify_sct` returns
//! `Ok` if and only if the key of the log's id accepts the signature over the bytes that an SCT signs, which have each
//! other element of the certificate byte for byte.
#![tactic(auto)]

mod embedded;
mod issuer;
mod key;
mod keyring;
mod keyring_error;
pub mod laws;
mod opaque;
mod precert;
mod sct_error;
mod sct_list;
mod signed;

pub use embedded::CertificateEmbeddedSCT;
pub use key::Key;
pub use keyring::Keyring;
pub use keyring_error::KeyringError;
pub use precert::precert_tbs_der;
pub use sct_error::{CertificateErrorKind, SCTError};
pub use signed::{
    CT_EXTENSIONS_MAX, DigitallySigned, TBS_CERTIFICATE_MAX, signed_bytes, verify_sct,
};
