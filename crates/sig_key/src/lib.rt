//! Signatures and the keys that check them.
//!
//! The form of a key:
//!
//! ```text
//! SubjectPublicKeyInfo ::= SEQUENCE {          -- RFC 5280 section 4.1.2.7
//!     algorithm         AlgorithmIdentifier,   -- id-ecPublicKey with a curve (RFC 5480 section 2.1.1), rsaEncryption
//!     subjectPublicKey  BIT STRING }           -- (RFC 8017 appendix A.1) or id-Ed25519 (RFC 8410 section 3)
//! AlgorithmIdentifier ::= SEQUENCE {           -- RFC 5280 section 4.1.1.2
//!     algorithm         OBJECT IDENTIFIER,
//!     parameters        ANY DEFINED BY algorithm OPTIONAL }
//! ```
//!
//! The layer above uses three facts. [`Signature::decode_bytes`] is a function of the signature's text. What kind of
//! key an SPKI has, and so its scheme, is a function of its bytes ([`key_kind`]). A check with a
//! [`CosignVerificationKey`] is the checker's own predicate of the key's scheme, its SPKI, the message or its digest,
//! and the signature.
#![tactic(auto)]

mod kind;
mod signature;
mod verification_key;
mod verification_keys;

pub use kind::{KeyKind, key_kind};
pub use signature::Signature;
pub use verification_key::CosignVerificationKey;
pub use verification_keys::VerificationKeys;
