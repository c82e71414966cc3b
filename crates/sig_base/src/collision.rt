//! `Collision`: a witness that SHA-256 is broken.

use crate::bytes::Bytes;

/// Two byte strings. A call that returns them says that they differ and have the same SHA-256 (FIPS 180-4 section
/// 6.2), which nobody has found for any two.
#[derive(Debug, PartialEq, Eq, Drop)]
pub struct Collision {
    /// One byte string.
    pub left: Bytes,
    /// Another, which has the same SHA-256.
    pub right: Bytes,
}
