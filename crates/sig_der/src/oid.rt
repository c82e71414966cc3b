//! Object identifiers: the contents octets of each (X.690 section 8.19). They are compared byte for byte.

/// Key usage, 2.5.29.15 (RFC 5280 section 4.2.1.3).
pub const KEY_USAGE: &[u8] = &[0x55, 0x1d, 0x0f];
/// Subject alternative name, 2.5.29.17 (RFC 5280 section 4.2.1.6).
pub const SUBJECT_ALTERNATIVE_NAME: &[u8] = &[0x55, 0x1d, 0x11];
/// Basic constraints, 2.5.29.19 (RFC 5280 section 4.2.1.9).
pub const BASIC_CONSTRAINTS: &[u8] = &[0x55, 0x1d, 0x13];
/// Name constraints, 2.5.29.30 (RFC 5280 section 4.2.1.10).
pub const NAME_CONSTRAINTS: &[u8] = &[0x55, 0x1d, 0x1e];
/// Extended key usage, 2.5.29.37 (RFC 5280 section 4.2.1.12).
pub const EXTENDED_KEY_USAGE: &[u8] = &[0x55, 0x1d, 0x25];

/// The purpose of code signing, 1.3.6.1.5.5.7.3.3 (RFC 5280 section 4.2.1.12).
pub const CODE_SIGNING: &[u8] = &[0x2b, 0x06, 0x01, 0x05, 0x05, 0x07, 0x03, 0x03];
/// The purpose of precertificate signing, 1.3.6.1.4.1.11129.2.4.4 (RFC 6962 section 3.1).
pub const PRECERTIFICATE_SIGNING: &[u8] = &[
    0x2b, 0x06, 0x01, 0x04, 0x01, 0xd6, 0x79, 0x02, 0x04, 0x04,
];
/// The list of signed certificate timestamps, 1.3.6.1.4.1.11129.2.4.2 (RFC 6962 section 3.3).
pub const SCT_LIST: &[u8] = &[0x2b, 0x06, 0x01, 0x04, 0x01, 0xd6, 0x79, 0x02, 0x04, 0x02];

/// Fulcio's issuer of the token, 1.3.6.1.4.1.57264.1.1.
pub const FULCIO_ISSUER: &[u8] = &[0x2b, 0x06, 0x01, 0x04, 0x01, 0x83, 0xbf, 0x30, 0x01, 0x01];
/// Fulcio's GitHub workflow trigger, 1.3.6.1.4.1.57264.1.2.
pub const FULCIO_TRIGGER: &[u8] = &[0x2b, 0x06, 0x01, 0x04, 0x01, 0x83, 0xbf, 0x30, 0x01, 0x02];
/// Fulcio's GitHub workflow SHA, 1.3.6.1.4.1.57264.1.3.
pub const FULCIO_SHA: &[u8] = &[0x2b, 0x06, 0x01, 0x04, 0x01, 0x83, 0xbf, 0x30, 0x01, 0x03];
/// Fulcio's GitHub workflow name, 1.3.6.1.4.1.57264.1.4.
pub const FULCIO_NAME: &[u8] = &[0x2b, 0x06, 0x01, 0x04, 0x01, 0x83, 0xbf, 0x30, 0x01, 0x04];
/// Fulcio's GitHub workflow repository, 1.3.6.1.4.1.57264.1.5.
pub const FULCIO_REPOSITORY: &[u8] = &[0x2b, 0x06, 0x01, 0x04, 0x01, 0x83, 0xbf, 0x30, 0x01, 0x05];
/// Fulcio's GitHub workflow ref, 1.3.6.1.4.1.57264.1.6.
pub const FULCIO_REF: &[u8] = &[0x2b, 0x06, 0x01, 0x04, 0x01, 0x83, 0xbf, 0x30, 0x01, 0x06];
/// Fulcio's other name in a subject alternative name, 1.3.6.1.4.1.57264.1.7.
pub const FULCIO_OTHER_NAME: &[u8] = &[0x2b, 0x06, 0x01, 0x04, 0x01, 0x83, 0xbf, 0x30, 0x01, 0x07];

/// A key on an elliptic curve, 1.2.840.10045.2.1 (RFC 5480 section 2.1.1).
pub const EC_PUBLIC_KEY: &[u8] = &[0x2a, 0x86, 0x48, 0xce, 0x3d, 0x02, 0x01];
/// The curve P-256, 1.2.840.10045.3.1.7 (RFC 5480 section 2.1.1.1).
pub const P256: &[u8] = &[0x2a, 0x86, 0x48, 0xce, 0x3d, 0x03, 0x01, 0x07];
/// The curve P-384, 1.3.132.0.34 (RFC 5480 section 2.1.1.1).
pub const P384: &[u8] = &[0x2b, 0x81, 0x04, 0x00, 0x22];
/// The curve P-521, 1.3.132.0.35 (RFC 5480 section 2.1.1.1).
pub const P521: &[u8] = &[0x2b, 0x81, 0x04, 0x00, 0x23];
/// An RSA key, 1.2.840.113549.1.1.1 (RFC 3279 section 2.3.1).
pub const RSA: &[u8] = &[0x2a, 0x86, 0x48, 0x86, 0xf7, 0x0d, 0x01, 0x01, 0x01];
/// An Ed25519 key, 1.3.101.112 (RFC 8410 section 3).
pub const ED25519: &[u8] = &[0x2b, 0x65, 0x70];
