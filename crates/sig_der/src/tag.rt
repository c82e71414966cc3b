//! Tags: the identifier octet of each type (X.690 section 8.1.2, X.680 section 8.4 table 1).

/// BOOLEAN, universal 1.
pub const BOOLEAN: u8 = 0x01;
/// INTEGER, universal 2.
pub const INTEGER: u8 = 0x02;
/// BIT STRING, universal 3, primitive.
pub const BIT_STRING: u8 = 0x03;
/// OCTET STRING, universal 4, primitive.
pub const OCTET_STRING: u8 = 0x04;
/// NULL, universal 5.
pub const NULL: u8 = 0x05;
/// OBJECT IDENTIFIER, universal 6.
pub const OBJECT_IDENTIFIER: u8 = 0x06;
/// UTF8String, universal 12, primitive.
pub const UTF8_STRING: u8 = 0x0c;
/// UTCTime, universal 23, primitive.
pub const UTC_TIME: u8 = 0x17;
/// GeneralizedTime, universal 24, primitive.
pub const GENERALIZED_TIME: u8 = 0x18;
/// SEQUENCE and SEQUENCE OF, universal 16, constructed.
pub const SEQUENCE: u8 = 0x30;
/// SET and SET OF, universal 17, constructed.
pub const SET: u8 = 0x31;

/// The version of a TBSCertificate, `[0] EXPLICIT` (RFC 5280 section 4.1).
pub const VERSION: u8 = 0xa0;
/// The issuerUniqueID of a TBSCertificate, `[1] IMPLICIT BIT STRING` (RFC 5280 section 4.1).
pub const ISSUER_UNIQUE_ID: u8 = 0x81;
/// The subjectUniqueID of a TBSCertificate, `[2] IMPLICIT BIT STRING` (RFC 5280 section 4.1).
pub const SUBJECT_UNIQUE_ID: u8 = 0x82;
/// The extensions of a TBSCertificate, `[3] EXPLICIT` (RFC 5280 section 4.1).
pub const EXTENSIONS: u8 = 0xa3;

/// The otherName of a GeneralName, `[0] IMPLICIT SEQUENCE` (RFC 5280 section 4.2.1.6).
pub const OTHER_NAME: u8 = 0xa0;
/// The value of an otherName, `[0] EXPLICIT` (RFC 5280 section 4.2.1.6).
pub const OTHER_NAME_VALUE: u8 = 0xa0;
/// The rfc822Name of a GeneralName, `[1] IMPLICIT IA5String` (RFC 5280 section 4.2.1.6).
pub const RFC822_NAME: u8 = 0x81;
/// The uniformResourceIdentifier of a GeneralName, `[6] IMPLICIT IA5String` (RFC 5280 section 4.2.1.6).
pub const UNIFORM_RESOURCE_IDENTIFIER: u8 = 0x86;
