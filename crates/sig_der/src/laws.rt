//! What the constants and the lengths of this crate are, in the words of the standards. No function here does
//! anything: each states laws, and its proof is that they hold.

ghost use Rattle.std.specs.Prelude.{◌≡◌, ◌↔◌, ◌^◌, ◌<◌, ℕ, ℤ, List, Some};
ghost use Rattle.sig_der.specs.Element.{spelled_length};
ghost use Rattle.sig_der.specs.Length.{IsLength};
ghost use Rattle.sig_der.specs.ObjectIdentifiers as dotted;
ghost use Rattle.sig_der.specs.Stamp.{IsInstantOf};
ghost use Rattle.sig_der.specs.StampSecond.{second_in};
ghost use Rattle.sig_der.specs.Tag as named;
ghost use Rattle.sig_der.specs.declared.oid.TheConstants as oid;
ghost use Rattle.sig_der.specs.declared.tag.TheConstants as tag;

/// The object identifiers are those of their dotted numbers (X.690 section 8.19).
pub fn object_identifiers()
    ensures key_usage { oid.KEY_USAGE.now ≡ dotted.key_usage }
    ensures subject_alternative_name { oid.SUBJECT_ALTERNATIVE_NAME.now ≡ dotted.subject_alternative_name }
    ensures basic_constraints { oid.BASIC_CONSTRAINTS.now ≡ dotted.basic_constraints }
    ensures name_constraints { oid.NAME_CONSTRAINTS.now ≡ dotted.name_constraints }
    ensures extended_key_usage { oid.EXTENDED_KEY_USAGE.now ≡ dotted.extended_key_usage }
    ensures code_signing { oid.CODE_SIGNING.now ≡ dotted.code_signing_purpose }
    ensures precertificate_signing { oid.PRECERTIFICATE_SIGNING.now ≡ dotted.precertificate_signing }
    ensures sct_list { oid.SCT_LIST.now ≡ dotted.sct_list }
    ensures fulcio_issuer { oid.FULCIO_ISSUER.now ≡ dotted.fulcio 1 }
    ensures fulcio_trigger { oid.FULCIO_TRIGGER.now ≡ dotted.fulcio 2 }
    ensures fulcio_sha { oid.FULCIO_SHA.now ≡ dotted.fulcio 3 }
    ensures fulcio_name { oid.FULCIO_NAME.now ≡ dotted.fulcio 4 }
    ensures fulcio_repository { oid.FULCIO_REPOSITORY.now ≡ dotted.fulcio 5 }
    ensures fulcio_ref { oid.FULCIO_REF.now ≡ dotted.fulcio 6 }
    ensures fulcio_other_name { oid.FULCIO_OTHER_NAME.now ≡ dotted.fulcio 7 }
    ensures ec_public_key { oid.EC_PUBLIC_KEY.now ≡ dotted.ec_public_key }
    ensures p256 { oid.P256.now ≡ dotted.p256 }
    ensures p384 { oid.P384.now ≡ dotted.p384 }
    ensures p521 { oid.P521.now ≡ dotted.p521 }
    ensures rsa { oid.RSA.now ≡ dotted.rsa }
    ensures ed25519 { oid.ED25519.now ≡ dotted.ed25519 }
{}

/// The tags are the identifier octets of their class, form and number (X.690 section 8.1.2).
pub fn tags()
    ensures boolean { tag.BOOLEAN ≡ named.BOOLEAN }
    ensures integer { tag.INTEGER ≡ named.INTEGER }
    ensures bit_string { tag.BIT_STRING ≡ named.BIT_STRING }
    ensures octet_string { tag.OCTET_STRING ≡ named.OCTET_STRING }
    ensures null { tag.NULL ≡ named.NULL }
    ensures object_identifier { tag.OBJECT_IDENTIFIER ≡ named.OBJECT_IDENTIFIER }
    ensures utf8_string { tag.UTF8_STRING ≡ named.UTF8_STRING }
    ensures utc_time { tag.UTC_TIME ≡ named.UTC_TIME }
    ensures generalized_time { tag.GENERALIZED_TIME ≡ named.GENERALIZED_TIME }
    ensures sequence { tag.SEQUENCE ≡ named.SEQUENCE }
    ensures set { tag.SET ≡ named.SET }
    ensures version { tag.VERSION ≡ named.VERSION }
    ensures issuer_unique_id { tag.ISSUER_UNIQUE_ID ≡ named.ISSUER_UNIQUE_ID }
    ensures subject_unique_id { tag.SUBJECT_UNIQUE_ID ≡ named.SUBJECT_UNIQUE_ID }
    ensures extensions { tag.EXTENSIONS ≡ named.EXTENSIONS }
    ensures other_name { tag.OTHER_NAME ≡ named.OTHER_NAME }
    ensures other_name_value { tag.OTHER_NAME_VALUE ≡ named.OTHER_NAME_VALUE }
    ensures rfc822_name { tag.RFC822_NAME ≡ named.RFC822_NAME }
    ensures uniform_resource_identifier { tag.UNIFORM_RESOURCE_IDENTIFIER ≡ named.UNIFORM_RESOURCE_IDENTIFIER }
{}

/// A length below 2^32 is spelled in the definite form with the fewest octets (X.690 sections 8.1.3 and 10.1), and in
/// no other.
pub fn lengths()
    ensures is { (n : ℕ) → n < 2 ^ 32 → IsLength n (spelled_length n) }
    ensures only { (n : ℕ) (text : List ℕ) → n < 2 ^ 32 → IsLength n text → text ≡ spelled_length n }
{}

/// A time text is read as a second if and only if its instant lies in that second (RFC 3339 section 5.6).
pub fn time_texts()
    ensures { (text : List ℕ) (second : ℤ) → (second_in text ≡ Some second) ↔ IsInstantOf text second }
{}
