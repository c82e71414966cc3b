//! What the definitions mean. Its calls do nothing.
ghost use Rattle.std.specs.Prelude.{◌≡◌, ◌≢◌, ◌↔◌, [], ℕ, List, None, Some, Contains, unwrap_or};
ghost use Rattle.base64.specs.GeneralPurpose.{IsBytes};
ghost use Rattle.sig_base.specs.Base64.{base64_bytes, base64_text};
ghost use Rattle.sig_base.specs.ByText.{text_lookup, text_put, KeysAscend};
ghost use Rattle.sig_base.specs.ByteLists.{AreBytes};

use crate::bytes::Bytes;

/// A text has bytes in base64 if and only if it is their one encoding (RFC 4648 section 4, with padding and without
/// stray bits).
pub fn base64_texts()
    ensures { (text bytes : List ℕ) → IsBytes text → IsBytes bytes
        → (base64_bytes text ≡ Some bytes) ↔ (text ≡ base64_text bytes) }
{}

/// If the texts of the entries ascend in byte order, the value found at a text is that of its entry, and nothing is
/// found if and only if there is no entry of that text.
pub fn entries_found<V>()
    ensures found { (text : List ℕ) (value : V) (entries : List (List ℕ × V)) → KeysAscend entries
        → (text_lookup text entries ≡ Some value) ↔ Contains entries (text, value) }
    ensures absent { (text : List ℕ) (entries : List (List ℕ × V)) → KeysAscend entries
        → (text_lookup text entries ≡ None) ↔ ((value : V) → Contains entries (text, value) → ⊥) }
{}

/// A value that is put at a text is the one that is found there, and what is found at each other text stays. Texts
/// that ascend in byte order still do.
pub fn entries_put<V>()
    ensures found { (text : List ℕ) (value : V) (entries : List (List ℕ × V))
        → text_lookup text (text_put text value entries) ≡ Some value }
    ensures others { (text other : List ℕ) (value : V) (entries : List (List ℕ × V)) → other ≢ text
        → text_lookup other (text_put text value entries) ≡ text_lookup other entries }
    ensures ascend { (text : List ℕ) (value : V) (entries : List (List ℕ × V)) → KeysAscend entries
        → KeysAscend (text_put text value entries) }
{}

/// What contracts see of bytes are numbers below 256.
#[tactic(auto, using(crate::proofs::ByteLists::each_byte))]
pub fn are_bytes(bytes: &[u8])
    ensures { AreBytes bytes.now }
{
    let _ = bytes;
}

/// The same of bytes that are owned.
pub fn are_owned_bytes(bytes: &Bytes)
    ensures { AreBytes bytes.now }
{
    are_bytes(bytes.as_slice());
}

/// The same of bytes that may be absent.
pub fn are_optional_bytes(bytes: &Option<Bytes>)
    ensures { AreBytes (unwrap_or bytes.now []) }
{
    match bytes {
        // What is there is bytes.
        Some(bytes) => are_owned_bytes(bytes),
        None => (),
    }
}
