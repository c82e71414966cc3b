//! What the definitions mean. It has no code.
ghost use Rattle.std.specs.Prelude.{◌≡◌, ◌↔◌, ℕ, List, Some};
ghost use Rattle.base64.specs.GeneralPurpose.{IsBytes};
ghost use Rattle.sig_token.specs.Compact.{HasPayload, payload_of};
ghost use Rattle.sig_token.specs.Unpadded.{unpadded_bytes, unpadded_text};

/// A text has bytes in unpadded base64 if and only if it is their one encoding (RFC 4648 section 4, without padding and
/// without stray bits).
pub fn unpadded_texts()
    ensures { (text bytes : List ℕ) → IsBytes text → IsBytes bytes
        → (unpadded_bytes text ≡ Some bytes) ↔ (text ≡ unpadded_text bytes) }
{}

/// A text has this payload if and only if it is a header, a point, the payload, a point and a signature, and none of
/// the three parts has a point (RFC 7515 section 7.1).
pub fn payloads()
    ensures { (text payload : List ℕ) → (payload_of text ≡ Some payload) ↔ HasPayload text payload }
{}
