//! What the definitions mean, and what equality is.
ghost use Rattle.std.specs.Prelude.{◌≡◌, ◌↔◌, IsTrue, Ok, Err};
ghost use Rattle.sig_base.specs.declared.error.SigstoreError.TheVariants.{UnexpectedError};
ghost use Rattle.sig_base.specs.declared.unexpected.UnexpectedKind.TheVariants.{PromiseInteger};
ghost use Rattle.sig_payload.specs.Bundles.{payload_text};
ghost use Rattle.sig_payload.specs.Promised.{IsExactPayload, promised_text};
ghost use Rattle.sig_payload.specs.declared.bundle.Payload.{Payload as payload_type};

use crate::bundle::{Bundle, Payload, SignedArtifactBundle};

/// What a log signs is the canonical JSON of the payload's four members, letter by letter, if both integers are within
/// plus or minus 2^53 - 1, and there is none if one is not. It has no code.
pub fn payload_texts()
    ensures text { (p : payload_type) → IsExactPayload p → payload_text p ≡ Ok (promised_text p) }
    ensures too_large { (p : payload_type) → ¬ IsExactPayload p
        → payload_text p ≡ Err (UnexpectedError PromiseInteger) }
{}

/// Two signatures over artifacts are equal if and only if all their parts are.
pub fn equal_artifacts(one: &SignedArtifactBundle, other: &SignedArtifactBundle) -> bool
    ensures { IsTrue result ↔ (one.now ≡ other.now) }
{
    one == other
}

/// What Rekor promised is equal if and only if both its parts are.
pub fn equal_promises(one: &Bundle, other: &Bundle) -> bool
    ensures { IsTrue result ↔ (one.now ≡ other.now) }
{
    one == other
}

/// Two payloads are equal if and only if all their parts are.
pub fn equal_payloads(one: &Payload, other: &Payload) -> bool
    ensures { IsTrue result ↔ (one.now ≡ other.now) }
{
    one == other
}
