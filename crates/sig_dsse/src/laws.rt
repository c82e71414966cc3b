//! What the definitions mean.
ghost use Rattle.std.specs.Prelude.{◌≡◌, ◌↔◌, IsTrue};
ghost use Rattle.sig_dsse.specs.Digest.{digest_algorithm, digest_bytes};
ghost use Rattle.sig_dsse.specs.Faults.{DigitsAreOfTheHash, FaultsHaveTheirCause, PayloadFaultsHaveTheirCause};
ghost use Rattle.sig_dsse.specs.Faults.{CosignFaultsHaveTheirCause};
ghost use Rattle.sig_dsse.specs.Pae.{PaeIsInjective};
ghost use Rattle.sig_dsse.specs.NamedDigest.{TakesTheNamed, FindsNone};

use crate::artifact_digest::ArtifactDigest;
use crate::envelope::{DsseEnvelope, DsseSignature};

/// No two pairs of payload type and payload have the same pre-authentication encoding. It has no code.
pub fn encoding_is_injective()
    ensures { PaeIsInjective }
{}

/// Two digests are equal if and only if their algorithms and their bytes are.
pub fn equal_digests(one: &ArtifactDigest, other: &ArtifactDigest) -> bool
    ensures { IsTrue result
        ↔ ((digest_algorithm one.now ≡ digest_algorithm other.now) × (digest_bytes one.now ≡ digest_bytes other.now)) }
{
    one == other
}

/// Two envelopes are equal if and only if all their parts are.
pub fn equal_envelopes(one: &DsseEnvelope, other: &DsseEnvelope) -> bool
    ensures { IsTrue result ↔ (one.now ≡ other.now) }
{
    one == other
}

/// Two signatures of envelopes are equal if and only if both their parts are.
pub fn equal_signatures(one: &DsseSignature, other: &DsseSignature) -> bool
    ensures { IsTrue result ↔ (one.now ≡ other.now) }
{
    one == other
}

/// Digests are taken of a statement if and only if its subjects and their digests are not too many, and these are the
/// digests of the entries named `sha256` and `sha512`, one each and in order, and there is at least one. That there is
/// none is reported if and only if no entry has such a name. It has no code.
pub fn taken_digests()
    ensures taken { TakesTheNamed }
    ensures none { FindsNone }
{}

/// Each fault comes if and only if it has its cause in the words of the subjects: the rules before it hold, and this
/// one does not. So do the faults of a statement's digests, of a payload, and of a statement as `cosign` requires it.
/// The digits that a digest must have are those of its hash. It has no code.
pub fn causes_of_faults()
    ensures digits { DigitsAreOfTheHash }
    ensures subjects { FaultsHaveTheirCause }
    ensures payloads { PayloadFaultsHaveTheirCause }
    ensures cosign { CosignFaultsHaveTheirCause }
{}
