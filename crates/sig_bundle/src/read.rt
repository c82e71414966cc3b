//! A bundle read from its text.
ghost use Rattle.std.specs.Prelude.{Option};
ghost use Rattle.sig_json.specs.Data.{Data};
ghost use Rattle.sig_base.specs.Answers.{Answers};
ghost use Rattle.sig_bundle.specs.BundleRecord.{bundle_in, bundle_of};
ghost use Rattle.sig_json.specs.Tree.{tree};

use crate::bundle::Bundle;
use crate::read_content::read_content;
use crate::read_material::MaterialReader;
use sig_json::{
    ElementReader, Json, JsonError, MemberError, optional, read_record_with, read_text,
};
use std::alloc::Global;

/// The names of the members of a bundle that are read. No tree is made of a member of another name.
const MEMBERS: [&str; 4] = [
    "mediaType",
    "verificationMaterial",
    "messageSignature",
    "dsseEnvelope",
];

enum BundleReader {}

impl ElementReader for BundleReader {
    type Item = Bundle;

    ghost meaning = { bundle_of };

    #[tactic(auto, unfolding(crate::specs::BundleRecord::bundle_of))]
    fn read(alloc: Global, json: Json<'_, '_>) -> Result<Bundle, MemberError> {
        let media_type = read_text(alloc, json, "mediaType")?;
        let verification_material = optional::<MaterialReader>(
            alloc,
            json,
            "verificationMaterial",
        )?;
        match read_content(alloc, json) {
            Ok(content) => Ok(Bundle {
                media_type,
                verification_material,
                content,
            }),
            Err(error) => {
                drop(verification_material);
                Err(error)
            }
        }
    }
}

/// The bundle that a text is (Sigstore bundle format, in the JSON form of its protocol buffers). Absent and null
/// members mean zero, empty or absent. Members that are not read here, of whatever kind, are ignored and not kept:
/// those that the format does not have, and `timestampVerificationData`, a message digest's `algorithm` and a public
/// key's `hint`.
///
/// Fails with `NotJson` where the text has no reading, then with `Float` where its tree holds a number with a point or
/// an exponent, `-0`, or an integer outside -2^63 to 2^64 - 1, and then with `Member` where a member is not of its
/// kind, if two members of a oneof are there, or if the text is not an object.
pub fn read_bundle(alloc: Global, text: &[u8]) -> Result<Bundle, JsonError>
    ensures { Answers JsonError.OutOfMemory (λ b. b) result (bundle_in text.now) }
{
    read_record_with::<BundleReader>(alloc, text, &MEMBERS)
}
