//! Simple signing payloads read from their text.
ghost use Rattle.std.specs.Prelude.{Some, IsSome, option_map};
ghost use Rattle.std.specs.Option.{ok_or};
ghost use Rattle.sig_base.specs.Answers.{Answers};
ghost use Rattle.sig_base.specs.declared.error.SigstoreError.TheVariants.{OutOfMemory as Memory};
ghost use Rattle.sig_base.specs.declared.error.SigstoreError.TheVariants.{UnexpectedError};
ghost use Rattle.sig_base.specs.declared.unexpected.UnexpectedKind.TheVariants.{LayerUnreadable};
ghost use Rattle.sig_json.specs.Find.{as_object};
ghost use Rattle.sig_json.specs.OrMember.{or_member};
ghost use Rattle.sig_json.specs.Record.{record_in};
ghost use Rattle.sig_json.specs.Tree.{borrowed_tree};
ghost use Rattle.sig_payload.specs.Signing.{critical_in, identity_in, image_in, optional_in};
ghost use Rattle.sig_payload.specs.Signing.{optional_in_payload, seen_optional, seen_signing, signing_in, signing_of};
ghost use Rattle.sig_payload.specs.Signing.{unless_null};

use crate::simple_signing::{Critical, Identity, Image, Optional, SimpleSigning};
use sig_base::{SigstoreError, UnexpectedKind};
use sig_json::{
    BorrowedDocument, ElementReader, I64NumberReader, Json, JsonError, MemberError, Scratch,
    TextReader, optional, required, required_text,
};
use std::alloc::Global;

/// Reads the name under which an image was signed.
enum IdentityReader {}

impl ElementReader for IdentityReader {
    type Item = Identity;

    ghost meaning = { identity_in };

    #[tactic(auto, unfolding(crate::specs::Signing::identity_in))]
    fn read(alloc: Global, json: Json<'_, '_>) -> Result<Identity, MemberError> {
        Ok(Identity {
            docker_reference: required_text(alloc, json, "docker-reference")?,
        })
    }
}

/// Reads the image that was signed.
enum ImageReader {}

impl ElementReader for ImageReader {
    type Item = Image;

    ghost meaning = { image_in };

    #[tactic(auto, unfolding(crate::specs::Signing::image_in))]
    fn read(alloc: Global, json: Json<'_, '_>) -> Result<Image, MemberError> {
        Ok(Image {
            docker_manifest_digest: required_text(alloc, json, "docker-manifest-digest")?,
        })
    }
}

/// Reads what a verifier has to look at.
enum CriticalReader {}

impl ElementReader for CriticalReader {
    type Item = Critical;

    ghost meaning = { critical_in };

    #[tactic(auto, unfolding(crate::specs::Signing::critical_in))]
    fn read(alloc: Global, json: Json<'_, '_>) -> Result<Critical, MemberError> {
        Ok(Critical {
            identity: required::<IdentityReader>(alloc, json, "identity")?,
            image: required::<ImageReader>(alloc, json, "image")?,
            type_name: required_text(alloc, json, "type")?,
        })
    }
}

/// Returns the payload that the bytes of a layer are. Fails with `UnexpectedError` of `LayerUnreadable` if and only if
/// they are not a JSON document without floats, or a member is not as it has to be: `critical` an object of the objects
/// `identity`, with the text `docker-reference`, and `image`, with the text `docker-manifest-digest`, and of the text
/// `type`; `optional` an object or absent, in it `creator` a text and `timestamp` a number from -2^63 to 2^63 - 1, or
/// absent. Null means absent; other members are annotations in `optional`, and are ignored elsewhere.
#[tactic(auto, unfolding(crate::specs::Signing::signing_of))]
pub fn read_signing(alloc: Global, bytes: &[u8]) -> sig_base::Result<SimpleSigning>
    ensures { Answers Memory seen_signing result (ok_or (signing_of bytes.now) (UnexpectedError LayerUnreadable)) }
{
    match read_payload(alloc, bytes) {
        Ok(signing) => Ok(signing),
        Err(JsonError::NotJson | JsonError::Float | JsonError::Member) => Err(
            SigstoreError::UnexpectedError(UnexpectedKind::LayerUnreadable),
        ),
        Err(JsonError::OutOfMemory) => Err(SigstoreError::OutOfMemory),
    }
}

/// The payload that the bytes are.
#[tactic(auto, unfolding(sig_json::specs::Record::record_in))]
fn read_payload(alloc: Global, bytes: &[u8]) -> Result<SimpleSigning, JsonError>
    ensures { Answers JsonError.OutOfMemory seen_signing result (record_in signing_in bytes.now) }
{
    let mut scratch = Scratch::new(alloc);
    let payload = BorrowedDocument::read(alloc, bytes, &mut scratch)?;
    Ok(read_document(alloc, payload)?)
}

/// The payload that a document is.
#[tactic(auto, using(crate::proofs::Extras::read_of_object), unfolding(crate::specs::Signing::signing_in))]
fn read_document(alloc: Global, payload: BorrowedDocument<'_>) -> Result<SimpleSigning, MemberError>
    ensures { Answers MemberError.OutOfMemory seen_signing result
        (or_member (signing_in (borrowed_tree payload.entry))) }
{
    let critical = required::<CriticalReader>(alloc, payload.view(), "critical")?;
    let optional = take_optional(alloc, payload)?;
    Ok(SimpleSigning { critical, optional })
}

/// The same for a payload that is an object. It is moved out of the payload.
#[tactic(auto, using(crate::proofs::Extras::moved))]
fn take_optional(
    alloc: Global,
    payload: BorrowedDocument<'_>,
) -> Result<Option<Optional>, MemberError>
    requires { IsSome (as_object (borrowed_tree payload)) }
    ensures { Answers MemberError.OutOfMemory (option_map seen_optional) result
        (or_member (optional_in_payload (borrowed_tree payload.entry))) }
{
    match payload.into_member("optional") {
        Some(beside) => read_optional(alloc, beside),
        None => Ok(None),
    }
}

/// What a signer says beside the image. Null is the same as absent.
#[tactic(auto, unfolding(crate::specs::Signing::optional_in))]
fn read_optional(
    alloc: Global,
    beside: BorrowedDocument<'_>,
) -> Result<Option<Optional>, MemberError>
    ensures { Answers MemberError.OutOfMemory (option_map seen_optional) result
        (or_member (unless_null optional_in (borrowed_tree beside.entry))) }
{
    if beside.view().is_null() {
        return Ok(None);
    }
    let creator = optional::<TextReader>(alloc, beside.view(), "creator")?;
    let timestamp = optional::<I64NumberReader>(alloc, beside.view(), "timestamp")?;
    let annotations = beside.without(&["creator", "timestamp"]);
    let extra = annotations.into_owned(alloc)?;
    Ok(Some(Optional {
        creator,
        timestamp,
        extra,
    }))
}
