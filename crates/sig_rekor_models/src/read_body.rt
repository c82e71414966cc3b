//! Readers of bodies: texts in base64 of JSON documents.
ghost use Rattle.std.specs.Prelude.{Option};
ghost use Rattle.sig_json.specs.Data.{Data};
ghost use Rattle.sig_json.specs.SeenAs.{value_by};
ghost use Rattle.sig_rekor_models.specs.Body.{body_of, coded_body_of, entry_kind_of, seen_body};

use crate::body::{Body, BodyContent};
use crate::entry_kind::EntryKind;
use sig_json::{
    AnyReader, BytesReader, ElementReader, Json, JsonError, MemberError, read_record, required,
    required_text,
};
use std::alloc::Global;

/// Reads names of kinds.
enum EntryKindReader {}

impl ElementReader for EntryKindReader {
    type Item = EntryKind;

    ghost meaning = { entry_kind_of };

    #[tactic(auto, unfolding(sig_json::specs::Kinds::text_of))]
    fn read(_alloc: Global, json: Json<'_, '_>) -> Result<EntryKind, MemberError> {
        let Some(name) = json.text() else {
            return Err(MemberError::Member);
        };
        EntryKind::named(name).ok_or(MemberError::Member)
    }
}

enum BodyReader {}

impl ElementReader for BodyReader {
    type Item = Body;

    ghost seen_as = { value_by seen_body };

    ghost meaning = { body_of };

    #[tactic(auto, unfolding(crate::specs::Body::body_of))]
    fn read(alloc: Global, json: Json<'_, '_>) -> Result<Body, MemberError> {
        let kind = required::<EntryKindReader>(alloc, json, "kind")?;
        let content = BodyContent {
            api_version: required_text(alloc, json, "apiVersion")?,
            spec: required::<AnyReader>(alloc, json, "spec")?,
        };
        Ok(Body::of(kind, content))
    }
}

/// Reads bodies that are texts in base64 of JSON documents.
pub(crate) enum CodedBodyReader {}

impl ElementReader for CodedBodyReader {
    type Item = Body;

    ghost seen_as = { value_by seen_body };

    ghost meaning = { coded_body_of };

    #[tactic(auto, unfolding(crate::specs::Body::coded_body_of))]
    fn read(alloc: Global, json: Json<'_, '_>) -> Result<Body, MemberError> {
        let text = BytesReader::read(alloc, json)?;
        match read_record::<BodyReader>(alloc, text.as_slice()) {
            Ok(body) => Ok(body),
            Err(JsonError::NotJson | JsonError::Float | JsonError::Member) => Err(
                MemberError::Member,
            ),
            Err(JsonError::OutOfMemory) => Err(MemberError::OutOfMemory),
        }
    }
}
