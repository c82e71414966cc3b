//! The digests of a statement's subjects, read from its tree. What else a statement has is tested as its reader tests
//! it, and not copied.
ghost use Rattle.sig_dsse.specs.DigestsAlone.{is_text, digest_map_in, digest_maps_in};

use sig_base::{OwnedList, TextMap};
use sig_json::{
    ElementReader, Json, MemberError, TextMapReader, optional, required, required_list,
};
use std::alloc::Global;

/// Tests that values are texts.
enum TextTest {}

impl ElementReader for TextTest {
    type Item = ();

    ghost meaning = { is_text };

    #[tactic(auto, unfolding(sig_json::specs::Kinds::text_of))]
    fn read(_alloc: Global, json: Json<'_, '_>) -> Result<(), MemberError> {
        match json.text() {
            Some(_) => Ok(()),
            None => Err(MemberError::Member),
        }
    }
}

/// Reads the digests of subjects.
enum DigestMapReader {}

impl ElementReader for DigestMapReader {
    type Item = TextMap;

    ghost meaning = { digest_map_in };

    // `annotations` may be anything, so no object is rejected for them.
    #[tactic(auto, using(crate::proofs::DigestsAlone::of_subject))]
    fn read(alloc: Global, json: Json<'_, '_>) -> Result<TextMap, MemberError> {
        optional::<TextTest>(alloc, json, "name")?;
        required::<TextMapReader>(alloc, json, "digest")
    }
}

/// Reads the digests of statements' subjects.
pub(crate) enum DigestMapsReader {}

impl ElementReader for DigestMapsReader {
    type Item = OwnedList<TextMap>;

    ghost meaning = { digest_maps_in };

    // `predicate` may be anything, so no object is rejected for it.
    #[tactic(auto, using(crate::proofs::DigestsAlone::of_statement))]
    fn read(alloc: Global, json: Json<'_, '_>) -> Result<OwnedList<TextMap>, MemberError> {
        required::<TextTest>(alloc, json, "_type")?;
        required::<TextTest>(alloc, json, "predicateType")?;
        required_list::<DigestMapReader>(alloc, json, "subject")
    }
}
