//! `AnyReader`: values of any form.
use crate::document::Document;
use crate::element::ElementReader;
use crate::error::MemberError;
use crate::view::Json;
use std::alloc::Global;

/// Reads values of any form, as documents of their own.
pub enum AnyReader {}

impl ElementReader for AnyReader {
    ghost use Rattle.std.specs.Prelude.{Some};
    ghost use Rattle.sig_json.specs.SeenAs.{value_by};
    ghost use Rattle.sig_json.specs.Tree.{document_tree};

    type Item = Document;

    ghost seen_as = { value_by document_tree };

    ghost meaning = { Some };

    fn read(alloc: Global, json: Json<'_, '_>) -> Result<Document, MemberError> {
        Ok(json.copy(alloc)?)
    }
}
