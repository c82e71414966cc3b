//! The envelope that was verified.
//!
//! ```text
//! {"payloadSha256":"..","payloadType":"application/vnd.in-toto+json","predicateType":"https://slsa.dev/provenance/v1",
//!  "subjectCount":"1","subjects":[{"digests":[{"algorithm":"sha256","value":"ba78.."}],"name":"image"}]}
//! ```
ghost use Rattle.std.specs.Prelude.{◌≡◌, IfOk};
ghost use Rattle.sig_json.specs.Writing.{members, put_some};
ghost use Rattle.sig_json.specs.Tree.{document_tree};
ghost use Rattle.sig_verified.specs.Statement.{envelope_in, envelope_tree};

use crate::statement::with_statement;
use sig_base::OutOfMemory;
use sig_bundle::{Content, DsseEnvelope};
use sig_json::{Document, Object};
use sig_shown::{with_sha256, with_shown};
use std::alloc::Global;

/// The object with the envelope as a member, if the content is one. Fails only if out of memory.
pub(crate) fn with_envelope(
    object: Object,
    alloc: Global,
    name: &str,
    content: &Option<Content>,
) -> Result<Object, OutOfMemory>
    ensures { IfOk result (λ made. members made ≡ put_some name.now (envelope_in content.now) (members object)) }
{
    let Some(Content::DsseEnvelope(envelope)) = content else {
        return Ok(object);
    };
    let value = envelope_document(alloc, envelope)?;
    object.with(alloc, name, value)
}

#[tactic(auto, unfolding(crate::specs::Statement::envelope_tree))]
fn envelope_document(alloc: Global, envelope: &DsseEnvelope) -> Result<Document, OutOfMemory>
    ensures { IfOk result (λ document. document_tree document ≡ envelope_tree envelope.now) }
{
    let kind = envelope.payload_type.as_str();
    let object = with_shown(
        Object::new(alloc),
        alloc,
        "payloadType",
        "payloadTypeLength",
        kind,
    )?;
    let payload = envelope.payload.as_slice();
    let object = with_sha256(object, alloc, "payloadSha256", payload)?;
    let object = with_statement(object, alloc, payload)?;
    Ok(object.into_document())
}
