//! Readers of what a bundle brings to check its signature with.
ghost use Rattle.std.specs.Prelude.{Option};
ghost use Rattle.sig_json.specs.Data.{Data};
ghost use Rattle.sig_bundle.specs.BundleRecord.{key_hint_of, material_of};
ghost use Rattle.sig_bundle.specs.BundleRecord.{material_content_of};
ghost use Rattle.sig_base.specs.Answers.{Answers};
ghost use Rattle.sig_json.specs.OrMember.{or_member};
ghost use Rattle.sig_json.specs.Tree.{tree};

use crate::log_entries::LogEntries;
use crate::material::{MaterialContent, VerificationMaterial};
use crate::read_entry::SparseEntryReader;
use sig_json::{
    CertificateReader, ChainReader, ElementReader, Json, MemberError, optional, optional_list,
};
use std::alloc::Global;

/// Reads hints at keys: objects whose members are not checked.
enum KeyHintReader {}

impl ElementReader for KeyHintReader {
    type Item = ();

    ghost meaning = { key_hint_of };

    fn read(_alloc: Global, json: Json<'_, '_>) -> Result<(), MemberError> {
        match json.members() {
            Some(_) => Ok(()),
            None => Err(MemberError::Member),
        }
    }
}

/// Reads verification material.
pub(crate) enum MaterialReader {}

impl ElementReader for MaterialReader {
    type Item = VerificationMaterial;

    ghost meaning = { material_of };

    #[tactic(auto, unfolding(crate::specs::BundleRecord::material_of))]
    fn read(alloc: Global, json: Json<'_, '_>) -> Result<VerificationMaterial, MemberError> {
        Ok(VerificationMaterial {
            content: read_material_content(alloc, json)?,
            tlog_entries: LogEntries::of(
                alloc,
                optional_list::<SparseEntryReader>(alloc, json, "tlogEntries")?,
            ),
        })
    }
}

/// Returns what the signer is. Fails with `Member` where two of the three kinds are there, or a member is not of its
/// kind.
#[tactic(auto, unfolding(crate::specs::BundleRecord::material_content_of))]
fn read_material_content(
    alloc: Global,
    json: Json<'_, '_>,
) -> Result<Option<MaterialContent>, MemberError>
    ensures { Answers MemberError.OutOfMemory (λ x. x) result (or_member (material_content_of (tree json.entry))) }
{
    let certificate = optional::<CertificateReader>(alloc, json, "certificate")?;
    let chain = optional::<ChainReader>(alloc, json, "x509CertificateChain")?;
    let hint = optional::<KeyHintReader>(alloc, json, "publicKey")?;
    match (certificate, chain, hint) {
        (Some(certificate), None, None) => Ok(Some(MaterialContent::Certificate(certificate))),
        (None, Some(chain), None) => Ok(Some(MaterialContent::X509CertificateChain(chain))),
        (None, None, Some(())) => Ok(Some(MaterialContent::PublicKey)),
        (None, None, None) => Ok(None),
        _ => Err(MemberError::Member),
    }
}
