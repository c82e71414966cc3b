//! Writers of what a bundle brings to check its signature with.
ghost use Rattle.std.specs.Prelude.{◌≡◌, IfOk, Option};
ghost use Rattle.sig_json.specs.Data.{Data};
ghost use Rattle.sig_json.specs.CommonRecord.{certificate_of, chain_of};
ghost use Rattle.sig_bundle.specs.BundleRecord.{material_of};
ghost use Rattle.sig_bundle.specs.BundleTree.{certificate_tree, chain_tree, material_tree, material_content_member};
ghost use Rattle.sig_bundle.specs.ReadBack.{MaterialContentIsRead};
ghost use Rattle.sig_json.specs.Writing.{IsReadAs, members, put_some};
ghost use Rattle.sig_json.specs.Tree.{document_tree};

use crate::material::{MaterialContent, VerificationMaterial};
use crate::write_entry::SparseEntryWriter;
use sig_base::{Bytes, Entries, OutOfMemory};
use sig_json::{Document, ElementWriter, Object};
use std::alloc::Global;

enum CertificateWriter {}

impl ElementWriter for CertificateWriter {
    type Item = Bytes;

    ghost written = { certificate_tree };

    ghost meaning = { certificate_of };

    #[tactic(auto, using(crate::proofs::MaterialReadings::back), unfolding(crate::specs::BundleTree::certificate_tree))]
    fn write(alloc: Global, item: &Bytes) -> Result<Document, OutOfMemory> {
        let object = Object::new(alloc).with_bytes(alloc, "rawBytes", item.as_slice())?;
        Ok(object.into_document())
    }
}

/// Writes chains of certificates.
enum ChainWriter {}

impl ElementWriter for ChainWriter {
    type Item = Entries;

    ghost written = { chain_tree };

    ghost meaning = { chain_of };

    #[tactic(auto, using(crate::proofs::MaterialReadings::back), unfolding(crate::specs::BundleTree::chain_tree))]
    fn write(alloc: Global, item: &Entries) -> Result<Document, OutOfMemory> {
        let object = Object::new(alloc).with_list::<CertificateWriter>(
            alloc,
            "certificates",
            item.as_slice(),
        )?;
        Ok(object.into_document())
    }
}

/// Writes verification material.
pub(crate) enum MaterialWriter {}

impl ElementWriter for MaterialWriter {
    type Item = VerificationMaterial;

    ghost written = { material_tree };

    ghost meaning = { material_of };

    #[tactic(auto, using(crate::proofs::MaterialReadings::back), unfolding(crate::specs::BundleTree::material_tree))]
    fn write(alloc: Global, item: &VerificationMaterial) -> Result<Document, OutOfMemory> {
        let object = with_material_content(Object::new(alloc), alloc, &item.content)?;
        let object = object.with_list::<SparseEntryWriter>(
            alloc,
            "tlogEntries",
            item.tlog_entries.as_slice(),
        )?;
        Ok(object.into_document())
    }
}

/// The object with the member of the content's kind. Fails only if out of memory.
fn with_material_content(
    object: Object,
    alloc: Global,
    content: &Option<MaterialContent>,
) -> Result<Object, OutOfMemory>
    ensures tree { IfOk result (λ made. members made
        ≡ put_some (material_content_member content.now).0 (material_content_member content.now).1 (members object)) }
    ensures back { IfOk result (λ _. MaterialContentIsRead content.now) }
{
    match content {
        Some(MaterialContent::Certificate(der)) => {
            object.with_written::<CertificateWriter>(alloc, "certificate", der)
        }
        Some(MaterialContent::X509CertificateChain(chain)) => {
            object.with_written::<ChainWriter>(alloc, "x509CertificateChain", chain)
        }
        Some(MaterialContent::PublicKey) => {
            object.with(alloc, "publicKey", Document::object(alloc))
        }
        None => Ok(object),
    }
}
