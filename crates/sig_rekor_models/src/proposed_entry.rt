//! `ProposedEntry`: an entry that Rekor is asked to log, and its JSON.
//!
//! ```text
//! {"apiVersion":"0.0.1","kind":"rpm","spec":{}}
//! ```
ghost use Rattle.std.specs.Prelude.{◌≡◌, IfOk};
ghost use Rattle.sig_json.specs.Tree.{document_tree};
ghost use Rattle.sig_rekor_models.specs.EntryKind.{kind_name};
ghost use Rattle.sig_rekor_models.specs.EntryTree.{entry_json};
ghost use Rattle.sig_rekor_models.specs.ProposedTree.{proposed_tree};

use crate::entry_kind::EntryKind;
use crate::entry_object::entry_object;
use crate::hashedrekord::Spec;
use sig_base::{OutOfMemory, Result, Text};
use sig_json::Document;
use std::alloc::Global;

/// An entry to propose, by its kind: the version of its form, and what it says.
#[derive(Drop, PartialEq, Eq)]
pub enum ProposedEntry {
    /// A package of Alpine.
    Alpine { api_version: Text, spec: Document },
    /// A signature over a hash.
    Hashedrekord { api_version: Text, spec: Spec },
    /// A chart of Helm.
    Helm { api_version: Text, spec: Document },
    /// An attestation of in-toto.
    Intoto { api_version: Text, spec: Document },
    /// An archive of Java.
    Jar { api_version: Text, spec: Document },
    /// A signature over an artifact.
    Rekord { api_version: Text, spec: Document },
    /// A timestamp by RFC 3161.
    Rfc3161 { api_version: Text, spec: Document },
    /// A package of RPM.
    Rpm { api_version: Text, spec: Document },
    /// Metadata of The Update Framework.
    Tuf { api_version: Text, spec: Document },
}

impl ProposedEntry {
    ghost use Rattle.std.specs.Prelude.{◌≡◌, Ok};
    ghost use Rattle.sig_base.specs.Answers.{Answers};
    ghost use Rattle.sig_base.specs.declared.error.SigstoreError.TheVariants.{OutOfMemory as Memory};
    ghost use Rattle.sig_json.specs.Tree.{document_tree};
    ghost use Rattle.sig_rekor_models.specs.ProposedTree.{proposed_tree};

    /// Returns the object of the members `apiVersion`, `kind`, in lower case, and `spec`. Fails only if out of memory.
    pub fn json(&self, alloc: Global) -> Result<Document>
        ensures { Answers Memory document_tree result (Ok (proposed_tree self.now)) }
    {
        Ok(write(alloc, self)?)
    }
}

/// The JSON of an entry.
fn write(alloc: Global, entry: &ProposedEntry) -> std::result::Result<Document, OutOfMemory>
    ensures { IfOk result (λ document. document_tree document ≡ proposed_tree entry.now) }
{
    match entry {
        ProposedEntry::Hashedrekord { api_version, spec } => {
            let spec = spec.json(alloc)?;
            entry_object(
                alloc,
                EntryKind::Hashedrekord.name(),
                api_version.as_str(),
                spec,
            )
        }
        ProposedEntry::Alpine { api_version, spec } => with_copy(
            alloc,
            EntryKind::Alpine,
            api_version,
            spec,
        ),
        ProposedEntry::Helm { api_version, spec } => with_copy(
            alloc,
            EntryKind::Helm,
            api_version,
            spec,
        ),
        ProposedEntry::Intoto { api_version, spec } => with_copy(
            alloc,
            EntryKind::Intoto,
            api_version,
            spec,
        ),
        ProposedEntry::Jar { api_version, spec } => with_copy(
            alloc,
            EntryKind::Jar,
            api_version,
            spec,
        ),
        ProposedEntry::Rekord { api_version, spec } => with_copy(
            alloc,
            EntryKind::Rekord,
            api_version,
            spec,
        ),
        ProposedEntry::Rfc3161 { api_version, spec } => with_copy(
            alloc,
            EntryKind::Rfc3161,
            api_version,
            spec,
        ),
        ProposedEntry::Rpm { api_version, spec } => with_copy(
            alloc,
            EntryKind::Rpm,
            api_version,
            spec,
        ),
        ProposedEntry::Tuf { api_version, spec } => with_copy(
            alloc,
            EntryKind::Tuf,
            api_version,
            spec,
        ),
    }
}

/// The JSON of an entry of this kind, with a copy of what it says.
fn with_copy(
    alloc: Global,
    kind: EntryKind,
    api_version: &Text,
    spec: &Document,
) -> std::result::Result<Document, OutOfMemory>
    ensures { IfOk result (λ document. document_tree document
        ≡ entry_json (kind_name kind) api_version.now (document_tree spec.now)) }
{
    let spec = spec.view().copy(alloc)?;
    entry_object(alloc, kind.name(), api_version.as_str(), spec)
}
