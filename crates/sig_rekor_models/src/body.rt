//! `Body`: what Rekor logs.
//!
//! ```text
//! {"apiVersion":"0.0.1","kind":"hashedrekord","spec":{"data":{"hash":{"algorithm":"sha256","value":"47c1db9f"}}}}
//! ```
use crate::entry_kind::EntryKind;
use crate::entry_object::entry_object;
use sig_base::{Result, Text};
use sig_json::Document;
use std::alloc::Global;

/// What an entry says in the form of its kind.
#[derive(Drop, PartialEq, Eq)]
pub struct BodyContent {
    /// The version of the form.
    pub api_version: Text,
    /// What the entry says, in any form.
    pub spec: Document,
}

/// What Rekor logs of an entry, by the kind of the entry.
#[allow(non_camel_case_types)]
#[derive(Drop, PartialEq, Eq)]
pub enum Body {
    /// A package of Alpine.
    alpine(BodyContent),
    /// A signature over a hash.
    hashedrekord(BodyContent),
    /// A chart of Helm.
    helm(BodyContent),
    /// An attestation of in-toto.
    intoto(BodyContent),
    /// An archive of Java.
    jar(BodyContent),
    /// A signature over an artifact.
    rekord(BodyContent),
    /// A timestamp by RFC 3161.
    rfc3161(BodyContent),
    /// A package of RPM.
    rpm(BodyContent),
    /// Metadata of The Update Framework.
    tuf(BodyContent),
}

impl Body {
    ghost use Rattle.std.specs.Prelude.{◌≡◌, Ok};
    ghost use Rattle.sig_base.specs.Answers.{Answers};
    ghost use Rattle.sig_base.specs.declared.error.SigstoreError.TheVariants.{OutOfMemory as Memory};
    ghost use Rattle.sig_json.specs.Tree.{document_tree};
    ghost use Rattle.sig_rekor_models.specs.Body.{body_tree, body_content_of, kind_of, seen_body};

    /// The body of this kind and content.
    pub fn of(kind: EntryKind, content: BodyContent) -> Body
        ensures kind { kind_of result ≡ kind }
        ensures content { body_content_of result ≡ content }
    {
        match kind {
            EntryKind::Alpine => Body::alpine(content),
            EntryKind::Hashedrekord => Body::hashedrekord(content),
            EntryKind::Helm => Body::helm(content),
            EntryKind::Intoto => Body::intoto(content),
            EntryKind::Jar => Body::jar(content),
            EntryKind::Rekord => Body::rekord(content),
            EntryKind::Rfc3161 => Body::rfc3161(content),
            EntryKind::Rpm => Body::rpm(content),
            EntryKind::Tuf => Body::tuf(content),
        }
    }

    /// Returns the kind of the entry.
    pub fn kind(&self) -> EntryKind
        ensures { result ≡ kind_of self.now }
    {
        match self {
            Body::alpine(_) => EntryKind::Alpine,
            Body::hashedrekord(_) => EntryKind::Hashedrekord,
            Body::helm(_) => EntryKind::Helm,
            Body::intoto(_) => EntryKind::Intoto,
            Body::jar(_) => EntryKind::Jar,
            Body::rekord(_) => EntryKind::Rekord,
            Body::rfc3161(_) => EntryKind::Rfc3161,
            Body::rpm(_) => EntryKind::Rpm,
            Body::tuf(_) => EntryKind::Tuf,
        }
    }

    /// Returns what the entry says.
    pub fn content(&self) -> &BodyContent
        ensures { result.now ≡ body_content_of self.now }
    {
        match self {
            Body::alpine(content)
            | Body::hashedrekord(content)
            | Body::helm(content)
            | Body::intoto(content)
            | Body::jar(content)
            | Body::rekord(content)
            | Body::rfc3161(content)
            | Body::rpm(content)
            | Body::tuf(content) => content,
        }
    }

    /// Returns the object of the members `apiVersion`, `kind` and `spec`. Fails only if out of memory.
    pub fn json(&self, alloc: Global) -> Result<Document>
        ensures { Answers Memory document_tree result (Ok (body_tree (seen_body self.now))) }
    {
        let content = self.content();
        let spec = content.spec.view().copy(alloc)?;
        let name = self.kind().name();
        Ok(entry_object(alloc, name, content.api_version.as_str(), spec)?)
    }
}
