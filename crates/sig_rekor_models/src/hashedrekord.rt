//! `Hashedrekord`: an entry about a signature over a hash, and its JSON.
//!
//! ```text
//! {"apiVersion":"0.0.1","kind":"hashedrekord","spec":{
//!   "data":{"hash":{"algorithm":"sha256","value":"47c1db9fb5fe7ff66e3d7c15b2ca5d3a046ee8f4aa043dedd317e46b321c4390"}},
//!   "signature":{"content":"MEYCIQDT..","publicKey":{"content":"LS0tLS1CRUdJTi.."}}}}
//! ```
use crate::entry_object::entry_object;
use crate::public_key::PublicKey;
use sig_base::{OutOfMemory, Result, Text};
use sig_json::{Document, Object};
use std::alloc::Global;

/// An entry of kind `hashedrekord`: a signature over the hash of an artifact.
#[derive(Drop, PartialEq, Eq)]
pub struct Hashedrekord {
    /// The kind of the entry.
    pub kind: Text,
    /// The version of the entry's form.
    pub api_version: Text,
    /// What the entry says.
    pub spec: Spec,
}

/// What an entry of kind `hashedrekord` says.
#[derive(Drop, PartialEq, Eq)]
pub struct Spec {
    /// The signature, with the key that verifies it.
    pub signature: Signature,
    /// What it is over.
    pub logged_data: Data,
}

/// A signature, and the key that verifies it.
#[derive(Drop, PartialEq, Eq)]
pub struct Signature {
    /// The signature in base64.
    pub content: Text,
    /// The key that verifies it, or the certificate of that key.
    pub public_key: PublicKey,
}

/// What a signature is over.
#[derive(Drop, PartialEq, Eq)]
pub struct Data {
    /// The hash of the artifact.
    pub hash: Hash,
}

/// The hash of an artifact, with its algorithm.
#[derive(Drop, PartialEq, Eq)]
pub struct Hash {
    /// How it is computed.
    pub algorithm: AlgorithmKind,
    /// The hash in hexadecimal.
    pub value: Text,
}

/// An algorithm of a hash.
#[allow(non_camel_case_types)]
#[derive(Clone, Drop, PartialEq, Eq)]
pub enum AlgorithmKind {
    /// SHA-256 (FIPS 180-4).
    sha256,
    /// SHA-1 (FIPS 180-4).
    sha1,
}

impl Hashedrekord {
    ghost use Rattle.std.specs.Prelude.{◌≡◌, Ok};
    ghost use Rattle.sig_base.specs.Answers.{Answers};
    ghost use Rattle.sig_base.specs.declared.error.SigstoreError.TheVariants.{OutOfMemory as Memory};
    ghost use Rattle.sig_json.specs.Tree.{document_tree};
    ghost use Rattle.sig_rekor_models.specs.HashedrekordTree.{hashedrekord_json};

    /// The entry of these parts.
    pub fn new(kind: Text, api_version: Text, spec: Spec) -> Self
        ensures { result ≡ record { kind = kind; api_version = api_version; spec = spec } }
    {
        Hashedrekord {
            kind,
            api_version,
            spec,
        }
    }

    /// Returns the object of the members `apiVersion`, `kind` and `spec`. Fails only if out of memory.
    pub fn json(&self, alloc: Global) -> Result<Document>
        ensures { Answers Memory document_tree result (Ok (hashedrekord_json self.now)) }
    {
        let spec = self.spec.json(alloc)?;
        Ok(entry_object(alloc, self.kind.as_str(), self.api_version.as_str(), spec)?)
    }
}

impl Spec {
    ghost use Rattle.std.specs.Prelude.{◌≡◌, IfOk};
    ghost use Rattle.sig_json.specs.Tree.{document_tree};
    ghost use Rattle.sig_rekor_models.specs.HashedrekordTree.{spec_json};

    /// Returns what this signature over this data says.
    pub fn new(signature: Signature, logged_data: Data) -> Self
        ensures { result ≡ record { signature = signature; logged_data = logged_data } }
    {
        Spec {
            signature,
            logged_data,
        }
    }

    /// The object of the members `data` and `signature`.
    #[tactic(auto, unfolding(crate::specs::HashedrekordTree::spec_json))]
    pub(crate) fn json(&self, alloc: Global) -> std::result::Result<Document, OutOfMemory>
        ensures { IfOk result (λ document. document_tree document ≡ spec_json self.now) }
    {
        let object = Object::new(alloc)
            .with(alloc, "data", self.logged_data.json(alloc)?)?
            .with(alloc, "signature", self.signature.json(alloc)?)?;
        Ok(object.into_document())
    }
}

impl Signature {
    ghost use Rattle.std.specs.Prelude.{◌≡◌, IfOk};
    ghost use Rattle.sig_json.specs.Tree.{document_tree};
    ghost use Rattle.sig_rekor_models.specs.HashedrekordTree.{signature_json};

    /// The signature of this text, which this key verifies.
    pub fn new(content: Text, public_key: PublicKey) -> Self
        ensures { result ≡ record { content = content; public_key = public_key } }
    {
        Signature {
            content,
            public_key,
        }
    }

    /// The object of the members `content` and `publicKey`.
    #[tactic(auto, unfolding(crate::specs::HashedrekordTree::signature_json))]
    fn json(&self, alloc: Global) -> std::result::Result<Document, OutOfMemory>
        ensures { IfOk result (λ document. document_tree document ≡ signature_json self.now) }
    {
        let public_key = Object::new(alloc).with_text(alloc, "content", self.public_key.content())?;
        let object = Object::new(alloc)
            .with_text(alloc, "content", self.content.as_str())?
            .with(alloc, "publicKey", public_key.into_document())?;
        Ok(object.into_document())
    }
}

impl Data {
    ghost use Rattle.std.specs.Prelude.{◌≡◌, IfOk};
    ghost use Rattle.sig_json.specs.Tree.{document_tree};
    ghost use Rattle.sig_rekor_models.specs.HashedrekordTree.{data_json};

    /// The artifact of this hash.
    pub fn new(hash: Hash) -> Self
        ensures { result ≡ record { hash = hash } }
    {
        Data { hash }
    }

    /// The object of the member `hash`.
    #[tactic(auto, unfolding(crate::specs::HashedrekordTree::data_json))]
    fn json(&self, alloc: Global) -> std::result::Result<Document, OutOfMemory>
        ensures { IfOk result (λ document. document_tree document ≡ data_json self.now) }
    {
        let object = Object::new(alloc).with(alloc, "hash", self.hash.json(alloc)?)?;
        Ok(object.into_document())
    }
}

impl Hash {
    ghost use Rattle.std.specs.Prelude.{◌≡◌, IfOk};
    ghost use Rattle.sig_json.specs.Tree.{document_tree};
    ghost use Rattle.sig_rekor_models.specs.HashedrekordTree.{hash_json};

    /// The hash of this value, computed so.
    pub fn new(algorithm: AlgorithmKind, value: Text) -> Self
        ensures { result ≡ record { algorithm = algorithm; value = value } }
    {
        Hash { algorithm, value }
    }

    /// The object of the members `algorithm` and `value`.
    #[tactic(auto, unfolding(crate::specs::HashedrekordTree::hash_json))]
    fn json(&self, alloc: Global) -> std::result::Result<Document, OutOfMemory>
        ensures { IfOk result (λ document. document_tree document ≡ hash_json self.now) }
    {
        let object = Object::new(alloc)
            .with_text(alloc, "algorithm", self.algorithm.name())?
            .with_text(alloc, "value", self.value.as_str())?;
        Ok(object.into_document())
    }
}

/// SHA-256, the one whose name is `sha256` (`laws::default_algorithm`).
impl Default for AlgorithmKind {
    ghost use Rattle.std.specs.Prelude.{◌≡◌};
    ghost use Rattle.sig_rekor_models.specs.declared.hashedrekord.AlgorithmKind.TheVariants.{sha256};

    ghost is_default = { λ algorithm. algorithm ≡ sha256 };

    fn default() -> AlgorithmKind {
        AlgorithmKind::sha256
    }
}

impl AlgorithmKind {
    ghost use Rattle.std.specs.Prelude.{◌≡◌};
    ghost use Rattle.sig_rekor_models.specs.HashedrekordTree.{algorithm_name};

    /// Returns the algorithm's name.
    pub fn name(&self) -> &'static str
        ensures { result.now ≡ algorithm_name self.now }
    {
        match self {
            AlgorithmKind::sha256 => "sha256",
            AlgorithmKind::sha1 => "sha1",
        }
    }
}
