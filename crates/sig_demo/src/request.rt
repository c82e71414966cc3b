//! The request of `log` for the middle entry of the demonstration's log.
ghost use Rattle.std.specs.Prelude.{◌≡◌, ◌≤◌, ◌∷◌, [], IfOk, Ok, Some, length, ℕ};
ghost use Rattle.sig_json.specs.Writing.{IsReadAs, bytes_tree, list_tree, members};
ghost use Rattle.sig_json.specs.Data.{put};
ghost use Rattle.sig_json.specs.Document.{document_of};
ghost use Rattle.sig_json.specs.Kinds.{bytes_of, hash_of};
ghost use Rattle.sig_json.specs.Member.{list_each};
ghost use Rattle.sig_json.specs.Tree.{document_tree};
ghost use Rattle.sig_json.specs.Written.{compact_text};
ghost use Rattle.sig_rekor.specs.CheckpointText.{IsCheckpoint, checkpoint_text};
ghost use Rattle.sig_rekor.specs.NoteText.{note_text};
ghost use Rattle.sig_rekor.specs.ReadBack.{ReadsBack};
ghost use Rattle.sig_request.specs.Limit.{most_bytes};
ghost use Rattle.sig_request.specs.Request.{log_request};
ghost use Rattle.sig_request.specs.Row.{row_of};
ghost use Rattle.sig_demo.specs.Log.{demo_checkpoint, demo_log, demo_signature};
ghost use Rattle.sig_demo.specs.Request.{hash_tree, request_of, request_tree, row_over, row_tree};

use crate::log::{DemoLog, entry_at};
use crate::written::{entries_document, hash_document, hashes_document, natural_document};
use sig_base::{Bytes, Entries, Hashes, OutOfMemory, OwnedList, Text};
use sig_json::{Document, Object};
use sig_json_text::compact;
use sig_rekor::{Checkpoint, CheckpointSignature, SignedCheckpoint};
use std::alloc::Global;

impl DemoLog {
    /// Returns the request of `log` for the entry at half the count, with all entries, as compact JSON: its members are
    /// in the byte order of their names, without white space. The log's signature is not a real one: the request
    /// accepts it by a row. Fails only if out of memory.
    pub fn request(&self, alloc: Global) -> Result<Bytes, OutOfMemory>
        requires { self.now.count ≤ 4096 }
        ensures text { IfOk result (λ text. text ≡ compact_text (request_tree self.now)) }
        ensures document { IfOk result (λ text. document_of text ≡ Ok (request_tree self.now)) }
        ensures members { IfOk result (λ _. log_request (request_tree self.now) ≡ Some (request_of self.now)) }
        ensures short { IfOk result (λ text. (count : ℕ) → self.now ≡ demo_log count → length text ≤ most_bytes) }
        ensures checkpoint { IfOk result (λ _.
            IsCheckpoint (checkpoint_text (demo_checkpoint self.now)) (demo_checkpoint self.now)) }
    {
        let checkpoint = self.checkpoint(alloc)?;
        let encoded = encode(alloc, &checkpoint)?;
        let note = checkpoint.note.marshal(alloc)?;
        drop(checkpoint);
        let document = self.document(alloc, &encoded, &note)?;
        let text = compact(alloc, document.view());
        drop(document);
        Bytes::copy_of(alloc, text?.as_str().as_bytes())
    }

    /// The log's signed checkpoint. Fails only if out of memory.
    fn checkpoint(&self, alloc: Global) -> Result<SignedCheckpoint, OutOfMemory>
        ensures { IfOk result (λ checkpoint. checkpoint ≡ demo_checkpoint self.now) }
    {
        let mut signatures = OwnedList::new(alloc);
        signatures.push(signature(alloc)?)?;
        let note = Checkpoint {
            origin: Text::copy_of(alloc, "demo")?,
            size: self.count,
            hash: self.root,
            other_content: OwnedList::new(alloc),
        };
        Ok(SignedCheckpoint { note, signatures })
    }

    /// The request's document, from the texts of the log's checkpoint and of its note. Fails only if out of memory.
    fn document(
        &self,
        alloc: Global,
        checkpoint: &Text,
        note: &Text,
    ) -> Result<Document, OutOfMemory>
        requires count { self.now.count ≤ 4096 }
        requires checkpoint { checkpoint.now ≡ checkpoint_text (demo_checkpoint self.now) }
        requires note { note.now ≡ note_text (demo_checkpoint self.now).note }
        ensures tree { IfOk result (λ document. document_tree document ≡ request_tree self.now) }
        ensures back { IfOk result (λ _. log_request (request_tree self.now) ≡ Some (request_of self.now)) }
    {
        let index = self.count / 2;
        let entry = entry_at(alloc, index)?;
        let object = Object::new(alloc)
            .with_bytes(alloc, "entry", entry.as_str().as_bytes())?
            .with(alloc, "logIndex", natural_document(index))?
            .with(alloc, "treeSize", natural_document(self.count))?;
        let object = with_hash(object, alloc, "rootHash", &self.root)?;
        let object = with_hashes(object, alloc, "hashes", &self.path)?
            .with_text(alloc, "checkpoint", checkpoint.as_str())?
            .with_text(alloc, "scheme", SCHEME)?
            .with_bytes(alloc, "key", KEY)?;
        let object = with_row(object, alloc, "accepted", note)?;
        let object = with_entries(object, alloc, "entries", &self.entries)?;
        Ok(object.into_document())
    }
}

/// The name of the scheme under which the log claims to sign.
const SCHEME: &str = "ECDSA_P256_SHA256_ASN1";

/// The made-up key of the log.
const KEY: &[u8] = b"key";

/// The made-up signature of the log.
const SIGNATURE: &[u8] = b"sig";

/// The text of a checkpoint that is read back. Fails only if out of memory.
#[tactic(auto, using(crate::proofs::Checkpoints::checkpoints))]
fn encode(alloc: Global, checkpoint: &SignedCheckpoint) -> Result<Text, OutOfMemory>
    requires { ReadsBack checkpoint.now }
    ensures text { IfOk result (λ text. text ≡ checkpoint_text checkpoint.now) }
    ensures back { IfOk result (λ _. IsCheckpoint (checkpoint_text checkpoint.now) checkpoint.now) }
{
    checkpoint.encode(alloc)
}

/// The signature of the checkpoint. Fails only if out of memory.
fn signature(alloc: Global) -> Result<CheckpointSignature, OutOfMemory>
    ensures { IfOk result (λ signature. signature ≡ demo_signature) }
{
    Ok(CheckpointSignature {
        key_fingerprint: [0, 0, 0, 1],
        raw: Bytes::copy_of(alloc, SIGNATURE)?,
        name: Text::copy_of(alloc, "demo")?,
    })
}

/// The object with this hash as a member. Fails only if out of memory.
fn with_hash(
    object: Object,
    alloc: Global,
    name: &str,
    hash: &[u8; 32],
) -> Result<Object, OutOfMemory>
    ensures tree { IfOk result (λ made. members made ≡ put name.now (hash_tree hash.now) (members object)) }
    ensures back { IfOk result (λ _. IsReadAs hash_of (hash_tree hash.now) hash.now) }
{
    let value = hash_document(alloc, hash)?;
    object.with(alloc, name, value)
}

/// The object with this list of hashes as a member. Fails only if out of memory.
fn with_hashes(
    object: Object,
    alloc: Global,
    name: &str,
    hashes: &Hashes,
) -> Result<Object, OutOfMemory>
    ensures tree { IfOk result (λ made. members made
        ≡ put name.now (list_tree hash_tree hashes.now) (members object)) }
    ensures back { IfOk result (λ _. IsReadAs (list_each hash_of) (list_tree hash_tree hashes.now) hashes.now) }
{
    let value = hashes_document(alloc, hashes.as_slice())?;
    object.with(alloc, name, value)
}

/// The object with a list of one accepted signature as a member: that over this message. Fails only if out of memory.
fn with_row(
    object: Object,
    alloc: Global,
    name: &str,
    message: &Text,
) -> Result<Object, OutOfMemory>
    ensures tree { IfOk result (λ made. members made
        ≡ put name.now (list_tree row_tree (row_over message.now ∷ [])) (members object)) }
    ensures back { IfOk result (λ _.
        IsReadAs (list_each row_of) (list_tree row_tree (row_over message.now ∷ [])) (row_over message.now ∷ [])) }
{
    let mut list = Document::list(alloc);
    list.push(row_document(alloc, message)?)?;
    object.with(alloc, name, list)
}

/// The row that accepts the signature over this message. Fails only if out of memory.
fn row_document(alloc: Global, message: &Text) -> Result<Document, OutOfMemory>
    ensures tree { IfOk result (λ document. document_tree document ≡ row_tree (row_over message.now)) }
    ensures back { IfOk result (λ _. IsReadAs row_of (row_tree (row_over message.now)) (row_over message.now)) }
{
    let object = Object::new(alloc)
        .with_text(alloc, "operation", "message")?
        .with_text(alloc, "scheme", SCHEME)?
        .with_bytes(alloc, "key", KEY)?
        .with_bytes(alloc, "message", message.as_str().as_bytes())?
        .with_bytes(alloc, "signature", SIGNATURE)?;
    Ok(object.into_document())
}

/// The object with this list of byte strings as a member. Fails only if out of memory.
fn with_entries(
    object: Object,
    alloc: Global,
    name: &str,
    entries: &Entries,
) -> Result<Object, OutOfMemory>
    ensures tree { IfOk result (λ made. members made
        ≡ put name.now (list_tree bytes_tree entries.now) (members object)) }
    ensures back { IfOk result (λ _.
        IsReadAs (list_each bytes_of) (list_tree bytes_tree entries.now) entries.now) }
{
    let value = entries_document(alloc, entries.as_slice())?;
    object.with(alloc, name, value)
}
