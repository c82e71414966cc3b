//! `DsseSignatures`: the signatures of an envelope. An envelope of 2^24 bytes can have millions of signatures without a
//! part, each of which takes the room of two pointers here.
ghost use Rattle.std.specs.Prelude.{◌≡◌, ◌++◌, [], ◌∷◌, IfOk, OnOk, OnErr, IsTrue, length, option_map, slice_get};
ghost use Rattle.std.specs.Option.{option_copied};
ghost use Rattle.sig_dsse.specs.Signatures.{no_parts, only_signature};

use crate::envelope::DsseSignature;
use sig_base::{Bytes, OutOfMemory, OwnedList, Text};
use std::alloc::Global;
use std::marker::Model;

/// A signature that takes memory of its own only if a part of it is not empty. Contracts see the signature.
#[derive(Drop)]
pub struct SparseSignature {
    alloc: Global,
    held: Option<BoxedSignature>,
}

impl Model for SparseSignature {
    ghost use Rattle.sig_dsse.specs.Signatures.{whole};
    ghost use Rattle.sig_dsse.specs.declared.envelope.DsseSignature.{DsseSignature};

    ghost Value = { DsseSignature };

    ghost view = { λ s. whole s.held };
}

impl DsseSignature {
    /// Returns the signature whose parts are both empty. It takes no memory.
    pub fn without_parts(alloc: Global) -> DsseSignature
        ensures { result ≡ no_parts }
    {
        DsseSignature {
            sig: Bytes::from(Vec::new(alloc)),
            keyid: Text::from(String::new(alloc)),
        }
    }
}

impl SparseSignature {
    /// Returns the same signature. Fails only if out of memory.
    pub fn new(alloc: Global, signature: DsseSignature) -> Result<SparseSignature, OutOfMemory>
        ensures { IfOk result (λ sparse. sparse ≡ signature) }
    {
        if is_without_parts(alloc, &signature) {
            drop(signature);
            return Ok(SparseSignature { alloc, held: None });
        }
        let held = BoxedSignature {
            held: Box::new(alloc, signature)?,
        };
        Ok(SparseSignature {
            alloc,
            held: Some(held),
        })
    }

    /// Returns the signature; `empty` is one without parts.
    pub fn get<'a>(&'a self, empty: &'a DsseSignature) -> &'a DsseSignature
        requires { empty.now ≡ no_parts }
        ensures { result.now ≡ self.now }
    {
        match &self.held {
            Some(signature) => signature.get(),
            None => empty,
        }
    }
}

/// Whether both parts of a signature are empty.
#[tactic(auto, using(crate::proofs::Equality::signature_same))]
fn is_without_parts(alloc: Global, signature: &DsseSignature) -> bool
    ensures { IsTrue result → signature.now ≡ no_parts }
{
    let empty = DsseSignature::without_parts(alloc);
    let is_same = *signature == empty;
    drop(empty);
    is_same
}

/// A signature in memory of its own. Contracts see the signature.
#[derive(Drop)]
struct BoxedSignature {
    held: Box<DsseSignature>,
}

impl Model for BoxedSignature {
    ghost use Rattle.sig_dsse.specs.declared.envelope.DsseSignature.{DsseSignature};

    ghost Value = { DsseSignature };

    ghost view = { λ b. b.held.value };
}

impl BoxedSignature {
    fn get(&self) -> &DsseSignature
        ensures { result.now ≡ self.now }
    {
        &self.held
    }
}

impl PartialEq for SparseSignature {
    ghost use Rattle.std.specs.Cmp.{partial_equiv_from_equiv};
    ghost use Rattle.sig_dsse.specs.SignatureEqualityProofs.{signatures_equiv};
    ghost use Rattle.sig_dsse.specs.contracts.envelope.DsseSignaturePartialEq.TheImpl as signature_eq;

    ghost eq = { (signature_eq.ghosts).eq };

    ghost laws = { partial_equiv_from_equiv signatures_equiv };

    fn eq(&self, other: &SparseSignature) -> bool {
        let empty = DsseSignature::without_parts(self.alloc);
        let is_same = *self.get(&empty) == *other.get(&empty);
        drop(empty);
        is_same
    }
}

impl Eq for SparseSignature {
    ghost use Rattle.sig_dsse.specs.SignatureEqualityProofs.{signatures_equiv};

    ghost laws = { signatures_equiv };
}

/// Signatures in order. Contracts see the list of them.
#[derive(Drop)]
pub struct DsseSignatures {
    alloc: Global,
    empty: DsseSignature,
    items: OwnedList<SparseSignature>,
}

impl Model for DsseSignatures {
    ghost use Rattle.std.specs.Prelude.{◌≡◌, List};
    ghost use Rattle.sig_dsse.specs.Signatures.{no_parts};
    ghost use Rattle.sig_dsse.specs.declared.envelope.DsseSignature.{DsseSignature};

    ghost Value = { List DsseSignature };

    ghost view = { λ signatures. signatures.items };

    ghost invariant = { λ signatures. signatures.empty ≡ no_parts };
}

impl DsseSignatures {
    /// Returns the list of these signatures. It takes no memory.
    pub fn of(alloc: Global, items: OwnedList<SparseSignature>) -> DsseSignatures
        ensures { result ≡ items }
    {
        DsseSignatures {
            alloc,
            empty: DsseSignature::without_parts(alloc),
            items,
        }
    }

    /// Returns a list without signatures. It takes no memory.
    pub fn new(alloc: Global) -> DsseSignatures
        ensures { result ≡ [] }
    {
        DsseSignatures::of(alloc, OwnedList::new(alloc))
    }

    /// Adds a signature at the end. Fails only if out of memory; the list is then unchanged.
    pub fn push(&mut self, signature: DsseSignature) -> Result<(), OutOfMemory>
        ensures ok { OnOk result (self.new ≡ self.old ++ signature ∷ []) }
        ensures err { OnErr result (self.new ≡ self.old) }
    {
        let held = SparseSignature::new(self.alloc, signature)?;
        self.items.push(held)
    }

    /// Returns the number of signatures.
    pub fn len(&self) -> usize
        ensures { result ≡ length self.now }
    {
        self.items.len()
    }

    /// Returns the signature at an index, or `None` if the index is not below the length.
    pub fn get(&self, index: usize) -> Option<&DsseSignature>
        ensures { option_copied result ≡ slice_get self.now index }
    {
        match self.items.get(index) {
            Some(signature) => Some(signature.get(&self.empty)),
            None => None,
        }
    }

    /// Returns the signature of a list of one, or `None` if there is not one.
    pub fn only(&self) -> Option<&DsseSignature>
        ensures { option_map (λ signature. signature.now) result ≡ only_signature self.now }
    {
        match self.items.as_slice() {
            [signature] => Some(signature.get(&self.empty)),
            _ => None,
        }
    }

    /// Returns a signature without parts.
    pub(crate) fn empty(&self) -> &DsseSignature
        ensures { result.now ≡ no_parts }
    {
        &self.empty
    }

    /// The signatures in order, as they are held.
    pub fn as_slice(&self) -> &[SparseSignature]
        ensures { result.now ≡ self.now }
    {
        self.items.as_slice()
    }
}

impl PartialEq for DsseSignatures {
    ghost use Rattle.std.specs.Cmp.Lexicographic.{lists_per, pointwise};
    ghost use Rattle.std.specs.Cmp.{partial_equiv_from_equiv};
    ghost use Rattle.sig_dsse.specs.SignatureEqualityProofs.{signatures_equiv};
    ghost use Rattle.sig_dsse.specs.contracts.envelope.DsseSignaturePartialEq.TheImpl as signature_eq;

    ghost eq = { λ a b. pointwise (signature_eq.ghosts).eq a b };

    ghost laws = { lists_per (partial_equiv_from_equiv signatures_equiv) };

    fn eq(&self, other: &DsseSignatures) -> bool {
        self.items == other.items
    }
}

impl Eq for DsseSignatures {
    ghost use Rattle.std.specs.Cmp.Lexicographic.{lists_equiv};
    ghost use Rattle.sig_dsse.specs.SignatureEqualityProofs.{signatures_equiv};

    ghost laws = { lists_equiv signatures_equiv };
}
