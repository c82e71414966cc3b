//! What the definitions mean. Its calls do nothing.
ghost use Rattle.std.specs.List.{AllByRecursion};
ghost use Rattle.std.specs.Prelude.{◌≡◌, ◌↔◌, ℕ, ℤ, ◌<ℤ◌, ◌≤ℤ◌, true, false, Contains, IsTrue, List, Option, Some, None};
ghost use Rattle.sig_base.specs.ByText.{KeysAscend, text_lookup};
ghost use Rattle.sig_root.specs.OfBytes.{HasIdOfBytes, HasRawBytes};
ghost use Rattle.sig_root.specs.Picked.{authority_certificates, has_begun, holds, key_at, keys_of};
ghost use Rattle.sig_root.specs.PickedLaws.{IsGiven, IsKeyAt, IsLastKey};
ghost use Rattle.sig_root.specs.Ranges.{Counts};
ghost use Rattle.sig_root.specs.declared.record.CertificateAuthority.{CertificateAuthority as Authority};
ghost use Rattle.sig_root.specs.declared.record.TransparencyLogInstance.{TransparencyLogInstance as Instance};

use crate::sparse::SparseInstance;
use sig_base::laws::are_owned_bytes;

/// How a range of time counts, by its two ends. A range that is absent, and one that has no start, has begun and holds,
/// whatever its end. Before its start a range has neither begun nor holds. From its start on it has begun, after its
/// end too; it holds from its start to its end, both included, and without an end for ever. It has no code.
pub fn ranges()
    ensures absent { (now : ℤ) → IsTrue (has_begun now None) × IsTrue (holds now None) }
    ensures startless { (now : ℤ) (end : Option ℤ) → Counts now None end true true }
    ensures early { (now start : ℤ) (end : Option ℤ) → now <ℤ start → Counts now (Some start) end false false }
    ensures endless { (now start : ℤ) → start ≤ℤ now → Counts now (Some start) None true true }
    ensures within { (now start end : ℤ) → start ≤ℤ now → now ≤ℤ end
        → Counts now (Some start) (Some end) true true }
    ensures ended { (now start end : ℤ) → start ≤ℤ now → end <ℤ now
        → Counts now (Some start) (Some end) true false }
{}

/// A certificate is given if and only if an authority whose range has begun has it. It has no code.
pub fn picked_certificates()
    ensures { (now : ℤ) (authorities : List Authority) (certificate : List ℕ)
        → Contains (authority_certificates now authorities) certificate ↔ IsGiven now authorities certificate }
{}

/// The key of a log id is that of the last instance of this id that has a key whose range holds. The map has its
/// log ids in byte order, each once. An instance, whose id is bytes, gives a key under a log id if and only if it has
/// this key, its range holds, and the log id is that of the instance in lower-case hexadecimal.
pub fn picked_keys()
    ensures last { (now : ℤ) (instances : List Instance) (id key : List ℕ)
        → (text_lookup id (keys_of now instances) ≡ Some key) ↔ IsLastKey now instances id key }
    ensures ordered { (now : ℤ) (instances : List Instance) → KeysAscend (keys_of now instances) }
    ensures keys { (now : ℤ) (instance : Instance) (id key : List ℕ) → HasIdOfBytes instance
        → (key_at now instance ≡ Some (id, key)) ↔ IsKeyAt now instance id key }
{}

/// The keys of instances of logs are bytes.
pub fn are_log_key_bytes(instances: &[SparseInstance])
    ensures { AllByRecursion HasRawBytes instances.now }
{
    'instances: for instance in instances {
        is_raw_bytes(instance);
    }
}

/// The key of an instance is bytes.
fn is_raw_bytes(instance: &SparseInstance)
    ensures { HasRawBytes instance.now }
{
    let Some(instance) = instance.get() else {
        return;
    };
    match &instance.public_key {
        Some(key) => match &key.raw_bytes {
            Some(raw) => are_owned_bytes(raw),
            None => (),
        },
        None => (),
    }
}
