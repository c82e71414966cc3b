//! An index over the subjects of the candidates, so that each name is looked up and not compared with every other.

ghost use Rattle.std.specs.Prelude.{◌≡◌, ℕ, length, slice_get, Option, Some, IfOk};
ghost use Rattle.sig_x509.specs.Candidates.{IsIndexOf, all_seen, named_in};

use sig_base::OutOfMemory;
use sig_certificate::Certificate;
use std::alloc::Global;
use std::collections::BTreeMap;

/// For each subject the last candidate that has it, and for each candidate the one before it that has its subject.
#[derive(Drop)]
pub(crate) struct SubjectIndex<'a> {
    pub(crate) last: BTreeMap<&'a [u8], usize>,
    pub(crate) earlier: Vec<Option<usize>>,
}

impl SubjectIndex<'_> {
    /// Returns the last candidate with this subject.
    pub(crate) fn last_of(&self, subject: &[u8]) -> Option<usize>
        ensures { result ≡ named_in self.now.last subject.now }
    {
        self.last.get(subject).copied()
    }

    /// Returns the candidate before the one at the index that has its subject.
    pub(crate) fn before(&self, place: usize) -> Option<usize>
        ensures { (o : Option ℕ) → slice_get self.now.earlier.items place ≡ Some o → result ≡ o }
    {
        match self.earlier.get(place) {
            Some(before) => *before,
            None => None,
        }
    }
}

/// Returns the index over these candidates. Fails only if out of memory.
pub(crate) fn index_subjects<'a>(
    alloc: Global,
    listed: &[Option<&'a Certificate>],
) -> Result<SubjectIndex<'a>, OutOfMemory>
    ensures { IfOk result (λ i. IsIndexOf (all_seen listed.now) (length listed.now) i.last i.earlier.items) }
{
    let mut last = BTreeMap::new(alloc);
    let mut earlier = Vec::new(alloc);
    'candidates: for (place, candidate) in listed.iter().enumerate() {
        let before = match candidate {
            Some(certificate) => last.insert(certificate.subject(), place)?,
            None => None,
        };
        earlier.push(before)?;
    }
    Ok(SubjectIndex { last, earlier })
}
