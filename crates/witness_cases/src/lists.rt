//! The heads of an origin beside a list. Since no collision of SHA-256 is known, the extractor returns `None`.
ghost use Rattle.sig_audit.specs.Fronts.{EndsInList};
ghost use Rattle.sig_merkle.specs.Root.{root};
ghost use Rattle.sig_witness.specs.KeptLogs.{chain_at};
ghost use Rattle.std.specs.Prelude.{◌≡◌, IsTrue};

use crate::parts::updates;
use crate::runs::{add_origins, make};
use sig_base::Entries;
use sig_cases::{Answer, Arguments};
use sig_merkle::uncounted::front_roots;
use sig_witness::Witness;
use std::alloc::Global;

/// `list ORIGINS UPDATES ORIGIN ENTRIES ROWS`: what a new witness returns for each origin that is added and for each
/// update, and then `other` if the list is not of the kept head of that origin, else what the extractor returns.
pub(crate) fn listed(arguments: &mut Arguments<'_>, answer: &mut Answer) {
    let alloc = arguments.alloc();
    let mut witness = Witness::new(alloc);
    add_origins(arguments, answer, &mut witness);
    let updates = updates(arguments, answer);
    let origin = arguments.text();
    let entries = arguments.entries();
    let checker = arguments.checker();
    for update in updates.as_slice() {
        make(alloc, answer, &mut witness, update, &checker);
    }
    compare(alloc, answer, &witness, origin.as_str(), &entries);
    drop(witness);
    drop(updates);
}

fn compare(alloc: Global, answer: &mut Answer, witness: &Witness, origin: &str, entries: &Entries) {
    if !is_list_of(witness, origin, entries) {
        answer.value(&"other");
        return;
    }
    answer.collision(witness.witness_collision(alloc, origin, entries));
}

/// Whether the kept head of an origin has the size and the root of the list.
#[tactic(auto, using(crate::proofs::Ends::ends_in))]
fn is_list_of(witness: &Witness, origin: &str, entries: &Entries) -> bool
    ensures { IsTrue result → EndsInList entries.now (chain_at origin.now witness.now) }
{
    let Some(head) = witness.head(origin) else {
        return false;
    };
    if head.0 != entries.len() as u64 {
        return false;
    }
    has_root(&head.1, entries)
}

/// Whether this is the root of the list.
fn has_root(hash: &[u8; 32], entries: &Entries) -> bool
    ensures { IsTrue result → hash.now ≡ root entries.now }
{
    let roots = front_roots(entries, entries.len());
    roots.new == *hash
}
