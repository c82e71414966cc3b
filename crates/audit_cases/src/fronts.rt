//! The roots of a list's first entries.
ghost use Rattle.std.specs.List.{AllByRecursion};
ghost use Rattle.std.specs.Prelude.{◌≤◌, length, IsTrue};
ghost use Rattle.sig_merkle.specs.Fronts.{Ascend};

use sig_base::Entries;
use sig_cases::{Answer, Arguments};
use sig_merkle::uncounted::roots_of_fronts;
use std::alloc::Global;

/// `fronts MANY COUNT .. ENTRIES`: for each of MANY counts, none of which is below the one before it, the root of the
/// first entries.
pub(crate) fn roots(arguments: &mut Arguments<'_>, answer: &mut Answer) {
    let counts = counts(arguments, answer);
    let entries = arguments.entries();
    if are_ascending(0, &counts, entries.len()) {
        show(arguments.alloc(), answer, &entries, &counts);
    } else {
        arguments.refuse();
    }
}

fn counts(arguments: &mut Arguments<'_>, answer: &mut Answer) -> Vec<usize> {
    let mut counts = Vec::new(arguments.alloc());
    let many = arguments.natural();
    for _ in 0..many {
        if arguments.is_empty() {
            break;
        }
        if counts.push(arguments.natural() as usize).is_err() {
            answer.out_of_memory();
        }
    }
    counts
}

/// Whether no count is below the one before it, nor the first below `least`, and none is above `most`.
fn are_ascending(least: usize, counts: &[usize], most: usize) -> bool
    ensures ascending { IsTrue result → Ascend least counts.now }
    ensures within { IsTrue result → AllByRecursion (λ count. count ≤ most) counts.now }
{
    match counts.split_first() {
        Some((count, later)) => {
            least <= *count && *count <= most && are_ascending(*count, later, most)
        }
        None => true,
    }
}

fn show(alloc: Global, answer: &mut Answer, entries: &Entries, counts: &[usize])
    requires ascending { Ascend 0 counts.now }
    requires within { AllByRecursion (λ count. count ≤ length entries.now) counts.now }
{
    match roots_of_fronts(alloc, entries, counts) {
        Ok(roots) => {
            answer.ok();
            for root in roots.as_slice() {
                answer.hex(root);
            }
        }
        Err(_) => answer.out_of_memory(),
    }
}
