//! Audits, and audited heads and watches beside a list. The extractors are called where their conditions hold, as the
//! results before them say. Since no collision of SHA-256 is known, each of them returns `None`.
ghost use Rattle.std.specs.List.{AllByRecursion};
ghost use Rattle.sig_audit.specs.Audited.{chain_of, IsWatched};
ghost use Rattle.sig_audit.specs.Chained.{AreChained};
ghost use Rattle.sig_audit.specs.Fronts.{EndsInList};

use crate::parts::{heads, key, watches};
use sig_audit::{
    Heads, Listing, WatchList, audit, audit_collision, chain_collision, chain_of, compare_list,
};
use sig_base::Entries;
use sig_cases::{Answer, Arguments};
use std::alloc::Global;

/// `audit KEY HEADS WATCHES ROWS`: the size of the last head, under this key and a checker of these rows.
pub(crate) fn audited(arguments: &mut Arguments<'_>, answer: &mut Answer) {
    let key = key(arguments, answer);
    let heads = heads(arguments, answer);
    let watched = watches(arguments, answer);
    let checker = arguments.checker();
    match audit(arguments.alloc(), &heads, &watched, &key, &checker) {
        Ok(size) => {
            answer.ok();
            answer.value(&size);
        }
        Err(error) => answer.error(error),
    }
    drop(watched);
    drop(heads);
    drop(key);
}

/// `list KEY HEADS WATCHES ENTRIES ROWS`: what the list is beside the heads and watches, if their audit is Ok; and if
/// it is the last head's, what the extractors return for the heads and watches, and for only the heads.
pub(crate) fn listed(arguments: &mut Arguments<'_>, answer: &mut Answer) {
    let key = key(arguments, answer);
    let heads = heads(arguments, answer);
    let watched = watches(arguments, answer);
    let entries = arguments.entries();
    let checker = arguments.checker();
    match audit(arguments.alloc(), &heads, &watched, &key, &checker) {
        Ok(_) => compare(arguments.alloc(), answer, &heads, &watched, &entries),
        Err(error) => answer.error(error),
    }
    drop(watched);
    drop(heads);
    drop(key);
}

fn compare(
    alloc: Global,
    answer: &mut Answer,
    heads: &Heads,
    watched: &WatchList,
    entries: &Entries,
)
    requires chained { AreChained (chain_of heads.now) }
    requires included { AllByRecursion (IsWatched (chain_of heads.now)) watched.now }
{
    answer.ok();
    match compare_list(alloc, heads, watched, entries) {
        Ok(Listing::Other) => answer.value(&"other"),
        Ok(Listing::Listed) => {
            answer.value(&"listed");
            extract(alloc, answer, heads, watched, entries);
        }
        Ok(Listing::Collided(found)) => {
            answer.value(&"collided");
            drop(found);
            extract(alloc, answer, heads, watched, entries);
        }
        Err(_) => answer.out_of_memory(),
    }
}

/// Adds what both extractors return.
fn extract(
    alloc: Global,
    answer: &mut Answer,
    heads: &Heads,
    watched: &WatchList,
    entries: &Entries,
)
    requires chained { AreChained (chain_of heads.now) }
    requires included { AllByRecursion (IsWatched (chain_of heads.now)) watched.now }
    requires latest { EndsInList entries.now (chain_of heads.now) }
{
    answer.collision(audit_collision(alloc, heads, watched, entries));
    match chain_of(alloc, heads.as_slice()) {
        Ok(chain) => {
            answer.collision(chain_collision(alloc, &chain, entries));
            drop(chain);
        }
        Err(_) => answer.out_of_memory(),
    }
}
