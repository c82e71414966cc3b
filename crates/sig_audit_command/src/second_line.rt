//! The second line of a reply of `audit`: what the log's own entries say of the heads and of the watched entries.
//!
//! ```text
//! prefixes 2
//! other list
//! collision 00ab.. 00cd..
//! ```
ghost use Rattle.std.specs.Prelude.{◌≡◌, ℕ, IfOk, List};
ghost use Rattle.std.specs.List.{AllByRecursion};
ghost use Rattle.sig_audit.specs.Audited.{IsWatched, chain_of};
ghost use Rattle.sig_audit.specs.Chained.{AreChained};
ghost use Rattle.sig_audit.specs.Listing.{IsListing};
ghost use Rattle.sig_audit.specs.declared.heads.Watch.{Watch as watch_type};
ghost use Rattle.sig_audit_command.specs.Line.{IsListLine, IsListLineOf, prefixes_line};

use sig_audit::{Heads, Listing, WatchList, compare_list};
use sig_base::{Entries, OutOfMemory, Text};
use sig_reply::{collision_text, other_text};
use std::alloc::Global;

/// Returns the second line of a reply to audited heads and watched entries, empty if the request does not give entries:
///
/// - `other list` if the entries are not those of the last head: their number is not its size, or their RFC 6962 root
///   is not its root;
/// - `prefixes K` if they are, each of the K heads has the size and the root of the first entries, and each watched
///   entry is that at its index;
/// - `collision HEX HEX` if they are, and not all of these are: two different byte strings of equal SHA-256, in lower
///   case.
///
/// Fails only if out of memory.
pub fn list_line(
    alloc: Global,
    entries: &Option<Entries>,
    heads: &Heads,
    watched: &WatchList,
) -> Result<Text, OutOfMemory>
    requires chained { AreChained (chain_of heads.now) }
    requires included { AllByRecursion (IsWatched (chain_of heads.now)) watched.now }
    ensures { IfOk result (IsListLine entries.now heads.now watched.now) }
{
    match entries {
        Some(entries) => line_of(alloc, entries, heads, watched),
        None => Text::copy_of(alloc, ""),
    }
}

/// The line of a list of entries, whose tree is hashed once.
fn line_of(
    alloc: Global,
    entries: &Entries,
    heads: &Heads,
    watched: &WatchList,
) -> Result<Text, OutOfMemory>
    requires chained { AreChained (chain_of heads.now) }
    requires included { AllByRecursion (IsWatched (chain_of heads.now)) watched.now }
    ensures { IfOk result (IsListLineOf entries.now heads.now watched.now) }
{
    let listing = compare_list(alloc, heads, watched, entries)?;
    let line = listing_text(alloc, heads, &listing);
    drop(listing);
    line
}

/// The line of what the list is.
fn listing_text(alloc: Global, heads: &Heads, listing: &Listing) -> Result<Text, OutOfMemory>
    ensures { (entries : List (List ℕ)) (watched : List watch_type)
        → IsListing entries (chain_of heads.now) watched listing.now
        → IfOk result (IsListLineOf entries heads.now watched) }
{
    match listing {
        Listing::Other => other_text(alloc),
        Listing::Listed => prefixes_text(alloc, heads.len()),
        Listing::Collided(found) => collision_text(alloc, found),
    }
}

/// `prefixes K`.
fn prefixes_text(alloc: Global, count: usize) -> Result<Text, OutOfMemory>
    ensures { IfOk result (λ line. line ≡ prefixes_line count) }
{
    Ok(Text::from(format!(in alloc; "prefixes {count}\n")?))
}
