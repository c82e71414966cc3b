//! The table over the place in a path and the intermediate: whether it leads to a trust anchor from there.

ghost use Rattle.std.specs.Prelude.{◌≡◌, map, false, IfOk};
ghost use Rattle.std.specs.List.{list_any};
ghost use Rattle.sig_x509.specs.PathSearch.{allows};
ghost use Rattle.sig_x509.specs.Rows.{leads_next, link_leads, row_of, rows};

use crate::links::Link;
use sig_base::OutOfMemory;
use std::alloc::Global;

/// How many intermediates a path has at most.
const LONGEST_PATH: u32 = 6;

/// Returns for each intermediate whether it leads to a trust anchor from the first place of a path. Fails only if out
/// of memory.
#[tactic(auto, using(crate::proofs::RowSteps::row_steps))]
pub(crate) fn first_row(alloc: Global, links: &[Link]) -> Result<Vec<bool>, OutOfMemory>
    ensures { IfOk result (λ v. v.items ≡ rows links.now 6 0) }
{
    let mut row = row_past(alloc, links)?;
    let mut others = LONGEST_PATH;
    'places: while others > 0 {
        others -= 1;
        row = row_before(alloc, others, &row, links)?;
    }
    Ok(row)
}

/// Returns the row after the last place of a path, where no intermediate can be. Fails only if out of memory.
fn row_past(alloc: Global, links: &[Link]) -> Result<Vec<bool>, OutOfMemory>
    ensures { IfOk result (λ v. v.items ≡ map (λ link. false) links.now) }
{
    let mut past = Vec::new(alloc);
    'links: for _ in links {
        past.push(false)?;
    }
    Ok(past)
}

/// Returns the row of the place with this number of others before it, by that of the next place. Fails only if out of
/// memory.
fn row_before(
    alloc: Global,
    others: u32,
    row: &[bool],
    links: &[Link],
) -> Result<Vec<bool>, OutOfMemory>
    ensures { IfOk result (λ v. v.items ≡ row_of others row.now links.now) }
{
    let mut before = Vec::new(alloc);
    'links: for link in links {
        before.push(link_leads(others, row, link))?;
    }
    Ok(before)
}

/// Whether the intermediate leads to a trust anchor from the place with this number of others before it; the row is
/// that of the next place.
fn link_leads(others: u32, row: &[bool], link: &Link) -> bool
    ensures { result ≡ link_leads others row.now link.now }
{
    allows(link.path_len, others) && (link.rooted || does_any_lead(row, link.signers.as_slice()))
}

/// Whether this number of others may come between an intermediate with this path length and the leaf.
pub(crate) fn allows(path_len: Option<u32>, others: u32) -> bool
    ensures { result ≡ allows path_len others }
{
    match path_len {
        Some(most) => others <= most,
        None => true,
    }
}

/// Whether the row holds of one of these intermediates.
fn does_any_lead(row: &[bool], places: &[usize]) -> bool
    ensures { result ≡ list_any (leads_next row.now) places.now }
{
    'places: for place in places {
        if leads_next(row, *place) {
            return true;
        }
    }
    false
}

/// Whether the row holds of the intermediate at the index.
pub(crate) fn leads_next(row: &[bool], place: usize) -> bool
    ensures { result ≡ leads_next row.now place }
{
    match row.get(place) {
        Some(leads) => *leads,
        None => false,
    }
}
