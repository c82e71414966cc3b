//! The certificate authorities of a trusted root.
//!
//! ```text
//! {"certificateAuthorities":[{"certificateCount":"2","start":{..},"state":"not begun"}],"certificateAuthorityCount":"1"}
//! ```
ghost use Rattle.std.specs.Prelude.{◌≡◌, [], IfOk, length, unwrap_or};
ghost use Rattle.sig_json.specs.Writing.{list_tree, members, members_into};
ghost use Rattle.sig_evidence.specs.Authorities.{authorities_rows, authority_rows, authority_tree};
ghost use Rattle.sig_json.specs.Tree.{document_tree};

use crate::logs::{state_name, with_range};
use sig_base::{Entries, OutOfMemory};
use sig_json::{Document, Object};
use sig_root::{SparseAuthority, TimeRange};
use sig_shown::{first, with_count};
use std::alloc::Global;

/// The greatest number of certificate authorities of a trusted root that are shown.
pub const MOST_AUTHORITIES: usize = 256;

/// The object with what the link `fulcio` looks at: `certificateAuthorities`, the first [`MOST_AUTHORITIES`] of the
/// trusted root in order, each with `certificateCount`, how many certificates it has, and of its range `state`, which
/// is `holds`, `ended` or `not begun` at this second since 1970, `start` and `end`; and `certificateAuthorityCount`,
/// how many there are. Fails only if out of memory.
pub fn with_authorities(
    object: Object,
    alloc: Global,
    authorities: &[SparseAuthority],
    now: &i64,
) -> Result<Object, OutOfMemory>
    ensures { IfOk result (λ made. members made
        ≡ members_into (members object) (authorities_rows now.now authorities.now)) }
{
    let shown = first(authorities, MOST_AUTHORITIES);
    let value = authorities_document(alloc, shown, now)?;
    let object = object.with(alloc, "certificateAuthorities", value)?;
    with_count(
        object,
        alloc,
        "certificateAuthorityCount",
        authorities.len() as u64,
    )
}

/// Authorities at a time.
fn authorities_document(
    alloc: Global,
    authorities: &[SparseAuthority],
    now: &i64,
) -> Result<Document, OutOfMemory>
    ensures { IfOk result (λ document. document_tree document ≡ list_tree (authority_tree now.now) authorities.now) }
{
    let mut list = Document::list(alloc);
    'authorities: for authority in authorities {
        list.push(authority_document(alloc, authority, now)?)?;
    }
    Ok(list)
}

/// An authority at a time.
#[tactic(auto, unfolding(crate::specs::Authorities::authority_tree))]
fn authority_document(
    alloc: Global,
    authority: &SparseAuthority,
    now: &i64,
) -> Result<Document, OutOfMemory>
    ensures { IfOk result (λ document. document_tree document ≡ authority_tree now.now authority.now) }
{
    let object = with_sparse(Object::new(alloc), alloc, authority, now)?;
    Ok(object.into_document())
}

/// The object with an authority, whose every member may be absent.
fn with_sparse(
    object: Object,
    alloc: Global,
    authority: &SparseAuthority,
    now: &i64,
) -> Result<Object, OutOfMemory>
    ensures { IfOk result (λ made. members made
        ≡ members_into (members object) (authority_rows now.now authority.now)) }
{
    match authority.get() {
        Some(authority) => with_authority(
            object,
            alloc,
            &authority.cert_chain,
            &authority.valid_for,
            now,
        ),
        None => with_authority(object, alloc, &None, &None, now),
    }
}

/// The object with how many certificates an authority has, and its range.
fn with_authority(
    object: Object,
    alloc: Global,
    chain: &Option<Entries>,
    valid_for: &Option<TimeRange>,
    now: &i64,
) -> Result<Object, OutOfMemory>
    ensures { IfOk result (λ made. members made ≡ members_into (members object)
        (authority_rows now.now (record { cert_chain = chain.now; valid_for = valid_for.now }))) }
{
    let count = certificate_count(chain);
    let object = with_count(object, alloc, "certificateCount", count as u64)?;
    let object = object.with_text(alloc, "state", state_name(valid_for, now))?;
    with_range(object, alloc, valid_for)
}

/// How many certificates there are.
fn certificate_count(chain: &Option<Entries>) -> usize
    ensures { result ≡ length (unwrap_or chain.now []) }
{
    match chain {
        Some(chain) => chain.len(),
        None => 0,
    }
}
