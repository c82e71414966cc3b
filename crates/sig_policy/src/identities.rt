//! The identities that a subject alternative name gives: its emails, its URIs, and its other names of Fulcio's kind.

ghost use Rattle.std.specs.Prelude.{◌≡◌, option_map, map, IfOk};
ghost use Rattle.std.specs.List.{filter_map};
ghost use Rattle.sig_certificate.specs.BorrowedNames.{borrowed_name, names_left};
ghost use Rattle.sig_policy.specs.Identities.{identity_of, identities_of};

use crate::utf8::utf8_text;
use sig_base::OutOfMemory;
use sig_certificate::{AlternativeNames, GeneralName, alternative_names};
use sig_der::oid;
use std::alloc::Global;

/// Returns the identities that a subject alternative name of this value gives, in order. `None` if it is malformed.
/// Fails only if out of memory.
pub(crate) fn identities_of(alloc: Global, value: &[u8]) -> Result<Option<Vec<&str>>, OutOfMemory>
    ensures { IfOk result (λ o. option_map (λ v. map (λ t. t.now) v.items) o ≡ identities_of value.now) }
{
    match alternative_names(value) {
        None => Ok(None),
        Some(names) => Ok(Some(given(alloc, names)?)),
    }
}

/// Returns the identities that the names give, in order. Fails only if out of memory.
fn given(alloc: Global, names: AlternativeNames<'_>) -> Result<Vec<&str>, OutOfMemory>
    ensures { IfOk result (λ v. map (λ t. t.now) v.items ≡ filter_map identity_of (names_left names.entry)) }
{
    let mut found = Vec::new(alloc);
    for name in names {
        if let Some(text) = identity_of(name) {
            found.push(text)?;
        }
    }
    Ok(found)
}

/// Returns the identity that the name gives, if it gives one.
fn identity_of(name: GeneralName<'_>) -> Option<&str>
    ensures { option_map (λ t. t.now) result ≡ identity_of (borrowed_name name.entry) }
{
    match name {
        GeneralName::Email(text) => utf8_text(text),
        GeneralName::Uri(text) => utf8_text(text),
        GeneralName::Other(kind, value) => {
            if kind == oid::FULCIO_OTHER_NAME {
                utf8_text(value)
            } else {
                None
            }
        }
        GeneralName::Unread => None,
    }
}
