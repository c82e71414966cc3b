//! The identities that rules ask for, by the issuer that each comes with. The issuer of a certificate is looked up
//! once, and then each of its names among those that are asked for with it.

ghost use Rattle.std.specs.Prelude.{◌≡◌, ◌&&◌, ◌||◌, ℕ, List, Bool, None, not, OnOk, option_map, map};
ghost use Rattle.std.specs.BTreeMap.{get_by};
ghost use Rattle.std.specs.Cmp.Lexicographic.{slice_cmp};
ghost use Rattle.std.specs.Ordering.{nat_cmp};
ghost use Rattle.sig_policy.specs.AskedTexts.{one_named, one_passes};
ghost use Rattle.sig_policy.specs.Identities.{is_among_identities};
ghost use Rattle.sig_policy.specs.Single.{is_asked_text};

use crate::identity_set::IdentitySet;
use crate::text_sets::{add_text, are_among, has_one, is_said};
use sig_base::OutOfMemory;
use std::alloc::Global;
use std::collections::{BTreeMap, BTreeSet};

/// Adds an identity that is asked for with this issuer. Fails only if out of memory.
pub(crate) fn add_identity<'a>(
    alloc: Global,
    identities: &mut BTreeMap<&'a str, BTreeSet<&'a str>>,
    issuer: &'a str,
    identity: &'a str,
) -> Result<(), OutOfMemory>
    ensures { OnOk result ((test : List ℕ → List ℕ → Bool) → one_named test identities.new.entries
        ≡ (test issuer.now identity.now || one_named test identities.old.entries)) }
{
    let mut names = take_names(alloc, identities, issuer);
    add_text(&mut names, identity)?;
    identities.insert(issuer, names)?;
    Ok(())
}

/// Takes out the identities that are asked for with this issuer.
fn take_names<'a>(
    alloc: Global,
    identities: &mut BTreeMap<&'a str, BTreeSet<&'a str>>,
    issuer: &str,
) -> BTreeSet<&'a str>
    ensures taken { (test : List ℕ → List ℕ → Bool) → one_named test identities.old.entries
        ≡ (one_passes (test issuer.now) result.keys || one_named test identities.new.entries) }
    ensures gone { get_by (λ k. slice_cmp nat_cmp issuer.now k.now) identities.new ≡ None }
{
    match identities.remove(issuer) {
        Some(names) => names,
        None => BTreeSet::new(alloc),
    }
}

/// Whether the certificate names the issuer, and one of its identities is asked for with it.
pub(crate) fn has_named(
    asked: &BTreeMap<&str, BTreeSet<&str>>,
    issuer: Option<&str>,
    names: &IdentitySet<'_>,
) -> bool
    ensures { result ≡ one_named (λ i q. is_asked_text i (option_map (λ t. t.now) issuer.entry)
        && is_among_identities q (option_map (λ v. map (λ t. t.now) v.items) names.now.texts)) asked.now.entries }
{
    let Some(issuer) = issuer else {
        return false;
    };
    let Some(texts) = &names.texts else {
        return false;
    };
    if asked.len() == 0 {
        return false;
    }
    match asked.get(issuer) {
        Some(identities) => has_one(identities, texts.as_slice()),
        None => false,
    }
}

/// Whether each required issuer is the certificate's, and each required identity is among its identities.
pub(crate) fn are_named(
    asked: &BTreeMap<&str, BTreeSet<&str>>,
    issuer: Option<&str>,
    names: &IdentitySet<'_>,
) -> bool
    ensures { result ≡ not (one_named (λ i q. not (is_asked_text i (option_map (λ t. t.now) issuer.entry)
        && is_among_identities q (option_map (λ v. map (λ t. t.now) v.items) names.now.texts))) asked.now.entries) }
{
    for (asked_issuer, identities) in asked {
        if !are_among(identities, is_said(*asked_issuer, issuer), names) {
            return false;
        }
    }
    true
}
