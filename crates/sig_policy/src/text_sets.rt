//! Sets of texts that rules ask for, and what a certificate says of them. A set has each text once, so that whether
//! each is the one that the certificate says is known after at most two texts.

ghost use Rattle.std.specs.Prelude.{◌≡◌, ◌&&◌, ℕ, List, Bool, not, ◌||◌, OnOk, option_map, map};
ghost use Rattle.std.specs.List.{list_any};
ghost use Rattle.std.specs.Str.{bytes_eq};
ghost use Rattle.sig_policy.specs.AskedTexts.{one_passes};
ghost use Rattle.sig_policy.specs.Identities.{is_among_identities};
ghost use Rattle.sig_policy.specs.Single.{is_asked_text};

use crate::identity_set::IdentitySet;
use sig_base::OutOfMemory;
use std::collections::BTreeSet;

/// Adds a text. Fails only if out of memory.
pub(crate) fn add_text<'a>(texts: &mut BTreeSet<&'a str>, text: &'a str) -> Result<(), OutOfMemory>
    ensures { OnOk result ((test : List ℕ → Bool)
        → one_passes test texts.new.keys ≡ (test text.now || one_passes test texts.old.keys)) }
{
    texts.insert(text)?;
    Ok(())
}

/// Whether the certificate has the text, and it is the required one.
pub(crate) fn is_said(asked: &str, said: Option<&str>) -> bool
    ensures { result ≡ is_asked_text asked.now (option_map (λ t. t.now) said.entry) }
{
    match said {
        Some(text) => text == asked,
        None => false,
    }
}

/// Whether the certificate has the text, and it is one of those that are asked for.
pub(crate) fn has_said(asked: &BTreeSet<&str>, said: Option<&str>) -> bool
    ensures { result ≡ one_passes (λ q. is_asked_text q (option_map (λ t. t.now) said.entry)) asked.now.keys }
{
    match said {
        Some(text) => is_asked(asked, text),
        None => false,
    }
}

/// Whether the text is asked for.
fn is_asked(asked: &BTreeSet<&str>, text: &str) -> bool
    ensures { result ≡ one_passes (λ q. bytes_eq text.now q) asked.now.keys }
{
    asked.contains(text)
}

/// Whether each required text is the one that the certificate has.
pub(crate) fn are_said(asked: &BTreeSet<&str>, said: Option<&str>) -> bool
    ensures { result ≡ not (one_passes (λ q. not (is_asked_text q (option_map (λ t. t.now) said.entry)))
        asked.now.keys) }
{
    for text in asked {
        if !is_said(*text, said) {
            return false;
        }
    }
    true
}

/// Whether one of the texts is asked for.
pub(crate) fn has_one(asked: &BTreeSet<&str>, texts: &[&str]) -> bool
    ensures { result ≡ list_any (λ t. one_passes (λ q. bytes_eq t.now q) asked.now.keys) texts.now }
{
    texts.iter().any(|text| is_asked(asked, *text))
}

/// Whether each text that is asked for is among the identities; if there is one, `issued` has to be true as well.
pub(crate) fn are_among(asked: &BTreeSet<&str>, issued: bool, names: &IdentitySet<'_>) -> bool
    ensures { result ≡ not (one_passes (λ q. not (issued && is_among_identities q
        (option_map (λ v. map (λ t. t.now) v.items) names.now.texts))) asked.now.keys) }
{
    for identity in asked {
        if !(issued && names.has(*identity)) {
            return false;
        }
    }
    true
}
