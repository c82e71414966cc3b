//! The identities that a certificate names, each found without going over the others.

ghost use Rattle.std.specs.Prelude.{◌≡◌, ℕ, List, option_map, map, IfOk};
ghost use Rattle.sig_policy.specs.Identities.{is_among_identities};
ghost use Rattle.sig_policy.specs.IdentitySet.{has_text};

use sig_base::OutOfMemory;
use std::alloc::Global;
use std::collections::BTreeSet;

/// The identities, in order and as a set. They are absent if the certificate does not have exactly one well-formed
/// subject alternative name; the set is then empty.
#[derive(Drop)]
pub(crate) struct IdentitySet<'a> {
    pub(crate) texts: Option<Vec<&'a str>>,
    set: BTreeSet<&'a str>,
    ghost same: { (identity : List ℕ) → has_text set.keys identity
        ≡ is_among_identities identity (option_map (λ v. map (λ t. t.now) v.items) texts) },
}

impl<'a> IdentitySet<'a> {
    /// Returns these identities. Fails only if out of memory.
    pub(crate) fn new(
        alloc: Global,
        texts: Option<Vec<&'a str>>,
    ) -> Result<IdentitySet<'a>, OutOfMemory>
        ensures { IfOk result (λ s. s.texts ≡ texts.entry) }
    {
        let set = match &texts {
            None => BTreeSet::new(alloc),
            Some(texts) => set_of(alloc, texts.as_slice())?,
        };
        Ok(IdentitySet { texts, set })
    }

    /// Whether the identities are there, and this is one of them.
    pub(crate) fn has(&self, identity: &str) -> bool
        ensures { result ≡ is_among_identities identity.now
            (option_map (λ v. map (λ t. t.now) v.items) self.now.texts) }
    {
        has(&self.set, identity)
    }
}

/// Returns the set of these texts. Fails only if out of memory.
fn set_of<'a>(alloc: Global, texts: &[&'a str]) -> Result<BTreeSet<&'a str>, OutOfMemory>
    ensures { IfOk result (λ s. (q : List ℕ) → has_text s.keys q ≡ has_text texts.now q) }
{
    let mut set = BTreeSet::new(alloc);
    for text in texts {
        set.insert(*text)?;
    }
    Ok(set)
}

/// Whether the text is in the set.
fn has(set: &BTreeSet<&str>, text: &str) -> bool
    ensures { result ≡ has_text set.now.keys text.now }
{
    set.contains(text)
}
