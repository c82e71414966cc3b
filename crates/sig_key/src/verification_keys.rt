//! `VerificationKeys`: keys by their names.
ghost use Rattle.std.specs.Prelude.{◌≡◌, [], OnOk, OnErr, IsOkUnless};
ghost use Rattle.std.specs.Option.{option_copied};
ghost use Rattle.sig_base.specs.ByText.{text_lookup, text_put, KeysAscend};
ghost use Rattle.sig_base.specs.declared.error.SigstoreError.TheVariants.{OutOfMemory as Memory};

use crate::verification_key::CosignVerificationKey;
use sig_base::{ByText, Result};
use std::alloc::Global;
use std::marker::Model;

/// A map from texts to keys. Contracts see the list of its entries, each text once, in byte order of the texts.
#[derive(Drop)]
pub struct VerificationKeys {
    keys: ByText<CosignVerificationKey>,
}

impl Model for VerificationKeys {
    ghost use Rattle.std.specs.Prelude.{ℕ, List};
    ghost use Rattle.sig_key.specs.declared.verification_key.CosignVerificationKey.{CosignVerificationKey as key_type};

    ghost Value = { List (List ℕ × key_type) };

    ghost view = { λ m. m.keys };
}

impl VerificationKeys {
    /// Returns a map without entries. It takes no memory.
    pub fn new(alloc: Global) -> VerificationKeys
        ensures { result ≡ [] }
    {
        VerificationKeys {
            keys: ByText::new(alloc),
        }
    }

    /// Returns the key of a text, or `None` if the text has none.
    pub fn get(&self, key: &str) -> Option<&CosignVerificationKey>
        ensures value { option_copied result ≡ text_lookup key.now self.now }
        ensures ordered { KeysAscend self.now }
    {
        self.keys.get(key)
    }

    /// Gives a text this key, in place of the one that it may have. Fails only if out of memory; the map is then
    /// unchanged.
    pub fn insert(&mut self, key: &str, value: CosignVerificationKey) -> Result<()>
        ensures ok { OnOk result (self.new ≡ text_put key.now value self.old) }
        ensures err { OnErr result (self.new ≡ self.old) }
        ensures only_memory { IsOkUnless result Memory }
    {
        self.keys.insert(key, value)?;
        Ok(())
    }
}
