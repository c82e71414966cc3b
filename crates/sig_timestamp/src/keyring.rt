//! `Keyring`: the keys of Certificate Transparency logs by their ids.

ghost use Rattle.std.specs.Prelude.{◌≡◌, ◌↔◌, ℕ, true, false, option_map, List, None, Ok, IfOk, IfErr, IsErrOf, OnOk};
ghost use Rattle.std.specs.Option.{option_or};
ghost use Rattle.sig_timestamp.specs.Keyring.{key_of, point_if, vouch};
ghost use Rattle.sig_timestamp.specs.RingKey.{point_at};
ghost use Rattle.sig_timestamp.specs.Vouched.{IsSignedUnder};

use crate::key::Key;
use crate::keyring_error::KeyringError;
use sig_base::{Entries, SignatureChecker};
use std::alloc::Global;
use std::collections::BTreeMap;
use std::marker::Model;

/// The keys of Certificate Transparency logs, each found by its id without going over the others (RFC 6962 section
/// 3.2). Contracts see the list of its entries; `point_at` is the point that it has for an id.
#[derive(Drop)]
pub struct Keyring {
    keys: BTreeMap<[u8; 32], Key>,
}

impl Model for Keyring {
    ghost use Rattle.std.specs.Prelude.{ℕ, List};
    ghost use Rattle.sig_timestamp.specs.RingKey.{RingKey};

    ghost Value = { List (List ℕ × RingKey) };

    ghost view = { λ r. r.keys.entries };
}

impl Keyring {
    /// Returns the keys of these SPKIs (DER). One that is not a point of P-256 is left out; of two with one id the last
    /// is kept. Fails only if out of memory.
    pub fn new(alloc: Global, keys: &Entries) -> Result<Keyring, KeyringError>
        ensures keys { IfOk result (λ r. (id : List ℕ) → point_at r id ≡ key_of keys.now id) }
        ensures err { IfErr result (λ e. e ≡ KeyringError.OutOfMemory) }
    {
        let mut ring = Keyring {
            keys: BTreeMap::new(alloc),
        };
        for spki in keys.as_slice() {
            ring.add(alloc, spki.as_slice())?;
        }
        Ok(ring)
    }

    /// Adds the key of an SPKI, which replaces one of the same id, or leaves it out.
    fn add(&mut self, alloc: Global, spki: &[u8]) -> Result<(), KeyringError>
        ensures ok { OnOk result ((id : List ℕ) → point_at self.new id ≡ option_or (point_if id spki.now)
            (point_at self.old id)) }
        ensures err { IfErr result (λ e. e ≡ KeyringError.OutOfMemory) }
    {
        match Key::new(alloc, spki) {
            Ok(key) => {
                self.keys.insert(key.id, key)?;
                Ok(())
            }
            Err(KeyringError::OutOfMemory) => Err(KeyringError::OutOfMemory),
            Err(_) => Ok(()),
        }
    }

    /// Returns the point of P-256 of the key of this id, or `None` if the keyring has no such key.
    pub fn point(&self, key_id: &[u8; 32]) -> Option<&[u8]>
        ensures { option_map (λ p. p.now) result ≡ point_at self.now key_id.now }
    {
        match self.key(key_id) {
            Some(key) => Some(key.point()),
            None => None,
        }
    }

    fn key(&self, id: &[u8; 32]) -> Option<&Key>
        ensures { option_map (λ k. k.now.point) result ≡ point_at self.now id.now }
    {
        self.keys.get(id)
    }

    /// Whether the key of this id accepts the signature over the message. Takes no memory. Errors:
    ///
    /// - `KeyNotFound` if and only if the keyring has no such key;
    /// - `VerificationFailed` if and only if it has one, and the checker does not accept the signature under its
    ///   point.
    pub fn verify<C: SignatureChecker>(
        &self,
        key_id: &[u8; 32],
        signature: &[u8],
        message: &[u8],
        checker: &C,
    ) -> Result<(), KeyringError>
        ensures accepted { (result ≡ Ok tt)
            ↔ IsSignedUnder (C.point_accepts checker.now) self.now key_id.now message.now signature.now true }
        ensures key_not_found { IsErrOf result KeyringError.KeyNotFound ↔ (point_at self.now key_id.now ≡ None) }
        ensures verification_failed { IsErrOf result KeyringError.VerificationFailed
            ↔ IsSignedUnder (C.point_accepts checker.now) self.now key_id.now message.now signature.now false }
        // The same in one equation.
        ensures exact { result ≡ vouch (C.point_accepts checker.now)
            (point_at self.now key_id.now) message.now signature.now }
    {
        self.check(key_id, signature, message, checker)
    }

    fn check<C: SignatureChecker>(
        &self,
        key_id: &[u8; 32],
        signature: &[u8],
        message: &[u8],
        checker: &C,
    ) -> Result<(), KeyringError>
        ensures { result ≡ vouch (C.point_accepts checker.now)
            (point_at self.now key_id.now) message.now signature.now }
    {
        match self.key(key_id) {
            None => Err(KeyringError::KeyNotFound),
            Some(key) => {
                if key.verify(message, signature, checker) {
                    Ok(())
                } else {
                    Err(KeyringError::VerificationFailed)
                }
            }
        }
    }
}
