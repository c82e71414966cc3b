//! The keys that signatures were asked about under.
ghost use Rattle.std.specs.Prelude.{◌≡◌, IfOk, IfSome, IsSome, option_map};
ghost use Rattle.std.specs.Result.{result_ok};
ghost use Rattle.sig_key.specs.Kind.{key_kind, kind_answer};
ghost use Rattle.sig_verify.specs.LogEntry.{log_key_answer};

use sig_base::{Bytes, KeyMap, OutOfMemory, Text, VerifyScheme};
use sig_key::{KeyKind, key_kind};
use std::alloc::Global;

/// A key, and the scheme that signatures are checked with it under.
#[derive(Clone, Copy)]
pub(crate) struct AskedKey<'a> {
    pub(crate) scheme: VerifyScheme,
    /// Its SubjectPublicKeyInfo (DER).
    pub(crate) spki: &'a [u8],
}

/// The key of the log of this id; `None` if it is absent or does not have a scheme. Fails only if out of memory.
pub(crate) fn log_key<'a>(
    alloc: Global,
    keys: &'a KeyMap,
    id: &Option<Bytes>,
) -> Result<Option<AskedKey<'a>>, OutOfMemory>
    ensures key { IfOk result (λ found. option_map (λ key. (key.scheme, key.spki.now)) found
        ≡ result_ok (log_key_answer keys.now id.now)) }
    ensures named { IfOk result (λ found. IfSome found (λ _. IsSome id.now)) }
{
    let Some(id) = id else {
        return Ok(None);
    };
    let name = Text::from(hex::encode(alloc, id.as_slice())?);
    match keys.get(name.as_str()) {
        Some(spki) => Ok(key_of(spki)),
        None => Ok(None),
    }
}

/// The key that these bytes are; `None` if no signature is checked with it.
pub(crate) fn key_of(spki: &[u8]) -> Option<AskedKey<'_>>
    ensures { option_map (λ key. (key.scheme, key.spki.now)) result ≡ result_ok (kind_answer spki.now (key_kind spki.now)) }
{
    match key_kind(spki) {
        KeyKind::Scheme(scheme) => Some(AskedKey { scheme, spki }),
        KeyKind::Unsupported | KeyKind::NoKeyInfo => None,
    }
}
