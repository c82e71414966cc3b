//! A checker that accepts every signature.
ghost use Rattle.std.specs.Prelude.{true};

use sig_base::{SignatureChecker, VerifyScheme};

/// Accepts every signature, so that a measured call runs to its end.
#[derive(Drop)]
pub(crate) struct Accepting;

impl SignatureChecker for Accepting {
    ghost spki_accepts = { λ checker scheme spki message signature. true };

    ghost prehash_accepts = { λ checker scheme spki digest signature. true };

    ghost point_accepts = { λ checker point message signature. true };

    ghost cert_accepts = { λ checker issuer algorithm tbs signature. true };

    fn verify_spki(
        &self,
        _scheme: VerifyScheme,
        _spki: &[u8],
        _message: &[u8],
        _signature: &[u8],
    ) -> bool {
        true
    }

    fn verify_spki_prehash(
        &self,
        _scheme: VerifyScheme,
        _spki: &[u8],
        _digest: &[u8],
        _signature: &[u8],
    ) -> bool {
        true
    }

    fn verify_p256_point(&self, _point: &[u8], _message: &[u8], _signature: &[u8]) -> bool {
        true
    }

    fn verify_cert_signature(
        &self,
        _issuer_spki: &[u8],
        _algorithm: &[u8],
        _tbs: &[u8],
        _signature: &[u8],
    ) -> bool {
        true
    }
}
