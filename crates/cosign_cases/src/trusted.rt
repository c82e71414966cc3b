//! What a caller trusts, read from arguments.

use crate::keys::keys;
use sig_cases::{Answer, Arguments};
use sig_key::VerificationKeys;
use sig_part_cases::pool;
use sig_x509::CertificatePool;

/// The next arguments as keys, or `none`.
pub(crate) fn keys_if_any(arguments: &mut Arguments<'_>) -> Option<VerificationKeys> {
    if arguments.word() == "keys" {
        Some(keys(arguments))
    } else {
        None
    }
}

/// The next arguments as the trust anchors and the intermediates of a pool, or `none`.
pub(crate) fn pool_if_any(
    arguments: &mut Arguments<'_>,
    answer: &mut Answer,
) -> Option<CertificatePool> {
    if arguments.word() == "pool" {
        pool(arguments, answer)
    } else {
        None
    }
}
