//! Certificates, read again and again.

use sig_certificate::Certificate;
use std::alloc::Global;

/// Returns how many extensions were read in all; `None` if the bytes are not a certificate.
pub fn extensions_of(alloc: Global, der: &[u8], times: u64) -> Option<u64> {
    let mut extensions = 0u64;
    for _ in 0..times {
        let Ok(certificate) = Certificate::try_from_der(alloc, der) else {
            return None;
        };
        extensions = extensions.saturating_add(certificate.extension_count() as u64);
    }
    Some(extensions)
}
