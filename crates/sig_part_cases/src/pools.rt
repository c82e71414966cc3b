//! Pools of certificates.
use sig_base::PoolError;
use sig_cases::{Answer, Arguments};
use sig_x509::CertificatePool;

/// The pool of the next two arguments, its trust anchors and its intermediates. `None`, and a `bad line`, if it cannot
/// be made.
pub fn pool(arguments: &mut Arguments<'_>, answer: &mut Answer) -> Option<CertificatePool> {
    let roots = arguments.entries();
    let intermediates = arguments.entries();
    match CertificatePool::from_certificates(arguments.alloc(), &roots, &intermediates) {
        Ok(pool) => Some(pool),
        Err(PoolError::OutOfMemory) => {
            answer.out_of_memory();
            None
        }
        Err(_) => {
            arguments.refuse();
            None
        }
    }
}
