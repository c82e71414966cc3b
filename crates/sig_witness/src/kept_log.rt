//! `KeptLog`: what a witness keeps of one log.

use sig_audit::Chain;
use sig_key::CosignVerificationKey;

/// What is kept of a log.
#[derive(Drop)]
pub struct KeptLog {
    /// The log's key.
    pub key: CosignVerificationKey,
    /// The log's tree heads, the oldest first. The last one is the kept head.
    pub chain: Chain,
}
