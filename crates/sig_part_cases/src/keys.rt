//! Keys of logs.
use sig_base::{Bytes, SigningScheme};
use sig_cases::Answer;
use sig_key::CosignVerificationKey;
use std::alloc::Global;

/// The key of this scheme and these bytes. Out of memory ends the program.
pub fn verification_key(
    alloc: Global,
    answer: &mut Answer,
    bytes: &[u8],
    scheme: &SigningScheme,
) -> CosignVerificationKey {
    match CosignVerificationKey::from_der(alloc, bytes, scheme) {
        Ok(key) => key,
        Err(_) => {
            answer.out_of_memory();
            CosignVerificationKey::ECDSA_P256_SHA256_ASN1(Bytes::from(Vec::new(alloc)))
        }
    }
}
