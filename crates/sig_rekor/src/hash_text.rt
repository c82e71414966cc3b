//! Hashes as Rekor's API writes them: 64 hexadecimal digits (RFC 4648 section 8).
//!
//! ```text
//! 395aa064aa4c29f7010acfe3f25db9485bbd4b91897b6ad7ad547639252b4d56
//! ```
ghost use Rattle.std.specs.Prelude.{◌≡◌};
ghost use Rattle.std.specs.Char.{is_ascii_hexdigit};
ghost use Rattle.std.specs.List.{list_all};
ghost use Rattle.sig_base.specs.Answers.{Answers};
ghost use Rattle.sig_base.specs.declared.error.SigstoreError.TheVariants.{OutOfMemory as Memory};
ghost use Rattle.sig_rekor.specs.HashText.{hash_in, hashes_from, is_hex};

use hex::FromHex;
use sig_base::{Entries, Hashes, Result, SigstoreError, UnexpectedKind};
use std::alloc::Global;

/// Returns the hash that 64 hexadecimal digits in either case are. It takes no memory.
///
/// Errors:
/// - `HexDecodeError`: the text is not an even number of hexadecimal digits;
/// - `UnexpectedError` of `other_length`: it does not have 32 bytes.
///
/// `laws::hash_texts` says when each comes.
#[tactic(auto, unfolding(crate::specs::HashText::hash_in))]
pub fn decode_hash(text: &[u8], other_length: UnexpectedKind) -> Result<[u8; 32]>
    ensures { result ≡ hash_in other_length text.now }
{
    if !is_hexadecimal(text) {
        return Err(SigstoreError::HexDecodeError);
    }
    match <[u8; 32] as FromHex>::from_hex(text) {
        Ok(hash) => Ok(hash),
        Err(_) => Err(SigstoreError::UnexpectedError(other_length)),
    }
}

/// Returns the hashes that the texts are, in their order.
///
/// Errors, for the first text that is not a hash, as for [`decode_hash`]: `HexDecodeError`, or `UnexpectedError` of
/// `HashLength` with the index of the text; `laws::hash_texts` says when each comes.
#[tactic(auto, using(sig_base::proofs::IndexedElements::each_left))]
pub fn decode_hashes(alloc: Global, texts: &Entries) -> Result<Hashes>
    ensures { Answers Memory (λ hashes. hashes) result (hashes_from 0 texts.now) }
{
    let mut hashes = Hashes::new(alloc);
    'hashes: for (index, text) in texts.as_slice().iter().enumerate() {
        let hash = decode_hash(text.as_slice(), UnexpectedKind::HashLength(index))?;
        hashes.push(hash)?;
    }
    Ok(hashes)
}

/// Whether the text is an even number of hexadecimal digits.
fn is_hexadecimal(text: &[u8]) -> bool
    ensures { result ≡ is_hex text.now }
{
    text.len() % 2 == 0 && are_digits(text)
}

/// Whether each letter is a hexadecimal digit.
fn are_digits(text: &[u8]) -> bool
    ensures { result ≡ list_all is_ascii_hexdigit text.now }
{
    text.iter().all(|letter| letter.is_ascii_hexdigit())
}
