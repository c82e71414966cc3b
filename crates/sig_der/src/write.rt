//! Writing elements: X.690 sections 8.1 and 10.1.

ghost use Rattle.std.specs.Prelude.{◌≡◌, ◌≢◌, ◌%◌, ◌^◌, ◌<◌, ◌≤◌, ◌++◌, ◌↔◌, length, IfOk, OnOk, IsErrOf};
ghost use Rattle.sig_der.specs.Element.{IsElement, spelled_length};
ghost use Rattle.sig_der.specs.declared.write.DerWriteError.TheVariants.{OutOfMemory as Memory};

use sig_base::{Bytes, OutOfMemory};
use std::alloc::{AllocError, Global};
use thiserror::Error;

/// Why an element was not written.
#[derive(Clone, Copy, Debug, PartialEq, Eq, Error)]
pub enum DerWriteError {
    /// The content has 2^32 bytes or more, which no length of four octets holds.
    #[error("TooLong")]
    TooLong,
    /// Memory ran out.
    #[error("OutOfMemory")]
    OutOfMemory,
}

impl From<OutOfMemory> for DerWriteError {
    ghost from_gives = { λ _ e. e ≡ Memory };

    fn from(_error: OutOfMemory) -> DerWriteError {
        DerWriteError::OutOfMemory
    }
}

/// The least number of bytes that has no length of four octets.
const CONTENT_LIMIT: usize = 4_294_967_296;

/// Writes the element of this tag and of this content, which is known to be short enough. Fails only if memory runs
/// out.
///
/// The low five bits of the tag are not all ones.
pub fn write_short(alloc: Global, tag: u8, content: &[u8]) -> Result<Bytes, OutOfMemory>
    requires one_byte { tag % 32 ≢ 31 }
    requires short { length content.now < 2 ^ 32 }
    ensures { IfOk result (λ t. IsElement t tag content.now) }
{
    let mut text = Vec::new(alloc);
    text.push(tag)?;
    push_length(&mut text, content.len())?;
    text.extend_from_slice(content)?;
    Ok(Bytes::from(text))
}

/// Writes the element of this tag and of this content. Fails with `TooLong` if and only if the content has 2^32 bytes
/// or more, and with `OutOfMemory`.
///
/// The low five bits of the tag are not all ones.
pub fn write_element(alloc: Global, tag: u8, content: &[u8]) -> Result<Bytes, DerWriteError>
    requires { tag % 32 ≢ 31 }
    ensures ok { IfOk result (λ t. IsElement t tag content.now) }
    ensures too_long { IsErrOf result DerWriteError.TooLong ↔ (2 ^ 32 ≤ length content.now) }
{
    if content.len() >= CONTENT_LIMIT {
        return Err(DerWriteError::TooLong);
    }
    Ok(write_short(alloc, tag, content)?)
}

fn push_length(out: &mut Vec<u8>, len: usize) -> Result<(), AllocError>
    requires { len < 2 ^ 32 }
    ensures { OnOk result (out.new.items ≡ out.old.items ++ spelled_length len) }
{
    if len < 128 {
        out.extend_from_slice(&[len as u8])
    } else if len < 256 {
        out.extend_from_slice(&[129, len as u8])
    } else if len < 65536 {
        out.extend_from_slice(&[130, (len / 256) as u8, (len % 256) as u8])
    } else if len < 16777216 {
        out.extend_from_slice(&[
            131,
            (len / 65536) as u8,
            (len / 256 % 256) as u8,
            (len % 256) as u8,
        ])
    } else {
        out.extend_from_slice(&[
            132,
            (len / 16777216) as u8,
            (len / 65536 % 256) as u8,
            (len / 256 % 256) as u8,
            (len % 256) as u8,
        ])
    }
}
