//! A certificate as text: RFC 7468 section 5.1.

ghost use Rattle.std.specs.Prelude.{◌≡◌, [], ◌∷◌, ◌++◌, IfOk, OnOk, string_bytes};
ghost use Rattle.base64.specs.Engines.{standard};
ghost use Rattle.base64.specs.GeneralPurpose.{encode_of};
ghost use Rattle.sig_certificate.specs.Pem.{lines_of, pem_of};

use base64::engine::general_purpose::STANDARD;
use sig_base::{OutOfMemory, Text};
use std::alloc::{AllocError, Global};

/// The number of bytes that a line of 64 characters holds.
const LINE: usize = 48;

/// Returns the text of the certificate of these bytes: a line `-----BEGIN CERTIFICATE-----`, the standard base64 of
/// the bytes in lines of 64 characters, and a line `-----END CERTIFICATE-----`, each ended by a newline. Fails only if
/// memory runs out. It does not check that the bytes are a certificate.
pub fn der_to_pem(alloc: Global, der: &[u8]) -> Result<Text, OutOfMemory>
    ensures { IfOk result (λ t. t ≡ pem_of der.now) }
{
    let mut pem = String::new(alloc);
    pem.push_str("-----BEGIN CERTIFICATE-----\n")?;
    push_lines(&mut pem, der)?;
    pem.push_str("-----END CERTIFICATE-----\n")?;
    Ok(Text::from(pem))
}

/// Appends the lines of the base64 text.
fn push_lines(pem: &mut String, der: &[u8]) -> Result<(), AllocError>
    ensures { OnOk result (string_bytes pem.new ≡ string_bytes pem.old ++ lines_of der.now) }
{
    let mut rest = der;
    while !rest.is_empty() {
        let (line, after) = rest.split_at(rest.len().min(LINE));
        push_line(pem, line)?;
        rest = after;
    }
    Ok(())
}

/// Appends one line.
fn push_line(pem: &mut String, line: &[u8]) -> Result<(), AllocError>
    ensures { OnOk result (string_bytes pem.new ≡ string_bytes pem.old ++ encode_of standard line.now ++ 10 ∷ []) }
{
    STANDARD.encode_string(line, pem)?;
    pem.push('\n')
}
