//! Certificates: what can be borrowed of them, and their text.

use sig_base::sha256;
use sig_cases::{Answer, Arguments};
use sig_x509::{Certificate, ExtensionRef, Lookup, X509ReadError, der_to_pem};
use std::alloc::Global;

/// `certificate DER`: the parts of the certificate.
pub(crate) fn read(arguments: &mut Arguments<'_>, answer: &mut Answer) {
    match Certificate::try_from_der(arguments.alloc(), &arguments.hex()) {
        Ok(read) => add_parts(answer, &read),
        Err(refusal) => answer.error(refusal),
    }
}

/// `ok`, and the parts of a certificate: the version, both seconds of the validity, both algorithms, issuer, subject,
/// SPKI, TBSCertificate and signature, the number of extensions, and each of them.
fn add_parts(answer: &mut Answer, read: &Certificate) {
    answer.ok();
    answer.value(&read.version());
    answer.value(&read.not_before());
    answer.value(&read.not_after());
    answer.hex(read.inner_algorithm());
    answer.hex(read.algorithm());
    answer.hex(read.issuer());
    answer.hex(read.subject());
    answer.hex(read.spki());
    answer.hex(read.tbs());
    answer.hex(read.signature());
    add_extensions(answer, read);
}

fn add_extensions(answer: &mut Answer, read: &Certificate) {
    answer.value(&read.extension_count());
    for found in read.extensions() {
        add_extension(answer, found);
    }
}

/// Adds an extension: its object identifier, whether it is critical, its value, and the whole of it.
fn add_extension(answer: &mut Answer, found: ExtensionRef<'_>) {
    answer.hex(found.oid);
    answer.value(&found.critical);
    answer.hex(found.value);
    answer.hex(found.whole);
}

/// `extension OID DER`: the extension of this object identifier.
pub(crate) fn found(arguments: &mut Arguments<'_>, answer: &mut Answer) {
    let oid = arguments.hex();
    let Some(read) = certificate(arguments, answer) else {
        return;
    };
    answer.ok();
    match read.extension(&oid) {
        Lookup::Absent => answer.value(&"absent"),
        Lookup::One(found) => add_extension(answer, found),
        Lookup::Several => answer.value(&"several"),
    }
}

/// The next argument as a certificate. The line is a `bad line` if it is not one.
pub(crate) fn certificate(
    arguments: &mut Arguments<'_>,
    answer: &mut Answer,
) -> Option<Certificate> {
    let read = certificate_of(arguments.alloc(), answer, &arguments.hex());
    if read.is_none() {
        arguments.refuse();
    }
    read
}

/// The certificate that the bytes are, if they are one.
pub(crate) fn certificate_of(
    alloc: Global,
    answer: &mut Answer,
    der: &[u8],
) -> Option<Certificate> {
    match Certificate::try_from_der(alloc, der) {
        Ok(read) => Some(read),
        Err(X509ReadError::Der) => None,
        Err(X509ReadError::OutOfMemory) => {
            answer.out_of_memory();
            None
        }
    }
}

/// `extension_at INDEX DER`: the extension at this index.
pub(crate) fn found_at(arguments: &mut Arguments<'_>, answer: &mut Answer) {
    let index = arguments.natural() as usize;
    let Some(read) = certificate(arguments, answer) else {
        return;
    };
    match read.extension_at(index) {
        None => answer.value(&"none"),
        Some(found) => {
            answer.ok();
            add_extension(answer, found);
        }
    }
}

/// `der_to_pem BYTES`: their PEM text.
pub(crate) fn pem(arguments: &mut Arguments<'_>, answer: &mut Answer) {
    match der_to_pem(arguments.alloc(), &arguments.hex()) {
        Ok(text) => {
            answer.ok();
            answer.debug(&text);
        }
        Err(_) => answer.out_of_memory(),
    }
}

/// `flipped MASK DER`: the offsets at which the bytes stay a certificate once these bits are flipped there, and the
/// SHA-256 of what is written for each of these certificates, one after another.
pub(crate) fn flipped(arguments: &mut Arguments<'_>, answer: &mut Answer) {
    let mask = mask(arguments);
    let mut der = arguments.hex();
    let mut written = String::new(arguments.alloc());
    answer.ok();
    for place in 0..der.len() {
        der[place] ^= mask;
        push_read(arguments.alloc(), answer, &mut written, place, &der);
        der[place] ^= mask;
    }
    answer.hex(&sha256(written.as_bytes()));
}

/// The next argument as one byte.
fn mask(arguments: &mut Arguments<'_>) -> u8 {
    match arguments.hex().as_slice() {
        [mask] => *mask,
        _ => {
            arguments.refuse();
            0
        }
    }
}

/// Adds the offset, and to what is written the line for the bytes, if they are a certificate.
fn push_read(alloc: Global, answer: &mut Answer, written: &mut String, place: usize, der: &[u8]) {
    if let Some(read) = certificate_of(alloc, answer, der) {
        answer.value(&place);
        let mut line = Answer::new(alloc);
        add_parts(&mut line, &read);
        push_line(answer, written, &line);
    }
}

/// Adds a line to what is written.
fn push_line(answer: &mut Answer, written: &mut String, line: &Answer) {
    let is_pushed = match line.line() {
        Some(text) => written.push_str(text).is_ok(),
        None => false,
    };
    if !is_pushed {
        answer.out_of_memory();
    }
}

/// `cut DER`: the lengths at which the bytes, and a byte 00 after them, are a certificate.
pub(crate) fn cut(arguments: &mut Arguments<'_>, answer: &mut Answer) {
    let mut longer = arguments.hex();
    if longer.push(0).is_err() {
        answer.out_of_memory();
    }
    answer.ok();
    for length in 0..=longer.len() {
        if certificate_of(arguments.alloc(), answer, &longer[..length]).is_some() {
            answer.value(&length);
        }
    }
}
