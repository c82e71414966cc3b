//! Encodings, and envelopes as text.
use sig_base::{Bytes, Text};
use sig_cases::{Answer, Arguments};
use sig_dsse::{DsseEnvelope, DsseSignature, DsseSignatures, compute_pae, envelope_json, laws};

/// `encoding TYPE PAYLOAD`: the pre-authentication encoding.
pub(crate) fn encoding(arguments: &mut Arguments<'_>, answer: &mut Answer) {
    let payload_type = arguments.text();
    let payload = arguments.hex();
    answer.ok();
    match compute_pae(arguments.alloc(), payload_type.as_str(), &payload) {
        Ok(encoded) => answer.hex(encoded.as_slice()),
        Err(_) => answer.out_of_memory(),
    }
}

/// `envelope TYPE PAYLOAD SIGS KEYIDS`: the envelope as JSON.
pub(crate) fn envelope(arguments: &mut Arguments<'_>, answer: &mut Answer) {
    let envelope = read_envelope(arguments, answer);
    answer.ok();
    match envelope_json(arguments.alloc(), &envelope) {
        Ok(text) => answer.value(&text.as_str()),
        Err(_) => answer.out_of_memory(),
    }
}

/// `equal_envelopes` and two envelopes: whether they are equal.
pub(crate) fn equal_envelopes(arguments: &mut Arguments<'_>, answer: &mut Answer) {
    let one = read_envelope(arguments, answer);
    let other = read_envelope(arguments, answer);
    answer.ok();
    answer.value(&laws::equal_envelopes(&one, &other));
}

/// `equal_signatures SIG KEYID SIG KEYID`: whether they are equal.
pub(crate) fn equal_signatures(arguments: &mut Arguments<'_>, answer: &mut Answer) {
    let one = read_signature(arguments);
    let other = read_signature(arguments);
    answer.ok();
    answer.value(&laws::equal_signatures(&one, &other));
}

/// An envelope of four arguments: its type, its payload, the signatures in a list, and the hints at keys in a list.
fn read_envelope(arguments: &mut Arguments<'_>, answer: &mut Answer) -> DsseEnvelope {
    DsseEnvelope {
        payload_type: Text::from(arguments.text()),
        payload: arguments.bytes(),
        signatures: read_signatures(arguments, answer),
    }
}

fn read_signatures(arguments: &mut Arguments<'_>, answer: &mut Answer) -> DsseSignatures {
    let sigs = arguments.hex_list();
    let keyids = arguments.hex_list();
    let mut signatures = DsseSignatures::new(arguments.alloc());
    for (sig, keyid) in sigs.into_iter().zip(keyids.into_iter()) {
        if signatures.push(signature(arguments, sig, keyid)).is_err() {
            answer.out_of_memory();
        }
    }
    signatures
}

/// A signature of two arguments: its bytes, and the hint at a key, both in hexadecimal.
fn read_signature(arguments: &mut Arguments<'_>) -> DsseSignature {
    let sig = arguments.hex();
    let keyid = arguments.hex();
    signature(arguments, sig, keyid)
}

fn signature(arguments: &mut Arguments<'_>, sig: Vec<u8>, keyid: Vec<u8>) -> DsseSignature {
    DsseSignature {
        sig: Bytes::from(sig),
        keyid: hint(arguments, keyid),
    }
}

/// A hint at a key. Makes the line a bad one where it is not UTF-8.
fn hint(arguments: &mut Arguments<'_>, keyid: Vec<u8>) -> Text {
    match String::from_utf8(keyid) {
        Ok(keyid) => Text::from(keyid),
        Err(_) => {
            arguments.refuse();
            Text::from(String::new(arguments.alloc()))
        }
    }
}
