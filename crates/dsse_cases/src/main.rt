//! Cases of sig_dsse: encodings and envelopes, the statements that payloads are, and the digests that are taken of
//! them.
//!
//! The encoding and the first envelope are the examples of the DSSE protocol, the digests those of FIPS 180-4's
//! examples. Every other line is written by tools/dsse_cases.py, which has its own reader of statements and its own
//! writer of envelopes, by the DSSE envelope format and the in-toto attestation framework, over Python's `json`,
//! `base64` and `hashlib`.
#![tactic(auto)]

mod digests;
mod envelopes;
mod faults;
mod statements;

use sig_cases::{Answer, Arguments, Cases, run};

struct DsseCases;

impl Cases for DsseCases {
    fn answer(call: &str, arguments: &mut Arguments<'_>, answer: &mut Answer) {
        match call {
            "encoding" => envelopes::encoding(arguments, answer),
            "envelope" => envelopes::envelope(arguments, answer),
            "equal_envelopes" => envelopes::equal_envelopes(arguments, answer),
            "equal_signatures" => envelopes::equal_signatures(arguments, answer),
            "payload_digests" => digests::of_payload(arguments, answer),
            "sha256" => digests::sha256(arguments, answer),
            "sha512" => digests::sha512(arguments, answer),
            "equal_digests" => digests::equal_digests(arguments, answer),
            "fault" => faults::fault(arguments, answer),
            _ => statements::of_payload(call, arguments, answer),
        }
    }
}

fn main(rt: HostRuntime) -> anyhow::Result<()> {
    run::<DsseCases>(&rt)
}
