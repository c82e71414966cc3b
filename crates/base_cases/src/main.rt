//! Cases of sig_base, sig_merkle and sig_key: `stdin` lists calls, and `stdout` what they return.
//!
//! Their origin: the digests are FIPS 180-4's examples, the texts in base64 those of RFC 4648 section 10 and Python's;
//! the hashes and roots of the first tree are published with Certificate Transparency's reference tree, and those of
//! the trees of 0 to 33 entries, with a path for each index, come from `tools/base_cases.py`, a program in another
//! language that was written from RFC 6962 section 2.1 and walks as RFC 9162 sections 2.1.3.2 and 2.1.4.2 do. OpenSSL
//! made the keys.
#![tactic(auto)]

mod base;
mod collisions;
mod consistency;
mod errors;
mod keys;
mod maps;
mod merkle;
mod ranks;
mod tables;
mod walks;

use sig_cases::{Answer, Arguments, Cases, run};

struct BaseCases;

impl Cases for BaseCases {
    fn answer(call: &str, arguments: &mut Arguments<'_>, answer: &mut Answer) {
        match call {
            "sha256" => base::digest(arguments, answer),
            "of_base64" => base::of_base64(arguments, answer),
            "in_base64" => base::in_base64(arguments, answer),
            "root_hex" => base::root_hex(arguments, answer),
            "scheme" => base::scheme(arguments, answer),
            "equal" => base::equal(arguments, answer),
            "accepts" => tables::accepts(arguments, answer),
            "has" => tables::has(arguments, answer),
            "errors" => errors::all(arguments, answer),
            _ => of_lists(call, arguments, answer),
        }
    }
}

/// The calls on maps, lists and ranks.
fn of_lists(call: &str, arguments: &mut Arguments<'_>, answer: &mut Answer) {
    match call {
        "key_map" => maps::key_map(arguments, answer),
        "text_map" => maps::text_map(arguments, answer),
        "rank" => ranks::rank(arguments, answer),
        "shared" => ranks::shared_start(arguments, answer),
        "entries" => maps::entries(arguments, answer),
        "numbers" => maps::numbers(arguments, answer),
        "hashes" => maps::hashes(arguments, answer),
        "root_of" => merkle::root(arguments, answer),
        "path_of" => merkle::audit_path(arguments, answer),
        "proof_of" => consistency::proof(arguments, answer),
        _ => of_trees(call, arguments, answer),
    }
}

/// The calls on hashes and proofs.
fn of_trees(call: &str, arguments: &mut Arguments<'_>, answer: &mut Answer) {
    match call {
        "empty_root" => merkle::empty(answer),
        "hash_leaf" => merkle::leaf(arguments, answer),
        "hash_children" => merkle::children(arguments, answer),
        "verify_inclusion" => merkle::inclusion(arguments, answer),
        "counted" => merkle::counted(arguments, answer),
        "decomposed" => walks::decomposed(arguments, answer),
        "both_ways" => walks::both_ways(arguments, answer),
        "both_growths" => walks::both_growths(arguments, answer),
        "verify_consistency" => consistency::check(arguments, answer),
        "sweep" => consistency::sweep(arguments, answer),
        "fronts" => collisions::fronts(arguments, answer),
        "twins" => collisions::twins(arguments, answer),
        _ => of_keys(call, arguments, answer),
    }
}

/// The calls of sig_key.
fn of_keys(call: &str, arguments: &mut Arguments<'_>, answer: &mut Answer) {
    match call {
        "key_kind" => keys::kind(arguments, answer),
        "try_from_der" => keys::try_from_der(arguments, answer),
        "try_from_spki" => keys::try_from_spki(arguments, answer),
        "from_der" => keys::from_der(arguments, answer),
        "decode_bytes" => keys::decode(arguments, answer),
        "key_accepts" => keys::accepts(arguments, answer),
        "verify_signature" => keys::verify_signature(arguments, answer),
        "verify_prehash" => keys::verify_prehash(arguments, answer),
        "keys" => keys::found(arguments, answer),
        _ => arguments.refuse(),
    }
}

fn main(rt: HostRuntime) -> anyhow::Result<()> {
    run::<BaseCases>(&rt)
}
