//! Cases of sig_rekor and sig_rekor_models: notes, signatures and checkpoints that are read and written, each fault,
//! what a checkpoint vouches for, and the models of Rekor's API.
//!
//! The expected lines are those of `tools/rekor_cases.py`, which reads texts by the checkpoint format of
//! transparency-dev with its own reader, and of Go's `sumdb/note`, Rekor and the Certificate Transparency reference
//! for the checkpoints and roots that it begins with.
#![tactic(auto)]

mod asked;
mod checks;
mod growth;
mod models;
mod parts;
mod proposals;
mod shown;
mod texts;

use sig_cases::{Answer, Arguments, Cases, run};

struct RekorCases;

impl Cases for RekorCases {
    fn answer(call: &str, arguments: &mut Arguments<'_>, answer: &mut Answer) {
        match call {
            "signed" => checks::signed(arguments, answer),
            "tree" => checks::tree(arguments, answer),
            "borrowed_signed" => checks::borrowed_signed(arguments, answer),
            "borrowed_tree" => checks::borrowed_tree(arguments, answer),
            "asked" => asked::asked(arguments, answer),
            "borrowed_asked" => asked::borrowed_asked(arguments, answer),
            "proof" => checks::proof(arguments, answer),
            "audit_path" => checks::audit_path(arguments, answer),
            "entry_inclusion" => checks::entry_inclusion(arguments, answer),
            "hash" => models::hash(arguments, answer),
            "hashes" => models::hashes(arguments, answer),
            "from_rekor" => models::inclusion_proof(arguments, answer),
            "entry" => models::entry(arguments, answer),
            "log_info" => growth::log_info(arguments, answer),
            "consistency_from_rekor" => growth::consistency_proof(arguments, answer),
            "consistency" => growth::consistency(arguments, answer),
            "grown" => growth::grown(arguments, answer),
            "public_key" => proposals::public_key(arguments, answer),
            "hashedrekord" => proposals::hashedrekord(arguments, answer),
            "proposed" => proposals::proposed(arguments, answer),
            _ => texts::answer(call, arguments, answer),
        }
    }
}

fn main(rt: HostRuntime) -> anyhow::Result<()> {
    run::<RekorCases>(&rt)
}
