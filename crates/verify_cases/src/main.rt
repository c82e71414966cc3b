//! Cases of bundles that are verified offline: `stdin` lists calls, and `stdout` what they return.
//!
//! Their origin: `tools/verify_cases.py` over `tools/fixture.py`, programs in another language that were written from
//! the standards. What changes of the fixture's request and what comes of it is stated by hand, row by row, in
//! `tools/verify_rows.py` and beside it, and `tools/verify_links.py`, which checks the links on its own, says the same.
//! `tools/verify_calls.py` has the calls of the parts, of questions and of trusted roots, and the texts of errors.
#![tactic(auto)]

mod artifact;
mod errors;
mod parts;
mod policy;
mod questions;
mod root;
mod rooted;
mod verified;

use sig_cases::{Answer, Arguments, Cases, run};

struct VerifyCases;

impl Cases for VerifyCases {
    fn answer(call: &str, arguments: &mut Arguments<'_>, answer: &mut Answer) {
        match call {
            "verify" => artifact::by_source(arguments, answer),
            "verify_digest" => artifact::by_digest(arguments, answer),
            "verify_digest_with" => rooted::bundle(arguments, answer),
            "verify_log_entry" => rooted::entry(arguments, answer),
            "verify_offline" => verified::offline(arguments, answer),
            "questions" => questions::listed(arguments, answer),
            "fulcio_certs" | "rekor_keys" | "ctfe_keys" => root::at(call, arguments, answer),
            "errors" => errors::of_type(arguments, answer),
            _ => arguments.refuse(),
        }
    }
}

fn main(rt: HostRuntime) -> anyhow::Result<()> {
    run::<VerifyCases>(&rt)
}
