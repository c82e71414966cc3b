//! Cases of sig_witness: sequences of origins and updates, with the witness written and read after each; texts of
//! states; and what heads are beside a list. `stdin` lists calls, and `stdout` what they return.
//!
//! Their origin: `tools/witness_cases.py`, a program in another language that keeps heads in a dictionary and judges
//! one update at a time, with trees and proofs by the recursions of RFC 6962.
#![tactic(auto)]

mod lists;
mod parts;
mod runs;
mod states;

use sig_cases::{Answer, Arguments, Cases, run};

struct WitnessCases;

impl Cases for WitnessCases {
    fn answer(call: &str, arguments: &mut Arguments<'_>, answer: &mut Answer) {
        match call {
            "run" => runs::ran(arguments, answer),
            "list" => lists::listed(arguments, answer),
            "state" => states::read(arguments, answer),
            _ => arguments.refuse(),
        }
    }
}

fn main(rt: HostRuntime) -> anyhow::Result<()> {
    run::<WitnessCases>(&rt)
}
