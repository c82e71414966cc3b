//! Cases of manifests of a gate, and of what it finds: `stdin` lists calls, and `stdout` what they return.
//!
//! Their origin: `tools/gate_cases.py`, a program in another language that reads a manifest by its table of members,
//! and follows the chain of trust link by link.
#![tactic(auto)]

mod manifest;
mod verdicts;

use sig_cases::{Answer, Arguments, Cases, run};

struct GateCases;

impl Cases for GateCases {
    fn answer(call: &str, arguments: &mut Arguments<'_>, answer: &mut Answer) {
        match call {
            "manifest" => manifest::read(arguments, answer),
            "gate" => verdicts::judge(arguments, answer),
            _ => arguments.refuse(),
        }
    }
}

fn main(rt: HostRuntime) -> anyhow::Result<()> {
    run::<GateCases>(&rt)
}
