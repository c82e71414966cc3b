//! Cases of what `cosign` stores beside a container image. `stdin` lists calls, and `stdout` what they return.
//!
//! Their origin: `tools/cosign_cases.py`, a program in another language that reads payloads and what Rekor promised by
//! the tables of their formats alone.
#![tactic(auto)]

mod bundles;
mod keys;
mod layers;
mod manifests;
mod promises;
mod signers;
mod signings;
mod trusted;

use sig_cases::{Answer, Arguments, Cases, run};

struct CosignCases;

impl Cases for CosignCases {
    fn answer(call: &str, arguments: &mut Arguments<'_>, answer: &mut Answer) {
        match call {
            "signing" => signings::read(arguments, answer),
            "shown_signing" => signings::shown(arguments, answer),
            "new_signing" => signings::made(arguments, answer),
            "manifest" => signings::manifest(arguments, answer),
            "annotations" => signings::annotations(arguments, answer),
            "promise" => promises::promise(arguments, answer),
            "artifact" => promises::artifact(arguments, answer),
            "equal" => promises::equal(arguments, answer),
            "subject" => signers::subject(arguments, answer),
            "signer" => signers::signer(arguments, answer),
            "unsigned" => layers::unsigned(arguments, answer),
            "signed" => layers::signed(arguments, answer),
            "layer" => layers::layer(arguments, answer),
            "shown_layer" => layers::shown_layer(arguments, answer),
            "build" => manifests::build(arguments, answer),
            "bundle" => bundles::bundle(arguments, answer),
            "shown_bundle" => bundles::shown_bundle(arguments, answer),
            _ => arguments.refuse(),
        }
    }
}

fn main(rt: HostRuntime) -> anyhow::Result<()> {
    run::<CosignCases>(&rt)
}
