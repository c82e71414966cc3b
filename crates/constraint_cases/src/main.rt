//! Cases of a caller's constraints over the layers that `cosign` stores. `stdin` lists calls, and `stdout` what they
//! return.
//!
//! Their origin: `tools/constraint_cases.py`, a program in another language that says what each constraint means by its
//! words alone.
#![tactic(auto)]

mod layers;
mod lists;
mod markers;
mod own;
mod rows;
mod subjects;
mod trusted;
mod verifiers;

use sig_cases::{Answer, Arguments, Cases, run};

struct ConstraintCases;

impl Cases for ConstraintCases {
    fn answer(call: &str, arguments: &mut Arguments<'_>, answer: &mut Answer) {
        match call {
            "annotation" => verifiers::annotation(arguments, answer),
            "email" => subjects::email(arguments, answer),
            "url" => subjects::url(arguments, answer),
            "string" => subjects::string(arguments, answer),
            "key" => verifiers::key(arguments, answer),
            "scheme" => verifiers::scheme(arguments, answer),
            "certificate" => verifiers::certificate(arguments, answer),
            "trusted" => trusted::trusted(arguments, answer),
            "mark" => markers::mark(arguments, answer),
            "shown" => markers::shown(arguments, answer),
            "verify" => lists::verify(arguments, answer),
            "urls" => lists::urls(arguments, answer),
            "apply" => lists::apply(arguments, answer),
            _ => arguments.refuse(),
        }
    }
}

fn main(rt: HostRuntime) -> anyhow::Result<()> {
    run::<ConstraintCases>(&rt)
}
