//! Cases of bundles: read, written, compared and checked; and what is wrong with them, and with trusted roots. `stdin`
//! lists calls, and `stdout` what they return.
//!
//! Their origin: `tools/bundle_cases.py`, a program in another language that reads and writes bundles by the table of
//! the format alone, over the bundle that `tools/fixture.py` makes; the refusals are stated by hand, row by row.
#![tactic(auto)]

mod checked;
mod equal;
mod fault;
mod logged;
mod parts;
mod read;
mod shown;

use sig_cases::{Answer, Arguments, Cases, run};

struct BundleCases;

impl Cases for BundleCases {
    fn answer(call: &str, arguments: &mut Arguments<'_>, answer: &mut Answer) {
        match call {
            "read_bundle" => read::written(arguments, answer),
            "copied_entry" => read::copied(arguments, answer),
            "promise_text" => read::promise(arguments, answer),
            "bundle_fault" => fault::bundle(arguments, answer),
            "root_fault" => fault::root(arguments, answer),
            "equal" => equal::equal_parts(arguments, answer),
            "try_from_bundle" => checked::digests(arguments, answer),
            "checked" => checked::lent(arguments, answer),
            "to_proof" => logged::proof(arguments, answer),
            "tlog_entry" => logged::logged(arguments, answer),
            _ => parts::answer(call, arguments, answer),
        }
    }
}

fn main(rt: HostRuntime) -> anyhow::Result<()> {
    run::<BundleCases>(&rt)
}
