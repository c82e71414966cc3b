//! Cases of sig_der. The table is made by tools/der_cases.py, a reader and a writer of DER of its own beside Python's
//! calendar, only from X.690 and RFC 3339, and from a leaf and its issuer of Sigstore's public instance and the key
//! of a public log.
#![tactic(auto)]

mod calls;
mod places;
mod sweeps;

use sig_cases::{Answer, Arguments, Cases, run};

struct DerCases;

impl Cases for DerCases {
    fn answer(call: &str, arguments: &mut Arguments<'_>, answer: &mut Answer) {
        match call {
            "read_element" => calls::read(arguments, answer),
            "read_all" => calls::read_whole(arguments, answer),
            "children" => calls::read_children(arguments, answer),
            "write_element" => calls::write(arguments, answer),
            "close" => calls::close(arguments, answer),
            "time_of" => calls::time(arguments, answer),
            "rfc3339_second" => calls::instant(arguments, answer),
            "place_at" => places::front(arguments, answer),
            "optional_at" => places::optional(arguments, answer),
            "whole_at" => places::whole(arguments, answer),
            "key_info" => places::key_info(arguments, answer),
            "prefixes" => sweeps::prefixes(arguments, answer),
            "flips" => sweeps::flips(arguments, answer),
            _ => arguments.refuse(),
        }
    }
}

fn main(rt: HostRuntime) -> anyhow::Result<()> {
    run::<DerCases>(&rt)
}
