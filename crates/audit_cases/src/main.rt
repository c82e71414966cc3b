//! Cases of sig_audit: audits of heads and watches, and what they are beside a list of entries; and of the roots of a
//! list's first entries. `stdin` lists calls, and `stdout` what they return.
//!
//! Their origin: `tools/audit_cases.py`, a program in another language that makes trees and proofs by the recursions of
//! RFC 6962 and judges heads and watches one at a time.
#![tactic(auto)]

mod audits;
mod fronts;
mod parts;

use sig_cases::{Answer, Arguments, Cases, run};

struct AuditCases;

impl Cases for AuditCases {
    fn answer(call: &str, arguments: &mut Arguments<'_>, answer: &mut Answer) {
        match call {
            "audit" => audits::audited(arguments, answer),
            "list" => audits::listed(arguments, answer),
            "fronts" => fronts::roots(arguments, answer),
            _ => arguments.refuse(),
        }
    }
}

fn main(rt: HostRuntime) -> anyhow::Result<()> {
    run::<AuditCases>(&rt)
}
