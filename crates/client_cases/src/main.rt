//! Cases of what a client has of its own: the configuration that names its trusted root, the token that says who signs,
//! and what it signed. `stdin` lists calls, and `stdout` what they return.
//!
//! Their origin: `tools/client_cases.py`, a program in another language that reads tokens by RFC 7515 and RFC 7519, and
//! log entries, bundles and trusted roots only by the tables of their formats.
#![tactic(auto)]

mod config;
mod signed;
mod token;

use sig_cases::{Answer, Arguments, Cases, run};

struct ClientCases;

impl Cases for ClientCases {
    fn answer(call: &str, arguments: &mut Arguments<'_>, answer: &mut Answer) {
        match call {
            "client_config" => config::configured(arguments, answer),
            "token" => token::read(arguments, answer),
            "period" => token::period(arguments, answer),
            "to_bundle" => signed::bundle(arguments, answer),
            "try_from_log_entry" => signed::converted(arguments, answer),
            _ => arguments.refuse(),
        }
    }
}

fn main(rt: HostRuntime) -> anyhow::Result<()> {
    run::<ClientCases>(&rt)
}
