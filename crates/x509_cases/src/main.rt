//! Cases of certificates, their profiles, SCTs, pools and policies: `stdin` lists calls, and `stdout` what they
//! return.
//!
//! Their origin: `tools/x509_cases.py` and `tools/fixture.py`, programs in another language that were written from RFC
//! 5280, RFC 6962 and X.690; the reasons of refusals are stated by hand, row by row, in `tools/x509_cases.txt`, and
//! OpenSSL names the places of the parts of the two certificates of Sigstore that the tables begin with.
#![tactic(auto)]

mod asked;
mod boxed;
mod certificate;
mod graph;
mod listed;
mod node;
mod policy;
mod pool;
mod profile;
mod sct;
mod shown;

use sig_cases::{Answer, Arguments, Cases, run};

struct X509Cases;

impl Cases for X509Cases {
    fn answer(call: &str, arguments: &mut Arguments<'_>, answer: &mut Answer) {
        match call {
            "certificate" => certificate::read(arguments, answer),
            "extension" => certificate::found(arguments, answer),
            "extension_at" => certificate::found_at(arguments, answer),
            "flipped" => certificate::flipped(arguments, answer),
            "cut" => certificate::cut(arguments, answer),
            "der_to_pem" => certificate::pem(arguments, answer),
            "from_certificates" => pool::made(arguments, answer),
            "issuer_spki" => pool::spki(arguments, answer),
            "verify_der_cert" => pool::issuer(arguments, answer),
            "asked" => asked::asked(arguments, answer),
            "der_asked" => asked::der_asked(arguments, answer),
            "questions" => asked::questions(arguments, answer),
            "listed" => listed::listed(arguments, answer),
            "graph" => graph::issuer(arguments, answer),
            "spelled" => graph::spelled(arguments, answer),
            _ => of_scts(call, arguments, answer),
        }
    }
}

/// The calls of SCTs.
fn of_scts(call: &str, arguments: &mut Arguments<'_>, answer: &mut Answer) {
    match call {
        "key" => sct::key(arguments, answer),
        "keyring" => sct::vouched(arguments, answer),
        "embedded_sct" => sct::embedded(arguments, answer),
        "embedded_sct_of_chain" => sct::embedded_of_chain(arguments, answer),
        "verify_sct" => sct::verified(arguments, answer),
        "precert_tbs_der" => sct::precert(arguments, answer),
        "precert_tbs_digest" => sct::precert_digest(arguments, answer),
        _ => of_policies(call, arguments, answer),
    }
}

/// The calls of policies, errors and profiles.
fn of_policies(call: &str, arguments: &mut Arguments<'_>, answer: &mut Answer) {
    match call {
        "policy" => policy::single(arguments, answer),
        "identity" => policy::identity(arguments, answer),
        "all" => policy::several(true, arguments, answer),
        "any" => policy::several(false, arguments, answer),
        "shown" => shown::shown(arguments, answer),
        "verify_validity" => profile::validity(arguments, answer),
        "verify_expiration" => profile::expiration(arguments, answer),
        "is_trusted" => profile::trusted(arguments, answer),
        _ => profile::judged(call, arguments, answer),
    }
}

fn main(rt: HostRuntime) -> anyhow::Result<()> {
    run::<X509Cases>(&rt)
}
