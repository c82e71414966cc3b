//! The policy of a case.

use sig_base::Text;
use sig_cases::{Answer, Arguments};
use sig_part_cases::rule_named;
use sig_x509::{Identity, LeafPolicies, LeafPolicy, OIDCIssuer, RequestPolicy};

/// The policy of the next arguments, `all COUNT RULE ..` or `any COUNT RULE ..`.
pub(crate) fn policy(arguments: &mut Arguments<'_>, answer: &mut Answer) -> RequestPolicy {
    let word = arguments.word();
    let rules = rules(arguments, answer);
    match word {
        "all" => RequestPolicy::All(rules),
        "any" => RequestPolicy::Any(rules),
        _ => {
            arguments.refuse();
            RequestPolicy::Any(rules)
        }
    }
}

/// The rules of the next arguments, after their number.
fn rules(arguments: &mut Arguments<'_>, answer: &mut Answer) -> LeafPolicies {
    let mut rules = LeafPolicies::new(arguments.alloc());
    for _ in 0..arguments.natural() {
        let rule = rule(arguments, answer);
        if rules.push(rule).is_err() {
            answer.out_of_memory();
        }
    }
    rules
}

/// The rule of the next arguments: `Identity IDENTITY ISSUER`, or the name of another policy and the text that it asks
/// for.
fn rule(arguments: &mut Arguments<'_>, answer: &mut Answer) -> LeafPolicy {
    match arguments.word() {
        "Identity" => identity(arguments, answer),
        name => {
            let text = Text::from(arguments.text());
            rule_named(arguments, name, text)
        }
    }
}

/// The identity of the next arguments, `IDENTITY ISSUER`.
fn identity(arguments: &mut Arguments<'_>, answer: &mut Answer) -> LeafPolicy {
    let name = arguments.text();
    let issuer = arguments.text();
    match Identity::new(arguments.alloc(), name.as_str(), issuer.as_str()) {
        Ok(identity) => LeafPolicy::Identity(identity),
        Err(_) => {
            answer.out_of_memory();
            LeafPolicy::OIDCIssuer(OIDCIssuer(Text::from(issuer)))
        }
    }
}
