//! Cases of sig_json and sig_json_text: texts and the trees that they are, views, readers of members, canonical and
//! compact texts, builders, equality.
//!
//! The worked examples of RFC 8785 are those without floats, the vectors of base64 those of RFC 4648 section 10.
//! Every line is written by tools/json_cases.py, which reads JSON by Python's `json` with hooks for numbers, duplicate
//! names and surrogates, and has writers of its own. A document is the bytes of the rest of the line after `json`, or
//! of one word in hexadecimal after `hex`.
#![tactic(auto)]

mod built;
mod documents;
mod equal;
mod errors;
mod kinds;
mod parts;
mod readers;
mod rows;
mod views;

use sig_cases::{Answer, Arguments, Cases, run};

struct JsonCases;

impl Cases for JsonCases {
    fn answer(call: &str, arguments: &mut Arguments<'_>, answer: &mut Answer) {
        match call {
            "read" => documents::read(arguments, answer),
            "read_members" => documents::read_members(arguments, answer),
            "read_back" => documents::read_back(arguments, answer),
            "canonical" => documents::canonical_text(arguments, answer),
            "quoted" => documents::quoted_text(arguments, answer),
            "values" => views::values(arguments, answer),
            "get" => views::member(arguments, answer),
            "item" => views::item(arguments, answer),
            "members" => views::members(arguments, answer),
            "take" => parts::take(arguments, answer),
            "without" => parts::without(arguments, answer),
            "object" => built::object(arguments, answer),
            "list" => built::list(arguments, answer),
            "equal" => equal::equal(arguments, answer),
            "errors" => errors::errors(answer),
            "integers" => rows::integers(arguments, answer),
            "read_text" | "required_text" => rows::text(call, arguments, answer),
            "read_bytes" | "required_bytes" => rows::bytes(call, arguments, answer),
            "required_hash" => rows::hash(arguments, answer),
            _ => readers::reader(call, arguments, answer),
        }
    }
}

fn main(rt: HostRuntime) -> anyhow::Result<()> {
    run::<JsonCases>(&rt)
}
