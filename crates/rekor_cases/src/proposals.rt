//! Keys, and entries that are proposed to a log.

use crate::models::add_json;
use crate::parts::text;
use sig_base::Text;
use sig_cases::{Answer, Arguments};
use sig_json::Document;
use sig_rekor_models::{
    AlgorithmKind, Data, EntryKind, Hash, Hashedrekord, ProposedEntry, PublicKey, Signature, Spec,
};

/// `public_key TEXT`: what `PublicKey::decode` reads.
pub(crate) fn public_key(arguments: &mut Arguments<'_>, answer: &mut Answer) {
    let key = PublicKey::new(text(arguments));
    match key.decode(arguments.alloc()) {
        Ok(text) => {
            answer.ok();
            answer.debug(&key.content());
            answer.debug(&text);
        }
        Err(error) => answer.error(error),
    }
}

/// `hashedrekord KIND VERSION ALGORITHM VALUE SIGNATURE KEY`: the JSON of the entry.
pub(crate) fn hashedrekord(arguments: &mut Arguments<'_>, answer: &mut Answer) {
    let kind = text(arguments);
    let version = text(arguments);
    let entry = Hashedrekord::new(kind, version, spec(arguments));
    answer.ok();
    add_json(answer, arguments.alloc(), entry.json(arguments.alloc()));
}

/// What a hashedrekord entry says, `ALGORITHM VALUE SIGNATURE KEY`.
fn spec(arguments: &mut Arguments<'_>) -> Spec {
    let hash = Hash::new(algorithm(arguments), text(arguments));
    let content = text(arguments);
    let key = PublicKey::new(text(arguments));
    Spec::new(Signature::new(content, key), Data::new(hash))
}

fn algorithm(arguments: &mut Arguments<'_>) -> AlgorithmKind {
    match arguments.word() {
        "default" => AlgorithmKind::default(),
        "sha1" => AlgorithmKind::sha1,
        _ => {
            arguments.refuse();
            AlgorithmKind::sha1
        }
    }
}

/// `proposed KIND VERSION SPEC`, or `proposed hashedrekord VERSION ALGORITHM VALUE SIGNATURE KEY`: the JSON of the
/// entry.
pub(crate) fn proposed(arguments: &mut Arguments<'_>, answer: &mut Answer) {
    let Some(kind) = EntryKind::named(arguments.word()) else {
        return arguments.refuse();
    };
    let entry = proposed_entry(kind, text(arguments), arguments);
    answer.ok();
    add_json(answer, arguments.alloc(), entry.json(arguments.alloc()));
    drop(entry);
}

/// The entry of a kind, with what the last arguments say.
fn proposed_entry(
    kind: EntryKind,
    api_version: Text,
    arguments: &mut Arguments<'_>,
) -> ProposedEntry {
    if kind == EntryKind::Hashedrekord {
        let spec = spec(arguments);
        return ProposedEntry::Hashedrekord { api_version, spec };
    }
    let spec = document(arguments);
    match kind {
        EntryKind::Alpine => ProposedEntry::Alpine { api_version, spec },
        EntryKind::Helm => ProposedEntry::Helm { api_version, spec },
        EntryKind::Intoto => ProposedEntry::Intoto { api_version, spec },
        EntryKind::Jar => ProposedEntry::Jar { api_version, spec },
        EntryKind::Rekord => ProposedEntry::Rekord { api_version, spec },
        EntryKind::Rfc3161 => ProposedEntry::Rfc3161 { api_version, spec },
        EntryKind::Rpm => ProposedEntry::Rpm { api_version, spec },
        _ => ProposedEntry::Tuf { api_version, spec },
    }
}

/// The rest of the line as a JSON document.
fn document(arguments: &mut Arguments<'_>) -> Document {
    match Document::read(arguments.alloc(), arguments.rest().as_bytes()) {
        Ok(document) => document,
        Err(_) => {
            arguments.refuse();
            Document::object(arguments.alloc())
        }
    }
}
