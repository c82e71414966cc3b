//! What is shown of a payload: its JSON, indented by two spaces, the members of each object in the byte order of their
//! names.
//!
//! ```text
//! {
//!   "critical": {
//!     "identity": {
//!       "docker-reference": "registry.example/image"
//!     },
//!     ..
//!   },
//!   "optional": {
//!     "creator": "someone",
//!     "env": "prod"
//!   }
//! }
//! ```
//!
//! It takes no memory. The bytes are tested, but not stated by a clause.
use crate::simple_signing::{Optional, SimpleSigning};
use sig_json::{Json, Members};
use std::fmt;

/// Shows the payload's JSON, indented by two spaces. Members are in the byte order of their names, and for a name that
/// is there twice, as an annotation too, the payload's own member comes first. Annotations that are not an object are
/// not shown.
impl fmt::Display for SimpleSigning {
    fn fmt<W: fmt::Write>(&self, f: &mut fmt::Formatter<W>) -> fmt::Result {
        let critical = &self.critical;
        f.write_str("{\n  \"critical\": {\n    \"identity\": {\n      \"docker-reference\": ")?;
        write_quoted(f, critical.identity.docker_reference.as_str())?;
        f.write_str("\n    },\n    \"image\": {\n      \"docker-manifest-digest\": ")?;
        write_quoted(f, critical.image.docker_manifest_digest.as_str())?;
        f.write_str("\n    },\n    \"type\": ")?;
        write_quoted(f, critical.type_name.as_str())?;
        f.write_str("\n  },\n  \"optional\": ")?;
        match &self.optional {
            Some(optional) => write_optional(f, optional)?,
            None => f.write_str("null")?,
        }
        f.write_str("\n}")
    }
}

/// A text in quotation marks, with the escapes of JSON (RFC 8259 section 7).
fn write_quoted<W: fmt::Write>(f: &mut fmt::Formatter<W>, text: &str) -> fmt::Result {
    f.write_str("\"")?;
    for c in text.chars() {
        write_escaped(f, c)?;
    }
    f.write_str("\"")
}

fn write_escaped<W: fmt::Write>(f: &mut fmt::Formatter<W>, c: char) -> fmt::Result {
    match c {
        '"' => f.write_str("\\\""),
        '\\' => f.write_str("\\\\"),
        '\u{8}' => f.write_str("\\b"),
        '\u{c}' => f.write_str("\\f"),
        '\n' => f.write_str("\\n"),
        '\r' => f.write_str("\\r"),
        '\t' => f.write_str("\\t"),
        '\0'..='\u{1f}' => {
            let code = u32::from(c);
            write!(f, "\\u{code:04x}")
        }
        _ => f.write_char(c),
    }
}

/// How far the members of `optional` are indented, in steps of two spaces.
const OPTIONAL_LEVEL: usize = 2;

/// Writes what a signer says beside the image: its own two members among the annotations.
fn write_optional<W: fmt::Write>(f: &mut fmt::Formatter<W>, optional: &Optional) -> fmt::Result {
    let extra = optional.extra.view();
    let mut before = write_annotations(f, '{', extra, "", Some("creator"))?;
    if let Some(creator) = &optional.creator {
        write_name(f, before, OPTIONAL_LEVEL, "creator")?;
        write_quoted(f, creator.as_str())?;
        before = ',';
    }
    before = write_annotations(f, before, extra, "creator", Some("timestamp"))?;
    if let Some(timestamp) = optional.timestamp {
        write_name(f, before, OPTIONAL_LEVEL, "timestamp")?;
        write!(f, "{timestamp}")?;
        before = ',';
    }
    before = write_annotations(f, before, extra, "timestamp", None)?;
    write_end(f, before, OPTIONAL_LEVEL, '}')
}

/// Writes the annotations from one name on and before another. Returns what comes before the next member.
fn write_annotations<W: fmt::Write>(
    f: &mut fmt::Formatter<W>,
    before: char,
    extra: Json<'_, '_>,
    from: &str,
    to: Option<&str>,
) -> Result<char, fmt::Error> {
    let mut before = before;
    let Some(members) = extra.members() else {
        return Ok(before);
    };
    for (name, value) in members {
        if name >= from && is_before(name, to) {
            write_name(f, before, OPTIONAL_LEVEL, name)?;
            write_value(f, value, OPTIONAL_LEVEL)?;
            before = ',';
        }
    }
    Ok(before)
}

fn is_before(name: &str, to: Option<&str>) -> bool {
    match to {
        Some(to) => name < to,
        None => true,
    }
}

/// Begins a line of a member: its name.
fn write_name<W: fmt::Write>(
    f: &mut fmt::Formatter<W>,
    before: char,
    level: usize,
    name: &str,
) -> fmt::Result {
    write_start(f, before, level)?;
    write_quoted(f, name)?;
    f.write_str(": ")
}

/// Begins a line, after the bracket or comma before it.
fn write_start<W: fmt::Write>(
    f: &mut fmt::Formatter<W>,
    before: char,
    level: usize,
) -> fmt::Result {
    f.write_char(before)?;
    write_line(f, level)
}

/// Writes a value whose members or elements are one step deeper than `level`.
#[cycle(show)]
#[tactic(auto, using(crate::proofs::ValueDepths::nesting))]
fn write_value<W: fmt::Write>(
    f: &mut fmt::Formatter<W>,
    value: Json<'_, '_>,
    level: usize,
) -> fmt::Result {
    if let Some(members) = value.members() {
        return write_members(f, members, level.saturating_add(1));
    }
    match value.list_len() {
        Some(len) => write_list(f, value, len, level.saturating_add(1)),
        None => write_scalar(f, value),
    }
}

#[cycle(show)]
#[tactic(auto, using(crate::proofs::ValueDepths::nesting))]
fn write_members<W: fmt::Write>(
    f: &mut fmt::Formatter<W>,
    members: Members<'_, '_>,
    level: usize,
) -> fmt::Result {
    let mut before = '{';
    'members: for (name, value) in members {
        write_name(f, before, level, name)?;
        write_value(f, value, level)?;
        before = ',';
    }
    write_end(f, before, level, '}')
}

#[cycle(show)]
#[tactic(auto, using(crate::proofs::ValueDepths::nesting))]
fn write_list<W: fmt::Write>(
    f: &mut fmt::Formatter<W>,
    list: Json<'_, '_>,
    len: usize,
    level: usize,
) -> fmt::Result {
    let mut before = '[';
    for place in 0..len {
        if let Some(item) = list.item(place) {
            write_start(f, before, level)?;
            write_value(f, item, level)?;
            before = ',';
        }
    }
    write_end(f, before, level, ']')
}

/// Writes null, a truth value, a number or a text.
fn write_scalar<W: fmt::Write>(f: &mut fmt::Formatter<W>, value: Json<'_, '_>) -> fmt::Result {
    if let Some(text) = value.text() {
        return write_quoted(f, text);
    }
    if let Some(number) = value.integer() {
        return write!(f, "{number}");
    }
    match value.boolean() {
        Some(truth) => write!(f, "{truth}"),
        None => f.write_str("null"),
    }
}

/// Ends a list or an object. An empty one is written on the same line, as `{}`.
fn write_end<W: fmt::Write>(
    f: &mut fmt::Formatter<W>,
    before: char,
    level: usize,
    end: char,
) -> fmt::Result {
    if before == ',' {
        write_line(f, level.saturating_sub(1))?;
    } else {
        f.write_char(before)?;
    }
    f.write_char(end)
}

fn write_line<W: fmt::Write>(f: &mut fmt::Formatter<W>, level: usize) -> fmt::Result {
    f.write_str("\n")?;
    for _ in 0..level {
        f.write_str("  ")?;
    }
    Ok(())
}
