//! One name of a subject alternative name: RFC 5280 section 4.2.1.6.
//!
//! ```text
//! GeneralName ::= CHOICE {
//!      otherName                 [0]  OtherName,
//!      rfc822Name                [1]  IA5String,
//!      uniformResourceIdentifier [6]  IA5String, ... }
//! OtherName ::= SEQUENCE {
//!      type-id    OBJECT IDENTIFIER,
//!      value      [0] EXPLICIT ANY DEFINED BY type-id }
//! ```

ghost use Rattle.std.specs.Prelude.{◌≡◌, option_map};
ghost use Rattle.sig_certificate.specs.Names.{is_context, is_ascii_text, other_value, other_name, general_name_of};
ghost use Rattle.sig_certificate.specs.Names.{name_at};
ghost use Rattle.sig_certificate.specs.BorrowedNames.{borrowed_name};

use sig_der::{tag, take_any, take_tag, take_whole};

/// A name, borrowed from the value of the extension.
#[derive(Clone, Copy, Debug)]
pub enum GeneralName<'a> {
    /// The text of an rfc822Name, an email address in ASCII.
    Email(&'a [u8]),
    /// The text of a uniformResourceIdentifier, in ASCII.
    Uri(&'a [u8]),
    /// The contents octets of an otherName's type-id, and those of its value.
    Other(&'a [u8], &'a [u8]),
    /// A name of another form, which is not read.
    Unread,
}

/// Returns the name at the front of the bytes, and what follows it. `None` if the bytes do not begin with a name.
#[tactic(auto, unfolding(crate::specs::Names::name_at))]
pub(crate) fn name_at(bytes: &[u8]) -> Option<(GeneralName<'_>, &[u8])>
    ensures { name_at bytes.now ≡ option_map (λ x. (borrowed_name x.0, x.1.now)) result }
{
    let (element, rest) = take_any(bytes)?;
    let name = general_name_of(element.tag, element.content)?;
    Some((name, rest))
}

/// Returns the name that an element of this tag and these contents octets is. `None` if it is not a name, or a
/// malformed one.
#[tactic(auto, unfolding(crate::specs::Names::general_name_of))]
fn general_name_of(tag: u8, content: &[u8]) -> Option<GeneralName<'_>>
    ensures { general_name_of tag content.now ≡ option_map borrowed_name result }
{
    if tag == tag::RFC822_NAME {
        return if is_ascii(content) {
            Some(GeneralName::Email(content))
        } else {
            None
        };
    }
    if tag == tag::UNIFORM_RESOURCE_IDENTIFIER {
        return if is_ascii(content) {
            Some(GeneralName::Uri(content))
        } else {
            None
        };
    }
    if tag == tag::OTHER_NAME {
        let (kind, value) = other_name(content)?;
        return Some(GeneralName::Other(kind, value));
    }
    if is_context(tag) {
        Some(GeneralName::Unread)
    } else {
        None
    }
}

fn is_ascii(text: &[u8]) -> bool
    ensures { result ≡ is_ascii_text text.now }
{
    text.iter().all(|b| *b < 128)
}

/// Returns the type-id and the value of the otherName of these contents octets.
#[tactic(auto, unfolding(crate::specs::Names::other_name))]
fn other_name(bytes: &[u8]) -> Option<(&[u8], &[u8])>
    ensures { other_name bytes.now ≡ option_map (λ x. (x.0.now, x.1.now)) result }
{
    let (oid, rest) = take_tag(bytes, tag::OBJECT_IDENTIFIER)?;
    let value = other_value(rest)?;
    if oid.content.is_empty() {
        return None;
    }
    Some((oid.content, value))
}

/// Returns the contents octets of the one element in a `[0] EXPLICIT` that the bytes are.
#[tactic(auto, unfolding(crate::specs::Names::other_value))]
fn other_value(bytes: &[u8]) -> Option<&[u8]>
    ensures { other_value bytes.now ≡ option_map (λ v. v.now) result }
{
    let explicit = take_whole(bytes, tag::OTHER_NAME_VALUE)?;
    let (value, rest) = take_any(explicit.content)?;
    if rest.is_empty() {
        Some(value.content)
    } else {
        None
    }
}

fn is_context(tag: u8) -> bool
    ensures { result ≡ is_context tag }
{
    (tag > 127 && tag < 137) || (tag > 159 && tag < 169)
}
