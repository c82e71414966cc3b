//! The kinds of the values of member tables: text, bytes, hash, texts by their names.
ghost use Rattle.std.specs.Prelude.{◌≡◌};
ghost use Rattle.sig_json.specs.View.{members_view};
ghost use Rattle.sig_json.specs.Gathered.{InOrder};
ghost use Rattle.sig_json.specs.Kinds.{hash_of, texts_by_name};
ghost use Rattle.sig_json.specs.Members.{members_list};
ghost use Rattle.sig_base.specs.Answers.{Answers};
ghost use Rattle.sig_json.specs.OrMember.{or_member};
ghost use Rattle.sig_json.specs.Tree.{tree};

use crate::element::ElementReader;
use crate::error::MemberError;
use crate::tree::Entry;
use crate::view::Json;
use hex::FromHex;
use sig_base::{Bytes, Text, TextMap};
use std::alloc::Global;

/// Reads texts.
pub enum TextReader {}

/// Reads texts as the bytes that they are.
pub enum TextBytesReader {}

/// Reads bytes written as padded standard base64 (RFC 4648 section 4).
pub enum BytesReader {}

/// Reads 32 bytes written as 64 hexadecimal digits in either case (RFC 4648 section 8).
pub enum HashReader {}

/// Reads objects whose every member is a text.
pub enum TextMapReader {}

impl ElementReader for TextReader {
    ghost use Rattle.sig_json.specs.Kinds.{text_of};

    type Item = Text;

    ghost meaning = { text_of };

    #[tactic(auto, unfolding(crate::specs::Kinds::text_of))]
    fn read(alloc: Global, json: Json<'_, '_>) -> Result<Text, MemberError> {
        match json.text() {
            Some(text) => Ok(Text::copy_of(alloc, text)?),
            None => Err(MemberError::Member),
        }
    }
}

impl ElementReader for TextBytesReader {
    ghost use Rattle.sig_json.specs.Kinds.{text_of};

    type Item = Bytes;

    ghost meaning = { text_of };

    #[tactic(auto, unfolding(crate::specs::Kinds::text_of))]
    fn read(alloc: Global, json: Json<'_, '_>) -> Result<Bytes, MemberError> {
        match json.text() {
            Some(text) => Ok(Bytes::copy_of(alloc, text.as_bytes())?),
            None => Err(MemberError::Member),
        }
    }
}

impl ElementReader for BytesReader {
    ghost use Rattle.sig_json.specs.Kinds.{bytes_of};

    type Item = Bytes;

    ghost meaning = { bytes_of };

    #[tactic(auto, unfolding(crate::specs::Kinds::bytes_of))]
    fn read(alloc: Global, json: Json<'_, '_>) -> Result<Bytes, MemberError> {
        let Some(text) = json.text() else {
            return Err(MemberError::Member);
        };
        match Bytes::of_base64(alloc, text.as_bytes())? {
            Some(bytes) => Ok(bytes),
            None => Err(MemberError::Member),
        }
    }
}

impl ElementReader for HashReader {
    ghost use Rattle.std.specs.Prelude.{ℕ, List};
    ghost use Rattle.sig_json.specs.Kinds.{hash_of};

    type Item = [u8; 32];

    ghost meaning = { hash_of };

    fn read(_alloc: Global, json: Json<'_, '_>) -> Result<[u8; 32], MemberError> {
        hash(json).ok_or(MemberError::Member)
    }
}

impl ElementReader for TextMapReader {
    ghost use Rattle.sig_json.specs.Kinds.{text_map_of};

    type Item = TextMap;

    ghost meaning = { text_map_of };

    #[tactic(auto, unfolding(crate::specs::Kinds::text_map_of))]
    fn read(alloc: Global, json: Json<'_, '_>) -> Result<TextMap, MemberError> {
        match json.value.as_object() {
            Some(members) => texts_of_members(alloc, members),
            None => Err(MemberError::Member),
        }
    }
}

/// The texts that members are, by their names. Fails with `Member` if one is not a text.
#[tactic(auto, using(crate::proofs::TextMaps::text_maps))]
fn texts_of_members(alloc: Global, members: &Vec<Entry<'_>>) -> Result<TextMap, MemberError>
    requires { InOrder members.now.items }
    ensures { Answers MemberError.OutOfMemory (λ x. x) result
        (or_member (texts_by_name (members_list (members_view members.now.items)))) }
{
    let mut texts = TextMap::new(alloc);
    'members: for member in members {
        let Some(text) = member.1.as_str() else {
            return Err(MemberError::Member);
        };
        texts.insert(member.0.as_str(), text)?;
    }
    Ok(texts)
}

/// The hash that a value is.
#[tactic(auto, unfolding(crate::specs::Kinds::hash_of))]
pub(crate) fn hash(json: Json<'_, '_>) -> Option<[u8; 32]>
    ensures { result ≡ hash_of (tree json.entry) }
{
    match json.text() {
        Some(text) => <[u8; 32] as FromHex>::from_hex(text).ok(),
        None => None,
    }
}
