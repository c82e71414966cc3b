//! The order of the members in a canonical text (RFC 8785 section 3.2.3).
ghost use Rattle.std.specs.Cmp.Lexicographic.{slice_cmp};
ghost use Rattle.std.specs.Map.{values_of};
ghost use Rattle.std.specs.Ordering.{is_lt, nat_cmp};
ghost use Rattle.std.specs.Prelude.{◌≡◌, ◌==◌, ◌||◌, IfOk, IfSome, [], map};
ghost use Rattle.sig_json.specs.NamedTree.{HasNamedValues};
ghost use Rattle.sig_json.specs.View.{members_view};
ghost use Rattle.sig_json_text.specs.Canonical.{utf16_units};
ghost use Rattle.sig_json_text.specs.Writes.{by_units, pair_of};

use crate::named_member::Member;
use sig_base::OutOfMemory;
use sig_json::Entry;
use std::alloc::Global;
use std::collections::BTreeMap;

/// The members in the ascending order of the UTF-16 code units of their names. They come in the byte order of these,
/// which is the same, except where a name has a character above U+FFFF and another has one from U+E000 to there: so
/// most objects need no sort.
pub(crate) fn sorted_members<'a, 't>(
    alloc: Global,
    members: &'a Vec<Entry<'t>>,
) -> Result<Vec<Member<'a, 't>>, OutOfMemory>
    requires { HasNamedValues (members_view members.now.items) }
    ensures { IfOk result (λ sorted.
        map pair_of sorted.items ≡ values_of (by_units (members_view members.now.items) [])) }
{
    match if_sorted(alloc, members)? {
        Some(sorted) => Ok(sorted),
        None => by_insertion(alloc, members),
    }
}

/// The members as they come, if each name comes after those before it.
#[tactic(auto, using(crate::proofs::MemberTexts::sorts))]
fn if_sorted<'a, 't>(
    alloc: Global,
    members: &'a Vec<Entry<'t>>,
) -> Result<Option<Vec<Member<'a, 't>>>, OutOfMemory>
    requires { HasNamedValues (members_view members.now.items) }
    ensures { IfOk result (λ found. IfSome found (λ sorted.
        map pair_of sorted.items ≡ values_of (by_units (members_view members.now.items) []))) }
{
    let mut sorted = Vec::with_capacity(alloc, members.len())?;
    let mut last = Vec::new(alloc);
    'members: for member in members {
        let name = member.0.as_str();
        let next = utf16_units(alloc, name)?;
        if !comes_last(sorted.len(), &last, &next) {
            return Ok(None);
        }
        let value = &member.1;
        sorted.push(Member { name, value })?;
        last = next;
    }
    Ok(Some(sorted))
}

/// Whether a name of these units comes after all of so many, of which the last has those units.
fn comes_last(count: usize, last: &[u16], units: &[u16]) -> bool
    ensures { result ≡ (count == 0 || is_lt (slice_cmp nat_cmp last.now units.now)) }
{
    count == 0 || last.cmp(units).is_lt()
}

/// The members sorted by a map.
#[tactic(auto, using(crate::proofs::MemberTexts::sorts))]
fn by_insertion<'a, 't>(
    alloc: Global,
    members: &'a Vec<Entry<'t>>,
) -> Result<Vec<Member<'a, 't>>, OutOfMemory>
    requires { HasNamedValues (members_view members.now.items) }
    ensures { IfOk result (λ sorted.
        map pair_of sorted.items ≡ values_of (by_units (members_view members.now.items) [])) }
{
    let mut sorted = BTreeMap::new(alloc);
    'members: for member in members {
        let name = member.0.as_str();
        let units = utf16_units(alloc, name)?;
        let value = &member.1;
        sorted.insert(units, Member { name, value })?;
    }
    Ok(sorted.into_values().collect(alloc)?)
}

/// The UTF-16 code units of a text.
fn utf16_units(alloc: Global, text: &str) -> Result<Vec<u16>, OutOfMemory>
    ensures { IfOk result (λ units. units.items ≡ utf16_units text.now) }
{
    let mut units = Vec::new(alloc);
    'units: for c in text.chars() {
        let mut buffer = [0; 2];
        units.extend_from_slice(c.encode_utf16(&mut buffer))?;
    }
    Ok(units)
}
