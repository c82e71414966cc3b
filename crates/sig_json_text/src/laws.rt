//! What the definitions of canonical JSON mean, in the subject's words. It has no code.
ghost use Rattle.std.specs.Prelude.{◌≡◌, ◌↔◌, ℕ, List, [], Some, None, IsTrue, false, map, chars};
ghost use Rattle.std.specs.Char.Utf16.{utf16_chars};
ghost use Rattle.std.specs.Map.{values_of};
ghost use Rattle.std.specs.Str.{IsUtf8};
ghost use Rattle.serde_json.specs.Data.{Data, Members, object};
ghost use Rattle.serde_json.specs.Written.{has_float};
ghost use Rattle.sig_json.specs.NamedTree.{HasNames};
ghost use Rattle.sig_json_text.specs.Canonical.{Sorted, canon, canon_members, in_braces, utf16_units};
ghost use Rattle.sig_json_text.specs.Large.{has_large};
ghost use Rattle.sig_json_text.specs.Order.{UnitsAscend, IsSorting};

/// The UTF-16 code units of a text are decoded to its characters, so texts that differ have units that differ.
pub fn units_of_texts()
    ensures decoded { (text : List ℕ) → IsUtf8 text → utf16_chars (utf16_units text) ≡ map Some (chars text) }
    ensures distinct { (one other : List ℕ) → IsUtf8 one → IsUtf8 other
        → utf16_units one ≡ utf16_units other → one ≡ other }
{}

/// The members of an object come in the ascending order of the UTF-16 code units of their names, each once and no
/// others (RFC 8785 section 3.2.3), where the names are texts and no name is there twice, as in a map from strings in
/// byte order.
pub fn members_in_order()
    ensures object { (ms : Members) → HasNames ms → (text : List ℕ)
        → (canon (object ms) ≡ Some text)
        ↔ ((sorted : Sorted) × IsSorting ms sorted × (text ≡ in_braces (values_of sorted))) }
    ensures exact { (ms : Members) → HasNames ms → (sorted : Sorted)
        → (canon_members ms [] ≡ Some sorted) ↔ IsSorting ms sorted }
    ensures ascend { (ms : Members) (sorted : Sorted)
        → canon_members ms [] ≡ Some sorted → UnitsAscend sorted }
{}

/// A tree without floats has no canonical text if and only if it holds an integer outside plus or minus 2^53 - 1, at
/// any depth.
pub fn large_integers()
    ensures exact { (d : Data) → has_float d ≡ false
        → (canon d ≡ None) ↔ IsTrue (has_large d) }
{}
