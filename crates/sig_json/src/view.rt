//! `Json`: a view of a value of a document.
ghost use Rattle.std.specs.Prelude.{◌≡◌, false};
ghost use Rattle.sig_json.specs.View.{view};
ghost use Rattle.serde_json.specs.Written.{has_float};
ghost use Rattle.sig_json.specs.NamedTree.{IsNamedTree};
ghost use Rattle.sig_json.specs.NamedTreeProofs.{IsNamedTree-prop};

use crate::tree::Tree;

/// A value of a document, borrowed. Its calls take no memory, and return `None` if and only if the value is of another
/// kind or what is asked for is not there.
#[derive(Clone, Copy)]
pub struct Json<'a, 't> {
    pub(crate) value: &'a Tree<'t>,
    ghost without_float: { has_float (view value.now) ≡ false },
    ghost named: { IsNamedTree (view value.now) } by { IsNamedTree-prop (view value.now) },
}

#[tactic(auto, using(crate::proofs::FloatlessTrees::floatless, crate::proofs::NamedTrees::named, crate::proofs::Lists::lengths))]
impl<'a, 't> Json<'a, 't> {
    ghost use Rattle.std.specs.Prelude.{◌↔◌, IsSome, is_some, option_map, option_and_then, length};
    ghost use Rattle.serde_json.specs.Find.{get as member_in, at, as_null, as_bool, as_str, as_number, as_integer};
    ghost use Rattle.sig_json.specs.List.{list_of};
    ghost use Rattle.sig_json.specs.Tree.{tree};

    /// The tree itself: no number of it is a float, and the names of each object in it ascend in byte order.
    pub fn as_tree(self) -> &'a Tree<'t>
        ensures value { view result.now ≡ tree self.entry }
        ensures whole { has_float (view result.now) ≡ false }
        ensures named { IsNamedTree (view result.now) }
    {
        self.value
    }

    /// The member of this name of an object.
    pub fn get(self, name: &str) -> Option<Json<'a, 't>>
        ensures { option_map tree result ≡ member_in name.now (tree self.entry) }
    {
        match self.value.get(name) {
            Some(value) => Some(Json { value }),
            None => None,
        }
    }

    /// Whether the value is null.
    pub fn is_null(self) -> bool
        ensures { result ≡ is_some (as_null (tree self.entry)) }
    {
        self.value.is_null()
    }

    /// The characters of a text, without quotes and escapes.
    pub fn text(self) -> Option<&'a str>
        ensures { option_map (λ text. text.now) result ≡ as_str (tree self.entry) }
    {
        self.value.as_str()
    }

    /// A number: an integer from -2^63 to 2^64 - 1.
    pub fn integer(self) -> Option<i128>
        ensures value { result ≡ option_and_then as_integer (as_number (tree self.entry)) }
        ensures kind { IsSome result ↔ IsSome (as_number (tree self.entry)) }
    {
        match self.value.as_number() {
            Some(number) => number.as_i128(),
            None => None,
        }
    }

    /// Whether a truth value is `true`.
    pub fn boolean(self) -> Option<bool>
        ensures { result ≡ as_bool (tree self.entry) }
    {
        self.value.as_bool()
    }

    /// How many elements a list has.
    pub fn list_len(self) -> Option<usize>
        ensures { result ≡ option_map (λ elements. length elements) (list_of (tree self.entry)) }
    {
        match self.value.as_array() {
            Some(items) => Some(items.len()),
            None => None,
        }
    }

    /// The element of a list at an index, counted from 0.
    pub fn item(self, place: usize) -> Option<Json<'a, 't>>
        ensures { option_map tree result ≡ at place (tree self.entry) }
    {
        match self.value.item(place) {
            Some(value) => Some(Json { value }),
            None => None,
        }
    }
}
