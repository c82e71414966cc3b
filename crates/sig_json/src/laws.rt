//! What the definitions of trees mean, in the subject's words. It has no code.
ghost use Rattle.std.specs.Prelude.{◌≡◌, ◌≢◌, ◌↔◌, ◌++◌, ℕ, List, [], ◌∷◌, Some, None, IsSome, IsTrue, false};
ghost use Rattle.serde_json.specs.Data.{Data, Members};
ghost use Rattle.serde_json.specs.Find.{as_object, get};
ghost use Rattle.serde_json.specs.Written.{has_float};
ghost use Rattle.sig_json.specs.Builders.{with_last, with_member};
ghost use Rattle.sig_json.specs.List.{list_of};
ghost use Rattle.sig_json.specs.NamedTree.{HasNames, IsNamedTree, NamesAscend};
ghost use Rattle.sig_json.specs.Only.{is_among, only, without};
ghost use Rattle.sig_json.specs.SameTree.{same_tree};
ghost use Rattle.sig_json.specs.Tree.{document_tree, tree};
ghost use Rattle.sig_json.specs.declared.document.Document.{Document};
ghost use Rattle.sig_json.specs.declared.view.Json.{Json};

/// In every document, read or built, and in every view of one, the names of each object are texts that ascend in byte
/// order, at every depth, so that none is there twice.
pub fn trees_are_named()
    ensures document { (document : Document) → IsNamedTree (document_tree document) }
    ensures view { (json : Json) → IsNamedTree (tree json) }
    ensures names { (ms : Members) → NamesAscend ms → HasNames ms }
{}

/// No number of a document, read or built, or of a view of one is a float, at any depth.
pub fn trees_have_no_floats()
    ensures document { (document : Document) → has_float (document_tree document) ≡ false }
    ensures view { (json : Json) → has_float (tree json) ≡ false }
{}

/// A member that is set in an object is found under its name, whether it is new or takes the place of an old one; what
/// is found under any other name stays as it was.
pub fn members_are_set()
    ensures found { (name : List ℕ) (value tree : Data) → IsSome (as_object tree)
        → get name (with_member name value tree) ≡ Some value }
    ensures others { (name other : List ℕ) (value tree : Data) → other ≢ name
        → get other (with_member name value tree) ≡ get other tree }
{}

/// Of an object that is read for the members of some names, each member of these names is found as in the whole
/// object, and none of another name. A value that is not an object is read whole.
pub fn members_are_kept()
    ensures listed { (names : List (List ℕ)) (name : List ℕ) (tree : Data) → IsTrue (is_among names name)
        → get name (only names tree) ≡ get name tree }
    ensures others { (names : List (List ℕ)) (name : List ℕ) (tree : Data) → is_among names name ≡ false
        → get name (only names tree) ≡ None }
    ensures whole { (names : List (List ℕ)) (tree : Data) → as_object tree ≡ None → only names tree ≡ tree }
{}

/// Of an object without its members of some names, each member of another name is found as in the whole object, and
/// none of these names. A value that is not an object stays whole.
pub fn members_are_dropped()
    ensures listed { (names : List (List ℕ)) (name : List ℕ) (tree : Data) → IsTrue (is_among names name)
        → get name (without names tree) ≡ None }
    ensures others { (names : List (List ℕ)) (name : List ℕ) (tree : Data) → is_among names name ≡ false
        → get name (without names tree) ≡ get name tree }
    ensures whole { (names : List (List ℕ)) (tree : Data) → as_object tree ≡ None → without names tree ≡ tree }
{}

/// An element that is added to a list comes after all that were there.
pub fn elements_are_added()
    ensures last { (value tree : Data) (elements : List Data) → list_of tree ≡ Some elements
        → list_of (with_last value tree) ≡ Some (elements ++ value ∷ []) }
{}

/// The test of `==` at documents holds exactly of equal trees, where no number of the one is a float.
pub fn same_trees()
    ensures exact { (one other : Data) → has_float one ≡ false
        → IsTrue (same_tree one other) ↔ (one ≡ other) }
{}
