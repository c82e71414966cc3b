//! Lists, element by element.
ghost use Rattle.std.specs.Prelude.{◌≡◌, IfOk, List, take};
ghost use Rattle.sig_json.specs.Writing.{list_tree, members};
ghost use Rattle.sig_json.specs.Data.{Data, put, string};
ghost use Rattle.sig_json.specs.Tree.{document_tree};
ghost use Rattle.sig_shown.specs.ShownValues.{count_tree};

use sig_base::{OutOfMemory, Text};
use sig_json::{Document, Object};
use std::alloc::Global;

/// How one kind of value is shown as an element of a list.
pub trait Shown {
    /// What is shown.
    type Item;

    /// The tree of a value.
    ghost tree: { Self.Item → Data };

    /// A value as a document. Fails only if out of memory.
    fn show(alloc: Global, item: &Self::Item) -> Result<Document, OutOfMemory>
        ensures { IfOk result (λ document. document_tree document ≡ tree item.now) };
}

/// Shows texts as they are.
pub enum ShownText {}

impl Shown for ShownText {
    type Item = Text;

    ghost tree = { string };

    fn show(alloc: Global, item: &Text) -> Result<Document, OutOfMemory> {
        Document::of_text(alloc, item.as_str())
    }
}

/// Shows numbers as texts.
pub enum ShownCount {}

impl Shown for ShownCount {
    type Item = usize;

    ghost tree = { count_tree };

    #[tactic(auto, unfolding(crate::specs::ShownValues::count_tree))]
    fn show(alloc: Global, item: &usize) -> Result<Document, OutOfMemory> {
        let count = *item;
        let text = format!(in alloc; "{count}")?;
        Document::of_text(alloc, text.as_str())
    }
}

/// Returns the elements at the front, at most `most`.
pub fn first<T>(items: &[T], most: usize) -> &[T]
    ensures { result.now ≡ take most items.now }
{
    if items.len() <= most {
        return items;
    }
    &items[..most]
}

/// The object with a list as a member. Fails only if out of memory.
pub fn with_list<T: Shown>(
    object: Object,
    alloc: Global,
    name: &str,
    items: &[T::Item],
) -> Result<Object, OutOfMemory>
    ensures { IfOk result (λ made. members made ≡ put name.now (list_tree T.tree items.now) (members object)) }
{
    let value = list_document::<T>(alloc, items)?;
    object.with(alloc, name, value)
}

/// A list. Fails only if out of memory.
fn list_document<T: Shown>(alloc: Global, items: &[T::Item]) -> Result<Document, OutOfMemory>
    ensures { IfOk result (λ document. document_tree document ≡ list_tree T.tree items.now) }
{
    let mut list = Document::list(alloc);
    'items: for item in items {
        list.push(T::show(alloc, item)?)?;
    }
    Ok(list)
}
