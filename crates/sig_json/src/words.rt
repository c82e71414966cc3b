//! `Words`: a name or a text of a tree.
ghost use Rattle.std.specs.Prelude.{◌≡◌, IfOk};
ghost use Rattle.std.specs.Cow.{cow_str_bytes};
ghost use Rattle.std.specs.Str.{IsUtf8, bytes_eq};

use sig_base::OutOfMemory;
use std::alloc::Global;
use std::borrow::CowStr;

/// A name or a text of a tree: in memory of its own in a document, and borrowed from the text that is read in a tree
/// that is dropped before that text is.
pub type Words<'t> = CowStr<'t, Global>;

/// The text in memory of its own. Fails only if out of memory.
pub(crate) fn own<'t>(alloc: Global, text: &str) -> Result<Words<'t>, OutOfMemory>
    ensures same { IfOk result (λ words. cow_str_bytes words ≡ text.now) }
    ensures utf8 { IfOk result (λ words. IsUtf8 (cow_str_bytes words)) }
{
    Ok(CowStr::Owned(String::from_str(alloc, text)?))
}

/// The text where it is. It takes no memory.
pub(crate) fn borrow<'t>(text: &'t str) -> Words<'t>
    ensures same { cow_str_bytes result ≡ text.now }
    ensures utf8 { IsUtf8 (cow_str_bytes result) }
{
    CowStr::Borrowed(text)
}

/// Whether two names are the same. Most differ in their length or their first byte, which is seen without a call.
#[tactic(auto, using(crate::proofs::RemainingNames::two_names))]
#[inline(always)]
pub(crate) fn is_same_name(name: &str, other: &str) -> bool
    ensures { result ≡ bytes_eq name.now other.now }
{
    let bytes = name.as_bytes();
    let others = other.as_bytes();
    if bytes.len() != others.len() {
        return false;
    }
    if !bytes.is_empty() && bytes[0] != others[0] {
        return false;
    }
    are_equal(name, other)
}

#[inline(never)]
fn are_equal(name: &str, other: &str) -> bool
    ensures { result ≡ bytes_eq name.now other.now }
{
    name == other
}
