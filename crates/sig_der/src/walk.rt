//! The elements of a content.

ghost use Rattle.std.specs.Prelude.{◌≡◌, List};
ghost use Rattle.sig_der.specs.Reading.{Piece};
ghost use Rattle.sig_der.specs.Joined.{AreJoined};
ghost use Rattle.sig_der.specs.Children.{children_of, IsPiece, all_read};
ghost use Rattle.sig_der.specs.Walks.{left_of};

use crate::iter::Children;

/// Returns the elements of the content in order. The items are the results of `read_element` on the content and then
/// on each rest; they end when the rest is empty, and after the first error.
pub fn children(content: &[u8]) -> Children<'_>
    // The results, one after another.
    ensures answers { left_of result ≡ children_of content.now }
    // A content that is elements one after another has these as its children.
    ensures elements { (ps : List Piece) → AreJoined IsPiece (λ p. p.whole) content.now ps
        → left_of result ≡ all_read ps }
{
    Children { rest: content }
}
