//! Room for the elements of a list and the members of an object while they are read.
ghost use Rattle.std.specs.Prelude.{◌≡◌, ◌++◌, [], ◌∷◌, OnOk, IfOk};

use sig_base::OutOfMemory;
use std::alloc::Global;

/// How many have room once there is a second; no more than these move to a vector of their own size.
const SECOND_ROOM: usize = 8;

/// So many elements are taken from a vector until it gives up their room: a large one does so some hundred times.
const PIECE: usize = 65_536;

/// Adds one after the others.
pub(crate) fn add<T: Drop>(found: &mut Vec<T>, one: T) -> Result<(), OutOfMemory>
    ensures { OnOk result (found.new.items ≡ found.old.items ++ one ∷ []) }
{
    make_room(found)?;
    found.push(one)?;
    Ok(())
}

/// Makes room for one more. The first takes room for itself alone, since most lists and objects of a large document
/// have no other, and the second takes it for a few.
pub(crate) fn make_room<T: Drop>(found: &mut Vec<T>) -> Result<(), OutOfMemory>
    ensures { found.new.items ≡ found.old.items }
{
    match found.len() {
        0 => Ok(found.reserve_exact(1)?),
        1 => Ok(found.reserve_exact(SECOND_ROOM - 1)?),
        _ => Ok(()),
    }
}

/// The same ones in a vector of their own size. Few move to a new one, so that the room in which they grew is whole for
/// the next ones to grow in: if it were cut, what is left behind would be too small for that.
pub(crate) fn fitted<T: Drop>(alloc: Global, mut found: Vec<T>) -> Result<Vec<T>, OutOfMemory>
    ensures { IfOk result (λ own. own.items ≡ found.items) }
{
    let count = found.len();
    if count == found.capacity() || count > SECOND_ROOM {
        found.shrink_to_fit();
        return Ok(found);
    }
    let mut own = Vec::with_capacity(alloc, count)?;
    own.append(&mut found)?;
    Ok(own)
}

/// Gives up the room of the elements that are gone, each time that a piece of them is.
pub(crate) fn give_up_room<T: Drop>(left: &mut Vec<T>)
    ensures { left.new.items ≡ left.old.items }
{
    if left.len() % PIECE == 0 {
        left.shrink_to_fit();
    }
}
