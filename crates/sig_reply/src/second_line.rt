//! The second lines that several commands have: how a list of all entries compares with what was proved.
ghost use Rattle.std.specs.Prelude.{◌≡◌, IfOk};
ghost use Rattle.sig_reply.specs.SecondLine.{collision_line, other_line};

use sig_base::{Collision, OutOfMemory, Text};
use std::alloc::Global;

/// `other list`: the list is of another tree. Fails only if out of memory.
pub fn other_text(alloc: Global) -> Result<Text, OutOfMemory>
    ensures { IfOk result (λ line. line ≡ other_line) }
{
    Text::copy_of(alloc, "other list\n")
}

/// `collision HEX HEX`: two byte strings in lower case. Fails only if out of memory.
pub fn collision_text(alloc: Global, found: &Collision) -> Result<Text, OutOfMemory>
    ensures { IfOk result (λ line. line ≡ collision_line found.now.left found.now.right) }
{
    let left = hex::encode(alloc, found.left.as_slice())?;
    let right = hex::encode(alloc, found.right.as_slice())?;
    Ok(Text::from(format!(in alloc; "collision {left} {right}\n")?))
}
