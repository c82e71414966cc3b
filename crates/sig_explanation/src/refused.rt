//! A refusal as an object: the link that fails, the cause, and what the error keeps.
ghost use Rattle.std.specs.Prelude.{◌≡◌, IfOk, codes, option_map};
ghost use Rattle.sig_json.specs.Writing.{members, members_into, put_some};
ghost use Rattle.sig_explanation.specs.Refusal.{link_row, refusal_rows};
ghost use Rattle.sig_json.specs.Data.{no_members};

use crate::cause::cause;
use crate::kept::with_kept;
use sig_base::OutOfMemory;
use sig_json::Object;
use sig_shown::{ShownText, with_list};
use sig_verify::OfflineError;
use std::alloc::Global;

/// The object of a refusal. Its members are `link`, the name of the link that fails; `cause`, the names of the error's
/// variants, the outermost first; and what the error keeps. Fails only if out of memory.
pub fn refusal(alloc: Global, error: &OfflineError) -> Result<Object, OutOfMemory>
    ensures { IfOk result (λ made. members made ≡ members_into no_members (refusal_rows error.now)) }
{
    let object = with_link(Object::new(alloc), alloc, error)?;
    let names = cause(alloc, error)?;
    let object = with_list::<ShownText>(object, alloc, "cause", names.as_slice())?;
    with_kept(object, alloc, error)
}

/// The object with the name of the link that fails; without it if memory ran out.
fn with_link(object: Object, alloc: Global, error: &OfflineError) -> Result<Object, OutOfMemory>
    ensures { IfOk result (λ made. members made
        ≡ put_some (link_row error.now).0 (link_row error.now).1 (members object)) }
{
    match error.link() {
        Some(link) => object.with_text(alloc, "link", link.name()),
        None => Ok(object),
    }
}
