//! `Reply`: what a command answers.
ghost use Rattle.std.specs.Prelude.{◌≡◌, IfOk};

use sig_base::{OutOfMemory, Text};
use std::alloc::Global;

/// The reply of a command: the status of the program, and the text that it writes.
#[derive(Drop)]
pub struct Reply {
    pub status: u8,
    pub text: Text,
}

impl Reply {
    ghost use Rattle.sig_reply.specs.Reply.{listed, refusal, refusal_at};

    /// Returns `refused NAME`, for the first link that fails, with this status. Fails only if out of memory.
    pub fn refused(alloc: Global, status: u8, name: &str) -> Result<Reply, OutOfMemory>
        ensures { IfOk result (λ reply. reply ≡ refusal status name.now) }
    {
        let text = Text::from(format!(in alloc; "refused {name}\n")?);
        Ok(Reply { status, text })
    }

    /// Returns `refused NAME PLACE`, for the first link that fails of several things, and the index of the thing, with
    /// status 1. Fails only if out of memory.
    pub fn refused_at(alloc: Global, name: &str, place: usize) -> Result<Reply, OutOfMemory>
        ensures { IfOk result (λ reply. reply ≡ refusal_at name.now place) }
    {
        let text = Text::from(format!(in alloc; "refused {name} {place}\n")?);
        Ok(Reply { status: 1, text })
    }

    /// Returns the document of a list of signatures, and a newline, with status 0. Fails only if out of memory.
    pub fn listed(alloc: Global, document: &Text) -> Result<Reply, OutOfMemory>
        ensures { IfOk result (λ reply. reply ≡ listed document.now) }
    {
        let document = document.as_str();
        let text = Text::from(format!(in alloc; "{document}\n")?);
        Ok(Reply { status: 0, text })
    }
}
