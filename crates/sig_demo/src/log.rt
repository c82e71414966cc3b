//! `DemoLog`: the demonstration's log.
ghost use Rattle.std.specs.Prelude.{◌≡◌, ◌<◌, ◌≤◌, ◌^◌, IfOk};
ghost use Rattle.sig_demo.specs.Log.{demo_entries, demo_entry};

use sig_base::{Entries, Hashes, OutOfMemory, Text};
use sig_merkle::{path_of, root_of};
use std::alloc::Global;

/// The most entries that the log may have.
pub const MOST_ENTRIES: u64 = 4096;

/// The number in the first entry.
const FIRST_NUMBER: u64 = 123_456;

/// A log of made entries, and the proof that one of them is in it.
#[derive(Drop)]
pub struct DemoLog {
    /// How many entries the log has.
    pub count: u64,
    /// The entries in order: `L123456`, `L123457` and so on.
    pub entries: Entries,
    /// The root of their tree (RFC 6962 section 2.1).
    pub root: [u8; 32],
    /// The audit path of the entry at half the count (RFC 6962 section 2.1.1).
    pub path: Hashes,
}

impl DemoLog {
    ghost use Rattle.sig_demo.specs.Log.{demo_log};

    /// Makes the log of `count` entries. Each entry and each node of their tree is hashed at most twice. Fails only if
    /// out of memory.
    #[tactic(auto, using(crate::proofs::Logs::logs))]
    pub fn new(alloc: Global, count: u64) -> Result<DemoLog, OutOfMemory>
        requires some { 1 ≤ count }
        requires most { count ≤ 4096 }
        ensures { IfOk result (λ log. log ≡ demo_log count) }
    {
        let entries = entries_of(alloc, count)?;
        let root = root_of(&entries, entries.len());
        let path = path_of(alloc, &entries, (count / 2) as usize)?;
        Ok(DemoLog {
            count,
            entries,
            root,
            path,
        })
    }
}

/// Returns the entries of a log of `count` entries. Fails only if out of memory.
#[tactic(auto, using(crate::proofs::Logs::logs))]
fn entries_of(alloc: Global, count: u64) -> Result<Entries, OutOfMemory>
    requires { count ≤ 4096 }
    ensures { IfOk result (λ entries. entries ≡ demo_entries count) }
{
    let mut entries = Entries::new(alloc);
    'entries: for index in 0..count {
        let entry = entry_at(alloc, index)?;
        entries.push(entry.as_str().as_bytes())?;
    }
    Ok(entries)
}

/// The entry at an index. Fails only if out of memory.
pub(crate) fn entry_at(alloc: Global, index: u64) -> Result<Text, OutOfMemory>
    requires { index ≤ 4096 }
    ensures { IfOk result (λ entry. entry ≡ demo_entry index) }
{
    let number = FIRST_NUMBER + index;
    let text = format!(in alloc; "L{number}")?;
    Ok(Text::from(text))
}
