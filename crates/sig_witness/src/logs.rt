//! `Logs`: a map from origins to what is kept of their logs.
ghost use Rattle.std.specs.Prelude.{◌≡◌, [], ◌∷◌, length, OnOk, OnErr, IsSome, Some};
ghost use Rattle.std.specs.Option.{option_copied};
ghost use Rattle.sig_base.specs.ByText.{text_lookup, text_put, KeysAscend};
ghost use Rattle.sig_witness.specs.declared.kept_log.KeptLog.{KeptLog as Log};
ghost use Rattle.sig_witness.specs.Updates.{grown_log};

use crate::kept_log::KeptLog;
use crate::log_entries::LogEntries;
use sig_audit::ChainHead;
use sig_base::OutOfMemory;
use std::alloc::Global;
use std::collections::BTreeMap;
use std::marker::Model;

/// A map from origins to logs, in which a log grows in place. Contracts see the list of its entries, each origin once,
/// in byte order of the origins.
#[derive(Drop)]
pub struct Logs {
    alloc: Global,
    logs: BTreeMap<String, KeptLog>,
}

impl Model for Logs {
    ghost use Rattle.std.specs.Prelude.{ℕ, List};
    ghost use Rattle.sig_base.specs.ByText.{text_entries, KeysAscend};
    ghost use Rattle.sig_witness.specs.declared.kept_log.KeptLog.{KeptLog};

    ghost Value = { List (List ℕ × KeptLog) };

    ghost view = { λ m. text_entries m.logs.entries };

    ghost invariant = { λ m. KeysAscend (text_entries m.logs.entries) };
}

impl Logs {
    /// A map without entries. It takes no memory.
    pub fn new(alloc: Global) -> Logs
        ensures { result ≡ [] }
    {
        Logs {
            alloc,
            logs: BTreeMap::new(alloc),
        }
    }

    /// The allocator that the map takes its memory from.
    pub fn allocator(&self) -> Global {
        self.alloc
    }

    /// How many entries there are.
    #[tactic(auto, using(sig_base::proofs::Texts::text_maps))]
    pub fn len(&self) -> usize
        ensures count { result ≡ length self.now }
        ensures ordered { KeysAscend self.now }
    {
        self.logs.len()
    }

    /// Returns what is kept at an origin, or `None` if the origin is not there.
    #[tactic(auto, using(sig_base::proofs::Texts::text_maps))]
    pub fn get(&self, origin: &str) -> Option<&KeptLog>
        ensures { option_copied result ≡ text_lookup origin.now self.now }
    {
        self.logs.get(origin)
    }

    /// The entries in byte order of the origins. It takes no memory.
    #[tactic(auto, using(sig_base::proofs::Texts::text_maps))]
    pub fn iter(&self) -> LogEntries<'_>
        ensures rest { result ≡ self.now }
        ensures ordered { KeysAscend self.now }
    {
        LogEntries {
            inner: self.logs.iter(),
        }
    }

    /// Keeps a log at an origin. Fails only if out of memory; the map is then unchanged.
    #[tactic(auto, using(sig_base::proofs::Texts::text_maps))]
    pub fn insert(&mut self, origin: &str, log: KeptLog) -> Result<(), OutOfMemory>
        ensures ok { OnOk result (self.new ≡ text_put origin.now log self.old) }
        ensures err { OnErr result (self.new ≡ self.old) }
    {
        let origin = String::from_str(self.alloc, origin)?;
        self.logs.insert(origin, log)?;
        Ok(())
    }

    /// Adds a head to the log of an origin that is there. Fails only if out of memory; the map is then unchanged.
    pub fn grow(&mut self, origin: &str, head: ChainHead) -> Result<(), OutOfMemory>
        requires { IsSome (text_lookup origin.now self.old) }
        ensures ok { (log : Log) → text_lookup origin.now self.old ≡ Some log
            → OnOk result (self.new ≡ text_put origin.now (grown_log log head) self.old) }
        ensures err { OnErr result (self.new ≡ self.old) }
    {
        let Some(log) = self.logs.get_mut(origin) else {
            unreachable!()
        };
        push_head(log, head)?;
        Ok(())
    }
}

/// Adds a head to a log. Fails only if out of memory; the log is then unchanged.
fn push_head(log: &mut KeptLog, head: ChainHead) -> Result<(), OutOfMemory>
    ensures ok { OnOk result (log.new ≡ grown_log log.old head) }
    ensures err { OnErr result (log.new ≡ log.old) }
{
    log.chain.push(head)
}
